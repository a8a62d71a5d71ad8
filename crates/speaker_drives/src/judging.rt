//! How a drive's capture is judged.

use bgp_compact::CompactTracker;
use bgp_judge::{End, PlainTracker, Tracker};
use bgp_open::Config;
use bgp_speaker::Shown;
use bgp_text::Lines;
use bgp_tool::{judge_capture, put_end};
use mrt::{MemSink, MemSource, Record, Sink, is_writable, write_record};
use std::alloc::Global;
use std::io;

/// Octets as a text.
fn text_of(octets: Vec<u8>) -> io::Result<String> {
    match String::from_utf8(octets) {
        Ok(text) => Ok(text),
        Err(_) => Err(io::Error::from(io::ErrorKind::InvalidData)),
    }
}

/// Writes a record.
fn put(sink: &mut MemSink, config: &Config, record: &Record<'_>) -> io::Result<()> {
    let parts = &config.parts;
    if sink.failures() == u64::MAX || !is_writable(&parts.session, record) {
        return Err(io::Error::from(io::ErrorKind::InvalidData));
    }
    match write_record(sink, &parts.session, parts.peer_as, parts.local_as, record) {
        Ok(()) => Ok(()),
        Err(_) => Err(io::Error::from(io::ErrorKind::InvalidData)),
    }
}

/// A capture of what a core showed.
pub(crate) fn capture_of(alloc: Global, config: &Config, shown: &[Shown]) -> io::Result<Vec<u8>> {
    let mut sink = MemSink::new(alloc);
    for shown in shown {
        put(&mut sink, config, &shown.record())?;
    }
    Ok(sink.into_octets())
}

/// The text of an end.
pub(crate) fn end_text(alloc: Global, end: &End) -> io::Result<String> {
    let mut sink = MemSink::new(alloc);
    let mut lines = Lines::new(&mut sink);
    put_end(&mut lines, end);
    if lines.hand_over().is_err() {
        return Err(io::Error::from(io::ErrorKind::OutOfMemory));
    }
    text_of(sink.into_octets())
}

/// What judging a capture with a tracker writes and answers.
fn answer_to<T: Tracker<Global>>(
    alloc: Global,
    config: &Config,
    capture: &[u8],
) -> io::Result<(String, u8)> {
    let mut source = MemSource::new(Vec::from_slice(alloc, capture)?);
    let mut sink = MemSink::new(alloc);
    let status = judge_capture::<Global, T, MemSource, MemSink>(
        alloc,
        config,
        &mut source,
        &mut sink,
    );
    Ok((text_of(sink.into_octets())?, status))
}

/// Whether the text of a verdict is a yes, with this end among its ends.
fn is_yes_with(text: &str, end: &str) -> bool {
    let (Some(ends), Some(wanted)) = (text.strip_prefix("yes\n"), end.strip_prefix("end ")) else {
        return false;
    };
    ends.split("end ").any(|other| other == wanted)
}

/// The text of the verdict on a capture, if both trackers judge it alike: yes.
fn text_of_yes(alloc: Global, config: &Config, capture: &[u8]) -> io::Result<Option<String>> {
    let plain = answer_to::<PlainTracker<Global>>(alloc, config, capture)?;
    let compact = answer_to::<CompactTracker<Global>>(alloc, config, capture)?;
    Ok((plain == compact && plain.1 == 0).then_some(plain.0))
}

/// Whether both trackers judge a capture so, with this end among its ends.
pub(crate) fn is_judged(
    alloc: Global,
    config: &Config,
    capture: &[u8],
    end: &str,
) -> io::Result<bool> {
    match text_of_yes(alloc, config, capture)? {
        Some(text) => Ok(is_yes_with(text.as_str(), end)),
        None => Ok(false),
    }
}

/// Whether both trackers judge a capture so, with one end: Idle, without routes.
pub(crate) fn is_judged_idle(alloc: Global, config: &Config, capture: &[u8]) -> io::Result<bool> {
    match text_of_yes(alloc, config, capture)? {
        Some(text) => Ok(text.as_str() == "yes\nend Idle disabled -\n"),
        None => Ok(false),
    }
}
