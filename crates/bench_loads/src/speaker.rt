//! What a speaker's core costs: it hears UPDATEs that announce a prefix each, beside judging what
//! it showed; and it announces prefixes, beside writing the same UPDATEs.

mod updates;

use crate::parties::{
    LOCAL_ADDRESS, LOCAL_AS, PEER_ADDRESS, PEER_AS, local_config, local_link, peer_link,
};
use crate::{broken, number_of, refused};
use bgp_compact::CompactTracker;
use bgp_judge::{Verdict, judge};
use bgp_open::Config;
use bgp_prefix::{Prefix, Seconds};
use bgp_speaker::{Input, Run, Shown, drive};
use bgp_wire::vectors::{KEEPALIVE, OPEN_B};
use mrt::{MemSink, MemSource, Record, Sink, is_writable, write_record};
use std::alloc::{AllocError, Global};
use std::io;
use std::rt::Clock;
use std::time::{Duration, Instant};
use updates::{plain_path, prefixes_of, written};

/// How many octets an UPDATE has that announces an IPv4 prefix of 24 bits by a path of one AS
/// number of four octets: a header of 19, both lengths, three attributes of 20 and 4 octets.
const UPDATE_LENGTH: usize = 47;

/// The local system's IPv6 next hop, 2001:db8::1.
const HOP_6: u128 = 0x2001_0db8_0000_0000_0000_0000_0000_0001;

/// Hears and announces as many prefixes as the word asks for, a hundred if there is none, and tells
/// how long it took if there is one. Answers whether each part came to what it has to.
pub(crate) fn load_speaker<R: Clock + Print + AllocGlobal>(
    rt: &R,
    words: &[String],
) -> io::Result<bool> {
    let (count, is_timed) = match words {
        [] => (100, false),
        [count] => (number_of(count)?, true),
        _ => return Err(refused()),
    };
    let prefixes = prefixes_of(rt.alloc(), count)?;
    let is_heard = hear(rt, prefixes.as_slice(), is_timed)?;
    let is_announced = announce(rt, prefixes.as_slice(), is_timed)?;
    Ok(is_heard && is_announced)
}

/// What brings a session up.
fn opening<'a>(alloc: Global) -> Result<Vec<(Seconds, Input<'a>)>, AllocError> {
    Vec::from_slice(
        alloc,
        &[
            (100, Input::Start),
            (100, Input::Connected),
            (100, Input::Bytes(&OPEN_B)),
            (100, Input::Bytes(&KEEPALIVE)),
        ],
    )
}

/// Drives a core of the local system, and tells how long it took.
fn driven<R: Clock + AllocGlobal>(
    rt: &R,
    config: &Config,
    inputs: &[(Seconds, Input<'_>)],
) -> io::Result<(Run, Duration)> {
    let began = Instant::now(rt)?;
    let run = drive(rt.alloc(), config, LOCAL_ADDRESS, HOP_6, inputs)?;
    Ok((run, began.elapsed(rt)?))
}

/// Writes a record.
fn put(sink: &mut MemSink, config: &Config, record: &Record<'_>) -> io::Result<()> {
    let session = &config.parts.session;
    if sink.failures() == u64::MAX || !is_writable(session, record) {
        return Err(broken());
    }
    match write_record(sink, session, PEER_AS, LOCAL_AS, record) {
        Ok(()) => Ok(()),
        Err(_) => Err(broken()),
    }
}

/// A capture of what a core showed.
fn capture_of(alloc: Global, config: &Config, shown: &[Shown]) -> io::Result<Vec<u8>> {
    let mut sink = MemSink::new(alloc);
    for shown in shown {
        put(&mut sink, config, &shown.record())?;
    }
    Ok(sink.into_octets())
}

/// How many routes the verdict on a capture leaves, if it is a yes with one end, and how long
/// judging took.
fn judged<R: Clock + AllocGlobal>(
    rt: &R,
    config: &Config,
    capture: Vec<u8>,
) -> io::Result<(Option<usize>, Duration)> {
    let mut source = MemSource::new(capture);
    let began = Instant::now(rt)?;
    let verdict = judge::<Global, CompactTracker, MemSource>(rt.alloc(), config, &mut source);
    let took = began.elapsed(rt)?;
    let routes = match &verdict {
        Ok(Verdict::Yes(ends)) if ends.len() == 1 => ends.first().map(|end| end.rib.len()),
        _ => None,
    };
    Ok((routes, took))
}

/// The UPDATEs by which the peer announces the prefixes.
fn heard_updates(alloc: Global, prefixes: &[Prefix]) -> io::Result<Vec<u8>> {
    let path = plain_path(alloc, PEER_AS, PEER_ADDRESS)?;
    written(alloc, &peer_link()?, &path, prefixes)
}

/// Hears UPDATEs, and judges what a core showed then. Answers whether both leave all routes.
fn hear<R: Clock + Print + AllocGlobal>(
    rt: &R,
    prefixes: &[Prefix],
    is_timed: bool,
) -> io::Result<bool> {
    let config = local_config()?;
    let updates = heard_updates(rt.alloc(), prefixes)?;
    let mut inputs = opening(rt.alloc())?;
    for update in updates.as_slice().chunks(UPDATE_LENGTH) {
        inputs.extend_from_slice(&[(101, Input::Bytes(update))])?;
    }
    let (run, hearing) = driven(rt, &config, inputs.as_slice())?;
    let capture = capture_of(rt.alloc(), &config, run.records.as_slice())?;
    let (routes, judging) = judged(rt, &config, capture)?;
    println!(rt;
        "{} UPDATEs heard: {} routes",
        prefixes.len(),
        run.rib.len()
    )?;
    if is_timed {
        println!(rt;
            "hear {} us, judge {} us",
            hearing.as_micros(),
            judging.as_micros()
        )?;
    }
    Ok(run.rib.len() == prefixes.len() && routes == Some(prefixes.len()))
}

/// Announces the prefixes, and writes the same UPDATEs. Answers whether they are the same.
fn announce<R: Clock + Print + AllocGlobal>(
    rt: &R,
    prefixes: &[Prefix],
    is_timed: bool,
) -> io::Result<bool> {
    let config = local_config()?;
    let mut inputs = opening(rt.alloc())?;
    for prefix in prefixes {
        inputs.extend_from_slice(&[(101, Input::Announce(*prefix))])?;
    }
    let (run, announcing) = driven(rt, &config, inputs.as_slice())?;
    let link = local_link()?;
    let path = plain_path(rt.alloc(), LOCAL_AS, LOCAL_ADDRESS)?;
    let began = Instant::now(rt)?;
    let updates = written(rt.alloc(), &link, &path, prefixes)?;
    let writing = began.elapsed(rt)?;
    let is_same = run.sent.as_slice().ends_with(updates.as_slice());
    println!(rt;
        "{} prefixes announced, as they are written: {is_same}",
        prefixes.len()
    )?;
    if is_timed {
        println!(rt;
            "announce {} us, write {} us",
            announcing.as_micros(),
            writing.as_micros()
        )?;
    }
    Ok(is_same)
}
