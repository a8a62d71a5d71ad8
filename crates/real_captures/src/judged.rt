//! Captures and the verdicts on them, told by tables of blocks of lines.

use crate::altered::altered;
use crate::case::{malformed, octets_of};
use bgp_compact::CompactTracker;
use bgp_judge::{PlainTracker, Tracker};
use bgp_open::Config;
use bgp_tool::judge_capture;
use bgp_vectors::config_of;
use mrt::{MemSink, MemSource, SinkUpset, SourceUpset};
use rand_pcg::Pcg32;
use std::alloc::{AllocError, Global};
use std::num::NonZeroUsize;
use std::rt::Files;
use std::{fs, io};

/// A capture, how it is judged, and what is printed and answered.
#[derive(Drop)]
pub(crate) struct Judged {
    pub(crate) config: Config,
    pub(crate) capture: Vec<u8>,
    pub(crate) text: String,
    pub(crate) status: u8,
}

/// Appends a line to what is printed.
fn push_line(text: &mut String, line: &str) -> Result<(), AllocError> {
    text.push_str(line)?;
    text.push_str("\n")
}

/// What the lines of a block have told so far.
#[derive(Drop)]
struct Parts {
    config: Option<Config>,
    capture: Vec<u8>,
    text: String,
    status: Option<u8>,
}

/// Takes what a line tells.
fn take_line<R: Files + AllocGlobal>(rt: &R, parts: &mut Parts, line: &str) -> io::Result<()> {
    let (word, rest) = line.split_once(' ').unwrap_or((line, ""));
    match word {
        "case" => {}
        "config" => parts.config = config_of(rt.alloc(), rest)?,
        "octets" => {
            let octets = octets_of(rt.alloc(), rest)?;
            parts.capture.extend_from_slice(octets.as_slice())?;
        }
        "capture" => parts.capture = fs::read(rt, rest)?,
        "status" => parts.status = rest.parse::<u8>().ok(),
        ">" => push_line(&mut parts.text, rest)?,
        _ => return Err(malformed()),
    }
    Ok(())
}

/// Reads a block of lines: `config` and the configuration; `octets` and a piece of the
/// capture, or `capture` and the name of a file; `status` and a number; `>` and a line that is
/// printed. A line of `case` says what the block teaches.
pub(crate) fn read_judged<R: Files + AllocGlobal>(rt: &R, block: &str) -> io::Result<Judged> {
    let mut parts = Parts {
        config: None,
        capture: Vec::new(rt.alloc()),
        text: String::new(rt.alloc()),
        status: None,
    };
    for line in block.split('\n') {
        take_line(rt, &mut parts, line)?;
    }
    let Parts {
        config,
        capture,
        text,
        status,
    } = parts;
    match (config, status) {
        (Some(config), Some(status)) => Ok(Judged {
            config,
            capture,
            text,
            status,
        }),
        _ => Err(malformed()),
    }
}

/// What fails while a case is judged.
#[derive(Clone, Copy)]
enum Failing {
    Nothing,
    /// The source, behind the capture.
    Source,
    /// The sink, at once.
    Sink,
}

/// What judging a case with a tracker wrote and answered.
fn answer_to<T: Tracker<Global>>(
    alloc: Global,
    case: &Judged,
    failing: Failing,
) -> Result<(Vec<u8>, u8), AllocError> {
    let mut source = MemSource::new(Vec::from_slice(alloc, case.capture.as_slice())?);
    let mut sink = MemSink::new(alloc);
    match failing {
        Failing::Nothing => {}
        Failing::Source => {
            source = source
                .in_pieces_of(NonZeroUsize::MIN)
                .upset_at(case.capture.len() as u64, SourceUpset::Fail);
        }
        Failing::Sink => sink = sink.upset_at(0, SinkUpset::Fail),
    }
    let status = judge_capture::<Global, T, MemSource, MemSink>(
        alloc,
        &case.config,
        &mut source,
        &mut sink,
    );
    Ok((sink.into_octets(), status))
}

/// Whether judging a case with a tracker writes this text and answers this status.
fn answers<T: Tracker<Global>>(
    alloc: Global,
    case: &Judged,
    failing: Failing,
    text: &[u8],
    status: u8,
) -> Result<bool, AllocError> {
    let (written, answered) = answer_to::<T>(alloc, case, failing)?;
    Ok(written.as_slice() == text && answered == status)
}

/// Whether a source is told that fails behind the capture, if it isn't refused before.
fn is_source_told<T: Tracker<Global>>(alloc: Global, case: &Judged) -> Result<bool, AllocError> {
    if case.status > 2 {
        return Ok(true);
    }
    let length = case.capture.len();
    let text = format!(in alloc; "capture refused: 9 Device at {length}\n")?;
    answers::<T>(alloc, case, Failing::Source, text.as_bytes(), 5)
}

/// Whether a case is so with a tracker.
fn is_so<T: Tracker<Global>>(alloc: Global, case: &Judged) -> Result<bool, AllocError> {
    let text = case.text.as_bytes();
    Ok(
        answers::<T>(alloc, case, Failing::Nothing, text, case.status)?
            && is_source_told::<T>(alloc, case)?
            && answers::<T>(alloc, case, Failing::Sink, b"", 5)?,
    )
}

/// Whether a case is so with both trackers, also from a source that fails behind it, and into a
/// sink that fails.
pub(crate) fn is_judged_by_both<R: Files + AllocGlobal>(rt: &R, block: &str) -> io::Result<bool> {
    let case = read_judged(rt, block)?;
    Ok(
        is_so::<PlainTracker<Global>>(rt.alloc(), &case)?
            && is_so::<CompactTracker<Global>>(rt.alloc(), &case)?,
    )
}

/// What both trackers write and answer for a capture, where they answer alike.
pub(crate) fn common_answer(
    alloc: Global,
    case: &Judged,
) -> Result<Option<(Vec<u8>, u8)>, AllocError> {
    let plain = answer_to::<PlainTracker<Global>>(alloc, case, Failing::Nothing)?;
    let is_alike = is_compact_so(alloc, case, &plain)?;
    Ok(is_alike.then_some(plain))
}

/// Whether the compact tracker writes and answers this, too.
fn is_compact_so(
    alloc: Global,
    case: &Judged,
    (text, status): &(Vec<u8>, u8),
) -> Result<bool, AllocError> {
    let nothing = Failing::Nothing;
    answers::<CompactTracker<Global>>(alloc, case, nothing, text.as_slice(), *status)
}

/// Alters a case's capture. Answers whether both trackers answer it alike.
fn is_altered_alike(
    alloc: Global,
    case: &mut Judged,
    random: &mut Pcg32,
) -> Result<bool, AllocError> {
    case.capture = altered(alloc, case.capture.as_slice(), random)?;
    Ok(common_answer(alloc, case)?.is_some())
}

/// Alters the capture of a case twice. Answers whether both trackers answer each alike.
fn are_altered_alike<R: Files + AllocGlobal>(
    rt: &R,
    block: &str,
    random: &mut Pcg32,
) -> io::Result<bool> {
    let mut case = read_judged(rt, block)?;
    let is_first = is_altered_alike(rt.alloc(), &mut case, random)?;
    let is_second = is_altered_alike(rt.alloc(), &mut case, random)?;
    Ok(is_first && is_second)
}

/// Alters the capture of a case twice, up to so many, and prints the case if the trackers don't
/// answer each alike. Answers whether they do.
fn compare_altered_case<R: Files + Print + AllocGlobal>(
    rt: &R,
    captures: u64,
    block: &str,
    random: &mut Pcg32,
) -> io::Result<bool> {
    let are_alike = are_altered_alike(rt, block, random)?;
    if !are_alike {
        println!(rt; "altered to {captures}, it isn't judged alike:\n{block}")?;
    }
    Ok(are_alike)
}

/// Alters each capture of a table twice, and prints each case for which the trackers don't answer
/// alike, and then how many captures there were. Answers whether all are so. The changes are the
/// same in each run.
pub(crate) fn compare_altered<R: Files + Print + AllocGlobal>(
    rt: &R,
    name: &str,
) -> io::Result<bool> {
    let table = fs::read_to_string(rt, name)?;
    let mut random = Pcg32::new(42, 54);
    let mut captures = 0u64;
    let mut all = true;
    for block in table.split("\n\n") {
        let block = block.trim_end();
        if block.is_empty() {
            continue;
        }
        captures = captures.saturating_add(2);
        all &= compare_altered_case(rt, captures, block, &mut random)?;
    }
    println!(rt; "{name}: {captures} altered captures")?;
    Ok(all)
}
