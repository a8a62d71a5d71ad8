//! A talk of a speaker over a wire and what comes of it, told by a block of lines: `own` and the
//! prefixes that are announced; `start` and `Start` or `Passive`; `turns` and at most how many;
//! `clock` and its seconds, the last of which repeats; `connect` and `yes` or `no`; `read` and an
//! answer of the wire; `fails-read` or `fails-write` and which one fails, counted from 1, or
//! `takes-nothing` and which write takes nothing; `takes` and at most how many octets a write
//! takes; `taken` and the octets that the wire took; `report turns` and how many; `failures` and
//! how often the wire failed, if that is told.

use crate::case::{are_routes, config_of, hops_of, is_line, line_of, malformed, pieces_of};
use crate::judging::{end_text, is_judged_idle};
use bgp_judge::End;
use bgp_machine::Fsm;
use bgp_open::Config;
use bgp_prefix::{Prefix, Seconds, read_prefix};
use bgp_talk::{MemRead, MemWire, Report, Wire, WireUpset, speak};
use mrt::MemSink;
use std::alloc::Global;
use std::io;
use std::num::NonZeroUsize;

/// What a speaker and its wire are given, but for prefixes and answers.
#[derive(Clone, Copy)]
struct Setting {
    hops: (u32, u128),
    passive: bool,
    turns: u64,
    most: NonZeroUsize,
    upset: (u64, WireUpset),
}

/// The number after a word.
fn number_of(block: &str, word: &str) -> Option<u64> {
    line_of(block, word)?.parse::<u64>().ok()
}

/// What happens in a call of which number: where nothing does, of one that is never made.
fn upset_of(block: &str) -> (u64, WireUpset) {
    if line_of(block, "connect") == Some("no") {
        return (0, WireUpset::ConnectFails);
    }
    if number_of(block, "takes") == Some(0) {
        return (0, WireUpset::WriteTakesNothing);
    }
    if let Some(call) = number_of(block, "takes-nothing") {
        return (call.wrapping_sub(1), WireUpset::WriteTakesNothing);
    }
    let call = number_of(block, "fails-write").unwrap_or(0);
    (call.wrapping_sub(1), WireUpset::WriteFails)
}

/// The setting.
fn setting_of(block: &str) -> io::Result<Setting> {
    let Some(turns) = number_of(block, "turns") else {
        return Err(malformed());
    };
    let most = number_of(block, "takes").and_then(|count| NonZeroUsize::new(count as usize));
    Ok(Setting {
        hops: hops_of(block)?,
        passive: line_of(block, "start") == Some("Passive"),
        turns,
        most: most.unwrap_or(NonZeroUsize::MAX),
        upset: upset_of(block),
    })
}

/// The seconds that the wire tells.
fn seconds_of(alloc: Global, block: &str) -> io::Result<Vec<Seconds>> {
    let mut seconds = Vec::new(alloc);
    for text in line_of(block, "clock").unwrap_or("").split(' ') {
        match text.parse::<Seconds>() {
            Ok(second) => seconds.push(second)?,
            Err(_) => return Err(malformed()),
        }
    }
    Ok(seconds)
}

/// The prefixes that are announced; a dash spells none.
fn own_of(alloc: Global, block: &str) -> io::Result<Vec<Prefix>> {
    let mut own = Vec::new(alloc);
    for text in line_of(block, "own").unwrap_or("").split(' ') {
        match read_prefix(text) {
            Some(prefix) => own.push(prefix)?,
            None if text == "-" => {}
            None => return Err(malformed()),
        }
    }
    Ok(own)
}

/// An answer, whose octets stand at the beginning of `octets`, and what stands after them.
fn read_of<'a>(answer: &str, octets: &'a [u8]) -> Option<(MemRead<'a>, &'a [u8])> {
    match answer {
        "Nothing" => Some((MemRead::Nothing, octets)),
        "Closed" => Some((MemRead::Closed, octets)),
        "Failed" => Some((MemRead::Failed, octets)),
        digits => {
            let (piece, rest) = octets.split_at_checked(digits.len() / 2)?;
            Some((MemRead::Bytes(piece), rest))
        }
    }
}

/// The answers that the lines name, whose octets are those of `octets`.
fn answers_of<'a>(alloc: Global, block: &str, octets: &'a [u8]) -> io::Result<Vec<MemRead<'a>>> {
    let mut reads = Vec::new(alloc);
    let mut rest = octets;
    for line in block.split('\n') {
        if let Some(answer) = line.strip_prefix("read ") {
            let Some((read, others)) = read_of(answer, rest) else {
                return Err(malformed());
            };
            reads.push(read)?;
            rest = others;
        }
    }
    Ok(reads)
}

/// The answers of the wire: before a read that fails the last one repeats.
fn reads_of<'a>(alloc: Global, block: &str, octets: &'a [u8]) -> io::Result<Vec<MemRead<'a>>> {
    let mut reads = answers_of(alloc, block, octets)?;
    if let Some(number) = number_of(block, "fails-read") {
        let last = reads.last().copied().unwrap_or(MemRead::Nothing);
        reads.resize((number as usize).saturating_sub(1), last)?;
        reads.push(MemRead::Failed)?;
    }
    Ok(reads)
}

/// Whether a talk that came to this report has the turns and the routes of its block, and its
/// capture is judged so: at last the speaker has stopped, and is Idle.
fn is_report(
    alloc: Global,
    config: &Config,
    block: &str,
    capture: &[u8],
    report: Report,
) -> io::Result<bool> {
    let Report { turns, rib } = report;
    let told = line_of(block, "report").and_then(|told| told.strip_prefix("turns "));
    let are_turns = told.and_then(|count| count.parse::<u64>().ok()) == Some(turns);
    let fsm = Fsm::Idle;
    let text = end_text(alloc, &End { fsm, rib })?;
    Ok(
        are_turns
            && are_routes(alloc, text.as_str(), block)?
            && is_judged_idle(alloc, config, capture)?,
    )
}

/// Whether a talk comes to what its block says.
fn is_told(
    alloc: Global,
    config: &Config,
    block: &str,
    setting: &Setting,
    own: &[Prefix],
    reads: &[MemRead<'_>],
    seconds: &[Seconds],
) -> io::Result<bool> {
    let session = &config.parts.session;
    if session.peer.family() != session.local.family() {
        return Err(malformed());
    }
    let (call, upset) = setting.upset;
    let mut wire = MemWire::new(alloc, reads, seconds)
        .in_pieces_of(setting.most)
        .upset_at(call, upset);
    let mut sink = MemSink::new(alloc);
    let (hop4, hop6) = setting.hops;
    let passive = setting.passive;
    let turns = setting.turns;
    let told = speak(
        alloc, config, hop4, hop6, passive, own, &mut wire, &mut sink, turns,
    );
    let Ok(report) = told else {
        return Ok(false);
    };
    Ok(
        are_taken(alloc, block, &wire, sink.octets())?
            && is_report(alloc, config, block, sink.octets(), report)?,
    )
}

/// Whether a wire took what its block says, and failed so often, and this is the capture.
fn are_taken(alloc: Global, block: &str, wire: &MemWire<'_>, capture: &[u8]) -> io::Result<bool> {
    let failures = number_of(block, "failures").unwrap_or(wire.failures());
    Ok(
        failures == wire.failures()
            && is_line(alloc, block, "taken", wire.taken())?
            && is_line(alloc, block, "capture", capture)?,
    )
}

/// Whether a talk is so.
pub(crate) fn is_talk(alloc: Global, block: &str) -> io::Result<bool> {
    let config = config_of(alloc, block)?;
    let setting = setting_of(block)?;
    let own = own_of(alloc, block)?;
    let pieces = pieces_of(alloc, block)?;
    let reads = reads_of(alloc, block, pieces.as_slice())?;
    let seconds = seconds_of(alloc, block)?;
    is_told(
        alloc,
        &config,
        block,
        &setting,
        own.as_slice(),
        reads.as_slice(),
        seconds.as_slice(),
    )
}
