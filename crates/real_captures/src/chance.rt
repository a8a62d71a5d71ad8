//! A thousand sessions by chance, the same in each run, judged by the plain tracker and by the
//! compact one: both print the same text and answer the same status.

use crate::judged::{Judged, common_answer};
use crate::walk::random_session;
use bgp_open::{Config, ConfigParts};
use bgp_vectors::ROUTER_A;
use mrt::{MemSink, Record, Sink, is_writable, write_record};
use rand_pcg::Pcg32;
use std::alloc::Global;
use std::io;

/// How many sessions there are.
const SESSIONS: usize = 1000;

/// How many sessions were judged so.
#[derive(Clone, Copy)]
struct Counts {
    yes: u64,
    no: u64,
    unfinished: u64,
    refused: u64,
    /// Of those with the verdict yes, how many have routes.
    routes: u64,
    /// And how many have several ends.
    several: u64,
}

/// Writes a record.
fn put(sink: &mut MemSink, record: &Record<'_>) -> io::Result<()> {
    if sink.failures() == u64::MAX || !is_writable(&ROUTER_A.session, record) {
        return Err(io::Error::from(io::ErrorKind::InvalidData));
    }
    match write_record(sink, &ROUTER_A.session, 65002, 65001, record) {
        Ok(()) => Ok(()),
        Err(_) => Err(io::Error::from(io::ErrorKind::InvalidData)),
    }
}

/// A capture of these records.
fn capture_of(alloc: Global, records: &[Record<'_>]) -> io::Result<Vec<u8>> {
    let mut sink = MemSink::new(alloc);
    for record in records {
        put(&mut sink, record)?;
    }
    Ok(sink.into_octets())
}

/// A capture of the next session.
fn next_capture(alloc: Global, random: &mut Pcg32) -> io::Result<Vec<u8>> {
    let records = random_session(alloc, random)?;
    capture_of(alloc, &records)
}

/// How many lines begin so.
fn lines_with(text: &[u8], word: &[u8]) -> usize {
    text.split(|octet| *octet == b'\n')
        .filter(|line| line.starts_with(word))
        .count()
}

/// One more.
fn add(count: &mut u64) {
    *count = count.saturating_add(1);
}

/// Counts a verdict.
fn tally(counts: &mut Counts, text: &[u8], status: u8) {
    match status {
        0 => add(&mut counts.yes),
        1 => add(&mut counts.no),
        2 => add(&mut counts.unfinished),
        _ => add(&mut counts.refused),
    }
    if lines_with(text, b"route ") > 0 {
        add(&mut counts.routes);
    }
    if lines_with(text, b"end ") > 1 {
        add(&mut counts.several);
    }
}

/// Judges the next session, and counts its verdict. Answers whether both trackers answer alike.
fn is_next_alike(
    alloc: Global,
    delay_open: bool,
    random: &mut Pcg32,
    counts: &mut Counts,
) -> io::Result<bool> {
    let Some(config) = Config::new(ConfigParts {
        delay_open,
        ..ROUTER_A
    }) else {
        return Ok(false);
    };
    let case = Judged {
        config,
        capture: next_capture(alloc, random)?,
        text: String::new(alloc),
        status: 0,
    };
    let Some((text, status)) = common_answer(alloc, &case)? else {
        return Ok(false);
    };
    tally(counts, &text, status);
    Ok(true)
}

/// Judges all, and prints each that the trackers don't answer alike, and then how many had which
/// verdict. Answers whether all are so. In every fourth session the OPEN is never delayed.
pub(crate) fn judge_sessions<R: Print + AllocGlobal>(rt: &R) -> io::Result<bool> {
    let mut random = Pcg32::new(42, 54);
    let mut counts = Counts {
        yes: 0,
        no: 0,
        unfinished: 0,
        refused: 0,
        routes: 0,
        several: 0,
    };
    let mut all = true;
    for number in 0..SESSIONS {
        if !is_next_alike(rt.alloc(), number % 4 != 0, &mut random, &mut counts)? {
            println!(rt; "session {number} isn't judged alike")?;
            all = false;
        }
    }
    let Counts {
        yes,
        no,
        unfinished,
        refused,
        routes,
        several,
    } = counts;
    println!(rt;
        "{SESSIONS} sessions: {yes} yes, {no} no, {unfinished} unfinished, {refused} refused"
    )?;
    println!(rt; "of those with yes {routes} have routes, and {several} several ends")?;
    Ok(all)
}
