//! What is printed of the captures of both ends of a connection, and the exit status.

use super::*;
use bgp_compact::CompactTracker;
use bgp_speak_tool::judge_pair;
use bgp_wire::vectors::OPEN_A;
use mrt::Record::{self, Change, In, Out};
use mrt::{MemSource, is_writable, write_record};

/// A session's first records.
static RECORDS: [Record<'static>; 4] = [
    Change(100, 1, 2),
    Out(100, &OPEN_A),
    Change(100, 2, 4),
    In(101, &OPEN_B),
];

/// Writes a record. Answers whether it could be.
fn put(sink: &mut MemSink, record: &Record<'_>) -> bool {
    sink.failures() < u64::MAX
        && is_writable(&SPEAKER_A.session, record)
        && write_record(sink, &SPEAKER_A.session, 65002, 65001, record).is_ok()
}

/// A capture of so many of [`RECORDS`], if they could be written.
fn capture_of(alloc: Global, count: usize) -> Option<Vec<u8>> {
    let mut sink = MemSink::new(alloc);
    for record in RECORDS.iter().take(count) {
        if !put(&mut sink, record) {
            return None;
        }
    }
    Some(sink.into_octets())
}

/// What judging both captures writes and answers, each of so many of a session's first records,
/// where this write of the sink fails.
fn judged_pair(alloc: Global, left: usize, right: usize, fails: u64) -> Option<(Vec<u8>, u8)> {
    let config = Config::new(SPEAKER_A)?;
    let mut left = MemSource::new(capture_of(alloc, left)?);
    let mut right = MemSource::new(capture_of(alloc, right)?);
    let mut sink = MemSink::new(alloc).upset_at(fails, SinkUpset::Fail);
    let status = judge_pair::<Global, CompactTracker<Global>, _, _, _>(
        alloc, &config, &mut left, &config, &mut right, &mut sink,
    );
    Some((sink.into_octets(), status))
}

/// How many records the left capture has and the right one, the write that fails, the text, and the
/// status: the greater one of both, or 5. No records are a yes, whose status is 0; four, the last
/// of which leaves its message owed, unfinished: 2.
static PAIRS: [(usize, usize, u64, &str, u8); 4] = [
    (
        0,
        0,
        u64::MAX,
        "left yes\nend Idle disabled -\nright yes\nend Idle disabled -\n",
        0,
    ),
    (
        0,
        4,
        u64::MAX,
        "left yes\nend Idle disabled -\nright unfinished\n",
        2,
    ),
    (
        4,
        0,
        u64::MAX,
        "left unfinished\nright yes\nend Idle disabled -\n",
        2,
    ),
    (0, 0, 0, "", 5),
];

/// Whether a pair is judged so.
fn is_pair_judged(
    alloc: Global,
    (left, right, fails, text, status): &(usize, usize, u64, &str, u8),
) -> bool {
    match judged_pair(alloc, *left, *right, *fails) {
        Some((written, answer)) => same(&written, answer, text, *status),
        None => false,
    }
}

#[test]
fn each_end_of_a_pair_is_judged(rt: HostRuntime) {
    for pair in &PAIRS {
        assert!(rt; is_pair_judged(rt.alloc(), pair));
    }
}
