//! What is printed of a speaker over a wire in memory, and its exit status.

use super::*;
use bgp_speak_tool::speak_session;
use linked_list_allocator::LocalHeap;

/// The second of each input.
static SECONDS: [u32; 1] = [1000];

/// What is printed after five turns.
const REPORT: &str = "\
turns 5
route 10.2.0.0/16 via 192.0.2.2 path 65002 origin 0
";

/// How many octets such a capture has: 12 records, of 32 octets and of their content each. These
/// are five changes and the messages.
const CAPTURED: usize = 12 * 32 + 5 * 4 + 49 + 49 + 19 + 19 + 46 + 46 + 21;

/// What speaking with this memory prints and answers, and how much of its capture is written, where
/// these writes of the capture's sink and of the output's fail.
fn spoken<A: Allocator + Copy>(
    memory: A,
    alloc: Global,
    capture_fails: u64,
    output_fails: u64,
) -> Option<(Vec<u8>, usize, u8)> {
    let config = Config::new(SPEAKER_A)?;
    let own = read_prefix("10.1.0.0/16")?;
    let mut wire = MemWire::new(alloc, &READS[..4], &SECONDS);
    let mut capture = MemSink::new(alloc).upset_at(capture_fails, SinkUpset::Fail);
    let mut output = MemSink::new(alloc).upset_at(output_fails, SinkUpset::Fail);
    let status = speak_session(
        memory,
        &config,
        HOP_4,
        HOP_6,
        false,
        &[own],
        &mut wire,
        &mut capture,
        &mut output,
        5,
    );
    Some((output.into_octets(), capture.into_octets().len(), status))
}

/// Whether this is printed, the capture is whole or isn't, and the status is this, where these
/// writes of the capture's sink and of the output's fail.
fn is_spoken(
    alloc: Global,
    (capture_fails, output_fails, text, whole, status): &(u64, u64, &str, bool, u8),
) -> bool {
    match spoken(alloc, alloc, *capture_fails, *output_fails) {
        Some((written, captured, answer)) => {
            same(&written, answer, text, *status) && (captured == CAPTURED) == *whole
        }
        None => false,
    }
}

/// Which write of the capture's sink and which of the output's fails, what is printed, whether the
/// capture is whole, and the status.
static TALKS: [(u64, u64, &str, bool, u8); 4] = [
    (u64::MAX, u64::MAX, REPORT, true, 0),
    (0, u64::MAX, "", false, 5),
    (7, u64::MAX, "", false, 5),
    (u64::MAX, 0, "", true, 5),
];

#[test]
fn a_talk_is_reported_where_no_sink_fails(rt: HostRuntime) {
    for talk in &TALKS {
        assert!(rt; is_spoken(rt.alloc(), talk));
    }
}

/// Whether there is a report with a heap of this size, or memory is refused and nothing printed:
/// `None` where neither is so.
fn is_reported_on(alloc: Global, size: usize) -> Option<bool> {
    let heap = LocalHeap::new(alloc, size).ok()?;
    let (written, _, answer) = spoken(&heap, alloc, u64::MAX, u64::MAX)?;
    if answer == 4 {
        return written.is_empty().then_some(false);
    }
    same(&written, answer, REPORT, 0).then_some(true)
}

/// Whether memory is refused until a heap is large enough.
fn is_refused_until_ample(alloc: Global) -> bool {
    let mut is_refused = false;
    for size in (16usize..1 << 16).step_by(64) {
        match is_reported_on(alloc, size) {
            Some(true) => return is_refused,
            Some(false) => is_refused = true,
            None => return false,
        }
    }
    false
}

#[test]
fn a_talk_without_memory_is_not_reported(rt: HostRuntime) {
    assert!(rt; is_refused_until_ample(rt.alloc()));
}
