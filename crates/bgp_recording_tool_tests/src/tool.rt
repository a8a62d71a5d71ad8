//! Recordings that are judged from devices that fail and with little memory, and files; and the
//! words of remarks that no recording leads to.

mod files;
mod remarks;

use crate::two_connections::{JUDGED, SESSION, recording};
use bgp_explain::Report;
use bgp_import::RecordingOptions;
use bgp_judge::PlainTracker;
use bgp_open::Config;
use bgp_recording_tool::judge_recording;
use bgp_vectors::ROUTER_A;
use bgp_verdict_lines::VerdictForm;
use linked_list_allocator::LocalHeap;
use mrt::{MemSink, MemSource, SourceUpset};
use std::alloc::{Allocator, Global};
use std::num::NonZeroUsize;

/// All connections on port 179.
const OPTIONS: RecordingOptions = RecordingOptions {
    port: 179,
    local_port: None,
    connection: None,
    within: 10,
};

/// What comes of judging.
#[derive(Clone, Copy, PartialEq, Eq)]
enum Outcome {
    /// What is printed of the recording.
    Judged,
    /// That the device failed.
    Device,
    /// That memory was refused.
    Memory,
}

/// Which it is that was printed with this status.
fn outcome_of(text: &[u8], status: u8) -> Option<Outcome> {
    let device = b"recording refused: 16 Device at packet ";
    match status {
        3 if text == JUDGED.as_bytes() => Some(Outcome::Judged),
        4 => Some(Outcome::Memory),
        5 if text.starts_with(device) => Some(Outcome::Device),
        _ => None,
    }
}

/// What comes of judging the recording, of which at most 40 octets are read at once, with this
/// memory, where the read of this number fails.
fn judged<A: Allocator + Copy>(memory: A, alloc: Global, call: u64) -> Option<Outcome> {
    let config = Config::new(ROUTER_A)?;
    let mut source = MemSource::new(recording(alloc)?)
        .in_pieces_of(NonZeroUsize::new(40)?)
        .upset_at(call, SourceUpset::Fail);
    let mut sink = MemSink::new(alloc);
    let judged = judge_recording::<A, PlainTracker<A>, _, _>(
        memory,
        &config,
        Report::VerdictAlone,
        VerdictForm::Text,
        &OPTIONS,
        &mut source,
        &mut sink,
    );
    outcome_of(sink.octets(), judged.status)
}

/// Whether each read that fails is told, of the first 40. The recording has 298 octets, which are
/// asked for in pieces of at most 40.
fn are_told(alloc: Global) -> Option<bool> {
    let mut failed = 0u32;
    for call in 0..40 {
        match judged(alloc, alloc, call)? {
            Outcome::Device => failed = failed.saturating_add(1),
            Outcome::Judged => {}
            Outcome::Memory => return None,
        }
    }
    Some(8 <= failed && failed < 40)
}

#[test]
fn a_read_that_fails_is_told(rt: HostRuntime) {
    assert!(rt; are_told(rt.alloc()) == Some(true));
}

/// What comes of judging with a heap of this size.
fn judged_with(alloc: Global, size: usize) -> Option<Outcome> {
    let heap = LocalHeap::new(alloc, size).ok()?;
    judged(&heap, alloc, u64::MAX)
}

/// Whether memory is refused by small heaps, and the recording judged with the largest.
fn is_refused_by_some(alloc: Global) -> Option<bool> {
    let (mut refused, mut done) = (false, false);
    for steps in 1..100 {
        let outcome = judged_with(alloc, 8192 * steps)?;
        done = outcome == Outcome::Judged;
        refused = refused || outcome == Outcome::Memory;
    }
    Some(refused && done)
}

#[test]
fn memory_that_is_refused_is_told(rt: HostRuntime) {
    assert!(rt; is_refused_by_some(rt.alloc()) == Some(true));
}
