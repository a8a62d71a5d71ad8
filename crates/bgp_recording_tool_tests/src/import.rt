//! Imports from devices that fail, and with little memory. (Each refusal of a file is compared by
//! the program `real_recordings`.)

use crate::two_connections::{SESSION, recording};
use bgp_import::{Import, Notes, Refusal, Selection, Stopped, import_recording};
use linked_list_allocator::LocalHeap;
use mrt::{MemSink, MemSource, SourceUpset};
use packets::{FaultKind, FileFault};
use std::alloc::Global;
use std::num::NonZeroUsize;

/// The first connection of the session.
const IMPORT: Import = Import {
    selection: Selection {
        session: SESSION,
        port: 179,
        local_port: None,
    },
    connection: Some(1),
    within: 10,
};

/// Whether the failure of a read, octet by octet, is told at this packet, and nothing is written.
fn is_device_told(alloc: Global, call: u64, packet: u64) -> Option<bool> {
    let mut source = MemSource::new(recording(alloc)?)
        .in_pieces_of(NonZeroUsize::MIN)
        .upset_at(call, SourceUpset::Fail);
    let mut sink = MemSink::new(alloc);
    let imported = import_recording(alloc, &IMPORT, &mut source, &mut sink);
    let kind = FaultKind::Device;
    let refusal = Refusal::File(FileFault { kind, packet });
    Some(imported.ended == Err(Stopped::Refused(refusal)) && sink.octets().is_empty())
}

/// From which call on up to which the packet of this number is read.
static CALLS: [(u64, u64, u64); 5] = [
    (0, 80, 1),
    (80, 136, 2),
    (136, 241, 3),
    (241, 298, 4),
    (298, 299, 5),
];

/// Whether each call is told at its packet.
fn are_told(alloc: Global, (from, to, packet): &(u64, u64, u64)) -> bool {
    for call in *from..*to {
        if is_device_told(alloc, call, *packet) != Some(true) {
            return false;
        }
    }
    true
}

#[test]
fn each_read_that_fails_is_told(rt: HostRuntime) {
    for row in &CALLS {
        assert!(rt; are_told(rt.alloc(), row));
    }
}

/// Whether an import is done, or refused for memory with nothing written.
fn is_done(ended: Result<Notes, Stopped>, written: usize) -> Option<bool> {
    match ended {
        Ok(_) => (written > 0).then_some(true),
        Err(Stopped::Refused(refusal)) => (refusal.number() == 17 && written == 0).then_some(false),
        Err(Stopped::Unwritten) => None,
    }
}

/// The same with a heap of this size.
fn is_done_with(alloc: Global, size: usize) -> Option<bool> {
    let heap = LocalHeap::new(alloc, size).ok()?;
    let mut source = MemSource::new(recording(alloc)?);
    let mut sink = MemSink::new(alloc);
    let imported = import_recording(&heap, &IMPORT, &mut source, &mut sink);
    is_done(imported.ended, sink.octets().len())
}

/// Whether imports are refused with small heaps, and done with the largest.
fn is_refused_by_some(alloc: Global) -> Option<bool> {
    let (mut refused, mut done) = (false, false);
    for steps in 1..100 {
        done = is_done_with(alloc, 8192 * steps)?;
        refused = refused || !done;
    }
    Some(refused && done)
}

#[test]
fn memory_that_is_refused_is_told(rt: HostRuntime) {
    assert!(rt; is_refused_by_some(rt.alloc()) == Some(true));
}
