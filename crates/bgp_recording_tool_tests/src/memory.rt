//! What is told of a capture that is judged with little memory, and with enough.

use crate::explain::{OPENED, config_with};
use bgp_compact::CompactTracker;
use bgp_explain::{Report, judge_opened};
use bgp_judge::{PlainTracker, Tracker};
use bgp_tool::{Note, Outcome, Seen};
use bgp_verdict_lines::VerdictForm;
use linked_list_allocator::LocalHeap;
use mrt::FromWrite;
use std::alloc::{Allocator, Global};

/// How judging a change with this memory ends, and what it writes.
fn judged<A: Allocator + Copy, T: Tracker<A>>(
    alloc: Global,
    memory: A,
) -> Option<(Outcome<'static>, Vec<u8>)> {
    let config = &config_with(90)?;
    let mut sink = FromWrite::new(Vec::new(alloc));
    let change = Ok(OPENED.get(..36)?);
    let report = Report::VerdictAlone;
    let form = VerdictForm::Text;
    let judged = judge_opened::<A, T, _, _>(memory, config, report, form, "a", change, &mut sink);
    Some((judged.outcome, sink.into_inner()))
}

/// Whether it ends so: memory is refused at this octet, or it is a yes of which it is told that no
/// message was sent.
fn is_judged((outcome, written): &(Outcome<'_>, Vec<u8>), refused: Option<(u64, &str)>) -> bool {
    let seen = Seen {
        left_idle: true,
        sent: false,
    };
    let (note, status, text) = match refused {
        Some((octet, text)) => (Note::OutOfMemory { file: "a", octet }, 4, text),
        None => {
            let text = "yes\nend Connect disabled -\n";
            (Note::NothingDone { file: "a", seen }, 0, text)
        }
    };
    outcome.note == Some(note) && outcome.status == status && written.as_slice() == text.as_bytes()
}

/// Whether both trackers judge it so with a heap of this size.
fn are_judged(
    alloc: Global,
    size: usize,
    plain: Option<(u64, &str)>,
    compact: Option<(u64, &str)>,
) -> Option<bool> {
    let heap = LocalHeap::new(alloc, size).ok()?;
    let by_plain = judged::<&LocalHeap, PlainTracker<&LocalHeap>>(alloc, &heap)?;
    let by_compact = judged::<&LocalHeap, CompactTracker<&LocalHeap>>(alloc, &heap)?;
    Some(is_judged(&by_plain, plain) && is_judged(&by_compact, compact))
}

/// Memory was refused at the first record.
const AT_FIRST: Option<(u64, &str)> = Some((0, "capture refused: 10 Memory at 0\n"));

/// Memory was refused behind it. The compact tracker takes none to begin with: the first refusal
/// is that of the list of ends.
const AT_ENDS: Option<(u64, &str)> = Some((36, "capture refused: 10 Memory at 36\n"));

#[test]
fn refused_memory_is_told_and_ample_memory_is_not(rt: HostRuntime) {
    let alloc = rt.alloc();
    assert!(rt; are_judged(alloc, 64, AT_FIRST, AT_FIRST) == Some(true));
    assert!(rt; are_judged(alloc, 65584, AT_FIRST, AT_ENDS) == Some(true));
    assert!(rt; are_judged(alloc, 1 << 17, None, None) == Some(true));
}
