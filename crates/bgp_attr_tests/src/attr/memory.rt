//! Memory: enough of it, and growths that are refused.

use super::SegmentKind::Sequence;
use super::writing::{ALL_PARTS, is_written, path_with_many};
use super::*;
use linked_list_allocator::LocalHeap;

/// A segment as long as one can be.
const LONGEST: (SegmentKind, &[u32]) = (Sequence, &[1; 255]);

static OF_LONGEST: Parts<'static> = Parts {
    as_path: &[LONGEST; 8],
    ..LEAST
};

/// Whether a path of 8 of the longest segments and 16000 communities is written.
fn are_large_values_written(alloc: Global) -> bool {
    let Ok(path) = path_with_many(alloc, &OF_LONGEST, 16000) else {
        return false;
    };
    let mut out = Vec::new(alloc);
    // ORIGIN 4, AS_PATH 4 and 8 times 512, NEXT_HOP 7, COMMUNITIES 4 and 64000 octets
    is_written(NARROW, &path, &mut out) && out.len() == 4 + 4 + 4096 + 7 + 4 + 64000
}

#[test]
fn ample_memory_for_large_values(rt: HostRuntime) {
    assert!(rt; are_large_values_written(rt.alloc()));
}

/// Whether a path was written behind an octet of 9 to a vector in a heap of this size: no answer
/// where the vector is neither whole then nor, for a growth that was refused, as before.
fn writes(alloc: Global, size: usize, path: &Path) -> Option<bool> {
    let heap = LocalHeap::new(alloc, size).ok()?;
    let mut out = Vec::from_slice(&heap, &[9]).ok()?;
    let is_written = is_written(NARROW, path, &mut out);
    let rest = if is_written { ALL_PARTS } else { &[] };
    (out.split_first() == Some((&9, rest))).then_some(is_written)
}

/// Whether a path is refused memory in small heaps, and written in larger ones.
fn is_refused_and_written(alloc: Global, path: &Path) -> bool {
    let (mut refused, mut done, mut is_right) = (false, false, true);
    for step in 1usize..129 {
        match writes(alloc, 16 * step, path) {
            Some(true) => done = true,
            Some(false) => refused = true,
            None => is_right = false,
        }
    }
    refused && done && is_right
}

/// The same of the path that takes memory for each of its parts.
fn is_whole_path_refused_and_written(alloc: Global) -> bool {
    match path_of(alloc, &WHOLE) {
        Ok(path) => is_refused_and_written(alloc, &path),
        Err(_) => false,
    }
}

#[test]
fn a_refused_growth_changes_nothing(rt: HostRuntime) {
    assert!(rt; is_whole_path_refused_and_written(rt.alloc()));
}
