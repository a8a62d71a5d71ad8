//! Rows of the standards, and values as great as one can be.

mod as_paths;
mod equality;
mod large_communities;
mod memory;
mod refused;

use crate::parts::*;
use bgp_path::SegmentKind::{Sequence, Set};
use bgp_path::*;
use linked_list_allocator::LocalHeap;
use std::alloc::{AllocError, Global};
use std::test::Fail;

/// A size of heaps in which nothing is refused: 4 MiB.
const AMPLE: usize = 1 << 22;

/// A path in a heap.
type HeapPath<'h> = AsPath<&'h LocalHeap>;

/// What came of a call in a heap that may be too small.
#[derive(Clone, Copy)]
enum Outcome {
    /// There was no room even for what the call is given.
    Nowhere,
    /// Memory was refused, and all is as before.
    Refused,
    /// What is wanted was made, and all else is as before.
    Done,
    Wrong,
}

/// What came of a path that was to be made of these segments.
fn came_of(made: Result<HeapPath<'_>, AllocError>, segments: Segments<'_>) -> Outcome {
    match made {
        Ok(path) => done_if(is_of(&path, segments)),
        Err(_) => Outcome::Refused,
    }
}

fn done_if(is_right: bool) -> Outcome {
    if is_right {
        Outcome::Done
    } else {
        Outcome::Wrong
    }
}

/// The outcome of a call, if what it was given is as before.
fn kept(outcome: Outcome, is_kept: bool) -> Outcome {
    if is_kept { outcome } else { Outcome::Wrong }
}
