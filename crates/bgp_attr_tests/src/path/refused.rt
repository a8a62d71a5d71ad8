//! Growths that are refused.

use super::as_paths::{FRONT_STAYS, merges};
use super::*;

static ONE_SEGMENT: [(SegmentKind, &[u32]); 1] = [(Set, &[1])];

/// What comes of a push of a segment onto an empty path in a heap.
fn pushed<'h>(heap: &'h LocalHeap, segment: Segment<&'h LocalHeap>) -> Outcome {
    let mut path = AsPath::new(heap);
    if path.push(segment).is_ok() {
        done_if(is_of(&path, &ONE_SEGMENT))
    } else {
        kept(Outcome::Refused, path.segments().is_empty())
    }
}

/// What comes of a push into a heap.
fn pushes<'h>(heap: &'h LocalHeap, ample: &'h LocalHeap) -> Outcome {
    match segment_of(ample, Set, &[1]) {
        Ok(segment) => pushed(heap, segment),
        Err(_) => Outcome::Nowhere,
    }
}

/// What comes of a copy of an AS path in a heap.
fn copies_path(heap: &LocalHeap) -> Outcome {
    match as_path_of(heap, WHOLE.as_path) {
        Ok(path) => kept(
            came_of(path.clone(), WHOLE.as_path),
            is_of(&path, WHOLE.as_path),
        ),
        Err(_) => Outcome::Nowhere,
    }
}

static COMMUNITIES: [u32; 2] = [1, 2];

/// What comes of a copy of these communities.
fn copies(items: &Items<u32, &LocalHeap>) -> Outcome {
    let copy: Result<_, _> = items.clone();
    let outcome = match copy {
        Ok(copy) => done_if(copy == *items),
        Err(_) => Outcome::Refused,
    };
    kept(outcome, items.as_slice() == COMMUNITIES.as_slice())
}

/// What comes of a copy of communities in a heap.
fn copies_items(heap: &LocalHeap) -> Outcome {
    match Vec::from_slice(heap, &COMMUNITIES) {
        Ok(numbers) => copies(&Items::from(numbers)),
        Err(_) => Outcome::Nowhere,
    }
}

/// What came of a path that was to be made.
fn came_of_path<'h>(
    made: Result<Path<&'h LocalHeap>, AllocError>,
    whole: &Path<&'h LocalHeap>,
) -> Outcome {
    match made {
        Ok(path) => done_if(path == *whole),
        Err(_) => Outcome::Refused,
    }
}

/// What comes of a path in a heap.
fn makes<'h>(heap: &'h LocalHeap, ample: &'h LocalHeap) -> Outcome {
    let Ok(whole) = path_of(ample, &WHOLE) else {
        return Outcome::Nowhere;
    };
    let Ok(communities) = Vec::from_slice(heap, WHOLE.communities) else {
        return Outcome::Nowhere;
    };
    match parts_with(heap, &WHOLE, communities) {
        Ok(parts) => came_of_path(Path::new(heap, parts), &whole),
        Err(_) => Outcome::Nowhere,
    }
}

/// A call that takes memory.
enum Call {
    Push,
    Merge,
    CopyOfPath,
    CopyOfItems,
    Make,
}

static CALLS: [(&str, Call); 5] = [
    ("a push", Call::Push),
    ("a merge", Call::Merge),
    ("a copy of an AS path", Call::CopyOfPath),
    ("a copy of items", Call::CopyOfItems),
    ("a path", Call::Make),
];

/// What comes of a call in a heap beside an ample one.
fn outcome_of<'h>(call: &Call, heap: &'h LocalHeap, ample: &'h LocalHeap) -> Outcome {
    match call {
        Call::Push => pushes(heap, ample),
        Call::Merge => merges(heap, ample, &FRONT_STAYS),
        Call::CopyOfPath => copies_path(heap),
        Call::CopyOfItems => copies_items(heap),
        Call::Make => makes(heap, ample),
    }
}

/// What comes of a call in a heap of so many octets.
fn outcome_in(alloc: Global, size: usize, call: &Call, ample: &LocalHeap) -> Outcome {
    match LocalHeap::new(alloc, size) {
        Ok(heap) => outcome_of(call, &heap, ample),
        Err(_) => Outcome::Wrong,
    }
}

/// Whether a call is refused in small heaps and done in larger ones.
fn is_refused_and_done(alloc: Global, call: &Call, ample: &LocalHeap) -> bool {
    let (mut refused, mut done, mut is_right) = (false, false, true);
    for step in 1usize..129 {
        match outcome_in(alloc, 16 * step, call, ample) {
            Outcome::Nowhere => {}
            Outcome::Refused => refused = true,
            Outcome::Done => done = true,
            Outcome::Wrong => is_right = false,
        }
    }
    refused && done && is_right
}

#[test]
fn a_refused_growth_changes_nothing(rt: HostRuntime) -> Result<(), Fail> {
    let ample = LocalHeap::new(rt.alloc(), AMPLE)?;
    for (name, call) in &CALLS {
        assert!(rt; is_refused_and_done(rt.alloc(), call, &ample), "{name}");
    }
    Ok(())
}
