//! Segments, their counts, and the merge of AS_PATH and AS4_PATH (RFC 6793, 4.2.3).

use super::*;

/// Whether so many numbers are a segment, if that is wanted.
fn is_segment(heap: &LocalHeap, count: usize, is_wanted: bool) -> bool {
    match vec![in heap; 1u32; count] {
        Ok(numbers) => Segment::new(Sequence, numbers).is_some() == is_wanted,
        Err(_) => false,
    }
}

#[test]
fn a_segment_has_1_to_255_numbers(rt: HostRuntime) -> Result<(), Fail> {
    let heap = LocalHeap::new(rt.alloc(), AMPLE)?;
    assert!(rt;
        is_segment(&heap, 0, false)
            && is_segment(&heap, 1, true)
            && is_segment(&heap, 255, true)
            && is_segment(&heap, 256, false)
    );
    Ok(())
}

/// Whether the path of these segments counts so many numbers.
fn counts(heap: &LocalHeap, segments: Segments<'_>, count: u128) -> bool {
    match as_path_of(heap, segments) {
        Ok(path) => path.count() == count,
        Err(_) => false,
    }
}

static OF_SIX: [(SegmentKind, &[u32]); 3] = [
    (Sequence, &[1, 2, 3]),
    (Set, &[4, 5]),
    (Sequence, &[6]),
];

#[test]
fn a_set_counts_one(rt: HostRuntime) -> Result<(), Fail> {
    let heap = LocalHeap::new(rt.alloc(), AMPLE)?;
    assert!(rt; counts(&heap, &OF_SIX, 5) && counts(&heap, &[], 0));
    Ok(())
}

/// Two paths, and the one that they merge to.
pub(super) struct Merge {
    lesson: &'static str,
    path: Segments<'static>,
    as4: Segments<'static>,
    merged: Segments<'static>,
}

const FIRST: Merge = Merge {
    lesson: "what is in front of AS4_PATH stays",
    path: &[(Sequence, &[65001, 23456, 23456])],
    as4: &[(Sequence, &[70000, 70001])],
    merged: &[(Sequence, &[65001]), (Sequence, &[70000, 70001])],
};

/// The first of [`MERGES`], which is dearer to name.
pub(super) static FRONT_STAYS: Merge = FIRST;

/// The front of AS_PATH comes before AS4_PATH.
static MERGES: [Merge; 6] = [
    FIRST,
    Merge {
        lesson: "a set counts one",
        path: &[(Sequence, &[65001]), (Set, &[23456, 65010])],
        as4: &[(Sequence, &[70000])],
        merged: &[(Sequence, &[65001]), (Sequence, &[70000])],
    },
    Merge {
        lesson: "a set in front of AS4_PATH counts too much to stay",
        path: &[(Sequence, &[65001]), (Set, &[1, 2, 3])],
        as4: &[(Sequence, &[70000, 70001])],
        merged: &[(Sequence, &[70000, 70001])],
    },
    Merge {
        lesson: "AS4_PATH may be a set",
        path: &[(Sequence, &[1, 2, 3])],
        as4: &[(Set, &[70000, 70001])],
        merged: &[(Sequence, &[1, 2]), (Set, &[70000, 70001])],
    },
    Merge {
        lesson: "an AS4_PATH whose segments were all of a confederation counts nothing",
        path: &[(Sequence, &[1, 2])],
        as4: &[],
        merged: &[(Sequence, &[1, 2])],
    },
    Merge {
        lesson: "one that counts more than AS_PATH is ignored",
        path: &[(Sequence, &[65001, 23456, 23456])],
        as4: &[(Sequence, &[1, 2, 3, 4])],
        merged: &[(Sequence, &[65001, 23456, 23456])],
    },
];

/// What comes of a merge into a heap: the two paths stand in an ample one, and are as before.
pub(super) fn merges<'h>(heap: &'h LocalHeap, ample: &'h LocalHeap, row: &Merge) -> Outcome {
    let Ok(path) = as_path_of(ample, row.path) else {
        return Outcome::Nowhere;
    };
    let Ok(as4) = as_path_of(ample, row.as4) else {
        return Outcome::Nowhere;
    };
    let outcome = came_of(merge(heap, &path, &as4), row.merged);
    kept(outcome, is_of(&path, row.path) && is_of(&as4, row.as4))
}

#[test]
fn the_front_of_as_path_comes_before_as4_path(rt: HostRuntime) -> Result<(), Fail> {
    let heap = LocalHeap::new(rt.alloc(), AMPLE)?;
    for row in &MERGES {
        let is_done = matches!(merges(&heap, &heap, row), Outcome::Done);
        assert!(rt; is_done, "{}", row.lesson);
    }
    Ok(())
}
