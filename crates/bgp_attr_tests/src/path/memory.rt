//! Enough memory: copies, and values as great as one can be.

use super::*;

/// Whether a copy of an AS path is equal to it.
fn is_copied(path: &HeapPath<'_>) -> bool {
    match path.clone() {
        Ok(copy) => copy == *path,
        Err(_) => false,
    }
}

/// Whether a copy of a segment is equal to it.
fn is_copy<'h>(
    copy: Result<Segment<&'h LocalHeap>, AllocError>,
    segment: &Segment<&'h LocalHeap>,
) -> bool {
    match copy {
        Ok(copy) => copy == *segment,
        Err(_) => false,
    }
}

/// Whether a segment is copied.
fn is_segment_copied(heap: &LocalHeap) -> bool {
    match segment_of(heap, Set, &[1, 2]) {
        Ok(segment) => is_copy(segment.clone(), &segment),
        Err(_) => false,
    }
}

/// A path of one segment, with room for two.
fn roomy_path(heap: &LocalHeap) -> Result<HeapPath<'_>, AllocError> {
    let mut path = AsPath::with_capacity(heap, 2)?;
    path.push(segment_of(heap, Set, &[1, 2])?)?;
    Ok(path)
}

/// Whether a path stays as it is where it merges with an empty one.
fn stays_beside_none<'h>(heap: &'h LocalHeap, path: &HeapPath<'h>) -> bool {
    let none = AsPath::new(heap);
    stays(heap, path, &none)
}

/// Whether a path is copied, and merges with an empty one.
fn is_copied_and_merged(heap: &LocalHeap) -> bool {
    match roomy_path(heap) {
        Ok(path) => is_copied(&path) && stays_beside_none(heap, &path),
        Err(_) => false,
    }
}

/// Whether a copy of a path is equal to it and takes no memory.
fn is_shared(heap: &LocalHeap, path: &Path<&LocalHeap>) -> bool {
    let used = heap.used();
    match path.clone() {
        Ok(copy) => heap.used() == used && copy == *path,
        Err(_) => false,
    }
}

/// Whether a copy of items is equal to them.
fn is_copied_alike<'h, T: Copy + PartialEq>(items: &Items<T, &'h LocalHeap>) -> bool {
    let copy: Result<Items<T, &'h LocalHeap>, AllocError> = items.clone();
    match copy {
        Ok(copy) => copy == *items,
        Err(_) => false,
    }
}

/// Whether a copy of numbers is equal to them.
fn are_numbers_copied<'h>(numbers: &Numbers<&'h LocalHeap>) -> bool {
    let copy: Result<Numbers<&'h LocalHeap>, AllocError> = numbers.clone();
    match copy {
        Ok(copy) => copy == *numbers,
        Err(_) => false,
    }
}

/// Whether copies of a path's communities are equal to them.
fn are_copied(path: &PathParts<&LocalHeap>) -> bool {
    are_numbers_copied(&path.communities)
        && is_copied_alike(&path.cluster_list)
        && is_copied_alike(&path.extended_communities)
        && is_copied_alike(&path.large_communities)
}

/// Whether items of a path are copied, and a copy of it takes no memory.
fn is_copied_or_shared(heap: &LocalHeap, parts: &Parts<'_>) -> bool {
    match path_of(heap, parts) {
        Ok(path) => are_copied(path.parts()) && is_shared(heap, &path),
        Err(_) => false,
    }
}

#[test]
fn ample_memory(rt: HostRuntime) -> Result<(), Fail> {
    let heap = LocalHeap::new(rt.alloc(), 8192)?;
    assert!(rt;
        is_segment_copied(&heap)
            && is_copied_and_merged(&heap)
            && is_copied_or_shared(&heap, &WHOLE)
    );
    Ok(())
}

/// How much memory a copy of these numbers takes.
fn taken(heap: &LocalHeap, numbers: &[u32]) -> Option<usize> {
    let used = heap.used();
    match Numbers::from_slice(heap, numbers) {
        Ok(copy) if copy.as_slice() == numbers => heap.used().checked_sub(used),
        _ => None,
    }
}

#[test]
fn eight_numbers_take_no_memory(rt: HostRuntime) -> Result<(), Fail> {
    let heap = LocalHeap::new(rt.alloc(), 8192)?;
    assert!(rt; taken(&heap, &[]) == Some(0));
    assert!(rt; taken(&heap, &[1, 2, 3, 4, 5, 6, 7, 8]) == Some(0));
    assert!(rt; taken(&heap, &[1, 2, 3, 4, 5, 6, 7, 8, 9]) != Some(0));
    Ok(())
}

/// A segment as long as one can be.
const ONES: (SegmentKind, &[u32]) = (Sequence, &[1; 255]);

/// And of another number.
const TWOS: (SegmentKind, &[u32]) = (Sequence, &[2; 255]);

/// The segments of the longest AS_PATH that a value of 65535 octets holds in two octets a number.
static LONGEST: [(SegmentKind, &[u32]); 127] = [ONES; 127];

/// And in four.
static LONGEST_IN_FOUR: [(SegmentKind, &[u32]); 64] = [TWOS; 64];

/// Whether a path is the first 63 of the longest segments and 64 others.
fn is_joined(merged: &HeapPath<'_>) -> bool {
    let mut is_joined = merged.segments().len() == 127;
    for (place, segment) in merged.segments().iter().enumerate() {
        let wanted = if place < 63 {
            LONGEST.first()
        } else {
            LONGEST_IN_FOUR.first()
        };
        is_joined = is_segment_of(segment, wanted) && is_joined;
    }
    is_joined
}

/// Whether the longest paths merge as they are to.
fn are_merged<'h>(heap: &'h LocalHeap, path: &HeapPath<'h>, as4: &HeapPath<'h>) -> bool {
    match merge(heap, path, as4) {
        Ok(merged) => { merged.count() == path.count() && is_joined(&merged) && is_copied(&merged) }
        Err(_) => false,
    }
}

/// Whether AS_PATH stays as it is beside an AS4_PATH.
fn stays<'h>(heap: &'h LocalHeap, path: &HeapPath<'h>, as4: &HeapPath<'h>) -> bool {
    match merge(heap, path, as4) {
        Ok(merged) => merged == *path,
        Err(_) => false,
    }
}

/// Whether the longest paths merge, and the shorter one stays beside the longer.
fn longest_paths_merge(heap: &LocalHeap) -> bool {
    let Ok(path) = as_path_of(heap, &LONGEST) else {
        return false;
    };
    match as_path_of(heap, &LONGEST_IN_FOUR) {
        Ok(as4) => {
            path.count() == 127 * 255 && are_merged(heap, &path, &as4) && stays(heap, &as4, &path)
        }
        Err(_) => false,
    }
}

const GREATEST: LargeCommunity = LargeCommunity {
    global_administrator: u32::MAX,
    local_data_part_1: u32::MAX,
    local_data_part_2: u32::MAX,
};

/// Whether a path whose lists are as long as these are is copied.
fn is_long_path_copied(
    heap: &LocalHeap,
    numbers: &[u32],
    wide: &[u64],
    large: &[LargeCommunity],
) -> bool {
    let parts = Parts {
        as_path: &LONGEST,
        communities: numbers,
        cluster_list: numbers,
        extended_communities: wide,
        large_communities: large,
        ..OF_ALL_PARTS
    };
    is_copied_or_shared(heap, &parts)
}

/// Whether a path is copied whose lists are as long as a value holds.
fn is_longest_path_copied(alloc: Global, heap: &LocalHeap) -> Option<bool> {
    let numbers = vec![in alloc; u32::MAX; 16383].ok()?;
    let wide = vec![in alloc; u64::MAX; 8191].ok()?;
    let large = vec![in alloc; GREATEST; 5461].ok()?;
    Some(is_long_path_copied(heap, &numbers, &wide, &large))
}

#[test]
fn ample_memory_for_the_greatest_values(rt: HostRuntime) -> Result<(), Fail> {
    let heap = LocalHeap::new(rt.alloc(), AMPLE)?;
    assert!(rt;
        longest_paths_merge(&heap) && is_longest_path_copied(rt.alloc(), &heap) == Some(true)
    );
    Ok(())
}
