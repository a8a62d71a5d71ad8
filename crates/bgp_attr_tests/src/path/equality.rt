//! Equality of paths.

use super::*;

/// Whether two paths are equal, if that is wanted.
fn are_equal<'h>(
    path: &Path<&'h LocalHeap>,
    other: Result<Path<&'h LocalHeap>, AllocError>,
    is_wanted: bool,
) -> bool {
    match other {
        Ok(other) => (*path == other) == is_wanted,
        Err(_) => false,
    }
}

/// The path that takes memory, with room for a hundred communities.
fn roomy(heap: &LocalHeap) -> Result<Path<&LocalHeap>, AllocError> {
    let mut communities = Vec::with_capacity(heap, 100)?;
    communities.extend_from_slice(WHOLE.communities)?;
    path_with(heap, &WHOLE, communities)
}

/// Whether paths of the same contents are equal, and those of others aren't.
fn are_compared(heap: &LocalHeap) -> bool {
    match path_of(heap, &WHOLE) {
        Ok(path) => {
            // Room that isn't used makes no difference.
            are_equal(&path, roomy(heap), true)
                && are_equal(&path, path_of(heap, &OTHER), false)
                && are_equal(&path, path_of(heap, &OTHER_LARGE), false)
        }
        Err(_) => false,
    }
}

/// Another MULTI_EXIT_DISC makes one.
static OTHER: Parts<'static> = Parts {
    multi_exit_disc: Some(8),
    ..OF_ALL_PARTS
};

/// And so does another large community.
static OTHER_LARGE: Parts<'static> = Parts {
    large_communities: &[LATER],
    ..OF_ALL_PARTS
};

#[test]
fn equal_paths_have_equal_contents(rt: HostRuntime) -> Result<(), Fail> {
    let heap = LocalHeap::new(rt.alloc(), AMPLE)?;
    assert!(rt; are_compared(&heap));
    Ok(())
}
