//! The path that attributes say (RFC 4271, 5; RFC 6793, 4.2.3). (Those of whole UPDATEs are
//! compared by the program `real_captures`, as texts.)

use super::SegmentKind::Sequence;
use super::writing::is_written;
use super::*;
use linked_list_allocator::LocalHeap;

/// The first of a type counts.
const FIRST_FIELD: &[u8] = &[
    0x40, 1, 1, 1, // ORIGIN: EGP
    0x40, 1, 1, 2, // ORIGIN: INCOMPLETE
    0x80, 4, 3, 0, 0, 0, // MULTI_EXIT_DISC of three octets
    0x80, 4, 4, 0, 0, 0, 7, // MULTI_EXIT_DISC: 7
];

/// One attribute alone counts, and it has to be Good.
const EMPTY_FIRST: &[u8] = &[
    0xc0, 32, 0, // LARGE_COMMUNITY without a value
    0xc0, 32, 12, 0, 0, 0, 1, 0, 0, 0, 1, 0, 0, 0, 1, // 1:1:1
];

static OF_EGP: Parts<'static> = Parts {
    origin: Origin::Egp,
    ..LEAST
};

/// Whether the path was read.
fn is_path(read: Result<Path, AllocError>, wanted: &Path) -> bool {
    match read {
        Ok(path) => path == *wanted,
        Err(_) => false,
    }
}

/// Whether the field says the path.
fn says(alloc: Global, field: &[u8], parts: &Parts<'_>) -> bool {
    let first = FirstAttrs::new(field);
    match path_of(alloc, parts) {
        Ok(wanted) => is_path(read_path(alloc, WIDE, &first, HOP), &wanted),
        Err(_) => false,
    }
}

#[test]
fn what_is_not_said_is_none(rt: HostRuntime) {
    let alloc = rt.alloc();
    assert!(rt;
        says(alloc, &[], &OF_NONE)
            && says(alloc, EMPTY_FIRST, &OF_NONE)
            && says(alloc, FIRST_FIELD, &OF_EGP)
    );
}

/// AS_PATH 65001 23456, AS4_PATH 70000, and an AS4_AGGREGATOR, alone and beside AS_TRANS.
const ALONE_FIELD: &[u8] = &[
    0x40, 2, 6, 2, 2, 0xfd, 0xe9, 0x5b, 0xa0, // AS_PATH
    0xc0, 17, 6, 2, 1, 0, 1, 0x11, 0x70, // AS4_PATH
    0xc0, 18, 8, 0, 1, 0x11, 0x70, 0, 0, 0, 1, // AS4_AGGREGATOR: 70000, 0.0.0.1
];

const AS_TRANS_FIELD: &[u8] = &[
    0xc0, 7, 6, 0x5b, 0xa0, 0, 0, 0, 2, // AGGREGATOR: 23456, 0.0.0.2
    0x40, 2, 6, 2, 2, 0xfd, 0xe9, 0x5b, 0xa0, // AS_PATH
    0xc0, 17, 6, 2, 1, 0, 1, 0x11, 0x70, // AS4_PATH
    0xc0, 18, 8, 0, 1, 0x11, 0x70, 0, 0, 0, 1, // AS4_AGGREGATOR: 70000, 0.0.0.1
];

/// AS_PATH 1 23456, and AS4_PATH 70000 between segments of a confederation
const CONFEDERATION_FIELD: &[u8] = &[
    0x40, 2, 6, 2, 2, 0, 1, 0x5b, 0xa0, // AS_PATH
    0xc0, 17, 18, 3, 1, 0, 0, 0, 9, 2, 1, 0, 1, 0x11, 0x70, 4, 1, 0, 0, 0, 9, // AS4_PATH
];

/// Beside an AGGREGATOR that isn't of AS_TRANS.
const OLD_FIELD: &[u8] = &[
    0xc0, 7, 6, 0xfd, 0xe9, 0, 0, 0, 2, // AGGREGATOR: 65001, 0.0.0.2
    0x40, 2, 6, 2, 2, 0xfd, 0xe9, 0x5b, 0xa0, // AS_PATH: 65001 23456
    0xc0, 17, 6, 2, 1, 0, 1, 0x11, 0x70, // AS4_PATH: 70000
    0xc0, 18, 8, 0, 1, 0x11, 0x70, 0, 0, 0, 1, // AS4_AGGREGATOR: 70000, 0.0.0.1
];

/// Fields, and the segments of their paths where AS numbers have two octets.
static SEGMENTS: [(&[u8], Segments<'static>); 5] = [
    (ALONE_FIELD, &[(Sequence, &[65001]), (Sequence, &[70000])]),
    (
        AS_TRANS_FIELD,
        &[(Sequence, &[65001]), (Sequence, &[70000])],
    ),
    (
        CONFEDERATION_FIELD,
        &[(Sequence, &[1]), (Sequence, &[70000])],
    ),
    (OLD_FIELD, &[(Sequence, &[65001, 23456])]),
    (TWO_OCTET_FIELD, &[(Sequence, &[65002, 70000, 70001])]),
];

/// Whether the path of a field has these segments.
fn has_segments(alloc: Global, field: &[u8], segments: Segments<'_>) -> bool {
    match read_path(alloc, NARROW, &FirstAttrs::new(field), HOP) {
        Ok(path) => is_of(&path.parts().as_path, segments),
        Err(_) => false,
    }
}

#[test]
fn merged_paths_keep_their_segments(rt: HostRuntime) {
    for (field, segments) in &SEGMENTS {
        assert!(rt; has_segments(rt.alloc(), field, segments));
    }
}

/// Whether an attribute is this.
fn is_attr(attr: Option<Attr<'_>>, flags: u8, kind: u8, value: &[u8]) -> bool {
    attr == Some(Attr { flags, kind, value })
}

#[test]
fn the_first_of_a_type_counts(rt: HostRuntime) {
    let first = FirstAttrs::new(FIRST_FIELD);
    assert!(rt;
        is_attr(first.get(AttrType::Origin), 0x40, 1, &[1])
            && is_attr(first.good(WIDE, AttrType::Origin), 0x40, 1, &[1])
            && is_attr(first_of(FIRST_FIELD, 1), 0x40, 1, &[1])
            && is_attr(first.get(AttrType::MultiExitDisc), 0x80, 4, &[0, 0, 0])
            && first.good(WIDE, AttrType::MultiExitDisc).is_none()
            && first.get(AttrType::AsPath).is_none()
            && first_of(FIRST_FIELD, 2).is_none()
    );
}

/// What the field of two octets says in lists.
static COMMUNITIES: [u32; 2] = [0xfdea_0064, 0xffff_ff01];

static LARGE_ONES: [LargeCommunity; 1] = [LARGE];

/// Whether a path has one segment, and these communities.
fn is_like(path: &PathParts<&LocalHeap>) -> bool {
    path.as_path.segments().len() == 1
        && path.communities.as_slice() == COMMUNITIES.as_slice()
        && path.large_communities.as_slice() == LARGE_ONES.as_slice()
}

/// Whether what the real router said in two octets was read whole in a heap of this size: no answer
/// where memory was refused.
fn is_read(alloc: Global, size: usize) -> Option<bool> {
    let heap = LocalHeap::new(alloc, size).ok()?;
    match read_path(&heap, NARROW, &FirstAttrs::new(TWO_OCTET_FIELD), HOP) {
        Ok(path) => Some(is_like(path.parts())),
        Err(_) => None,
    }
}

#[test]
fn a_refused_growth_is_told(rt: HostRuntime) {
    let (mut refused, mut done, mut is_whole) = (false, false, true);
    for step in 1usize..65 {
        match is_read(rt.alloc(), 16 * step) {
            Some(true) => done = true,
            Some(false) => is_whole = false,
            None => refused = true,
        }
    }
    assert!(rt; refused && done && is_whole);
}

/// An AS_PATH of 64 segments of 255 numbers, 65408 octets, and 16383 communities, 65532 octets.
fn greatest_values(alloc: Global) -> Result<Vec<u8>, AllocError> {
    let mut field = Vec::from_slice(alloc, &[0x50, 2, 0xff, 0x80])?;
    for place in 0..64 * 256 + 16384 {
        let octets: &[u8] = if place < 64 * 256 {
            // A head of two octets before each 255 numbers
            if place % 256 == 0 {
                &[2, 255]
            } else {
                &[0, 0, 0, 1]
            }
        } else if place == 64 * 256 {
            &[0xd0, 8, 0xff, 0xfc]
        } else {
            &[0, 0, 0, 7]
        };
        field.extend_from_slice(octets)?;
    }
    Ok(field)
}

/// Whether the greatest values are read whole.
fn are_read(alloc: Global) -> Option<bool> {
    let field = greatest_values(alloc).ok()?;
    let path = read_path(alloc, WIDE, &FirstAttrs::new(&field), HOP).ok()?;
    let parts = path.parts();
    Some(parts.as_path.count() == 64 * 255 && parts.communities.as_slice().len() == 16383)
}

/// An ORIGIN, an empty AS_PATH, and 5461 large communities of which no two are equal: 65532 octets,
/// as many as a value may have.
fn most_large_communities(alloc: Global) -> Result<Vec<u8>, AllocError> {
    let front: &[u8] = &[0x40, 1, 1, 0, 0x40, 2, 0, 0xd0, 32, 0xff, 0xfc];
    let mut field = Vec::from_slice(alloc, front)?;
    for number in 0..5461u16 {
        field.extend_from_slice(&[0, 0, 0xfd, 0xea, 0, 0, 0, 1, 0, 0])?;
        field.extend_from_slice(&number.to_be_bytes())?;
    }
    Ok(field)
}

/// The last of them: 65002:1:5460.
const LAST: LargeCommunity = LargeCommunity {
    local_data_part_2: 5460,
    ..LARGE
};

/// Whether a path is written in so many octets.
fn is_written_in(alloc: Global, path: &Path, count: usize) -> bool {
    let mut out = Vec::new(alloc);
    is_written(WIDE, path, &mut out) && out.len() == count
}

/// Whether a path with as many large communities as there may be is read whole, and is written.
fn are_most_read_and_written(alloc: Global) -> Option<bool> {
    let field = most_large_communities(alloc).ok()?;
    let path = read_path(alloc, WIDE, &FirstAttrs::new(&field), HOP).ok()?;
    let read = path.parts().large_communities.as_slice();
    // ORIGIN 4, AS_PATH 3, NEXT_HOP 7, LARGE_COMMUNITY 4 and 65532 octets
    Some(
        read.len() == 5461
            && read.last() == Some(&LAST)
            && is_written_in(alloc, &path, 4 + 3 + 7 + 4 + 65532),
    )
}

#[test]
fn ample_memory_for_the_greatest_values(rt: HostRuntime) {
    let alloc = rt.alloc();
    assert!(rt; are_read(alloc) == Some(true) && are_most_read_and_written(alloc) == Some(true));
}
