//! Large communities (RFC 8092).

use super::*;

/// Three numbers, as those of a large community.
type Three = (u32, u32, u32);

/// The large community of three numbers.
fn large(numbers: Three) -> LargeCommunity {
    LargeCommunity {
        global_administrator: numbers.0,
        local_data_part_1: numbers.1,
        local_data_part_2: numbers.2,
    }
}

/// Large communities, and their texts: the examples of RFC 8092, 5, the least and the greatest.
static TEXTS: [(Three, &str); 4] = [
    ((64496, 4294967295, 2), "64496:4294967295:2"),
    ((64496, 0, 0), "64496:0:0"),
    ((0, 0, 0), "0:0:0"),
    (
        (u32::MAX, u32::MAX, u32::MAX),
        "4294967295:4294967295:4294967295",
    ),
];

/// Whether a large community prints so.
fn prints(alloc: Global, community: LargeCommunity, text: &str) -> bool {
    match format!(in alloc; "{community}") {
        Ok(printed) => printed.as_str() == text,
        Err(_) => false,
    }
}

#[test]
fn a_large_community_prints_as_three_decimals(rt: HostRuntime) {
    for (numbers, text) in &TEXTS {
        assert!(rt; prints(rt.alloc(), large(*numbers), text), "{text}");
    }
}

/// Lists, and whether no two of a list are equal.
static LISTS: [(&[Three], bool); 7] = [
    (&[], true),
    (&[(1, 1, 1)], true),
    (&[(1, 1, 1), (1, 1, 1)], false),
    (&[(1, 1, 1), (2, 1, 1), (1, 1, 1)], false),
    (&[(3, 1, 1), (1, 1, 1), (1, 1, 1)], false),
    (&[(1, 1, 1), (2, 1, 1), (1, 2, 1), (1, 1, 2)], true),
    (&[(1, 2, 3), (3, 2, 1), (2, 1, 3)], true),
];

/// The large communities of these numbers.
fn all(alloc: Global, list: &[Three]) -> Result<Vec<LargeCommunity>, AllocError> {
    let mut communities = Vec::with_capacity(alloc, list.len())?;
    for numbers in list {
        communities.push(large(*numbers))?;
    }
    Ok(communities)
}

/// Whether it is told of these that no two are equal, just where that is so.
fn is_told(alloc: Global, list: &[Three], wanted: bool) -> bool {
    match all(alloc, list) {
        Ok(communities) => are_distinct(&communities) == wanted,
        Err(_) => false,
    }
}

#[test]
fn repeats_are_told(rt: HostRuntime) {
    for (list, wanted) in &LISTS {
        assert!(rt; is_told(rt.alloc(), list, *wanted), "{list:?}");
    }
}
