//! How tables are compared and listed.

use super::*;

/// Changes, the routes that are there then, and whether the table equals the first one.
type Turn = (Told, &'static [Group], bool);

/// Two destinations, one of each family, each with a path of its own.
const BOTH: Told = (NOTHING, Some((1, (0, 0, 1))), Some((2, (1, 0, 1))));

/// What they leave of an empty table.
const OF_BOTH: &[Group] = &[(1, (0, 0, 1)), (2, (1, 0, 1))];

/// The table differs in the path of one, of the other, and by a route more; and it is equal again
/// once both are back and the third is gone.
static TURNS: [Turn; 8] = [
    ((NOTHING, None, None), OF_BOTH, true),
    (
        (NOTHING, Some((3, (0, 0, 1))), None),
        &[(3, (0, 0, 1)), (2, (1, 0, 1))],
        false,
    ),
    (BOTH, OF_BOTH, true),
    (
        (NOTHING, Some((3, (1, 0, 1))), None),
        &[(1, (0, 0, 1)), (3, (1, 0, 1))],
        false,
    ),
    (BOTH, OF_BOTH, true),
    (
        (NOTHING, Some((3, (3, 0, 1))), None),
        &[(1, (0, 0, 1)), (2, (1, 0, 1)), (3, (3, 0, 1))],
        false,
    ),
    (
        BOTH,
        &[(1, (0, 0, 1)), (2, (1, 0, 1)), (3, (3, 0, 1))],
        false,
    ),
    (((3, 0, 1), None, None), OF_BOTH, true),
];

/// Whether a turn of a table leaves what it tells of, beside the first one.
fn is_turned<A: Allocator + Copy>(
    rib: &mut RibIn<A>,
    first: &RibIn<A>,
    alloc: A,
    (told, routes, is_first): &'static Turn,
) -> bool {
    change(rib, alloc, told).is_ok()
        && are(rib.routes(), routes)
        && rib.len() == routes.len()
        && (*rib == *first) == *is_first
}

/// Whether each turn of a table does so, beside an equal one.
fn are_turned<A: Allocator + Copy>(rib: &mut RibIn<A>, first: &RibIn<A>, alloc: A) -> bool {
    for turn in &TURNS {
        if !is_turned(rib, first, alloc, turn) {
            return false;
        }
    }
    true
}

/// Whether each turn of a table does so, beside what it is at first.
fn differs_in_turn<A: Allocator + Copy>(rib: &mut RibIn<A>, alloc: A) -> bool {
    change(rib, alloc, &BOTH).is_ok()
        && match rib.copy() {
            Ok(first) => are_turned(rib, &first, alloc),
            Err(_) => false,
        }
}

/// Whether tables that have other families disabled differ, and no others.
fn differ_by_families<A: Allocator + Copy>(one: &mut RibIn<A>, two: &mut RibIn<A>) -> bool {
    one.disable(Family::V4);
    let beside_none = *one != *two;
    two.disable(Family::V6);
    let beside_another = *one != *two;
    two.disable(Family::V4);
    one.disable(Family::V6);
    beside_none && beside_another && *one == *two
}

#[test]
fn what_differs_is_not_equal(rt: HostRuntime) {
    let mut one = RibIn::new(rt.alloc());
    let mut two = RibIn::new(rt.alloc());
    assert!(rt; differ_by_families(&mut one, &mut two));
    one.clear();
    assert!(rt; differs_in_turn(&mut one, rt.alloc()));
}

/// Routes of both families, without identifiers and with.
static OF_EACH: Told = (NOTHING, Some((7, (0, 1, 9))), Some((8, (IDENTIFIED, 1, 9))));

/// Those of IPv4 and of IPv6, each without identifiers and with.
const PLAIN_V4: Group = (7, (0, 2, 5));

const IDENTIFIED_V4: Group = (8, (10_000, 2, 5));

const PLAIN_V6: Group = (7, (1, 2, 4));

const IDENTIFIED_V6: Group = (8, (10_001, 2, 4));

/// All of them in their order, and those of each family.
static LISTED: [Group; 4] = [PLAIN_V4, IDENTIFIED_V4, PLAIN_V6, IDENTIFIED_V6];

static OF_V4: [Group; 2] = [PLAIN_V4, IDENTIFIED_V4];

static OF_V6: [Group; 2] = [PLAIN_V6, IDENTIFIED_V6];

/// Whether they are listed, of both families and of each alone.
fn are_listed<A: Allocator>(rib: &RibIn<A>) -> bool {
    let no_v4 = Families { v4: true, ..NONE };
    let no_v6 = Families { v6: true, ..NONE };
    are(rib.routes(), &LISTED)
        && are(rib.routes_without(NONE), &LISTED)
        && are(rib.routes_without(no_v6), &OF_V4)
        && are(rib.routes_without(no_v4), &OF_V6)
}

/// Whether those of IPv4 go, and come no more, once it is disabled.
fn are_dropped<A: Allocator + Copy>(rib: &mut RibIn<A>, alloc: A) -> bool {
    rib.disable(Family::V4);
    let are_gone = are(rib.routes(), &OF_V6) && rib.len() == 8;
    are_gone && change(rib, alloc, &OF_EACH).is_ok() && are(rib.routes(), &OF_V6)
}

#[test]
fn routes_are_listed_of_both_families_and_of_each_alone(rt: HostRuntime) {
    let mut rib = RibIn::new(rt.alloc());
    let is_done = change(&mut rib, rt.alloc(), &OF_EACH).is_ok();
    assert!(rt; is_done && are_listed(&rib) && are_dropped(&mut rib, rt.alloc()));
}

/// Changes of paths to one prefix, whose numbers are 10,000, 10,002 and so on, and of the prefix
/// alone, which has the number 0; and the routes that are there then.
static PATHS: [(Told, &'static [Group]); 7] = [
    // Two paths stand side by side.
    (
        (NOTHING, Some((1, (10_000, 2, 2))), None),
        &[(1, (10_000, 2, 2))],
    ),
    // An identifier that was announced gets another path.
    (
        (NOTHING, Some((2, (10_002, 0, 1))), None),
        &[(1, (10_000, 0, 1)), (2, (10_002, 0, 1))],
    ),
    // One that is greater in its highest octet stands behind them, and the prefix alone before.
    (
        (NOTHING, Some((3, (10_006, 0, 1))), Some((4, (0, 0, 1)))),
        &[
            (4, (0, 0, 1)),
            (1, (10_000, 0, 1)),
            (2, (10_002, 0, 1)),
            (3, (10_006, 0, 1)),
        ],
    ),
    // One is withdrawn.
    (
        ((10_002, 0, 1), None, None),
        &[(4, (0, 0, 1)), (1, (10_000, 0, 1)), (3, (10_006, 0, 1))],
    ),
    // One that was never announced is ignored (RFC 7911, 5).
    (
        ((10_004, 0, 1), None, None),
        &[(4, (0, 0, 1)), (1, (10_000, 0, 1)), (3, (10_006, 0, 1))],
    ),
    // The prefix alone is withdrawn.
    (
        ((0, 0, 1), None, None),
        &[(1, (10_000, 0, 1)), (3, (10_006, 0, 1))],
    ),
    // One is withdrawn and announced at once.
    (
        ((10_000, 6, 2), Some((5, (10_000, 0, 1))), None),
        &[(5, (10_000, 0, 1))],
    ),
];

/// Whether each of them leaves these routes.
fn are_told_apart<A: Allocator + Copy>(rib: &mut RibIn<A>, alloc: A) -> bool {
    for (told, routes) in &PATHS {
        if change(rib, alloc, told).is_err() || !are(rib.routes(), routes) {
            return false;
        }
    }
    true
}

#[test]
fn paths_of_a_prefix_are_told_apart_by_their_identifiers(rt: HostRuntime) {
    let mut rib = RibIn::new(rt.alloc());
    assert!(rt; are_told_apart(&mut rib, rt.alloc()));
}
