//! Memory: enough of it, and growths that are refused.

use super::*;
use linked_list_allocator::LocalHeap;

/// An UPDATE: changes, and whether IPv6 is disabled then.
type Update = (Told, bool);

/// A call that takes memory.
#[derive(Clone, Copy)]
enum Call {
    /// An UPDATE is applied.
    Apply,
    /// UPDATEs are applied together.
    ApplyEach,
    /// A copy is made.
    Copy,
}

/// A call of the table that some UPDATEs made, and the UPDATEs that it applies, in a heap of this
/// size; how many octets more of it are left each time, and whether it is refused at first.
struct Case {
    call: Call,
    before: &'static [Update],
    asked: &'static [Update],
    size: usize,
    step: usize,
    grows: bool,
}

/// All destinations that an UPDATE of 4096 octets has room for, if they have 24 bits each and three
/// attributes, are put, of one family and then of the other one.
static MOST_OF_BOTH: [Update; 2] = [
    ((NOTHING, Some((6, (1, 2, 1013))), None), false),
    ((NOTHING, Some((4, (0, 2, 1013))), None), false),
];

/// What they leave.
static MOST: [Group; 2] = [(4, (0, 2, 1013)), (6, (1, 2, 1013))];

/// Those of IPv4 are withdrawn.
static WITHOUT_V4: [Update; 1] = [(((0, 2, 1013), None, None), false)];

/// What a table holds at first: three routes, of both families.
const THREE: Update = ((NOTHING, Some((1, (0, 1, 3))), None), false);

/// Twelve destinations, of which two are removed and one is put again.
const TWELVE: Update = (
    ((0, 2, 3), Some((2, (0, 6, 5))), Some((3, (8, 3, 5)))),
    false,
);

/// The same, and IPv6 is disabled.
const DISABLING: Update = (
    ((0, 2, 3), Some((2, (0, 6, 5))), Some((3, (8, 3, 5)))),
    true,
);

/// So many routes are put.
macro_rules! put {
    ($count:literal) => {
        &[((NOTHING, Some((1, (0, 2, $count))), None), false)]
    };
}

/// The first is taken away, and so many are put behind the last, whose number is this.
macro_rules! put_more {
    ($first:literal, $count:literal) => {
        &[(
            ((0, 0, 1), Some((1, ($first, 2, $count))), None),
            false,
        )]
    };
}

/// A known destination is put.
const AGAIN: Update = ((NOTHING, Some((4, (0, 0, 1))), None), false);

/// Another one is withdrawn.
const GONE: Update = (((2, 0, 1), None, None), false);

/// Three paths to each of two prefixes.
const PATHS: Update = ((NOTHING, Some((1, (10_000, 1, 6))), None), false);

/// Two of them are removed, others put, and prefixes alone.
const OTHERS: Update = (
    (
        (10_000, 2, 2),
        Some((2, (10_002, 1, 6))),
        Some((3, (0, 1, 4))),
    ),
    false,
);

/// The same, and IPv6 is disabled.
const OTHERS_DISABLING: Update = (
    (
        (10_000, 2, 2),
        Some((2, (10_002, 1, 6))),
        Some((3, (0, 1, 4))),
    ),
    true,
);

/// One is withdrawn.
const PATH_GONE: Update = (((10_002, 0, 1), None, None), false);

/// Where an UPDATE is applied or a copy made.
///
/// A leaf of the map has 15 entries, so an empty map grows at its first route, and one of 14 at
/// the second: what is written by then, and what is taken away, has to be written back. Of 14
/// routes and one more the map doesn't grow, and the log has the room that the first change took.
/// Of one route and 13 more it's the log alone that grows.
static CASES: [Case; 13] = [
    Case {
        call: Call::Apply,
        before: &[THREE],
        asked: &[TWELVE],
        size: 1 << 13,
        step: 16,
        grows: true,
    },
    Case {
        call: Call::Copy,
        before: &[DISABLING],
        asked: &[],
        size: 1 << 13,
        step: 16,
        grows: true,
    },
    Case {
        call: Call::Apply,
        before: put!(14),
        asked: put_more!(28, 1),
        size: 1 << 12,
        step: 16,
        grows: false,
    },
    Case {
        call: Call::Apply,
        before: put!(0),
        asked: put_more!(0, 1),
        size: 1 << 12,
        step: 16,
        grows: true,
    },
    Case {
        call: Call::Apply,
        before: put!(14),
        asked: put_more!(28, 2),
        size: 1 << 12,
        step: 16,
        grows: true,
    },
    Case {
        call: Call::Apply,
        before: put!(15),
        asked: put_more!(30, 1),
        size: 1 << 12,
        step: 16,
        grows: true,
    },
    Case {
        call: Call::Apply,
        before: put!(1),
        asked: put_more!(2, 13),
        size: 1 << 12,
        step: 16,
        grows: true,
    },
    Case {
        call: Call::Apply,
        before: &[THREE],
        asked: &[AGAIN],
        size: 1 << 12,
        step: 16,
        grows: false,
    },
    Case {
        call: Call::Apply,
        before: &[THREE, AGAIN],
        asked: &[GONE],
        size: 1 << 12,
        step: 16,
        grows: false,
    },
    Case {
        call: Call::Apply,
        before: &[PATHS],
        asked: &[OTHERS],
        size: 1 << 14,
        step: 64,
        grows: true,
    },
    Case {
        call: Call::ApplyEach,
        before: &[PATHS],
        asked: &[OTHERS_DISABLING, OTHERS],
        size: 1 << 14,
        step: 64,
        grows: true,
    },
    Case {
        call: Call::Copy,
        before: &[PATHS, OTHERS],
        asked: &[],
        size: 1 << 14,
        step: 64,
        grows: true,
    },
    Case {
        call: Call::Apply,
        before: &[PATHS],
        asked: &[PATH_GONE],
        size: 1 << 13,
        step: 16,
        grows: false,
    },
];

/// A route of each family.
const TWO: Update = ((NOTHING, Some((1, (0, 1, 2))), None), false);

/// The first of three UPDATEs, each of which makes the map of a table grow, or the log.
const FIRST: Update = (
    ((0, 0, 1), Some((2, (100, 2, 4))), Some((3, (101, 2, 4)))),
    false,
);

/// The second takes away what was there, and what the first put, and disables IPv6.
const SECOND: Update = (
    ((100, 2, 2), Some((4, (104, 2, 8))), Some((5, (0, 1, 2)))),
    true,
);

const THIRD: Update = (
    ((0, 1, 2), Some((6, (120, 2, 20))), Some((7, (109, 2, 4)))),
    false,
);

/// Where they are applied together.
static TOGETHER: [Case; 3] = [
    Case {
        call: Call::ApplyEach,
        before: &[TWO],
        asked: &[FIRST],
        size: 1 << 14,
        step: 64,
        grows: true,
    },
    Case {
        call: Call::ApplyEach,
        before: &[TWO],
        asked: &[FIRST, SECOND],
        size: 1 << 14,
        step: 64,
        grows: true,
    },
    Case {
        call: Call::ApplyEach,
        before: &[TWO],
        asked: &[FIRST, SECOND, THIRD],
        size: 1 << 14,
        step: 64,
        grows: true,
    },
];

/// Applies UPDATEs to a table, one after another.
fn make<A: Allocator + Copy>(
    rib: &mut RibIn<A>,
    alloc: A,
    updates: &[Update],
) -> Result<(), AllocError> {
    for (told, is_disabling) in updates {
        change(rib, alloc, told)?;
        if *is_disabling {
            rib.disable(Family::V6);
        }
    }
    Ok(())
}

/// The table that UPDATEs make, and then others.
fn made<A: Allocator + Copy>(
    heap: A,
    ample: A,
    before: &[Update],
    then: &[Update],
) -> Result<RibIn<A>, AllocError> {
    let mut rib = RibIn::new(heap);
    make(&mut rib, ample, before)?;
    make(&mut rib, ample, then)?;
    Ok(rib)
}

/// Whether a table equals that one.
fn is_made<A: Allocator + Copy>(
    rib: &RibIn<A>,
    ample: A,
    before: &[Update],
    then: &[Update],
) -> bool {
    match made(ample, ample, before, then) {
        Ok(same) => *rib == same && rib.len() == same.len(),
        Err(_) => false,
    }
}

/// Applies UPDATEs together.
fn apply_each<A: Allocator + Copy>(
    rib: &mut RibIn<A>,
    alloc: A,
    asked: &[Update],
) -> Result<(), AllocError> {
    let mut updates = Vec::new(alloc);
    for (told, v6) in asked {
        let changes = changes(alloc, told)?;
        let disabled = Families { v6: *v6, ..NONE };
        updates.push(Applied { changes, disabled })?;
    }
    rib.apply_each(&updates)
}

/// Whether a copy is made: `None` where it differs.
fn is_copied<A: Allocator + Copy>(rib: &RibIn<A>) -> Option<bool> {
    match rib.copy() {
        Ok(copy) => (copy == *rib).then_some(true),
        Err(_) => Some(false),
    }
}

/// Whether the call of a case is done: `None` where a copy differs.
fn is_done<A: Allocator + Copy>(rib: &mut RibIn<A>, ample: A, case: &Case) -> Option<bool> {
    match case.call {
        Call::Apply => Some(make(rib, ample, case.asked).is_ok()),
        Call::ApplyEach => Some(apply_each(rib, ample, case.asked).is_ok()),
        Call::Copy => is_copied(rib),
    }
}

/// Takes all but so many octets of a heap, in small pieces, so that what is left lies together.
fn ballast<'a>(
    heap: &'a LocalHeap,
    ample: &'a LocalHeap,
    left: usize,
) -> Result<Vec<Vec<u8, &'a LocalHeap>, &'a LocalHeap>, AllocError> {
    let mut pieces = Vec::new(ample);
    for _ in 0..heap.size() / 16 {
        if heap.free() <= left {
            break;
        }
        let Ok(piece) = Vec::with_capacity(heap, 16) else {
            break;
        };
        pieces.push(piece)?;
    }
    Ok(pieces)
}

/// Whether the call of a case is done with so many octets left of the table's heap.
fn is_done_with<'a>(
    rib: &mut RibIn<&'a LocalHeap>,
    heap: &'a LocalHeap,
    ample: &'a LocalHeap,
    case: &Case,
    left: usize,
) -> Option<bool> {
    let ballast = ballast(heap, ample, left).ok()?;
    let is_done = is_done(rib, ample, case);
    drop(ballast);
    is_done
}

/// Whether a table whose call was refused is as it was, and is called again, with memory.
fn is_kept<A: Allocator + Copy>(rib: &mut RibIn<A>, ample: A, case: &Case) -> bool {
    is_made(rib, ample, case.before, &[]) && is_done(rib, ample, case) == Some(true)
}

/// Whether the call of a case is done with so many octets left: `None` where the table isn't right
/// then. Refused it leaves all, and again, with memory, it is done.
fn is_called<'a>(
    rib: &mut RibIn<&'a LocalHeap>,
    heap: &'a LocalHeap,
    ample: &'a LocalHeap,
    case: &Case,
    left: usize,
) -> Option<bool> {
    let is_done = is_done_with(rib, heap, ample, case, left)?;
    let is_right = is_done || is_kept(rib, ample, case);
    (is_right && is_made(rib, ample, case.before, case.asked)).then_some(is_done)
}

/// The same of a table of its own.
fn is_called_of_its_own(
    heap: &LocalHeap,
    ample: &LocalHeap,
    case: &Case,
    left: usize,
) -> Option<bool> {
    let mut rib = made(heap, ample, case.before, &[]).ok()?;
    is_called(&mut rib, heap, ample, case, left)
}

/// The same in heaps of its own.
fn is_called_in_heaps(alloc: Global, case: &Case, left: usize) -> Option<bool> {
    let ample = LocalHeap::new(alloc, case.size.saturating_mul(8)).ok()?;
    let heap = LocalHeap::new(alloc, case.size).ok()?;
    is_called_of_its_own(&heap, &ample, case, left)
}

/// How often the call of a case is refused as more and more memory is left: `None` where what
/// follows is wrong, or where it is refused to the end.
fn refusals(alloc: Global, case: &Case) -> Option<usize> {
    let mut count = 0;
    for step in 0..128 {
        if !is_called_in_heaps(alloc, case, case.step.saturating_mul(step))? {
            count = step + 1;
        }
    }
    (count < 128).then_some(count)
}

#[test]
fn a_refused_growth_changes_nothing(rt: HostRuntime) {
    for case in &CASES {
        let refusals = refusals(rt.alloc(), case);
        assert!(rt;
            refusals.map(|count| 0 < count) == Some(case.grows),
            "{refusals:?}"
        );
    }
}

#[test]
fn a_growth_refused_to_one_update_undoes_all(rt: HostRuntime) {
    let mut last = Some(0);
    for case in &TOGETHER {
        let refusals = refusals(rt.alloc(), case);
        assert!(rt; last < refusals, "{refusals:?}");
        last = refusals;
    }
}

/// Whether a table and a copy of it have the routes of both families, and then the table those of
/// one alone.
fn have_most<A: Allocator + Copy>(rib: &mut RibIn<A>, copy: &RibIn<A>, alloc: A) -> bool {
    let are_whole = rib.len() == 2026 && are(rib.routes(), &MOST) && *copy == *rib;
    let is_changed = make(rib, alloc, &WITHOUT_V4).is_ok();
    let are_left = are(rib.routes(), &MOST[1..]) && are(copy.routes(), &MOST);
    are_whole && is_changed && are_left
}

/// The same of a copy of its own.
fn has_most<A: Allocator + Copy>(rib: &mut RibIn<A>, alloc: A) -> bool {
    match rib.copy() {
        Ok(copy) => have_most(rib, &copy, alloc),
        Err(_) => false,
    }
}

#[test]
fn ample_memory(rt: HostRuntime) {
    let mut rib = RibIn::new(rt.alloc());
    let is_made = make(&mut rib, rt.alloc(), &MOST_OF_BOTH).is_ok();
    assert!(rt; is_made && has_most(&mut rib, rt.alloc()));
}

/// Whether two tables differ, and the first has ten routes that can be listed.
fn are_asked<A: Allocator>(rib: &RibIn<A>, other: &RibIn<A>) -> bool {
    let is_listed = rib.routes().next().is_some() && rib.routes_without(NONE).next().is_some();
    *rib != *other && rib.len() == 10 && is_listed && rib.disabled() == NONE
}

/// Whether tables, of which the first has two routes of IPv6, are asked and emptied, and take no
/// memory for it.
fn are_emptied<'a>(
    heap: &'a LocalHeap,
    rib: &mut RibIn<&'a LocalHeap>,
    other: &mut RibIn<&'a LocalHeap>,
) -> bool {
    let used = heap.used();
    let is_asked = are_asked(rib, other) && heap.used() == used;
    rib.disable(Family::V6);
    let is_eight = rib.len() == 8 && heap.used() <= used;
    rib.clear();
    other.clear();
    is_asked && is_eight && *rib == *other && rib.len() == 0
}

/// The same where there is nothing left of their heap, which is unused then.
fn needs_no_memory<'a>(
    heap: &'a LocalHeap,
    ample: &'a LocalHeap,
    rib: &mut RibIn<&'a LocalHeap>,
    other: &mut RibIn<&'a LocalHeap>,
) -> bool {
    let Ok(ballast) = ballast(heap, ample, 0) else {
        return false;
    };
    let are_emptied = are_emptied(heap, rib, other);
    drop(ballast);
    are_emptied && heap.used() == 0
}

/// Whether tables are made, asked and emptied so.
fn are_made(heap: &LocalHeap, ample: &LocalHeap) -> bool {
    let mut rib = RibIn::new(heap);
    let mut other = RibIn::new(heap);
    heap.used() == 0
        && make(&mut other, ample, &[THREE]).is_ok()
        && make(&mut rib, ample, &[TWELVE]).is_ok()
        && needs_no_memory(heap, ample, &mut rib, &mut other)
}

/// The same in heaps of their own.
fn are_made_in_heaps(alloc: Global) -> Result<bool, AllocError> {
    let ample = LocalHeap::new(alloc, 1 << 16)?;
    let heap = LocalHeap::new(alloc, 1 << 13)?;
    Ok(are_made(&heap, &ample))
}

#[test]
fn a_table_is_made_asked_and_emptied_without_memory(rt: HostRuntime) {
    assert!(rt; are_made_in_heaps(rt.alloc()) == Ok(true));
}
