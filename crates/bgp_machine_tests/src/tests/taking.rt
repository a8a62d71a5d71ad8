//! What a step leaves of a state, and refused memory.

use super::*;
use arrayvec::ArrayVec;
use bgp_machine::{After, Routes, State, list_message_steps};
use bgp_rib::RibIn;
use bgp_update::Changes;
use bgp_wire::vectors::{ANNOUNCES_10, KEEPALIVE};
use linked_list_allocator::LocalHeap;
use std::alloc::{AllocError, Allocator, Global};

const V4: Families = Families {
    v4: true,
    v6: false,
};

const V6: Families = Families {
    v4: false,
    v6: true,
};

const BOTH: Families = Families { v4: true, v6: true };

/// What a step leaves that ends so.
fn ends(head: Head, routes: Routes) -> After {
    After { head, routes }
}

/// Whether a state has no routes, and no family is disabled.
fn is_without_routes<A: Allocator + Copy>(alloc: A, state: &State<A>) -> bool {
    state.rib == RibIn::new(alloc)
}

/// The changes of a message, if it has some.
type Told<'a, A> = Option<&'a Changes<A>>;

/// Whether a fresh state is in this head once a step has kept its routes.
fn is_moved<A: Allocator + Copy>(
    alloc: A,
    state: &mut State<A>,
    up: Head,
    nothing: Told<'_, A>,
) -> bool {
    let is_taken = state.take(ends(up, Routes::Kept), nothing).is_ok();
    is_taken && state.head == up && is_without_routes(alloc, state)
}

/// Whether a state that has a route of IPv4, and IPv6 disabled, loses it with both disabled, though
/// there are no changes.
fn is_disabled<A: Allocator + Copy>(state: &mut State<A>, up: Head, nothing: Told<'_, A>) -> bool {
    let is_put = state.rib.len() == 1 && state.rib.disabled() == V6;
    let is_taken = state.take(ends(up, Routes::Given(V4)), nothing).is_ok();
    is_put && is_taken && state.rib.disabled() == BOTH && state.rib.len() == 0
}

/// Whether a state falls, and is fresh then.
fn falls<A: Allocator + Copy>(alloc: A, state: &mut State<A>, nothing: Told<'_, A>) -> bool {
    let is_taken = state
        .take(ends(Head::Idle, Routes::Cleared), nothing)
        .is_ok();
    is_taken && state.head == Head::Idle && is_without_routes(alloc, state)
}

/// Whether a fresh state takes the changes of an UPDATE, and what comes then without changes: `None`
/// where it isn't right. Refused, it is as it was.
fn takes<A: Allocator + Copy>(
    alloc: A,
    state: &mut State<A>,
    up: Head,
    changes: Told<'_, A>,
    nothing: Told<'_, A>,
) -> Option<bool> {
    let is_moved = is_moved(alloc, state, up, nothing);
    let after = ends(Head::Idle, Routes::Given(V6));
    let is_taken = state.take(after, changes).is_ok();
    let is_right = if is_taken {
        state.head == Head::Idle && is_disabled(state, up, nothing) && falls(alloc, state, nothing)
    } else {
        state.head == up && is_without_routes(alloc, state)
    };
    (is_moved && is_right).then_some(is_taken)
}

/// The changes that stand beside the steps about a message, at 120.
fn changes_beside<A: Allocator + Copy>(
    alloc: A,
    config: &Config,
    up: Head,
    message: &[u8],
) -> Result<Option<Changes<A>>, AllocError> {
    let mut steps = ArrayVec::new();
    list_message_steps(alloc, config, up, 120, message, &mut steps)
}

/// Whether the changes of an UPDATE take no destination away and put one.
fn put_one<A: Allocator>(changes: Told<'_, A>) -> bool {
    match changes {
        Some(changes) => match &changes.nlri {
            Some(group) => changes.remove.is_empty() && group.destinations.len() == 1,
            None => false,
        },
        None => false,
    }
}

/// Whether an UPDATE's steps are told in this memory: `None` where its changes are wrong.
fn is_told<A: Allocator + Copy>(alloc: A, config: &Config, up: Head) -> Option<bool> {
    match changes_beside(alloc, config, up, &ANNOUNCES_10) {
        Ok(changes) => put_one(changes.as_ref()).then_some(true),
        Err(_) => Some(false),
    }
}

/// Whether a fresh state whose routes are kept in this heap takes its changes.
fn is_taken<A: Allocator + Copy>(heap: A, ample: A, config: &Config, up: Head) -> Option<bool> {
    let changes = changes_beside(ample, config, up, &ANNOUNCES_10).ok()?;
    let nothing = changes_beside(ample, config, up, &KEEPALIVE).ok()?;
    let mut state = State::fresh(heap);
    takes(heap, &mut state, up, changes.as_ref(), nothing.as_ref())
}

/// Whether its steps are told in a heap of this size.
fn is_told_in(alloc: Global, config: &Config, up: Head, size: usize) -> Option<bool> {
    let heap = LocalHeap::new(alloc, size).ok()?;
    is_told(&heap, config, up)
}

/// Whether its changes are taken in one.
fn is_taken_in(alloc: Global, config: &Config, up: Head, size: usize) -> Option<bool> {
    let ample = LocalHeap::new(alloc, 1 << 12).ok()?;
    let heap = LocalHeap::new(alloc, size).ok()?;
    is_taken(&heap, &ample, config, up)
}

/// How often of 128 times the steps of an UPDATE are told in greater and greater heaps, and how
/// often its changes are taken: `None` where what is left is wrong.
fn times(alloc: Global, config: &Config, up: Head) -> Option<(u32, u32)> {
    let (mut told, mut taken) = (0u32, 0u32);
    for step in 0..128 {
        let size = 16 * (step + 1);
        told = told.saturating_add(u32::from(is_told_in(alloc, config, up, size)?));
        taken = taken.saturating_add(u32::from(is_taken_in(alloc, config, up, size)?));
    }
    Some((told, taken))
}

#[test]
fn a_refused_growth_leaves_the_state(rt: HostRuntime) {
    let (told, taken) = times(rt.alloc(), &router_a(&rt, false), up(&rt)).unwrap_or((0, 0));
    assert!(rt;
        0 < told && told < 128 && 0 < taken && taken < 128,
        "{told} {taken}"
    );
}

#[test]
fn ample_memory(rt: HostRuntime) {
    let config = router_a(&rt, false);
    let up = up(&rt);
    assert!(rt; is_told(rt.alloc(), &config, up) == Some(true));
    assert!(rt; is_taken(rt.alloc(), rt.alloc(), &config, up) == Some(true));
}
