//! The steps of a walk to a node where all is explained: the search once more, which keeps from
//! which node each one came.

ghost use Rattle.std.specs.Prelude.{◌≡◌, ◌⊎◌, ◌↔◌, ◌+◌, ◌-◌, ◌<◌, ◌≤◌};
ghost use Rattle.std.specs.Prelude.{IfNone, IfOk, IfSome, IsSomeAnd, MatchOption, OnOk, length};
ghost use Rattle.std.specs.Prelude.{map, reverse, slice_get};
ghost use Rattle.bgp_orders.specs.Nodes.{Node as TheNode};
ghost use Rattle.bgp_orders.specs.Rows.{HasLast, InNextRow, IsIn};
ghost use Rattle.bgp_orders.specs.Tidy.{AreUpTo, HasMoreNext, IsTidy};
ghost use Rattle.bgp_orders.specs.Tracks.{AreNoted, AreTracked, IsLastOf, IsTracked};
ghost use Rattle.bgp_orders.specs.Tracks.{IsTrailTo, IsTrailToLast, LeadsToLast, NoneIsFound};
ghost use Rattle.bgp_orders.specs.Tracks.{TracksBack, start_of};

use crate::counting::{MOST_NODES, first_nodes, row_count};
use crate::course::Step;
use crate::node::{Node, add_made};
use crate::search::{Search, is_passed_next};
use bgp_machine::each_owed_want_can_be_met;
use bgp_recording::{Exchange, State};
use std::alloc::{AllocError, Allocator};

/// Where a walk begins, and its steps.
#[derive(Drop)]
pub(crate) struct Track<A: Allocator> {
    pub(crate) start: State,
    pub(crate) steps: Vec<Step, A>,
}

/// Where a node came from: eight octets for each node.
#[derive(Clone, Copy)]
pub(crate) enum Origin {
    /// A walk begins there, in this state.
    Start(State),
    /// This step leads there from the node at this place of the trail.
    Behind(Step, u32),
}

/// Where each node that is reached came from, row by row, and the place of one where all is
/// explained.
#[derive(Drop)]
pub(crate) struct Trail<A: Allocator> {
    origins: Vec<Origin, A>,
    last: usize,
}

/// Notes that the last nodes came from there, of a row that begins at this place of the trail and
/// has so many.
fn note<A: Allocator>(
    origins: &mut Vec<Origin, A>,
    base: usize,
    count: usize,
    origin: Origin,
) -> Result<(), AllocError>
    requires { base ≤ length origins.old.items }
    ensures { OnOk result (AreNoted origins.old.items origins.new.items base count origin) }
{
    while origins.len() - base < count {
        origins.push(origin)?;
    }
    Ok(())
}

/// Returns where the first nodes of the first row came from.
fn first_origins<A: Allocator>(alloc: A, nodes: &[Node<A>]) -> Result<Vec<Origin, A>, AllocError>
    ensures { IfOk result (λ origins. origins.items ≡ map start_of nodes.now) }
{
    let mut origins = Vec::new(alloc);
    for node in nodes {
        origins.push(Origin::Start(node.spot.state))?;
    }
    Ok(origins)
}

/// Returns the row behind another, as [`Search::next_row`] does, and notes where its nodes came
/// from. The row before begins at the one place of the trail, this row at the other, where its first
/// nodes are noted already. Returns `None` if the trail has more than [`MOST_NODES`].
fn traced_row<A: Allocator + Copy>(
    alloc: A,
    search: &Search<'_, '_>,
    row: &[Node<A>],
    before: usize,
    first: Vec<Node<A>, A>,
    base: usize,
    origins: &mut Vec<Origin, A>,
) -> Result<Option<Vec<Node<A>, A>>, AllocError>
    requires behind { before + length row.now ≤ base }
    requires row { AreTracked search.now.config search.now.within search.now.exchange
        origins.old.items before row.now }
    requires first { IsTrailTo search.now.config search.now.within search.now.exchange
        origins.old.items base first.items }
    ensures row { IfOk result (λ next. IfSome next (λ nodes. (n : TheNode)
        → IsIn search.now.exchange nodes.items n ↔ InNextRow search.now.config
        search.now.within search.now.exchange row.now first.items n)) }
    ensures many { IsTidy search.now.exchange row.now → IsTidy search.now.exchange first.items
        → AreUpTo 0 first.items → IfOk result (λ next. MatchOption next
        (HasMoreNext search.now.config search.now.within search.now.exchange row.now first.items
        (1048576 - base) ⊎ (1048576 < base)) (λ nodes. IsTidy search.now.exchange nodes.items)) }
    ensures trail { IfOk result (λ next. IfSome next (λ nodes. IsTrailTo search.now.config
        search.now.within search.now.exchange origins.new.items base nodes.items)) }
{
    let mut next = first;
    let mut passed = 0;
    let mut heard = 0;
    while passed < row.len() || heard < next.len() {
        if origins.len() > MOST_NODES {
            return Ok(None);
        }
        let nodes = next.as_slice();
        if is_passed_next(row, passed, nodes, heard) {
            let origin = Origin::Behind(Step::Pass, (before + passed) as u32);
            search.pass_one(alloc, row, passed, &mut next)?;
            note(origins, base, next.len(), origin)?;
            passed += 1;
        } else {
            let origin = Origin::Behind(Step::Receive, (base + heard) as u32);
            let made = search.heard_at(alloc, nodes, heard)?;
            add_made(alloc, &mut next, made)?;
            note(origins, base, next.len(), origin)?;
            heard += 1;
        }
    }
    Ok(Some(next))
}

/// Returns where in a row a node is that has no received message left and a member that has shown
/// all.
fn last_index<A: Allocator>(exchange: &Exchange<'_, '_>, row: &[Node<A>]) -> Option<usize>
    ensures some { IfSome result (λ index.
        IsSomeAnd (slice_get row.now index) (IsLastOf exchange.now)) }
    ensures none { IfNone result (HasLast exchange.now row.now → ⊥) }
{
    for index in 0..row.len() {
        if row[index].is_last(exchange.received) {
            return Some(index);
        }
    }
    None
}

/// Returns where the nodes of all rows came from, and where one of the last row is that has nothing
/// left and a member that has shown all. Returns `None` only if there is none, and so no way is
/// whole, or if more than [`MOST_NODES`] are reached.
fn trail_to_last<A: Allocator + Copy>(
    alloc: A,
    search: &Search<'_, '_>,
) -> Result<Option<Trail<A>>, AllocError>
    ensures some { IfOk result (λ found. IfSome found (λ trail. IsTrailToLast
        search.now.config search.now.within search.now.exchange trail.origins.items trail.last)) }
    ensures none { IfOk result (λ found. IfNone found
        (NoneIsFound search.now.config search.now.within search.now.exchange)) }
{
    each_owed_want_can_be_met();
    let exchange = &search.exchange;
    let first = first_nodes(alloc, search)?;
    let mut origins = first_origins(alloc, first.as_slice())?;
    let none: Vec<Node<A>, A> = Vec::new(alloc);
    let Some(mut row) = traced_row(alloc, search, none.as_slice(), 0, first, 0, &mut origins)?
    else {
        return Ok(None);
    };
    let mut before = 0;
    for _count in 0..row_count(exchange) {
        let base = origins.len();
        let none: Vec<Node<A>, A> = Vec::new(alloc);
        let nodes = row.as_slice();
        let Some(next) = traced_row(alloc, search, nodes, before, none, base, &mut origins)? else {
            return Ok(None);
        };
        before = base;
        row = next;
    }
    match last_index(exchange, row.as_slice()) {
        Some(index) => Ok(Some(Trail {
            origins,
            last: before + index,
        })),
        None => Ok(None),
    }
}

/// Returns where the node at this place of a trail came from.
fn origin_at(origins: &[Origin], place: usize) -> Origin
    requires { place < length origins.now }
    ensures { slice_get origins.now place ≡ Some result }
{
    origins[place]
}

/// Returns the steps that lead to this place of a trail.
fn track_back<A: Allocator>(
    alloc: A,
    origins: &[Origin],
    last: usize,
) -> Result<Track<A>, AllocError>
    requires { IsTracked origins.now last }
    ensures { IfOk result (λ track.
        TracksBack origins.now last track.start (reverse track.steps.items)) }
{
    let mut steps = Vec::new(alloc);
    let mut place = last;
    loop {
        match origin_at(origins, place) {
            Origin::Start(start) => {
                steps.reverse();
                return Ok(Track { start, steps });
            }
            Origin::Behind(step, before) => {
                steps.push(step)?;
                place = before as usize;
            }
        }
    }
}

/// Returns the steps of a walk to a node where nothing is left and a member has shown all. Returns
/// `None` only if no way is whole, or if more nodes than [`MOST_NODES`] are reached.
pub(crate) fn whole_track<A: Allocator + Copy>(
    alloc: A,
    search: &Search<'_, '_>,
) -> Result<Option<Track<A>>, AllocError>
    ensures some { IfOk result (λ found. IfSome found (λ track. LeadsToLast search.now.config
        search.now.within search.now.exchange track.start track.steps.items)) }
    ensures none { IfOk result (λ found. IfNone found
        (NoneIsFound search.now.config search.now.within search.now.exchange)) }
{
    let Some(trail) = trail_to_last(alloc, search)? else {
        return Ok(None);
    };
    let track = track_back(alloc, trail.origins.as_slice(), trail.last)?;
    Ok(Some(track))
}
