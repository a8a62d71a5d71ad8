//! How much of an exchange some way explains.

ghost use Rattle.std.specs.Prelude.{◌≡◌, ◌↔◌, ◌+◌, ◌<◌, ℕ, length};
ghost use Rattle.std.specs.Prelude.{IfOk, IfSome, IsFalse, IsTrue, MatchOption, OnOk};
ghost use Rattle.bgp_recording.specs.Told.{IsTold};
ghost use Rattle.bgp_orders.specs.Nodes.{IsFirstNode, Node as TheNode};
ghost use Rattle.bgp_orders.specs.Rows.{GainsNodes, HasLast, HasSome, IsAnswer, IsIn};
ghost use Rattle.bgp_orders.specs.Rows.{IsRow, StartsIn, count_of};
ghost use Rattle.bgp_orders.specs.Tidy.{AreUpTo, HasMoreIn, IsTidy, StaysTidy};
ghost use Rattle.bgp_orders.specs.Ways.{MayStart};

use crate::explained::Explained;
use crate::leading::opened_state;
use crate::node::{Node, add_each, first_spot, has_some, one_member};
use crate::search::Search;
use bgp_judge::{PlainMember, next_members};
use bgp_machine::each_owed_want_can_be_met;
use bgp_open::Config;
use bgp_recording::{Exchange, State};
use mrt::Record;
use std::alloc::{AllocError, Allocator};

/// How many nodes are searched at most.
pub const MOST_NODES: usize = 1_048_576;

/// Checks whether a session may begin in this state.
pub(crate) fn may_start(exchange: &Exchange<'_, '_>, start: State) -> bool
    ensures { IsTrue result ↔ MayStart exchange.now start }
{
    match start {
        State::Connect | State::Active => {
            start == opened_state(exchange.opened_by)
                || !exchange.received.is_empty()
                || !exchange.sent.is_empty()
        }
        _ => false,
    }
}

/// Appends the nodes behind the change from Idle to this state, if a session may begin in it.
fn add_start<A: Allocator + Copy>(
    alloc: A,
    search: &Search<'_, '_>,
    start: State,
    nodes: &mut Vec<Node<A>, A>,
) -> Result<(), AllocError>
    ensures gains { OnOk result (GainsNodes search.now.exchange nodes.old.items nodes.new.items
        (StartsIn search.now.config search.now.exchange start)) }
    ensures tidy { OnOk result (IsTidy search.now.exchange nodes.old.items
        → AreUpTo 0 nodes.old.items
        → StaysTidy search.now.exchange 0 nodes.old.items nodes.new.items) }
{
    if !may_start(&search.exchange, start) {
        return Ok(());
    }
    let fresh = one_member(alloc, PlainMember::fresh(alloc))?;
    let change = Record::Change(search.exchange.second, State::Idle.number(), start.number());
    let members = next_members(alloc, &search.config, fresh.as_slice(), &change)?;
    let spot = first_spot(&search.exchange, start);
    add_each(alloc, nodes, Node { spot, members })
}

/// Returns the nodes at which a way begins.
pub(crate) fn first_nodes<A: Allocator + Copy>(
    alloc: A,
    search: &Search<'_, '_>,
) -> Result<Vec<Node<A>, A>, AllocError>
    ensures nodes { IfOk result (λ nodes. (n : TheNode) → IsIn search.now.exchange nodes.items n
        ↔ IsFirstNode search.now.config search.now.exchange n) }
    ensures tidy { IfOk result (λ nodes. IsTidy search.now.exchange nodes.items
        × AreUpTo 0 nodes.items) }
{
    let mut nodes = Vec::new(alloc);
    add_start(alloc, search, State::Connect, &mut nodes)?;
    add_start(alloc, search, State::Active, &mut nodes)?;
    Ok(nodes)
}

/// Returns the first row, if it has no more than `most` nodes.
pub(crate) fn first_row<A: Allocator + Copy>(
    alloc: A,
    search: &Search<'_, '_>,
    most: usize,
) -> Result<Option<Vec<Node<A>, A>>, AllocError>
    ensures row { IfOk result (λ row. IfSome row (λ nodes.
        IsRow search.now.config search.now.within search.now.exchange 0 nodes.items)) }
    ensures many { IfOk result (λ row. MatchOption row
        (HasMoreIn A search.now.config search.now.within search.now.exchange 0 most)
        (λ nodes. IsTidy search.now.exchange nodes.items)) }
{
    let first = first_nodes(alloc, search)?;
    let none: Vec<Node<A>, A> = Vec::new(alloc);
    search.next_row(alloc, none.as_slice(), first, most)
}

/// Returns the row behind another.
pub(crate) fn row_after<A: Allocator + Copy>(
    alloc: A,
    search: &Search<'_, '_>,
    row: &[Node<A>],
    most: usize,
) -> Result<Option<Vec<Node<A>, A>>, AllocError>
    ensures row { (count : ℕ)
        → IsRow search.now.config search.now.within search.now.exchange count row.now
        → IfOk result (λ next. IfSome next (λ nodes.
        IsRow search.now.config search.now.within search.now.exchange (count + 1) nodes.items)) }
    ensures many { (count : ℕ)
        → IsRow search.now.config search.now.within search.now.exchange count row.now
        → IsTidy search.now.exchange row.now → IfOk result (λ next. MatchOption next
        (HasMoreIn A search.now.config search.now.within search.now.exchange (count + 1) most)
        (λ nodes. IsTidy search.now.exchange nodes.items)) }
{
    search.next_row(alloc, row, Vec::new(alloc), most)
}

/// Checks whether a node has no received message left and a member that has shown all.
fn has_last<A: Allocator>(exchange: &Exchange<'_, '_>, row: &[Node<A>]) -> bool
    ensures { IsTrue result ↔ HasLast exchange.now row.now }
{
    for node in row {
        if node.is_last(exchange.received) {
            return true;
        }
    }
    false
}

/// Checks whether the row behind so many sent messages is that of a message, and has no node.
fn is_empty_row<A: Allocator>(count: usize, sent: usize, next: &[Node<A>]) -> bool
    ensures stops { IsTrue result → (count < sent) × (HasSome next.now → ⊥) }
    ensures goes_on { IsFalse result → count < sent → HasSome next.now }
{
    if count >= sent {
        return false;
    }
    !has_some(next)
}

/// Returns how many rows there are behind the first: one for each sent message and one for the end.
pub(crate) fn row_count(exchange: &Exchange<'_, '_>) -> usize
    ensures { result ≡ length exchange.now.sent.now + count_of exchange.now.end }
{
    match exchange.end {
        Some(_) => exchange.sent.len() + 1,
        None => exchange.sent.len(),
    }
}

/// Returns how many of the sent messages some way explains, if each received message is handled
/// within so many seconds after it came: all, and then whether some run shows just the records of
/// some way; or so many, and not the next one. So with `Only` no order that the packets allow has a
/// run of the session machine that explains the next sent message and all before it.
///
/// Takes time and memory for at most [`MOST_NODES`] nodes and the last row's steps. `TooMany` says
/// that more nodes than these are reached, no two of them equal. Returns `AllocError` if memory is
/// refused.
pub fn explained_count<A: Allocator + Copy>(
    alloc: A,
    config: &Config,
    exchange: &Exchange<'_, '_>,
    within: u16,
) -> Result<Explained, AllocError>
    ensures { IfOk result (λ explained. IsTold exchange.now
        → IsAnswer config.now within exchange.now explained) }
{
    each_owed_want_can_be_met();
    let search = Search {
        config: *config,
        exchange: *exchange,
        within,
    };
    let Some(mut row) = first_row(alloc, &search, MOST_NODES)? else {
        return Ok(Explained::TooMany);
    };
    let sent = exchange.sent.len();
    let mut nodes = row.len();
    for count in 0..row_count(exchange) {
        let most = MOST_NODES.saturating_sub(nodes);
        let Some(next) = row_after(alloc, &search, row.as_slice(), most)? else {
            return Ok(Explained::TooMany);
        };
        if is_empty_row(count, sent, next.as_slice()) {
            return Ok(Explained::Only(count));
        }
        nodes = nodes.saturating_add(next.len());
        row = next;
    }
    Ok(Explained::All {
        is_whole: has_last(exchange, row.as_slice()),
    })
}
