//! The place of a sent message, over all orders.

ghost use Rattle.std.specs.Prelude.{◌≡◌, ◌≢◌, ◌↔◌, [], ℕ, IfNone, IfOk, IfSome, IsTrue};
ghost use Rattle.std.specs.Prelude.{MatchOption, length};
ghost use Rattle.bgp_prefix.specs.Shown.{Sent};
ghost use Rattle.bgp_open.specs.declared.config.Config.{Config as TheConfig};
ghost use Rattle.mrt.specs.Reader.{shown_of};
ghost use Rattle.bgp_machine.specs.Lists.{Has};
ghost use Rattle.bgp_judge.specs.Member.{Member};
ghost use Rattle.bgp_judge.specs.Next.{Next};
ghost use Rattle.bgp_judge.specs.Plain.{Among};
ghost use Rattle.bgp_recording.specs.declared.ordering.Exchange.{Exchange as TheExchange};
ghost use Rattle.bgp_recording.specs.Told.{IsTold};
ghost use Rattle.bgp_orders.specs.Many.{AreTooMany};
ghost use Rattle.bgp_orders.specs.Rows.{IsRow};
ghost use Rattle.bgp_orders.specs.SentPlaces.{AreReached, CouldBeSent, IsSentPlace, Takes};
ghost use Rattle.bgp_orders.specs.Tidy.{IsTidy};

use crate::counting::{MOST_NODES, first_row, row_after};
use crate::node::{Node, has_any};
use crate::search::Search;
use bgp_judge::{PlainMember, next_members};
use bgp_machine::each_owed_want_can_be_met;
use bgp_open::Config;
use bgp_recording::Exchange;
use mrt::Record;
use std::alloc::{AllocError, Allocator};

/// The place of a sent message: the nodes that are reached with all sent messages before it.
#[derive(Drop)]
pub struct SentPlace<'l, 'a, A: Allocator> {
    alloc: A,
    search: Search<'l, 'a>,
    nodes: Vec<Node<A>, A>,
}

/// Checks whether the record leads a member on.
fn leads_on<A: Allocator + Copy>(
    alloc: A,
    config: &Config,
    members: &[PlainMember<A>],
    shown: &Record<'_>,
) -> Result<bool, AllocError>
    ensures { IfOk result (λ leads. IsTrue leads
        ↔ ((m : Member) × Among members.now m
        × (m2 : Member) × Next config.now (shown_of shown.now) m m2)) }
{
    let next = next_members(alloc, config, members, shown)?;
    Ok(has_any(next.as_slice()))
}

/// Returns the row behind so many sent messages, if the rows up to it have no more than
/// [`MOST_NODES`] nodes.
fn row_behind<A: Allocator + Copy>(
    alloc: A,
    search: &Search<'_, '_>,
    before: usize,
) -> Result<Option<Vec<Node<A>, A>>, AllocError>
    ensures row { IfOk result (λ row. IfSome row (λ nodes.
        IsRow search.now.config search.now.within search.now.exchange before nodes.items)) }
    ensures many { IfOk result (λ row. MatchOption row
        (AreTooMany search.now.config search.now.within search.now.exchange)
        (λ nodes. IsTidy search.now.exchange nodes.items)) }
{
    let Some(mut row) = first_row(alloc, search, MOST_NODES)? else {
        return Ok(None);
    };
    let mut nodes = row.len();
    for _count in 0..before {
        let most = MOST_NODES.saturating_sub(nodes);
        let Some(next) = row_after(alloc, search, row.as_slice(), most)? else {
            return Ok(None);
        };
        nodes = nodes.saturating_add(next.len());
        row = next;
    }
    Ok(Some(row))
}

/// Returns the place of the sent message behind so many, if each received message is handled within
/// so many seconds after it came.
///
/// Takes the time and memory of [`explained_count`](crate::explained_count) up to there. Returns
/// `None` if more nodes than [`MOST_NODES`] are reached, and `AllocError` if memory is refused.
pub fn place_of_sent<'l, 'a, A: Allocator + Copy>(
    alloc: A,
    config: &Config,
    exchange: &Exchange<'l, 'a>,
    within: u16,
    before: usize,
) -> Result<Option<SentPlace<'l, 'a, A>>, AllocError>
    ensures place { IfOk result (λ found. IfSome found (λ place.
        IsSentPlace config.now within exchange.now before place)) }
    ensures many { IfOk result (λ found. IfNone found
        (AreTooMany config.now within exchange.now)) }
{
    let search = Search {
        config: *config,
        exchange: *exchange,
        within,
    };
    match row_behind(alloc, &search, before)? {
        Some(nodes) => Ok(Some(SentPlace {
            alloc,
            search,
            nodes,
        })),
        None => Ok(None),
    }
}

impl<A: Allocator + Copy> SentPlace<'_, '_, A> {
    /// Returns how many nodes there are.
    pub fn node_count(&self) -> usize
        ensures count { result ≡ length self.now.nodes.items }
        ensures reached { (config : TheConfig) (within : ℕ) (exchange : TheExchange) (before : ℕ)
            → IsSentPlace config within exchange before self.now
            → AreReached config within exchange before result }
    {
        self.nodes.len()
    }

    /// Checks whether these octets may be sent at a node, in place of the next message.
    fn may_send_at(&self, node: &Node<A>, octets: &[u8]) -> Result<bool, AllocError>
        ensures { IfOk result (λ may. IsTrue may ↔ Takes self.now.search.config
            self.now.search.within self.now.search.exchange octets.now node.now) }
    {
        let Some(turn) = self.search.saying(node.spot) else {
            return Ok(false);
        };
        let record = Record::Out(turn.spot.last, octets);
        leads_on(
            self.alloc,
            &self.search.config,
            node.members.as_slice(),
            &record,
        )
    }

    /// Checks whether these octets may be sent at one of the nodes, in place of the next message.
    fn may_send_at_some(&self, nodes: &[Node<A>], octets: &[u8]) -> Result<bool, AllocError>
        ensures { IfOk result (λ may. IsTrue may ↔ Has (λ node. Takes self.now.search.config
            self.now.search.within self.now.search.exchange octets.now node) nodes.now) }
    {
        for node in nodes {
            if self.may_send_at(node, octets)? {
                return Ok(true);
            }
        }
        Ok(false)
    }

    /// Checks whether these octets could have been sent in this place, at the second of its message:
    /// whether, in some order that the packets allow, they and all that was sent before begin a run
    /// of the session machine.
    pub fn could_be_sent(&self, octets: &[u8]) -> Result<bool, AllocError>
        ensures { (config : TheConfig) (within : ℕ) (exchange : TheExchange) (before : ℕ)
            → IsTold exchange → IsSentPlace config within exchange before self.now
            → IfOk result (λ could. IsTrue could
            ↔ CouldBeSent config within exchange before octets.now) }
    {
        each_owed_want_can_be_met();
        self.may_send_at_some(self.nodes.as_slice(), octets)
    }
}
