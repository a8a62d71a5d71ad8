//! Nodes: where a walk through an exchange stands, with members that explain the records so far.

ghost use Rattle.std.specs.Prelude.{[], ◌∷◌, ◌≡◌, ◌≢◌, ◌↔◌, ◌≤◌, ℕ, IfOk, IfSome, IsFalse};
ghost use Rattle.std.specs.Prelude.{IsTrue, OnOk, length};
ghost use Rattle.bgp_machine.specs.Lists.{Has};
ghost use Rattle.bgp_judge.specs.Chains.{bare};
ghost use Rattle.bgp_judge.specs.Member.{IsFree, Member};
ghost use Rattle.bgp_recording.specs.declared.ordering.Exchange.{Exchange as TheExchange};
ghost use Rattle.bgp_judge.specs.Plain.{Among, member_value};
ghost use Rattle.bgp_orders.specs.Nodes.{Node as TheNode};
ghost use Rattle.bgp_orders.specs.Rows.{GainsNodes, HasSome, IsIn, IsMade, IsOf, node_at};
ghost use Rattle.bgp_orders.specs.Tidy.{AreInOrder, AreUpTo, IsTidy, IsWithin, KeepsOne};
ghost use Rattle.bgp_orders.specs.Tidy.{StandsAt, StaysTidy};
ghost use Rattle.bgp_orders.specs.Turns.{first_spot};

use bgp_judge::PlainMember;
use bgp_prefix::Seconds;
use bgp_recording::{Before, Exchange, Message, Place, State};
use std::alloc::{AllocError, Allocator};

/// Where a walk stands, whatever explains it.
#[derive(Clone, Copy)]
pub(crate) struct Spot {
    /// How many messages of each direction are behind it.
    pub(crate) place: Place,
    /// The end is behind it, too, or there is none.
    pub(crate) has_ended: bool,
    /// The second of the item before.
    pub(crate) last: Seconds,
    /// The state that the records so far say.
    pub(crate) state: State,
    /// What stands just before.
    pub(crate) before: Before,
}

/// A spot with members of the judge. Each is an explanation of the records of a walk up to the
/// spot; its routes aren't looked at.
#[derive(Drop)]
pub(crate) struct Node<A: Allocator> {
    pub(crate) spot: Spot,
    pub(crate) members: Vec<PlainMember<A>, A>,
}

/// Returns the spot behind the first record, the change from Idle to this state.
pub(crate) fn first_spot(exchange: &Exchange<'_, '_>, start: State) -> Spot
    ensures { result ≡ first_spot exchange.now start }
{
    Spot {
        place: Place {
            received: 0,
            sent: 0,
        },
        has_ended: false,
        last: exchange.second,
        state: start,
        before: Before::Other,
    }
}

impl Spot {
    /// Checks whether both are the same spot.
    fn is_same(self, other: Spot) -> bool
        ensures { IsTrue result ↔ (self ≡ other) }
    {
        self.place.received == other.place.received
            && self.place.sent == other.place.sent
            && self.has_ended == other.has_ended
            && self.last == other.last
            && self.state == other.state
            && self.before == other.before
    }
}

/// Checks whether the member is in the list.
fn has_member<A: Allocator>(members: &[PlainMember<A>], member: &PlainMember<A>) -> bool
    ensures { IsTrue result ↔ Among members.now (member_value member.now) }
{
    for x in members {
        if x.is_same(member) {
            return true;
        }
    }
    false
}

/// Checks whether the last nodes, which have as many received messages as the spot behind them,
/// have one of this spot and member.
pub(crate) fn has<A: Allocator>(nodes: &[Node<A>], spot: Spot, member: &PlainMember<A>) -> bool
    ensures there { IsTrue result → (exchange : TheExchange)
        → IsIn exchange nodes.now (node_at exchange spot (member_value member.now)) }
    ensures none { IsFalse result → AreInOrder nodes.now → AreUpTo spot.place.received nodes.now
        → ¬ Has (KeepsOne spot (member_value member.now)) nodes.now }
{
    let mut left = nodes;
    while let Some((node, others)) = left.split_last() {
        if node.spot.place.received != spot.place.received {
            return false;
        }
        if node.spot.is_same(spot) && has_member(node.members.as_slice(), member) {
            return true;
        }
        left = others;
    }
    false
}

/// Returns a list of one member.
pub(crate) fn one_member<A: Allocator>(
    alloc: A,
    member: PlainMember<A>,
) -> Result<Vec<PlainMember<A>, A>, AllocError>
    ensures { IfOk result (λ members. members.items ≡ member ∷ []) }
{
    let mut members = Vec::new(alloc);
    members.push(member)?;
    Ok(members)
}

/// Appends a node of this spot and member, if the list doesn't have it yet.
fn add<A: Allocator + Copy>(
    alloc: A,
    nodes: &mut Vec<Node<A>, A>,
    spot: Spot,
    member: PlainMember<A>,
) -> Result<(), AllocError>
    ensures gains { OnOk result ((exchange : TheExchange)
        → GainsNodes exchange nodes.old.items nodes.new.items
        (λ n. n ≡ node_at exchange spot (member_value member))) }
    ensures tidy { OnOk result ((exchange : TheExchange) → IsTidy exchange nodes.old.items
        → IsWithin exchange spot → bare (member_value member) ≡ member_value member
        → AreUpTo spot.place.received nodes.old.items
        → StaysTidy exchange spot.place.received nodes.old.items nodes.new.items) }
{
    if has(nodes.as_slice(), spot, &member) {
        return Ok(());
    }
    let members = one_member(alloc, member)?;
    nodes.push(Node { spot, members })?;
    Ok(())
}

/// Appends a node for each member of this one, its routes forgotten, unless the list has it.
pub(crate) fn add_each<A: Allocator + Copy>(
    alloc: A,
    nodes: &mut Vec<Node<A>, A>,
    made: Node<A>,
) -> Result<(), AllocError>
    ensures gains { OnOk result ((exchange : TheExchange)
        → GainsNodes exchange nodes.old.items nodes.new.items (IsOf exchange made)) }
    ensures tidy { OnOk result ((exchange : TheExchange) → IsTidy exchange nodes.old.items
        → IsWithin exchange made.spot → AreUpTo made.spot.place.received nodes.old.items
        → StaysTidy exchange made.spot.place.received nodes.old.items nodes.new.items) }
{
    let spot = made.spot;
    let mut members = made.members;
    while let Some(mut member) = members.pop() {
        member.forget_routes();
        add(alloc, nodes, spot, member)?;
    }
    Ok(())
}

/// Appends the nodes that are made, if some are, as [`add_each`] does.
pub(crate) fn add_made<A: Allocator + Copy>(
    alloc: A,
    nodes: &mut Vec<Node<A>, A>,
    made: Option<Node<A>>,
) -> Result<(), AllocError>
    ensures gains { OnOk result ((exchange : TheExchange)
        → GainsNodes exchange nodes.old.items nodes.new.items (IsMade exchange made)) }
    ensures tidy { OnOk result ((exchange : TheExchange) (received : ℕ)
        → IsTidy exchange nodes.old.items → IfSome made (StandsAt exchange received)
        → AreUpTo received nodes.old.items
        → StaysTidy exchange received nodes.old.items nodes.new.items) }
{
    let Some(made) = made else {
        return Ok(());
    };
    add_each(alloc, nodes, made)
}

/// Checks whether a member has shown all.
fn has_free<A: Allocator>(members: &[PlainMember<A>]) -> bool
    ensures { IsTrue result ↔ ((m : Member) × Among members.now m × IsFree m) }
{
    for member in members {
        if member.is_free() {
            return true;
        }
    }
    false
}

/// Checks whether there is a member.
pub(crate) fn has_any<A: Allocator>(members: &[PlainMember<A>]) -> bool
    ensures { IsTrue result ↔ (members.now ≢ []) }
{
    !members.is_empty()
}

/// Checks whether a node has a member.
pub(crate) fn has_some<A: Allocator>(nodes: &[Node<A>]) -> bool
    ensures { IsTrue result ↔ HasSome nodes.now }
{
    for node in nodes {
        if has_any(node.members.as_slice()) {
            return true;
        }
    }
    false
}

impl<A: Allocator> Node<A> {
    /// Checks whether none of the received messages is left, and a member has shown all.
    pub(crate) fn is_last(&self, received: &[Message<'_>]) -> bool
        ensures { IsTrue result ↔ ((length received.now ≤ self.now.spot.place.received)
            × ((m : Member) × Among self.now.members.items m × IsFree m)) }
    {
        received.len() <= self.spot.place.received && has_free(self.members.as_slice())
    }
}
