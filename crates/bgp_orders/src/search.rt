//! The search through nodes: what one more item makes of a node, and of a row of them.

ghost use Rattle.std.specs.Prelude.{[], ◌≡◌, ◌⊎◌, ◌↔◌, ◌<◌, ◌≤◌, ◌+◌, ◌∷◌, drop, length, map};
ghost use Rattle.std.specs.Prelude.{IfNone, IfOk, IfSome, IsFalse, IsTrue, MatchOption, OnOk};
ghost use Rattle.std.specs.Prelude.{slice_get};
ghost use Rattle.streams.specs.declared.connection.End.{End as TheEnd};
ghost use Rattle.mrt.specs.Reader.{shown_of};
ghost use Rattle.bgp_recording.specs.declared.message.Message.{Message as TheMessage};
ghost use Rattle.bgp_recording.specs.Changes.{are_left, is_answered_before_open, state_then};
ghost use Rattle.bgp_recording.specs.First.{IsFirst};
ghost use Rattle.bgp_recording.specs.Leads.{IsDone, MayEndNext, MayReceiveNext, MaySendNext};
ghost use Rattle.bgp_judge.specs.Plain.{member_value};
ghost use Rattle.bgp_orders.specs.Nodes.{Ends, Hears, Node as TheNode, Says};
ghost use Rattle.bgp_orders.specs.Rows.{GainsNodes, InNextRow, IsIn, IsMade, IsOf};
ghost use Rattle.bgp_orders.specs.Rows.{IsOfPlace, LeadTo, Passes, pending_at};
ghost use Rattle.bgp_orders.specs.Tidy.{AreUpTo, HasMoreNext, IsTidy, IsWithin, StandsAt};
ghost use Rattle.bgp_orders.specs.Tidy.{StaysTidy};
ghost use Rattle.bgp_orders.specs.Turns.{Closing, Hearing, Saying};
ghost use Rattle.bgp_orders.specs.Ways.{changed_to, end_records};

use crate::leading::{
    answers_before_open, just_received, just_sent, led_by_end, led_by_left, led_by_received,
    led_by_sent,
};
use crate::node::{Node, Spot, add_each, add_made};
use bgp_judge::{PlainMember, next_members};
use bgp_machine::State as Session;
use bgp_open::Config;
use bgp_prefix::Seconds;
use bgp_recording::{Before, Exchange, Message, Moment, Pending, Place, State};
use bgp_wire::MessageType;
use mrt::Record;
use std::alloc::{AllocError, Allocator};

/// Returns the message behind so many.
fn next_of<'l, 'a>(messages: &'l [Message<'a>], count: usize) -> Option<&'l Message<'a>>
    ensures some { IfSome result (λ message.
        IsFirst (drop count messages.entry.now) message.now) }
    ensures none { IfNone result (drop count messages.entry.now ≡ []) }
{
    messages.get(count)
}

/// Checks whether more messages than so many are there.
fn are_left(messages: &[Message<'_>], count: usize) -> bool
    ensures { result ≡ are_left (drop count messages.now) }
{
    next_of(messages, count).is_some()
}

/// Checks whether the next sent message answers one of this type that is received before the own
/// OPEN.
fn is_answered(kind: Option<MessageType>, sent: &[Message<'_>], count: usize) -> bool
    ensures { result ≡ is_answered_before_open kind (drop count sent.now) }
{
    match next_of(sent, count) {
        Some(next) => answers_before_open(kind, next),
        None => false,
    }
}

/// Returns the state that is led to, or the same.
pub(crate) fn state_then(state: State, led: Option<State>) -> State
    ensures { result ≡ state_then state led }
{
    led.unwrap_or(state)
}

/// Returns what a change to the state that is led to makes of members, if one is led to.
fn after_change<A: Allocator + Copy>(
    alloc: A,
    config: &Config,
    members: Vec<PlainMember<A>, A>,
    second: Seconds,
    state: State,
    led: Option<State>,
) -> Result<Vec<PlainMember<A>, A>, AllocError>
    ensures { IfOk result (λ next.
        LeadTo config.now (changed_to second state led) members.items next.items) }
{
    let Some(led) = led else {
        return Ok(members);
    };
    let change = Record::Change(second, state.number(), led.number());
    next_members(alloc, config, members.as_slice(), &change)
}

/// Returns what a message's record makes of members, and then a change, if one is led to.
fn after_message<A: Allocator + Copy>(
    alloc: A,
    config: &Config,
    members: &[PlainMember<A>],
    message: &Record<'_>,
    second: Seconds,
    state: State,
    led: Option<State>,
) -> Result<Vec<PlainMember<A>, A>, AllocError>
    ensures { IfOk result (λ next. LeadTo config.now
        (shown_of message.now ∷ changed_to second state led) members.now next.items) }
{
    let shown = next_members(alloc, config, members, message)?;
    after_change(alloc, config, shown, second, state, led)
}

/// Returns an equal copy of a member.
fn copy_of<A: Allocator + Copy>(member: &PlainMember<A>) -> Result<PlainMember<A>, AllocError>
    ensures { IfOk result (λ copy. member_value copy ≡ member_value member.now) }
{
    Ok(PlainMember {
        state: Session {
            head: member.state.head,
            rib: member.state.rib.copy()?,
        },
        link: member.link,
        unshown: member.unshown,
    })
}

/// Returns equal copies of members.
fn copies_of<A: Allocator + Copy>(
    alloc: A,
    members: &[PlainMember<A>],
) -> Result<Vec<PlainMember<A>, A>, AllocError>
    ensures { IfOk result (λ copies.
        map member_value copies.items ≡ map member_value members.now) }
{
    let mut copies = Vec::new(alloc);
    for member in members {
        let copy = copy_of(member)?;
        copies.push(copy)?;
    }
    Ok(copies)
}

/// Returns what the changes to which the end leads make of members, where received messages are
/// left or not.
fn after_end<A: Allocator + Copy>(
    alloc: A,
    config: &Config,
    members: &[PlainMember<A>],
    second: Seconds,
    state: State,
    are_left: bool,
) -> Result<Vec<PlainMember<A>, A>, AllocError>
    ensures { IfOk result (λ next.
        LeadTo config.now (end_records second state are_left) members.now next.items) }
{
    let led = led_by_end(state);
    let ended = state_then(state, led);
    let left = led_by_left(state, are_left);
    let copies = copies_of(alloc, members)?;
    let changed = after_change(alloc, config, copies, second, state, led)?;
    after_change(alloc, config, changed, second, ended, left)
}

/// A message that may stand next at a spot, and where it leads.
#[derive(Clone, Copy)]
pub(crate) struct Turn<'a> {
    /// The packet that shows the message.
    pub(crate) moment: Moment,
    /// The message's record.
    pub(crate) record: Record<'a>,
    /// The state to which it leads, if to another.
    pub(crate) led: Option<State>,
    /// The spot behind it.
    pub(crate) spot: Spot,
}

/// The end, if it may stand next at a spot, and where it leads.
#[derive(Clone, Copy)]
pub(crate) struct Ending {
    /// The packet that shows it.
    pub(crate) moment: Moment,
    /// Received messages are left behind it.
    pub(crate) are_left: bool,
    /// The spot behind it.
    pub(crate) spot: Spot,
}

/// What is searched: what packets show of a session, under a configuration, if each received
/// message is handled within so many seconds.
#[derive(Clone, Copy)]
pub(crate) struct Search<'l, 'a> {
    pub(crate) config: Config,
    pub(crate) exchange: Exchange<'l, 'a>,
    pub(crate) within: u16,
}

impl<'a> Search<'_, 'a> {
    /// Checks whether the next received message may stand next.
    fn may_hear(&self, spot: Spot) -> bool
        ensures { IsTrue result ↔ MayReceiveNext (pending_at self.now.exchange spot) }
    {
        let pending = Pending {
            received: self.exchange.received,
            sent: self.exchange.sent,
            end: if spot.has_ended {
                None
            } else {
                self.exchange.end
            },
            place: spot.place,
        };
        pending.may_receive()
    }

    /// Checks whether the next sent message may stand next.
    fn may_say(&self, spot: Spot) -> bool
        ensures { IsTrue result
            ↔ MaySendNext self.now.within (pending_at self.now.exchange spot) }
    {
        let pending = Pending {
            received: self.exchange.received,
            sent: self.exchange.sent,
            end: if spot.has_ended {
                None
            } else {
                self.exchange.end
            },
            place: spot.place,
        };
        pending.may_send(self.within)
    }

    /// Checks whether the end may stand next.
    fn may_end(&self, spot: Spot) -> bool
        ensures { IsTrue result ↔ MayEndNext self.now.within (pending_at self.now.exchange spot) }
    {
        let pending = Pending {
            received: self.exchange.received,
            sent: self.exchange.sent,
            end: if spot.has_ended {
                None
            } else {
                self.exchange.end
            },
            place: spot.place,
        };
        pending.may_end(self.within)
    }

    /// Returns the next received message with where it leads, if it may stand next.
    pub(crate) fn hearing(&self, spot: Spot) -> Option<Turn<'a>>
        ensures some { IfSome result (λ turn. Hearing self.entry.now.exchange spot turn) }
        ensures none { IfNone result
            (MayReceiveNext (pending_at self.entry.now.exchange spot) → ⊥) }
    {
        if !self.may_hear(spot) {
            return None;
        }
        let message = next_of(self.exchange.received, spot.place.received)?;
        let second = message.second.max(spot.last);
        let is_answered = is_answered(message.kind, self.exchange.sent, spot.place.sent);
        let led = led_by_received(spot.state, message.kind, is_answered);
        Some(Turn {
            moment: message.moment(),
            record: Record::In(second, message.octets),
            led,
            spot: Spot {
                place: Place {
                    received: spot.place.received + 1,
                    sent: spot.place.sent,
                },
                has_ended: spot.has_ended,
                last: second,
                state: state_then(spot.state, led),
                before: just_received(message.kind),
            },
        })
    }

    /// Returns the next sent message with where it leads, if it may stand next.
    pub(crate) fn saying(&self, spot: Spot) -> Option<Turn<'a>>
        ensures some { IfSome result (λ turn.
            Saying self.entry.now.within self.entry.now.exchange spot turn) }
        ensures none { IfNone result
            (MaySendNext self.entry.now.within (pending_at self.entry.now.exchange spot) → ⊥) }
    {
        if !self.may_say(spot) {
            return None;
        }
        let message = next_of(self.exchange.sent, spot.place.sent)?;
        let led = led_by_sent(spot.state, message.kind, spot.before);
        Some(Turn {
            moment: message.moment(),
            record: Record::Out(message.second, message.octets),
            led,
            spot: Spot {
                place: Place {
                    received: spot.place.received,
                    sent: spot.place.sent + 1,
                },
                has_ended: spot.has_ended,
                last: message.second,
                state: state_then(spot.state, led),
                before: just_sent(spot.state, message.kind, spot.before),
            },
        })
    }

    /// Returns the end with where it leads, if it may stand next.
    pub(crate) fn ending(&self, spot: Spot) -> Option<Ending>
        ensures some { IfSome result (λ ending.
            Closing self.now.within self.now.exchange spot ending) }
        ensures none { IfNone result
            (MayEndNext self.now.within (pending_at self.now.exchange spot) → ⊥) }
    {
        if !self.may_end(spot) {
            return None;
        }
        let end = self.exchange.end?;
        let are_left = are_left(self.exchange.received, spot.place.received);
        let led = led_by_end(spot.state);
        let left = led_by_left(spot.state, are_left);
        let ended = state_then(spot.state, led);
        Some(Ending {
            moment: Moment::of_end(end),
            are_left,
            spot: Spot {
                place: spot.place,
                has_ended: true,
                last: end.second.max(spot.last),
                state: state_then(ended, left),
                before: Before::Other,
            },
        })
    }

    /// Checks whether nothing is left at a spot.
    pub(crate) fn is_done(&self, spot: Spot) -> bool
        ensures { IsTrue result ↔ IsDone (pending_at self.now.exchange spot) }
    {
        !are_left(self.exchange.received, spot.place.received)
            && !are_left(self.exchange.sent, spot.place.sent)
            && (spot.has_ended || self.exchange.end.is_none())
    }

    /// Returns what a turn's records make of the members of a node.
    fn after_turn<A: Allocator + Copy>(
        &self,
        alloc: A,
        node: &Node<A>,
        turn: &Turn<'_>,
    ) -> Result<Vec<PlainMember<A>, A>, AllocError>
        ensures { IfOk result (λ next. LeadTo self.now.config (shown_of turn.now.record
            ∷ changed_to turn.now.spot.last node.now.spot.state turn.now.led)
            node.now.members.items next.items) }
    {
        let from = node.members.as_slice();
        let second = turn.spot.last;
        after_message(
            alloc,
            &self.config,
            from,
            &turn.record,
            second,
            node.spot.state,
            turn.led,
        )
    }

    /// Returns what the next received message makes of a node, if it may stand next.
    pub(crate) fn heard<A: Allocator + Copy>(
        &self,
        alloc: A,
        node: &Node<A>,
    ) -> Result<Option<Node<A>>, AllocError>
        ensures made { IfOk result (λ made. (n2 : TheNode) → IsMade self.now.exchange made n2
            ↔ ((n : TheNode) × IsOf self.now.exchange node.now n
            × (x : TheMessage) × Hears self.now.config n x n2)) }
        ensures stands { IsWithin self.now.exchange node.now.spot → IfOk result (λ made. IfSome made
            (StandsAt self.now.exchange (node.now.spot.place.received + 1))) }
    {
        let Some(turn) = self.hearing(node.spot) else {
            return Ok(None);
        };
        let members = self.after_turn(alloc, node, &turn)?;
        Ok(Some(Node {
            spot: turn.spot,
            members,
        }))
    }

    /// Returns what the next sent message makes of a node, if it may stand next.
    fn said<A: Allocator + Copy>(
        &self,
        alloc: A,
        node: &Node<A>,
    ) -> Result<Option<Node<A>>, AllocError>
        ensures made { IfOk result (λ made. (n2 : TheNode) → IsMade self.now.exchange made n2
            ↔ ((n : TheNode) × IsOf self.now.exchange node.now n
            × (x : TheMessage) × Says self.now.config self.now.within n x n2)) }
        ensures stands { IsWithin self.now.exchange node.now.spot → IfOk result (λ made. IfSome made
            (StandsAt self.now.exchange node.now.spot.place.received)) }
    {
        let Some(turn) = self.saying(node.spot) else {
            return Ok(None);
        };
        let members = self.after_turn(alloc, node, &turn)?;
        Ok(Some(Node {
            spot: turn.spot,
            members,
        }))
    }

    /// Returns what the end makes of a node, if it may stand next.
    fn ended<A: Allocator + Copy>(
        &self,
        alloc: A,
        node: &Node<A>,
    ) -> Result<Option<Node<A>>, AllocError>
        ensures made { IfOk result (λ made. (n2 : TheNode) → IsMade self.now.exchange made n2
            ↔ ((n : TheNode) × IsOf self.now.exchange node.now n
            × (e : TheEnd) × Ends self.now.config self.now.within n e n2)) }
        ensures stands { IsWithin self.now.exchange node.now.spot → IfOk result (λ made. IfSome made
            (StandsAt self.now.exchange node.now.spot.place.received)) }
    {
        let Some(ending) = self.ending(node.spot) else {
            return Ok(None);
        };
        let from = node.members.as_slice();
        let second = ending.spot.last;
        let state = node.spot.state;
        let members = after_end(alloc, &self.config, from, second, state, ending.are_left)?;
        Ok(Some(Node {
            spot: ending.spot,
            members,
        }))
    }

    /// Returns what the next sent message makes of a node, or the end if no message is left to be
    /// sent; if that may stand next.
    pub(crate) fn passed<A: Allocator + Copy>(
        &self,
        alloc: A,
        node: &Node<A>,
    ) -> Result<Option<Node<A>>, AllocError>
        ensures made { IfOk result (λ made. (n2 : TheNode) → IsMade self.now.exchange made n2
            ↔ ((n : TheNode) × IsOf self.now.exchange node.now n
            × Passes self.now.config self.now.within n n2)) }
        ensures stands { IsWithin self.now.exchange node.now.spot → IfOk result (λ made. IfSome made
            (StandsAt self.now.exchange node.now.spot.place.received)) }
    {
        if are_left(self.exchange.sent, node.spot.place.sent) {
            self.said(alloc, node)
        } else {
            self.ended(alloc, node)
        }
    }

    /// Appends to a row what a node of the row before becomes by what is sent next.
    pub(crate) fn pass_one<A: Allocator + Copy>(
        &self,
        alloc: A,
        row: &[Node<A>],
        index: usize,
        next: &mut Vec<Node<A>, A>,
    ) -> Result<(), AllocError>
        ensures gains { OnOk result (GainsNodes self.now.exchange next.old.items next.new.items
            (λ n2. (n : TheNode) × IsOfPlace self.now.exchange row.now index n
            × Passes self.now.config self.now.within n n2)) }
        ensures tidy { OnOk result (IfSome (slice_get row.now index) (λ from.
            IsWithin self.now.exchange from.spot → IsTidy self.now.exchange next.old.items
            → AreUpTo from.spot.place.received next.old.items
            → StaysTidy self.now.exchange from.spot.place.received next.old.items
            next.new.items)) }
    {
        let Some(node) = row.get(index) else {
            return Ok(());
        };
        let Some(made) = self.passed(alloc, node)? else {
            return Ok(());
        };
        add_each(alloc, next, made)
    }

    /// Returns what the next received message makes of a node of a row, if it may stand next.
    pub(crate) fn heard_at<A: Allocator + Copy>(
        &self,
        alloc: A,
        row: &[Node<A>],
        index: usize,
    ) -> Result<Option<Node<A>>, AllocError>
        ensures made { IfOk result (λ made. (n2 : TheNode) → IsMade self.now.exchange made n2
            ↔ ((n : TheNode) × IsOfPlace self.now.exchange row.now index n
            × (x : TheMessage) × Hears self.now.config n x n2)) }
        ensures stands { IfSome (slice_get row.now index) (λ from.
            IsWithin self.now.exchange from.spot → IfOk result (λ made. IfSome made
            (StandsAt self.now.exchange (from.spot.place.received + 1)))) }
    {
        let Some(node) = row.get(index) else {
            return Ok(None);
        };
        self.heard(alloc, node)
    }

    /// Returns the row behind another: the first nodes, what the nodes of the row before become by
    /// what is sent next, and what these become by received messages. Returns `None` if it has more
    /// nodes than `most`.
    pub(crate) fn next_row<A: Allocator + Copy>(
        &self,
        alloc: A,
        row: &[Node<A>],
        first: Vec<Node<A>, A>,
        most: usize,
    ) -> Result<Option<Vec<Node<A>, A>>, AllocError>
        ensures row { IfOk result (λ next. IfSome next (λ nodes. (n : TheNode)
            → IsIn self.now.exchange nodes.items n
            ↔ InNextRow self.now.config self.now.within self.now.exchange row.now first.items n)) }
        ensures many { IsTidy self.now.exchange row.now → IsTidy self.now.exchange first.items
            → AreUpTo 0 first.items → IfOk result (λ next. MatchOption next
            (HasMoreNext self.now.config self.now.within self.now.exchange row.now first.items most)
            (λ nodes. IsTidy self.now.exchange nodes.items)) }
    {
        let mut next = first;
        let mut passed = 0;
        let mut heard = 0;
        while passed < row.len() || heard < next.len() {
            if next.len() > most {
                return Ok(None);
            }
            let nodes = next.as_slice();
            if is_passed_next(row, passed, nodes, heard) {
                self.pass_one(alloc, row, passed, &mut next)?;
                passed += 1;
            } else {
                let made = self.heard_at(alloc, nodes, heard)?;
                add_made(alloc, &mut next, made)?;
                heard += 1;
            }
        }
        Ok(Some(next))
    }
}

/// Chooses between a node of the row before and one of this row: the one with fewer received
/// messages, so that a row has its nodes in the order of these. At least one of the two is there.
pub(crate) fn is_passed_next<A: Allocator>(
    row: &[Node<A>],
    passed: usize,
    next: &[Node<A>],
    heard: usize,
) -> bool
    requires { (passed < length row.now) ⊎ (heard < length next.now) }
    ensures passed { IsTrue result → passed < length row.now }
    ensures heard { IsFalse result → heard < length next.now }
    ensures fewer { IfSome (slice_get row.now passed) (λ from.
        IfSome (slice_get next.now heard) (λ to.
        (IsTrue result → from.spot.place.received ≤ to.spot.place.received)
        × (IsFalse result → to.spot.place.received < from.spot.place.received))) }
{
    match (row.get(passed), next.get(heard)) {
        (Some(from), Some(to)) => from.spot.place.received <= to.spot.place.received,
        (from, _) => from.is_some(),
    }
}
