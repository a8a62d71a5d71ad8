//! A member that is kept whole: one explanation of the records so far.

ghost use Rattle.std.specs.Prelude.{◌≡◌, ◌↔◌, IsTrue, IfOk};
ghost use Rattle.bgp_machine.specs.State.{state_value};
ghost use Rattle.bgp_machine.specs.Want.{wants_of};
ghost use Rattle.bgp_judge.specs.Chains.{bare};
ghost use Rattle.bgp_judge.specs.Member.{IsFree, fresh_member, link_for};
ghost use Rattle.bgp_judge.specs.Plain.{member_value};

use crate::unshown::Unshown;
use bgp_machine::{
    RibIn, State, Wants, equality_is_real, same_change, same_head, same_link, same_wants,
};
use bgp_open::Link;
use std::alloc::{AllocError, Allocator, Global};

/// One explanation of the records so far: the session machine's steps led to a state, and the last
/// of them may have something left to show. Members are what the judge goes by: it starts with the
/// fresh one, and [`next_members`](crate::next_members) is its step from one record to the next
/// ([law](crate::a_member_is_reached)).
#[derive(Drop)]
pub struct PlainMember<A: Allocator = Global> {
    /// The state that the steps lead to.
    pub state: State<A>,
    /// The link that stood before the last step, if that has something left to send.
    pub link: Option<Link>,
    /// What the last step has still to show.
    pub unshown: Unshown,
}

/// Returns the link on which these are sent.
pub(crate) fn link_for(wants: Wants, link: Option<Link>) -> Option<Link>
    ensures { result ≡ link_for (wants_of wants) link }
{
    match wants {
        Wants::Nothing => None,
        _ => link,
    }
}

/// Returns an equal copy of a state.
pub(crate) fn copy_of<A: Allocator + Copy>(state: &State<A>) -> Result<State<A>, AllocError>
    ensures { IfOk result (λ copy. state_value copy ≡ state_value state.now) }
{
    Ok(State {
        head: state.head,
        rib: state.rib.copy()?,
    })
}

impl<A: Allocator + Copy> PlainMember<A> {
    /// Returns the member before the first record: in Idle, with nothing left to show. Takes no
    /// memory.
    pub fn fresh(alloc: A) -> PlainMember<A>
        ensures { member_value result ≡ fresh_member }
    {
        PlainMember {
            state: State::fresh(alloc),
            link: None,
            unshown: Unshown {
                wants: Wants::Nothing,
                change: None,
            },
        }
    }
}

/// Checks whether both have the same left to show.
fn same_unshown(a: Unshown, b: Unshown) -> bool
    ensures { IsTrue result ↔ ((wants_of a.wants ≡ wants_of b.wants) × (a.change ≡ b.change)) }
{
    if !same_wants(a.wants, b.wants) {
        return false;
    }
    same_change(a.change, b.change)
}

/// Checks whether both are the same link, or none.
fn same_links(a: Option<Link>, b: Option<Link>) -> bool
    ensures { IsTrue result ↔ (a ≡ b) }
{
    match (a, b) {
        (None, None) => true,
        (Some(link), Some(other)) => same_link(link, other),
        _ => false,
    }
}

/// Checks whether both have the same routes and disabled families.
pub(crate) fn same_routes<A: Allocator>(a: &RibIn<A>, b: &RibIn<A>) -> bool
    ensures { IsTrue result ↔ (a.now ≡ b.now) }
{
    equality_is_real();
    a == b
}

impl<A: Allocator> PlainMember<A> {
    /// Checks whether nothing is left to show.
    pub fn is_free(&self) -> bool
        ensures { IsTrue result ↔ IsFree (member_value self.now) }
    {
        match (self.unshown.wants, self.unshown.change) {
            (Wants::Nothing, None) => true,
            _ => false,
        }
    }

    /// Checks whether both are the same explanation.
    pub fn is_same(&self, other: &PlainMember<A>) -> bool
        ensures { IsTrue result ↔ (member_value self.now ≡ member_value other.now) }
    {
        if !same_head(self.state.head, other.state.head) {
            return false;
        }
        if !same_links(self.link, other.link) {
            return false;
        }
        if !same_unshown(self.unshown, other.unshown) {
            return false;
        }
        same_routes(&self.state.rib, &other.state.rib)
    }

    /// Forgets the routes, and enables every family. No step looks at them
    /// ([law](crate::routes_decide_nothing)). Takes no memory.
    pub fn forget_routes(&mut self)
        ensures { member_value self.new ≡ bare (member_value self.old) }
    {
        self.state.rib.clear();
    }
}
