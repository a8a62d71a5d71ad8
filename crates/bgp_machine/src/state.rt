//! The state of a session (RFC 4271, 8.2.2): what its rows look at, and its routes.

ghost use Rattle.std.specs.Prelude.{◌≡◌, ◌↔◌, IsTrue};
ghost use Rattle.bgp_machine.specs.State.{fsm_of, link_at, fresh_state, state_value};
ghost use Rattle.bgp_machine.specs.Step.{IsRunning, IsExpired};

use crate::fsm::Fsm;
use bgp_open::{Link, Seconds};
use bgp_rib::RibIn;
use std::alloc::{Allocator, Global};

/// The HoldTimer: when it was set, and for how long; with 0 it doesn't run.
#[derive(Clone, Copy, Debug, PartialEq, Eq)]
pub struct HoldTimer {
    /// The second at which it was set.
    pub since: Seconds,
    /// For how many seconds.
    pub span: Seconds,
}

impl HoldTimer {
    /// Checks whether it runs.
    pub fn is_running(self) -> bool
        ensures { IsTrue result ↔ IsRunning self }
    {
        self.span > 0
    }

    /// Checks whether it has run out at this second.
    pub fn is_expired(self, t: Seconds) -> bool
        ensures { IsTrue result ↔ IsExpired self t }
    {
        self.is_running() && u64::from(self.since) + u64::from(self.span) <= u64::from(t)
    }
}

/// What the rows look at in a session. By its form the OPEN may be delayed only in Connect and
/// Active, the HoldTimer is set from OpenSent on, and there is a link from OpenConfirm on.
#[derive(Clone, Copy, Debug, PartialEq, Eq)]
pub enum Head {
    /// Nothing happens.
    Idle,
    /// Whether the OPEN is delayed, since the DelayOpenTimer runs.
    Connect(bool),
    /// The same as in Connect.
    Active(bool),
    /// With a large HoldTimer.
    OpenSent(HoldTimer),
    /// What both OPENs settled, and the HoldTimer by it.
    OpenConfirm(Link, HoldTimer),
    /// The same as in OpenConfirm.
    Established(Link, HoldTimer),
}

impl Default for Head {
    fn default() -> Head {
        Head::Idle
    }
}

impl Head {
    /// Returns the state's name.
    pub fn fsm(self) -> Fsm
        ensures { result ≡ fsm_of self }
    {
        match self {
            Head::Idle => Fsm::Idle,
            Head::Connect(_) => Fsm::Connect,
            Head::Active(_) => Fsm::Active,
            Head::OpenSent(_) => Fsm::OpenSent,
            Head::OpenConfirm(_, _) => Fsm::OpenConfirm,
            Head::Established(_, _) => Fsm::Established,
        }
    }

    /// Returns what both OPENs settled, if the peer's was accepted.
    pub fn link(self) -> Option<Link>
        ensures { result ≡ link_at self }
    {
        match self {
            Head::OpenConfirm(link, _) => Some(link),
            Head::Established(link, _) => Some(link),
            _ => None,
        }
    }
}

/// The state of a session.
#[derive(Drop)]
pub struct State<A: Allocator = Global> {
    /// What its rows look at.
    pub head: Head,
    /// The routes that the peer announced, and the families that are disabled.
    pub rib: RibIn<A>,
}

impl<A: Allocator + Copy> State<A> {
    /// Returns the state of a session that nothing happened to. It takes no memory.
    pub fn fresh(alloc: A) -> State<A>
        ensures { state_value result ≡ fresh_state }
    {
        State {
            head: Head::Idle,
            rib: RibIn::new(alloc),
        }
    }
}
