//! The words of the compact tracker: all members but for their routes.

ghost use Rattle.std.specs.Prelude.{◌≡◌};
ghost use Rattle.bgp_compact.specs.Members.{left_of, link_before};

use crate::disabled::DisabledSets;
use crate::falls::Falls;
use bgp_machine::{Fsm, Head, Wants};
use bgp_open::Link;

/// All members but for their routes. Those that go on have one head and have the same left to
/// show; they differ in the families that they have disabled. All others end in the fresh state,
/// and differ in what they have still to send. What change of state a member has left to show, if
/// any, is that from the state that was shown last to the name of its own.
#[derive(Clone, Copy)]
pub(crate) struct Words {
    /// The state that was shown last.
    pub shown: Fsm,
    /// Where that is Idle, the state that was left for it.
    pub left: Fsm,
    /// The head of the members that go on, or where none does that of the last ones.
    pub head: Head,
    /// What they have still to send.
    pub wants: Wants,
    /// The sets of families that they have disabled.
    pub sets: DisabledSets,
    /// What the others have still to send.
    pub falls: Falls,
}

impl Words {
    /// The state that members left which fall to Idle.
    pub(crate) fn left(self) -> Fsm
        ensures { result ≡ left_of self }
    {
        match self.shown {
            Fsm::Idle => self.left,
            shown => shown,
        }
    }

    /// The link on which they send.
    pub(crate) fn link_before(self) -> Option<Link>
        ensures { result ≡ link_before self }
    {
        match self.left() {
            Fsm::OpenConfirm => self.head.link(),
            Fsm::Established => self.head.link(),
            _ => None,
        }
    }
}
