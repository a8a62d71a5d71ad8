//! The members that have nothing left to show.

ghost use Rattle.std.specs.Prelude.{◌≡◌, ◌≢◌, ◌↔◌, [], IsTrue, MatchOption};
ghost use Rattle.bgp_machine.specs.State.{fsm_of};
ghost use Rattle.bgp_machine.specs.Want.{wants_of};
ghost use Rattle.bgp_machine.specs.declared.fsm.Fsm.TheVariants as fsms;
ghost use Rattle.bgp_compact.specs.Parts.{AreFine, HasNoBase, IsBase};

use crate::disabled::DisabledSets;
use crate::words::Words;
use bgp_machine::{Fsm, Head, Wants};

/// The members that have nothing left to show: their head, and the sets of families that they have
/// disabled.
#[derive(Clone, Copy)]
pub(crate) struct Base {
    /// Their head.
    pub head: Head,
    /// The sets of families that they have disabled.
    pub sets: DisabledSets,
}

/// The fresh state, where some member is in it.
fn fresh_base(words: Words) -> Option<Base>
    requires idle { words.shown ≡ fsms.Idle }
    requires fine { AreFine words }
    ensures { MatchOption result (HasNoBase words) (IsBase words) }
{
    if !words.falls.silent {
        return None;
    }
    Some(Base {
        head: Head::Idle,
        sets: DisabledSets::only_none(),
    })
}

/// Whether the members that go on have nothing left to show.
fn front_is_free(words: Words) -> bool
    ensures { IsTrue result
        ↔ ((wants_of words.wants ≡ []) × (fsm_of words.head ≡ words.shown)) }
{
    match words.wants {
        Wants::Nothing => words.head.fsm() == words.shown,
        _ => false,
    }
}

/// The members that go on, where they have nothing left to show.
fn front_base(words: Words) -> Option<Base>
    requires up { words.shown ≢ fsms.Idle }
    requires fine { AreFine words }
    ensures { MatchOption result (HasNoBase words) (IsBase words) }
{
    if !front_is_free(words) {
        return None;
    }
    if words.sets.is_empty() {
        return None;
    }
    Some(Base {
        head: words.head,
        sets: words.sets,
    })
}

/// The members that have nothing left to show.
pub(crate) fn free_base(words: Words) -> Option<Base>
    requires { AreFine words }
    ensures { MatchOption result (HasNoBase words) (IsBase words) }
{
    match words.shown {
        Fsm::Idle => fresh_base(words),
        _ => front_base(words),
    }
}
