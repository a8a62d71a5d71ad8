//! What rows do: the ways in which a step ends.

ghost use Rattle.std.specs.Prelude.{◌≡◌, if◌then◌else◌, List, [], ◌∷◌, Option, Some, None};
ghost use Rattle.bgp_machine.specs.Listed.{IsStep, no_changes};
ghost use Rattle.bgp_machine.specs.State.{fsm_of, enters, falls};
ghost use Rattle.bgp_machine.specs.State.{waiting as waiting_for, settled as settled_with};
ghost use Rattle.bgp_machine.specs.State.{renewed as renewed_at};
ghost use Rattle.bgp_machine.specs.Step.{changed, failed};
ghost use Rattle.bgp_machine.specs.Want.{wants_of};
ghost use Rattle.bgp_machine.specs.declared.fsm.Fsm.TheVariants as fsms;
ghost use Rattle.bgp_machine.specs.declared.want.Want.TheVariants as wants;

use crate::fsm::Fsm;
use crate::state::{Head, HoldTimer};
use crate::step::{After, Routes, Step};
use crate::want::{FaultSet, Unexpected, Want, Wants};
use bgp_open::{Config, Link, Seconds};

/// The change of state that is shown.
fn change(old: Fsm, new: Fsm) -> Option<(Fsm, Fsm)>
    ensures { result ≡ changed old new }
{
    match (old, new) {
        (Fsm::Idle, Fsm::Idle) => None,
        (Fsm::Connect, Fsm::Connect) => None,
        (Fsm::Active, Fsm::Active) => None,
        (Fsm::OpenSent, Fsm::OpenSent) => None,
        (Fsm::OpenConfirm, Fsm::OpenConfirm) => None,
        (Fsm::Established, Fsm::Established) => None,
        _ => Some((old, new)),
    }
}

/// A step that keeps the routes.
pub(crate) fn entering(old: Head, wants: Wants, head: Head) -> Step
    ensures { IsStep no_changes result (wants_of wants)
        (changed (fsm_of old) (fsm_of head)) (enters head) }
{
    Step {
        wants,
        change: change(old.fsm(), head.fsm()),
        after: After {
            head,
            routes: Routes::Kept,
        },
    }
}

/// A step to the fresh state.
pub(crate) fn falling(old: Head, wants: Wants) -> Step
    ensures { IsStep no_changes result (wants_of wants) (changed (fsm_of old) fsms.Idle) falls }
{
    Step {
        wants,
        change: change(old.fsm(), Fsm::Idle),
        after: After {
            head: Head::Idle,
            routes: Routes::Cleared,
        },
    }
}

/// A step to the fresh state with a NOTIFICATION that names a fault.
pub(crate) fn naming(old: Head, faults: FaultSet) -> Step
    ensures { IsStep no_changes result (wants.Faults faults ∷ [])
        (changed (fsm_of old) fsms.Idle) falls }
{
    falling(old, Wants::One(Want::Faults(faults)))
}

/// A step to the fresh state with a NOTIFICATION of a message that isn't expected.
pub(crate) fn reporting(old: Head, state: Unexpected) -> Step
    ensures { IsStep no_changes result (wants.MachineError state ∷ [])
        (changed (fsm_of old) fsms.Idle)
        falls }
{
    falling(old, Wants::One(Want::MachineError(state)))
}

/// A note of the state.
pub(crate) fn noting(head: Head) -> Step
    ensures { IsStep no_changes result [] (Some (fsm_of head, fsm_of head)) (enters head) }
{
    Step {
        wants: Wants::Nothing,
        change: Some((head.fsm(), head.fsm())),
        after: After {
            head,
            routes: Routes::Kept,
        },
    }
}

/// What a failure of the connection leaves in Connect.
pub(crate) fn failing(delay: bool) -> Step
    ensures { IsStep no_changes result [] (changed fsms.Connect (fsm_of (failed delay).head))
        (failed delay) }
{
    if delay {
        entering(Head::Connect(delay), Wants::Nothing, Head::Active(false))
    } else {
        falling(Head::Connect(delay), Wants::Nothing)
    }
}

/// The step, where its guard holds.
pub(crate) fn only_if(guard: bool, step: Step) -> Option<Step>
    ensures { result ≡ (if guard then Some step else None) }
{
    if guard { Some(step) } else { None }
}

/// The peer's OPEN is waited for, with a large HoldTimer.
pub(crate) fn waiting(config: &Config, t: Seconds) -> Head
    ensures { result ≡ waiting_for config.now t }
{
    Head::OpenSent(HoldTimer {
        since: t,
        span: config.parts.large_hold,
    })
}

/// The HoldTimer is set to the Hold Time that both OPENs settled.
pub(crate) fn settled(link: Link, t: Seconds) -> HoldTimer
    ensures { result ≡ settled_with link t }
{
    HoldTimer {
        since: t,
        span: u32::from(link.hold),
    }
}

/// The HoldTimer is set again.
pub(crate) fn renewed(timer: HoldTimer, t: Seconds) -> HoldTimer
    ensures { result ≡ renewed_at timer t }
{
    HoldTimer {
        since: t,
        span: timer.span,
    }
}
