//! What a step to Idle has still to send.

ghost use Rattle.std.specs.Prelude.{◌≡◌, IsTrue};
ghost use Rattle.bgp_machine.specs.Want.{wants_of};
ghost use Rattle.bgp_compact.specs.Members.{HasFall, sends_of, no_falls};
ghost use Rattle.bgp_compact.specs.Parts.{fall_for, with_fall};
ghost use Rattle.bgp_compact.specs.declared.falls.Fall.{Fall as TheFall};

use crate::disabled::or;
use bgp_machine::{FaultSet, Fsm, Unexpected, Want, Wants};

/// What a step to Idle has still to send: nothing, or a NOTIFICATION.
#[derive(Clone, Copy)]
pub(crate) enum Fall {
    /// Nothing.
    Silent,
    /// Cease.
    Ceased,
    /// Hold Timer Expired.
    Expired,
    /// Send Hold Timer Expired.
    SendExpired,
    /// Finite State Machine Error, with the subcode of the state that was left.
    Erred,
    /// One that names a fault of the set.
    Faulted(FaultSet),
}

/// What members on their way to Idle have still to send, each possibility once.
#[derive(Clone, Copy)]
pub(crate) struct Falls {
    /// Some member sends nothing.
    pub silent: bool,
    /// Some sends Cease.
    pub ceased: bool,
    /// Some sends Hold Timer Expired.
    pub expired: bool,
    /// Some sends Send Hold Timer Expired.
    pub send_expired: bool,
    /// Some sends Finite State Machine Error.
    pub erred: bool,
    /// Some sends a fault of this set.
    pub faulted: Option<FaultSet>,
}

impl Fall {
    /// What is sent where this state was left.
    pub(crate) fn sends(self, left: Fsm) -> Wants
        ensures { wants_of result ≡ sends_of left self }
    {
        match self {
            Fall::Silent => Wants::Nothing,
            Fall::Ceased => Wants::One(Want::Cease),
            Fall::Expired => Wants::One(Want::HoldExpired),
            Fall::SendExpired => Wants::One(Want::SendHoldExpired),
            Fall::Erred => error_at(left),
            Fall::Faulted(faults) => Wants::One(Want::Faults(faults)),
        }
    }

    /// What sends that.
    pub(crate) fn of(wants: Wants) -> Fall
        ensures { result ≡ fall_for wants }
    {
        match wants {
            Wants::One(Want::Cease) => Fall::Ceased,
            Wants::One(Want::HoldExpired) => Fall::Expired,
            Wants::One(Want::SendHoldExpired) => Fall::SendExpired,
            Wants::One(Want::MachineError(_)) => Fall::Erred,
            Wants::One(Want::Faults(faults)) => Fall::Faulted(faults),
            _ => Fall::Silent,
        }
    }
}

/// The error that a message is which this state doesn't expect.
fn error_at(left: Fsm) -> Wants
    ensures { wants_of result ≡ sends_of left TheFall.Erred }
{
    match left {
        Fsm::OpenSent => Wants::One(Want::MachineError(Unexpected::InOpenSent)),
        Fsm::OpenConfirm => Wants::One(Want::MachineError(Unexpected::InOpenConfirm)),
        Fsm::Established => Wants::One(Want::MachineError(Unexpected::InEstablished)),
        _ => Wants::Nothing,
    }
}

impl Falls {
    /// No member falls.
    pub(crate) fn none() -> Falls
        ensures { result ≡ no_falls }
    {
        Falls {
            silent: false,
            ceased: false,
            expired: false,
            send_expired: false,
            erred: false,
            faulted: None,
        }
    }

    /// Whether there is none.
    pub(crate) fn is_empty(self) -> bool
        ensures yes { IsTrue result → (fall : TheFall) → ¬ HasFall self fall }
        ensures no { ¬ IsTrue result → (fall : TheFall) × HasFall self fall }
    {
        let is_silent_or_ceased = or(self.silent, self.ceased);
        let is_of_a_timer = or(self.expired, self.send_expired);
        if or(is_silent_or_ceased, or(is_of_a_timer, self.erred)) {
            return false;
        }
        match self.faulted {
            Some(_) => false,
            None => true,
        }
    }

    /// Those, and one more.
    pub(crate) fn with(self, fall: Fall) -> Falls
        ensures { result ≡ with_fall self fall }
    {
        match fall {
            Fall::Silent => Falls {
                silent: true,
                ..self
            },
            Fall::Ceased => Falls {
                ceased: true,
                ..self
            },
            Fall::Expired => Falls {
                expired: true,
                ..self
            },
            Fall::SendExpired => Falls {
                send_expired: true,
                ..self
            },
            Fall::Erred => Falls {
                erred: true,
                ..self
            },
            Fall::Faulted(faults) => Falls {
                faulted: Some(faults),
                ..self
            },
        }
    }
}
