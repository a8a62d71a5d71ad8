//! Changes of state.

ghost use Rattle.std.specs.Prelude.{◌≡◌};
ghost use Rattle.bgp_machine.specs.Going.{fsm_at, told};
ghost use Rattle.bgp_machine.specs.Step.{changed};
ghost use Rattle.mrt.specs.Reader.{shown_of};

use bgp_machine::Fsm;
use mrt::Record;

/// The change of state that is shown: none where the state stays.
pub(crate) fn change_from(old: Fsm, new: Fsm) -> Option<(Fsm, Fsm)>
    ensures { result ≡ changed old new }
{
    match (old, new) {
        (Fsm::Idle, Fsm::Idle) => None,
        (Fsm::Connect, Fsm::Connect) => None,
        (Fsm::Active, Fsm::Active) => None,
        (Fsm::OpenSent, Fsm::OpenSent) => None,
        (Fsm::OpenConfirm, Fsm::OpenConfirm) => None,
        (Fsm::Established, Fsm::Established) => None,
        _ => Some((old, new)),
    }
}

/// The state with this number.
fn state_at(number: u16) -> Option<Fsm>
    ensures { result ≡ fsm_at number }
{
    match number {
        1 => Some(Fsm::Idle),
        2 => Some(Fsm::Connect),
        3 => Some(Fsm::Active),
        4 => Some(Fsm::OpenSent),
        5 => Some(Fsm::OpenConfirm),
        6 => Some(Fsm::Established),
        _ => None,
    }
}

/// The state that a record tells, if it tells one.
pub(crate) fn told_by(shown: &Record<'_>) -> Option<Fsm>
    ensures { result ≡ told (shown_of shown.now) }
{
    match *shown {
        Record::Change(_, _, new) => state_at(new),
        _ => None,
    }
}
