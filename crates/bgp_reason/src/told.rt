//! What a session's records tell, with the numbers of the records.

ghost use Rattle.std.specs.Prelude.{◌≡◌};
ghost use Rattle.bgp_judge.specs.Reader.{shown_of};
ghost use Rattle.bgp_machine.specs.Going.{fsm_at};
ghost use Rattle.bgp_reason.specs.Told.{nothing_told, told_by_change, told_by_message};
ghost use Rattle.bgp_reason.specs.Told.{told_with};

use bgp_judge::Record;
use bgp_machine::Fsm;

/// What a session's records tell. Their numbers count from 1.
#[derive(Clone, Copy, Debug, PartialEq, Eq)]
pub struct Told {
    /// The state that was told last; Idle where none was.
    pub state: Fsm,
    /// The record that told it.
    pub told_by: Option<u64>,
    /// The record of the last message that was received since a state other than Idle was told:
    /// what is received in Idle is ignored.
    pub last_received: Option<u64>,
}

/// The state with this number (RFC 6396, 4.4.1).
fn state_at(number: u16) -> Option<Fsm>
    ensures { result ≡ fsm_at number }
{
    match number {
        1 => Some(Fsm::Idle),
        2 => Some(Fsm::Connect),
        3 => Some(Fsm::Active),
        4 => Some(Fsm::OpenSent),
        5 => Some(Fsm::OpenConfirm),
        6 => Some(Fsm::Established),
        _ => None,
    }
}

impl Told {
    /// What no record tells.
    pub fn nothing() -> Told
        ensures { result ≡ nothing_told }
    {
        Told {
            state: Fsm::Idle,
            told_by: None,
            last_received: None,
        }
    }

    /// What is told then by a change to the state with this number.
    fn with_change(self, record_number: u64, new: u16) -> Told
        ensures { result ≡ told_by_change record_number (fsm_at new) self }
    {
        match state_at(new) {
            None => self,
            Some(Fsm::Idle) => Told {
                state: Fsm::Idle,
                told_by: Some(record_number),
                last_received: None,
            },
            Some(state) => Told {
                state,
                told_by: Some(record_number),
                last_received: self.last_received,
            },
        }
    }

    /// What is told then by a message that is received.
    fn with_message(self, record_number: u64) -> Told
        ensures { result ≡ told_by_message record_number self.state self }
    {
        match self.state {
            Fsm::Idle => self,
            _ => Told {
                last_received: Some(record_number),
                ..self
            },
        }
    }

    /// What one record more tells, the one with this number.
    pub fn with(self, record_number: u64, shown: &Record<'_>) -> Told
        ensures { result ≡ told_with record_number (shown_of shown.now) self }
    {
        match *shown {
            Record::In(_, _) => self.with_message(record_number),
            Record::Out(_, _) => self,
            Record::Change(_, _, new) => self.with_change(record_number, new),
        }
    }
}
