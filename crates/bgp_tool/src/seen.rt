//! What a session's records show of what the local system did.

ghost use Rattle.std.specs.Prelude.{◌≡◌, ◌==◌, []};
ghost use Rattle.mrt.specs.Reader.{shown_of};

use mrt::Record;

/// Idle's number in a record (RFC 6396, 4.4.1).
const IDLE: u16 = 1;

/// What a session's records show of what the local system did.
#[derive(Clone, Copy, Debug, PartialEq, Eq)]
pub struct Seen {
    /// Whether a change of state leaves Idle.
    pub left_idle: bool,
    /// Whether a message was sent.
    pub sent: bool,
}

impl Seen {
    ghost use Rattle.bgp_tool.specs.Seen.{lacking_by, seen_in, seen_with};

    /// What no records show.
    pub fn nothing() -> Seen
        ensures { result ≡ seen_in [] }
    {
        Seen {
            left_idle: false,
            sent: false,
        }
    }

    /// What one record more shows with those before.
    pub fn with(self, shown: &Record<'_>) -> Seen
        ensures { result ≡ seen_with self (shown_of shown.now) }
    {
        match *shown {
            Record::In(_, _) => self,
            Record::Out(_, _) => Seen { sent: true, ..self },
            Record::Change(_, old, new) => Seen {
                left_idle: self.left_idle || (old == IDLE && new != IDLE),
                ..self
            },
        }
    }

    /// That a capture with this exit status, which is 0 for yes, and these records lacks one of
    /// both.
    pub fn lacking(self, status: u8) -> Option<Seen>
        ensures { result ≡ lacking_by (status == 0) self }
    {
        if status == 0 && !(self.left_idle && self.sent) {
            Some(self)
        } else {
            None
        }
    }
}
