//! States of a session (RFC 4271, 8.2.2), as a capture numbers them (RFC 6396, 4.4.1).

ghost use Rattle.std.specs.Prelude.{◌≡◌};
ghost use Rattle.mrt.specs.Layout.{IsState};
ghost use Rattle.bgp_recording.specs.States.{state_number};
ghost use Rattle.bgp_recording.specs.Waiting.{has_link, is_before_open, is_established};

/// A state of the session.
#[derive(Clone, Copy, Debug, PartialEq, Eq)]
pub enum State {
    Idle = 1,
    Connect = 2,
    Active = 3,
    OpenSent = 4,
    OpenConfirm = 5,
    Established = 6,
}

impl State {
    /// The state's number.
    pub fn number(self) -> u16
        ensures number { result ≡ state_number self }
        ensures known { IsState result }
    {
        self as u16
    }

    /// Whether a connection is tried or awaited, and no OPEN was sent.
    pub(crate) fn is_before_open(self) -> bool
        ensures { result ≡ is_before_open self }
    {
        matches!(self, State::Connect | State::Active)
    }

    /// Whether both OPENs are agreed on.
    pub(crate) fn has_link(self) -> bool
        ensures { result ≡ has_link self }
    {
        matches!(self, State::OpenConfirm | State::Established)
    }

    /// Whether UPDATEs are exchanged.
    pub(crate) fn is_established(self) -> bool
        ensures { result ≡ is_established self }
    {
        matches!(self, State::Established)
    }
}
