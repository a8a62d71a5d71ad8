//! The states of a session, as BGP's finite state machine names them (RFC 4271, 8.2.2).
//!
//! ```text
//!           start              connection up           OPEN            KEEPALIVE
//!   Idle ─────────▶ Connect ───────────────▶ OpenSent ──────▶ OpenConfirm ─────▶ Established
//!     │              ▲   │                    ▲   │
//!     │  retry timer │   │ failure            │   │ failure
//!     │              │   ▼ (OPEN delayed)     │   ▼
//!     └───────────▶ Active ───────────────────┘  Active
//!     passive start          connection up
//!
//!   Connect and Active accept an OPEN while their own is delayed: OpenConfirm. Everything else
//!   that ends a state leads to Idle.
//! ```

ghost use Rattle.std.specs.Prelude.{◌≡◌};
ghost use Rattle.bgp_machine.specs.State.{number_of};

/// A state of a session; its number is the one that captures give it (RFC 6396, 4.4.1).
#[derive(Clone, Copy, Debug, PartialEq, Eq)]
pub enum Fsm {
    /// No connection is tried or taken.
    Idle = 1,
    /// A connection is tried.
    Connect = 2,
    /// A connection is listened for.
    Active = 3,
    /// The own OPEN is sent, and the peer's is waited for.
    OpenSent = 4,
    /// The peer's OPEN is accepted, and a KEEPALIVE is waited for.
    OpenConfirm = 5,
    /// Routes are exchanged.
    Established = 6,
}

impl Fsm {
    /// Returns the state's number.
    pub fn number(self) -> u16
        ensures { result ≡ number_of self }
    {
        self as u16
    }
}
