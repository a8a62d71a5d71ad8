//! What a step sends (RFC 4271, 6 and 8.2.2).

ghost use Rattle.std.specs.Prelude.{◌≡◌, ℕ, List, IfSome, IfNone};
ghost use Rattle.bgp_machine.specs.Want.{subcode_of, NamesFault, IsLeastFault};

use bgp_open::OpenSubcodes;
use bgp_rib::Subcodes;
use bgp_wire::{ErrorCode, HeaderFaults, NamedFault};

/// A state in which a message was received that it doesn't expect; its number is the subcode of
/// Finite State Machine Error that names it (RFC 6608, 3).
#[derive(Clone, Copy, Debug, PartialEq, Eq)]
pub enum Unexpected {
    /// Receive Unexpected Message in OpenSent State.
    InOpenSent = 1,
    /// Receive Unexpected Message in OpenConfirm State.
    InOpenConfirm = 2,
    /// Receive Unexpected Message in Established State.
    InEstablished = 3,
}

impl Unexpected {
    /// Returns the subcode that names the state.
    pub fn subcode(self) -> u8
        ensures { result ≡ subcode_of self }
    {
        self as u8
    }
}

/// A set of faults, one of which a NOTIFICATION names.
#[derive(Clone, Copy, Debug, PartialEq, Eq)]
pub enum FaultSet {
    /// Message Header Error, code 1.
    Header(HeaderFaults),
    /// OPEN Message Error, code 2.
    Open(OpenSubcodes),
    /// UPDATE Message Error, code 3.
    Update(Subcodes),
}

impl FaultSet {
    /// Returns the fault of the set with the least subcode: with its data if they are fixed, and
    /// else without data. `None` if the set is empty.
    pub fn least(&self) -> Option<NamedFault>
        ensures some { IfSome result
            (λ fault. IsLeastFault self.now fault.code fault.subcode fault.detail.items) }
        ensures none { IfNone result
            ((code subcode : ℕ) (detail : List ℕ) → ¬ NamesFault self.now code subcode detail) }
    {
        match self {
            FaultSet::Header(faults) => faults.least(),
            FaultSet::Open(subcodes) => subcodes.least(),
            FaultSet::Update(subcodes) => {
                let subcode = subcodes.least()?;
                let code = ErrorCode::UpdateMessage.code();
                Some(NamedFault::new(code, subcode, &[]))
            }
        }
    }
}

/// A kind of message that a step sends.
#[derive(Clone, Copy, Debug, PartialEq, Eq)]
pub enum Want {
    /// The local system's OPEN.
    OwnOpen,
    /// A KEEPALIVE.
    KeepAlive,
    /// An UPDATE without a fault of any kind.
    CleanUpdate,
    /// The NOTIFICATION Cease.
    Cease,
    /// The NOTIFICATION Hold Timer Expired.
    HoldExpired,
    /// The NOTIFICATION Send Hold Timer Expired (RFC 9687, 5).
    SendHoldExpired,
    /// The NOTIFICATION Finite State Machine Error.
    MachineError(Unexpected),
    /// A NOTIFICATION that names one of the faults.
    Faults(FaultSet),
}

impl Default for Want {
    fn default() -> Want {
        Want::KeepAlive
    }
}

/// What a step sends, in order.
#[derive(Clone, Copy, Debug, PartialEq, Eq)]
pub enum Wants {
    /// No message.
    Nothing,
    /// One message.
    One(Want),
    /// Two messages.
    Two(Want, Want),
}
