//! What can be wrong with the form of an OPEN (RFC 4271, 6.2).

ghost use Rattle.std.specs.Prelude.{◌≡◌};
ghost use Rattle.bgp_open.specs.OpenFault.{open_fault_number};

use thiserror::Error;

/// What is wrong with an OPEN's form.
#[derive(Clone, Copy, Debug, PartialEq, Eq, Error)]
pub enum OpenFault {
    /// The octets aren't a whole OPEN, the parameters aren't as long as their length field says, or
    /// a parameter or a capability runs past the end or leaves an octet over.
    #[error("malformed OPEN message")]
    Malformed = 0,
    /// The version isn't 4.
    #[error("unsupported version number")]
    Version = 1,
    /// There is a parameter of a type other than 2, Capabilities (RFC 5492).
    #[error("unsupported optional parameter")]
    Parameter = 4,
}

impl OpenFault {
    /// Returns the subcode of OPEN Message Error for this fault (RFC 4271, 4.5). 0 is Unspecific.
    pub fn number(self) -> u8
        ensures { result ≡ open_fault_number self }
    {
        self as u8
    }
}
