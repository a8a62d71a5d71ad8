//! The faults of a peer's OPEN, as sets of subcodes (RFC 4271, 6.2; RFC 6286, 2.2; RFC 5492, 3;
//! RFC 9234, 4.2).

ghost use Rattle.std.specs.Prelude.{◌≡◌, ◌↔◌, ◌||◌, IsTrue, IfSome, IfNone, unwrap_or};
ghost use Rattle.bgp_wire.specs.Least.{IsLeastNamed};
ghost use Rattle.bgp_open.specs.Offer.{as_number_of};
ghost use Rattle.bgp_open.specs.OpenFault.{IsWellFormed};
ghost use Rattle.bgp_open.specs.OpenSubcodes.{peer_as_of, IsBadPeerAs, IsBadIdentifier};
ghost use Rattle.bgp_open.specs.OpenSubcodes.{mandatory_faults, permitted_faults};
ghost use Rattle.bgp_open.specs.OpenSubcodes.{Names, IsEmpty, IsValid, AreSubcodesOf, AreOfFields};
ghost use Rattle.bgp_open.specs.OpenSubcodes.{union, detail_of};

use crate::config::{Config, is_bad_hold};
use crate::fault::OpenFault;
use crate::offer::offered_as_number;
use crate::open::{Open, read_readable};
use bgp_wire::{ErrorCode, NamedFault};

/// A set of subcodes of OPEN Message Error.
#[derive(Clone, Copy, Debug, PartialEq, Eq)]
pub struct OpenSubcodes {
    /// Unspecific (subcode 0).
    pub unspecific: bool,
    /// Unsupported Version Number (subcode 1), with the supported version as data: `00 04`.
    pub version: bool,
    /// Bad Peer AS (subcode 2).
    pub peer_as: bool,
    /// Bad BGP Identifier (subcode 3).
    pub identifier: bool,
    /// Unsupported Optional Parameter (subcode 4).
    pub parameter: bool,
    /// Unacceptable Hold Time (subcode 6).
    pub hold: bool,
    /// Unsupported Capability (subcode 7; RFC 5492, 5).
    pub capability: bool,
    /// Role Mismatch (subcode 11; RFC 9234, 4.2).
    pub role: bool,
}

impl OpenSubcodes {
    /// No subcode.
    pub const NONE: OpenSubcodes = OpenSubcodes {
        unspecific: false,
        version: false,
        peer_as: false,
        identifier: false,
        parameter: false,
        hold: false,
        capability: false,
        role: false,
    };

    /// What a speaker may refuse any OPEN of version 4 for: its Hold Time (RFC 4271, 6.2), that a
    /// capability is missing (RFC 5492, 3), or the peer's role (RFC 9234, 4.2).
    const ANY_SPEAKERS: OpenSubcodes = OpenSubcodes {
        hold: true,
        capability: true,
        role: true,
        ..OpenSubcodes::NONE
    };

    /// How a malformed OPEN may be answered (profile).
    const OF_MALFORMED: OpenSubcodes = OpenSubcodes {
        unspecific: true,
        version: false,
        peer_as: true,
        identifier: true,
        parameter: true,
        hold: true,
        capability: true,
        role: false,
    };

    /// Checks whether the set is empty.
    pub fn is_empty(&self) -> bool
        ensures { IsTrue result ↔ IsEmpty self.now }
    {
        *self == OpenSubcodes::NONE
    }

    /// Checks whether a NOTIFICATION with this subcode of OPEN Message Error and these data names a
    /// fault of the set. For subcode 1 the data have to be `00 04`; for others they are free.
    pub fn contains(&self, subcode: u8, detail: &[u8]) -> bool
        ensures { IsTrue result ↔ Names self.now subcode detail.now }
    {
        match subcode {
            0 => self.unspecific,
            1 => self.version && detail == b"\x00\x04".as_slice(),
            2 => self.peer_as,
            3 => self.identifier,
            4 => self.parameter,
            6 => self.hold,
            7 => self.capability,
            11 => self.role,
            _ => false,
        }
    }

    /// Returns the fault of the set with the least subcode. Its data are `00 04` for subcode 1, and
    /// none for others. Returns `None` if the set is empty.
    pub fn least(&self) -> Option<NamedFault>
        ensures some { IfSome result (λ fault. IsLeastNamed 2 (Names self.now) fault) }
        ensures none { IfNone result (IsEmpty self.now) }
    {
        for subcode in 0..12 {
            let detail = detail_with(subcode);
            if self.contains(subcode, detail) {
                let code = ErrorCode::OpenMessage.code();
                return Some(NamedFault::new(code, subcode, detail));
            }
        }
        None
    }

    /// Returns the subcodes of both sets together.
    pub fn union(self, others: OpenSubcodes) -> OpenSubcodes
        ensures { result ≡ union self others }
    {
        OpenSubcodes {
            unspecific: either(self.unspecific, others.unspecific),
            version: either(self.version, others.version),
            peer_as: either(self.peer_as, others.peer_as),
            identifier: either(self.identifier, others.identifier),
            parameter: either(self.parameter, others.parameter),
            hold: either(self.hold, others.hold),
            capability: either(self.capability, others.capability),
            role: either(self.role, others.role),
        }
    }
}

/// The data with which a subcode is named: those of subcode 1, and none for others.
fn detail_with(subcode: u8) -> &'static [u8]
    ensures { result.now ≡ detail_of subcode }
{
    if subcode == 1 { b"\x00\x04" } else { &[] }
}

/// Whether one of both holds.
fn either(one: bool, other: bool) -> bool
    ensures { result ≡ one || other }
{
    one || other
}

/// The faults of a received OPEN. A NOTIFICATION in answer to it is allowed if it names a fault of
/// one of the two sets. It is small, and allocates nothing.
#[derive(Clone, Copy, Debug, PartialEq, Eq)]
pub struct OpenFaults {
    /// The faults for which the OPEN has to be refused. If there is none, the OPEN is valid.
    pub must: OpenSubcodes,
    /// The faults for which it may be refused.
    pub may: OpenSubcodes,
}

/// The AS number that a peer says it has.
fn peer_as(config: &Config, message: &Open<'_>) -> u32
    ensures { result ≡ peer_as_of config.now message.now }
{
    let my_as = u32::from(message.my_as());
    if config.parts.as4 {
        offered_as_number(message).unwrap_or(my_as)
    } else {
        my_as
    }
}

fn is_bad_identifier(config: &Config, message: &Open<'_>) -> bool
    ensures { IsTrue result ↔ IsBadIdentifier config.now message.now }
{
    let id = message.id();
    id == 0 || (config.is_internal() && id == config.parts.local_id)
}

/// The faults of an OPEN whose fields can be told.
fn field_subcodes(config: &Config, message: &Open<'_>, has_capabilities_alone: bool) -> OpenSubcodes
    ensures { AreOfFields config.now message.now has_capabilities_alone result }
{
    OpenSubcodes {
        peer_as: peer_as(config, message) != config.parts.peer_as,
        identifier: is_bad_identifier(config, message),
        parameter: !has_capabilities_alone,
        hold: is_bad_hold(message.hold()),
        ..OpenSubcodes::NONE
    }
}

/// Finds the faults of a peer's OPEN: those for which it has to be refused, each by itself, and
/// those for which it may be. Octets that aren't a whole OPEN count as a malformed one.
pub fn open_faults(config: &Config, octets: &[u8]) -> OpenFaults
    ensures must { AreSubcodesOf (mandatory_faults config.now octets.now) result.must }
    ensures may { AreSubcodesOf (permitted_faults octets.now) result.may }

    // A valid OPEN need not be refused, and `read_open` reads it.
    ensures valid { IsEmpty result.must ↔ IsValid config.now octets.now }
    ensures well_formed { IsValid config.now octets.now → IsWellFormed octets.now }
{
    fault_sets(config, octets)
}

/// The two sets of faults.
fn fault_sets(config: &Config, octets: &[u8]) -> OpenFaults
    ensures must { AreSubcodesOf (mandatory_faults config.now octets.now) result.must }
    ensures may { AreSubcodesOf (permitted_faults octets.now) result.may }
{
    match read_readable(octets) {
        Ok(readable) => OpenFaults {
            must: field_subcodes(config, &readable.message, readable.has_capabilities_alone),
            may: OpenSubcodes::ANY_SPEAKERS,
        },
        // Nothing else is read of another version (RFC 4271, 6.2).
        Err(OpenFault::Version) => OpenFaults {
            must: OpenSubcodes {
                version: true,
                ..OpenSubcodes::NONE
            },
            may: OpenSubcodes::NONE,
        },
        Err(OpenFault::Malformed) => OpenFaults {
            must: OpenSubcodes::OF_MALFORMED,
            may: OpenSubcodes::ANY_SPEAKERS,
        },
        // A parameter of another type leaves the fields readable.
        Err(OpenFault::Parameter) => unreachable!(),
    }
}
