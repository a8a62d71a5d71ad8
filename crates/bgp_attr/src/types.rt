//! The attribute table: the path attribute types that this project knows.

ghost use Rattle.std.specs.Prelude.{◌≡◌};
ghost use Rattle.bgp_attr.specs.Types.{is_multiprotocol, type_bits, type_name, type_number};
ghost use Rattle.bgp_attr.specs.Types.{type_of};

use crate::flags::{OPTIONAL, OPTIONAL_TRANSITIVE, TRANSITIVE};

/// A path attribute type that the table has.
#[derive(Clone, Copy, Debug, PartialEq, Eq)]
pub enum AttrType {
    /// ORIGIN (RFC 4271, 5.1.1).
    Origin,
    /// AS_PATH (RFC 4271, 5.1.2).
    AsPath,
    /// NEXT_HOP (RFC 4271, 5.1.3).
    NextHop,
    /// MULTI_EXIT_DISC (RFC 4271, 5.1.4).
    MultiExitDisc,
    /// LOCAL_PREF (RFC 4271, 5.1.5).
    LocalPref,
    /// ATOMIC_AGGREGATE (RFC 4271, 5.1.6).
    AtomicAggregate,
    /// AGGREGATOR (RFC 4271, 5.1.7).
    Aggregator,
    /// COMMUNITIES (RFC 1997).
    Communities,
    /// ORIGINATOR_ID (RFC 4456, 8).
    OriginatorId,
    /// CLUSTER_LIST (RFC 4456, 8).
    ClusterList,
    /// MP_REACH_NLRI (RFC 4760, 3).
    MpReachNlri,
    /// MP_UNREACH_NLRI (RFC 4760, 4).
    MpUnreachNlri,
    /// EXTENDED COMMUNITIES (RFC 4360, 2).
    ExtendedCommunities,
    /// AS4_PATH (RFC 6793, 3).
    As4Path,
    /// AS4_AGGREGATOR (RFC 6793, 3).
    As4Aggregator,
    /// LARGE_COMMUNITY (RFC 8092, 3).
    LargeCommunities,
}

/// One row of the attribute table.
#[derive(Clone, Copy, Debug)]
pub struct TypeRow {
    /// The Attribute Type Code.
    pub number: u8,
    /// The name by which the standards call it.
    pub name: &'static str,
    /// Which of the Optional and Transitive bits it has.
    pub bits: u8,
}

/// A row of the table.
fn row(number: u8, name: &'static str, bits: u8) -> TypeRow
    ensures number { result.number ≡ number }
    ensures name { result.name.now ≡ name.entry.now }
    ensures bits { result.bits ≡ bits }
{
    TypeRow { number, name, bits }
}

impl AttrType {
    /// Every type of the table, in ascending order of the numbers.
    pub const ALL: [AttrType; 16] = [
        Self::Origin,
        Self::AsPath,
        Self::NextHop,
        Self::MultiExitDisc,
        Self::LocalPref,
        Self::AtomicAggregate,
        Self::Aggregator,
        Self::Communities,
        Self::OriginatorId,
        Self::ClusterList,
        Self::MpReachNlri,
        Self::MpUnreachNlri,
        Self::ExtendedCommunities,
        Self::As4Path,
        Self::As4Aggregator,
        Self::LargeCommunities,
    ];

    /// The table: the row of this type.
    pub fn row(self) -> TypeRow
        ensures number { result.number ≡ type_number self }
        ensures name { result.name.now ≡ type_name self }
        ensures bits { result.bits ≡ type_bits self }
    {
        match self {
            Self::Origin => row(1, "ORIGIN", TRANSITIVE),
            Self::AsPath => row(2, "AS_PATH", TRANSITIVE),
            Self::NextHop => row(3, "NEXT_HOP", TRANSITIVE),
            Self::MultiExitDisc => row(4, "MULTI_EXIT_DISC", OPTIONAL),
            Self::LocalPref => row(5, "LOCAL_PREF", TRANSITIVE),
            Self::AtomicAggregate => row(6, "ATOMIC_AGGREGATE", TRANSITIVE),
            Self::Aggregator => row(7, "AGGREGATOR", OPTIONAL_TRANSITIVE),
            Self::Communities => row(8, "COMMUNITIES", OPTIONAL_TRANSITIVE),
            Self::OriginatorId => row(9, "ORIGINATOR_ID", OPTIONAL),
            Self::ClusterList => row(10, "CLUSTER_LIST", OPTIONAL),
            Self::MpReachNlri => row(14, "MP_REACH_NLRI", OPTIONAL),
            Self::MpUnreachNlri => row(15, "MP_UNREACH_NLRI", OPTIONAL),
            Self::ExtendedCommunities => row(16, "EXTENDED COMMUNITIES", OPTIONAL_TRANSITIVE),
            Self::As4Path => row(17, "AS4_PATH", OPTIONAL_TRANSITIVE),
            Self::As4Aggregator => row(18, "AS4_AGGREGATOR", OPTIONAL_TRANSITIVE),
            Self::LargeCommunities => row(32, "LARGE_COMMUNITY", OPTIONAL_TRANSITIVE),
        }
    }

    /// The type with this number: none where the table has none.
    pub fn of(number: u8) -> Option<AttrType>
        ensures of { result ≡ type_of number }
    {
        Some(match number {
            1 => Self::Origin,
            2 => Self::AsPath,
            3 => Self::NextHop,
            4 => Self::MultiExitDisc,
            5 => Self::LocalPref,
            6 => Self::AtomicAggregate,
            7 => Self::Aggregator,
            8 => Self::Communities,
            9 => Self::OriginatorId,
            10 => Self::ClusterList,
            14 => Self::MpReachNlri,
            15 => Self::MpUnreachNlri,
            16 => Self::ExtendedCommunities,
            17 => Self::As4Path,
            18 => Self::As4Aggregator,
            32 => Self::LargeCommunities,
            _ => return None,
        })
    }

    /// Whether it is MP_REACH_NLRI or MP_UNREACH_NLRI, which carry prefixes.
    pub fn is_multiprotocol(self) -> bool
        ensures multiprotocol { result ≡ is_multiprotocol self }
    {
        matches!(self, Self::MpReachNlri | Self::MpUnreachNlri)
    }
}
