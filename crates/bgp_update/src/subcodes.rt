//! The Error Subcodes of an UPDATE Message Error (RFC 4271, 4.5 and 6.3).

ghost use Rattle.std.specs.Prelude.{◌≡◌, ◌↔◌, ◌⊎◌, ◌≤◌, ℕ, IsTrue, IfSome, IfNone, MatchBool};
ghost use Rattle.bgp_update.specs.ResetFaults.{IsAny};
ghost use Rattle.bgp_update.specs.Subcodes.{HasSubcode, SubcodesAreSets};

/// A set of subcodes of UPDATE Message Error.
#[derive(Clone, Copy, Debug, PartialEq, Eq)]
pub struct Subcodes {
    /// Malformed Attribute List (subcode 1).
    pub malformed_attribute_list: bool,
    /// Unrecognized Well-known Attribute (subcode 2).
    pub unrecognized_well_known: bool,
    /// Missing Well-known Attribute (subcode 3).
    pub missing_well_known: bool,
    /// Attribute Flags Error (subcode 4).
    pub attribute_flags: bool,
    /// Attribute Length Error (subcode 5).
    pub attribute_length: bool,
    /// Invalid ORIGIN Attribute (subcode 6).
    pub invalid_origin: bool,
    /// AS Routing Loop (subcode 7), which RFC 4271 deprecates.
    pub as_routing_loop: bool,
    /// Invalid NEXT_HOP Attribute (subcode 8).
    pub invalid_next_hop: bool,
    /// Optional Attribute Error (subcode 9).
    pub optional_attribute: bool,
    /// Invalid Network Field (subcode 10).
    pub invalid_network_field: bool,
    /// Malformed AS_PATH (subcode 11).
    pub malformed_as_path: bool,
}

impl Subcodes {
    /// No subcode.
    pub const NONE: Subcodes = Subcodes {
        malformed_attribute_list: false,
        unrecognized_well_known: false,
        missing_well_known: false,
        attribute_flags: false,
        attribute_length: false,
        invalid_origin: false,
        as_routing_loop: false,
        invalid_next_hop: false,
        optional_attribute: false,
        invalid_network_field: false,
        malformed_as_path: false,
    };

    /// Malformed Attribute List alone.
    pub const MALFORMED_ATTRIBUTE_LIST: Subcodes = Subcodes {
        malformed_attribute_list: true,
        ..Subcodes::NONE
    };

    /// Checks whether the subcode is in the set.
    pub fn contains(self, subcode: u8) -> bool
        ensures { IsTrue result ↔ HasSubcode self subcode }
    {
        match subcode {
            1 => self.malformed_attribute_list,
            2 => self.unrecognized_well_known,
            3 => self.missing_well_known,
            4 => self.attribute_flags,
            5 => self.attribute_length,
            6 => self.invalid_origin,
            7 => self.as_routing_loop,
            8 => self.invalid_next_hop,
            9 => self.optional_attribute,
            10 => self.invalid_network_field,
            11 => self.malformed_as_path,
            _ => false,
        }
    }

    /// Returns the least subcode of the set, or none if it is empty.
    pub fn least(self) -> Option<u8>
        ensures some { IfSome result (λ n. HasSubcode self n) }
        ensures first { IfSome result (λ n. (m : ℕ) → HasSubcode self m → n ≤ m) }
        ensures none { IfNone result ((n : ℕ) → ¬ HasSubcode self n) }
    {
        for subcode in 0..12 {
            if self.contains(subcode) {
                return Some(subcode);
            }
        }
        None
    }

    /// Checks whether no subcode is in the set.
    pub fn is_empty(self) -> bool
        ensures { MatchBool result ((n : ℕ) → ¬ HasSubcode self n) ((n : ℕ) × HasSubcode self n) }
    {
        self.least().is_none()
    }

    /// Returns the subcodes that are in one set or the other.
    pub fn union(self, other: Subcodes) -> Subcodes
        ensures { (n : ℕ) → HasSubcode result n ↔ (HasSubcode self n ⊎ HasSubcode other n) }
    {
        Subcodes {
            malformed_attribute_list: self.malformed_attribute_list
                | other.malformed_attribute_list,
            unrecognized_well_known: self.unrecognized_well_known | other.unrecognized_well_known,
            missing_well_known: self.missing_well_known | other.missing_well_known,
            attribute_flags: self.attribute_flags | other.attribute_flags,
            attribute_length: self.attribute_length | other.attribute_length,
            invalid_origin: self.invalid_origin | other.invalid_origin,
            as_routing_loop: self.as_routing_loop | other.as_routing_loop,
            invalid_next_hop: self.invalid_next_hop | other.invalid_next_hop,
            optional_attribute: self.optional_attribute | other.optional_attribute,
            invalid_network_field: self.invalid_network_field | other.invalid_network_field,
            malformed_as_path: self.malformed_as_path | other.malformed_as_path,
        }
    }

    /// Returns all subcodes if that holds, else none.
    pub(crate) fn all_if(holds: bool) -> Subcodes
        ensures { (n : ℕ) → HasSubcode result n ↔ (IsTrue holds × IsAny n) }
    {
        Subcodes {
            malformed_attribute_list: holds,
            unrecognized_well_known: holds,
            missing_well_known: holds,
            attribute_flags: holds,
            attribute_length: holds,
            invalid_origin: holds,
            as_routing_loop: holds,
            invalid_next_hop: holds,
            optional_attribute: holds,
            invalid_network_field: holds,
            malformed_as_path: holds,
        }
    }
}

/// A law, with nothing to run: two sets with the same subcodes are equal.
pub fn subcodes_are_sets()
    ensures { SubcodesAreSets }
{}
