//! Sets of address families (RFC 4760, 3).

ghost use Rattle.std.specs.Prelude.{◌≡◌, ◌↔◌, IsTrue};
ghost use Rattle.bgp_open.specs.Families.{contains, IsEmpty, intersection, union};

use bgp_prefix::Family;

/// A set of the families that routes are exchanged for.
#[derive(Clone, Copy, Debug, PartialEq, Eq)]
pub struct Families {
    /// IPv4 unicast is in the set.
    pub v4: bool,
    /// IPv6 unicast is in the set.
    pub v6: bool,
}

impl Families {
    /// IPv4 unicast only. An OPEN offers this if it has no capability of multiprotocol extensions
    /// of length 4 (profile; RFC 4271 knows only IPv4).
    pub const V4: Families = Families {
        v4: true,
        v6: false,
    };

    /// No family.
    pub const NONE: Families = Families {
        v4: false,
        v6: false,
    };

    /// Checks whether the family is in the set.
    pub fn contains(self, family: Family) -> bool
        ensures { result ≡ contains self family }
    {
        match family {
            Family::V4 => self.v4,
            Family::V6 => self.v6,
        }
    }

    /// Checks whether the set is empty.
    pub fn is_empty(self) -> bool
        ensures { IsTrue result ↔ IsEmpty self }
    {
        !self.v4 && !self.v6
    }

    /// Returns the families that are in either set.
    pub fn union(self, other: Families) -> Families
        ensures { result ≡ union self other }
    {
        Families {
            v4: self.v4 || other.v4,
            v6: self.v6 || other.v6,
        }
    }

    /// Returns the families that are in both sets.
    pub fn intersection(self, other: Families) -> Families
        ensures { result ≡ intersection self other }
    {
        Families {
            v4: self.v4 && other.v4,
            v6: self.v6 && other.v6,
        }
    }
}
