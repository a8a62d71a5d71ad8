//! The families that are disabled if an UPDATE is applied (RFC 4760, 7; RFC 7606, 5.3 and 7.11).

ghost use Rattle.std.specs.Prelude.{◌↔◌, IsTrue};
ghost use Rattle.bgp_open.specs.Families.{contains};
ghost use Rattle.bgp_open.specs.Family.{Family};
ghost use Rattle.bgp_update.specs.Disabled.{IsCertain, IsOptional};
ghost use Rattle.bgp_update.specs.Surveyed.{found_by};

use crate::survey::Survey;
use bgp_open::{Families, Family};

impl Survey<'_> {
    /// Checks whether each Apply disables the family.
    pub(crate) fn is_certain(&self, family: Family) -> bool
        ensures { IsTrue result ↔ IsCertain (found_by self.now) family }
    {
        self.reach.state.is_broken_of(family) || self.unreach.state.is_broken_of(family)
    }

    /// Checks whether an Apply may disable the family.
    pub(crate) fn is_optional(&self, family: Family) -> bool
        ensures { IsTrue result ↔ IsOptional (found_by self.now) family }
    {
        self.reach.is_doubtful(family) || self.unreach.is_doubtful(family)
    }

    /// Returns the families that each Apply disables.
    pub(crate) fn certain_families(&self) -> Families
        ensures { (family : Family)
            → IsTrue (contains result family) ↔ IsCertain (found_by self.now) family }
    {
        Families {
            v4: self.is_certain(Family::V4),
            v6: self.is_certain(Family::V6),
        }
    }

    /// Returns the families that an Apply may disable, and needn't.
    pub(crate) fn optional_families(&self) -> Families
        ensures { (family : Family) → IsTrue (contains result family)
            ↔ (IsOptional (found_by self.now) family × ¬ IsCertain (found_by self.now) family) }
    {
        Families {
            v4: self.is_optional(Family::V4) && !self.is_certain(Family::V4),
            v6: self.is_optional(Family::V6) && !self.is_certain(Family::V6),
        }
    }
}
