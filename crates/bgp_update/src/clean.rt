//! Clean UPDATEs, which a speaker may send.

ghost use Rattle.std.specs.Prelude.{◌≡◌, ◌≢◌, ◌↔◌, ◌⊎◌, [], ℕ, Some, IsTrue};
ghost use Rattle.bgp_open.specs.Families.{contains};
ghost use Rattle.bgp_open.specs.Family.{Family};
ghost use Rattle.bgp_open.specs.Family.TheVariants.{V4};
ghost use Rattle.bgp_update.specs.Clean.{
  IsClean,
  IsCleanBy,
  IsAppliedAlone,
  WastesNoAttribute,
  IsOfFamiliesInUse,
  most_octets,
};
ghost use Rattle.bgp_update.specs.Disabled.{IsCertain, IsOptional};
ghost use Rattle.bgp_update.specs.Mp.{Unused};
ghost use Rattle.bgp_update.specs.MpShown.{state_of};
ghost use Rattle.bgp_update.specs.ResetFaults.{IsResetSubcode, IsMereSubcode};
ghost use Rattle.bgp_update.specs.Surveyed.{found_by};

use crate::fields::split_update;
use crate::mp::MpState;
use crate::survey::{Survey, survey_of};
use bgp_attr::{FirstAttrs, Limit, MessageType};
use bgp_open::{Family, Link};

/// Returns how many octets an UPDATE may have at most that is sent over the link: 65535 if the peer
/// offers extended messages (RFC 8654, 4), else 4096 (RFC 4271, 4.1).
pub fn most_octets(link: &Link) -> u16
    ensures { result ≡ most_octets link.now }
{
    Limit::with_extended(link.extended).greatest_length(MessageType::Update.code())
}

/// Checks whether the octets are a whole UPDATE that is clean, so that it may be sent: it is no
/// longer than the link allows, and leaves the peer nothing to forgive. It takes no memory.
///
/// IPv4 routes may have IPv6 next hops in MP_REACH_NLRI if the link's sent form has them (RFC 8950,
/// 4); NEXT_HOP has 4 octets either way. Prefixes of the families that this form identifies stand
/// behind path identifiers, and no others do (RFC 7911, 3).
pub fn is_clean(link: &Link, octets: &[u8]) -> bool
    ensures clean { IsTrue result ↔ IsClean link.now octets.now }
{
    if octets.len() > usize::from(most_octets(link)) {
        return false;
    }
    let Some(fields) = split_update(octets) else {
        return false;
    };
    survey_of(link, link.sent, &fields, &mut FirstAttrs::none()).is_clean(link)
}

impl Survey<'_> {
    /// Checks whether an UPDATE in which this was found is clean.
    fn is_clean(&self, link: &Link) -> bool
        ensures { IsTrue result ↔ IsCleanBy link.now (found_by self.now) }
    {
        if !self.is_applied_alone() {
            return false;
        }
        if !self.wastes_no_attribute() {
            return false;
        }
        self.is_of_families_in_use(link)
    }

    /// Checks whether the only outcome is Apply, with nothing disabled or withdrawn for a fault.
    fn is_applied_alone(&self) -> bool
        ensures { IsTrue result ↔ IsAppliedAlone (found_by self.now) }
    {
        if !self.allows_no_reset() {
            return false;
        }
        if !self.disables_nothing() {
            return false;
        }
        !self.has_withdraw_fault()
    }

    /// Checks that neither rule holds, "discarded attribute" or "repeated attribute".
    fn wastes_no_attribute(&self) -> bool
        ensures { IsTrue result ↔ WastesNoAttribute (found_by self.now) }
    {
        !self.pass.classes.discard && !self.pass.types.has_repeats
    }

    /// Checks that the rule "family not in use" doesn't hold.
    fn is_of_families_in_use(&self, link: &Link) -> bool
        ensures { IsTrue result ↔ IsOfFamiliesInUse link.now (found_by self.now) }
    {
        if !self.has_base_in_use(link) {
            return false;
        }
        if self.reach.state.is_of_unused_family() {
            return false;
        }
        !self.unreach.state.is_of_unused_family()
    }

    /// Checks that no fault allows a reset.
    fn allows_no_reset(&self) -> bool
        ensures { IsTrue result ↔ ((n : ℕ)
            → ¬ (IsResetSubcode (found_by self.now) n ⊎ IsMereSubcode (found_by self.now) n)) }
    {
        self.reset_subcodes().union(self.mere_subcodes()).is_empty()
    }

    /// Checks that no family may be disabled.
    fn disables_nothing(&self) -> bool
        ensures { IsTrue result ↔ ((family : Family)
            → ¬ (IsCertain (found_by self.now) family ⊎ IsOptional (found_by self.now) family)) }
    {
        !self.may_disable(Family::V4) & !self.may_disable(Family::V6)
    }

    /// Checks whether an Apply disables the family, or may.
    fn may_disable(&self, family: Family) -> bool
        ensures { IsTrue result
            ↔ (IsCertain (found_by self.now) family ⊎ IsOptional (found_by self.now) family) }
    {
        self.is_certain(family) || self.is_optional(family)
    }

    /// Checks whether each prefix of the base fields is of a family in use.
    fn has_base_in_use(&self, link: &Link) -> bool
        ensures { IsTrue result ↔ (IsTrue (contains link.now.families V4)
            ⊎ (((found_by self.now).withdrawn ≡ Some []) × ((found_by self.now).nlri ≡ Some []))) }
    {
        link.families.contains(Family::V4) || (self.has_empty_withdrawn() && self.has_empty_nlri())
    }
}

impl MpState<'_> {
    /// Checks the rule "family not in use": the family is IPv4 or IPv6 unicast, and not in use.
    fn is_of_unused_family(&self) -> bool
        ensures { (¬ IsTrue result) ↔ ((family : Family) → state_of self.now ≢ Unused family) }
    {
        matches!(self, MpState::Unused(_))
    }
}
