//! The rules on one MP attribute (RFC 4760, 7; RFC 7606, 5.3, 7.11 and 7.12).

ghost use Rattle.std.specs.Prelude.{◌≡◌, ◌↔◌, ℕ, IsTrue};
ghost use Rattle.bgp_update.specs.Disabled.{IsDoubtful};
ghost use Rattle.bgp_update.specs.Mp.{Broken};
ghost use Rattle.bgp_update.specs.MpFaults.{
  IsUnused,
  IsSound,
  IsCut,
  IsBroken,
  HasBitsInConflict,
  MayReset,
};
ghost use Rattle.bgp_update.specs.MpShown.{state_of};
ghost use Rattle.bgp_update.specs.Surveyed.{mp_found_by};

use crate::mp::MpState;
use crate::survey::MpSurvey;
use bgp_open::Family;

impl MpState<'_> {
    /// Checks whether its family isn't in use, or is neither IPv4 nor IPv6 unicast.
    fn is_unused(&self) -> bool
        ensures { IsTrue result ↔ IsUnused (state_of self.now) }
    {
        matches!(self, MpState::Other | MpState::Unused(_))
    }

    /// Checks whether its family is in use, and its contents are right.
    fn is_sound(&self) -> bool
        ensures { IsTrue result ↔ IsSound (state_of self.now) }
    {
        matches!(self, MpState::Sound(..))
    }

    /// Checks whether it is broken, and of this family.
    pub(crate) fn is_broken_of(&self, family: Family) -> bool
        ensures { IsTrue result ↔ (state_of self.now ≡ Broken family) }
    {
        match self {
            MpState::Broken(own) => *own == family,
            _ => false,
        }
    }
}

impl MpSurvey<'_> {
    /// Checks the rule "cut MP attribute".
    pub(crate) fn is_cut(&self) -> bool
        ensures { IsTrue result ↔ IsCut (mp_found_by self.now) }
    {
        matches!(self.state, MpState::Cut)
    }

    /// Checks the rule "broken MP attribute".
    pub(crate) fn is_broken(&self) -> bool
        ensures { IsTrue result ↔ IsBroken (mp_found_by self.now) }
    {
        matches!(self.state, MpState::Broken(_))
    }

    /// Checks the rule "MP bits in conflict".
    pub(crate) fn has_bits_in_conflict(&self) -> bool
        ensures { IsTrue result ↔ HasBitsInConflict (mp_found_by self.now) }
    {
        self.other_bits && (self.state.is_unused() || self.state.is_sound())
    }

    /// Checks whether a reset is allowed and not demanded.
    pub(crate) fn may_reset(&self) -> bool
        ensures { IsTrue result ↔ MayReset (mp_found_by self.now) }
    {
        self.is_broken() || self.has_bits_in_conflict()
    }

    /// Checks whether it is of this family, and has nothing wrong but its bits.
    pub(crate) fn is_doubtful(&self, family: Family) -> bool
        ensures { IsTrue result ↔ IsDoubtful (mp_found_by self.now) family }
    {
        match self.state {
            MpState::Sound(own, _) => self.other_bits && is_same(own, family),
            _ => false,
        }
    }
}

/// Checks whether both are one family.
fn is_same(one: Family, other: Family) -> bool
    ensures { IsTrue result ↔ (one ≡ other) }
{
    one == other
}
