//! The faults for which the session has to be reset, or may be (RFC 4271, 6.3; RFC 7606, 3 to 5).

ghost use Rattle.std.specs.Prelude.{◌≡◌, ◌≢◌, [], ◌↔◌, ◌⊎◌, ℕ, IsTrue};
ghost use Rattle.bgp_update.specs.MpFaults.{Names, IsBroken};
ghost use Rattle.bgp_update.specs.WithdrawFaults.{HasFormFault};
ghost use Rattle.bgp_update.specs.ResetFaults.{
  HasBadPrefixes,
  HasRepeatedMp,
  HasMpOverrun,
  HasUnknownWellKnown,
  HasOtherOverrun,
  ReachesNothing,
  HasFaultWithoutPrefixes,
  IsFixedSubcode,
  IsResetSubcode,
  HasReachable,
  HasFaultWithNothingAnnounced,
  IsMereSubcode,
};
ghost use Rattle.bgp_update.specs.Subcodes.{HasSubcode};
ghost use Rattle.bgp_update.specs.Surveyed.{found_by, mp_found_by};

use crate::mp::MpState;
use crate::subcodes::Subcodes;
use crate::survey::{MpSurvey, Survey};
use bgp_attr::Tail;
use bgp_open::Family;

impl Survey<'_> {
    /// Checks the rule "bad prefix field".
    fn has_bad_prefixes(&self) -> bool
        ensures { IsTrue result ↔ HasBadPrefixes (found_by self.now) }
    {
        self.withdrawn.count().is_none() || self.nlri.count().is_none()
    }

    /// Checks the rule "repeated MP attribute".
    fn has_repeated_mp(&self) -> bool
        ensures { IsTrue result ↔ HasRepeatedMp (found_by self.now) }
    {
        self.reach.is_repeated || self.unreach.is_repeated
    }

    /// Checks the rule "MP attribute overruns".
    fn has_mp_overrun(&self) -> bool
        ensures { IsTrue result ↔ HasMpOverrun self.now.tail }
    {
        matches!(self.tail, Some(Tail::Overrun(14 | 15)))
    }

    /// Checks the rule "unknown well-known attribute".
    fn has_unknown_well_known(&self) -> bool
        ensures { IsTrue result ↔ HasUnknownWellKnown (found_by self.now) }
    {
        self.pass.classes.reset
    }

    /// Checks whether an attribute of another type than MP_UNREACH_NLRI overruns.
    fn has_other_overrun(&self) -> bool
        ensures { IsTrue result ↔ HasOtherOverrun self.now.tail }
    {
        match self.tail {
            Some(Tail::Overrun(kind)) => kind != 15,
            _ => false,
        }
    }

    /// Checks whether MP_REACH_NLRI isn't there, or is right and without a prefix.
    fn reaches_nothing(&self) -> bool
        ensures { IsTrue result ↔ ReachesNothing (found_by self.now) }
    {
        match self.reach.state {
            MpState::Absent => true,
            MpState::Sound(_, contents) => !contents.destinations.has_some(),
            _ => false,
        }
    }

    /// Checks whether MP_REACH_NLRI is of a family in use, right, and has a prefix.
    fn has_reachable(&self) -> bool
        ensures { IsTrue result ↔ HasReachable (found_by self.now) }
    {
        match self.reach.state {
            MpState::Sound(_, contents) => contents.destinations.has_some(),
            _ => false,
        }
    }

    /// Checks whether MP_UNREACH_NLRI is broken, or there is a withdraw-class fault other than the
    /// class of an ATOMIC_AGGREGATE or AGGREGATOR.
    fn has_fault_that_hides(&self) -> bool
        ensures { IsTrue result ↔ (IsBroken (mp_found_by self.now.unreach)
            ⊎ IsTrue self.now.pass.classes.plain_withdraw ⊎ HasFormFault (found_by self.now)) }
    {
        self.unreach.is_broken() || self.pass.classes.plain_withdraw || self.has_form_fault()
    }

    /// Checks the rule "fault without prefixes".
    fn has_fault_without_prefixes(&self) -> bool
        ensures { IsTrue result ↔ HasFaultWithoutPrefixes (found_by self.now) }
    {
        self.has_empty_nlri()
            && (self.pass.types.other || self.has_other_overrun())
            && self.reaches_nothing()
            && self.has_fault_that_hides()
    }

    /// Checks the rule "fault with nothing announced".
    fn has_fault_with_nothing_announced(&self) -> bool
        ensures { IsTrue result ↔ HasFaultWithNothingAnnounced (found_by self.now) }
    {
        self.has_withdraw_fault() && self.has_empty_nlri() && !self.has_reachable()
    }

    /// Returns the subcodes of the faults that have subcodes of their own.
    fn fixed_subcodes(&self) -> Subcodes
        ensures { (n : ℕ) → HasSubcode result n ↔ IsFixedSubcode (found_by self.now) n }
    {
        let overruns = self.has_mp_overrun();
        Subcodes {
            malformed_attribute_list: self.has_repeated_mp() | overruns,
            unrecognized_well_known: self.has_unknown_well_known(),
            attribute_length: overruns,
            optional_attribute: overruns,
            invalid_network_field: self.has_bad_prefixes(),
            ..Subcodes::NONE
        }
    }

    /// Returns the subcodes of the faults for which the session has to be reset.
    pub(crate) fn reset_subcodes(&self) -> Subcodes
        ensures { (n : ℕ) → HasSubcode result n ↔ IsResetSubcode (found_by self.now) n }
    {
        self.fixed_subcodes()
            .union(named_if(self.reach.is_cut(), &self.reach))
            .union(named_if(self.unreach.is_cut(), &self.unreach))
            .union(Subcodes::all_if(self.has_fault_without_prefixes()))
    }

    /// Returns the subcodes of the faults for which the session may be reset.
    pub(crate) fn mere_subcodes(&self) -> Subcodes
        ensures { (n : ℕ) → HasSubcode result n ↔ IsMereSubcode (found_by self.now) n }
    {
        named_if(self.reach.may_reset(), &self.reach)
            .union(named_if(self.unreach.may_reset(), &self.unreach))
            .union(Subcodes::all_if(self.has_fault_with_nothing_announced()))
    }
}

/// Returns the subcodes that an MP attribute names if that holds: 9, and 4 if its bits are in
/// conflict.
fn named_if(holds: bool, mp: &MpSurvey<'_>) -> Subcodes
    ensures { (n : ℕ) → HasSubcode result n ↔ (IsTrue holds × Names (mp_found_by mp.now) n) }
{
    Subcodes {
        attribute_flags: holds & mp.other_bits,
        optional_attribute: holds,
        ..Subcodes::NONE
    }
}
