//! The faults for which the routes of an UPDATE are withdrawn (RFC 7606, 3 and 4).

ghost use Rattle.std.specs.Prelude.{◌≡◌, ◌↔◌, [], Some, IsTrue};
ghost use Rattle.bgp_update.specs.Mp.{Absent};
ghost use Rattle.bgp_update.specs.MpShown.{state_of};
ghost use Rattle.bgp_update.specs.Surveyed.{found_by};
ghost use Rattle.bgp_update.specs.WithdrawFaults.{
  IsEmptyNlri,
  HasWithdrawnAttribute,
  HasBrokenTail,
  LacksOriginOrPath,
  LacksNextHop,
  HasFormFault,
  HasWithdrawFault,
};

use crate::mp::MpState;
use crate::survey::Survey;
use bgp_attr::Tail;

impl Survey<'_> {
    /// Checks whether the NLRI field is empty.
    pub(crate) fn has_empty_nlri(&self) -> bool
        ensures { IsTrue result ↔ IsEmptyNlri (found_by self.now) }
    {
        self.nlri.is_empty()
    }

    /// Checks whether the Withdrawn Routes field is empty.
    pub(crate) fn has_empty_withdrawn(&self) -> bool
        ensures { IsTrue result ↔ ((found_by self.now).withdrawn ≡ Some []) }
    {
        self.withdrawn.is_empty()
    }

    /// Checks whether MP_REACH_NLRI isn't there.
    pub(crate) fn lacks_reach(&self) -> bool
        ensures { IsTrue result ↔ (state_of self.now.reach.state ≡ Absent) }
    {
        matches!(self.reach.state, MpState::Absent)
    }

    /// Checks the rule "withdrawn attribute".
    fn has_withdrawn_attribute(&self) -> bool
        ensures { IsTrue result ↔ HasWithdrawnAttribute (found_by self.now) }
    {
        self.pass.classes.withdraw
    }

    /// Checks the rule "broken tail".
    fn has_broken_tail(&self) -> bool
        ensures { IsTrue result ↔ HasBrokenTail self.now.tail }
    {
        match self.tail {
            None => false,
            Some(Tail::ShortHeader) => true,
            Some(Tail::Overrun(kind)) => kind != 14 && kind != 15,
        }
    }

    /// Checks the rule "missing ORIGIN or AS_PATH".
    fn lacks_origin_or_path(&self) -> bool
        ensures { IsTrue result ↔ LacksOriginOrPath (found_by self.now) }
    {
        let types = &self.pass.types;
        (!types.origin || !types.as_path) && (!self.has_empty_nlri() || !self.lacks_reach())
    }

    /// Checks the rule "missing NEXT_HOP".
    fn lacks_next_hop(&self) -> bool
        ensures { IsTrue result ↔ LacksNextHop (found_by self.now) }
    {
        !self.pass.types.next_hop && !self.has_empty_nlri()
    }

    /// Checks whether there is a withdraw-class fault other than an attribute's own class.
    pub(crate) fn has_form_fault(&self) -> bool
        ensures { IsTrue result ↔ HasFormFault (found_by self.now) }
    {
        self.reach.has_bits_in_conflict()
            || self.unreach.has_bits_in_conflict()
            || self.has_broken_tail()
            || self.lacks_origin_or_path()
            || self.lacks_next_hop()
    }

    /// Checks whether there is a withdraw-class fault.
    pub(crate) fn has_withdraw_fault(&self) -> bool
        ensures { IsTrue result ↔ HasWithdrawFault (found_by self.now) }
    {
        self.has_withdrawn_attribute() || self.has_form_fault()
    }
}
