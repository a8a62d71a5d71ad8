//! What an OPEN that was sent says that no configuration has.

ghost use Rattle.std.specs.Prelude.{◌≡◌, ◌↔◌, IfSome, IfNone, IsTrue, Some, map};
ghost use Rattle.mrt.specs.Reader.{shown_of};
ghost use Rattle.bgp_open.specs.Open.{open_of};
ghost use Rattle.bgp_open.specs.OpenFault.{IsWellFormed};
ghost use Rattle.bgp_check.specs.Configurations.{as_of, own_faults};
ghost use Rattle.bgp_check.specs.declared.own_fault.OwnFault.{OwnFault as AnOwnFault};
ghost use Rattle.bgp_check_text.specs.OwnFaults.{AreOwnFaults, IsToldConfiguration};

use bgp_check::{Judged, OwnFault, has_own_fault, own_open};
use bgp_open::{Config, read_open};
use bgp_why::OwnFaults;
use mrt::Record;
use std::alloc::Allocator;

/// Each own fault of an OPEN that tells this AS number, if it has one.
pub(crate) fn own_faults_of(own: &[u8], number: u32) -> Option<OwnFaults>
    requires form { IsWellFormed own.now }
    requires number { number ≡ as_of (open_of own.now) }
    ensures some { IfSome result (AreOwnFaults (open_of own.now)) }
    ensures none { IfNone result ((fault : AnOwnFault) → ¬ own_faults (open_of own.now) fault) }
{
    let Ok(message) = read_open(own) else {
        unreachable!();
    };
    let as_number = has_own_fault(own, OwnFault::AsNumber);
    let id = has_own_fault(own, OwnFault::Identifier);
    let hold = has_own_fault(own, OwnFault::Hold);
    if !as_number && !id && !hold {
        return None;
    }
    Some(OwnFaults {
        as_numbers: as_number.then_some((message.my_as(), number)),
        id,
        hold: hold.then_some(message.hold()),
    })
}

/// Whether an OPEN has no own fault, so that it is some configuration's own.
pub(crate) fn is_faultless(own: &[u8]) -> bool
    requires { IsWellFormed own.now }
    ensures { IsTrue result ↔ ((fault : AnOwnFault) → ¬ own_faults (open_of own.now) fault) }
{
    if has_own_fault(own, OwnFault::AsNumber) {
        return false;
    }
    if has_own_fault(own, OwnFault::Identifier) {
        return false;
    }
    !has_own_fault(own, OwnFault::Hold)
}

/// Returns the configuration under which the verdict on an end's records is told, if the OPEN that
/// the end sent is one configuration's own: `None` if none was sent, or one with an own fault.
pub fn told_configuration<A: Allocator>(
    records: &[Record<'_>],
    judged: &Judged<A>,
) -> Option<Config>
    ensures { IsToldConfiguration (map shown_of records.now) judged.now.under result }
{
    let own = own_open(records)?;
    if !is_faultless(own) {
        return None;
    }
    Some(judged.under)
}
