//! The AS number of an end, by the OPEN that it sent.

ghost use Rattle.std.specs.Prelude.{map};
ghost use Rattle.mrt.specs.Reader.{shown_of};
ghost use Rattle.bgp_check_text.specs.AsNumber.{HasAsNumber};

use bgp_check::own_open;
use bgp_import::as_number;
use mrt::Record;

/// Returns the AS number in the first well-formed OPEN that these records show as sent, if there is
/// one.
pub fn sent_as_number(records: &[Record<'_>]) -> Option<u32>
    ensures { HasAsNumber (map shown_of records.now) result }
{
    let own = own_open(records)?;
    Some(as_number(own))
}
