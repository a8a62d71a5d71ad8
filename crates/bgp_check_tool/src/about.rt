//! What the reason of a no over all orders is about.

ghost use Rattle.std.specs.Prelude.{◌≡◌, ◌↔◌, IfNone, IfOk, IfSome, IsTrue, map, option_map};
ghost use Rattle.mrt.specs.Reader.{shown_of};
ghost use Rattle.bgp_parts.specs.Opens.{HasOwnOpen, HasPeersOpen};
ghost use Rattle.bgp_recording.specs.Captured.{records_of};
ghost use Rattle.bgp_check_tool.specs.About.{IsNoOf, NeverUnexplained, judged_value};
ghost use Rattle.bgp_check_tool.specs.Orders.{own_of, peers_of};

use crate::elsewhere::count_in;
use crate::orders::NoOrder;
use bgp_check::{Judged, own_open, peers_open};
use bgp_judge::{Tracker, judge_records};
use bgp_recording::Recording;
use mrt::Record;
use std::alloc::{AllocError, Allocator};

/// Checks whether two OPENs are the same, or neither is there.
fn is_same_open(one: Option<&[u8]>, other: Option<&[u8]>) -> bool
    ensures { IsTrue result
        ↔ (option_map (λ o. o.now) one.entry ≡ option_map (λ o. o.now) other.entry) }
{
    match (one, other) {
        (Some(one), Some(other)) => one == other,
        (None, None) => true,
        (Some(_), None) | (None, Some(_)) => false,
    }
}

/// Checks whether these records have the OPENs that are told with a message that no order explains.
fn has_opens(records: &[Record<'_>], found: &NoOrder<'_>) -> bool
    ensures own { IsTrue result → HasOwnOpen (map shown_of records.now) (own_of found.now) }
    ensures peers { IsTrue result → HasPeersOpen (map shown_of records.now) (peers_of found.now) }
    ensures has { HasOwnOpen (map shown_of records.now) (own_of found.now)
        → HasPeersOpen (map shown_of records.now) (peers_of found.now) → IsTrue result }
{
    is_same_open(own_open(records), found.own) && is_same_open(peers_open(records), found.peers)
}

/// Returns the no that the records of an end have under the configuration under which this message
/// is the first that no order explains, with the AS number that the end's OPEN has; `None` only if
/// they have other OPENs, or their verdict under it is another. As what no order explains isn't
/// explained in the made one, they have this no.
pub(crate) fn no_under<A: Allocator + Copy, T: Tracker<A>>(
    alloc: A,
    recording: &Recording<'_, A>,
    as_number: Option<u32>,
    found: &NoOrder<'_>,
) -> Result<Option<Judged<A>>, AllocError>
    requires { map shown_of recording.now.records.items
        ≡ records_of recording.now.entries.items }
    ensures some { IfOk result (λ no. IfSome no (λ judged. IsNoOf
        (records_of recording.now.entries.items) as_number found.now (judged_value judged))) }
    ensures none { IfOk result (λ no. IfNone no (NeverUnexplained recording.now.entries.items
        found.now)) }
{
    let records = recording.records.as_slice();
    if !has_opens(records, found) {
        return Ok(None);
    }
    let its = found.its;
    let verdict = judge_records::<A, T>(alloc, &its.under, records)?;
    if count_in(&verdict).is_none() {
        return Ok(None);
    }
    Ok(Some(Judged {
        as_number,
        peer_as: its.peer_as,
        under: its.under,
        verdict,
    }))
}
