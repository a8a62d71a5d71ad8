//! How a line names the local system of a session.

ghost use Rattle.std.specs.Prelude.{◌≡◌, ◌+◌, ◌<◌, length, map, option_map};
ghost use Rattle.mrt.specs.Reader.{shown_of};
ghost use Rattle.bgp_check_capture_tool.specs.Naming.{IsNameOf, endpoint_of, told_part};

use bgp_check_lines::{EndName, sent_as_number};
use bgp_prefix::Address;
use bgp_why::Endpoint;
use mrt::Record;

/// A system of a session in a capture, which tells no port.
pub(crate) fn endpoint_of(address: Address) -> Endpoint
    ensures { result ≡ endpoint_of address }
{
    Endpoint {
        address,
        port: None,
    }
}

/// The numbers of the first and of the last record of a stretch, before which so many stand and
/// which this one leaves, if one does: none, if it is all of its session.
fn told_part(before: usize, count: usize, leaving: Option<Record<'_>>) -> Option<(u64, u64)>
    requires few { before + count < usize.MAX }
    ensures { result ≡ told_part before count (option_map shown_of leaving.entry) }
{
    match (before, leaving) {
        (0, None) => None,
        _ => Some((before as u64 + 1, (before + count) as u64)),
    }
}

/// How the lines of a stretch name the local system.
pub(crate) fn name_of(
    local: Address,
    before: usize,
    stretch: &[Record<'_>],
    leaving: Option<Record<'_>>,
) -> EndName
    requires few { before + length stretch.now < usize.MAX }
    ensures { IsNameOf local before (map shown_of stretch.now)
        (option_map shown_of leaving.entry) result }
{
    EndName {
        end: endpoint_of(local),
        as_number: sent_as_number(stretch),
        part: told_part(before, stretch.len(), leaving),
    }
}
