//! Where a session is cut.

ghost use Rattle.std.specs.Prelude.{◌≡◌, ◌<◌, length, map, option_map};
ghost use Rattle.mrt.specs.Reader.{shown_of};
ghost use Rattle.bgp_check.specs.BeforeLeaving.{IsAtLeaving};
ghost use Rattle.bgp_check_capture_tool.specs.Stretches.{IsFirst, first_of};

use bgp_check::before_leaving;
use mrt::Record;

/// The first stretch of these records, whose first one leaves Idle, and what follows it.
pub(crate) fn first_stretch<'r, 'a>(
    records: &'r [Record<'a>],
) -> (&'r [Record<'a>], &'r [Record<'a>])
    requires some { 0 < length records.now }
    requires leaving { IsAtLeaving (map shown_of records.now) }
    ensures { IsFirst (map shown_of records.entry.now) (map shown_of result.0.now)
        (map shown_of result.1.now) }
{
    let (_, later) = records.split_at(1);
    records.split_at(1 + before_leaving(later))
}

/// The first record, if there is one.
pub(crate) fn first_of<'a>(records: &[Record<'a>]) -> Option<Record<'a>>
    ensures { option_map shown_of result ≡ first_of (map shown_of records.now) }
{
    match records.first() {
        Some(first) => Some(*first),
        None => None,
    }
}
