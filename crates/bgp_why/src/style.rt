//! How the lines of a reason are put.

ghost use Rattle.std.specs.Prelude.{◌≡◌};
ghost use Rattle.bgp_why.specs.Style.{plain};

use crate::other_orders::OtherOrders;
use bgp_prefix::Seconds;
use bgp_why_parts::OwnFaults;

/// How the lines of a reason are put.
#[derive(Clone, Copy, Debug, PartialEq, Eq)]
pub struct Style {
    /// The second of the first record: a time of the same day has no date.
    pub first: Seconds,
    /// The records are those of a recording: no packet shows a state that is as it was, and no
    /// message is missing.
    pub is_recording: bool,
    /// The peer may have any AS number but the one in its OPEN: `another` stands in place of the
    /// one that is configured.
    pub peer_as_is_free: bool,
    /// What the OPEN that was sent says that no configuration has: it stands in place of what that
    /// OPEN lacks of the configuration's own.
    pub own_faults: Option<OwnFaults>,
    /// What could have been sent in the impossible record's place in other orders of a recording's
    /// messages: what no other line has stands in lines of its own.
    pub other_orders: OtherOrders,
}

impl Style {
    /// Returns the style of `bgp judge --explain`, which takes each number from the configuration.
    /// Nothing is said of other orders.
    pub fn plain(first: Seconds, is_recording: bool) -> Style
        ensures { result ≡ plain first is_recording }
    {
        Style {
            first,
            is_recording,
            peer_as_is_free: false,
            own_faults: None,
            other_orders: OtherOrders::Unasked,
        }
    }
}
