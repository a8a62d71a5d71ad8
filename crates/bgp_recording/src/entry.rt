//! Records of the made capture, each with the packet that shows it.

ghost use Rattle.std.specs.Prelude.{◌≡◌};
ghost use Rattle.bgp_recording.specs.Moments.{entry_moment};

use crate::pending::Moment;
use bgp_prefix::Seconds;
use mrt::Record;

/// A record of the made capture.
#[derive(Clone, Copy, Debug, PartialEq, Eq)]
pub struct Entry<'a> {
    /// The packet by which the message came or was made; of a change, that of the message or the
    /// end beside it.
    pub packet: u64,
    /// The packet's second. The record's own is that at which the order handles it, which is this
    /// one or a later one.
    pub second: Seconds,
    /// The microseconds of the packet's second, where the recording has them.
    pub micro: Option<u32>,
    /// The record.
    pub record: Record<'a>,
}

impl<'a> Entry<'a> {
    /// Makes the entry of a record that this packet shows.
    pub fn new(moment: Moment, shown: Record<'a>) -> Entry<'a>
        ensures moment { entry_moment result ≡ moment }
        ensures shown { result.record ≡ shown.entry }
    {
        Entry {
            packet: moment.packet,
            second: moment.second,
            micro: moment.micro,
            record: shown,
        }
    }

    /// Returns the packet that shows it.
    pub(crate) fn moment(&self) -> Moment
        ensures { result ≡ entry_moment self.now }
    {
        Moment {
            packet: self.packet,
            second: self.second,
            micro: self.micro,
        }
    }
}
