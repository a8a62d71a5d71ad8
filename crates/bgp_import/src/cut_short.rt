//! That a recording was cut short.

ghost use Rattle.std.specs.Prelude.{◌≡◌};
ghost use Rattle.bgp_import.specs.Gathers.{cut_short_by};

use std::fmt;

/// That a recording ends within a packet or a block, as one that is still being written does. What
/// comes before is read as that of a whole one.
#[derive(Clone, Copy, Debug, PartialEq, Eq)]
pub struct CutShort {
    /// How many packets come before.
    pub before: u64,
}

impl CutShort {
    /// What is told of a recording that was read to its end, of so many packets.
    pub fn told(is_cut_short: bool, packets: u64) -> Option<CutShort>
        ensures { result ≡ cut_short_by is_cut_short packets }
    {
        is_cut_short.then_some(CutShort { before: packets })
    }
}

impl fmt::Display for CutShort {
    fn fmt<W: fmt::Write>(&self, f: &mut fmt::Formatter<W>) -> fmt::Result {
        let CutShort { before } = *self;
        write!(
            f,
            "the recording is cut short in packet {}",
            u128::from(before) + 1
        )
    }
}
