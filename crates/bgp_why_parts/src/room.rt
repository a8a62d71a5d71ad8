//! A room for the front of a text: it keeps so many octets, and drops the others.

ghost use Rattle.std.specs.Prelude.{◌≡◌, []};

use arrayvec::ArrayVec;
use mrt::{Failed, Sink};

/// How many octets it keeps: more than are shown of a text.
const SIZE: usize = 256;

/// A sink that keeps the first 256 octets that it takes, and never fails.
#[derive(Drop)]
pub struct Room {
    kept: ArrayVec<u8, SIZE>,
}

impl Room {
    /// Returns an empty one.
    pub fn new() -> Room
        ensures { result.kept.items ≡ [] }
    {
        Room {
            kept: ArrayVec::new(),
        }
    }

    /// Returns the octets that it keeps.
    pub fn front(&self) -> &[u8]
        ensures { result.now ≡ self.now.kept.items }
    {
        self.kept.as_slice()
    }
}

impl Sink for Room {
    ghost use Rattle.bgp_why_parts.specs.Cut.{Keeps, keeps_joined, keeps_nothing};

    ghost takes = { λ a b. Keeps a.kept.items b.kept.items };

    ghost failures = { λ a. 0 };

    ghost nothing = { λ a. keeps_nothing a.kept.items };

    ghost joined = { λ a b c. keeps_joined a.kept.items b.kept.items c.kept.items };

    fn write(&mut self, octets: &[u8]) -> Result<usize, Failed> {
        let free = SIZE - self.kept.len();
        let (kept, _) = octets.split_at(octets.len().min(free));
        match self.kept.try_extend_from_slice(kept) {
            Ok(()) => {}
            Err(_) => unreachable!(),
        }
        Ok(octets.len())
    }

    fn failures(&self) -> u64 {
        0
    }
}
