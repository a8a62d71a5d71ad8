//! A file that is held whole.

ghost use Rattle.std.specs.Prelude.{◌≡◌, ◌+◌, ◌<◌};
ghost use Rattle.mrt_sessions.specs.Held.{IsHeld, failures_by};

use mrt::Source;
use std::alloc::{Allocator, Global};

/// Where a file that is held stops.
#[derive(Clone, Copy, Debug, PartialEq, Eq)]
pub enum Ending {
    /// At its end.
    End,
    /// Where a read failed.
    Device,
    /// Where there was no memory for more.
    Memory,
}

/// The octets of a file, up to its end or to where it couldn't be read on.
#[derive(Drop)]
pub struct Held<A: Allocator = Global> {
    /// The octets.
    pub octets: Vec<u8, A>,
    /// Where they stop.
    pub ending: Ending,
}

/// How many octets are asked for at once.
const BLOCK: usize = 4096;

/// Reads a source to its end, and holds what it gave. Where a read fails, or there is no memory for
/// what it gave, the octets are those before.
pub fn hold<A: Allocator + Copy, S: Source>(alloc: A, source: &mut S) -> Held<A>
    requires { S.failures source.old < u64.MAX }
    ensures held { IsHeld S.gives S.has_ended source.old source.new
        result.octets.items result.ending }
    ensures failures { S.failures source.new
        ≡ S.failures source.old + failures_by result.ending }
{
    let mut octets = Vec::new(alloc);
    let mut block = [0; BLOCK];
    loop {
        let Ok(count) = source.read(&mut block) else {
            return Held {
                octets,
                ending: Ending::Device,
            };
        };
        if count == 0 {
            return Held {
                octets,
                ending: Ending::End,
            };
        }
        let Ok(()) = octets.extend_from_slice(&block[..count]) else {
            return Held {
                octets,
                ending: Ending::Memory,
            };
        };
    }
}
