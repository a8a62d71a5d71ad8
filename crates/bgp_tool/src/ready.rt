//! Whether octets are there to be read, or a read would wait for them.

ghost use Rattle.std.specs.Prelude.{◌≡◌, Bool};

use mrt::{FromRead, MemSource};
use std::alloc::Allocator;
use std::io::{BufReader, Read};

/// What can say whether its next read has to wait. A command that prints while it reads hands over
/// what it has before a read that may wait.
pub trait Ready {
    /// Whether the next read gives octets that are there already.
    ghost is_ready: { Self → Bool };

    /// Returns whether the next read gives octets that are there already.
    fn is_ready(&self) -> bool
        ensures { result ≡ is_ready self.now };
}

/// A reader with a buffer has to wait once it has given all that it holds.
impl<R: Read, A: Allocator> Ready for BufReader<R, A> {
    ghost use Rattle.std.specs.Prelude.{◌<◌, length, nat_lt};
    ghost use Rattle.std.specs.Io.Buffered.{reader_buffer};

    ghost is_ready = { λ a. nat_lt 0 (length (reader_buffer a)) };

    fn is_ready(&self) -> bool {
        !self.buffer().is_empty()
    }
}

/// Octets in memory are there.
impl Ready for &[u8] {
    ghost use Rattle.std.specs.Prelude.{true};

    ghost is_ready = { λ _. true };

    fn is_ready(&self) -> bool {
        true
    }
}

impl<A: Allocator> Ready for MemSource<A> {
    ghost use Rattle.std.specs.Prelude.{true};

    ghost is_ready = { λ _. true };

    fn is_ready(&self) -> bool {
        true
    }
}

impl<R: Read + Ready> Ready for FromRead<R> {
    ghost use Rattle.mrt.specs.FromRead.{reader_state};

    ghost is_ready = { λ a. R.is_ready (reader_state a).reader };

    fn is_ready(&self) -> bool {
        self.get_ref().is_ready()
    }
}
