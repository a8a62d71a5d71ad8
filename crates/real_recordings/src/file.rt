//! A file that a command reads.

use bgp_recording_tool::Peeked;
use bgp_tool::Ready;
use std::io;
use std::io::Read;
use std::num::NonZeroUsize;

/// The octets of a file, which is read so many at a time at the most.
#[derive(Clone, Copy)]
pub(crate) struct File<'a> {
    octets: &'a [u8],
    most: NonZeroUsize,
}

impl<'a> File<'a> {
    /// A file that is read at once.
    pub(crate) fn read_at_once(octets: &'a [u8]) -> File<'a> {
        File {
            octets,
            most: NonZeroUsize::MAX,
        }
    }

    /// A file that is read octet by octet.
    pub(crate) fn read_by_octets(octets: &'a [u8]) -> File<'a> {
        File {
            octets,
            most: NonZeroUsize::MIN,
        }
    }

    /// Whether it is a recording, and no capture.
    pub(crate) fn is_recording(&self) -> bool {
        Peeked::new(self.octets).is_recording()
    }

    /// What reads it, as a file is read.
    pub(crate) fn reader(&self) -> Pieces<'a> {
        Pieces {
            octets: self.octets,
            most: self.most,
        }
    }
}

/// Octets that are read, so many at a time at the most.
#[derive(Drop)]
pub(crate) struct Pieces<'a> {
    octets: &'a [u8],
    most: NonZeroUsize,
}

impl Read for Pieces<'_> {
    fn read(&mut self, buffer: &mut [u8]) -> io::Result<usize> {
        let count = buffer.len().min(self.most.get());
        self.octets.read(&mut buffer[..count])
    }
}

/// It may wait before each octet, so that text is handed over before each read.
impl Ready for Pieces<'_> {
    ghost use Rattle.std.specs.Prelude.{false};

    ghost is_ready = { λ _. false };

    fn is_ready(&self) -> bool {
        false
    }
}
