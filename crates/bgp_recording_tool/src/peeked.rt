//! A reader whose first octets are looked at before they are read.

ghost use Rattle.std.specs.Prelude.{◌≡◌};

use arrayvec::ArrayVec;
use bgp_tool::Ready;
use std::io;
use std::io::Read;

/// How many octets are looked at.
const FRONT: usize = 4;

/// A reader whose first four octets have been looked at. It gives them again, then the error that
/// came after them, if one did, and then what the reader gives.
#[derive(Drop)]
pub struct Peeked<R> {
    front: ArrayVec<u8, FRONT>,
    error: Option<io::Error>,
    reader: R,
}

impl<R: Read> Peeked<R> {
    ghost use Rattle.bgp_recording_tool.specs.Files.{IsPeeked, is_recording};

    /// Looks at the first octets of a reader: four, or fewer where it ends or fails before.
    pub fn new(mut reader: R) -> Peeked<R>
        ensures { IsPeeked R.remaining reader result }
    {
        let mut front: ArrayVec<u8, FRONT> = ArrayVec::new();
        let mut error = None;
        while !front.is_full() {
            let mut octet = [0u8];
            match reader.read(&mut octet) {
                Ok(0) => break,
                Ok(_) => front.push(octet[0]),
                Err(failed) => {
                    error = Some(failed);
                    break;
                }
            }
        }
        Peeked {
            front,
            error,
            reader,
        }
    }

    /// Whether a recording begins so: with a magic number of a packet capture as libpcap writes it,
    /// in either order and of either clock, or with a Section Header Block.
    pub fn is_recording(&self) -> bool
        ensures { result ≡ is_recording self.now.front.items }
    {
        matches!(
            self.front.as_slice(),
            [0xa1, 0xb2, 0xc3, 0xd4]
                | [0xd4, 0xc3, 0xb2, 0xa1]
                | [0xa1, 0xb2, 0x3c, 0x4d]
                | [0x4d, 0x3c, 0xb2, 0xa1]
                | [0x0a, 0x0d, 0x0d, 0x0a]
        )
    }
}

impl<R: Read> Read for Peeked<R> {
    ghost use Rattle.bgp_recording_tool.specs.Files.{peeked_remaining};

    ghost remaining = { λ a. peeked_remaining R.remaining a };

    fn read(&mut self, buf: &mut [u8]) -> io::Result<usize> {
        if buf.is_empty() {
            return Ok(0);
        }
        if let Some(octet) = self.front.pop_at(0) {
            buf[0] = octet;
            return Ok(1);
        }
        match self.error.take() {
            Some(error) => Err(error),
            None => self.reader.read(buf),
        }
    }
}

impl<R: Read + Ready> Ready for Peeked<R> {
    ghost use Rattle.std.specs.Prelude.{◌||◌, ◌<◌, length, nat_lt};

    ghost is_ready = { λ a. nat_lt 0 (length a.front.items) || R.is_ready a.reader };

    fn is_ready(&self) -> bool {
        !self.front.is_empty() || self.reader.is_ready()
    }
}
