//! A reader that fails or gives little at a time, and a writer that has little room.

use bgp_tool::Ready;
use std::alloc::Global;
use std::io::{self, ErrorKind, Read, Write};

/// A reader that gives octets, at most so many at a time, and then an error or its end.
#[derive(Drop)]
pub(crate) struct Given<'a> {
    pub(crate) octets: &'a [u8],
    pub(crate) most: usize,
    pub(crate) error: Option<ErrorKind>,
}

impl Read for Given<'_> {
    fn read(&mut self, buffer: &mut [u8]) -> io::Result<usize> {
        match self.error {
            Some(error) if self.octets.is_empty() => Err(io::Error::from(error)),
            _ => {
                let most = buffer.len().min(self.most);
                self.octets.read(&mut buffer[..most])
            }
        }
    }
}

/// It may wait before each octet, so that text is handed over before each read.
impl Ready for Given<'_> {
    ghost use Rattle.std.specs.Prelude.{false};

    ghost is_ready = { λ _. false };

    fn is_ready(&self) -> bool {
        false
    }
}

/// A writer that keeps as many octets as it has room for, and then answers an error.
#[derive(Drop)]
pub(crate) struct Paper {
    pub(crate) written: Vec<u8>,
    room: usize,
    error: ErrorKind,
}

impl Paper {
    /// One that is empty.
    pub(crate) fn new(alloc: Global, (room, error): (usize, ErrorKind)) -> Paper {
        Paper {
            written: Vec::new(alloc),
            room,
            error,
        }
    }
}

impl Write for Paper {
    fn write(&mut self, octets: &[u8]) -> io::Result<usize> {
        if self.room == 0 {
            return Err(io::Error::from(self.error));
        }
        let count = octets.len().min(self.room);
        self.written.extend_from_slice(&octets[..count])?;
        self.room -= count;
        Ok(count)
    }

    fn flush(&mut self) -> io::Result<()> {
        Ok(())
    }
}
