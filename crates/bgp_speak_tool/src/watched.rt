//! A capture that is shown while it is written.

ghost use Rattle.std.specs.Prelude.{◌≡◌, ◌<◌, ◌≤◌, length};

use arrayvec::ArrayVec;
use bgp_json::OutputForm;
use bgp_lines::LineForm;
use bgp_prefix::Session;
use bgp_tool::{SessionOptions, decode_capture};
use byteorder::{BigEndian, ByteOrder};
use mrt::{Failed, FromRead, FromWrite, Reader, Sink};
use std::alloc::Allocator;
use std::io;
use std::io::Print;

/// The octets of a record's header, whose last four are the length of its body (RFC 6396, 2).
const HEADER: usize = 12;

/// The octets of the longest record of a capture: its body has 48 before an extended message, of
/// 65535 octets at the most (RFC 8654, 4).
const RECORD: usize = HEADER + 48 + 65535;

/// What prints the records of one session, as `decode --mrt` does, from their octets.
#[derive(Drop)]
struct Watch<'a, P, A> {
    printer: &'a P,
    alloc: A,
    options: SessionOptions,
    record: ArrayVec<u8, RECORD>,
    is_quiet: bool,
}

impl<P: Print, A: Allocator + Copy> Watch<'_, P, A> {
    /// Takes the next octets of the capture, and prints each record that is whole with them.
    fn see(&mut self, octets: &[u8]) {
        for octet in octets {
            if self.is_quiet {
                return;
            }
            self.keep(*octet);
        }
    }

    // Takes an octet, and prints the record if it is the last of it. One for which there is no room
    // ends the watch.
    fn keep(&mut self, octet: u8) {
        if self.record.try_push(octet).is_err() {
            self.is_quiet = true;
        }
        if is_whole(self.record.as_slice()) {
            self.print();
            self.record.clear();
        }
    }

    // Prints the record. Nobody is told where that fails.
    fn print(&self) {
        let mut reader = Reader::new(self.alloc);
        let mut source = FromRead::new(self.record.as_slice());
        let mut sink = FromWrite::new(io::writer(self.printer));
        let _ = decode_capture(
            self.alloc,
            &mut reader,
            &self.options,
            &mut source,
            &mut sink,
        );
    }
}

/// Whether these octets are a header and the body whose length it tells.
fn is_whole(record: &[u8]) -> bool {
    if record.len() < HEADER {
        return false;
    }
    let (header, body) = record.split_at(HEADER);
    BigEndian::read_u32(&header[8..]) as usize == body.len()
}

/// The sink of a capture, of which each record is printed when it has taken the last of its octets.
#[derive(Drop)]
pub struct Watched<'a, C, P, A> {
    capture: C,
    watch: Watch<'a, P, A>,
}

impl<'a, C: Sink, P: Print, A: Allocator + Copy> Watched<'a, C, P, A> {
    /// The sink, and what prints the records of this session.
    pub fn new(
        alloc: A,
        capture: C,
        session: &Session,
        printer: &'a P,
        is_quiet: bool,
    ) -> Watched<'a, C, P, A>
        ensures { result.capture ≡ capture }
    {
        let options = SessionOptions {
            session: *session,
            form: OutputForm::Text(LineForm::Plain),
        };
        Watched {
            capture,
            watch: Watch {
                printer,
                alloc,
                options,
                record: ArrayVec::new(),
                is_quiet,
            },
        }
    }

    /// The sink.
    pub fn into_inner(self) -> C
        ensures { result ≡ self.entry.capture }
    {
        self.capture
    }
}

impl<C: Sink, P: Print, A: Allocator + Copy> Sink for Watched<'_, C, P, A> {
    ghost takes = { λ a b. C.takes a.capture b.capture };

    ghost failures = { λ a. C.failures a.capture };

    ghost nothing = { λ a. C.nothing a.capture };

    ghost joined = { λ a b c. C.joined a.capture b.capture c.capture };

    fn write(&mut self, octets: &[u8]) -> Result<usize, Failed> {
        match self.capture.write(octets) {
            Ok(count) => {
                self.watch.see(&octets[..count]);
                Ok(count)
            }
            Err(Failed) => Err(Failed),
        }
    }

    fn failures(&self) -> u64 {
        self.capture.failures()
    }
}
