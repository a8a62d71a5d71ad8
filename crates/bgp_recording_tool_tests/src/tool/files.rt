//! Files, whose first four octets tell what they are.

use super::*;
use crate::two_connections::front;
use bgp_json::OutputForm;
use bgp_lines::LineForm;
use bgp_recording_tool::{decode_file, judge_file};
use bgp_tool::{Note, Ready, SessionOptions};
use bgp_verdict_lines::VerdictForm;
use mrt::FromWrite;
use std::io::{self, ErrorKind, Read};

/// A reader that gives octets, one at a time, and then an error or its end.
#[derive(Drop)]
struct Given<'a> {
    octets: &'a [u8],
    error: Option<ErrorKind>,
}

impl Read for Given<'_> {
    fn read(&mut self, buffer: &mut [u8]) -> io::Result<usize> {
        match self.error {
            Some(error) if self.octets.is_empty() => Err(io::Error::from(error)),
            _ => {
                let most = buffer.len().min(1);
                self.octets.read(&mut buffer[..most])
            }
        }
    }
}

/// It may wait before each octet, so that text is handed over before each read.
impl Ready for Given<'_> {
    ghost use Rattle.std.specs.Prelude.{false};

    ghost is_ready = { λ _. false };

    fn is_ready(&self) -> bool {
        false
    }
}

/// Whether judging the file prints this, and ends so.
fn is_judged(
    alloc: Global,
    given: Given<'_>,
    text: &str,
    (status, note): (u8, Option<Note<'_>>),
) -> Option<bool> {
    let config = Config::new(ROUTER_A)?;
    let mut sink = FromWrite::new(Vec::new(alloc));
    let outcome = judge_file::<Global, PlainTracker<Global>, _, _>(
        alloc,
        &config,
        Report::VerdictAlone,
        VerdictForm::Text,
        &OPTIONS,
        "a.pcap",
        Ok(given),
        &mut sink,
    );
    let is_so = outcome.status == status && outcome.note == note;
    Some(is_so && sink.into_inner().as_slice() == text.as_bytes())
}

/// Behind how many octets the recording breaks off, and what is printed of it.
static CUTS: [(usize, &str); 7] = [
    (0, "capture refused: 9 Device at 0\n"),
    (1, "capture refused: 9 Device at 0\n"),
    (2, "capture refused: 9 Device at 0\n"),
    (3, "capture refused: 9 Device at 0\n"),
    (4, "recording refused: 16 Device at packet 1\n"),
    (30, "recording refused: 16 Device at packet 1\n"),
    (80, "recording refused: 16 Device at packet 2\n"),
];

/// Whether a recording that breaks off there is told so.
fn is_told(alloc: Global, (count, text): &(usize, &str)) -> Option<bool> {
    let octets = front(*count)?;
    let error = Some(ErrorKind::TimedOut);
    let note = Note::Unread {
        file: "a.pcap",
        octet: *count as u64,
        error,
    };
    is_judged(alloc, Given { octets, error }, text, (5, Some(note)))
}

#[test]
fn a_read_that_fails_is_told_with_its_place(rt: HostRuntime) {
    for row in &CUTS {
        assert!(rt; is_told(rt.alloc(), row) == Some(true));
    }
}

/// Whether the recording is judged octet by octet as it is at once.
fn is_whole(alloc: Global) -> Option<bool> {
    let octets = front(298)?;
    let error = None;
    is_judged(alloc, Given { octets, error }, JUDGED, (3, None))
}

/// A change from Idle to Active at second 100 (RFC 6396, 4.4.1, of 4-octet AS numbers).
static CHANGE: [u8; 36] = [
    0x00, 0x00, 0x00, 0x64, 0x00, 0x10, 0x00, 0x05, 0x00, 0x00, 0x00, 0x18, // header
    0x00, 0x00, 0xfd, 0xea, 0x00, 0x00, 0xfd, 0xe9, 0x00, 0x00, 0x00, 0x01, // AS numbers, AFI
    0xc0, 0x00, 0x02, 0x02, 0xc0, 0x00, 0x02, 0x01, 0x00, 0x01, 0x00, 0x03, // addresses, states
];

/// Whether a capture is decoded octet by octet to this text.
fn is_decoded(alloc: Global, form: OutputForm, text: &str) -> bool {
    let given = Given {
        octets: &CHANGE,
        error: None,
    };
    let mut sink = FromWrite::new(Vec::new(alloc));
    let options = SessionOptions {
        session: SESSION,
        form,
    };
    let outcome = decode_file(alloc, &options, &OPTIONS, "a.mrt", Ok(given), &mut sink);
    outcome.status == 0 && sink.into_inner().as_slice() == text.as_bytes()
}

/// The line of the change, and its object.
const LINE: &str = "@100 change 1 3\n";

const OBJECT: &str =
    "{\"type\":\"change\",\"record\":1,\"second\":100,\"old\":\"Idle\",\"new\":\"Active\"}\n";

#[test]
fn no_octet_is_lost(rt: HostRuntime) {
    let plain = OutputForm::Text(LineForm::Plain);
    let json = OutputForm::Json { as2: false };
    assert!(rt; is_whole(rt.alloc()) == Some(true));
    assert!(rt; is_decoded(rt.alloc(), plain, LINE) && is_decoded(rt.alloc(), json, OBJECT));
}
