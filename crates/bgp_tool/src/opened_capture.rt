//! A capture over any reader and any writer: what stands between a file and `decode_capture`.

ghost use Rattle.std.specs.Prelude.{◌≡◌, ◌≤◌, ◌<◌, ◌^◌, Some, IfOk, IfErr, is_some};
ghost use Rattle.std.specs.IoError.{error_kind};
ghost use Rattle.mrt.specs.FromRead.{reader_state};
ghost use Rattle.mrt.specs.FromWrite.{writer_state};
ghost use Rattle.bgp_tool.specs.declared.note.Note.TheVariants as notes;
ghost use Rattle.bgp_tool.specs.Front.{no_capture as no_capture_by};
ghost use Rattle.bgp_tool.specs.Opened.{IsUnopened};
ghost use Rattle.bgp_tool.specs.OpenedCapture.{told_by, unmet_by, unless_met, may_be_of_session};
ghost use Rattle.bgp_tool.specs.OpenedCapture.{refuses_of_session};
ghost use Rattle.bgp_tool.specs.OpenedCapture.{DecodesOpened};

use crate::captures::{Decoded, decode_with};
use crate::front::{Form, WithFront, no_capture};
use crate::note::{CaptureCommand, Note, Unmet};
use crate::opened::{Outcome, unopened, unwritten};
use crate::ready::Ready;
use crate::seen::Seen;
use crate::session_options::SessionOptions;
use mrt::{CaptureFault, Endpoints, FaultKind, FromRead, FromWrite, MOST_OTHERS, Reader, Sink};
use std::alloc::Allocator;
use std::io;
use std::io::{Read, Write};

/// Decodes a capture of one session that a reader gives, if it could be opened, as
/// [`decode_capture`](crate::decode_capture) does, and says what went wrong, if anything did: why
/// the capture is refused; that no record was the session's, or what the file is, where it is no
/// capture (`specs/OpenedCapture.antt`). A closed pipe is status 5 and not told; where the reader
/// failed, too, the writer's failure is told.
///
/// The reader is asked for few octets at a time: put a buffer before a file.
pub fn decode_opened_capture<'a, R: Read + Ready + Drop, W: Write, A: Allocator + Copy>(
    alloc: A,
    options: &SessionOptions,
    file: &'a str,
    opened: io::Result<R>,
    sink: &mut FromWrite<W>,
) -> Outcome<'a>
    requires { (writer_state sink.old).failures < 2 ^ 63 }
    ensures decoded { IfOk opened (λ reader. DecodesOpened R.remaining W.contents options.now
        file.entry reader (writer_state sink.old) (writer_state sink.new) result) }
    ensures unopened { IfErr opened (λ error. IsUnopened file.entry (error_kind error) result
        × (writer_state sink.new ≡ writer_state sink.old)) }
    ensures statuses { result.status ≤ 5 }
{
    match opened {
        Ok(reader) => decode_reader(alloc, options, file, reader, sink),
        Err(error) => unopened(file, error.kind()),
    }
}

/// Decodes what a reader gives.
fn decode_reader<'a, R: Read + Ready + Drop, W: Write, A: Allocator + Copy>(
    alloc: A,
    options: &SessionOptions,
    file: &'a str,
    reader: R,
    sink: &mut FromWrite<W>,
) -> Outcome<'a>
    requires { (writer_state sink.old).failures < 2 ^ 63 }
    ensures decoded { DecodesOpened R.remaining W.contents options.now file.entry reader
        (writer_state sink.old) (writer_state sink.new) result }
    ensures statuses { result.status ≤ 5 }
{
    let source = WithFront::new(FromRead::new(reader));
    let mut records = Reader::new(alloc);
    let failures = sink.failures();
    let decoded = decode_with(alloc, &mut records, options, source, sink);
    let Decoded {
        source,
        status,
        refused,
    } = decoded;
    let skipped = records.skipped();
    let note = if sink.failures() > failures {
        unwritten(sink)
    } else {
        let command = CaptureCommand::Decode;
        note_of(command, status, file, &source, &records, refused, None)
    };
    Outcome {
        status,
        skipped: Some(skipped),
        note,
    }
}

/// What to tell of a command that ended with this status, where the sink took all of its text, and
/// why the capture is refused or what is lacking in it, if it is or anything is.
pub fn note_of<'a, R: Read, A: Allocator + Copy>(
    command: CaptureCommand,
    status: u8,
    file: &'a str,
    source: &WithFront<FromRead<R>>,
    records: &Reader<A>,
    refused: Option<CaptureFault>,
    lacking: Option<Seen>,
) -> Option<Note<'a>>
    ensures read { status < 4 → result ≡ told_by command file.entry (is_some records.now.last)
        (no_capture_by source.now.front.items) refused lacking records.now.others }
    ensures memory { status ≡ 4 → result
        ≡ Some (notes.OutOfMemory file.entry (reader_state source.now.source).given) }
    ensures reader { status ≡ 5 → result ≡ Some (notes.Unread file.entry
        (reader_state source.now.source).given (reader_state source.now.source).last_error) }
{
    let octet = source.source().given();
    match status {
        4 => Some(Note::OutOfMemory { file, octet }),
        5 => Some(Note::Unread {
            file,
            octet,
            error: source.source().last_error(),
        }),
        _ => told(command, file, source.front(), records, refused, lacking),
    }
}

/// What to tell of what was read of a capture that begins so.
fn told<'a, A: Allocator + Copy>(
    command: CaptureCommand,
    file: &'a str,
    front: &[u8],
    records: &Reader<A>,
    refused: Option<CaptureFault>,
    lacking: Option<Seen>,
) -> Option<Note<'a>>
    ensures { result ≡ told_by command file.entry (is_some records.now.last)
        (no_capture_by front.now) refused lacking records.now.others }
{
    if records.has_answered() {
        let unmet = None;
        return match refused {
            Some(fault) => Some(Note::Refused { file, fault, unmet }),
            None => lacking.map(|seen| Note::NothingDone { file, seen }),
        };
    }
    let of_session = refuses_of_session(refused);
    if let Some(form) = unless_met(records.first_other(), of_session, no_capture(front)) {
        return Some(Note::NoCapture {
            file,
            form,
            command,
        });
    }
    let others = records.others();
    match refused {
        Some(fault) => {
            let unmet = unmet_at(fault.kind, others);
            Some(Note::Refused { file, fault, unmet })
        }
        None => Some(Note::NoSession { file, others }),
    }
}

/// Returns what a file is that begins as no capture does, unless a record of another session was
/// met, or one that may be of this session is refused.
fn unless_met(other: Option<Endpoints>, of_session: bool, form: Option<Form>) -> Option<Form>
    ensures { result ≡ unless_met other of_session form }
{
    match other {
        None if !of_session => form,
        _ => None,
    }
}

/// Returns whether a record is refused that may be of the session.
fn refuses_of_session(refused: Option<CaptureFault>) -> bool
    ensures { result ≡ refuses_of_session refused }
{
    match refused {
        None => false,
        Some(fault) => may_be_of_session(fault.kind),
    }
}

/// That no record of the session was met where a capture is refused so before one was read, unless
/// the record that is refused may be one.
fn unmet_at(kind: FaultKind, others: [Option<Endpoints>; MOST_OTHERS]) -> Option<Unmet>
    ensures { result ≡ unmet_by (may_be_of_session kind) others }
{
    if may_be_of_session(kind) {
        None
    } else {
        Some(Unmet { others })
    }
}

/// Returns whether a record that is refused so may be one of the session.
fn may_be_of_session(kind: FaultKind) -> bool
    ensures { result ≡ may_be_of_session kind }
{
    match kind {
        FaultKind::Truncated | FaultKind::TooLong | FaultKind::Device | FaultKind::Memory => false,
        FaultKind::Body
        | FaultKind::BadState
        | FaultKind::NotAMessage
        | FaultKind::TimeBack
        | FaultKind::RouteRefresh
        | FaultKind::AddPath => true,
    }
}
