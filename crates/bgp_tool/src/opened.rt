//! Commands over any reader and any writer: what stands between a file and `decode_raw`.

ghost use Rattle.std.specs.Prelude.{◌≡◌, ◌≤◌, ◌<◌, ◌^◌, Some, None, option_map, IfOk, IfErr};
ghost use Rattle.std.specs.IoError.{error_kind};
ghost use Rattle.mrt.specs.FromRead.{reader_state};
ghost use Rattle.mrt.specs.FromWrite.{writer_state};
ghost use Rattle.bgp_tool.specs.declared.note.Note.TheVariants as notes;
ghost use Rattle.bgp_tool.specs.Front.{no_stream as no_stream_by};
ghost use Rattle.bgp_tool.specs.Opened.{DecodesReader, TellsWriter, IsUnopened};

use crate::decoding::decode_raw;
use crate::front::{WithFront, no_stream};
use crate::note::Note;
use crate::status::Status;
use crate::stream_options::StreamOptions;
use mrt::{FromRead, FromWrite, SkippedRecords, Source};
use std::alloc::Allocator;
use std::io;
use std::io::{ErrorKind, Read, Write};

/// How a command ended.
#[derive(Clone, Copy, Debug, PartialEq, Eq)]
pub struct Outcome<'a> {
    /// The exit status.
    pub status: u8,
    /// How many records of a capture were skipped, by why, as far as it was read; `None` where no
    /// capture was.
    pub skipped: Option<SkippedRecords>,
    /// What there is to tell on standard error.
    pub note: Option<Note<'a>>,
}

/// Decodes a raw stream that a reader gives, if it could be opened, as
/// [`decode_raw`](crate::decode_raw) does, and says what went wrong, if anything did
/// (`specs/Opened.antt`).
///
/// A file that is refused and whose front is that of something else than a raw stream is told as
/// that. A closed pipe is status 5 and not told.
pub fn decode_opened<'a, R: Read + Drop, W: Write, A: Allocator + Copy>(
    options: StreamOptions,
    alloc: A,
    file: &'a str,
    opened: io::Result<R>,
    sink: &mut FromWrite<W>,
) -> Outcome<'a>
    requires { (writer_state sink.old).failures < 2 ^ 63 }
    ensures decoded { IfOk opened (λ reader. DecodesReader options R.remaining W.contents file.entry
        reader (writer_state sink.old) (writer_state sink.new) result) }
    ensures unopened { IfErr opened (λ error. IsUnopened file.entry (error_kind error) result
        × (writer_state sink.new ≡ writer_state sink.old)) }
    ensures statuses { result.status ≤ 5 }
{
    match opened {
        Ok(reader) => decode_reader(options, alloc, file, reader, sink),
        Err(error) => unopened(file, error.kind()),
    }
}

/// How a command ends whose file can't be opened: a device failed, or memory was refused.
pub fn unopened<'a>(file: &'a str, error: ErrorKind) -> Outcome<'a>
    ensures is { IsUnopened file.entry error result }
    ensures statuses { result.status ≤ 5 }
{
    if error == ErrorKind::OutOfMemory {
        return Outcome {
            status: Status::Memory.code(),
            skipped: None,
            note: Some(Note::OutOfMemory { file, octet: 0 }),
        };
    }
    Outcome {
        status: Status::Device.code(),
        skipped: None,
        note: Some(Note::Unopened { file, error }),
    }
}

/// Decodes what a reader gives.
fn decode_reader<'a, R: Read + Drop, W: Write, A: Allocator + Copy>(
    options: StreamOptions,
    alloc: A,
    file: &'a str,
    reader: R,
    sink: &mut FromWrite<W>,
) -> Outcome<'a>
    requires { (writer_state sink.old).failures < 2 ^ 63 }
    ensures decoded { DecodesReader options R.remaining W.contents file.entry reader
        (writer_state sink.old) (writer_state sink.new) result }
    ensures statuses { result.status ≤ 5 }
{
    let mut source = WithFront::new(FromRead::new(reader));
    let status = decode_raw(options, alloc, &mut source, sink);
    let note = note_of(status, file, &source, sink);
    Outcome {
        status,
        skipped: None,
        note,
    }
}

/// What to tell of a decoding that ended with this status.
fn note_of<'a, R: Read, W: Write>(
    status: u8,
    file: &'a str,
    source: &WithFront<FromRead<R>>,
    sink: &FromWrite<W>,
) -> Option<Note<'a>>
    ensures quiet { status < 3 → result ≡ None }
    ensures refused { status ≡ 3 → result
        ≡ option_map (notes.NoStream file.entry) (no_stream_by source.now.front.items) }
    ensures memory { status ≡ 4 → result
        ≡ Some (notes.OutOfMemory file.entry (reader_state source.now.source).given) }
    ensures reader { status ≡ 5 → 0 < (reader_state source.now.source).failures → result
        ≡ Some (notes.Unread file.entry (reader_state source.now.source).given
        (reader_state source.now.source).last_error) }
    ensures writer { status ≡ 5 → (reader_state source.now.source).failures ≡ 0 →
        TellsWriter (writer_state sink.now) result }
{
    let octet = source.source().given();
    match status {
        3 => no_stream(source.front()).map(|form| Note::NoStream { file, form }),
        4 => Some(Note::OutOfMemory { file, octet }),
        5 if source.failures() > 0 => Some(Note::Unread {
            file,
            octet,
            error: source.source().last_error(),
        }),
        5 => unwritten(sink),
        _ => None,
    }
}

/// What to tell of a sink that failed: nothing, where a pipe was closed.
pub fn unwritten<'a, W: Write>(sink: &FromWrite<W>) -> Option<Note<'a>>
    ensures { TellsWriter (writer_state sink.now) result }
{
    match sink.last_error() {
        Some(ErrorKind::BrokenPipe) => None,
        error => Some(Note::Unwritten {
            octet: sink.taken(),
            error,
        }),
    }
}
