//! Files that are recordings or captures: what stands between a file and the commands.

ghost use Rattle.std.specs.Prelude.{◌≡◌, ◌<◌, ◌+◌, ◌^◌, ◌⊎◌, [], None, Some, IfOk, IfErr};
ghost use Rattle.std.specs.Prelude.{IsFalse};
ghost use Rattle.std.specs.IoError.{error_kind};
ghost use Rattle.mrt.specs.FromRead.{reader_state};
ghost use Rattle.mrt.specs.FromWrite.{writer_state};
ghost use Rattle.bgp_tool.specs.Opened.{IsUnopened, TellsWriter};
ghost use Rattle.bgp_tool.specs.declared.note.Note.TheVariants as notes;
ghost use Rattle.bgp_explain.specs.LeftOut.{nothing_left_out};
ghost use Rattle.bgp_recording_tool.specs.Files.{DecodesFile, JudgesFile};

use crate::decoding::decode_recording;
use crate::headline::judge_recording;
use crate::peeked::Peeked;
use crate::remark::Remark;
use bgp_explain::{JudgedCapture, LeftOut, Report, judge_opened};
use bgp_import::{CutShort, RecordingOptions};
use bgp_judge::Tracker;
use bgp_open::Config;
use bgp_tool::{Note, Outcome, Ready, SessionOptions, decode_opened_capture, unopened, unwritten};
use bgp_verdict_lines::VerdictForm;
use mrt::{FromRead, FromWrite, Sink, SkippedRecords};
use std::alloc::Allocator;
use std::io;
use std::io::{Read, Write};

/// How a command over a file ended that is a recording or a capture.
#[derive(Drop)]
pub struct FileOutcome<'a, A: Allocator> {
    /// The exit status.
    pub status: u8,
    /// That a recording was cut short, where it was: to be told first.
    pub cut_short: Option<CutShort>,
    /// How many records of a capture were skipped, by why, as far as it was read; `None` of a
    /// recording, and where the file couldn't be opened.
    pub skipped: Option<SkippedRecords>,
    /// Whether an UPDATE of a confederation is among the records of a capture that was judged: to
    /// be told then, by [`Note::Confederation`]. Of a recording a remark tells it.
    pub confederation: bool,
    /// What judging a capture left out of what both OPENs offer: to be told then, by
    /// [`Note::Without`]. Of a recording remarks tell it.
    pub left_out: LeftOut,
    /// What there is to tell of a recording's connections, in their order: to be told then.
    pub remarks: Vec<Remark, A>,
    /// What went wrong, if anything did.
    pub note: Option<Note<'a>>,
}

/// An outcome with nothing to tell of connections.
fn without_remarks<'a, A: Allocator + Copy>(
    alloc: A,
    outcome: Outcome<'a>,
    confederation: bool,
    left_out: LeftOut,
) -> FileOutcome<'a, A>
    ensures status { result.status ≡ outcome.entry.status }
    ensures skipped { result.skipped ≡ outcome.entry.skipped }
    ensures note { result.note ≡ outcome.entry.note }
    ensures confederation { result.confederation ≡ confederation }
    ensures left_out { result.left_out ≡ left_out }
    ensures remarks { result.remarks.items ≡ [] }
    ensures uncut { result.cut_short ≡ None }
{
    FileOutcome {
        status: outcome.status,
        cut_short: None,
        skipped: outcome.skipped,
        confederation,
        left_out,
        remarks: Vec::new(alloc),
        note: outcome.note,
    }
}

/// What to tell of a recording whose reading ended with this status, where the sink took all of its
/// text.
fn note_of<'a, R: Read>(status: u8, file: &'a str, source: &FromRead<R>) -> Option<Note<'a>>
    ensures quiet { ((status < 4) ⊎ (5 < status)) → result ≡ None }
    ensures memory { status ≡ 4 → result
        ≡ Some (notes.OutOfMemory file.entry (reader_state source.now).given) }
    ensures reader { status ≡ 5 → result ≡ Some (notes.Unread file.entry
        (reader_state source.now).given (reader_state source.now).last_error) }
{
    let octet = source.given();
    match status {
        4 => Some(Note::OutOfMemory { file, octet }),
        5 => Some(Note::Unread {
            file,
            octet,
            error: source.last_error(),
        }),
        _ => None,
    }
}

/// What to tell of a recording that was read from a source, with this status, into a sink which had
/// failed so often before.
fn recording_note<'a, R: Read, W: Write>(
    status: u8,
    file: &'a str,
    source: &FromRead<R>,
    sink: &FromWrite<W>,
    failures: u64,
) -> Option<Note<'a>>
    ensures writer { (writer_state sink.now).failures ≡ failures + 1
        → TellsWriter (writer_state sink.now) result }
    ensures quiet { (writer_state sink.now).failures ≡ failures
        → ((status < 4) ⊎ (5 < status)) → result ≡ None }
    ensures memory { (writer_state sink.now).failures ≡ failures → status ≡ 4 → result
        ≡ Some (notes.OutOfMemory file.entry (reader_state source.now).given) }
    ensures reader { (writer_state sink.now).failures ≡ failures → status ≡ 5 → result
        ≡ Some (notes.Unread file.entry (reader_state source.now).given
        (reader_state source.now).last_error) }
{
    if sink.failures() > failures {
        return unwritten(sink);
    }
    note_of(status, file, source)
}

/// Judges a file that a reader gives, if it could be opened: a recording, as
/// [`judge_recording`](crate::judge_recording) does, or else a capture, as
/// [`judge_opened`](bgp_explain::judge_opened) does, with the reason or without, as text or in JSON.
/// Its first four octets tell which it is. A closed pipe is status 5 and not told.
///
/// The reader is asked for few octets at a time: put a buffer before a file.
pub fn judge_file<'a, A: Allocator + Copy, T: Tracker<A>, R: Read + Drop, W: Write>(
    alloc: A,
    config: &Config,
    report: Report,
    form: VerdictForm,
    options: &RecordingOptions,
    file: &'a str,
    opened: io::Result<R>,
    sink: &mut FromWrite<W>,
) -> FileOutcome<'a, A>
    requires { (writer_state sink.old).failures < 2 ^ 63 }
    ensures reported { IfOk opened (λ reader. JudgesFile R.remaining W.contents options.now
        file.entry reader sink.old sink.new result config.now report form T.may_lack) }
    ensures unopened { IfErr opened (λ error. IsUnopened file.entry (error_kind error)
        (record { status = result.status; skipped = result.skipped; note = result.note })
        × (result.cut_short ≡ None) × IsFalse result.confederation
        × (result.left_out ≡ nothing_left_out) × (result.remarks.items ≡ [])
        × (sink.new ≡ sink.old)) }
{
    let peeked = match opened {
        Ok(reader) => Peeked::new(reader),
        Err(error) => {
            let outcome = unopened(file, error.kind());
            return without_remarks(alloc, outcome, false, LeftOut::nothing());
        }
    };
    if !peeked.is_recording() {
        let judged = judge_opened::<A, T, _, W>(
            alloc,
            config,
            report,
            form,
            file,
            Ok(peeked),
            sink,
        );
        let JudgedCapture {
            outcome,
            confederation,
            left_out,
        } = judged;
        return without_remarks(alloc, outcome, confederation, left_out);
    }
    let mut source = FromRead::new(peeked);
    let failures = sink.failures();
    let judged = judge_recording::<A, T, _, _>(
        alloc,
        config,
        report,
        form,
        options,
        &mut source,
        sink,
    );
    let note = recording_note(judged.status, file, &source, sink, failures);
    FileOutcome {
        status: judged.status,
        cut_short: judged.cut_short,
        skipped: None,
        confederation: false,
        left_out: LeftOut::nothing(),
        remarks: judged.remarks,
        note,
    }
}

/// Decodes a file that a reader gives, if it could be opened: a recording, as
/// [`decode_recording`](crate::decode_recording) does, or else a capture, as
/// [`decode_opened_capture`](bgp_tool::decode_opened_capture) does. Its first four octets tell
/// which it is. A closed pipe is status 5 and not told.
///
/// The reader is asked for few octets at a time: put a buffer before a file.
pub fn decode_file<'a, A: Allocator + Copy, R: Read + Ready + Drop, W: Write>(
    alloc: A,
    options: &SessionOptions,
    recording: &RecordingOptions,
    file: &'a str,
    opened: io::Result<R>,
    sink: &mut FromWrite<W>,
) -> FileOutcome<'a, A>
    requires { (writer_state sink.old).failures < 2 ^ 63 }
    ensures decoded { IfOk opened (λ reader. DecodesFile R.remaining W.contents recording.now
        file.entry reader sink.old sink.new result options.now) }
    ensures unopened { IfErr opened (λ error. IsUnopened file.entry (error_kind error)
        (record { status = result.status; skipped = result.skipped; note = result.note })
        × (result.cut_short ≡ None) × IsFalse result.confederation
        × (result.left_out ≡ nothing_left_out) × (result.remarks.items ≡ [])
        × (sink.new ≡ sink.old)) }
{
    let peeked = match opened {
        Ok(reader) => Peeked::new(reader),
        Err(error) => {
            let outcome = unopened(file, error.kind());
            return without_remarks(alloc, outcome, false, LeftOut::nothing());
        }
    };
    if !peeked.is_recording() {
        let outcome = decode_opened_capture(alloc, options, file, Ok(peeked), sink);
        return without_remarks(alloc, outcome, false, LeftOut::nothing());
    }
    let mut source = FromRead::new(peeked);
    let failures = sink.failures();
    let judged = decode_recording(alloc, options, recording, &mut source, sink);
    let note = recording_note(judged.status, file, &source, sink, failures);
    FileOutcome {
        status: judged.status,
        cut_short: judged.cut_short,
        skipped: None,
        confederation: false,
        left_out: LeftOut::nothing(),
        remarks: judged.remarks,
        note,
    }
}
