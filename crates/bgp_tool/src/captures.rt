//! `bgp decode --mrt`: the records of one session in a capture (RFC 6396).

ghost use Rattle.std.specs.Prelude.{◌≡◌, ◌<◌, ◌+◌, ◌^◌, ◌⊎◌, [], IsTrue, IsFalse};
ghost use Rattle.bgp_text.specs.Lines.{Writes};
ghost use Rattle.mrt.specs.Reader.{fresh_reader};
ghost use Rattle.bgp_tool.specs.Status.{code_of};
ghost use Rattle.bgp_tool.specs.CaptureDecoding.{DecodesCapture, DecodesWith, Finishes};
ghost use Rattle.bgp_tool.specs.CaptureDecoding.{FinishesLines, PutsLines, failures_in, fault_of};
ghost use Rattle.bgp_tool.specs.CaptureDecoding.{status_by};

use crate::ready::Ready;
use crate::session_options::SessionOptions;
use crate::shown::{Lent, Shown};
use crate::status::Status;
use bgp_json::{OutputForm, OutputTeller, put_capture_refusal};
use bgp_text::Lines;
use mrt::{CaptureFault, FaultKind, Reader, Sink, Source};
use std::alloc::{AllocError, Allocator};

/// Writes the line of each record of the session, to the end of the capture or to its first fault,
/// or until memory is refused for a line. It reads no further once the sink has failed.
fn put_records<S: Source + Ready, W: Sink, A: Allocator + Copy>(
    alloc: A,
    reader: &mut Reader<A>,
    options: &SessionOptions,
    printed: &mut Shown<'_, S, W>,
) -> Result<Result<(), CaptureFault>, AllocError>
    requires fresh { reader.old ≡ fresh_reader }
    requires failures { S.failures printed.old.source < u64.MAX }
    ensures puts { PutsLines S.gives S.has_ended options.now printed.old.source
        printed.new.source printed.old.lines printed.new.lines reader.new result }
    ensures failures { S.failures printed.new.source
        ≡ S.failures printed.old.source + failures_in result }
{
    let session = &options.session;
    let mut teller = OutputTeller::new(options.form);
    let mut number = 0u64;
    loop {
        match reader.next_record(printed, session) {
            Ok(Some(shown)) => {
                number += 1;
                let lines = &mut printed.lines;
                teller.put_record(lines, alloc, session, number, None, &shown)?;
            }
            Ok(None) => return Ok(Ok(())),
            Err(fault) => return Ok(Err(fault)),
        }
        if printed.lines.has_failed() {
            return Ok(Ok(()));
        }
    }
}

/// The exit status of a capture that is refused.
pub(crate) fn status_of(kind: FaultKind) -> Status
    ensures { code_of result ≡ status_by kind }
{
    match kind {
        FaultKind::Device => Status::Device,
        FaultKind::Memory => Status::Memory,
        FaultKind::Truncated
        | FaultKind::TooLong
        | FaultKind::Body
        | FaultKind::BadState
        | FaultKind::NotAMessage
        | FaultKind::TimeBack
        | FaultKind::RouteRefresh
        | FaultKind::AddPath => Status::Refused,
    }
}

/// Tells the fault, if there is one, and hands over the text.
fn finish<W: Sink, A: Allocator>(
    alloc: A,
    form: OutputForm,
    lines: &mut Lines<'_, W>,
    answer: Result<(), CaptureFault>,
) -> Status
    ensures { Finishes form lines.old lines.new answer (code_of result) }
{
    match answer {
        Ok(()) => hand_over(lines, Status::Done),
        Err(fault) => match put_capture_refusal(lines, alloc, form, fault) {
            Ok(()) => hand_over(lines, status_of(fault.kind)),
            Err(AllocError) => hand_over(lines, Status::Memory),
        },
    }
}

/// Tells the fault, if there is one and memory wasn't refused for a line before, and hands over the
/// text.
fn finish_lines<W: Sink, A: Allocator>(
    alloc: A,
    form: OutputForm,
    lines: &mut Lines<'_, W>,
    read: Result<Result<(), CaptureFault>, AllocError>,
) -> Status
    ensures { FinishesLines form lines.old lines.new read (code_of result) }
{
    match read {
        Ok(answer) => finish(alloc, form, lines, answer),
        Err(AllocError) => hand_over(lines, Status::Memory),
    }
}

/// Hands over the text, and answers the status, or that of a device where the sink failed.
pub fn hand_over<W: Sink>(lines: &mut Lines<'_, W>, status: Status) -> Status
    ensures writes { Writes lines.old lines.new [] }
    ensures none { lines.new.held.items ≡ [] }
    ensures told { (IsFalse lines.new.outlet.has_failed × (code_of result ≡ code_of status))
        ⊎ (IsTrue lines.new.outlet.has_failed × (code_of result ≡ 5)) }
{
    match lines.hand_over() {
        Ok(()) => status,
        Err(_) => Status::Device,
    }
}

/// Decodes a capture of one session: writes one line a record of the session, and a last one where
/// the capture is refused.
///
/// In the plain form the lines are those of bgp_text's `specs/Capture.antt`. In words (bgp_lines'
/// `specs/Form.antt`) and in JSON (bgp_json's `specs/Output.antt`) an UPDATE is read by the last
/// OPEN each way before it: AS numbers have two octets if that is asked for, or one of both offers
/// none of four (RFC 6793, 4.1), and prefixes have path identifiers if both offer them (RFC 7911,
/// 5).
///
/// It reads with a reader that has read nothing, which tells afterwards whether it found a record
/// of the session; it takes no memory but the reader's and, in JSON, that of a line. Before a read
/// that may wait, the lines of what came are handed over.
///
/// Answers the exit status:
///
/// * 0: the capture was read to its end. Messages with faults in their headers are no refusal.
/// * 3: the capture is refused; the last line is `capture refused: NUMBER NAME at OFFSET`, or in
///   JSON an object that says so.
/// * 4: the reader's buffer couldn't be made; the last line says so too. Or memory was refused for
///   a line in JSON; the lines before it are written.
/// * 5: a device failed. Where it is the source, the last line says so too, and else a beginning of
///   the text is written.
pub fn decode_capture<R: Source + Ready, W: Sink, A: Allocator + Copy>(
    alloc: A,
    reader: &mut Reader<A>,
    options: &SessionOptions,
    source: &mut R,
    sink: &mut W,
) -> u8
    requires fresh { reader.old ≡ fresh_reader }
    requires source { R.failures source.old < 2 ^ 63 }
    requires sink { W.failures sink.old < 2 ^ 63 }
    ensures { DecodesCapture R.gives R.has_ended W.takes R.failures W.failures options.now
        source.old source.new sink.old sink.new reader.new result }
{
    let lent = Lent::new(source);
    let Decoded {
        source,
        status,
        refused: _,
    } = decode_with(alloc, reader, options, lent, sink);
    // No effect: it ends the loan of the source.
    source.into_source();
    status
}

/// How decoding a capture ended.
pub(crate) struct Decoded<S> {
    /// The source, as the last read left it.
    pub(crate) source: S,
    /// The exit status.
    pub(crate) status: u8,
    /// Why the capture is refused, if it is.
    pub(crate) refused: Option<CaptureFault>,
}

/// Decodes a capture of one session, and says besides the status why the capture is refused.
pub(crate) fn decode_with<S: Source + Ready, W: Sink, A: Allocator + Copy>(
    alloc: A,
    reader: &mut Reader<A>,
    options: &SessionOptions,
    source: S,
    sink: &mut W,
) -> Decoded<S>
    requires fresh { reader.old ≡ fresh_reader }
    requires source { S.failures source < 2 ^ 63 }
    requires sink { W.failures sink.old < 2 ^ 63 }
    ensures { DecodesWith S.gives S.has_ended W.takes S.failures W.failures options.now
        source result.source sink.old sink.new reader.new result.status result.refused }
{
    let lines = Lines::new(sink);
    let mut printed = Shown { source, lines };
    let read = put_records(alloc, reader, options, &mut printed);
    let status = finish_lines(alloc, options.form, &mut printed.lines, read).code();
    let Shown { source, lines } = printed;
    // No effect: it ends the loan of the sink.
    lines.into_sink();
    Decoded {
        source,
        status,
        refused: refused_by(&read),
    }
}

/// Why a capture is refused of which this was read, if it is.
fn refused_by(read: &Result<Result<(), CaptureFault>, AllocError>) -> Option<CaptureFault>
    ensures { result ≡ fault_of read.now }
{
    match read {
        Ok(Err(fault)) => Some(*fault),
        Ok(Ok(())) | Err(AllocError) => None,
    }
}
