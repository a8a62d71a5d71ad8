//! `bgp decode --mrt` of a recording.

ghost use Rattle.std.specs.Prelude.{◌≡◌, ◌<◌, ◌^◌, ℕ, Bool, List, None, IfOk, length, reverse};
ghost use Rattle.std.specs.List.{AllByRecursion};
ghost use Rattle.bgp_text.specs.Lines.{Writes};
ghost use Rattle.bgp_json.specs.declared.output_form.OutputForm.TheVariants.{Json};
ghost use Rattle.bgp_tool.specs.Answer.{IsWritten};
ghost use Rattle.bgp_import.specs.Gathers.{HoldsSession, cut_short_by};
ghost use Rattle.bgp_import.specs.Making.{HoldsTaken};
ghost use Rattle.bgp_import.specs.Selecting.{AreTaken};
ghost use Rattle.packets.specs.Packet.{Recorded};
ghost use Rattle.streams.specs.Passed.{Segment};
ghost use Rattle.bgp_recording_tool.specs.Decoding.{AreLinesWith, DecodesOne};
ghost use Rattle.bgp_recording_tool.specs.Decoding.{DecodesRecording, HasLine, IsRefusalWith};
ghost use Rattle.bgp_recording_tool.specs.Decoding.{WritesRefusal, direction_from, octet_of};
ghost use Rattle.bgp_tool.specs.Status.{code_of};
ghost use Rattle.bgp_recording_tool.specs.Options.{IsOneFamily};
ghost use Rattle.bgp_recording_tool.specs.Remarks.{IsHelp, making_remarks, notes_of, some_of};

use crate::judging::{Judged, misfit, status_of};
use crate::options::{import_of, misfit_of};
use crate::remark::{Remark, add_help, add_remarks};
use crate::remarking::making_remarks;
use bgp_import::{
    CutShort, Gathered, Import, RecordingOptions, Refusal, gather, put_refusal, records_of,
};
use bgp_json::{OutputForm, OutputTeller, put_json_recording_refusal};
use bgp_prefix::{RouteRefresh, Session};
use bgp_recording::{Entry, Recording};
use bgp_text::Lines;
use bgp_tool::{SessionOptions, Status, hand_over};
use bgp_values::Direction;
use mrt::{Sink, Source};
use std::alloc::{AllocError, Allocator};
use streams::{Fault, Side};

/// Puts the line of each entry's record, in this form, and returns the exit status.
fn put_entries<A: Allocator + Copy, W: Sink>(
    lines: &mut Lines<'_, W>,
    alloc: A,
    session: &Session,
    form: OutputForm,
    entries: &[Entry<'_>],
) -> Status
    requires { AllByRecursion (HasLine session.now) entries.now }
    ensures { (text : List ℕ) × AreLinesWith form session.now entries.now text (code_of result)
        × Writes lines.old lines.new text }
{
    // A ROUTE-REFRESH has a line, too: its header is a faulty one.
    let calm = Session {
        refresh: RouteRefresh::NotOffered,
        ..*session
    };
    let mut teller = OutputTeller::new(form);
    let mut number = 0u64;
    for entry in entries {
        number += 1;
        let packet = Some(entry.packet);
        match teller.put_record(lines, alloc, &calm, number, packet, &entry.record) {
            Ok(()) => {}
            Err(AllocError) => return Status::Memory,
        }
    }
    Status::Done
}

/// Writes the line of each entry's record, in this form, and answers the exit status.
fn write_entries<A: Allocator + Copy, W: Sink>(
    sink: &mut W,
    alloc: A,
    session: &Session,
    form: OutputForm,
    entries: &[Entry<'_>],
) -> u8
    requires sink { W.failures sink.old < 2 ^ 63 }
    requires lines { AllByRecursion (HasLine session.now) entries.now }
    ensures { (text : List ℕ) × ((code : ℕ)
        × AreLinesWith form session.now entries.now text code
        × IsWritten W.takes W.failures text code sink.old sink.new result) }
{
    let mut lines = Lines::new(sink);
    let put = put_entries(&mut lines, alloc, session, form, entries);
    let status = hand_over(&mut lines, put);
    // No effect: it ends the loan of the sink.
    lines.into_sink();
    status.code()
}

/// Returns which way the octets went of the stream that this system sends.
fn direction_from(from: Side) -> Direction
    ensures { result ≡ direction_from from }
{
    match from {
        Side::Local => Direction::Sent,
        Side::Peer => Direction::Received,
    }
}

/// Returns the octet that a refusal names, if it names one.
fn octet_of(refusal: Refusal) -> Option<(Direction, u64)>
    ensures { result ≡ octet_of refusal }
{
    match refusal {
        Refusal::Connection(
            Fault::Conflict { from, place, .. }
            | Fault::Missing { from, place, .. }
            | Fault::AfterReset { from, place, .. },
        )
        | Refusal::RouteRefresh { from, place, .. } => Some((direction_from(from), place)),
        _ => None,
    }
}

/// Puts the line of a refusal, in this form, and returns the exit status.
fn put_refused<A: Allocator + Copy, W: Sink>(
    lines: &mut Lines<'_, W>,
    alloc: A,
    form: OutputForm,
    refusal: Refusal,
) -> Status
    ensures { (text : List ℕ) × IsRefusalWith form refusal text (code_of result)
        × Writes lines.old lines.new text }
{
    match form {
        OutputForm::Text(_) => {
            put_refusal(lines, refusal);
            status_of(refusal)
        }
        OutputForm::Json { .. } => put_json_refused(lines, alloc, refusal),
    }
}

/// Puts the object of a refusal, and returns the exit status.
fn put_json_refused<A: Allocator + Copy, W: Sink>(
    lines: &mut Lines<'_, W>,
    alloc: A,
    refusal: Refusal,
) -> Status
    ensures { (as2 : Bool) → (text : List ℕ)
        × IsRefusalWith (Json as2) refusal text (code_of result)
        × Writes lines.old lines.new text }
{
    let (number, name, packet) = (refusal.number(), refusal.name(), refusal.packet());
    let octet = octet_of(refusal);
    match put_json_recording_refusal(lines, alloc, number, name, packet, octet) {
        Ok(()) => status_of(refusal),
        Err(AllocError) => Status::Memory,
    }
}

/// Writes the line of a refusal, in this form, and answers the exit status.
fn write_refusal<A: Allocator + Copy, W: Sink>(
    sink: &mut W,
    alloc: A,
    form: OutputForm,
    refusal: Refusal,
) -> u8
    requires { W.failures sink.old < 2 ^ 63 }
    ensures { WritesRefusal W.takes W.failures form refusal sink.old sink.new result }
{
    let mut lines = Lines::new(sink);
    let put = put_refused(&mut lines, alloc, form, refusal);
    let status = hand_over(&mut lines, put);
    // No effect: it ends the loan of the sink.
    lines.into_sink();
    status.code()
}

/// How decoding a recording ends that is refused.
fn refused<A: Allocator + Copy, W: Sink>(
    alloc: A,
    form: OutputForm,
    sink: &mut W,
    refusal: Refusal,
    cut_short: Option<CutShort>,
) -> Judged<A>
    requires { W.failures sink.old < 2 ^ 63 }
    ensures written { WritesRefusal W.takes W.failures form refusal sink.old sink.new
        result.status }
    ensures helps { IsHelp None refusal result.remarks.items }
    ensures cut { result.cut_short ≡ cut_short }
{
    let mut remarks = Vec::new(alloc);
    add_help(&mut remarks, None, refusal);
    Judged {
        status: write_refusal(sink, alloc, form, refusal),
        cut_short,
        remarks,
    }
}

/// What there is to tell of how the records were made.
fn made_remarks<A: Allocator + Copy>(
    alloc: A,
    made: &Recording<'_, A>,
) -> Result<Vec<Remark, A>, AllocError>
    ensures { IfOk result (λ remarks.
        remarks.items ≡ some_of (making_remarks None (notes_of made.now))) }
{
    let mut remarks = Vec::new(alloc);
    add_remarks(&mut remarks, &making_remarks(None, made))?;
    Ok(remarks)
}

/// Decodes the records of the connection that is named, or of the only one, in this form.
fn decode_gathered<A: Allocator + Copy, W: Sink>(
    alloc: A,
    form: OutputForm,
    import: &Import,
    gathered: &Gathered<A>,
    sink: &mut W,
) -> Judged<A>
    requires sink { W.failures sink.old < 2 ^ 63 }
    requires family { IsOneFamily import.now.selection.session }
    requires holds { HoldsTaken import.now.selection gathered.now }
    ensures { (packets : List Recorded) (segments : List Segment)
        → AreTaken import.now.selection 0 packets segments
        → HoldsSession (reverse segments) (length packets) gathered.now
        → DecodesOne W.takes W.failures form import.now packets segments sink.old
        sink.new result.status result.remarks.items
        × (result.cut_short ≡ cut_short_by gathered.now.is_cut_short (length packets)) }
{
    let cut_short = gathered.cut_short();
    let made = match records_of(alloc, import, gathered, import.connection) {
        Ok(made) => made,
        Err(refusal) => return refused(alloc, form, sink, refusal, cut_short),
    };
    let remarks = match made_remarks(alloc, &made) {
        Ok(remarks) => remarks,
        Err(AllocError) => return refused(alloc, form, sink, gathered.no_memory(), cut_short),
    };
    let entries = made.entries.as_slice();
    Judged {
        status: write_entries(sink, alloc, &import.selection.session, form, entries),
        cut_short,
        remarks,
    }
}

/// Decodes the records that are made of one connection of a recording that a source gives: the one
/// that is named, or the only one. It writes one line a record, as
/// [`decode_capture`](bgp_tool::decode_capture) does, or `recording refused: NUMBER NAME at packet
/// N`. In words and in JSON a line names the packet that shows the record, too, and in JSON a
/// refusal is an object.
///
/// Answers the exit status: 0, or that of the refusal: 3, 4 for memory and 5 for a device, which
/// may be the sink. If memory is refused for a line in JSON, it writes the lines before it, and the
/// status is 4. It is 64 where no recording can be meant, as of
/// [`judge_recording`](crate::judge_recording).
pub fn decode_recording<A: Allocator + Copy, R: Source, W: Sink>(
    alloc: A,
    options: &SessionOptions,
    recording: &RecordingOptions,
    source: &mut R,
    sink: &mut W,
) -> Judged<A>
    requires source { R.failures source.old < 2 ^ 63 }
    requires sink { W.failures sink.old < 2 ^ 63 }
    ensures { DecodesRecording R.gives R.has_ended W.takes R.failures W.failures options.now
        recording.now source.old source.new sink.old sink.new result }
{
    let import = import_of(&options.session, recording);
    if let Some(remark) = misfit_of(&import) {
        return misfit(alloc, remark);
    }
    match gather(alloc, &import.selection, source) {
        Ok(gathered) => decode_gathered(alloc, options.form, &import, &gathered, sink),
        Err(refusal) => refused(alloc, options.form, sink, refusal, None),
    }
}
