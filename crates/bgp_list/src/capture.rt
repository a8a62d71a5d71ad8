//! `bgp list` of a capture.

ghost use Rattle.std.specs.Prelude.{◌≡◌, ◌<◌, List, None, ℕ};
ghost use Rattle.bgp_text.specs.Lines.{Writes};
ghost use Rattle.bgp_tool.specs.CaptureDecoding.{status_by};
ghost use Rattle.bgp_tool.specs.Front.{no_capture};
ghost use Rattle.bgp_tool.specs.NothingFound.{without_records_by};
ghost use Rattle.bgp_tool.specs.Status.{code_of};
ghost use Rattle.bgp_tool.specs.declared.note.CaptureCommand.TheVariants.{List as ListCommand};
ghost use Rattle.mrt_sessions.specs.File.{Located};
ghost use Rattle.mrt_sessions.specs.Sessions.{HoldsSessions, held_records};
ghost use Rattle.bgp_list.specs.Capture.{Lists, ListsCapture, PutsSessions, status_of};
ghost use Rattle.bgp_list.specs.Forms.{IsFaultInForm, IsInForm, fault_in, stopped_in};
ghost use Rattle.bgp_list.specs.Sessions.{fault_text, refused_text, session_line};
ghost use Rattle.bgp_list.specs.Sessions.{sessions_text};

use crate::cause::capture_cause;
use crate::form::ListForm;
use crate::json_text::objects_of_sessions;
use crate::refusal_json::put_fault_json;
use crate::session::put_session;
use bgp_text::Lines;
use bgp_tool::{CaptureCommand, Note, Status, hand_over, without_records};
use mrt::{CaptureFault, FaultKind, Sink, Source};
use mrt_sessions::{Addresses, Ending, Sessions, hold, records_in};
use std::alloc::{AllocError, Allocator};

/// How listing a capture ended.
#[derive(Clone, Copy, Debug)]
pub struct ListedCapture {
    /// The exit status.
    pub status: u8,
    /// How many sessions are listed.
    pub sessions: usize,
    /// Why the file isn't read to its end, if it isn't.
    pub fault: Option<CaptureFault>,
}

impl ListedCapture {
    /// Returns what to say of the file, which begins with these octets, if no session is listed:
    /// what it is, as far as that is known ([`without_records`]). Else its fault is what there is to
    /// say.
    pub fn file_note<'a>(&self, file: &'a str, front: &[u8]) -> Option<Note<'a>>
        ensures some { 0 < self.now.sessions → result ≡ None }
        ensures none { self.now.sessions ≡ 0 → result
            ≡ without_records_by ListCommand file.entry (no_capture front.now) self.now.fault }
    {
        if self.sessions > 0 {
            return None;
        }
        without_records(CaptureCommand::List, file, front, self.fault)
    }
}

/// That there is no memory for a list of the records.
const NO_MEMORY: CaptureFault = CaptureFault {
    kind: FaultKind::Memory,
    offset: 0,
};

/// The line of one of the sessions.
fn put_held<W: Sink, A: Allocator + Copy>(
    lines: &mut Lines<'_, W>,
    sessions: &Sessions<'_, A>,
    addresses: Addresses,
)
    ensures { Writes lines.old lines.new
        (session_line addresses (held_records sessions.now addresses)) }
{
    match sessions.records(addresses) {
        Some(records) => put_session(lines, addresses, records),
        None => put_session(lines, addresses, &[]),
    }
}

/// The lines of all sessions as text, in the order of their first records.
fn put_sessions<W: Sink, A: Allocator + Copy>(lines: &mut Lines<'_, W>, sessions: &Sessions<'_, A>)
    ensures { (named : List Located) → HoldsSessions named sessions.now
        → Writes lines.old lines.new (sessions_text named) }
{
    for addresses in sessions.in_order() {
        put_held(lines, sessions, *addresses);
    }
}

/// The lines of all sessions as JSON, or none where there is no memory for all of them.
fn put_session_objects<W: Sink, A: Allocator + Copy>(
    alloc: A,
    lines: &mut Lines<'_, W>,
    sessions: &Sessions<'_, A>,
) -> Result<(), AllocError>
    ensures { (named : List Located) → HoldsSessions named sessions.now
        → PutsSessions result ListForm.Json lines.old lines.new named }
{
    match objects_of_sessions(alloc, sessions) {
        Ok(text) => {
            lines.put(text.as_slice());
            Ok(())
        }
        Err(fault) => Err(fault),
    }
}

/// The lines of all sessions, or none where there is no memory for all of them.
fn put_in_form<W: Sink, A: Allocator + Copy>(
    alloc: A,
    lines: &mut Lines<'_, W>,
    form: ListForm,
    sessions: &Sessions<'_, A>,
) -> Result<(), AllocError>
    ensures { (named : List Located) → HoldsSessions named sessions.now
        → PutsSessions result form lines.old lines.new named }
{
    match form {
        ListForm::Text => {
            put_sessions(lines, sessions);
            Ok(())
        }
        ListForm::Json => put_session_objects(alloc, lines, sessions),
    }
}

/// Puts the lines of all sessions whose records these octets have. Returns how many there are, and
/// why the file isn't read to its end, if it isn't.
fn put_listed<W: Sink, A: Allocator + Copy>(
    alloc: A,
    form: ListForm,
    octets: &[u8],
    ending: Ending,
    lines: &mut Lines<'_, W>,
) -> (usize, Option<CaptureFault>)
    ensures { (text : List ℕ) × Writes lines.old lines.new text
        × Lists form octets.now ending text result.0 result.1 }
{
    let Ok(file) = records_in(alloc, octets) else {
        lines.put(b"");
        return (0, Some(NO_MEMORY));
    };
    let Ok(sessions) = Sessions::of(alloc, file.records.as_slice()) else {
        lines.put(b"");
        return (0, Some(NO_MEMORY));
    };
    let Ok(()) = put_in_form(alloc, lines, form, &sessions) else {
        return (0, Some(NO_MEMORY));
    };
    (sessions.in_order().len(), file.fault(ending))
}

/// Puts the line of what is refused in a capture.
fn put_refused<W: Sink>(lines: &mut Lines<'_, W>, fault: CaptureFault)
    ensures { Writes lines.old lines.new (refused_text fault) }
{
    lines.put(b"refused at octet ");
    lines.put_decimal(fault.offset);
    lines.put(b": ");
    lines.put_decimal(fault.kind.number());
    lines.put(b" ");
    lines.put(fault.kind.name().as_bytes());
    lines.put(b", ");
    lines.put(capture_cause(fault.kind).as_bytes());
    lines.put(b"\n");
}

/// Puts why a capture isn't read to its end, if it isn't:
/// `refused at octet 408: 8 AddPath, ADD-PATH (RFC 8050), which is not read`.
pub fn put_fault<W: Sink>(lines: &mut Lines<'_, W>, fault: Option<CaptureFault>)
    ensures { Writes lines.old lines.new (fault_text fault) }
{
    match fault {
        Some(fault) => put_refused(lines, fault),
        None => lines.put(b""),
    }
}

/// Puts why a capture isn't read to its end.
fn put_stopped<W: Sink>(lines: &mut Lines<'_, W>, form: ListForm, fault: CaptureFault)
    ensures wrote { Writes lines.old lines.new (stopped_in form fault) }
    ensures in_form { IsInForm form (stopped_in form fault) }
{
    match form {
        ListForm::Text => put_refused(lines, fault),
        ListForm::Json => put_fault_json(lines, fault),
    }
}

/// Puts why a capture isn't read to its end, if it isn't.
fn put_fault_in<W: Sink>(lines: &mut Lines<'_, W>, form: ListForm, fault: Option<CaptureFault>)
    ensures wrote { Writes lines.old lines.new (fault_in form fault) }
    ensures in_form { IsFaultInForm form fault }
{
    match fault {
        Some(fault) => put_stopped(lines, form, fault),
        None => lines.put(b""),
    }
}

/// The exit status of a file that isn't read on for this.
pub fn fault_status(kind: FaultKind) -> Status
    ensures { code_of result ≡ status_by kind }
{
    match kind {
        FaultKind::Device => Status::Device,
        FaultKind::Memory => Status::Memory,
        FaultKind::Truncated
        | FaultKind::TooLong
        | FaultKind::Body
        | FaultKind::BadState
        | FaultKind::NotAMessage
        | FaultKind::TimeBack
        | FaultKind::RouteRefresh
        | FaultKind::AddPath => Status::Refused,
    }
}

fn status_of(fault: Option<CaptureFault>) -> Status
    ensures { code_of result ≡ status_of fault }
{
    match fault {
        Some(fault) => fault_status(fault.kind),
        None => Status::Done,
    }
}

/// Writes a line in this form for each session in a capture, in the order of their first records,
/// and last, where the file can't be read to its end, why:
/// `refused at octet N: NUMBER NAME, CAUSE`. It answers the exit status:
///
/// * 0: the file was read to its end.
/// * 3: it is refused.
/// * 4: memory was refused.
/// * 5: a device failed.
///
/// The file is held whole.
pub fn list_capture<A: Allocator + Copy, R: Source, W: Sink>(
    alloc: A,
    form: ListForm,
    source: &mut R,
    sink: &mut W,
) -> ListedCapture
    requires source { R.failures source.old < u64.MAX }
    requires sink { W.failures sink.old < u64.MAX }
    ensures { ListsCapture R.gives R.has_ended W.takes R.failures W.failures form
        source.old source.new sink.old sink.new result.status result.sessions result.fault }
{
    let held = hold(alloc, source);
    let mut lines = Lines::new(sink);
    let octets = held.octets.as_slice();
    let (sessions, fault) = put_listed(alloc, form, octets, held.ending, &mut lines);
    put_fault_in(&mut lines, form, fault);
    let status = hand_over(&mut lines, status_of(fault));
    // No effect: it ends the loan of the sink.
    lines.into_sink();
    ListedCapture {
        status: status.code(),
        sessions,
        fault,
    }
}
