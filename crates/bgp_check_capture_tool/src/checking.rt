//! `bgp check` of a capture.

ghost use Rattle.std.specs.Prelude.{◌≡◌, ◌<◌, ◌||◌, [], List, None, Some, is_some, map};
ghost use Rattle.bgp_check_lines.specs.Capture.{no_memory};
ghost use Rattle.bgp_check_lines.specs.Sessions.{fault_text, session_line};
ghost use Rattle.bgp_tool.specs.Front.{no_capture};
ghost use Rattle.bgp_tool.specs.NothingFound.{without_records_by};
ghost use Rattle.bgp_tool.specs.declared.note.CaptureCommand.TheVariants.{Check};
ghost use Rattle.mrt_sessions.specs.File.{Located};
ghost use Rattle.mrt_sessions.specs.Located.{located};
ghost use Rattle.mrt_sessions.specs.Sessions.{HoldsSessions, held_records, records_between};
ghost use Rattle.mrt_sessions.specs.Sessions.{sessions_in};
ghost use Rattle.bgp_check_lines.specs.Lines.{PutsLines};
ghost use Rattle.bgp_check_lines.specs.Tally.{no_tally};
ghost use Rattle.bgp_check_capture_tool.specs.Checking.{ChecksMarked, PutsBlocks, PutsFile};
ghost use Rattle.bgp_check_capture_tool.specs.Checking.{nothing_by, nothing_text};
ghost use Rattle.bgp_check_capture_tool.specs.Firsts.{AreApart};
ghost use Rattle.bgp_check_capture_tool.specs.Putting.{Adds, PutsSession};

use crate::counted::Counted;
use crate::ends::{NO_MEMORY, put_ends, put_heading};
use crate::firsts::NUMBERS;
use crate::marks::StretchMarks;
use crate::nothing::NothingJudged;
use crate::options::CaptureOptions;
use crate::telling::Telling;
use arrayvec::ArrayVec;
use bgp_check_lines::{CheckLines, Tally, put_fault, put_last, put_no_record};
use bgp_judge::Tracker;
use bgp_tool::{CaptureCommand, Note, without_records};
use mrt::{CaptureFault, Sink};
use mrt_sessions::{Addresses, Ending, Held, NamedRecord, Sessions, records_in};
use std::alloc::Allocator;

/// How checking a capture ended.
#[derive(Clone, Drop)]
pub struct CheckedCapture {
    /// The exit status.
    pub status: u8,
    /// The refusals in the lines, of each number the first, in their order: what helps against each
    /// is to be told. None of them is `None`.
    pub refusals: ArrayVec<Option<CaptureFault>, NUMBERS>,
    /// How many sessions the file has.
    pub sessions: usize,
    /// Why the file isn't read to its end, if it isn't.
    pub fault: Option<CaptureFault>,
    /// That no end is judged, of a file that was read to its end.
    pub nothing: Option<NothingJudged>,
}

impl CheckedCapture {
    /// Returns what to say of the file, which begins with these octets, if it has no session: what
    /// it is, as far as that is known ([`without_records`]). Else its refusals and `nothing` are
    /// what there is to say.
    pub fn file_note<'a>(&self, file: &'a str, front: &[u8]) -> Option<Note<'a>>
        ensures some { 0 < self.now.sessions → result ≡ None }
        ensures none { self.now.sessions ≡ 0 → result
            ≡ without_records_by Check file.entry (no_capture front.now) self.now.fault }
    {
        if self.sessions > 0 {
            return None;
        }
        without_records(CaptureCommand::Check, file, front, self.fault)
    }
}

/// Puts why not all records of a session are read, if they aren't, and before it the session's own
/// line, if that isn't put yet.
fn put_end_of<A: Allocator + Copy, W: Sink>(
    lines: &mut CheckLines<'_, A, W>,
    addresses: Addresses,
    named: &[NamedRecord<'_>],
    is_headed: bool,
    fault: Option<CaptureFault>,
)
    ensures { Adds (session_line addresses (map located named.now)) lines.old lines.new is_headed
        (is_headed || is_some fault) (fault_text fault) }
{
    match fault {
        None => {}
        Some(fault) => {
            put_heading(lines, addresses, named, is_headed);
            put_fault(lines, Some(fault));
        }
    }
}

/// Puts what is told of the session that has these records in a file, and counts it.
fn put_one<'a, A: Allocator + Copy, T: Tracker<A>, W: Sink>(
    alloc: A,
    addresses: Addresses,
    named: &[NamedRecord<'a>],
    telling: Telling,
    lines: &mut CheckLines<'_, A, W>,
    counted: &mut Counted,
    marks: &mut StretchMarks<'a, A>,
)
    requires mine { records_between addresses (map located named.now) ≡ map located named.now }
    requires apart { AreApart counted.old.refusals.items }
    ensures puts { PutsSession telling addresses (map located named.now) lines.old lines.new
        counted.old.tally counted.new.tally counted.old.refusals.items
        counted.new.refusals.items marks.old marks.new }
    ensures apart { AreApart counted.new.refusals.items }
{
    put_heading(lines, addresses, named, telling.printing.quiet);
    let tally = counted.tally;
    let (put, fault) = put_ends::<A, T, W>(alloc, addresses, named, telling, lines, tally, marks);
    put_end_of(lines, addresses, named, put.is_headed, fault);
    counted.tally = put.tally;
    counted.add_fault(fault);
}

/// Puts what is told of one of the sessions, and counts it.
fn put_held<'a, A: Allocator + Copy, T: Tracker<A>, W: Sink>(
    alloc: A,
    sessions: &Sessions<'a, A>,
    addresses: Addresses,
    telling: Telling,
    lines: &mut CheckLines<'_, A, W>,
    counted: &mut Counted,
    marks: &mut StretchMarks<'a, A>,
)
    requires mine { records_between addresses (held_records sessions.now addresses)
        ≡ held_records sessions.now addresses }
    requires apart { AreApart counted.old.refusals.items }
    ensures puts { PutsSession telling addresses (held_records sessions.now addresses) lines.old
        lines.new counted.old.tally counted.new.tally counted.old.refusals.items
        counted.new.refusals.items marks.old marks.new }
    ensures apart { AreApart counted.new.refusals.items }
{
    match sessions.records(addresses) {
        Some(records) => {
            put_one::<A, T, W>(alloc, addresses, records, telling, lines, counted, marks);
        }
        None => put_one::<A, T, W>(alloc, addresses, &[], telling, lines, counted, marks),
    }
}

/// Puts what is told of all sessions, in the order of their first records, and answers what is
/// counted of it.
fn put_sessions<'a, A: Allocator + Copy, T: Tracker<A>, W: Sink>(
    alloc: A,
    sessions: &Sessions<'a, A>,
    telling: Telling,
    lines: &mut CheckLines<'_, A, W>,
    marks: &mut StretchMarks<'a, A>,
) -> Counted
    requires { (named : List Located) × HoldsSessions named sessions.now }
    ensures puts { (named : List Located) → HoldsSessions named sessions.now
        → PutsBlocks telling named (sessions_in named) lines.old lines.new no_tally result.tally
        [] result.refusals.items marks.old marks.new }
    ensures apart { AreApart result.refusals.items }
{
    let mut counted = Counted::new();
    for addresses in sessions.in_order() {
        put_held::<A, T, W>(
            alloc,
            sessions,
            *addresses,
            telling,
            lines,
            &mut counted,
            marks,
        );
    }
    counted
}

/// What is put of a file's sessions.
struct PutFile {
    /// What is counted of it.
    counted: Counted,
    /// How many sessions there are.
    sessions: usize,
    /// Why the file isn't read to its end, if it isn't.
    fault: Option<CaptureFault>,
}

impl PutFile {
    /// That there is no memory for a list of the records.
    fn without_memory() -> PutFile
        ensures tally { result.counted.tally ≡ no_tally }
        ensures refusals { result.counted.refusals.items ≡ [] }
        ensures sessions { result.sessions ≡ 0 }
        ensures fault { result.fault ≡ Some no_memory }
    {
        PutFile {
            counted: Counted::new(),
            sessions: 0,
            fault: Some(NO_MEMORY),
        }
    }
}

/// Puts what is told of all sessions whose records these octets have.
fn put_file<'a, A: Allocator + Copy, T: Tracker<A>, W: Sink>(
    alloc: A,
    octets: &'a [u8],
    ending: Ending,
    options: &CaptureOptions,
    lines: &mut CheckLines<'_, A, W>,
    marks: &mut StretchMarks<'a, A>,
) -> PutFile
    ensures puts { PutsFile options.now octets.entry.now ending lines.old lines.new
        result.counted.tally result.counted.refusals.items result.sessions result.fault
        marks.old marks.new }
    ensures apart { AreApart result.counted.refusals.items }
{
    let Ok(file) = records_in(alloc, octets) else {
        return PutFile::without_memory();
    };
    let Ok(sessions) = Sessions::of(alloc, file.records.as_slice()) else {
        return PutFile::without_memory();
    };
    let fault = file.fault(ending);
    let telling = Telling::of(options, file.is_plain, fault);
    let counted = put_sessions::<A, T, W>(alloc, &sessions, telling, lines, marks);
    PutFile {
        counted,
        sessions: sessions.in_order().len(),
        fault,
    }
}

/// Puts that there is no session, where nothing was told.
fn put_nothing<A: Allocator + Copy, W: Sink>(lines: &mut CheckLines<'_, A, W>, tally: Tally)
    ensures { PutsLines lines.old lines.new (nothing_text tally) }
{
    if tally.is_empty() {
        put_no_record(lines);
    }
}

/// That no end is judged, if the file was read to its end.
fn nothing_by(tally: Tally, fault: Option<CaptureFault>) -> Option<NothingJudged>
    ensures { result ≡ nothing_by tally fault }
{
    let is_incomplete = tally.is_incomplete();
    match (tally.has_verdict(), fault) {
        (true, _) | (false, Some(_)) => None,
        (false, None) => Some(NothingJudged { is_incomplete }),
    }
}

/// Checks all sessions in a capture that is held: what
/// [`check_capture_marking`](crate::check_capture_marking) is made of.
pub(crate) fn check_held<'a, A: Allocator + Copy, T: Tracker<A>, W: Sink>(
    alloc: A,
    options: &CaptureOptions,
    held: &'a Held<A>,
    sink: &mut W,
    marks: &mut StretchMarks<'a, A>,
) -> CheckedCapture
    requires { W.failures sink.old < u64.MAX }
    ensures { ChecksMarked W.takes W.failures options.now held.entry.now.octets.items
        held.entry.now.ending sink.old sink.new result.status result.refusals.items
        result.sessions result.fault result.nothing marks.old marks.new }
{
    let mut lines = CheckLines::new(options.form, alloc, sink);
    let PutFile {
        mut counted,
        sessions,
        fault,
    } = put_file::<A, T, W>(
        alloc,
        held.octets.as_slice(),
        held.ending,
        options,
        &mut lines,
        marks,
    );
    put_fault(&mut lines, fault);
    counted.add_fault(fault);
    let Counted { tally, refusals } = counted;
    put_nothing(&mut lines, tally);
    put_last(&mut lines, &tally, options.printing.quiet);
    let status = lines.finish(tally.status());
    // No effect: it ends the loan of the sink.
    lines.into_sink();
    CheckedCapture {
        status: status.code(),
        refusals,
        sessions,
        fault,
        nothing: nothing_by(tally, fault),
    }
}
