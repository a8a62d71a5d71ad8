//! What is told of a session, end by end.

ghost use Rattle.std.specs.Prelude.{◌≡◌, ◌+◌, ◌<◌, ℕ, List, [], true, if◌then◌else◌, map, not};
ghost use Rattle.std.specs.List.{AllByRecursion};
ghost use Rattle.mrt.specs.Reader.{shown_of};
ghost use Rattle.mrt_sessions.specs.Located.{located};
ghost use Rattle.mrt_sessions.specs.Sessions.{records_between};
ghost use Rattle.bgp_check_lines.specs.Lines.{PutsLines};
ghost use Rattle.bgp_check_capture_tool.specs.Counted.{with_ends, with_one};
ghost use Rattle.bgp_check_lines.specs.Tally.{with_unjudged};
ghost use Rattle.bgp_check_lines.specs.Sessions.{session_line};
ghost use Rattle.bgp_check_capture_tool.specs.Ends.{IsSessionTold, Stretch, addresses_of};
ghost use Rattle.bgp_check_capture_tool.specs.Ends.{front_ends, session_of, silent_ends};
ghost use Rattle.bgp_check_capture_tool.specs.Marks.{AddsMarks, end_marks};
ghost use Rattle.bgp_check_capture_tool.specs.Putting.{Adds, Puts, RecordsUpTo, StretchesUpTo};
ghost use Rattle.bgp_check_capture_tool.specs.Putting.{heading_of};
ghost use Rattle.bgp_check_capture_tool.specs.StretchEnd.{stretch_value, view_value};
ghost use Rattle.bgp_check_capture_tool.specs.Text.{ends_text, kept_text};

use crate::cutting::{first_of, first_stretch};
use crate::lines::{put_silent, put_staying, put_stretch};
use crate::marks::StretchMarks;
use crate::stretch_end::{StretchEnd, View, end_of};
use crate::telling::Telling;
use bgp_check::{before_leaving, extended_messages, sends_some};
use bgp_check_lines::{CheckLines, Printing, Tally, is_left_out, put_session};
use bgp_judge::Tracker;
use bgp_prefix::{RouteRefresh, Session};
use mrt::{CaptureFault, FaultKind, Record, Sink};
use mrt_sessions::{Addresses, NamedRecord, read_session};
use std::alloc::Allocator;

/// That there is no memory for what is to be told.
pub(crate) const NO_MEMORY: CaptureFault = CaptureFault {
    kind: FaultKind::Memory,
    offset: 0,
};

/// The session between these addresses, whatever its OPENs offer.
fn session_of(addresses: Addresses) -> Session
    ensures { result ≡ session_of addresses }
{
    Session {
        peer: addresses.peer,
        local: addresses.local,
        refresh: RouteRefresh::NotOffered,
        extended: false,
    }
}

/// The addresses between which a session is.
pub(crate) fn addresses_of(session: &Session) -> Addresses
    ensures { result ≡ addresses_of session.now }
{
    Addresses {
        peer: session.peer,
        local: session.local,
    }
}

/// What was put of a session so far.
#[derive(Clone, Copy)]
pub(crate) struct Put {
    /// What is counted.
    pub(crate) tally: Tally,
    /// The session's own line was put.
    pub(crate) is_headed: bool,
}

impl Put {
    /// Before its ends. Where what is well is left out, its own line isn't put yet.
    fn new(view: &View<'_>, tally: Tally) -> Put
        ensures tally { result.tally ≡ tally }
        ensures is_headed { result.is_headed ≡ not view.now.telling.printing.quiet }
    {
        Put {
            tally,
            is_headed: !view.telling.printing.quiet,
        }
    }

    /// With an end more that isn't judged, for what isn't recorded.
    fn with_unjudged(self) -> Put
        ensures tally { result.tally ≡ with_unjudged self.tally true }
        ensures is_headed { result.is_headed ≡ self.is_headed }
    {
        Put {
            tally: self.tally.with_unjudged(true),
            ..self
        }
    }
}

/// Puts what is told of all records of a session in which no message is sent, if there are some,
/// and counts it.
fn put_all_silent<A: Allocator + Copy, W: Sink>(
    lines: &mut CheckLines<'_, A, W>,
    view: &View<'_>,
    records: &[Record<'_>],
    so_far: Put,
) -> Put
    requires { so_far.is_headed ≡ not view.now.telling.printing.quiet }
    ensures adds { (heading : List ℕ) → Adds heading lines.old lines.new so_far.is_headed
        result.is_headed (ends_text view.now.telling.printing view.now.session.local
        (silent_ends (map shown_of records.now))) }
    ensures tallied { result.tally
        ≡ with_ends so_far.tally (silent_ends (map shown_of records.now)) }
{
    if records.is_empty() {
        return so_far;
    }
    if view.telling.printing.quiet {
        return so_far.with_unjudged();
    }
    put_silent(lines, view.session.local, records.len());
    so_far.with_unjudged()
}

/// Puts what is told of the records before the first that leaves Idle, if there are some, and
/// counts it.
fn put_front<A: Allocator + Copy, W: Sink>(
    lines: &mut CheckLines<'_, A, W>,
    view: &View<'_>,
    records: &[Record<'_>],
    so_far: Put,
) -> Put
    requires { so_far.is_headed ≡ not view.now.telling.printing.quiet }
    ensures adds { (heading : List ℕ) → Adds heading lines.old lines.new so_far.is_headed
        result.is_headed (ends_text view.now.telling.printing view.now.session.local
        (front_ends (map shown_of records.now))) }
    ensures tallied { result.tally
        ≡ with_ends so_far.tally (front_ends (map shown_of records.now)) }
{
    if records.is_empty() {
        return so_far;
    }
    if view.telling.printing.quiet {
        return so_far.with_unjudged();
    }
    put_staying(lines, view.session.local, records.len());
    so_far.with_unjudged()
}

/// Puts the own line of the session between these addresses, which has these records in the file,
/// if it isn't put yet.
pub(crate) fn put_heading<A: Allocator + Copy, W: Sink>(
    lines: &mut CheckLines<'_, A, W>,
    addresses: Addresses,
    named: &[NamedRecord<'_>],
    is_headed: bool,
)
    ensures { PutsLines lines.old lines.new
        (if is_headed then [] else session_line addresses (map located named.now)) }
{
    if is_headed {
        return;
    }
    put_session(lines, addresses, named);
}

/// Puts what is told of a stretch, unless it is left out, and before it the session's own line, if
/// that isn't put yet. Answers whether that is.
fn put_kept<A: Allocator + Copy, W: Sink>(
    lines: &mut CheckLines<'_, A, W>,
    view: &View<'_>,
    end: &StretchEnd<'_, A>,
    is_headed: bool,
) -> bool
    ensures { Adds (heading_of (view_value view.now)) lines.old lines.new is_headed result
        (kept_text view.now.telling.printing view.now.session.local
        (Stretch (stretch_value end.now))) }
{
    let Printing { routes, quiet } = view.telling.printing;
    if is_left_out(quiet, &end.told.answer) {
        is_headed
    } else {
        put_heading(lines, addresses_of(&view.session), view.named, is_headed);
        put_stretch(lines, end, routes);
        true
    }
}

/// Puts what is told of a stretch, unless it is left out, and counts it. What is known of it is
/// added to the marks.
fn put_told<'a, A: Allocator + Copy, W: Sink>(
    alloc: A,
    lines: &mut CheckLines<'_, A, W>,
    view: &View<'_>,
    end: StretchEnd<'a, A>,
    so_far: Put,
    marks: &mut StretchMarks<'a, A>,
) -> Put
    requires { AllByRecursion (λ place. end.part.before + place < usize.MAX)
        end.told.places.items }
    ensures adds { Adds (heading_of (view_value view.now)) lines.old lines.new
        so_far.is_headed result.is_headed (kept_text view.now.telling.printing
        view.now.session.local (Stretch (stretch_value end.entry))) }
    ensures tallied { result.tally ≡ with_one so_far.tally (Stretch (stretch_value end.entry)) }
    ensures marked { AddsMarks marks.old marks.new (end_marks view.now.telling.printing.quiet
        (addresses_of view.now.session) (map located view.now.named.now)
        (Stretch (stretch_value end.entry))) }
{
    let put = Put {
        tally: so_far.tally.with_end(&end.told.answer),
        is_headed: put_kept(lines, view, &end, so_far.is_headed),
    };
    marks.add_end(alloc, view, end);
    put
}

/// Puts what is told of the stretches of these records and of what stands before them, and answers
/// what was put, and whether that is all: it isn't where memory was refused.
fn put_stretches<'a, A: Allocator + Copy, T: Tracker<A>, W: Sink>(
    alloc: A,
    view: &View<'_>,
    records: &[Record<'a>],
    lines: &mut CheckLines<'_, A, W>,
    tally: Tally,
    marks: &mut StretchMarks<'a, A>,
) -> (Put, bool)
    ensures { Puts view.now.telling.printing (addresses_of view.now.session)
        (map located view.now.named.now) lines.old lines.new tally result.0 marks.old marks.new
        (StretchesUpTo (view_value view.now) (map shown_of records.now) result.1) }
{
    let (front, mut rest) = records.split_at(before_leaving(records));
    let mut so_far = put_front(lines, view, front, Put::new(view, tally));
    let mut before = front.len();
    while !rest.is_empty() {
        let (stretch, behind) = first_stretch(rest);
        let leaving = first_of(behind);
        let Ok(end) = end_of::<A, T>(alloc, view, before, stretch, leaving) else {
            return (so_far, false);
        };
        so_far = put_told(alloc, lines, view, end, so_far, marks);
        before = records.len() - behind.len();
        rest = behind;
    }
    (so_far, true)
}

/// Puts what is told of all of these records, and answers what was put, and whether that is all.
fn put_records<'a, A: Allocator + Copy, T: Tracker<A>, W: Sink>(
    alloc: A,
    view: &View<'_>,
    records: &[Record<'a>],
    lines: &mut CheckLines<'_, A, W>,
    tally: Tally,
    marks: &mut StretchMarks<'a, A>,
) -> (Put, bool)
    ensures { Puts view.now.telling.printing (addresses_of view.now.session)
        (map located view.now.named.now) lines.old lines.new tally result.0 marks.old marks.new
        (RecordsUpTo (view_value view.now) (map shown_of records.now) result.1) }
{
    if sends_some(records) {
        put_stretches::<A, T, W>(alloc, view, records, lines, tally, marks)
    } else {
        let put = put_all_silent(lines, view, records, Put::new(view, tally));
        (put, true)
    }
}

/// Puts what is told of the session that has these records in a file, and answers what was put, and
/// why not all of them are read, if they aren't. Its own line is put before, unless what is well is
/// left out.
pub(crate) fn put_ends<'a, A: Allocator + Copy, T: Tracker<A>, W: Sink>(
    alloc: A,
    addresses: Addresses,
    named: &[NamedRecord<'a>],
    telling: Telling,
    lines: &mut CheckLines<'_, A, W>,
    tally: Tally,
    marks: &mut StretchMarks<'a, A>,
) -> (Put, Option<CaptureFault>)
    requires mine { records_between addresses (map located named.now) ≡ map located named.now }
    ensures { Puts telling.printing addresses (map located named.now) lines.old lines.new tally
        result.0 marks.old marks.new
        (λ ends. IsSessionTold telling addresses (map located named.now) ends result.1) }
{
    let extended = extended_messages(named);
    let Ok(read) = read_session(alloc, addresses, extended, named) else {
        let put = Put {
            tally,
            is_headed: !telling.printing.quiet,
        };
        return (put, Some(NO_MEMORY));
    };
    let view = View {
        telling: telling.where_refused(read.fault),
        session: session_of(addresses),
        named,
    };
    let (put, is_all) = put_records::<A, T, W>(alloc, &view, &read.records, lines, tally, marks);
    if is_all {
        (put, read.fault)
    } else {
        (put, Some(NO_MEMORY))
    }
}
