//! The line of the impossible record.

ghost use Rattle.std.specs.Prelude.{◌≡◌, ◌<◌, ◌++◌, ℕ, List, Option, IfOk, OnOk};
ghost use Rattle.mrt.specs.Reader.{shown_of};
ghost use Rattle.mrt.specs.Written.{IsAllowed};
ghost use Rattle.bgp_why.specs.Deed.{IsDeed, cause_text, form_on, peer_of, record_line};
ghost use Rattle.bgp_json_verdicts.specs.Telling.{TellsText};
ghost use Rattle.bgp_verdict_lines.specs.Lines.{PutsLines};

use crate::teller::VerdictTeller;
use crate::verdict_lines::VerdictLines;
use bgp_json_verdicts::{ReasonLine, Telling, VerdictLine};
use bgp_open::{Link, RouteForm};
use bgp_prefix::Session;
use bgp_reason::Possible;
use bgp_text::Lines;
use bgp_why::{Endpoint, Lacks, Place, Style, put_cause, put_deed};
use mrt::{Failed, MemSink, Record, Sink};
use std::alloc::{AllocError, Allocator};

/// Returns how the routes of a record are spelled, if this link is settled: in the form of the
/// record's direction.
fn form_on(link: Option<Link>, shown: &Record<'_>) -> RouteForm
    ensures { result ≡ form_on link (shown_of shown.now) }
{
    let Some(link) = link else {
        return RouteForm::PLAIN;
    };
    match *shown {
        Record::In(_, _) => link.received,
        Record::Out(_, _) => link.sent,
        Record::Change(_, _, _) => RouteForm::PLAIN,
    }
}

/// Returns the peer of a session, whose port isn't known.
fn peer_of(session: &Session) -> Endpoint
    ensures { result ≡ peer_of session.now }
{
    Endpoint {
        address: session.peer,
        port: None,
    }
}

/// Writes what a record that a capture of the session may have shows was done, and what is wrong
/// with it.
fn write_deed<W: Sink, A: Allocator>(
    sink: &mut W,
    style: &Style,
    session: &Session,
    form: RouteForm,
    shown: &Record<'_>,
    possible: &Possible,
    lacks: &Lacks<'_, A>,
) -> Result<(), Failed>
    requires failures { W.failures sink.old < u64.MAX }
    requires can { (last : Option ℕ) × IsAllowed session.now last (shown_of shown.now) }
    ensures { (deed : List ℕ)
        × IsDeed session.now (peer_of session.now) form (shown_of shown.now) deed
        × OnOk result (W.takes sink.old sink.new
        (deed ++ cause_text style.now.own_faults possible.now lacks.now)) }
{
    let mut lines = Lines::new(sink);
    put_deed(&mut lines, session, &peer_of(session), form, shown);
    put_cause(&mut lines, style, possible, lacks);
    let handed_over = lines.hand_over();
    // No effect: it ends the loan of the sink.
    lines.into_sink();
    handed_over
}

/// Returns what a record that a capture of the session may have shows was done, and what is wrong
/// with it.
fn deed_text<A: Allocator, B: Allocator>(
    alloc: A,
    style: &Style,
    session: &Session,
    form: RouteForm,
    shown: &Record<'_>,
    possible: &Possible,
    lacks: &Lacks<'_, B>,
) -> Result<Vec<u8, A>, AllocError>
    requires { (last : Option ℕ) × IsAllowed session.now last (shown_of shown.now) }
    ensures { (deed : List ℕ)
        × IsDeed session.now (peer_of session.now) form (shown_of shown.now) deed
        × IfOk result (λ text. text.items
        ≡ deed ++ cause_text style.now.own_faults possible.now lacks.now) }
{
    let mut sink = MemSink::new(alloc);
    match write_deed(&mut sink, style, session, form, shown, possible, lacks) {
        Ok(()) => Ok(sink.into_octets()),
        Err(Failed) => Err(AllocError),
    }
}

/// Puts the object of the impossible record, whose line says this.
fn tell_record<A: Allocator + Copy, W: Sink>(
    telling: &mut Telling,
    lines: &mut Lines<'_, W>,
    alloc: A,
    place: &Place,
    session: &Session,
    text: Result<Vec<u8, A>, AllocError>,
)
    ensures { (deed cause : List ℕ) → IfOk text (λ is. is.items ≡ deed ++ cause)
        → TellsText telling.old telling.new lines.old lines.new
        (record_line place.now session.now.local deed cause) }
{
    match text {
        Ok(text) => {
            let reason = ReasonLine::Record(*place, session.local, text.as_slice());
            telling.put(lines, alloc, &VerdictLine::Reason(reason));
        }
        Err(AllocError) => telling.fail(),
    }
}

/// Puts the line of the record at which a no stands: `record 6, 1970-01-01 00:01:41 UTC: 192.0.2.1
/// received KEEPALIVE from 192.0.2.2, but KEEPALIVE was due first`. The record is one that a
/// capture of the session may have. If a link is settled, it says how the routes of an UPDATE are
/// spelled.
pub fn put_record_line<A: Allocator + Copy, B: Allocator, W: Sink>(
    lines: &mut VerdictLines<'_, A, W>,
    style: &Style,
    place: &Place,
    session: &Session,
    link: Option<Link>,
    shown: &Record<'_>,
    possible: &Possible,
    lacks: &Lacks<'_, B>,
)
    requires { (last : Option ℕ) × IsAllowed session.now last (shown_of shown.now) }
    ensures { (deed : List ℕ)
        × IsDeed session.now (peer_of session.now) (form_on link (shown_of shown.now))
        (shown_of shown.now) deed
        × PutsLines lines.old lines.new (record_line place.now session.now.local deed
        (cause_text style.now.own_faults possible.now lacks.now)) }
{
    match &mut lines.teller {
        VerdictTeller::Text => bgp_why::put_record_line(
            &mut lines.lines,
            style,
            place,
            session,
            link,
            shown,
            possible,
            lacks,
        ),
        VerdictTeller::Json(telling) => {
            let (alloc, form) = (lines.alloc, form_on(link, shown));
            let text = deed_text(alloc, style, session, form, shown, possible, lacks);
            tell_record(telling, &mut lines.lines, alloc, place, session, text);
        }
    }
}
