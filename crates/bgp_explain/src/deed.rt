//! What the first impossible record shows was done, and what is wrong with it: the first line of a
//! no.

ghost use Rattle.std.specs.Prelude.{◌≡◌, ℕ, List, Option};
ghost use Rattle.mrt.specs.Reader.{shown_of};
ghost use Rattle.mrt.specs.Written.{IsAllowed};
ghost use Rattle.bgp_text.specs.Lines.{Writes};
ghost use Rattle.bgp_why.specs.Deed.{form_on, peer_of};
ghost use Rattle.bgp_verdict_lines.specs.Lines.{PutsLines};
ghost use Rattle.bgp_explain.specs.Deed.{IsDeedOn, IsDeedText, IsFirstLine, line_of};
ghost use Rattle.bgp_explain.specs.Details.{next_in};
ghost use Rattle.bgp_explain.specs.Kept.{shown_by};
ghost use Rattle.bgp_explain.specs.Lacked.{lacked_cause, lacked_of};
ghost use Rattle.bgp_explain.specs.Places.{places_of};
ghost use Rattle.bgp_explain.specs.Text.{CanBePut};

use crate::explained::{Impossible, Reason};
use crate::moments::second_in;
use crate::places::{Places, place_of};
use bgp_open::{Link, RouteForm};
use bgp_prefix::Session;
use bgp_reason::Possible;
use bgp_text::Lines;
use bgp_verdict_lines::{VerdictLines, put_record_line};
use bgp_why::{Endpoint, Lacks, Style, put_cause, put_deed};
use mrt::{Record, Sink};
use std::alloc::Allocator;

/// Returns how the routes of a record are spelled, if this link is settled: in the form of the
/// record's direction.
fn form_on(link: Option<Link>, shown: &Record<'_>) -> RouteForm
    ensures { result ≡ form_on link (shown_of shown.now) }
{
    let Some(link) = link else {
        return RouteForm::PLAIN;
    };
    match *shown {
        Record::In(_, _) => link.received,
        Record::Out(_, _) => link.sent,
        Record::Change(_, _, _) => RouteForm::PLAIN,
    }
}

/// Puts what a record that a capture of the session may have shows was done.
fn put_deed_on<W: Sink>(
    lines: &mut Lines<'_, W>,
    session: &Session,
    peer: &Endpoint,
    link: Option<Link>,
    shown: &Record<'_>,
)
    requires { (last : Option ℕ) × IsAllowed session.now last (shown_of shown.now) }
    ensures { (deed : List ℕ)
        × IsDeedOn session.now peer.now link (shown_of shown.now) deed
        × Writes lines.old lines.new deed }
{
    put_deed(lines, session, peer, form_on(link, shown), shown);
}

/// Puts what is wrong with a record that lacks this.
fn put_lacked_cause<W: Sink, A: Allocator>(
    lines: &mut Lines<'_, W>,
    style: &Style,
    possible: &Possible,
    lacks: &Lacks<'_, A>,
)
    ensures { Writes lines.old lines.new
        (lacked_cause style.now.own_faults possible.now (lacked_of lacks.now)) }
{
    put_cause(lines, style, possible, lacks);
}

/// Puts what the first impossible record shows was done, and what is wrong with it, if there is
/// one.
pub(crate) fn put_deed_text<W: Sink, A: Allocator + Copy, B: Allocator>(
    lines: &mut Lines<'_, W>,
    style: &Style,
    session: &Session,
    peer: &Endpoint,
    reason: &Reason<A>,
    lacks: &Lacks<'_, B>,
)
    requires { CanBePut session.now reason.now.impossible }
    ensures { (text : List ℕ) × IsDeedText style.now session.now peer.now reason.now.link
        reason.now.possible (lacked_of lacks.now) (next_in reason.now.impossible) text
        × Writes lines.old lines.new text }
{
    match &reason.impossible {
        None => lines.put(b""),
        Some(impossible) => {
            let shown = impossible.record.as_record();
            put_deed_on(lines, session, peer, reason.link, &shown);
            put_lacked_cause(lines, style, &reason.possible, lacks);
        }
    }
}

/// Puts the line of an impossible record that stands at these places.
fn put_line_of<W: Sink, A: Allocator + Copy, B: Allocator>(
    lines: &mut VerdictLines<'_, A, W>,
    style: &Style,
    session: &Session,
    places: Places<'_>,
    link: Option<Link>,
    possible: &Possible,
    lacks: &Lacks<'_, B>,
    impossible: &Impossible<A>,
)
    requires { (last : Option ℕ)
        × IsAllowed session.now last (shown_by impossible.now.«record») }
    ensures { (deed : List ℕ)
        × IsDeedOn session.now (peer_of session.now) link (shown_by impossible.now.«record») deed
        × PutsLines lines.old lines.new (line_of style.now session.now (places_of places.entry)
        possible.now (lacked_of lacks.now) impossible.now.number
        (shown_by impossible.now.«record») deed) }
{
    let shown = impossible.record.as_record();
    let place = place_of(places, impossible.number, second_in(&shown));
    put_record_line(lines, style, &place, session, link, &shown, possible, lacks);
}

/// Puts the line of the first impossible record, if there is one.
pub(crate) fn put_first_line<W: Sink, A: Allocator + Copy, B: Allocator>(
    lines: &mut VerdictLines<'_, A, W>,
    style: &Style,
    session: &Session,
    places: Places<'_>,
    reason: &Reason<A>,
    lacks: &Lacks<'_, B>,
)
    requires { CanBePut session.now reason.now.impossible }
    ensures { (text : List ℕ) × IsFirstLine style.now session.now (places_of places.entry)
        reason.now.link reason.now.possible (lacked_of lacks.now) (next_in reason.now.impossible)
        text
        × PutsLines lines.old lines.new text }
{
    let (link, possible) = (reason.link, &reason.possible);
    match &reason.impossible {
        None => {}
        Some(impossible) => {
            put_line_of(
                lines, style, session, places, link, possible, lacks, impossible,
            );
        }
    }
}
