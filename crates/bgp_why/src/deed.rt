//! The first line of a no: what was done, and what is wrong with it.

ghost use Rattle.std.specs.Prelude.{◌≡◌, ◌≤◌, ℕ, List, Option, length};
ghost use Rattle.bgp_wire.specs.Header.{limit_with};
ghost use Rattle.mrt.specs.Reader.{shown_of};
ghost use Rattle.mrt.specs.Rules.{HasOtherLength};
ghost use Rattle.mrt.specs.Written.{IsAllowed};
ghost use Rattle.bgp_text.specs.Lines.{Writes};
ghost use Rattle.bgp_why.specs.Deed.{cause_text, changed_deed, form_on, IsDeed, received_deed};
ghost use Rattle.bgp_why.specs.Deed.{peer_of, record_line, sent_deed};
ghost use Rattle.bgp_why.specs.Message.{IsNamed};

use crate::cause::put_cause;
use crate::endpoint::{Endpoint, put_endpoint};
use crate::lacks::Lacks;
use crate::message::{MessageName, put_name};
use crate::place::{Place, put_record};
use crate::style::Style;
use bgp_open::{Link, RouteForm};
use bgp_prefix::Session;
use bgp_text::{Lines, put_address};
use bgp_why_parts::{Possible, put_state_name};
use bgp_wire::Limit;
use mrt::{Record, Sink};
use std::alloc::Allocator;

/// Returns how the routes of a record are spelled, if this link is settled: in the form of the
/// record's direction.
fn form_on(link: Option<Link>, shown: &Record<'_>) -> RouteForm
    ensures { result ≡ form_on link (shown_of shown.now) }
{
    let Some(link) = link else {
        return RouteForm::PLAIN;
    };
    match *shown {
        Record::In(_, _) => link.received,
        Record::Out(_, _) => link.sent,
        Record::Change(_, _, _) => RouteForm::PLAIN,
    }
}

/// The name of a message that a capture of the session may have.
fn name_in(session: &Session, form: RouteForm, octets: &[u8]) -> MessageName
    requires long { 19 ≤ length octets.now }
    requires whole { ¬ HasOtherLength (limit_with session.now.extended) octets.now }
    ensures { IsNamed form (limit_with session.now.extended) octets.now result }
{
    MessageName::of(Limit::with_extended(session.extended), form, octets)
}

/// That a message was received from the peer.
fn put_received<W: Sink>(lines: &mut Lines<'_, W>, peer: &Endpoint, name: &MessageName)
    ensures { Writes lines.old lines.new (received_deed peer.now name.now) }
{
    lines.put(b"received ");
    put_name(lines, name);
    lines.put(b" from ");
    put_endpoint(lines, peer);
}

/// That a message was sent to the peer.
fn put_sent<W: Sink>(lines: &mut Lines<'_, W>, peer: &Endpoint, name: &MessageName)
    ensures { Writes lines.old lines.new (sent_deed peer.now name.now) }
{
    lines.put(b"sent ");
    put_name(lines, name);
    lines.put(b" to ");
    put_endpoint(lines, peer);
}

/// That the state changed.
fn put_changed<W: Sink>(lines: &mut Lines<'_, W>, old: u16, new: u16)
    ensures { Writes lines.old lines.new (changed_deed old new) }
{
    lines.put(b"went from ");
    put_state_name(lines, old);
    lines.put(b" to ");
    put_state_name(lines, new);
}

/// Puts what a record that a capture of the session may have shows was done: `sent UPDATE to
/// 192.0.2.2`, `received OPEN from 192.0.2.2` or `went from OpenSent to Idle`. The peer is this
/// end, and routes are spelled in this form.
pub fn put_deed<W: Sink>(
    lines: &mut Lines<'_, W>,
    session: &Session,
    peer: &Endpoint,
    form: RouteForm,
    shown: &Record<'_>,
)
    requires { (last : Option ℕ) × IsAllowed session.now last (shown_of shown.now) }
    ensures { (text : List ℕ) × IsDeed session.now peer.now form (shown_of shown.now) text
        × Writes lines.old lines.new text }
{
    match shown {
        Record::In(_, octets) => {
            put_received(lines, peer, &name_in(session, form, octets));
        }
        Record::Out(_, octets) => {
            put_sent(lines, peer, &name_in(session, form, octets));
        }
        Record::Change(_, old, new) => put_changed(lines, *old, *new),
    }
}

/// Puts the line of the record at which a no stands: `record 6, 1970-01-01 00:01:41 UTC: 192.0.2.1
/// received KEEPALIVE from 192.0.2.2, but KEEPALIVE was due first`. The record is one that a
/// capture of the session may have. If a link is settled, it says how the routes of an UPDATE are
/// spelled.
pub fn put_record_line<W: Sink, A: Allocator>(
    lines: &mut Lines<'_, W>,
    style: &Style,
    place: &Place,
    session: &Session,
    link: Option<Link>,
    shown: &Record<'_>,
    possible: &Possible,
    lacks: &Lacks<'_, A>,
)
    requires { (last : Option ℕ) × IsAllowed session.now last (shown_of shown.now) }
    ensures { (deed : List ℕ)
        × IsDeed session.now (peer_of session.now) (form_on link (shown_of shown.now))
        (shown_of shown.now) deed
        × Writes lines.old lines.new (record_line place.now session.now.local deed
        (cause_text style.now.own_faults possible.now lacks.now)) }
{
    lines.put(b"  ");
    put_record(lines, place);
    put_address(lines, session.local);
    lines.put(b" ");
    let peer = Endpoint {
        address: session.peer,
        port: None,
    };
    put_deed(lines, session, &peer, form_on(link, shown), shown);
    put_cause(lines, style, possible, lacks);
    lines.put(b"\n");
}
