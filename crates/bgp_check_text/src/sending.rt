//! What a message shows was done that was sent, wherever it stands among the records of its
//! session.

ghost use Rattle.std.specs.Prelude.{◌<◌, ℕ, IfOk, List, None, OnOk, map, option_map};
ghost use Rattle.mrt.specs.Reader.{shown_of};
ghost use Rattle.mrt.specs.Written.{IsAllowed};
ghost use Rattle.bgp_why.specs.Deed.{IsDeed};
ghost use Rattle.bgp_check_text.specs.SentDeed.{IsFormBy, IsSentDeed, IsSentForm};

use crate::shown::{is_allowed, session_for};
use bgp_check::{heard_open, own_open};
use bgp_open::{RouteForm, RouteOffer};
use bgp_prefix::{Seconds, Session};
use bgp_text::Lines;
use bgp_why::{Endpoint, put_deed};
use bgp_wire::Limit;
use mrt::{Failed, MemSink, Record, Sink};
use std::alloc::{AllocError, Allocator};

/// Returns how the routes are spelled that an end sends, by both OPENs.
fn form_by(own: Option<&[u8]>, heard: Option<&[u8]>) -> RouteForm
    ensures { IsFormBy (option_map (λ o. o.now) own.entry) (option_map (λ o. o.now) heard.entry)
        result }
{
    let Some(own) = own else {
        return RouteForm::PLAIN;
    };
    match heard {
        Some(heard) => RouteOffer::of(own).sent_to(RouteOffer::of(heard)),
        None => RouteForm::PLAIN,
    }
}

/// Returns how the routes are spelled that an end sends with these records: by what the first
/// well-formed OPEN that it sent offers and the first one that it received.
pub fn sent_form(records: &[Record<'_>]) -> RouteForm
    ensures { IsSentForm (map shown_of records.now) result }
{
    form_by(own_open(records), heard_open(records))
}

/// Writes what a record that a capture of the session may have shows was done.
fn write_deed<W: Sink>(
    sink: &mut W,
    session: &Session,
    peer: &Endpoint,
    form: RouteForm,
    shown: &Record<'_>,
) -> Result<(), Failed>
    requires failures { W.failures sink.old < u64.MAX }
    requires allowed { IsAllowed session.now None (shown_of shown.now) }
    ensures { OnOk result ((text : List ℕ)
        × IsDeed session.now peer.now form (shown_of shown.now) text
        × W.takes sink.old sink.new text) }
{
    let mut lines = Lines::new(sink);
    put_deed(&mut lines, session, peer, form, shown);
    let handed_over = lines.hand_over();
    // No effect: it ends the loan of the sink.
    lines.into_sink();
    handed_over
}

/// Returns what a message shows was done that an end of this session sent to this peer: `sent
/// UPDATE to 192.0.2.1:179`. Its routes are spelled in this form, and it is as long as its receiver
/// allows; of one that no capture can hold nothing is said. `AllocError` is answered if memory runs
/// out.
pub fn sent_deed<A: Allocator + Copy>(
    alloc: A,
    session: &Session,
    sent: Limit,
    peer: &Endpoint,
    form: RouteForm,
    second: Seconds,
    octets: &[u8],
) -> Result<Vec<u8, A>, AllocError>
    ensures { IfOk result (λ text.
        IsSentDeed session.now sent peer.now form second octets.now text.items) }
{
    let shown = Record::Out(second, octets);
    let its = session_for(session, sent, &shown);
    if !is_allowed(&its, &shown) {
        return Ok(Vec::new(alloc));
    }
    let mut sink = MemSink::new(alloc);
    match write_deed(&mut sink, &its, peer, form, &shown) {
        Ok(()) => Ok(sink.into_octets()),
        Err(_) => Err(AllocError),
    }
}
