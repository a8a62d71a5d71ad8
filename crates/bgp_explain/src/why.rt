//! Why the next record is impossible, or what may follow: the lines after the one of that record.

ghost use Rattle.std.specs.Prelude.{◌≡◌, ◌++◌, ℕ, List};
ghost use Rattle.bgp_verdict_lines.specs.Lines.{PutsLines};
ghost use Rattle.bgp_why.specs.Possible.{other_lines};
ghost use Rattle.bgp_explain.specs.Details.{AreDetails, asking_in, next_in};
ghost use Rattle.bgp_explain.specs.Kept.{shown_by};
ghost use Rattle.bgp_explain.specs.Lacked.{following_lines, lacked_of};
ghost use Rattle.bgp_explain.specs.Places.{places_of};
ghost use Rattle.bgp_explain.specs.Text.{CanBePut, IsWhyOf, IsWhyOfWith};
ghost use Rattle.bgp_explain.specs.Updates.{asking_of, update_line};
ghost use Rattle.bgp_explain.specs.Why.{AreNotesOf, AreNotesOn, AreWhy, IsAlready, IsAlreadyBy};
ghost use Rattle.bgp_explain.specs.Why.{IsReceivedBy, IsUnwholeOf, already_at, another_line};
ghost use Rattle.bgp_explain.specs.Why.{may_come, received_form, received_line, why_text};

use crate::details::Details;
use crate::explained::{Impossible, Reason};
use crate::moments::{SentNotification, sent_in};
use crate::places::{Places, named_place, place_of};
use crate::sent_line::put_sent_line;
use bgp_open::{Config, Link, RouteForm};
use bgp_prefix::Session;
use bgp_reason::Possible;
use bgp_verdict_lines::{
    VerdictLines, put_another_as, put_last_received, put_last_update, put_not_whole, put_notes,
    put_possible, put_possible_but, put_sent_already, put_state,
};
use bgp_why::{Asked, AskedUpdate, Lacks, MessageName, NotWhole, Notes, Place, SentAlready, Style};
use mrt::Sink;
use std::alloc::Allocator;

/// The message that was received last, and what it asks for.
#[derive(Clone, Copy)]
pub(crate) struct Received {
    /// Where its record stands.
    pub(crate) place: Place,
    pub(crate) asked: Asked,
}

/// What a reason says, but for what takes memory.
#[derive(Clone, Copy)]
pub(crate) struct Why {
    /// The record that shows the change to the state, if there is one.
    pub(crate) since: Option<Place>,
    /// The message that was received last since Idle was told, if one was.
    pub(crate) received: Option<Received>,
    /// Why the impossible record isn't a whole message, if it was sent and isn't one.
    pub(crate) unwhole: Option<NotWhole>,
    /// The NOTIFICATION that was sent before the impossible one.
    pub(crate) already: Option<SentAlready>,
    /// The notes.
    pub(crate) notes: Notes,
}

/// Returns how the routes of a message are spelled that was received, if this link is settled.
fn received_form(link: Option<Link>) -> RouteForm
    ensures { result ≡ received_form link }
{
    match link {
        None => RouteForm::PLAIN,
        Some(link) => link.received,
    }
}

/// Returns the message that was received last, and what it asks for, if it stands somewhere.
fn received_of<A: Allocator>(
    config: &Config,
    place: Option<Place>,
    reason: &Reason<A>,
) -> Option<Received>
    ensures { IsReceivedBy config.now reason.now.link reason.now.told
        reason.now.last_message.items place result }
{
    match place {
        None => None,
        Some(place) => Some(Received {
            place,
            asked: Asked::of(
                config,
                received_form(reason.link),
                reason.told.state,
                reason.last_message.as_slice(),
            ),
        }),
    }
}

/// Returns why the impossible record isn't a whole message, where there is one that was sent.
fn unwhole_of<A: Allocator + Copy>(reason: &Reason<A>) -> Option<NotWhole>
    ensures { IsUnwholeOf reason.now.link (next_in reason.now.impossible) result }
{
    match &reason.impossible {
        None => None,
        Some(Impossible { record, .. }) => {
            let shown = record.as_record();
            NotWhole::of(reason.link, &shown)
        }
    }
}

/// Returns where a NOTIFICATION stands that was sent.
fn already_at(places: Places<'_>, sent: SentNotification) -> SentAlready
    ensures { result ≡ already_at (places_of places.entry) sent }
{
    SentAlready {
        place: place_of(places, sent.number, sent.second),
        code: sent.code,
        subcode: sent.subcode,
    }
}

/// Returns the NOTIFICATION that was sent last, if the next record is another that is sent.
fn already_by<A: Allocator + Copy>(
    places: Places<'_>,
    link: Option<Link>,
    last: SentNotification,
    impossible: &Impossible<A>,
) -> Option<SentAlready>
    ensures { IsAlreadyBy (places_of places.entry) link (shown_by impossible.now.«record») last
        result }
{
    let shown = impossible.record.as_record();
    match sent_in(link, impossible.number, &shown) {
        None => None,
        Some(_) => Some(already_at(places, last)),
    }
}

/// Returns the NOTIFICATION that was sent before the impossible one, if there are both.
fn already_of<A: Allocator + Copy>(places: Places<'_>, reason: &Reason<A>) -> Option<SentAlready>
    ensures { IsAlready (places_of places.entry) reason.now.link reason.now.moments.notification
        (next_in reason.now.impossible) result }
{
    let Some(last) = reason.moments.notification else {
        return None;
    };
    match &reason.impossible {
        None => None,
        Some(impossible) => already_by(places, reason.link, last, impossible),
    }
}

/// Returns the notes on a reason, without those on what both OPENs offer.
fn notes_on<A: Allocator + Copy>(config: &Config, reason: &Reason<A>) -> Notes
    ensures { AreNotesOn config.now reason.now.told reason.now.link reason.now.last_message.items
        reason.now.possible (next_in reason.now.impossible) result }
{
    let last = reason.last_message.as_slice();
    match &reason.impossible {
        None => Notes::on_the_end(config, &reason.told, last, &reason.possible),
        Some(Impossible { number, record }) => {
            let shown = record.as_record();
            let (told, link, possible) = (&reason.told, reason.link, &reason.possible);
            Notes::on(config, told, link, last, possible, *number, &shown)
        }
    }
}

/// Returns the notes on a reason.
fn notes_of<A: Allocator + Copy>(config: &Config, reason: &Reason<A>) -> Notes
    ensures { AreNotesOf config.now reason.now.told reason.now.link reason.now.left_out
        reason.now.last_message.items reason.now.possible (next_in reason.now.impossible) result }
{
    notes_on(config, reason).judged_without(reason.left_out.without)
}

/// Returns what a reason says, whose records stand at these places.
pub(crate) fn why_of<A: Allocator + Copy>(
    config: &Config,
    places: Places<'_>,
    reason: &Reason<A>,
) -> Why
    ensures { AreWhy config.now (places_of places.entry) reason.now.told reason.now.moments
        reason.now.link reason.now.left_out reason.now.last_message.items reason.now.possible
        (next_in reason.now.impossible) result }
{
    let (told, moments) = (&reason.told, &reason.moments);
    let place = named_place(places, told.last_received, moments.last_received);
    Why {
        since: named_place(places, told.told_by, moments.told_by),
        received: received_of(config, place, reason),
        unwhole: unwhole_of(reason),
        already: already_of(places, reason),
        notes: notes_of(config, reason),
    }
}

/// Puts the line of an UPDATE that was received last, with all that may become of it.
fn put_update<W: Sink, A: Allocator + Copy>(
    lines: &mut VerdictLines<'_, A, W>,
    style: &Style,
    place: &Place,
    name: &MessageName,
    update: &AskedUpdate<'_, A>,
)
    ensures { PutsLines lines.old lines.new
        (update_line style.now place.now name.now (asking_of update.now)) }
{
    put_last_update(lines, style, place, name, update);
}

/// Puts the line of the message that was received last, if one was.
fn put_received<W: Sink, A: Allocator + Copy>(
    lines: &mut VerdictLines<'_, A, W>,
    style: &Style,
    received: Option<Received>,
    update: &Option<AskedUpdate<'_, A>>,
)
    ensures { PutsLines lines.old lines.new
        (received_line style.now received (asking_in update.now)) }
{
    let Some(Received { place, asked }) = received else {
        return;
    };
    match update {
        None => put_last_received(lines, style, &place, &asked),
        Some(update) => put_update(lines, style, &place, &asked.name, update),
    }
}

/// Puts the lines of what may stand in the impossible record's place, and what this lacks of it;
/// and of what could have been sent there in other orders.
fn put_following<W: Sink, A: Allocator + Copy>(
    lines: &mut VerdictLines<'_, A, W>,
    style: &Style,
    possible: &Possible,
    lacks: &Lacks<'_, A>,
)
    ensures { PutsLines lines.old lines.new
        (following_lines style.now possible.now (lacked_of lacks.now)
        ++ other_lines style.now.first possible.now style.now.other_orders) }
{
    put_possible_but(lines, style, possible, lacks);
}

/// Puts the lines of what may stand in the impossible record's place, or follow if there is none.
fn put_may_come<W: Sink, A: Allocator + Copy>(
    lines: &mut VerdictLines<'_, A, W>,
    style: &Style,
    impossible: &Option<Impossible<A>>,
    possible: &Possible,
    lacks: &Lacks<'_, A>,
)
    ensures { PutsLines lines.old lines.new (may_come style.now (next_in impossible.now) possible.now
        (lacked_of lacks.now)) }
{
    match impossible {
        None => put_possible(lines, style, possible),
        Some(_) => put_following(lines, style, possible, lacks),
    }
}

/// Puts that the configuration has another AS number of the peer than this, if one is given.
fn put_another<W: Sink, A: Allocator + Copy>(
    lines: &mut VerdictLines<'_, A, W>,
    another: Option<u32>,
)
    ensures { PutsLines lines.old lines.new (another_line another) }
{
    match another {
        None => {}
        Some(number) => put_another_as(lines, number),
    }
}

/// Puts the lines after that of the impossible record's message.
fn put_why<W: Sink, A: Allocator + Copy>(
    lines: &mut VerdictLines<'_, A, W>,
    style: &Style,
    another: Option<u32>,
    reason: &Reason<A>,
    details: &Details<'_, A>,
    why: &Why,
)
    ensures { PutsLines lines.old lines.new (why_text style.now another reason.now.told.state
        (next_in reason.now.impossible) reason.now.possible why.now
        (asking_in details.now.update) (lacked_of details.now.lacks)) }
{
    put_not_whole(lines, why.unwhole);
    put_another(lines, another);
    put_state(lines, style, reason.told.state, why.since);
    put_received(lines, style, why.received, &details.update);
    put_may_come(
        lines,
        style,
        &reason.impossible,
        &reason.possible,
        &details.lacks,
    );
    put_sent_already(lines, style, why.already);
    put_notes(lines, style, &why.notes);
}

/// Puts the lines of a reason after that of the first impossible record, by what it says that takes
/// no memory.
pub(crate) fn put_lines_with<W: Sink, A: Allocator + Copy>(
    lines: &mut VerdictLines<'_, A, W>,
    config: &Config,
    style: &Style,
    session: &Session,
    another: Option<u32>,
    reason: &Reason<A>,
    details: &Details<'_, A>,
    why: &Why,
)
    requires can { CanBePut session.now reason.now.impossible }
    requires details { AreDetails config.now reason.now details.now }
    ensures { (text : List ℕ) × IsWhyOfWith config.now style.now session.now another reason.now
        why.now text × PutsLines lines.old lines.new text }
{
    put_sent_line(lines, config, session, reason.link, &reason.impossible);
    put_why(lines, style, another, reason, details, why);
}

/// Puts the lines of a reason after that of the first impossible record: its message in words, if
/// it was sent; what the records before tell; all that could have stood in its place, or may
/// follow; and notes. If a number is given, the configuration has any other AS number of the peer.
pub(crate) fn put_lines<W: Sink, A: Allocator + Copy>(
    lines: &mut VerdictLines<'_, A, W>,
    config: &Config,
    style: &Style,
    session: &Session,
    another: Option<u32>,
    places: Places<'_>,
    reason: &Reason<A>,
    details: &Details<'_, A>,
)
    requires can { CanBePut session.now reason.now.impossible }
    requires details { AreDetails config.now reason.now details.now }
    ensures { (text : List ℕ) × IsWhyOf config.now style.now session.now another
        (places_of places.entry) reason.now text × PutsLines lines.old lines.new text }
{
    let why = why_of(config, places, reason);
    put_lines_with(
        lines, config, style, session, another, reason, details, &why,
    );
}
