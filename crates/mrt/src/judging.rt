//! What a record is to a session: skipped, refused or its own (`specs/Rules.antt`).

ghost use Rattle.std.specs.Prelude.{◌≡◌, ◌≢◌, ◌↔◌, ◌⊎◌, ℕ, List, Some, IsTrue};
ghost use Rattle.std.specs.Prelude.{IfSome, IfNone, IfOk};
ghost use Rattle.bgp_wire.specs.Header.{IsSound, length_of, limit_with};
ghost use Rattle.mrt.specs.Layout.{IsState, form_of, shown_in};
ghost use Rattle.mrt.specs.Rules.{HasBadState, HasOtherLength, IsBefore};
ghost use Rattle.mrt.specs.Rules.{Holds, FirstSays, content_rules};
ghost use Rattle.mrt.specs.Found.{header_value, place_with, judgement_by, judgement_by_message};
ghost use Rattle.mrt.specs.Found.{shown_as, IsContentAs, IsJudgedAs};
ghost use Rattle.mrt.specs.declared.layout.Form.TheVariants.{Change, Received, Sent};

use crate::fault::FaultKind;
use crate::layout::{Form, RecordHeader, form_of, read_fields, read_new_state, read_old_state};
use crate::record::Endpoints;
use crate::refresh::{is_route_refresh, is_whole_refresh};
use crate::skipped::Skip;
use bgp_prefix::{RouteRefresh, Seconds, Session};
use bgp_wire::{HEADER_LEN, HeaderVerdict, Limit, check_header, header_at};

/// What a record of the session shows besides its second.
#[derive(Clone, Copy, Debug)]
pub enum Shows {
    /// A message that the local system received.
    Received,
    /// A message that it sent.
    Sent,
    /// A change of its state: the old state and the new one.
    Changed(u16, u16),
}

/// A record of the session, whose body somebody holds.
#[derive(Clone, Copy, Debug)]
pub struct Found {
    /// Its second.
    pub second: Seconds,
    /// The fraction of that, in microseconds, if it has one ([`Fields`](crate::Fields)).
    pub micro: Option<u32>,
    /// What it shows.
    pub shows: Shows,
    /// Where the content begins in the body: the message, or the two states.
    pub content_at: usize,
    /// How many octets the body has.
    pub count: usize,
}

/// What a whole record is to the session.
#[derive(Clone, Copy, Debug)]
pub enum Judged {
    /// It is skipped.
    Skipped(Skip),
    /// The capture is refused for it.
    Refused(FaultKind),
    /// It is the session's.
    OfSession(Found),
}

/// What a message of the session is.
#[derive(Clone, Copy)]
enum Message {
    /// A record of the session, whole where its header is sound.
    Whole,
    /// A ROUTE-REFRESH that is passed over.
    PassedOver,
    /// The capture is refused for it.
    Refused(FaultKind),
}

/// What the content of a record with the session's addresses is.
#[derive(Clone, Copy)]
enum Content {
    /// That of a record of the session.
    Shown(Shows),
    /// The record is skipped.
    Skipped(Skip),
    /// The capture is refused for it.
    Refused(FaultKind),
}

/// Checks whether a number is that of a state (RFC 6396, 4.4.1).
pub fn is_state(state: u16) -> bool
    ensures { IsTrue result ↔ IsState state }
{
    (1..=6).contains(&state)
}

/// Whether one of two states is none of the six.
fn has_bad_state(content: &[u8]) -> bool
    ensures { IsTrue result ↔ HasBadState content.now }
{
    if content.len() != 4 {
        return false;
    }
    !is_state(read_old_state(content)) || !is_state(read_new_state(content))
}

/// The Length of a header, if the header is sound by the limit.
fn sound_length(header: &[u8; HEADER_LEN], limit: Limit) -> Option<usize>
    ensures some { IfSome result (λ count.
        IsSound limit header.now × (count ≡ length_of header.now)) }
    ensures none { IfNone result (¬ IsSound limit header.now) }
{
    match check_header(header, limit) {
        HeaderVerdict::Whole(length, _) => Some(usize::from(length)),
        HeaderVerdict::Faulty(_) => None,
    }
}

/// Checks whether the message has a header that is sound by the limit, whose Length isn't the count
/// of its octets.
pub fn has_other_length(content: &[u8], limit: Limit) -> bool
    ensures { IsTrue result ↔ HasOtherLength limit content.now }
{
    let Some(header) = header_at(content) else {
        return false;
    };
    let Some(length) = sound_length(header, limit) else {
        return false;
    };
    length != content.len()
}

/// The same by the limit of the messages that the session may receive.
fn is_no_whole_message(content: &[u8], session: &Session) -> bool
    ensures { IsTrue result ↔ HasOtherLength (limit_with session.now.extended) content.now }
{
    has_other_length(content, Limit::with_extended(session.extended))
}

/// Whether the second is below that of the session's record before, if there was one.
fn is_before(second: Seconds, last: Option<Seconds>) -> bool
    ensures { IsTrue result ↔ IsBefore second last }
{
    match last {
        Some(last) => second < last,
        None => false,
    }
}

/// What a change of state of the session shows, or why it is refused.
fn read_change(
    header: &RecordHeader,
    content: &[u8],
    last: Option<Seconds>,
) -> Result<Shows, FaultKind>
    requires { form_of header.now.subtype ≡ Some Change }
    ensures judged { (session : Session) (body : List ℕ) →
        FirstSays (Holds session last (place_with (header_value header.now) body content.now))
        content_rules (judgement_by result) }
    ensures shown { IfOk result (λ shows. shown_as header.now.second shows content.now
        ≡ shown_in (header_value header.now) content.now) }
{
    if content.len() != 4 {
        return Err(FaultKind::Body);
    }
    if has_bad_state(content) {
        return Err(FaultKind::BadState);
    }
    if is_before(header.second, last) {
        return Err(FaultKind::TimeBack);
    }
    Ok(Shows::Changed(read_old_state(content), read_new_state(content)))
}

/// What a message of the session is, whose record before is of the second `last`.
fn read_message(
    header: &RecordHeader,
    content: &[u8],
    session: &Session,
    last: Option<Seconds>,
) -> Message
    requires { (form_of header.now.subtype ≡ Some Received)
        ⊎ (form_of header.now.subtype ≡ Some Sent) }
    ensures { (body : List ℕ) →
        FirstSays (Holds session.now last (place_with (header_value header.now) body content.now))
        content_rules (judgement_by_message result) }
{
    if content.len() < HEADER_LEN {
        return Message::Refused(FaultKind::NotAMessage);
    }
    if session.refresh == RouteRefresh::Refused && is_route_refresh(content) {
        return Message::Refused(FaultKind::RouteRefresh);
    }
    if session.refresh == RouteRefresh::PassedOver && is_whole_refresh(content) {
        return Message::PassedOver;
    }
    if is_no_whole_message(content, session) {
        return Message::Refused(FaultKind::NotAMessage);
    }
    if is_before(header.second, last) {
        return Message::Refused(FaultKind::TimeBack);
    }
    Message::Whole
}

/// What the content of a record is that has the session's addresses.
fn read_content(
    form: Form,
    header: &RecordHeader,
    content: &[u8],
    session: &Session,
    last: Option<Seconds>,
) -> Content
    requires { form_of header.now.subtype ≡ Some form }
    ensures { (body : List ℕ) →
        IsContentAs session.now last (header_value header.now) body content.now result }
{
    match form {
        Form::AddPath => Content::Refused(FaultKind::AddPath),
        Form::Change => match read_change(header, content, last) {
            Ok(shows) => Content::Shown(shows),
            Err(kind) => Content::Refused(kind),
        },
        Form::Received => match read_message(header, content, session, last) {
            Message::Whole => Content::Shown(Shows::Received),
            Message::PassedOver => Content::Skipped(Skip::RefreshReceived),
            Message::Refused(kind) => Content::Refused(kind),
        },
        Form::Sent => match read_message(header, content, session, last) {
            Message::Whole => Content::Shown(Shows::Sent),
            Message::PassedOver => Content::Skipped(Skip::RefreshSent),
            Message::Refused(kind) => Content::Refused(kind),
        },
    }
}

/// Whether one of the two addresses isn't the session's.
fn is_of_other_session(ends: &Endpoints, session: &Session) -> bool
    ensures { IsTrue result ↔ ((ends.now.peer ≢ session.now.peer)
        ⊎ (ends.now.local ≢ session.now.local)) }
{
    ends.peer != session.peer || ends.local != session.local
}

/// What a whole record of type BGP4MP or BGP4MP_ET is to the session, whose record before is of the
/// second `last`.
pub fn judge(header: &RecordHeader, body: &[u8], session: &Session, last: Option<Seconds>) -> Judged
    ensures { IsJudgedAs session.now last (header_value header.now) body.now result }
{
    let Some(form) = form_of(header.subtype) else {
        return Judged::Skipped(Skip::OtherKind);
    };
    let Some(fields) = read_fields(header, body) else {
        return Judged::Refused(FaultKind::Body);
    };
    if is_of_other_session(&fields.ends, session) {
        return Judged::Skipped(Skip::OtherSession(fields.ends));
    }
    let content = body.split_at(fields.content_at).1;
    match read_content(form, header, content, session, last) {
        Content::Shown(shows) => Judged::OfSession(Found {
            second: header.second,
            micro: fields.micro,
            shows,
            content_at: fields.content_at,
            count: body.len(),
        }),
        Content::Skipped(skip) => Judged::Skipped(skip),
        Content::Refused(kind) => Judged::Refused(kind),
    }
}
