//! Notes on a reason: facts by which a no is often not the fault of the system that is judged.

ghost use Rattle.std.specs.Prelude.{◌≡◌, ◌↔◌, IsTrue};
ghost use Rattle.mrt.specs.Reader.{shown_of};
ghost use Rattle.bgp_wire.specs.Message.{IsKeepalive};
ghost use Rattle.bgp_wire.specs.Verdict.{type_code};
ghost use Rattle.bgp_machine.specs.Heard.{Announces};
ghost use Rattle.bgp_why.specs.Notes.{BeginsElsewhere, WaitsForAnOpen, IsSent};
ghost use Rattle.bgp_why.specs.Notes.{IsSentKeepalive, HasExtendedParameters};
ghost use Rattle.bgp_why.specs.Notes.{EndsTheSession, GoesOn, HasNoHold, IsSendOwed};
ghost use Rattle.bgp_why.specs.Notes.{CameFirst, IsExtendedOpen, since_idle};
ghost use Rattle.bgp_why.specs.Notes.{AreNotes, AreEndNotes, judged_without};

use crate::items::has_sent;
use bgp_machine::{Fsm, received_limit};
use bgp_open::{Config, Link, RouteOffer};
use bgp_why_parts::{Possible, Told};
use bgp_wire::{HeaderVerdict, MessageType, check_header, header_at, message_body};
use mrt::Record;

/// Which notes stand after a reason.
#[derive(Clone, Copy)]
pub struct Notes {
    /// The router may refuse the OPEN that was received, as it may refuse any.
    pub may_be_refused: bool,
    /// The first record is a change of another state than Idle.
    pub begins_elsewhere: bool,
    /// An OPEN was received before the local system sent its own, and something is sent now.
    pub open_came_first: bool,
    /// What the OPEN offers that was sent, where this is judged without what both OPENs offer.
    pub without: Option<RouteOffer>,
    /// The OPEN that was received last has parameters of another form (RFC 9072), which is not
    /// read.
    pub extended_parameters: bool,
    /// A KEEPALIVE is sent though both OPENs settle no Hold Time.
    pub keepalive_without_hold: bool,
    /// What is owed was never sent, since the session ends.
    pub may_have_ended: bool,
    /// What is owed may have been sent, but not captured here.
    pub may_be_missing: bool,
}

/// Whether octets begin with a header without a fault, of a message of this type.
fn announces(config: &Config, octets: &[u8], kind: MessageType) -> bool
    ensures { IsTrue result ↔ Announces config.now (type_code kind) octets.now }
{
    let Some(header) = header_at(octets) else {
        return false;
    };
    match check_header(header, received_limit(config)) {
        HeaderVerdict::Whole(_, found) => found.code() == kind.code(),
        HeaderVerdict::Faulty(_) => false,
    }
}

/// Whether the octets are a KEEPALIVE.
fn is_keepalive(octets: &[u8]) -> bool
    ensures { IsTrue result ↔ IsKeepalive octets.now }
{
    match message_body(MessageType::Keepalive, octets) {
        Some(body) => body.is_empty(),
        None => false,
    }
}

/// Whether a record is a change of another state than Idle, and the first one.
fn begins_elsewhere(number: u64, shown: &Record<'_>) -> bool
    ensures { IsTrue result ↔ BeginsElsewhere number (shown_of shown.now) }
{
    match *shown {
        Record::Change(_, old, _) => number == 1 && old != 1,
        _ => false,
    }
}

/// Whether a state sends no message before its own OPEN.
fn waits_for_an_open(state: Fsm) -> bool
    ensures { IsTrue result ↔ WaitsForAnOpen state }
{
    matches!(state, Fsm::Connect | Fsm::Active)
}

/// Whether a record is a message that was sent.
fn is_sent(shown: &Record<'_>) -> bool
    ensures { IsTrue result ↔ IsSent (shown_of shown.now) }
{
    matches!(*shown, Record::Out(_, _))
}

/// Whether a record is a KEEPALIVE that was sent.
fn is_sent_keepalive(shown: &Record<'_>) -> bool
    ensures { IsTrue result ↔ IsSentKeepalive (shown_of shown.now) }
{
    match *shown {
        Record::Out(_, octets) => is_keepalive(octets),
        _ => false,
    }
}

/// Whether the parameters of an OPEN have an extended length (RFC 9072, 2).
fn has_extended_parameters(octets: &[u8]) -> bool
    ensures { IsTrue result ↔ HasExtendedParameters octets.now }
{
    29 < octets.len() && octets[28] != 0 && octets[29] == 255
}

/// Whether a record ends the session: a NOTIFICATION that was received, or a change to Idle.
fn ends_the_session(config: &Config, shown: &Record<'_>) -> bool
    ensures { IsTrue result ↔ EndsTheSession config.now (shown_of shown.now) }
{
    match *shown {
        Record::In(_, octets) => announces(config, octets, MessageType::Notification),
        Record::Out(_, _) => false,
        Record::Change(_, _, new) => new == 1,
    }
}

/// Whether a record is another message that was received, or another change.
fn goes_on(config: &Config, shown: &Record<'_>) -> bool
    ensures { IsTrue result ↔ GoesOn config.now (shown_of shown.now) }
{
    match *shown {
        Record::In(_, octets) => !announces(config, octets, MessageType::Notification),
        Record::Out(_, _) => false,
        Record::Change(_, _, new) => new != 1,
    }
}

/// Whether both OPENs settled that there is no Hold Time.
fn has_no_hold(link: Option<Link>) -> bool
    ensures { IsTrue result ↔ HasNoHold link }
{
    match link {
        Some(link) => link.hold == 0,
        None => false,
    }
}

/// The message that was received last since the last change to Idle, or no octets if none was.
fn since_idle<'a>(told: &Told, last: &'a [u8]) -> &'a [u8]
    ensures { result.now ≡ since_idle told.now last.entry.now }
{
    if told.last_received.is_some() {
        last
    } else {
        &[]
    }
}

/// Whether a message is an OPEN with parameters of the form of RFC 9072.
fn is_extended_open(config: &Config, octets: &[u8]) -> bool
    ensures { IsTrue result ↔ IsExtendedOpen config.now octets.now }
{
    announces(config, octets, MessageType::Open) && has_extended_parameters(octets)
}

/// Whether a message is owed: one has to be sent before another can be received.
fn is_send_owed(possible: &Possible) -> bool
    ensures { IsTrue result ↔ IsSendOwed possible.now }
{
    !possible.message && has_sent(possible)
}

/// Whether an OPEN was received before the local system's own was sent, without DelayOpen, and the
/// record is sent.
fn came_first(config: &Config, state: Fsm, last: &[u8], shown: &Record<'_>) -> bool
    ensures { IsTrue result ↔ CameFirst config.now state last.now (shown_of shown.now) }
{
    waits_for_an_open(state)
        && announces(config, last, MessageType::Open)
        && is_sent(shown)
        && !config.parts.delay_open
}

impl Notes {
    /// The notes on a no: on the record with this number, which is impossible after records that
    /// tell this and this link. `last` is the message that was received last, in whichever state.
    pub fn on(
        config: &Config,
        told: &Told,
        link: Option<Link>,
        last: &[u8],
        possible: &Possible,
        number: u64,
        shown: &Record<'_>,
    ) -> Notes
        ensures { AreNotes config.now told.now link last.now possible.now number
            (shown_of shown.now) result }
    {
        let received = since_idle(told, last);
        let is_owed = is_send_owed(possible);
        Notes {
            may_be_refused: possible.open_errors.capability,
            begins_elsewhere: begins_elsewhere(number, shown),
            open_came_first: came_first(config, told.state, received, shown),
            without: None,
            extended_parameters: is_extended_open(config, received),
            keepalive_without_hold: is_sent_keepalive(shown)
                && has_no_hold(link)
                && possible.message,
            may_have_ended: is_owed && ends_the_session(config, shown),
            may_be_missing: is_owed && goes_on(config, shown),
        }
    }

    /// The notes where the verdict is unfinished, by what the records tell, the message that was
    /// received last, in whichever state, and what may follow.
    pub fn on_the_end(config: &Config, told: &Told, last: &[u8], possible: &Possible) -> Notes
        ensures { AreEndNotes config.now told.now last.now possible.now result }
    {
        Notes {
            may_be_refused: possible.open_errors.capability,
            begins_elsewhere: false,
            open_came_first: false,
            without: None,
            extended_parameters: is_extended_open(config, since_idle(told, last)),
            keepalive_without_hold: false,
            may_have_ended: false,
            may_be_missing: false,
        }
    }

    /// Returns these notes, and if this is judged without what both OPENs offer, the one with what
    /// the OPEN offers that was sent.
    pub fn judged_without(self, without: Option<RouteOffer>) -> Notes
        ensures { result ≡ judged_without without self }
    {
        Notes { without, ..self }
    }
}
