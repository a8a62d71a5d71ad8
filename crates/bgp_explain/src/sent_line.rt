//! The line of the impossible record's message, in words: what it says, or the data of a
//! NOTIFICATION.

ghost use Rattle.std.specs.Prelude.{◌≡◌, ◌≤◌, ℕ, List, Option, length};
ghost use Rattle.bgp_open.specs.Notification.{IsNotification};
ghost use Rattle.bgp_wire.specs.Header.{limit_with};
ghost use Rattle.mrt.specs.Reader.{shown_of};
ghost use Rattle.mrt.specs.Rules.{HasOtherLength};
ghost use Rattle.mrt.specs.Written.{IsAllowed};
ghost use Rattle.bgp_values.specs.ErrorData.{error_of};
ghost use Rattle.bgp_verdict_lines.specs.Lines.{PutsLines};
ghost use Rattle.bgp_explain.specs.Details.{next_in};
ghost use Rattle.bgp_explain.specs.SentLine.{IsErrorLine, IsLineOf, IsOctetsLine, IsSentLine};
ghost use Rattle.bgp_explain.specs.SentLine.{IsWordsLine, error_line, sent_reading};
ghost use Rattle.bgp_explain.specs.Text.{CanBePut};

use crate::explained::Impossible;
use bgp_lines::{put_error_data, put_named_message};
use bgp_open::{Config, Link, Notification, RouteForm, read_notification};
use bgp_prefix::Session;
use bgp_text::Lines;
use bgp_values::Reading;
use bgp_verdict_lines::{VerdictLines, put_data_line, put_message_line};
use bgp_why_parts::Room;
use bgp_wire::{HeaderVerdict, Limit, MessageType, check_header, header_at};
use mrt::{Record, Sink};
use std::alloc::Allocator;

/// Returns how a message is read that is sent on a link, or before there is one.
fn sent_reading(config: &Config, link: Option<Link>) -> Reading
    ensures { result ≡ sent_reading config.now link }
{
    match link {
        None => Reading {
            form: RouteForm::PLAIN,
            as4: config.parts.as4,
        },
        Some(link) => Reading {
            form: link.sent,
            as4: link.as4,
        },
    }
}

/// Puts what the data of an error say, if it has any.
fn put_data<W: Sink, A: Allocator + Copy>(
    lines: &mut VerdictLines<'_, A, W>,
    error: Notification<'_>,
)
    ensures { PutsLines lines.old lines.new (error_line (error_of error.entry)) }
{
    if error.detail.is_empty() {
        return;
    }
    let mut room = Room::new();
    let mut within = Lines::new(&mut room);
    put_error_data(&mut within, error);
    // A room never fails.
    let _ = within.hand_over();
    put_data_line(lines, within.into_sink().front());
}

/// Puts the line of a NOTIFICATION.
fn put_error<W: Sink, A: Allocator + Copy>(lines: &mut VerdictLines<'_, A, W>, octets: &[u8])
    requires { (code subcode : ℕ) × (detail : List ℕ)
        × IsNotification octets.now code subcode detail }
    ensures { (text : List ℕ) × IsErrorLine octets.now text × PutsLines lines.old lines.new text }
{
    let Some(error) = read_notification(octets) else {
        unreachable!();
    };
    put_data(lines, error);
}

/// Puts what a message says, or the faults of its header.
fn put_words<W: Sink, A: Allocator + Copy>(
    lines: &mut VerdictLines<'_, A, W>,
    reading: Reading,
    limit: Limit,
    octets: &[u8],
)
    requires long { 19 ≤ length octets.now }
    requires whole { ¬ HasOtherLength limit octets.now }
    ensures { (text : List ℕ) × IsWordsLine reading limit octets.now text
        × PutsLines lines.old lines.new text }
{
    let mut room = Room::new();
    let mut within = Lines::new(&mut room);
    put_named_message(&mut within, reading, limit, octets);
    // A room never fails.
    let _ = within.hand_over();
    put_message_line(lines, within.into_sink().front());
}

/// Puts the line of a message that may be so long.
fn put_octets<W: Sink, A: Allocator + Copy>(
    lines: &mut VerdictLines<'_, A, W>,
    reading: Reading,
    limit: Limit,
    octets: &[u8],
)
    requires long { 19 ≤ length octets.now }
    requires whole { ¬ HasOtherLength limit octets.now }
    ensures { (text : List ℕ) × IsOctetsLine reading limit octets.now text
        × PutsLines lines.old lines.new text }
{
    let Some(header) = header_at(octets) else {
        unreachable!();
    };
    match check_header(header, limit) {
        HeaderVerdict::Faulty(_) => put_words(lines, reading, limit, octets),
        HeaderVerdict::Whole(_, kind) => match kind {
            MessageType::Open => put_words(lines, reading, limit, octets),
            MessageType::Update => put_words(lines, reading, limit, octets),
            MessageType::Notification => put_error(lines, octets),
            MessageType::Keepalive => {},
        },
    }
}

/// Puts the line of a message that was sent, which a capture of the session may have.
fn put_sent<W: Sink, A: Allocator + Copy>(
    lines: &mut VerdictLines<'_, A, W>,
    config: &Config,
    session: &Session,
    link: Option<Link>,
    octets: &[u8],
)
    requires long { 19 ≤ length octets.now }
    requires whole { ¬ HasOtherLength (limit_with session.now.extended) octets.now }
    ensures { (text : List ℕ)
        × IsOctetsLine (sent_reading config.now link) (limit_with session.now.extended)
        octets.now text
        × PutsLines lines.old lines.new text }
{
    put_octets(
        lines,
        sent_reading(config, link),
        Limit::with_extended(session.extended),
        octets,
    );
}

/// Puts the line of a record that a capture of the session may have.
fn put_line_of<W: Sink, A: Allocator + Copy>(
    lines: &mut VerdictLines<'_, A, W>,
    config: &Config,
    session: &Session,
    link: Option<Link>,
    shown: &Record<'_>,
)
    requires { (last : Option ℕ) × IsAllowed session.now last (shown_of shown.now) }
    ensures { (text : List ℕ) × IsLineOf config.now session.now link (shown_of shown.now) text
        × PutsLines lines.old lines.new text }
{
    match shown {
        Record::In(_, _) => {},
        Record::Out(_, octets) => put_sent(lines, config, session, link, octets),
        Record::Change(_, _, _) => {},
    }
}

/// Puts the line of the impossible record's message, if there is one that was sent.
pub(crate) fn put_sent_line<W: Sink, A: Allocator + Copy>(
    lines: &mut VerdictLines<'_, A, W>,
    config: &Config,
    session: &Session,
    link: Option<Link>,
    impossible: &Option<Impossible<A>>,
)
    requires { CanBePut session.now impossible.now }
    ensures { (text : List ℕ) × IsSentLine config.now session.now link (next_in impossible.now) text
        × PutsLines lines.old lines.new text }
{
    match impossible {
        None => {},
        Some(impossible) => {
            let shown = impossible.record.as_record();
            put_line_of(lines, config, session, link, &shown);
        }
    }
}
