//! How a session ended, in words.

ghost use Rattle.std.specs.Prelude.{◌≡◌, ◌++◌, ℕ, List, codes, option_map};
ghost use Rattle.std.specs.Borrow.{Bor};
ghost use Rattle.std.specs.List.{list_any};
ghost use Rattle.bgp_text.specs.Lines.{Writes};
ghost use Rattle.bgp_lines.specs.Notifications.{error_data_text};
ghost use Rattle.bgp_values.specs.ErrorData.{data_of, error_of};
ghost use Rattle.bgp_why.specs.Cut.{cut};
ghost use Rattle.bgp_ended.specs.HowText.{caused_text, closing_text, detail_text, error_text};
ghost use Rattle.bgp_ended.specs.HowText.{how_text, is_control, plain_error_text, raw_by};
ghost use Rattle.bgp_ended.specs.HowText.{raw_text, sentence_in, with_data_text};
ghost use Rattle.bgp_ended.specs.Values.{how_value};

use crate::ended::How;
use bgp_lines::{put_error_data, put_quoted};
use bgp_names::put_state_name;
use bgp_open::Notification;
use bgp_text::Lines;
use bgp_values::{ErrorData, cause_of, read_text};
use bgp_why::{Room, put_cut, put_full_code};
use mrt::Sink;
use streams::Closing;

/// How many octets a sentence has at the least.
const SENTENCE: usize = 5;

/// Whether one of these octets is a control character.
fn has_control(octets: &[u8]) -> bool
    ensures { result ≡ list_any is_control octets.now }
{
    octets.iter().any(|octet| *octet < b' ')
}

/// Returns the sentence that data are, if they are one.
fn sentence_in(detail: &[u8]) -> Option<&str>
    ensures { option_map (λ (text : Bor (List ℕ)). text.now) result
        ≡ sentence_in detail.entry.now }
{
    if detail.len() < SENTENCE || has_control(detail) {
        return None;
    }
    read_text(detail)
}

/// A sentence, or else the data.
fn put_raw_by<W: Sink>(lines: &mut Lines<'_, W>, sentence: Option<&str>, detail: &[u8])
    ensures { Writes lines.old lines.new
        (raw_by (option_map (λ (text : Bor (List ℕ)). text.now) sentence.entry) detail.now) }
{
    match sentence {
        None => lines.put_digits(detail),
        Some(text) => put_quoted(lines, text),
    }
}

/// Data as they are.
#[tactic(auto, unfolding(crate::specs::HowText::raw_text))]
fn put_raw<W: Sink>(lines: &mut Lines<'_, W>, detail: &[u8])
    ensures { Writes lines.old lines.new (raw_text detail.now) }
{
    put_raw_by(lines, sentence_in(detail), detail);
}

/// Data as they are, cut if that is too long.
fn put_cut_raw<W: Sink>(lines: &mut Lines<'_, W>, detail: &[u8])
    ensures { Writes lines.old lines.new (cut (raw_text detail.now)) }
{
    let mut room = Room::new();
    let mut within = Lines::new(&mut room);
    put_raw(&mut within, detail);
    // A room never fails.
    let _ = within.hand_over();
    put_cut(lines, within.into_sink().front());
}

/// Data without a value.
#[tactic(auto, unfolding(crate::specs::HowText::with_data_text))]
fn put_with_data<W: Sink>(lines: &mut Lines<'_, W>, detail: &[u8])
    ensures { Writes lines.old lines.new (with_data_text detail.now) }
{
    match detail {
        [] => lines.put(b""),
        _ => {
            lines.put(b" with data ");
            put_cut_raw(lines, detail);
        }
    }
}

/// What the data of an error say, cut if that is too long.
fn put_cut_data<W: Sink>(lines: &mut Lines<'_, W>, error: Notification<'_>)
    ensures { Writes lines.old lines.new (cut (error_data_text (error_of error.entry))) }
{
    let mut room = Room::new();
    let mut within = Lines::new(&mut room);
    put_error_data(&mut within, error);
    // A room never fails.
    let _ = within.hand_over();
    put_cut(lines, within.into_sink().front());
}

/// What the data of an error say, if they say this, or else the data.
#[tactic(auto, unfolding(crate::specs::HowText::detail_text))]
fn put_detail<W: Sink>(
    lines: &mut Lines<'_, W>,
    said: Option<ErrorData<'_>>,
    error: Notification<'_>,
)
    ensures { Writes lines.old lines.new
        (detail_text (option_map data_of said.entry) (error_of error.entry)) }
{
    match said {
        None => put_with_data(lines, error.detail),
        Some(_) => {
            lines.put(b": ");
            put_cut_data(lines, error);
        }
    }
}

/// An error with its data, but for the cause of a Hard Reset.
#[tactic(auto, unfolding(crate::specs::HowText::plain_error_text))]
fn put_plain_error<W: Sink>(lines: &mut Lines<'_, W>, error: Notification<'_>)
    ensures { Writes lines.old lines.new (plain_error_text (error_of error.entry)) }
{
    put_full_code(lines, error.code, error.subcode);
    put_detail(lines, ErrorData::of(error), error);
}

/// An error, with the cause of a Hard Reset if it has one.
#[tactic(auto, unfolding(crate::specs::HowText::caused_text))]
fn put_caused<W: Sink>(
    lines: &mut Lines<'_, W>,
    error: Notification<'_>,
    cause: Option<Notification<'_>>,
)
    ensures { Writes lines.old lines.new
        (caused_text (error_of error.entry) (option_map error_of cause.entry)) }
{
    match cause {
        None => put_plain_error(lines, error),
        Some(cause) => {
            put_full_code(lines, error.code, error.subcode);
            lines.put(b": ");
            put_plain_error(lines, cause);
        }
    }
}

/// An error.
#[tactic(auto, unfolding(crate::specs::HowText::error_text))]
fn put_error<W: Sink>(lines: &mut Lines<'_, W>, error: Notification<'_>)
    ensures { Writes lines.old lines.new (error_text (error_of error.entry)) }
{
    put_caused(lines, error, cause_of(error));
}

/// By which of both TCP closed a connection.
fn put_closing<W: Sink>(lines: &mut Lines<'_, W>, closing: Closing)
    ensures { Writes lines.old lines.new (closing_text closing) }
{
    match closing {
        Closing::Fin => lines.put(b"FIN, no NOTIFICATION"),
        Closing::Reset => lines.put(b"RST, no NOTIFICATION"),
    }
}

/// Puts how a session ended: `FIN, no NOTIFICATION`, `OpenConfirm to Idle, no NOTIFICATION`, or the
/// NOTIFICATION with its data. Of a text from the wire 200 octets are put at the most.
///
/// ```text
/// NOTIFICATION 6/2 (Cease, Administrative Shutdown): "maintenance"
/// NOTIFICATION 6/1 (Cease, Maximum Number of Prefixes Reached): IPv4 unicast 100 prefixes
/// NOTIFICATION 6/9 (Cease, Hard Reset): 6/4 (Cease, Administrative Reset): "hi"
/// NOTIFICATION 2/2 (OPEN Message Error, Bad Peer AS) with data fdea
/// ```
#[tactic(auto, unfolding(crate::specs::HowText::how_text))]
pub fn put_how<W: Sink>(lines: &mut Lines<'_, W>, how: How<'_>)
    ensures { Writes lines.old lines.new (how_text (how_value how.entry)) }
{
    match how {
        How::Notified(error) => {
            lines.put(b"NOTIFICATION ");
            put_error(lines, error);
        }
        How::Closed(closing) => put_closing(lines, closing),
        How::Fallen(state) => {
            put_state_name(lines, state);
            lines.put(b" to Idle, no NOTIFICATION");
        }
    }
}
