//! The line of a NOTIFICATION in words.

ghost use Rattle.std.specs.Prelude.{◌++◌, codes, option_map};
ghost use Rattle.hex.specs.Hex.{encode_lower};
ghost use Rattle.bgp_text.specs.Lines.{Writes};
ghost use Rattle.bgp_values.specs.ErrorData.{data_of, error_of};
ghost use Rattle.bgp_lines.specs.Notifications.{codes_text, data_text, detail_text, error_text};
ghost use Rattle.bgp_lines.specs.Notifications.{hidden_text, named_notification, plain_error_text};
ghost use Rattle.bgp_lines.specs.Notifications.{bracketed_codes_text, caused_data_text};
ghost use Rattle.bgp_lines.specs.Notifications.{error_data_text, plain_data_text};

use crate::quoting::put_quoted;
use bgp_names::{put_error_name, put_family_name};
use bgp_open::Notification;
use bgp_text::Lines;
use bgp_values::{ErrorData, cause_of};
use mrt::Sink;

/// Puts the codes of an error in numbers and in words, as in `6/4 Cease, Administrative Reset`.
fn put_codes<W: Sink>(lines: &mut Lines<'_, W>, error: Notification<'_>)
    ensures { Writes lines.old lines.new (codes_text (error_of error.entry)) }
{
    lines.put_decimal(error.code);
    lines.put(b"/");
    lines.put_decimal(error.subcode);
    lines.put(b" ");
    put_error_name(lines, error.code, error.subcode);
}

/// Puts what data say.
#[tactic(auto, unfolding(crate::specs::Notifications::data_text))]
fn put_data<W: Sink>(lines: &mut Lines<'_, W>, said: ErrorData<'_>)
    ensures { Writes lines.old lines.new (data_text (data_of said.entry)) }
{
    match said {
        ErrorData::Communication(text) => put_quoted(lines, text),
        ErrorData::Maximum {
            afi,
            safi,
            prefixes,
        } => {
            put_family_name(lines, afi, safi);
            lines.put(b" ");
            lines.put_decimal(prefixes);
            lines.put(b" prefixes");
        }
    }
}

/// Puts octets in hexadecimal, behind a colon.
fn put_behind_colon<W: Sink>(lines: &mut Lines<'_, W>, octets: &[u8])
    ensures { Writes lines.old lines.new (codes ": " ++ encode_lower octets.now) }
{
    lines.put(b": ");
    lines.put_digits(octets);
}

/// Puts data without a value, in hexadecimal.
#[tactic(auto, unfolding(crate::specs::Notifications::hidden_text))]
fn put_hidden<W: Sink>(lines: &mut Lines<'_, W>, detail: &[u8])
    ensures { Writes lines.old lines.new (hidden_text detail.now) }
{
    match detail {
        [] => lines.put(b""),
        _ => put_behind_colon(lines, detail),
    }
}

/// Puts what data say, or else the data, behind a colon.
fn put_detail<W: Sink>(lines: &mut Lines<'_, W>, said: Option<ErrorData<'_>>, detail: &[u8])
    ensures { Writes lines.old lines.new (detail_text (option_map data_of said.entry) detail.now) }
{
    match said {
        None => put_hidden(lines, detail),
        Some(said) => {
            lines.put(b": ");
            put_data(lines, said);
        }
    }
}

/// Puts an error with what its data say, but for the cause of a Hard Reset.
fn put_plain_error<W: Sink>(lines: &mut Lines<'_, W>, error: Notification<'_>)
    ensures { Writes lines.old lines.new (plain_error_text (error_of error.entry)) }
{
    put_codes(lines, error);
    put_detail(lines, ErrorData::of(error), error.detail);
}

/// Puts an error, with the cause of a Hard Reset if it has one.
fn put_error<W: Sink>(
    lines: &mut Lines<'_, W>,
    error: Notification<'_>,
    cause: Option<Notification<'_>>,
)
    ensures { Writes lines.old lines.new
        (error_text (error_of error.entry) (option_map error_of cause.entry)) }
{
    match cause {
        None => put_plain_error(lines, error),
        Some(cause) => {
            put_codes(lines, error);
            lines.put(b": ");
            put_plain_error(lines, cause);
        }
    }
}

/// Puts the line of a NOTIFICATION, without its end.
pub fn put_notification<W: Sink>(lines: &mut Lines<'_, W>, error: Notification<'_>)
    ensures { Writes lines.old lines.new (named_notification (error_of error.entry)) }
{
    lines.put(b"notification ");
    put_error(lines, error, cause_of(error));
}

/// Puts the codes of an error with their names, as in `6/4 (Cease, Administrative Reset)`.
fn put_bracketed_codes<W: Sink>(lines: &mut Lines<'_, W>, error: Notification<'_>)
    ensures { Writes lines.old lines.new (bracketed_codes_text (error_of error.entry)) }
{
    lines.put_decimal(error.code);
    lines.put(b"/");
    lines.put_decimal(error.subcode);
    lines.put(b" (");
    put_error_name(lines, error.code, error.subcode);
    lines.put(b")");
}

/// Puts what data say, or else the data in hexadecimal.
fn put_plain_data<W: Sink>(lines: &mut Lines<'_, W>, said: Option<ErrorData<'_>>, detail: &[u8])
    ensures { Writes lines.old lines.new
        (plain_data_text (option_map data_of said.entry) detail.now) }
{
    match said {
        None => lines.put_digits(detail),
        Some(said) => put_data(lines, said),
    }
}

/// Puts the data of an error, or those of the cause of a Hard Reset behind its codes.
fn put_caused_data<W: Sink>(
    lines: &mut Lines<'_, W>,
    error: Notification<'_>,
    cause: Option<Notification<'_>>,
)
    ensures { Writes lines.old lines.new
        (caused_data_text (error_of error.entry) (option_map error_of cause.entry)) }
{
    match cause {
        None => put_plain_data(lines, ErrorData::of(error), error.detail),
        Some(cause) => {
            put_bracketed_codes(lines, cause);
            put_detail(lines, ErrorData::of(cause), cause.detail);
        }
    }
}

/// Puts what the data of a NOTIFICATION say, alone: a communication in quotation marks; a family
/// and how many prefixes of it may be announced; for a Hard Reset (RFC 8538, 3) the codes of its
/// cause, with their names, and the cause's data behind a colon, if it has any. Other data are put
/// in hexadecimal, and nothing is put for none.
///
/// ```text
/// put_error_data(&mut lines, error); // `"maintenance"`, `IPv4 unicast 100 prefixes`, `0004`
/// ```
pub fn put_error_data<W: Sink>(lines: &mut Lines<'_, W>, error: Notification<'_>)
    ensures { Writes lines.old lines.new (error_data_text (error_of error.entry)) }
{
    put_caused_data(lines, error, cause_of(error));
}
