//! The lines of notes.

ghost use Rattle.std.specs.Prelude.{◌≡◌, ◌&&◌, not};
ghost use Rattle.bgp_text.specs.Lines.{Writes};
ghost use Rattle.bgp_why.specs.NoteLines.{note_line, note_lines, note_said, note_text};
ghost use Rattle.bgp_why.specs.NoteLines.{shown_notes, without_line, without_note};

use crate::notes::Notes;
use crate::style::Style;
use bgp_open::RouteOffer;
use bgp_text::Lines;
use bgp_why_parts::put_offer;
use mrt::Sink;

/// How many notes there are.
pub const NOTES: usize = 8;

/// A note.
#[derive(Clone, Copy, Debug, PartialEq, Eq)]
pub enum Note {
    /// The router may refuse any OPEN.
    MayBeRefused,
    /// The file begins elsewhere than the session.
    BeginsElsewhere,
    /// The OPEN was received before one was sent.
    OpenCameFirst,
    /// This is judged without what both OPENs offer; the OPEN that was sent offers this.
    Without(RouteOffer),
    /// The OPEN that was received has extended parameters.
    ExtendedParameters,
    /// No KEEPALIVE is sent without a Hold Time.
    KeepaliveWithoutHold,
    /// The connection may have ended before what was due.
    MayHaveEnded,
    /// A message that was sent may be missing.
    MayBeMissing,
}

/// Puts the text of a note.
pub fn put_note_text<W: Sink>(lines: &mut Lines<'_, W>, note: Note)
    ensures { Writes lines.old lines.new (note_text note) }
{
    match note {
        Note::MayBeRefused => lines.put(
            b"a router may refuse any OPEN of version 4 with 2/6 (Unacceptable Hold Time), \
              2/7 (Unsupported Capability) or 2/11 (Role Mismatch)",
        ),
        Note::BeginsElsewhere => lines.put(
            b"the file does not begin where the session does, with a change from Idle to \
              Connect or to Active",
        ),
        Note::OpenCameFirst => {
            lines.put(b"the OPEN was received before one was sent: --delay-open allows that");
        }
        Note::Without(offer) => {
            lines.put(b"judged without what both OPENs offer: --offers ");
            put_offer(lines, offer);
        }
        Note::ExtendedParameters => lines.put(
            b"the OPEN received has extended parameters (RFC 9072), which are not judged",
        ),
        Note::KeepaliveWithoutHold => {
            lines.put(b"with Hold Time 0 no KEEPALIVE is sent but the one that answers the OPEN");
        }
        Note::MayHaveEnded => {
            lines.put(b"the connection may have ended before what was due was written");
        }
        Note::MayBeMissing => {
            lines.put(b"a sent message may be missing from the file here, or come later in it");
        }
    }
}

/// The line of what the OPEN offers that was sent, if this is judged without it.
fn put_without<W: Sink>(lines: &mut Lines<'_, W>, without: Option<RouteOffer>)
    ensures { Writes lines.old lines.new (without_line without) }
{
    match without {
        None => lines.put(b""),
        Some(offer) => {
            lines.put(b"  note: ");
            put_note_text(lines, Note::Without(offer));
            lines.put(b"\n");
        }
    }
}

/// A note, where something is so.
fn put_note<W: Sink>(lines: &mut Lines<'_, W>, is_so: bool, note: Note)
    ensures { Writes lines.old lines.new (note_line is_so (note_said note)) }
{
    if is_so {
        lines.put(b"  note: ");
        put_note_text(lines, note);
        lines.put(b"\n");
    } else {
        lines.put(b"");
    }
}

/// Whether a message may be missing, which it can't be from a recording.
fn is_missing(is_recording: bool, notes: &Notes) -> bool
    ensures { result ≡ (notes.now.may_be_missing && not is_recording) }
{
    notes.may_be_missing && !is_recording
}

/// Puts the notes, a line each.
pub fn put_notes<W: Sink>(lines: &mut Lines<'_, W>, style: &Style, notes: &Notes)
    ensures { Writes lines.old lines.new (note_lines style.now.is_recording notes.now) }
{
    put_note(lines, notes.may_be_refused, Note::MayBeRefused);
    put_note(lines, notes.begins_elsewhere, Note::BeginsElsewhere);
    put_note(lines, notes.open_came_first, Note::OpenCameFirst);
    put_without(lines, notes.without);
    put_note(lines, notes.extended_parameters, Note::ExtendedParameters);
    put_note(
        lines,
        notes.keepalive_without_hold,
        Note::KeepaliveWithoutHold,
    );
    put_note(lines, notes.may_have_ended, Note::MayHaveEnded);
    let missing = is_missing(style.is_recording, notes);
    put_note(lines, missing, Note::MayBeMissing);
}

/// The note that this is judged without an offer, if there is one.
fn without_note(without: Option<RouteOffer>) -> Option<Note>
    ensures { result ≡ without_note without }
{
    match without {
        None => None,
        Some(offer) => Some(Note::Without(offer)),
    }
}

/// Returns the notes in the order of their lines, or `None` in the place of each that there isn't.
pub fn shown_notes(style: &Style, notes: &Notes) -> [Option<Note>; NOTES]
    ensures { result ≡ shown_notes style.now.is_recording notes.now }
{
    [
        notes.may_be_refused.then_some(Note::MayBeRefused),
        notes.begins_elsewhere.then_some(Note::BeginsElsewhere),
        notes.open_came_first.then_some(Note::OpenCameFirst),
        without_note(notes.without),
        notes
            .extended_parameters
            .then_some(Note::ExtendedParameters),
        notes
            .keepalive_without_hold
            .then_some(Note::KeepaliveWithoutHold),
        notes.may_have_ended.then_some(Note::MayHaveEnded),
        is_missing(style.is_recording, notes).then_some(Note::MayBeMissing),
    ]
}
