//! Notes, an object each.

ghost use Rattle.std.specs.Prelude.{◌∷◌, []};
ghost use Rattle.bgp_why.specs.NoteLines.{shown_notes};
ghost use Rattle.bgp_json_verdicts.specs.Lines.{note_values};
ghost use Rattle.bgp_json_verdicts.specs.Telling.{Tells};

use crate::texts::note_text;
use bgp_json_verdicts::{ReasonLine, Telling, VerdictLine};
use bgp_text::Lines;
use bgp_why::{Note, Notes, Style, shown_notes};
use mrt::Sink;
use std::alloc::{AllocError, Allocator};

/// Puts the object of a note, if there is one.
fn tell_note<A: Allocator + Copy, W: Sink>(
    telling: &mut Telling,
    lines: &mut Lines<'_, W>,
    alloc: A,
    note: &Option<Note>,
)
    ensures { Tells telling.old telling.new lines.old lines.new (note_values (note.now ∷ [])) }
{
    let Some(note) = *note else {
        return;
    };
    match note_text(alloc, note) {
        Ok(text) => {
            let reason = ReasonLine::Note(text.as_slice());
            telling.put(lines, alloc, &VerdictLine::Reason(reason));
        }
        Err(AllocError) => telling.fail(),
    }
}

/// Puts the notes, an object each.
pub(crate) fn tell_notes<A: Allocator + Copy, W: Sink>(
    telling: &mut Telling,
    lines: &mut Lines<'_, W>,
    alloc: A,
    style: &Style,
    notes: &Notes,
)
    ensures { Tells telling.old telling.new lines.old lines.new
        (note_values (shown_notes style.now.is_recording notes.now)) }
{
    for note in &shown_notes(style, notes) {
        tell_note(telling, lines, alloc, note);
    }
}
