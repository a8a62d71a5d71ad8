//! Laws of lines: each is one whose object determines its text, and whose texts are visible.

ghost use Rattle.bgp_why_laws.specs.Lines.{DataAreLines, EndsAreLines, ItemsAreLines};
ghost use Rattle.bgp_why_laws.specs.Lines.{MessagesAreLines, NotesAreLines, OthersAreLines};
ghost use Rattle.bgp_why_laws.specs.Lines.{ReceivedAreLines, RecordsAreLines, UpdatesAreLines};

use bgp_why::Lacks;
use std::alloc::Allocator;

/// States this of the impossible record.
pub fn each_record_is_a_line<A: Allocator>(lacks: &Lacks<'_, A>)
    ensures { RecordsAreLines lacks.now }
{
    let _lacks = lacks;
}

/// States this of its message, and of its data.
pub fn each_message_is_a_line()
    ensures messages { MessagesAreLines }
    ensures data { DataAreLines }
{}

/// States this of the message that was received last.
pub fn the_last_received_is_a_line()
    ensures messages { ReceivedAreLines }
    ensures updates { UpdatesAreLines }
{}

/// States this of what may come, and of what may come in other orders.
pub fn each_item_is_a_line<A: Allocator>(lacks: &Lacks<'_, A>)
    ensures items { ItemsAreLines lacks.now }
    ensures others { OthersAreLines }
{
    let _lacks = lacks;
}

/// States this of notes.
pub fn each_note_is_a_line()
    ensures { NotesAreLines }
{}

/// States this of an end and its routes.
pub fn each_end_is_lines()
    ensures { EndsAreLines }
{}
