//! Laws of texts: each is UTF-8 and has no control character, neither of ASCII nor DEL nor one of
//! U+0080 to U+009F.

ghost use Rattle.bgp_why_laws.specs.Texts.{AsksAreVisible, CausesAreVisible, CutsAreVisible};
ghost use Rattle.bgp_why_laws.specs.Texts.{DataAreVisible, DeedsAreVisible, ItemsAreVisible};
ghost use Rattle.bgp_why_laws.specs.Texts.{LacksAreVisible, NamesAreVisible, NotesAreVisible};
ghost use Rattle.bgp_why_laws.specs.Texts.{UpdateAsksAreVisible};

use bgp_why::Lacks;
use std::alloc::Allocator;

/// States this of the front of a message's line in words, and of what the data of a NOTIFICATION
/// say: no character is cut.
pub fn each_cut_is_visible()
    ensures messages { CutsAreVisible }
    ensures data { DataAreVisible }
{}

/// States this of the names of messages.
pub fn each_name_is_visible()
    ensures { NamesAreVisible }
{}

/// States this of what a message asks for, and an UPDATE.
pub fn each_ask_is_visible()
    ensures messages { AsksAreVisible }
    ensures updates { UpdateAsksAreVisible }
{}

/// States this of what may come.
pub fn each_item_is_visible()
    ensures { ItemsAreVisible }
{}

/// States this of what a record lacks of it.
pub fn each_lack_is_visible<A: Allocator>(lacks: &Lacks<'_, A>)
    ensures { LacksAreVisible lacks.now }
{
    let _lacks = lacks;
}

/// States this of notes.
pub fn each_note_is_visible()
    ensures { NotesAreVisible }
{}

/// States this of what was done.
pub fn each_deed_is_visible()
    ensures { DeedsAreVisible }
{}

/// States this of what is wrong with it.
pub fn each_cause_is_visible<A: Allocator>(lacks: &Lacks<'_, A>)
    ensures { CausesAreVisible lacks.now }
{
    let _lacks = lacks;
}
