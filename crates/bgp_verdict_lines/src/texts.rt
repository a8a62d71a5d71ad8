//! Texts in memory, as the lines have them that are printed without `--json`.

ghost use Rattle.std.specs.Prelude.{◌≡◌, ℕ, List, IfOk, OnOk, IsOk, map, take};
ghost use Rattle.bgp_why.specs.UpdateParts.{shown_part};
ghost use Rattle.mrt.specs.MemSink.{sink_state};
ghost use Rattle.bgp_why.specs.Cut.{cut};
ghost use Rattle.bgp_why.specs.Applying.{update_asks};
ghost use Rattle.bgp_why.specs.Asked.{asked_text};
ghost use Rattle.bgp_why.specs.Items.{item_text};
ghost use Rattle.bgp_why.specs.Lacks.{but_text};
ghost use Rattle.bgp_why.specs.Message.{name_text};
ghost use Rattle.bgp_why.specs.NoteLines.{note_text};

use bgp_prefix::Seconds;
use bgp_text::Lines;
use bgp_why::{
    Asked, AskedUpdate, Item, Lacks, MessageName, Note, Style, put_asked, put_but, put_cut,
    put_item, put_name, put_note_text, put_update_asks,
};
use mrt::{Failed, MemSink};
use std::alloc::{AllocError, Allocator};

/// Returns what a sink in memory took, if it had memory for all of it.
pub(crate) fn taken<A: Allocator>(
    sink: MemSink<A>,
    handed: Result<(), Failed>,
) -> Result<Vec<u8, A>, AllocError>
    ensures { IfOk result (λ text. IsOk handed × (text.items ≡ (sink_state sink).octets)) }
{
    match handed {
        Ok(()) => Ok(sink.into_octets()),
        Err(Failed) => Err(AllocError),
    }
}

/// Returns the text of an item.
pub(crate) fn item_text<A: Allocator>(
    alloc: A,
    first: Seconds,
    item: &Item,
) -> Result<Vec<u8, A>, AllocError>
    ensures { IfOk result (λ text. text.items ≡ item_text first item.now) }
{
    let mut sink = MemSink::new(alloc);
    let mut lines = Lines::new(&mut sink);
    put_item(&mut lines, first, item);
    let handed = lines.hand_over();
    // No effect: it ends the loan of the sink.
    lines.into_sink();
    taken(sink, handed)
}

/// Returns what a record lacks of an item, if it resembles this one.
pub(crate) fn but_text<A: Allocator, B: Allocator>(
    alloc: A,
    style: &Style,
    item: &Item,
    lacks: &Lacks<'_, B>,
) -> Result<Vec<u8, A>, AllocError>
    ensures { IfOk result (λ text. text.items
        ≡ but_text style.now.own_faults lacks.now item.now) }
{
    let mut sink = MemSink::new(alloc);
    let mut lines = Lines::new(&mut sink);
    put_but(&mut lines, style.own_faults, item, lacks);
    let handed = lines.hand_over();
    // No effect: it ends the loan of the sink.
    lines.into_sink();
    taken(sink, handed)
}

/// Returns how a message is called.
pub(crate) fn name_text<A: Allocator>(
    alloc: A,
    name: &MessageName,
) -> Result<Vec<u8, A>, AllocError>
    ensures { IfOk result (λ text. text.items ≡ name_text name.now) }
{
    let mut sink = MemSink::new(alloc);
    let mut lines = Lines::new(&mut sink);
    put_name(&mut lines, name);
    let handed = lines.hand_over();
    // No effect: it ends the loan of the sink.
    lines.into_sink();
    taken(sink, handed)
}

/// Returns what a message asks for.
pub(crate) fn asked_text<A: Allocator>(
    alloc: A,
    style: &Style,
    asked: &Asked,
) -> Result<Vec<u8, A>, AllocError>
    ensures { IfOk result (λ text. text.items
        ≡ asked_text style.now.peer_as_is_free asked.now.state asked.now.message) }
{
    let mut sink = MemSink::new(alloc);
    let mut lines = Lines::new(&mut sink);
    put_asked(
        &mut lines,
        style.peer_as_is_free,
        asked.state,
        &asked.message,
    );
    let handed = lines.hand_over();
    // No effect: it ends the loan of the sink.
    lines.into_sink();
    taken(sink, handed)
}

/// Returns what an UPDATE asks for.
pub(crate) fn update_text<A: Allocator, B: Allocator>(
    alloc: A,
    asked: &AskedUpdate<'_, B>,
) -> Result<Vec<u8, A>, AllocError>
    ensures { IfOk result (λ text. text.items ≡ update_asks asked.now.applied asked.now.refused
        (map shown_part asked.now.parts.items)) }
{
    let mut sink = MemSink::new(alloc);
    let mut lines = Lines::new(&mut sink);
    put_update_asks(
        &mut lines,
        asked.applied,
        &asked.refused,
        asked.parts.as_slice(),
    );
    let handed = lines.hand_over();
    // No effect: it ends the loan of the sink.
    lines.into_sink();
    taken(sink, handed)
}

/// Returns the text of a note.
pub(crate) fn note_text<A: Allocator>(alloc: A, note: Note) -> Result<Vec<u8, A>, AllocError>
    ensures { IfOk result (λ text. text.items ≡ note_text note) }
{
    let mut sink = MemSink::new(alloc);
    let mut lines = Lines::new(&mut sink);
    put_note_text(&mut lines, note);
    let handed = lines.hand_over();
    // No effect: it ends the loan of the sink.
    lines.into_sink();
    taken(sink, handed)
}

/// Returns what is shown of a text of which these are the first 256 octets.
pub(crate) fn cut_text<A: Allocator>(alloc: A, front: &[u8]) -> Result<Vec<u8, A>, AllocError>
    ensures { (text : List ℕ) → front.now ≡ take 256 text
        → IfOk result (λ shown. shown.items ≡ cut text) }
{
    let mut sink = MemSink::new(alloc);
    let mut lines = Lines::new(&mut sink);
    put_cut(&mut lines, front);
    let handed = lines.hand_over();
    // No effect: it ends the loan of the sink.
    lines.into_sink();
    taken(sink, handed)
}
