//! The parts of a message, of whichever type, in one line.

ghost use Rattle.std.specs.Prelude.{◌≡◌, ℕ, List, take};
ghost use Rattle.bgp_names.specs.Lines.{Writes};
ghost use Rattle.bgp_why_parts.specs.Cut.{cut};
ghost use Rattle.bgp_why_parts.specs.Parts.{behind, parts_text, shown};

use crate::cut::put_cut;
use crate::notifications::put_notification_parts;
use crate::opens::put_open_parts;
use crate::room::Room;
use crate::updates::put_update_parts;
use bgp_names::Lines;
use bgp_parts::{NotificationParts, OwnOpenParts, UpdatePart};
use mrt::Sink;

/// The parts of a message: what it lacks.
#[derive(Clone, Copy)]
pub enum Parts<'a> {
    /// It lacks nothing.
    Nothing,
    /// What an OPEN that was sent lacks of the local system's own.
    Open(&'a OwnOpenParts),
    /// What keeps an UPDATE from being clean, and whether it was sent.
    Update(bool, &'a [UpdatePart<'a>]),
    /// What a NOTIFICATION of this code that was sent lacks of those that are possible.
    Notification(u8, &'a NotificationParts<'a>),
}

/// All parts.
fn put_all<W: Sink>(lines: &mut Lines<'_, W>, parts: Parts<'_>)
    ensures { Writes lines.old lines.new (parts_text parts.entry) }
{
    match parts {
        Parts::Nothing => {}
        Parts::Open(parts) => put_open_parts(lines, parts),
        Parts::Update(is_sent, parts) => put_update_parts(lines, is_sent, parts),
        Parts::Notification(code, parts) => put_notification_parts(lines, code, parts),
    }
}

/// A text of which this is the front, after another text; nothing if it is empty.
fn put_behind<W: Sink>(lines: &mut Lines<'_, W>, before: &[u8], front: &[u8])
    ensures { (text : List ℕ) → front.now ≡ take 256 text
        → Writes lines.old lines.new (behind before.now (cut text)) }
{
    if front.is_empty() {
        return;
    }
    lines.put(before);
    put_cut(lines, front);
}

/// Puts the parts of a message, 200 octets of them at the most, after these octets: `: ORIGIN with
/// wrong value 03; NEXT_HOP missing`. Nothing is put if there is no part.
pub fn put_parts<W: Sink>(lines: &mut Lines<'_, W>, before: &[u8], parts: Parts<'_>)
    ensures { Writes lines.old lines.new (shown before.now (parts_text parts.entry)) }
{
    let mut room = Room::new();
    let mut within = Lines::new(&mut room);
    put_all(&mut within, parts);
    // A room never fails.
    let _ = within.hand_over();
    put_behind(lines, before, within.into_sink().front());
}
