//! The object of the message that was received last.

ghost use Rattle.std.specs.Prelude.{◌≡◌, ◌∷◌, [], List, ℕ, IfOk, map};
ghost use Rattle.bgp_why.specs.UpdateParts.{shown_part};
ghost use Rattle.bgp_why.specs.Applying.{update_asks};
ghost use Rattle.bgp_why.specs.Asked.{asked_text};
ghost use Rattle.bgp_why.specs.Message.{name_text};
ghost use Rattle.bgp_json_verdicts.specs.At.{at_of};
ghost use Rattle.bgp_json_verdicts.specs.Lines.{LastReceived, Reasons};
ghost use Rattle.bgp_json_verdicts.specs.Telling.{Tells};

use crate::texts::{asked_text, name_text, update_text};
use bgp_json_verdicts::{At, ReasonLine, Telling, VerdictLine};
use bgp_text::Lines;
use bgp_why::{Asked, AskedUpdate, MessageName, Place, Style};
use mrt::Sink;
use std::alloc::{AllocError, Allocator};

/// Puts the object of a message with this name, which asks for this.
fn tell_received<A: Allocator + Copy, W: Sink>(
    telling: &mut Telling,
    lines: &mut Lines<'_, W>,
    alloc: A,
    at: At,
    name: Result<Vec<u8, A>, AllocError>,
    asked: Result<Vec<u8, A>, AllocError>,
)
    ensures { (named asks : List ℕ) → IfOk name (λ text. text.items ≡ named)
        → IfOk asked (λ text. text.items ≡ asks)
        → Tells telling.old telling.new lines.old lines.new
        (Reasons (LastReceived at named asks) ∷ []) }
{
    match (name, asked) {
        (Ok(name), Ok(asked)) => {
            let reason = ReasonLine::LastReceived(at, name.as_slice(), asked.as_slice());
            telling.put(lines, alloc, &VerdictLine::Reason(reason));
        }
        _ => telling.fail(),
    }
}

/// Puts the object of the message that was received last: where its record stands, how it is
/// called, and what it asks for.
pub(crate) fn tell_last_received<A: Allocator + Copy, W: Sink>(
    telling: &mut Telling,
    lines: &mut Lines<'_, W>,
    alloc: A,
    style: &Style,
    place: &Place,
    asked: &Asked,
)
    ensures { Tells telling.old telling.new lines.old lines.new
        (Reasons (LastReceived (at_of style.now.first place.now) (name_text asked.now.name)
        (asked_text style.now.peer_as_is_free asked.now.state asked.now.message)) ∷ []) }
{
    let at = At::new(style.first, *place);
    let name = name_text(alloc, &asked.name);
    let text = asked_text(alloc, style, asked);
    tell_received(telling, lines, alloc, at, name, text);
}

/// Puts the object of an UPDATE that was received last in Established: where its record stands, how
/// it is called, and all that may become of it.
pub(crate) fn tell_last_update<A: Allocator + Copy, B: Allocator, W: Sink>(
    telling: &mut Telling,
    lines: &mut Lines<'_, W>,
    alloc: A,
    style: &Style,
    place: &Place,
    name: &MessageName,
    asked: &AskedUpdate<'_, B>,
)
    ensures { Tells telling.old telling.new lines.old lines.new
        (Reasons (LastReceived (at_of style.now.first place.now) (name_text name.now)
        (update_asks asked.now.applied asked.now.refused
        (map shown_part asked.now.parts.items))) ∷ []) }
{
    let at = At::new(style.first, *place);
    let name = name_text(alloc, name);
    let text = update_text(alloc, asked);
    tell_received(telling, lines, alloc, at, name, text);
}
