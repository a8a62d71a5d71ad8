//! The lines of a reason, but for that of the impossible record.

ghost use Rattle.std.specs.Prelude.{◌≡◌, ℕ, List, Some, map, take};
ghost use Rattle.bgp_text.specs.Lines.{Writes};
ghost use Rattle.bgp_why.specs.Applying.{last_update_line};
ghost use Rattle.bgp_why.specs.Asked.{last_received_line};
ghost use Rattle.bgp_why.specs.MessageLine.{data_line, message_line};
ghost use Rattle.bgp_why.specs.NoteLines.{note_lines};
ghost use Rattle.bgp_why.specs.NotWhole.{not_whole_line, unfit_line};
ghost use Rattle.bgp_why.specs.Possible.{possible_but_lines, possible_lines};
ghost use Rattle.bgp_why.specs.State.{already_line, another_as_line, state_line};
ghost use Rattle.bgp_verdict_lines.specs.Lines.{PutsLines};

use crate::notes::tell_notes;
use crate::others::tell_other_orders;
use crate::possible::tell_possible;
use crate::received::{tell_last_received, tell_last_update};
use crate::teller::VerdictTeller;
use crate::texts::cut_text;
use crate::verdict_lines::VerdictLines;
use bgp_json_verdicts::{At, ReasonLine, VerdictLine};
use bgp_machine::Fsm;
use bgp_reason::Possible;
use bgp_text::Lines;
use bgp_why::{
    Asked, AskedUpdate, Lacks, MessageName, NotWhole, Notes, Place, SentAlready, Style, unfit_text,
};
use mrt::Sink;
use std::alloc::{AllocError, Allocator, Global};

/// Puts `message: LINE`, 200 octets of a line at the most, of which these are the first 256: its
/// line of `bgp decode --names`.
pub fn put_message_line<A: Allocator + Copy, W: Sink>(
    lines: &mut VerdictLines<'_, A, W>,
    front: &[u8],
)
    ensures { (text : List ℕ) → front.now ≡ take 256 text
        → PutsLines lines.old lines.new (message_line text) }
{
    match &mut lines.teller {
        VerdictTeller::Text => bgp_why::put_message_line(&mut lines.lines, front),
        VerdictTeller::Json(telling) => match cut_text(lines.alloc, front) {
            Ok(text) => {
                let line = VerdictLine::Reason(ReasonLine::Message(text.as_slice()));
                telling.put(&mut lines.lines, lines.alloc, &line);
            }
            Err(AllocError) => telling.fail(),
        },
    }
}

/// Puts `data: TEXT`, 200 octets of a text at the most, of which these are the first 256: what the
/// data of a NOTIFICATION say.
pub fn put_data_line<A: Allocator + Copy, W: Sink>(lines: &mut VerdictLines<'_, A, W>, front: &[u8])
    ensures { (text : List ℕ) → front.now ≡ take 256 text
        → PutsLines lines.old lines.new (data_line text) }
{
    match &mut lines.teller {
        VerdictTeller::Text => bgp_why::put_data_line(&mut lines.lines, front),
        VerdictTeller::Json(telling) => match cut_text(lines.alloc, front) {
            Ok(text) => {
                let line = VerdictLine::Reason(ReasonLine::Data(text.as_slice()));
                telling.put(&mut lines.lines, lines.alloc, &line);
            }
            Err(AllocError) => telling.fail(),
        },
    }
}

/// Puts why a message is no whole one, as text.
fn put_unfit_text<W: Sink>(lines: &mut Lines<'_, W>, why: NotWhole)
    ensures { Writes lines.old lines.new (unfit_line why) }
{
    lines.put(b"  not a whole message: ");
    lines.put(unfit_text(why).as_bytes());
    lines.put(b"\n");
}

/// Puts why a message is no whole one.
fn put_unfit<A: Allocator + Copy, W: Sink>(lines: &mut VerdictLines<'_, A, W>, why: NotWhole)
    ensures { PutsLines lines.old lines.new (unfit_line why) }
{
    match &mut lines.teller {
        VerdictTeller::Text => put_unfit_text(&mut lines.lines, why),
        VerdictTeller::Json(telling) => {
            let line = VerdictLine::Reason(ReasonLine::NotWhole(why));
            telling.put(&mut lines.lines, lines.alloc, &line);
        }
    }
}

/// Puts why a message is no whole one, if its octets don't fit.
fn put_misfit<A: Allocator + Copy, W: Sink>(lines: &mut VerdictLines<'_, A, W>, why: NotWhole)
    ensures { PutsLines lines.old lines.new (not_whole_line (Some why)) }
{
    match why {
        NotWhole::Faulty(_) => {}
        NotWhole::BelowHeader => put_unfit(lines, why),
        NotWhole::OtherCount => put_unfit(lines, why),
    }
}

/// Puts why a message is no whole one, if its octets don't fit. The message's name has the faults of
/// a header.
pub fn put_not_whole<A: Allocator + Copy, W: Sink>(
    lines: &mut VerdictLines<'_, A, W>,
    why: Option<NotWhole>,
)
    ensures { PutsLines lines.old lines.new (not_whole_line why) }
{
    match why {
        None => {}
        Some(why) => put_misfit(lines, why),
    }
}

/// Puts that the lines below are those of a configuration with another AS number of the peer than
/// this one.
pub fn put_another_as<A: Allocator + Copy, W: Sink>(lines: &mut VerdictLines<'_, A, W>, number: u32)
    ensures { PutsLines lines.old lines.new (another_as_line number) }
{
    match &mut lines.teller {
        VerdictTeller::Text => bgp_why::put_another_as(&mut lines.lines, number),
        VerdictTeller::Json(telling) => {
            let line = VerdictLine::Reason(ReasonLine::AnotherAs(number));
            telling.put(&mut lines.lines, lines.alloc, &line);
        }
    }
}

/// Puts the state after the last change, and the record that shows this change, if there was one.
pub fn put_state<A: Allocator + Copy, W: Sink>(
    lines: &mut VerdictLines<'_, A, W>,
    style: &Style,
    state: Fsm,
    since: Option<Place>,
)
    ensures { PutsLines lines.old lines.new (state_line style.now.first state since) }
{
    match &mut lines.teller {
        VerdictTeller::Text => bgp_why::put_state(&mut lines.lines, style, state, since),
        VerdictTeller::Json(telling) => {
            let line = VerdictLine::Reason(ReasonLine::State(state, At::of(style.first, since)));
            telling.put(&mut lines.lines, lines.alloc, &line);
        }
    }
}

/// Puts the message that was received last: where its record stands, how it is called, and what it
/// asks for.
pub fn put_last_received<A: Allocator + Copy, W: Sink>(
    lines: &mut VerdictLines<'_, A, W>,
    style: &Style,
    place: &Place,
    asked: &Asked,
)
    ensures { PutsLines lines.old lines.new (last_received_line style.now place.now asked.now) }
{
    match &mut lines.teller {
        VerdictTeller::Text => bgp_why::put_last_received(&mut lines.lines, style, place, asked),
        VerdictTeller::Json(telling) => {
            tell_last_received(telling, &mut lines.lines, lines.alloc, style, place, asked);
        }
    }
}

/// Puts the UPDATE that was received last in Established: where its record stands, how it is
/// called, and all that may become of it.
pub fn put_last_update<A: Allocator + Copy, B: Allocator, W: Sink>(
    lines: &mut VerdictLines<'_, A, W>,
    style: &Style,
    place: &Place,
    name: &MessageName,
    asked: &AskedUpdate<'_, B>,
)
    ensures { PutsLines lines.old lines.new
        (last_update_line style.now place.now name.now asked.now) }
{
    match &mut lines.teller {
        VerdictTeller::Text => {
            bgp_why::put_last_update(&mut lines.lines, style, place, name, asked);
        }
        VerdictTeller::Json(telling) => {
            tell_last_update(
                telling,
                &mut lines.lines,
                lines.alloc,
                style,
                place,
                name,
                asked,
            );
        }
    }
}

/// Puts what may stand in the impossible record's place, an item a line, with what the record lacks
/// of the item that it resembles; and what could have been sent there in other orders.
pub fn put_possible_but<A: Allocator + Copy, B: Allocator, W: Sink>(
    lines: &mut VerdictLines<'_, A, W>,
    style: &Style,
    possible: &Possible,
    lacks: &Lacks<'_, B>,
)
    ensures { PutsLines lines.old lines.new
        (possible_but_lines style.now possible.now lacks.now) }
{
    match &mut lines.teller {
        VerdictTeller::Text => {
            bgp_why::put_possible_but(&mut lines.lines, style, possible, lacks);
        }
        VerdictTeller::Json(telling) => {
            let alloc = lines.alloc;
            tell_possible(
                telling,
                &mut lines.lines,
                alloc,
                style,
                false,
                possible,
                lacks,
            );
            tell_other_orders(telling, &mut lines.lines, alloc, style, possible);
        }
    }
}

/// Puts what may follow all records, an item a line.
pub fn put_possible<A: Allocator + Copy, W: Sink>(
    lines: &mut VerdictLines<'_, A, W>,
    style: &Style,
    possible: &Possible,
)
    ensures { PutsLines lines.old lines.new (possible_lines style.now possible.now) }
{
    match &mut lines.teller {
        VerdictTeller::Text => bgp_why::put_possible(&mut lines.lines, style, possible),
        VerdictTeller::Json(telling) => {
            tell_possible::<A, Global, W>(
                telling,
                &mut lines.lines,
                lines.alloc,
                style,
                true,
                possible,
                &Lacks::Nothing,
            );
        }
    }
}

/// Puts a NOTIFICATION that was sent before the impossible one, if one was.
pub fn put_sent_already<A: Allocator + Copy, W: Sink>(
    lines: &mut VerdictLines<'_, A, W>,
    style: &Style,
    sent: Option<SentAlready>,
)
    ensures { PutsLines lines.old lines.new (already_line style.now.first sent) }
{
    let Some(sent) = sent else {
        return;
    };
    match &mut lines.teller {
        VerdictTeller::Text => bgp_why::put_sent_already(&mut lines.lines, style, Some(sent)),
        VerdictTeller::Json(telling) => {
            let at = At::new(style.first, sent.place);
            let line = VerdictLine::Reason(ReasonLine::SentAlready(sent.code, sent.subcode, at));
            telling.put(&mut lines.lines, lines.alloc, &line);
        }
    }
}

/// Puts the notes, a line each.
pub fn put_notes<A: Allocator + Copy, W: Sink>(
    lines: &mut VerdictLines<'_, A, W>,
    style: &Style,
    notes: &Notes,
)
    ensures { PutsLines lines.old lines.new (note_lines style.now.is_recording notes.now) }
{
    match &mut lines.teller {
        VerdictTeller::Text => bgp_why::put_notes(&mut lines.lines, style, notes),
        VerdictTeller::Json(telling) => {
            tell_notes(telling, &mut lines.lines, lines.alloc, style, notes);
        }
    }
}
