//! What is said beside a verdict.

ghost use Rattle.std.specs.Prelude.{◌≡◌, ◌∷◌, [], IfOk, IsOk};
ghost use Rattle.mrt.specs.MemSink.{sink_state};
ghost use Rattle.bgp_text.specs.Lines.{Writes};
ghost use Rattle.bgp_check_text.specs.JudgeLine.{command_text, judge_line};
ghost use Rattle.bgp_values.specs.declared.opens.Direction.TheVariants.{Received, Sent};
ghost use Rattle.bgp_check_text.specs.EndedLine.{ended_stretch_line};
ghost use Rattle.bgp_check_text.specs.Stretch.{ended_stretch_value};
ghost use Rattle.bgp_check_text.specs.Unshown.{end_name, passed_notes, unshown_notes};
ghost use Rattle.bgp_check_lines.specs.Lines.{PutsLines};
ghost use Rattle.bgp_check_lines.specs.Teller.{TellsValues};
ghost use Rattle.bgp_check_lines.specs.Values.{IsIncomplete, IsNotRead, PassesOver};
ghost use Rattle.bgp_check_lines.specs.Values.{all_orders_line, another_order_line, delayed_text};
ghost use Rattle.bgp_check_lines.specs.Values.{in_made_order_line, late_line, later_answer};
ghost use Rattle.bgp_check_lines.specs.Values.{one_order_line, open_line, rest_value};

use crate::check_lines::CheckLines;
use crate::teller::LineTeller;
use bgp_check_text::{EndedStretch, JudgeOptions, put_command, put_ended_stretch, put_judge_line};
use bgp_clock::put_short;
use bgp_json_check::{At, CheckDetail, CheckTeller};
use bgp_prefix::Seconds;
use bgp_recording::{Rest, Unshown};
use bgp_text::Lines;
use bgp_values::Direction;
use bgp_why::{Endpoint, Place, put_place};
use mrt::{Failed, MemSink, Sink};
use std::alloc::{AllocError, Allocator};

/// Tells how many ROUTE-REFRESH messages of a direction aren't judged, if some aren't.
fn tell_passed<A: Allocator + Copy, W: Sink>(
    teller: &mut CheckTeller,
    lines: &mut Lines<'_, W>,
    alloc: A,
    direction: Direction,
    count: usize,
)
    ensures { TellsValues teller.old teller.new lines.old lines.new
        (PassesOver direction count ∷ []) }
{
    if 0 < count {
        let detail = CheckDetail::RefreshNotJudged(direction, count as u64);
        teller.put_detail(lines, alloc, &detail);
    }
}

/// Tells the same of both directions.
fn tell_passed_over<A: Allocator + Copy, W: Sink>(
    teller: &mut CheckTeller,
    lines: &mut Lines<'_, W>,
    alloc: A,
    received: usize,
    sent: usize,
)
    ensures { TellsValues teller.old teller.new lines.old lines.new
        (PassesOver Received received ∷ PassesOver Sent sent ∷ []) }
{
    tell_passed(teller, lines, alloc, Direction::Received, received);
    tell_passed(teller, lines, alloc, Direction::Sent, sent);
}

/// Puts how many ROUTE-REFRESH messages (RFC 2918) aren't judged: of those that were received, and
/// of those that were sent.
pub fn put_passed_over<A: Allocator + Copy, W: Sink>(
    lines: &mut CheckLines<'_, A, W>,
    received: usize,
    sent: usize,
)
    ensures { PutsLines lines.old lines.new (passed_notes received sent) }
{
    match &mut lines.teller {
        LineTeller::Text => bgp_check_text::put_passed_over(&mut lines.lines, received, sent),
        LineTeller::Json(teller) => {
            tell_passed_over(teller, &mut lines.lines, lines.alloc, received, sent);
        }
    }
}

/// Tells that the last message of a direction is incomplete, if it is.
fn tell_short<A: Allocator + Copy, W: Sink>(
    teller: &mut CheckTeller,
    lines: &mut Lines<'_, W>,
    alloc: A,
    direction: Direction,
    count: usize,
)
    ensures { TellsValues teller.old teller.new lines.old lines.new
        (IsIncomplete direction count ∷ []) }
{
    if 0 < count {
        let detail = CheckDetail::Incomplete(direction, count as u64);
        teller.put_detail(lines, alloc, &detail);
    }
}

/// Returns what ends the messages of a direction.
fn end_name(is_refresh: bool) -> &'static str
    ensures { result.now ≡ end_name is_refresh }
{
    if is_refresh {
        "ROUTE-REFRESH"
    } else {
        "faulty header"
    }
}

/// Tells that octets of a direction after a faulty header aren't read, if there are some.
fn tell_behind<A: Allocator + Copy, W: Sink>(
    teller: &mut CheckTeller,
    lines: &mut Lines<'_, W>,
    alloc: A,
    direction: Direction,
    place: usize,
    count: usize,
    is_refresh: bool,
)
    ensures { TellsValues teller.old teller.new lines.old lines.new
        (IsNotRead direction place count is_refresh ∷ []) }
{
    if 0 < count {
        let behind = end_name(is_refresh);
        let detail = CheckDetail::NotRead(direction, behind, place as u64, count as u64);
        teller.put_detail(lines, alloc, &detail);
    }
}

/// Tells what is left of a direction's octets, if something is.
fn tell_rest<A: Allocator + Copy, W: Sink>(
    teller: &mut CheckTeller,
    lines: &mut Lines<'_, W>,
    alloc: A,
    direction: Direction,
    rest: Rest,
)
    ensures { TellsValues teller.old teller.new lines.old lines.new
        (rest_value direction rest ∷ []) }
{
    match rest {
        Rest::Short { count } => tell_short(teller, lines, alloc, direction, count),
        Rest::BehindFault {
            place,
            count,
            is_refresh,
        } => tell_behind(teller, lines, alloc, direction, place, count, is_refresh),
    }
}

/// Tells the same of both directions.
fn tell_rests<A: Allocator + Copy, W: Sink>(
    teller: &mut CheckTeller,
    lines: &mut Lines<'_, W>,
    alloc: A,
    received: Rest,
    sent: Rest,
)
    ensures { TellsValues teller.old teller.new lines.old lines.new
        (rest_value Received received ∷ rest_value Sent sent ∷ []) }
{
    tell_rest(teller, lines, alloc, Direction::Received, received);
    tell_rest(teller, lines, alloc, Direction::Sent, sent);
}

/// Tells what of the octets of both directions is in no message that is judged.
fn tell_unshown<A: Allocator + Copy, W: Sink>(
    teller: &mut CheckTeller,
    lines: &mut Lines<'_, W>,
    alloc: A,
    received: Unshown,
    sent: Unshown,
)
    ensures { TellsValues teller.old teller.new lines.old lines.new
        (PassesOver Received received.passed_over ∷ PassesOver Sent sent.passed_over
        ∷ rest_value Received received.rest ∷ rest_value Sent sent.rest ∷ []) }
{
    tell_passed_over(teller, lines, alloc, received.passed_over, sent.passed_over);
    tell_rests(teller, lines, alloc, received.rest, sent.rest);
}

/// Puts what of the octets of both directions is in no message that is judged: how many
/// ROUTE-REFRESH messages aren't judged, and then how many octets received, and how many sent, are
/// of an incomplete message or come after a fault.
pub fn put_unshown<A: Allocator + Copy, W: Sink>(
    lines: &mut CheckLines<'_, A, W>,
    received: Unshown,
    sent: Unshown,
)
    ensures { PutsLines lines.old lines.new (unshown_notes received sent) }
{
    match &mut lines.teller {
        LineTeller::Text => bgp_check_text::put_unshown(&mut lines.lines, received, sent),
        LineTeller::Json(teller) => {
            tell_unshown(teller, &mut lines.lines, lines.alloc, received, sent);
        }
    }
}

/// Puts how a session ended, whose first record has the second `first`: the record with this number
/// shows it, with this fraction of its second, if it has one.
pub fn put_ended<A: Allocator + Copy, W: Sink>(
    lines: &mut CheckLines<'_, A, W>,
    first: Seconds,
    number: u64,
    micro: Option<u32>,
    by: &Endpoint,
    ended: &EndedStretch<'_>,
)
    ensures { PutsLines lines.old lines.new
        (ended_stretch_line first number micro by.now (ended_stretch_value ended.now)) }
{
    match &mut lines.teller {
        LineTeller::Text => {
            put_ended_stretch(&mut lines.lines, first, number, micro, by, ended);
        }
        LineTeller::Json(teller) => {
            let place = Place {
                number,
                packet: None,
                second: ended.second,
                micro,
            };
            let at = At::new(first, place);
            teller.put_ended(&mut lines.lines, lines.alloc, &at, by, ended.how);
        }
    }
}

/// Puts that a session is open at the end of the file, as text.
fn put_open_text<W: Sink>(lines: &mut Lines<'_, W>)
    ensures { Writes lines.old lines.new open_line }
{
    lines.put(b"  open at the end of the file\n");
}

/// Puts that a session is open at the end of the file.
pub fn put_open<A: Allocator + Copy, W: Sink>(lines: &mut CheckLines<'_, A, W>)
    ensures { PutsLines lines.old lines.new open_line }
{
    match &mut lines.teller {
        LineTeller::Text => put_open_text(&mut lines.lines),
        LineTeller::Json(teller) => {
            teller.put_detail(&mut lines.lines, lines.alloc, &CheckDetail::Open);
        }
    }
}

/// Puts what the impossible record of the made order shows was done, as text.
fn put_in_made_text<W: Sink>(lines: &mut Lines<'_, W>, first: Seconds, deed: &[u8], place: &Place)
    ensures { Writes lines.old lines.new (in_made_order_line first deed.now place.now) }
{
    lines.put(b"  in the order of bgp import, ");
    put_place(lines, place);
    lines.put(b", ");
    put_short(lines, first, place.second, place.micro);
    lines.put(b": ");
    lines.put(deed);
    lines.put(b"\n");
}

/// Puts what the impossible record of the order that `bgp import` makes shows was done, and where it
/// stands, in lines that give no date to a time of the day of `first`.
pub fn put_in_made_order<A: Allocator + Copy, W: Sink>(
    lines: &mut CheckLines<'_, A, W>,
    first: Seconds,
    deed: &[u8],
    place: &Place,
)
    ensures { PutsLines lines.old lines.new (in_made_order_line first deed.now place.now) }
{
    match &mut lines.teller {
        LineTeller::Text => put_in_made_text(&mut lines.lines, first, deed, place),
        LineTeller::Json(teller) => {
            let detail = CheckDetail::InMadeOrder(At::new(first, *place), deed);
            teller.put_detail(&mut lines.lines, lines.alloc, &detail);
        }
    }
}

/// Puts how many messages are delayed, unless none is.
fn put_delayed<W: Sink>(lines: &mut Lines<'_, W>, delayed: usize)
    ensures { Writes lines.old lines.new (delayed_text delayed) }
{
    if 0 < delayed {
        lines.put(b"; messages delayed in it: ");
        lines.put_decimal(delayed);
    } else {
        lines.put(b"");
    }
}

/// Puts that one order was judged, as text.
fn put_one_text<W: Sink>(lines: &mut Lines<'_, W>, delayed: usize)
    ensures { Writes lines.old lines.new (one_order_line delayed) }
{
    lines.put(b"  note: packets do not show when a router handled what it received, ");
    lines.put(b"so this is one possible order");
    put_delayed(lines, delayed);
    lines.put(b"\n");
}

/// Puts that one order was judged, of several that the packets may allow, and how many messages are
/// delayed in it.
pub fn put_one_order<A: Allocator + Copy, W: Sink>(lines: &mut CheckLines<'_, A, W>, delayed: usize)
    ensures { PutsLines lines.old lines.new (one_order_line delayed) }
{
    match &mut lines.teller {
        LineTeller::Text => put_one_text(&mut lines.lines, delayed),
        LineTeller::Json(teller) => {
            let detail = CheckDetail::OneOrder(delayed as u64);
            teller.put_detail(&mut lines.lines, lines.alloc, &detail);
        }
    }
}

/// Puts that a yes is that of another order, as text.
fn put_another_text<W: Sink>(lines: &mut Lines<'_, W>)
    ensures { Writes lines.old lines.new another_order_line }
{
    lines.put(b"  note: the order that bgp import makes is not a yes: ");
    lines.put(b"another that these packets allow is\n");
}

/// Puts that a yes is that of another order than `bgp import` makes.
pub fn put_another_order<A: Allocator + Copy, W: Sink>(lines: &mut CheckLines<'_, A, W>)
    ensures { PutsLines lines.old lines.new another_order_line }
{
    match &mut lines.teller {
        LineTeller::Text => put_another_text(&mut lines.lines),
        LineTeller::Json(teller) => {
            teller.put_detail(&mut lines.lines, lines.alloc, &CheckDetail::AnotherOrder);
        }
    }
}

/// Puts that what is unfinished is so over all orders, as text.
fn put_all_text<W: Sink>(lines: &mut Lines<'_, W>)
    ensures { Writes lines.old lines.new all_orders_line }
{
    lines.put(b"  note: the order that bgp import makes is a no: ");
    lines.put(b"over all that these packets allow it is unfinished\n");
}

/// Puts that what is unfinished is so over all orders, where the one that `bgp import` makes is a
/// no.
pub fn put_all_orders<A: Allocator + Copy, W: Sink>(lines: &mut CheckLines<'_, A, W>)
    ensures { PutsLines lines.old lines.new all_orders_line }
{
    match &mut lines.teller {
        LineTeller::Text => put_all_text(&mut lines.lines),
        LineTeller::Json(teller) => {
            teller.put_detail(&mut lines.lines, lines.alloc, &CheckDetail::AllOrders);
        }
    }
}

/// Returns the answer with more patience.
fn later_answer(is_yes: bool) -> &'static str
    ensures { result.now ≡ later_answer is_yes }
{
    if is_yes { "yes" } else { "unfinished" }
}

/// Puts what more patience makes of a verdict, as text.
fn put_late_text<W: Sink>(lines: &mut Lines<'_, W>, within: u16, is_yes: bool)
    ensures { Writes lines.old lines.new (late_line within is_yes) }
{
    lines.put(b"  note: a router that handles what it received more than ");
    lines.put_decimal(within);
    lines.put(b" s late may do this: with --within 65535 the answer is ");
    lines.put(later_answer(is_yes).as_bytes());
    lines.put(b"\n");
}

/// Puts what a router may do that handles a message later than within so many seconds: a yes, or
/// what is unfinished.
pub fn put_late<A: Allocator + Copy, W: Sink>(
    lines: &mut CheckLines<'_, A, W>,
    within: u16,
    is_yes: bool,
)
    ensures { PutsLines lines.old lines.new (late_line within is_yes) }
{
    match &mut lines.teller {
        LineTeller::Text => put_late_text(&mut lines.lines, within, is_yes),
        LineTeller::Json(teller) => {
            let detail = CheckDetail::Late(within, later_answer(is_yes));
            teller.put_detail(&mut lines.lines, lines.alloc, &detail);
        }
    }
}

/// Returns what a sink in memory took, if it had memory for all of it.
fn taken<A: Allocator>(
    sink: MemSink<A>,
    handed: Result<(), Failed>,
) -> Result<Vec<u8, A>, AllocError>
    ensures { IfOk result (λ text. IsOk handed × (text.items ≡ (sink_state sink).octets)) }
{
    match handed {
        Ok(()) => Ok(sink.into_octets()),
        Err(Failed) => Err(AllocError),
    }
}

/// Returns the command that reproduces a verdict.
fn command_text<A: Allocator>(alloc: A, options: &JudgeOptions) -> Result<Vec<u8, A>, AllocError>
    ensures { IfOk result (λ text. text.items ≡ command_text options.now) }
{
    let mut sink = MemSink::new(alloc);
    let mut lines = Lines::new(&mut sink);
    put_command(&mut lines, options);
    let handed = lines.hand_over();
    // No effect: it ends the loan of the sink.
    lines.into_sink();
    taken(sink, handed)
}

/// Puts the command that reproduces a verdict.
pub fn put_repeat<A: Allocator + Copy, W: Sink>(
    lines: &mut CheckLines<'_, A, W>,
    options: &JudgeOptions,
)
    ensures { PutsLines lines.old lines.new (judge_line options.now) }
{
    match &mut lines.teller {
        LineTeller::Text => put_judge_line(&mut lines.lines, options),
        LineTeller::Json(teller) => match command_text(lines.alloc, options) {
            Ok(command) => {
                let detail = CheckDetail::Repeat(command.as_slice());
                teller.put_detail(&mut lines.lines, lines.alloc, &detail);
            }
            Err(AllocError) => teller.fail(),
        },
    }
}
