//! The lines of an end.

ghost use Rattle.std.specs.Prelude.{◌≡◌, option_map};
ghost use Rattle.bgp_judge.specs.Verdict.{verdict_value};
ghost use Rattle.bgp_check_lines.specs.Lines.{PutsLines};
ghost use Rattle.bgp_check_tool.specs.Elsewhere.{octets_if};
ghost use Rattle.bgp_check_tool.specs.Text.{after_no, after_unfinished, after_yes, another_text};
ghost use Rattle.bgp_check_tool.specs.Text.{deed_by, in_made_text, name_of, named_end};
ghost use Rattle.bgp_check_tool.specs.Text.{one_end_line, one_unless, order_text, told_lines};
ghost use Rattle.bgp_check_tool.specs.Text.{unfinished_text, verdict_text};
ghost use Rattle.bgp_check_tool.specs.Told.{told_value};

use crate::another::Order;
use crate::ending::Told;
use crate::judging::put_judge;
use crate::late::put_late;
use crate::orders::NoOrder;
use bgp_check::{Answer, Judged};
use bgp_check_lines::{
    CheckLines, EndName, put_all_orders, put_another_order, put_in_made_order, put_no,
    put_not_judged, put_one_order, put_reason, put_unfinished, put_unnamed, put_unshown, put_yes,
};
use bgp_judge::Verdict;
use bgp_prefix::Seconds;
use bgp_why::{Endpoint as NamedEnd, Place};
use mrt::Sink;
use segments::Endpoint;
use std::alloc::Allocator;

/// Returns an end's address and port, as they are named.
fn named_end(end: Endpoint) -> NamedEnd
    ensures { result ≡ named_end end }
{
    NamedEnd {
        address: end.address,
        port: Some(end.port),
    }
}

/// Returns the name of an end, with the AS number in its OPEN, if it sent one.
fn name_of<A: Allocator>(told: &Told<'_, A>) -> EndName
    ensures { result ≡ name_of (told_value told.now) }
{
    EndName {
        end: named_end(told.end),
        as_number: told.as_number,
        part: None,
    }
}

/// The line of an end of a connection whose two ends are one.
pub(crate) fn put_one_end<A: Allocator + Copy, W: Sink>(
    lines: &mut CheckLines<'_, A, W>,
    end: Endpoint,
)
    ensures { PutsLines lines.old lines.new (one_end_line end) }
{
    let why = "both ends have this address and port";
    put_unnamed(lines, &named_end(end), None, why);
}

/// Returns what the record shows was done at which a no stands: that of this message, if there is
/// one, or else that of the impossible record of the order that is judged.
fn deed_by<'a, A: Allocator>(deed: &'a [u8], other: &'a Option<Vec<u8, A>>) -> &'a [u8]
    ensures { result.now ≡ deed_by deed.now (octets_if other.now) }
{
    match other {
        None => deed,
        Some(other) => other.as_slice(),
    }
}

/// Puts that, if it isn't told so.
fn put_in_made<A: Allocator + Copy, W: Sink>(
    lines: &mut CheckLines<'_, A, W>,
    first: Seconds,
    deed: &[u8],
    in_made: Option<Place>,
)
    ensures { PutsLines lines.old lines.new (in_made_text first deed.now in_made) }
{
    match in_made {
        None => {}
        Some(place) => put_in_made_order(lines, first, deed, &place),
    }
}

/// Puts that, of a no that isn't known to hold in all orders.
fn put_order<A: Allocator + Copy, W: Sink>(
    lines: &mut CheckLines<'_, A, W>,
    put_off: usize,
    found: &Option<NoOrder<'_>>,
)
    ensures { PutsLines lines.old lines.new (order_text put_off found.now) }
{
    match found {
        Some(_) => {}
        None => put_one_order(lines, put_off),
    }
}

/// Puts that, if it is.
fn put_whose_order<A: Allocator + Copy, W: Sink>(lines: &mut CheckLines<'_, A, W>, order: Order)
    ensures { PutsLines lines.old lines.new (another_text order) }
{
    match order {
        Order::Made => {}
        Order::Another => put_another_order(lines),
        Order::All => {}
    }
}

/// Puts that one order was judged, unless it is known to be so over all.
fn put_one_unless<A: Allocator + Copy, W: Sink>(
    lines: &mut CheckLines<'_, A, W>,
    over_all: bool,
    put_off: usize,
)
    ensures { PutsLines lines.old lines.new (one_unless over_all put_off) }
{
    if !over_all {
        put_one_order(lines, put_off);
    }
}

/// Puts that, or that the made order is a no, which is unfinished over all.
fn put_unfinished_order<A: Allocator + Copy, W: Sink>(
    lines: &mut CheckLines<'_, A, W>,
    order: Order,
    over_all: bool,
    put_off: usize,
)
    ensures { PutsLines lines.old lines.new (unfinished_text order over_all put_off) }
{
    match order {
        Order::Made | Order::Another => put_one_unless(lines, over_all, put_off),
        Order::All => put_all_orders(lines),
    }
}

/// What stands after the first line of a yes and its routes.
fn put_after_yes<A: Allocator + Copy, W: Sink>(lines: &mut CheckLines<'_, A, W>, told: &Told<'_, A>)
    ensures { PutsLines lines.old lines.new (after_yes (told_value told.now)) }
{
    put_unshown(lines, told.received, told.sent);
    put_whose_order(lines, told.order);
    put_judge(lines, told.judge);
}

/// What stands after the first line of a no.
fn put_after_no<A: Allocator + Copy, W: Sink>(lines: &mut CheckLines<'_, A, W>, told: &Told<'_, A>)
    ensures { PutsLines lines.old lines.new (after_no (told_value told.now)) }
{
    put_in_made(lines, told.first, told.reason.deed(), told.in_made);
    put_reason(lines, &told.reason);
    put_unshown(lines, told.received, told.sent);
    put_late(lines, told.within, told.late);
    put_order(lines, told.put_off, &told.found);
    put_judge(lines, told.judge);
}

/// What stands after the first line of what is unfinished.
fn put_after_unfinished<A: Allocator + Copy, W: Sink>(
    lines: &mut CheckLines<'_, A, W>,
    told: &Told<'_, A>,
)
    ensures { PutsLines lines.old lines.new (after_unfinished (told_value told.now)) }
{
    put_in_made(lines, told.first, told.reason.deed(), told.in_made);
    put_reason(lines, &told.reason);
    put_unshown(lines, told.received, told.sent);
    put_late(lines, told.within, told.late);
    put_unfinished_order(lines, told.order, told.over_all, told.put_off);
    put_judge(lines, told.judge);
}

/// The lines of an end's verdict.
fn put_verdict<A: Allocator + Copy, W: Sink>(
    lines: &mut CheckLines<'_, A, W>,
    told: &Told<'_, A>,
    judged: &Judged<A>,
    routes: bool,
)
    ensures { PutsLines lines.old lines.new (verdict_text routes (told_value told.now)
        judged.now.peer_as (verdict_value judged.now.verdict)) }
{
    let name = name_of(told);
    match &judged.verdict {
        Verdict::Yes(endings) => {
            let (peer, endings) = (judged.peer_as, endings.as_slice());
            put_yes(lines, &name, peer, endings, &told.reached, routes);
            put_after_yes(lines, told);
        }
        Verdict::No(_) => {
            let deed = deed_by(told.reason.deed(), &told.other);
            put_no(lines, &told.place, &name, deed);
            put_after_no(lines, told);
        }
        Verdict::Unfinished => {
            put_unfinished(lines, &told.place, &name);
            put_after_unfinished(lines, told);
        }
    }
}

/// The lines of an end.
pub(crate) fn put_told<A: Allocator + Copy, W: Sink>(
    lines: &mut CheckLines<'_, A, W>,
    told: &Told<'_, A>,
    routes: bool,
)
    ensures { PutsLines lines.old lines.new (told_lines routes (told_value told.now)) }
{
    match &told.answer {
        Answer::NotJudged(why) => put_not_judged(lines, &name_of(told), *why),
        Answer::Judged(judged) => put_verdict(lines, told, judged, routes),
    }
}
