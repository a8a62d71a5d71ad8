//! The text of a verdict on a session's records, with each possible end and its routes.

ghost use Rattle.std.specs.Prelude.{◌≡◌, map};
ghost use Rattle.std.specs.List.{flat_map};
ghost use Rattle.bgp_judge.specs.Ends.{end_value};
ghost use Rattle.bgp_text.specs.Lines.{Writes};
ghost use Rattle.bgp_tool.specs.VerdictText.{state_text, families_text, route_line, end_text};
ghost use Rattle.bgp_tool.specs.VerdictText.{no_line, verdict_text};

use bgp_judge::{End, Verdict};
use bgp_machine::{Fsm, RibIn};
use bgp_open::Families;
use bgp_path::Path;
use bgp_text::{Lines, put_route};
use bgp_update::Destination;
use mrt::Sink;
use std::alloc::Allocator;

/// The name of a state.
fn state_text(fsm: Fsm) -> &'static str
    ensures { result.now ≡ state_text fsm }
{
    match fsm {
        Fsm::Idle => "Idle",
        Fsm::Connect => "Connect",
        Fsm::Active => "Active",
        Fsm::OpenSent => "OpenSent",
        Fsm::OpenConfirm => "OpenConfirm",
        Fsm::Established => "Established",
    }
}

/// The families with a comma between them, or a dash for none.
fn families_text(families: Families) -> &'static str
    ensures { result.now ≡ families_text families }
{
    match (families.v4, families.v6) {
        (false, false) => "-",
        (true, false) => "v4",
        (false, true) => "v6",
        (true, true) => "v4,v6",
    }
}

/// The line of a route.
fn put_route_line<W: Sink, A: Allocator>(
    lines: &mut Lines<'_, W>,
    destination: Destination,
    path: &Path<A>,
)
    ensures { Writes lines.old lines.new (route_line (destination, path.now)) }
{
    lines.put(b"route ");
    put_route(lines, destination, path);
    lines.put(b"\n");
}

/// Puts the lines of routes, in the order of their destinations.
pub fn put_routes<W: Sink, A: Allocator>(lines: &mut Lines<'_, W>, rib: &RibIn<A>)
    ensures { Writes lines.old lines.new (flat_map route_line rib.now.entries) }
{
    for (destination, path) in rib.routes() {
        put_route_line(lines, destination, path);
    }
}

/// Puts the text of a possible end: `end STATE disabled FAMILIES`, and a line a route.
pub fn put_end<W: Sink, A: Allocator>(lines: &mut Lines<'_, W>, end: &End<A>)
    ensures { Writes lines.old lines.new (end_text (end_value end.now)) }
{
    lines.put(b"end ");
    lines.put(state_text(end.fsm).as_bytes());
    lines.put(b" disabled ");
    lines.put(families_text(end.rib.disabled()).as_bytes());
    lines.put(b"\n");
    put_routes(lines, &end.rib);
}

/// The texts of ends, one after another.
fn put_ends<W: Sink, A: Allocator>(lines: &mut Lines<'_, W>, ends: &[End<A>])
    ensures { Writes lines.old lines.new (flat_map end_text (map end_value ends.now)) }
{
    for end in ends {
        put_end(lines, end);
    }
}

/// The line of a no, behind so many records that begin a run.
fn put_no<W: Sink>(lines: &mut Lines<'_, W>, count: u64)
    ensures { Writes lines.old lines.new (no_line count) }
{
    lines.put(b"no at record ");
    lines.put_decimal(count as u128 + 1);
    lines.put(b"\n");
}

/// Puts the text of a verdict: `yes` and each possible end, `no at record N`, where N counts from
/// 1, or `unfinished`.
pub fn put_verdict<W: Sink, A: Allocator>(lines: &mut Lines<'_, W>, verdict: &Verdict<A>)
    ensures { Writes lines.old lines.new (verdict_text verdict.now) }
{
    match verdict {
        Verdict::Yes(ends) => {
            lines.put(b"yes\n");
            put_ends(lines, ends.as_slice());
        }
        Verdict::No(count) => put_no(lines, *count),
        Verdict::Unfinished => lines.put(b"unfinished\n"),
    }
}
