//! The states in which a session may stand after records that a router may have, with their routes.

ghost use Rattle.std.specs.Prelude.{◌≡◌, ◌==◌, ◌∷◌, length, map};
ghost use Rattle.std.specs.List.{flat_map};
ghost use Rattle.bgp_judge.specs.Ends.{end_value};
ghost use Rattle.bgp_text.specs.Lines.{Writes};
ghost use Rattle.bgp_check_text.specs.Reached.{reached_value};
ghost use Rattle.bgp_check_text.specs.States.{after_text, all_routes, before_line, before_routes};
ghost use Rattle.bgp_check_text.specs.States.{counts_text, disabled_text, end_routes};
ghost use Rattle.bgp_check_text.specs.States.{established_text, left_text, lower_text, never_text};
ghost use Rattle.bgp_check_text.specs.States.{or_count, or_state, route_line, routes_if};
ghost use Rattle.bgp_check_text.specs.States.{routes_text, state_line, state_routes, state_text};
ghost use Rattle.bgp_check_text.specs.States.{states_text, with_text};
ghost use Rattle.bgp_names.specs.Families.{families_name};

use crate::reached::Reached;
use bgp_judge::End;
use bgp_names::{families_name, put_state_name};
use bgp_open::Families;
use bgp_path::Path;
use bgp_rib::RibIn;
use bgp_text::{Lines, put_route};
use bgp_update::Destination;
use mrt::Sink;
use std::alloc::Allocator;

/// The number of Established (RFC 6396, 4.4.1).
const ESTABLISHED: u16 = 6;

/// The families that are disabled.
fn put_with<W: Sink>(lines: &mut Lines<'_, W>, disabled: Families)
    ensures { Writes lines.old lines.new (with_text (families_name disabled)) }
{
    lines.put(b" with ");
    lines.put(families_name(disabled).as_bytes());
    lines.put(b" disabled");
}

/// Those, if one is.
fn put_disabled<W: Sink>(lines: &mut Lines<'_, W>, disabled: Families)
    ensures { Writes lines.old lines.new (disabled_text disabled) }
{
    match (disabled.v4, disabled.v6) {
        (false, false) => lines.put(b""),
        (true, _) => put_with(lines, disabled),
        (false, true) => put_with(lines, disabled),
    }
}

/// That the state is Established, with these families disabled and so many routes.
fn put_established<W: Sink>(lines: &mut Lines<'_, W>, disabled: Families, count: usize)
    ensures { Writes lines.old lines.new (established_text disabled count) }
{
    lines.put(b"Established");
    put_disabled(lines, disabled);
    lines.put(b", routes from its peer: ");
    lines.put_decimal(count);
}

/// Another count of routes.
fn put_or_count<W: Sink>(lines: &mut Lines<'_, W>, count: usize)
    ensures { Writes lines.old lines.new (or_count count) }
{
    lines.put(b" or ");
    lines.put_decimal(count);
}

/// Other counts.
fn put_or_counts<W: Sink>(lines: &mut Lines<'_, W>, counts: &[usize])
    ensures { Writes lines.old lines.new (flat_map or_count counts.now) }
{
    for count in counts {
        put_or_count(lines, *count);
    }
}

/// This count of routes before, or one of the others.
fn put_some_counts<W: Sink>(lines: &mut Lines<'_, W>, count: usize, others: &[usize])
    ensures { Writes lines.old lines.new (counts_text (count ∷ others.now)) }
{
    lines.put(b", routes from its peer before that: ");
    lines.put_decimal(count);
    put_or_counts(lines, others);
}

/// The counts of routes before, if there are some.
fn put_counts<W: Sink>(lines: &mut Lines<'_, W>, counts: &[usize])
    ensures { Writes lines.old lines.new (counts_text counts.now) }
{
    match counts.split_first() {
        Some((count, others)) => put_some_counts(lines, *count, others),
        None => lines.put(b""),
    }
}

/// A state after Established, with so many routes before.
fn put_left<W: Sink>(lines: &mut Lines<'_, W>, number: u16, counts: &[usize])
    ensures { Writes lines.old lines.new (left_text number counts.now) }
{
    put_state_name(lines, number);
    lines.put(b" after Established");
    put_counts(lines, counts);
}

/// The highest state before this one, if that is higher.
fn put_after<W: Sink>(lines: &mut Lines<'_, W>, number: u16, highest: u16)
    ensures { Writes lines.old lines.new (after_text number highest) }
{
    if number < highest {
        lines.put(b" after ");
        put_state_name(lines, highest);
    } else {
        lines.put(b"");
    }
}

/// A state of records that never tell Established.
fn put_never<W: Sink>(lines: &mut Lines<'_, W>, number: u16, highest: u16)
    ensures { Writes lines.old lines.new (never_text number highest) }
{
    put_state_name(lines, number);
    put_after(lines, number, highest);
    lines.put(b", never Established");
}

/// A state below Established.
fn put_lower<W: Sink, A: Allocator>(lines: &mut Lines<'_, W>, number: u16, reached: &Reached<A>)
    ensures { Writes lines.old lines.new (lower_text number (reached_value reached.now)) }
{
    if reached.highest == ESTABLISHED {
        put_left(lines, number, reached.counts.as_slice());
    } else {
        put_never(lines, number, reached.highest);
    }
}

/// The state of a possible end.
fn put_state<W: Sink, A: Allocator>(lines: &mut Lines<'_, W>, ending: &End<A>, reached: &Reached<A>)
    ensures { Writes lines.old lines.new
        (state_text (reached_value reached.now) (end_value ending.now)) }
{
    if ending.fsm.number() == ESTABLISHED {
        put_established(lines, ending.rib.disabled(), ending.rib.len());
    } else {
        put_lower(lines, ending.fsm.number(), reached);
    }
}

/// That of another one.
fn put_or_state<W: Sink, A: Allocator>(
    lines: &mut Lines<'_, W>,
    ending: &End<A>,
    reached: &Reached<A>,
)
    ensures { Writes lines.old lines.new
        (or_state (reached_value reached.now) (end_value ending.now)) }
{
    lines.put(b", or ");
    put_state(lines, ending, reached);
}

/// Those of others.
fn put_or_states<W: Sink, A: Allocator>(
    lines: &mut Lines<'_, W>,
    endings: &[End<A>],
    reached: &Reached<A>,
)
    ensures { Writes lines.old lines.new
        (flat_map (or_state (reached_value reached.now)) (map end_value endings.now)) }
{
    for ending in endings {
        put_or_state(lines, ending, reached);
    }
}

/// Puts the states of all possible ends of a session that came so far: `Established, routes from
/// its peer: 2`, or `Idle after Established, routes from its peer before that: 2`, or `Idle after
/// OpenSent, never Established`; if there are several, with `, or ` between them.
pub fn put_states<W: Sink, A: Allocator>(
    lines: &mut Lines<'_, W>,
    endings: &[End<A>],
    reached: &Reached<A>,
)
    ensures { Writes lines.old lines.new
        (states_text (reached_value reached.now) (map end_value endings.now)) }
{
    match endings.split_first() {
        Some((first, others)) => {
            put_state(lines, first, reached);
            put_or_states(lines, others, reached);
        }
        None => lines.put(b""),
    }
}

/// The line of a route.
fn put_route_line<W: Sink, A: Allocator>(
    lines: &mut Lines<'_, W>,
    destination: Destination,
    path: &Path<A>,
)
    ensures { Writes lines.old lines.new (route_line (destination, path.now)) }
{
    lines.put(b"  route ");
    put_route(lines, destination, path);
    lines.put(b"\n");
}

/// The lines of routes, in the order of their destinations.
fn put_routes<W: Sink, A: Allocator>(lines: &mut Lines<'_, W>, rib: &RibIn<A>)
    ensures { Writes lines.old lines.new (flat_map route_line rib.now.entries) }
{
    for (destination, path) in rib.routes() {
        put_route_line(lines, destination, path);
    }
}

/// The line of a state.
fn put_state_line<W: Sink, A: Allocator>(
    lines: &mut Lines<'_, W>,
    ending: &End<A>,
    reached: &Reached<A>,
)
    ensures { Writes lines.old lines.new
        (state_line (reached_value reached.now) (end_value ending.now)) }
{
    lines.put(b"  ");
    put_state(lines, ending, reached);
    lines.put(b"\n");
}

/// The line of a state, and its routes.
fn put_state_routes<W: Sink, A: Allocator>(
    lines: &mut Lines<'_, W>,
    ending: &End<A>,
    reached: &Reached<A>,
)
    ensures { Writes lines.old lines.new
        (state_routes (reached_value reached.now) (end_value ending.now)) }
{
    put_state_line(lines, ending, reached);
    put_routes(lines, &ending.rib);
}

/// Those of each end.
fn put_each_routes<W: Sink, A: Allocator>(
    lines: &mut Lines<'_, W>,
    endings: &[End<A>],
    reached: &Reached<A>,
)
    ensures { Writes lines.old lines.new
        (flat_map (state_routes (reached_value reached.now)) (map end_value endings.now)) }
{
    for ending in endings {
        put_state_routes(lines, ending, reached);
    }
}

/// The routes of an end.
fn put_routes_of<W: Sink, A: Allocator>(lines: &mut Lines<'_, W>, ending: &End<A>)
    ensures { Writes lines.old lines.new (routes_text (end_value ending.now)) }
{
    put_routes(lines, &ending.rib);
}

/// Those of each end, without its state.
fn put_plain_routes<W: Sink, A: Allocator>(lines: &mut Lines<'_, W>, endings: &[End<A>])
    ensures { Writes lines.old lines.new (flat_map routes_text (map end_value endings.now)) }
{
    for ending in endings {
        put_routes_of(lines, ending);
    }
}

/// Whether there is just one end.
fn is_one<A: Allocator>(endings: &[End<A>]) -> bool
    ensures { result ≡ (length endings.now == 1) }
{
    endings.len() == 1
}

/// The routes of the ends, each after the line of its state if there are several.
fn put_end_routes<W: Sink, A: Allocator>(
    lines: &mut Lines<'_, W>,
    endings: &[End<A>],
    reached: &Reached<A>,
)
    ensures { Writes lines.old lines.new
        (end_routes (reached_value reached.now) (map end_value endings.now)) }
{
    if is_one(endings) {
        put_plain_routes(lines, endings);
    } else {
        put_each_routes(lines, endings, reached);
    }
}

/// The line of an end before.
fn put_before_line<W: Sink>(lines: &mut Lines<'_, W>, disabled: Families, count: usize)
    ensures { Writes lines.old lines.new (before_line disabled count) }
{
    lines.put(b"  before that");
    put_disabled(lines, disabled);
    lines.put(b", routes from its peer: ");
    lines.put_decimal(count);
    lines.put(b"\n");
}

/// The line of an end before, and its routes.
fn put_before<W: Sink, A: Allocator>(lines: &mut Lines<'_, W>, ending: &End<A>)
    ensures { Writes lines.old lines.new (before_routes (end_value ending.now)) }
{
    put_before_line(lines, ending.rib.disabled(), ending.rib.len());
    put_routes(lines, &ending.rib);
}

/// Those of each end before.
fn put_all_before<W: Sink, A: Allocator>(lines: &mut Lines<'_, W>, endings: &[End<A>])
    ensures { Writes lines.old lines.new (flat_map before_routes (map end_value endings.now)) }
{
    for ending in endings {
        put_before(lines, ending);
    }
}

/// The routes of the ends, and then those of the ends before.
fn put_all_routes<W: Sink, A: Allocator>(
    lines: &mut Lines<'_, W>,
    endings: &[End<A>],
    reached: &Reached<A>,
)
    ensures { Writes lines.old lines.new
        (all_routes (reached_value reached.now) (map end_value endings.now)) }
{
    put_end_routes(lines, endings, reached);
    put_all_before(lines, reached.before.as_slice());
}

/// Puts the lines of the routes that the possible ends have, if they are told: `route 10.1.0.0/16
/// via 192.0.2.1 path 65001 origin 0`. If there are several ends, those of each stand after a line
/// with its state. Then puts the routes of the ends before, each after a line `before that, routes
/// from its peer: 2`.
pub fn put_routes_if<W: Sink, A: Allocator>(
    lines: &mut Lines<'_, W>,
    endings: &[End<A>],
    reached: &Reached<A>,
    routes: bool,
)
    ensures { Writes lines.old lines.new
        (routes_if routes (reached_value reached.now) (map end_value endings.now)) }
{
    if routes {
        put_all_routes(lines, endings, reached);
    } else {
        lines.put(b"");
    }
}
