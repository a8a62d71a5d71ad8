//! The lines of a connection, and of two addresses of whose connections none can be told.

ghost use Rattle.std.specs.Prelude.{◌≡◌};
ghost use Rattle.bgp_check_lines.specs.Lines.{PutsLines};
ghost use Rattle.bgp_check_tool.specs.Blocks.{BothEnds, OneEnd};
ghost use Rattle.bgp_check_tool.specs.Blocks.{are_left_out, block_of, block_text, both_text};
ghost use Rattle.bgp_check_tool.specs.Blocks.{ends_text, kept_lines, neither_text};
ghost use Rattle.bgp_check_tool.specs.Told.{told_value};
ghost use Rattle.bgp_ended.specs.Values.{outline_value};

use crate::connection::{BothTold, EndsTold};
use crate::ending::Told;
use crate::lines::{put_one_end, put_told};
use bgp_check_lines::{CheckLines, Printing, is_left_out, put_connection, put_refused_connection};
use bgp_ended::Outline;
use bgp_import::{Refusal, end_of, other_side};
use bgp_prefix::Session;
use mrt::Sink;
use std::alloc::Allocator;
use streams::Opening;

/// The lines of an end, unless it is left out.
fn put_kept<A: Allocator + Copy, W: Sink>(
    lines: &mut CheckLines<'_, A, W>,
    told: &Told<'_, A>,
    printing: Printing,
)
    ensures { PutsLines lines.old lines.new (kept_lines printing (told_value told.now)) }
{
    if is_left_out(printing.quiet, &told.answer) {
        return;
    }
    put_told(lines, told, printing.routes);
}

/// The lines of both ends of a connection.
fn put_both<A: Allocator + Copy, W: Sink>(
    lines: &mut CheckLines<'_, A, W>,
    both: &BothTold<'_, A>,
    printing: Printing,
)
    ensures { PutsLines lines.old lines.new
        (both_text printing (told_value both.now.opener) (told_value both.now.other)) }
{
    put_kept(lines, &both.opener, printing);
    put_kept(lines, &both.other, printing);
}

/// Whether neither end of a connection is told.
fn are_left_out<A: Allocator>(both: &BothTold<'_, A>, printing: Printing) -> bool
    ensures { result
        ≡ are_left_out printing (told_value both.now.opener) (told_value both.now.other) }
{
    is_left_out(printing.quiet, &both.opener.answer)
        && is_left_out(printing.quiet, &both.other.answer)
}

/// The lines of the ends of a connection whose two ends are one.
fn put_neither<A: Allocator + Copy, W: Sink>(
    lines: &mut CheckLines<'_, A, W>,
    session: &Session,
    opening: Opening,
)
    ensures { PutsLines lines.old lines.new (neither_text session.now opening) }
{
    let from = opening.opened_by;
    put_one_end(lines, end_of(from, session, opening));
    put_one_end(lines, end_of(other_side(from), session, opening));
}

/// The lines of a connection with both ends, unless neither is told.
fn put_both_block<A: Allocator + Copy, W: Sink>(
    lines: &mut CheckLines<'_, A, W>,
    session: &Session,
    opening: Opening,
    both: &BothTold<'_, A>,
    printing: Printing,
)
    ensures { PutsLines lines.old lines.new (block_text printing (BothEnds session.now opening
        (outline_value both.now.outline) both.now.opener_octets both.now.other_octets
        (told_value both.now.opener) (told_value both.now.other))) }
{
    if are_left_out(both, printing) {
        return;
    }
    let (first, second) = (both.opener_octets, both.other_octets);
    put_connection(lines, session, opening, &both.outline, first, second);
    put_both(lines, both, printing);
}

/// The lines of a connection whose two ends are one, by what is known of it and how many octets
/// either sent, unless they are left out.
fn put_one_block<A: Allocator + Copy, W: Sink>(
    lines: &mut CheckLines<'_, A, W>,
    session: &Session,
    opening: Opening,
    outline: &Outline<'_>,
    first: usize,
    second: usize,
    printing: Printing,
)
    ensures { PutsLines lines.old lines.new (block_text printing
        (OneEnd session.now opening (outline_value outline.now) first second)) }
{
    if printing.quiet {
        return;
    }
    put_connection(lines, session, opening, outline, first, second);
    put_neither(lines, session, opening);
}

/// The lines of a connection that isn't refused.
fn put_ends<A: Allocator + Copy, W: Sink>(
    lines: &mut CheckLines<'_, A, W>,
    session: &Session,
    opening: Opening,
    told: &EndsTold<'_, A>,
    printing: Printing,
)
    ensures { PutsLines lines.old lines.new (ends_text printing session.now opening told.now) }
{
    match told {
        EndsTold::Both(both) => put_both_block(lines, session, opening, both, printing),
        EndsTold::One(outline, first, second) => {
            put_one_block(lines, session, opening, outline, *first, *second, printing);
        }
    }
}

/// The lines of a connection.
pub(crate) fn put_block<A: Allocator + Copy, W: Sink>(
    lines: &mut CheckLines<'_, A, W>,
    session: &Session,
    opening: Opening,
    told: &Result<EndsTold<'_, A>, Refusal>,
    printing: Printing,
)
    ensures { PutsLines lines.old lines.new
        (block_text printing (block_of session.now opening told.now)) }
{
    match told {
        Ok(ends) => put_ends(lines, session, opening, ends, printing),
        Err(refusal) => put_refused_connection(lines, session, opening, *refusal),
    }
}
