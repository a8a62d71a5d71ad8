//! What is said of a whole file.

ghost use Rattle.std.specs.Prelude.{◌≡◌, ◌+◌, IfSome};
ghost use Rattle.bgp_text.specs.Lines.{Writes};
ghost use Rattle.bgp_check_text.specs.Tally.{last_text, tally_line};
ghost use Rattle.bgp_check_lines.specs.Lines.{PutsLines};
ghost use Rattle.bgp_check_lines.specs.Values.{cut_short_line, no_record_line, nothing_at_line};

use crate::check_lines::CheckLines;
use crate::teller::LineTeller;
use bgp_check_text::Tally;
use bgp_json_check::{CheckTotal, Summary};
use bgp_text::Lines;
use mrt::Sink;
use std::alloc::Allocator;

/// Puts that a recording is cut short behind this packet, as text.
fn put_cut_text<W: Sink>(lines: &mut Lines<'_, W>, before: u64)
    ensures { Writes lines.old lines.new (cut_short_line (before + 1)) }
{
    lines.put(b"note: the recording is cut short in packet ");
    lines.put_decimal(before as u128 + 1);
    lines.put(b"\n");
}

/// Puts that the recording is cut short in the packet behind this one.
pub fn put_cut_short<A: Allocator + Copy, W: Sink>(lines: &mut CheckLines<'_, A, W>, before: u64)
    ensures { PutsLines lines.old lines.new (cut_short_line (before + 1)) }
{
    match &mut lines.teller {
        LineTeller::Text => put_cut_text(&mut lines.lines, before),
        LineTeller::Json(teller) => match before.checked_add(1) {
            Some(packet) => {
                let total = CheckTotal::CutShort(packet);
                teller.put_total(&mut lines.lines, lines.alloc, &total);
            }
            None => teller.fail(),
        },
    }
}

/// Puts that no connection at this port holds octets, as text.
fn put_nothing_text<W: Sink>(lines: &mut Lines<'_, W>, port: u16)
    ensures { Writes lines.old lines.new (nothing_at_line port) }
{
    lines.put(b"not judged: no connection at port ");
    lines.put_decimal(port);
    lines.put(b" holds octets\n");
}

/// Puts that no connection at this port holds octets.
pub fn put_nothing_at<A: Allocator + Copy, W: Sink>(lines: &mut CheckLines<'_, A, W>, port: u16)
    ensures { PutsLines lines.old lines.new (nothing_at_line port) }
{
    match &mut lines.teller {
        LineTeller::Text => put_nothing_text(&mut lines.lines, port),
        LineTeller::Json(teller) => {
            teller.put_total(&mut lines.lines, lines.alloc, &CheckTotal::NothingAt(port));
        }
    }
}

/// Puts that a capture has no record of a session, as text.
fn put_none_text<W: Sink>(lines: &mut Lines<'_, W>)
    ensures { Writes lines.old lines.new no_record_line }
{
    lines.put(b"not judged: no record of a session\n");
}

/// Puts that a capture has no record of a session.
pub fn put_no_record<A: Allocator + Copy, W: Sink>(lines: &mut CheckLines<'_, A, W>)
    ensures { PutsLines lines.old lines.new no_record_line }
{
    match &mut lines.teller {
        LineTeller::Text => put_none_text(&mut lines.lines),
        LineTeller::Json(teller) => {
            teller.put_total(&mut lines.lines, lines.alloc, &CheckTotal::Nothing);
        }
    }
}

/// Returns how many ends there are, if a number of 64 bits can say it.
fn ends_of(tally: &Tally) -> Option<u64>
    ensures { IfSome result (λ ends.
        ends ≡ tally.now.yes + tally.now.no + tally.now.unfinished + tally.now.not_judged) }
{
    tally
        .yes
        .checked_add(tally.no)?
        .checked_add(tally.unfinished)?
        .checked_add(tally.not_judged)
}

/// Puts how many ends there are of each verdict, and how many refusals.
fn put_counts<A: Allocator + Copy, W: Sink>(lines: &mut CheckLines<'_, A, W>, tally: &Tally)
    ensures { PutsLines lines.old lines.new (tally_line tally.now) }
{
    match &mut lines.teller {
        LineTeller::Text => tally.put(&mut lines.lines),
        LineTeller::Json(teller) => match ends_of(tally) {
            Some(ends) => {
                let summary = Summary {
                    ends,
                    yes: tally.yes,
                    no: tally.no,
                    unfinished: tally.unfinished,
                    not_judged: tally.not_judged,
                    refused: tally.refused,
                };
                let total = CheckTotal::Summary(summary);
                teller.put_total(&mut lines.lines, lines.alloc, &total);
            }
            None => teller.fail(),
        },
    }
}

/// Puts the last line: how many ends there are of each verdict, and how many refusals. Where what is
/// well is left out (`quiet`), it is left out, too, if it would stand alone.
pub fn put_last<A: Allocator + Copy, W: Sink>(
    lines: &mut CheckLines<'_, A, W>,
    tally: &Tally,
    quiet: bool,
)
    ensures { PutsLines lines.old lines.new (last_text quiet tally.now) }
{
    if quiet && !tally.has_trouble() {
        return;
    }
    put_counts(lines, tally);
}
