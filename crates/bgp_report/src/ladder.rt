//! The records of one end as a ladder.

ghost use Rattle.std.specs.Prelude.{◌≡◌, ℕ, IfOk, IfSome, List, None, Some, false, true};
ghost use Rattle.mrt.specs.Reader.{shown_of};
ghost use Rattle.packets.specs.Packet.{Recorded};
ghost use Rattle.streams.specs.Choice.{IsAnswered};
ghost use Rattle.streams.specs.Connections.{numbered};
ghost use Rattle.streams.specs.Held.{HoldsConnections};
ghost use Rattle.streams.specs.Passed.{Segment};
ghost use Rattle.bgp_recording.specs.Gathered.{IsClocked, IsCovered};
ghost use Rattle.bgp_import.specs.Talks.{HoldsSome};
ghost use Rattle.bgp_text.specs.Lines.{Writes};
ghost use Rattle.bgp_html.specs.Pieces.{html_of};
ghost use Rattle.bgp_report.specs.Drawn.{IsDrawn};
ghost use Rattle.bgp_report.specs.Ladders.{IsHeard, PutsLadder, column_of, details_of, end_pieces};
ghost use Rattle.bgp_report.specs.Ladders.{is_out, place_in, sent_at, start_by};

use crate::names::{Names, names_of};
use bgp_check_tool::{BothMarks, EndMark, Made, NoAt, made_of, seen_from};
use bgp_html::{Column, Tag, put_escaped, put_tag};
use bgp_import::{Talk, Talks};
use bgp_ladder::{Ladder, Numbering, put_head, put_rows};
use bgp_recording::Entry;
use bgp_text::Lines;
use mrt::{Record, Sink};
use segments::Addresses;
use std::alloc::{AllocError, Allocator};
use streams::{Connection, Side};

/// Returns in which column the end on this side stands, if that side opened the connection.
fn column_of(opener: Side, side: Side) -> Column
    ensures { result ≡ column_of opener side }
{
    match opener {
        Side::Local => match side {
            Side::Local => Column::Left,
            Side::Peer => Column::Right,
        },
        Side::Peer => match side {
            Side::Local => Column::Right,
            Side::Peer => Column::Left,
        },
    }
}

/// Checks whether a record is a message that was sent.
fn is_out(shown: &Record<'_>) -> bool
    ensures { result ≡ is_out (shown_of shown.now) }
{
    match shown {
        Record::In(..) => false,
        Record::Out(..) => true,
        Record::Change(..) => false,
    }
}

/// Returns the place of the message behind so many that were sent, if it is among the records.
fn sent_at(entries: &[Entry<'_>], before: usize) -> Option<usize>
    ensures { result ≡ sent_at 0 before entries.now }
{
    let mut left = before;
    for place in 0..entries.len() {
        if is_out(&entries[place].record) {
            if left == 0 {
                return Some(place);
            }
            left -= 1;
        }
    }
    None
}

/// Returns how a ladder begins that is open, or isn't.
fn details_of(is_open: bool) -> Tag
    ensures { result ≡ details_of is_open }
{
    if is_open {
        Tag::DetailsOpen
    } else {
        Tag::Details
    }
}

/// Returns where a no stands among records.
fn place_in(place: NoAt, entries: &[Entry<'_>]) -> Option<usize>
    ensures { result ≡ place_in place entries.now }
{
    match place {
        NoAt::Nowhere => None,
        NoAt::Record(count) => Some(count as usize),
        NoAt::Message(before) => sent_at(entries, before),
    }
}

/// Returns the same place among records in memory.
pub(crate) fn place_of(count: Option<u64>) -> Option<usize>
    ensures { result ≡ count }
{
    match count {
        None => None,
        Some(count) => Some(count as usize),
    }
}

/// Returns the connection of these with this number, if it can be read.
fn chosen<A: Allocator + Copy>(talk: &Talk<A>, number: usize) -> Option<Connection<'_>>
    ensures fine { IfSome result (λ c. talk.entry.now.refusal ≡ None) }
    ensures answered { (segments : List Segment)
        → HoldsConnections segments talk.entry.now.connections
        → IfSome result (λ c. IsAnswered (Some number) 0 (numbered segments) c) }
{
    match talk.refusal {
        Some(_) => None,
        None => match talk.connections.choose(Some(number), 0) {
            Ok(connection) => Some(connection),
            Err(_) => None,
        },
    }
}

/// What a ladder is put of.
#[derive(Drop)]
pub(crate) struct Drawn<'a, A: Allocator> {
    pub(crate) names: Names<A>,
    pub(crate) made: Made<'a, A>,
    pub(crate) ladder: Ladder,
}

/// Returns the connection of these, if it can be read.
pub(crate) fn connection_of<'a, A: Allocator + Copy>(
    talks: &'a Talks<A>,
    both: &BothMarks,
) -> Option<Connection<'a>>
    requires { (port : ℕ) × (packets : List Recorded) × HoldsSome port packets talks.now }
    ensures covered { IfSome result (λ c. IsCovered c.received × IsCovered c.sent) }
    ensures heard { (port : ℕ) (packets : List Recorded) → HoldsSome port packets talks.entry.now
        → IfSome result (λ c. IsHeard port packets both.now.session both.now.opening.number c
        × IsClocked c) }
{
    let addresses = Addresses {
        from: both.session.local,
        to: both.session.peer,
    };
    match talks.by_addresses.get(&addresses) {
        Some(talk) => chosen(talk, both.opening.number),
        None => None,
    }
}

/// Makes what a ladder of the end on this side is put of.
pub(crate) fn drawn_of<'a, A: Allocator + Copy>(
    alloc: A,
    within: u16,
    connection: &Connection<'a>,
    both: &BothMarks,
    side: Side,
    mark: EndMark,
) -> Result<Drawn<'a, A>, AllocError>
    requires received { IsCovered connection.now.received }
    requires sent { IsCovered connection.now.sent }
    ensures { IfOk result (λ drawn. IsClocked connection.now
        → IsDrawn within connection.now both.now.session both.now.opening side mark drawn) }
{
    let names = names_of(alloc, &both.session, both.opening, side)?;
    let made = made_of(alloc, &seen_from(connection, side), within)?;
    let ladder = Ladder {
        column: column_of(both.opening.opened_by, side),
        first: connection.second,
        micro: connection.micro,
        framings: made.framings,
        numbering: Numbering::Packets,
        impossible: place_in(mark.no, &made.recording.entries),
        asked: place_of(mark.asked),
    };
    Ok(Drawn {
        names,
        made,
        ladder,
    })
}

/// Puts what stands before the rows.
fn put_start<A: Allocator, W: Sink>(
    lines: &mut Lines<'_, W>,
    names: &Names<A>,
    ladder: &Ladder,
    is_open: bool,
    order: &[u8],
)
    ensures { Writes lines.old lines.new (html_of (start_by is_open ladder.now.column
        ladder.now.numbering order.now names.now.summary.items names.now.left.items
        names.now.right.items)) }
{
    put_tag(lines, details_of(is_open));
    put_escaped(lines, &names.summary);
    put_tag(lines, Tag::SummaryEnd);
    let (left, right) = (&names.left, &names.right);
    put_head(lines, ladder.column, ladder.numbering, order, left, right);
}

/// Puts what stands behind all rows.
fn put_whole_end<W: Sink>(lines: &mut Lines<'_, W>)
    ensures { Writes lines.old lines.new (html_of (end_pieces true)) }
{
    put_tag(lines, Tag::LadderEnd);
    put_tag(lines, Tag::DetailsEnd);
}

/// Puts what stands behind some rows, if memory was refused for the others.
fn put_cut_end<W: Sink>(lines: &mut Lines<'_, W>)
    ensures { Writes lines.old lines.new (html_of (end_pieces false)) }
{
    put_tag(lines, Tag::LadderEnd);
    put_escaped(lines, b"There was no memory for the rows after these.");
    put_tag(lines, Tag::DetailsEnd);
}

/// Puts a ladder of these entries, with what is said of their order. The lines of a text say what
/// could have come.
pub(crate) fn put_drawn<A: Allocator + Copy, W: Sink>(
    alloc: A,
    lines: &mut Lines<'_, W>,
    names: &Names<A>,
    ladder: &Ladder,
    entries: &[Entry<'_>],
    is_open: bool,
    order: &[u8],
    possible: &[u8],
)
    ensures { PutsLadder ladder.now possible.now entries.now
        (start_by is_open ladder.now.column ladder.now.numbering order.now
        names.now.summary.items names.now.left.items names.now.right.items)
        lines.old lines.new }
{
    put_start(lines, names, ladder, is_open, order);
    match put_rows(alloc, lines, ladder, possible, entries) {
        Ok(()) => put_whole_end(lines),
        Err(AllocError) => put_cut_end(lines),
    }
}
