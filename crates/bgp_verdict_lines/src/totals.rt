//! How many records there are, and notes that no reason has.

ghost use Rattle.std.specs.Prelude.{◌≡◌};
ghost use Rattle.bgp_text.specs.Lines.{Writes};
ghost use Rattle.bgp_json_verdicts.specs.Lines.{Ignored, Note, OtherKinds, OtherSessions};
ghost use Rattle.bgp_json_verdicts.specs.Lines.{Reasons, Records, ends_text, line_text};
ghost use Rattle.bgp_verdict_lines.specs.Lines.{PutsLines};

use crate::teller::VerdictTeller;
use crate::verdict_lines::VerdictLines;
use bgp_json_verdicts::{ReasonLine, VerdictLine};
use bgp_text::{Lines, put_address};
use mrt::{Endpoints, Sink};
use std::alloc::Allocator;

/// Puts how many records there are, as text.
fn put_records_text<W: Sink>(lines: &mut Lines<'_, W>, received: u64, sent: u64, changes: u64)
    ensures { Writes lines.old lines.new (line_text (Reasons (Records received sent changes))) }
{
    let all = u128::from(received) + u128::from(sent) + u128::from(changes);
    lines.put(b"  records of the session: ");
    lines.put_decimal(all);
    lines.put(b" (received ");
    lines.put_decimal(received);
    lines.put(b", sent ");
    lines.put_decimal(sent);
    lines.put(b", changes of state ");
    lines.put_decimal(changes);
    lines.put(b")\n");
}

/// Puts how many records there are: received, sent, and changes of state.
pub fn put_records<A: Allocator + Copy, W: Sink>(
    lines: &mut VerdictLines<'_, A, W>,
    received: u64,
    sent: u64,
    changes: u64,
)
    ensures { PutsLines lines.old lines.new
        (line_text (Reasons (Records received sent changes))) }
{
    match &mut lines.teller {
        VerdictTeller::Text => put_records_text(&mut lines.lines, received, sent, changes),
        VerdictTeller::Json(telling) => {
            let line = VerdictLine::Reason(ReasonLine::Records(received, sent, changes));
            telling.put(&mut lines.lines, lines.alloc, &line);
        }
    }
}

/// Puts how many records were ignored, as text.
fn put_ignored_text<W: Sink>(lines: &mut Lines<'_, W>, count: u64)
    ensures { Writes lines.old lines.new (line_text (Reasons (Ignored count))) }
{
    lines.put(b"  received in Idle, and ignored: ");
    lines.put_decimal(count);
    lines.put(b"\n");
}

/// Puts how many records were received in Idle, and ignored.
pub fn put_ignored<A: Allocator + Copy, W: Sink>(lines: &mut VerdictLines<'_, A, W>, count: u64)
    ensures { PutsLines lines.old lines.new (line_text (Reasons (Ignored count))) }
{
    match &mut lines.teller {
        VerdictTeller::Text => put_ignored_text(&mut lines.lines, count),
        VerdictTeller::Json(telling) => {
            let line = VerdictLine::Reason(ReasonLine::Ignored(count));
            telling.put(&mut lines.lines, lines.alloc, &line);
        }
    }
}

/// Puts the addresses of the first record of another session, if there is one, as text.
fn put_first_text<W: Sink>(lines: &mut Lines<'_, W>, first: Option<Endpoints>)
    ensures { Writes lines.old lines.new (ends_text first) }
{
    if let Some(Endpoints { peer, local }) = first {
        lines.put(b", the first of --peer ");
        put_address(lines, peer);
        lines.put(b" --local ");
        put_address(lines, local);
    }
}

/// Puts how many records of other sessions there are, as text.
fn put_sessions_text<W: Sink>(lines: &mut Lines<'_, W>, count: u64, first: Option<Endpoints>)
    ensures { Writes lines.old lines.new (line_text (Reasons (OtherSessions count first))) }
{
    lines.put(b"  records of other sessions: ");
    lines.put_decimal(count);
    put_first_text(lines, first);
    lines.put(b"\n");
}

/// Puts how many records of other sessions there are, and the addresses of the first of them.
pub fn put_other_sessions<A: Allocator + Copy, W: Sink>(
    lines: &mut VerdictLines<'_, A, W>,
    count: u64,
    first: Option<Endpoints>,
)
    ensures { PutsLines lines.old lines.new (line_text (Reasons (OtherSessions count first))) }
{
    match &mut lines.teller {
        VerdictTeller::Text => put_sessions_text(&mut lines.lines, count, first),
        VerdictTeller::Json(telling) => {
            let line = VerdictLine::Reason(ReasonLine::OtherSessions(count, first));
            telling.put(&mut lines.lines, lines.alloc, &line);
        }
    }
}

/// Puts how many records of other kinds there are, as text.
fn put_kinds_text<W: Sink>(lines: &mut Lines<'_, W>, count: u64)
    ensures { Writes lines.old lines.new (line_text (Reasons (OtherKinds count))) }
{
    lines.put(b"  records of other kinds: ");
    lines.put_decimal(count);
    lines.put(b"\n");
}

/// Puts how many records of other kinds there are.
pub fn put_other_kinds<A: Allocator + Copy, W: Sink>(lines: &mut VerdictLines<'_, A, W>, count: u64)
    ensures { PutsLines lines.old lines.new (line_text (Reasons (OtherKinds count))) }
{
    match &mut lines.teller {
        VerdictTeller::Text => put_kinds_text(&mut lines.lines, count),
        VerdictTeller::Json(telling) => {
            let line = VerdictLine::Reason(ReasonLine::OtherKinds(count));
            telling.put(&mut lines.lines, lines.alloc, &line);
        }
    }
}

/// Puts a note as text.
fn put_note_text<W: Sink>(lines: &mut Lines<'_, W>, text: &[u8])
    ensures { Writes lines.old lines.new (line_text (Reasons (Note text.now))) }
{
    lines.put(b"  note: ");
    lines.put(text);
    lines.put(b"\n");
}

/// Puts a note.
pub fn put_note<A: Allocator + Copy, W: Sink>(lines: &mut VerdictLines<'_, A, W>, text: &[u8])
    ensures { PutsLines lines.old lines.new (line_text (Reasons (Note text.now))) }
{
    match &mut lines.teller {
        VerdictTeller::Text => put_note_text(&mut lines.lines, text),
        VerdictTeller::Json(telling) => {
            let line = VerdictLine::Reason(ReasonLine::Note(text));
            telling.put(&mut lines.lines, lines.alloc, &line);
        }
    }
}
