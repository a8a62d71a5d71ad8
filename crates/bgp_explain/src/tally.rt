//! How many records of a session there are, kind by kind.

ghost use Rattle.std.specs.Prelude.{◌≡◌, ◌<◌};
ghost use Rattle.mrt.specs.Reader.{shown_of};
ghost use Rattle.bgp_verdict_lines.specs.Lines.{PutsLines};
ghost use Rattle.bgp_explain.specs.Tally.{idle_note, ignored_line, ignored_with, no_tally};
ghost use Rattle.bgp_explain.specs.Tally.{records_line, tally_with, yes_lines};

use crate::skipped::{Skipped, put_skipped};
use bgp_machine::Fsm;
use bgp_verdict_lines::{VerdictLines, put_ignored, put_note, put_records};
use mrt::{Record, Sink};
use std::alloc::Allocator;

/// How many records of a session there are.
#[derive(Clone, Copy, Debug, PartialEq, Eq)]
pub struct Tally {
    /// Messages that were received.
    pub received: u64,
    /// Messages that were sent.
    pub sent: u64,
    /// Changes of state.
    pub changes: u64,
    /// Messages that were received while Idle was told: a router ignores just these.
    pub ignored: u64,
}

/// How many are ignored, with one more received in this state.
fn ignored_with(state: Fsm, count: u64) -> u64
    requires { count < u64.MAX }
    ensures { result ≡ ignored_with state count }
{
    match state {
        Fsm::Idle => count + 1,
        _ => count,
    }
}

impl Tally {
    /// Of no record.
    pub(crate) fn nothing() -> Tally
        ensures { result ≡ no_tally }
    {
        Tally {
            received: 0,
            sent: 0,
            changes: 0,
            ignored: 0,
        }
    }

    /// With one record more, in a state that is told.
    pub(crate) fn with(self, state: Fsm, shown: &Record<'_>) -> Tally
        requires received { self.received < u64.MAX }
        requires sent { self.sent < u64.MAX }
        requires changes { self.changes < u64.MAX }
        requires ignored { self.ignored < u64.MAX }
        ensures { result ≡ tally_with self state (shown_of shown.now) }
    {
        match *shown {
            Record::In(_, _) => Tally {
                received: self.received + 1,
                ignored: ignored_with(state, self.ignored),
                ..self
            },
            Record::Out(_, _) => Tally {
                sent: self.sent + 1,
                ..self
            },
            Record::Change(_, _, _) => Tally {
                changes: self.changes + 1,
                ..self
            },
        }
    }
}

/// Puts the line on the records.
fn put_tally<W: Sink, A: Allocator + Copy>(lines: &mut VerdictLines<'_, A, W>, tally: &Tally)
    ensures { PutsLines lines.old lines.new (records_line tally.now) }
{
    put_records(lines, tally.received, tally.sent, tally.changes);
}

/// Puts the line on what is ignored.
fn put_ignored_in<W: Sink, A: Allocator + Copy>(lines: &mut VerdictLines<'_, A, W>, tally: &Tally)
    ensures { PutsLines lines.old lines.new (ignored_line tally.now) }
{
    put_ignored(lines, tally.ignored);
}

/// Puts that nothing was judged, if no change leaves Idle.
fn put_idle_note<W: Sink, A: Allocator + Copy>(lines: &mut VerdictLines<'_, A, W>, left_idle: bool)
    ensures { PutsLines lines.old lines.new (idle_note left_idle) }
{
    if left_idle {
        return;
    }
    put_note(lines, b"no record leaves Idle, so nothing was judged");
}

/// Puts the lines after a yes: of a capture with what it holds besides.
pub(crate) fn put_yes_lines<W: Sink, A: Allocator + Copy>(
    lines: &mut VerdictLines<'_, A, W>,
    tally: &Tally,
    skipped: Option<Skipped>,
    left_idle: bool,
)
    ensures { PutsLines lines.old lines.new (yes_lines tally.now skipped left_idle) }
{
    put_tally(lines, tally);
    put_ignored_in(lines, tally);
    put_skipped(lines, skipped);
    put_idle_note(lines, left_idle);
}
