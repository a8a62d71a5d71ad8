//! What a capture holds beside the records of a session.

ghost use Rattle.std.specs.Prelude.{◌≡◌, []};
ghost use Rattle.mrt.specs.Reader.{places_of};
ghost use Rattle.bgp_verdict_lines.specs.Lines.{PutsLines};
ghost use Rattle.bgp_explain.specs.Skipped.{kinds_line, sessions_line, skipped_lines};

use bgp_verdict_lines::{VerdictLines, put_other_kinds, put_other_sessions};
use mrt::{Endpoints, MOST_OTHERS, Reader, Sink, SkippedRecords};
use std::alloc::Allocator;

/// What a capture holds beside the records of the session.
#[derive(Clone, Copy, Debug, PartialEq, Eq)]
pub struct Skipped {
    /// How many records were skipped, by why.
    pub counts: SkippedRecords,
    /// The different pairs of addresses of the records of other sessions, in the order of their
    /// first records: the first nine. If there are fewer, `None` follows them.
    pub others: [Option<Endpoints>; MOST_OTHERS],
}

impl Skipped {
    /// Nothing.
    pub(crate) fn nothing() -> Skipped {
        Skipped {
            counts: SkippedRecords {
                other_kinds: 0,
                other_sessions: 0,
                received_refreshes: 0,
                sent_refreshes: 0,
            },
            others: [None; MOST_OTHERS],
        }
    }

    /// What a reader skipped.
    pub(crate) fn by<A: Allocator + Copy>(reader: &Reader<A>) -> Skipped
        ensures { result
            ≡ record { counts = reader.now.skipped; others = places_of reader.now.others } }
    {
        Skipped {
            counts: reader.skipped(),
            others: reader.others(),
        }
    }
}

/// Puts the line on the records of other sessions.
fn put_sessions<W: Sink, A: Allocator + Copy>(lines: &mut VerdictLines<'_, A, W>, skipped: &Skipped)
    ensures { PutsLines lines.old lines.new (sessions_line skipped.now) }
{
    put_other_sessions(lines, skipped.counts.other_sessions, skipped.others[0]);
}

/// Puts the line on the records that are no messages and no changes of state.
fn put_kinds<W: Sink, A: Allocator + Copy>(lines: &mut VerdictLines<'_, A, W>, skipped: &Skipped)
    ensures { PutsLines lines.old lines.new (kinds_line skipped.now) }
{
    put_other_kinds(lines, skipped.counts.other_kinds);
}

/// Puts the lines on what a capture holds besides, if there is one.
pub(crate) fn put_skipped<W: Sink, A: Allocator + Copy>(
    lines: &mut VerdictLines<'_, A, W>,
    skipped: Option<Skipped>,
)
    ensures { PutsLines lines.old lines.new (skipped_lines skipped) }
{
    if let Some(skipped) = skipped {
        put_sessions(lines, &skipped);
        put_kinds(lines, &skipped);
    }
}
