//! The lines of a session.

ghost use Rattle.std.specs.Prelude.{◌≡◌, codes};
ghost use Rattle.bgp_judge.specs.Verdict.{verdict_value};
ghost use Rattle.bgp_prefix.specs.declared.address.Address.{Address as TheAddress};
ghost use Rattle.bgp_check_lines.specs.Lines.{PutsLines};
ghost use Rattle.bgp_check.specs.declared.not_judged.NotJudged.TheVariants.{NothingSent};
ghost use Rattle.bgp_check_lines.specs.Text.{why_text};
ghost use Rattle.bgp_check_capture_tool.specs.Ends.{Stretch};
ghost use Rattle.bgp_check_capture_tool.specs.Naming.{endpoint_of};
ghost use Rattle.bgp_check_capture_tool.specs.StretchEnd.{deed_in, lines_in, stretch_value};
ghost use Rattle.bgp_check_capture_tool.specs.Text.{end_text, notes_text, unjudged_line};
ghost use Rattle.bgp_check_capture_tool.specs.Text.{verdict_text};

use crate::judging::put_judge;
use crate::naming::endpoint_of;
use crate::stretch_end::StretchEnd;
use crate::told_end::{is_over, put_told_end};
use bgp_check::{Answer, Judged};
use bgp_check_lines::{
    CheckLines, Reason, put_no, put_not_judged, put_passed_over, put_reason, put_unfinished,
    put_unnamed, put_yes,
};
use bgp_judge::Verdict;
use bgp_prefix::Address;
use mrt::Sink;
use std::alloc::Allocator;

/// The line of a session of so many records, in which no message is sent.
pub(crate) fn put_silent<A: Allocator + Copy, W: Sink>(
    lines: &mut CheckLines<'_, A, W>,
    local: Address,
    count: usize,
)
    ensures { PutsLines lines.old lines.new (unjudged_line local count (why_text NothingSent)) }
{
    let why = "the file has no message that it sent";
    put_unnamed(lines, &endpoint_of(local), Some((1, count as u64)), why);
}

/// The line of so many records before the first that leaves Idle.
pub(crate) fn put_staying<A: Allocator + Copy, W: Sink>(
    lines: &mut CheckLines<'_, A, W>,
    local: Address,
    count: usize,
)
    ensures { PutsLines lines.old lines.new (unjudged_line local count
        (codes "these records do not begin with a change from Idle")) }
{
    let why = "these records do not begin with a change from Idle";
    put_unnamed(lines, &endpoint_of(local), Some((1, count as u64)), why);
}

/// What the record shows was done at which a no stands.
fn deed_in<A: Allocator>(reason: &Option<Reason<A>>) -> &[u8]
    ensures { result.now ≡ deed_in reason.now }
{
    match reason {
        Some(reason) => reason.deed(),
        None => &[],
    }
}

/// Why a verdict is a no or unfinished, where it is.
fn put_lines_in<A: Allocator + Copy, W: Sink>(
    lines: &mut CheckLines<'_, A, W>,
    reason: &Option<Reason<A>>,
)
    ensures { PutsLines lines.old lines.new (lines_in reason.now) }
{
    match reason {
        Some(reason) => put_reason(lines, reason),
        None => {}
    }
}

/// The notes behind a verdict and its reason.
fn put_notes<A: Allocator + Copy, W: Sink>(
    lines: &mut CheckLines<'_, A, W>,
    end: &StretchEnd<'_, A>,
)
    ensures { PutsLines lines.old lines.new (notes_text (stretch_value end.now)) }
{
    put_passed_over(lines, end.told.received, end.told.sent);
    put_judge(lines, end.judge);
}

/// The lines of a stretch's verdict.
fn put_verdict<A: Allocator + Copy, W: Sink>(
    lines: &mut CheckLines<'_, A, W>,
    end: &StretchEnd<'_, A>,
    judged: &Judged<A>,
    routes: bool,
)
    ensures { PutsLines lines.old lines.new (verdict_text routes (stretch_value end.now)
        judged.now.peer_as (verdict_value judged.now.verdict)) }
{
    let (name, reached) = (&end.name, &end.reached);
    match &judged.verdict {
        Verdict::Yes(endings) => {
            let endings = endings.as_slice();
            let is_over = is_over(endings);
            put_yes(lines, name, judged.peer_as, endings, reached, routes);
            put_told_end(lines, end.ended, is_over);
            put_notes(lines, end);
        }
        Verdict::No(_) => {
            put_no(lines, &end.place, name, deed_in(&end.reason));
            put_lines_in(lines, &end.reason);
            put_notes(lines, end);
        }
        Verdict::Unfinished => {
            put_unfinished(lines, &end.place, name);
            put_lines_in(lines, &end.reason);
            put_notes(lines, end);
        }
    }
}

/// The lines of a stretch.
pub(crate) fn put_stretch<A: Allocator + Copy, W: Sink>(
    lines: &mut CheckLines<'_, A, W>,
    end: &StretchEnd<'_, A>,
    routes: bool,
)
    ensures { (local : TheAddress) → PutsLines lines.old lines.new
        (end_text routes local (Stretch (stretch_value end.now))) }
{
    match &end.told.answer {
        Answer::NotJudged(why) => put_not_judged(lines, &end.name, *why),
        Answer::Judged(judged) => put_verdict(lines, end, judged, routes),
    }
}
