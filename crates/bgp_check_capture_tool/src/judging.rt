//! How `bgp judge` gives a verdict that is told of a stretch.

ghost use Rattle.std.specs.Prelude.{◌≡◌, map, option_map};
ghost use Rattle.mrt.specs.Reader.{shown_of};
ghost use Rattle.mrt_sessions.specs.Located.{located};
ghost use Rattle.bgp_check.specs.Answered.{answer_value};
ghost use Rattle.bgp_check.specs.StretchTold.{told_value};
ghost use Rattle.bgp_check_lines.specs.Settings.{are_told};
ghost use Rattle.bgp_check_lines.specs.Lines.{PutsLines};
ghost use Rattle.bgp_check_capture_tool.specs.Judging.{AreOptionsFor, AreOptionsOf, AreOptionsTo};
ghost use Rattle.bgp_check_capture_tool.specs.Judging.{judge_text, passes_over};

use crate::stretch_end::View;
use bgp_check::{Answer, Judged, StretchTold};
use bgp_check_lines::{CheckLines, JudgeOptions, capture_options, put_repeat, told_configuration};
use mrt::{Record, Sink};
use std::alloc::Allocator;

/// Whether ROUTE-REFRESH messages of a stretch are passed over.
fn passes_over<A: Allocator>(told: &StretchTold<'_, A>) -> bool
    ensures { result ≡ passes_over (told_value told.now) }
{
    0 < told.received || 0 < told.sent
}

/// The options by which `bgp judge` gives a verdict that is told of all of a session's records, if
/// it does and they are told.
fn options_for<A: Allocator>(
    view: &View<'_>,
    told: &StretchTold<'_, A>,
    judged: &Judged<A>,
) -> Option<JudgeOptions>
    ensures { AreOptionsFor view.now.telling (map located view.now.named.now)
        (told_value told.now) (are_told view.now.telling.settings) judged.now.under result }
{
    if !view.telling.settings.are_told() {
        return None;
    }
    let config = told_configuration(&told.records, judged)?;
    let is_plain = view.telling.is_plain;
    capture_options(
        config,
        is_plain,
        view.named,
        &told.records,
        passes_over(told),
    )
}

/// Those by which it gives what is answered of them.
fn options_to<A: Allocator>(view: &View<'_>, told: &StretchTold<'_, A>) -> Option<JudgeOptions>
    ensures { AreOptionsTo view.now.telling (map located view.now.named.now)
        (told_value told.now) (answer_value told.now.answer) result }
{
    match &told.answer {
        Answer::NotJudged(_) => None,
        Answer::Judged(judged) => options_for(view, told, judged),
    }
}

/// Those by which it gives what is answered of a stretch before which so many records stand, and
/// which this one leaves, if one does: none, unless it is all of its session.
pub(crate) fn options_of<A: Allocator>(
    view: &View<'_>,
    before: usize,
    leaving: Option<Record<'_>>,
    told: &StretchTold<'_, A>,
) -> Option<JudgeOptions>
    ensures { AreOptionsOf view.now.telling (map located view.now.named.now)
        (told_value told.now) before (option_map shown_of leaving.entry) result }
{
    match (before, leaving) {
        (0, None) => options_to(view, told),
        _ => None,
    }
}

/// Puts the line with the options of `bgp judge`, where they are told.
pub(crate) fn put_judge<A: Allocator + Copy, W: Sink>(
    lines: &mut CheckLines<'_, A, W>,
    judge: Option<JudgeOptions>,
)
    ensures { PutsLines lines.old lines.new (judge_text judge) }
{
    match judge {
        Some(options) => put_repeat(lines, &options),
        None => {}
    }
}
