//! How `bgp judge` gives a verdict that is told of an end.

ghost use Rattle.std.specs.Prelude.{◌≡◌, IfOk, map};
ghost use Rattle.mrt.specs.Reader.{shown_of};
ghost use Rattle.bgp_check.specs.Answered.{answer_value};
ghost use Rattle.bgp_recording.specs.Captured.{records_of};
ghost use Rattle.bgp_recording.specs.Gathered.{IsClocked, IsCovered};
ghost use Rattle.bgp_recording.specs.Recorded.{IsRecordedInOrder};
ghost use Rattle.bgp_check_lines.specs.Lines.{PutsLines};
ghost use Rattle.bgp_check_lines.specs.Settings.{are_told};
ghost use Rattle.bgp_check_tool.specs.Judging.{AreOptionsFor, AreOptionsTo, judge_text};

use crate::ending::Viewed;
use crate::making::Made;
use bgp_check::{Answer, Judged};
use bgp_check_lines::{CheckLines, JudgeOptions, judge_options, put_repeat, told_configuration};
use mrt::Sink;
use std::alloc::{AllocError, Allocator};

/// The options by which `bgp judge` gives what is answered of the records that were made of an end,
/// if it does and they are told.
pub(crate) fn options_to<A: Allocator + Copy>(
    alloc: A,
    viewed: &Viewed<'_>,
    made: &Made<'_, A>,
    answer: &Answer<A>,
) -> Result<Option<JudgeOptions>, AllocError>
    requires received { IsCovered viewed.now.connection.received }
    requires sent { IsCovered viewed.now.connection.sent }
    requires records { map shown_of made.now.recording.records.items
        ≡ records_of made.now.recording.entries.items }
    ensures { IfOk result (λ judge. IsClocked viewed.now.connection
        → IsRecordedInOrder made.now.framings viewed.now.options.within viewed.now.connection
        made.now.recording.entries.items made.now.recording.received made.now.recording.sent
        → AreOptionsTo viewed.now.options.within viewed.now.asked viewed.now.connection
        made.now.recording.entries.items made.now.recording.received made.now.recording.sent
        viewed.now.options.settings (answer_value answer.now) judge) }
{
    match answer {
        Answer::NotJudged(_) => Ok(None),
        Answer::Judged(judged) => options_for(alloc, viewed, made, judged),
    }
}

/// Those of a verdict under a configuration.
pub(crate) fn options_for<A: Allocator + Copy>(
    alloc: A,
    viewed: &Viewed<'_>,
    made: &Made<'_, A>,
    judged: &Judged<A>,
) -> Result<Option<JudgeOptions>, AllocError>
    requires received { IsCovered viewed.now.connection.received }
    requires sent { IsCovered viewed.now.connection.sent }
    requires records { map shown_of made.now.recording.records.items
        ≡ records_of made.now.recording.entries.items }
    ensures { IfOk result (λ judge. IsClocked viewed.now.connection
        → IsRecordedInOrder made.now.framings viewed.now.options.within viewed.now.connection
        made.now.recording.entries.items made.now.recording.received made.now.recording.sent
        → AreOptionsFor viewed.now.options.within viewed.now.asked viewed.now.connection
        made.now.recording.entries.items made.now.recording.received made.now.recording.sent
        (are_told viewed.now.options.settings) judged.now.under judge) }
{
    if !viewed.options.settings.are_told() {
        return Ok(None);
    }
    let Some(config) = told_configuration(&made.recording.records, judged) else {
        return Ok(None);
    };
    let within = viewed.options.within;
    judge_options(
        alloc,
        config,
        viewed.asked,
        &viewed.connection,
        within,
        &made.recording,
        made.framings,
    )
}

/// Puts the line with the options of `bgp judge`, where they are told.
pub(crate) fn put_judge<A: Allocator + Copy, W: Sink>(
    lines: &mut CheckLines<'_, A, W>,
    judge: Option<JudgeOptions>,
)
    ensures { PutsLines lines.old lines.new (judge_text judge) }
{
    match judge {
        Some(options) => put_repeat(lines, &options),
        None => {}
    }
}
