//! The verdicts on the captures of both ends of a connection.

ghost use Rattle.std.specs.Prelude.{◌≡◌, ◌<◌, ◌≤◌, ◌^◌, max};
ghost use Rattle.bgp_text.specs.Lines.{Writes};
ghost use Rattle.bgp_tool.specs.Answer.{IsWritten, answer_status, answer_text};
ghost use Rattle.bgp_speak_tool.specs.Pairing.{JudgesPair, pair_text};
ghost use Rattle.bgp_tool.specs.Status.{code_of};

use bgp_judge::{Tracker, Verdict, judge};
use bgp_open::Config;
use bgp_text::Lines;
use bgp_tool::{Status, hand_over, put_answer};
use mrt::{CaptureFault, Sink, Source};
use std::alloc::Allocator;

/// What is answered of a capture.
type Answer<A> = Result<Verdict<A>, CaptureFault>;

/// The status that has the greater number.
fn greater(one: Status, other: Status) -> Status
    ensures { code_of result ≡ max (code_of one) (code_of other) }
{
    if one.code() < other.code() {
        other
    } else {
        one
    }
}

/// Puts what is answered of both captures, and answers the greater status.
fn put_answers<W: Sink, A: Allocator>(
    lines: &mut Lines<'_, W>,
    left: &Answer<A>,
    right: &Answer<A>,
) -> Status
    ensures writes { Writes lines.old lines.new
        (pair_text (answer_text left.now) (answer_text right.now)) }
    ensures status { code_of result ≡ max (answer_status left.now) (answer_status right.now) }
{
    lines.put(b"left ");
    let one = put_answer(lines, left);
    lines.put(b"right ");
    let other = put_answer(lines, right);
    greater(one, other)
}

/// Writes what is answered of both captures, and answers the greater status, or that of a device
/// where the sink failed.
fn write_answers<W: Sink, A: Allocator>(sink: &mut W, left: &Answer<A>, right: &Answer<A>) -> u8
    requires { W.failures sink.old < 2 ^ 63 }
    ensures writes { IsWritten W.takes W.failures
        (pair_text (answer_text left.now) (answer_text right.now))
        (max (answer_status left.now) (answer_status right.now)) sink.old sink.new result }
    ensures statuses { result ≤ 5 }
{
    let mut lines = Lines::new(sink);
    let status = put_answers(&mut lines, left, right);
    let status = hand_over(&mut lines, status);
    // No effect: it ends the loan of the sink.
    lines.into_sink();
    status.code()
}

/// Judges the captures of both ends of a connection, each under its own configuration, as
/// [`judge_capture`](bgp_tool::judge_capture) does. Writes `left ` and the text of the left one's
/// verdict, then `right ` and that of the right one's. Returns the greater exit status.
///
/// A capture that is refused has the text and the status that it has there. Where the sink failed,
/// a beginning of the text is written, and the status is 5.
pub fn judge_pair<A: Allocator + Copy, T: Tracker<A>, L: Source, R: Source, W: Sink>(
    alloc: A,
    left_config: &Config,
    left: &mut L,
    right_config: &Config,
    right: &mut R,
    sink: &mut W,
) -> u8
    requires left { L.failures left.old < 2 ^ 63 }
    requires right { R.failures right.old < 2 ^ 63 }
    requires sink { W.failures sink.old < 2 ^ 63 }
    ensures judges { JudgesPair
        L.gives L.has_ended L.failures left_config.now left.old left.new
        R.gives R.has_ended R.failures right_config.now right.old right.new
        T.may_lack W.takes W.failures sink.old sink.new result }
    ensures statuses { result ≤ 5 }
{
    let one = judge::<A, T, L>(alloc, left_config, left);
    let other = judge::<A, T, R>(alloc, right_config, right);
    write_answers(sink, &one, &other)
}
