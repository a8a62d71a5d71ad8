//! What is printed of an answer, and the exit status that it has.

ghost use Rattle.std.specs.Prelude.{◌≡◌, ◌<◌, ◌≤◌, ◌^◌};
ghost use Rattle.bgp_text.specs.Lines.{Writes};
ghost use Rattle.bgp_tool.specs.Status.{code_of};
ghost use Rattle.bgp_tool.specs.Answer.{verdict_status, answer_text, answer_status, IsWritten};

use crate::captures;
use crate::captures::hand_over;
use crate::status::Status;
use crate::verdicts::put_verdict;
use bgp_judge::Verdict;
use bgp_text::{Lines, put_refused};
use mrt::{CaptureFault, Sink};
use std::alloc::Allocator;

/// The exit status of a verdict.
fn status_of<A: Allocator>(verdict: &Verdict<A>) -> Status
    ensures { code_of result ≡ verdict_status verdict.now }
{
    match verdict {
        Verdict::Yes(_) => Status::Done,
        Verdict::No(_) => Status::No,
        Verdict::Unfinished => Status::Unfinished,
    }
}

/// Puts the text of what is answered of a capture, and answers its exit status.
pub fn put_answer<W: Sink, A: Allocator>(
    lines: &mut Lines<'_, W>,
    answer: &Result<Verdict<A>, CaptureFault>,
) -> Status
    ensures writes { Writes lines.old lines.new (answer_text answer.now) }
    ensures status { code_of result ≡ answer_status answer.now }
{
    match answer {
        Ok(verdict) => {
            put_verdict(lines, verdict);
            status_of(verdict)
        }
        Err(fault) => {
            put_refused(lines, *fault);
            captures::status_of(fault.kind)
        }
    }
}

/// Writes the text of what is answered of a capture, and answers its exit status, or that of a
/// device where the sink failed.
pub fn write_answer<W: Sink, A: Allocator>(
    sink: &mut W,
    answer: &Result<Verdict<A>, CaptureFault>,
) -> u8
    requires { W.failures sink.old < 2 ^ 63 }
    ensures writes { IsWritten W.takes W.failures (answer_text answer.now)
        (answer_status answer.now) sink.old sink.new result }
    ensures statuses { result ≤ 5 }
{
    let mut lines = Lines::new(sink);
    let status = put_answer(&mut lines, answer);
    let status = hand_over(&mut lines, status);
    // No effect: it ends the loan of the sink.
    lines.into_sink();
    status.code()
}
