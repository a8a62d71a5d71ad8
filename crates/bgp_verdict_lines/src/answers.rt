//! Verdicts, what is refused, and the connections of a recording that are judged.

ghost use Rattle.std.specs.Prelude.{◌≡◌, ◌++◌, codes};
ghost use Rattle.bgp_import.specs.ListText.{opening_text};
ghost use Rattle.bgp_import.specs.Refusals.{refusal_line};
ghost use Rattle.bgp_text.specs.Capture.{refused_line};
ghost use Rattle.bgp_text.specs.Lines.{Writes};
ghost use Rattle.bgp_json_verdicts.specs.Answer.{answer_status, answer_text};
ghost use Rattle.bgp_json_verdicts.specs.CaptureDecoding.{status_by};
ghost use Rattle.bgp_json_verdicts.specs.Status.{code_of};
ghost use Rattle.bgp_json_verdicts.specs.VerdictText.{unfinished_line, verdict_text};
ghost use Rattle.bgp_json_verdicts.specs.Lines.{Answers, line_text};
ghost use Rattle.bgp_json_verdicts.specs.declared.answer.Answer.TheVariants as answers;
ghost use Rattle.bgp_verdict_lines.specs.Lines.{PutsLines};

use crate::teller::VerdictTeller;
use crate::verdict_lines::VerdictLines;
use bgp_import::Refusal;
use bgp_json_verdicts::{Answer, Status, VerdictLine};
use bgp_judge::Verdict;
use bgp_prefix::Session;
use bgp_text::{Lines, put_refused};
use mrt::{CaptureFault, FaultKind, Sink};
use std::alloc::Allocator;
use streams::Opening;

/// Puts a verdict, with each possible end and its routes.
pub fn put_verdict<A: Allocator + Copy, B: Allocator, W: Sink>(
    lines: &mut VerdictLines<'_, A, W>,
    verdict: &Verdict<B>,
)
    ensures { PutsLines lines.old lines.new (verdict_text verdict.now) }
{
    match &mut lines.teller {
        VerdictTeller::Text => bgp_json_verdicts::put_verdict(&mut lines.lines, verdict),
        VerdictTeller::Json(telling) => {
            telling.put_verdict(&mut lines.lines, lines.alloc, verdict);
        }
    }
}

/// Puts that a capture is refused.
pub fn put_capture_refusal<A: Allocator + Copy, W: Sink>(
    lines: &mut VerdictLines<'_, A, W>,
    fault: CaptureFault,
)
    ensures { PutsLines lines.old lines.new (refused_line fault.kind fault.offset) }
{
    match &mut lines.teller {
        VerdictTeller::Text => put_refused(&mut lines.lines, fault),
        VerdictTeller::Json(telling) => {
            telling.put_capture_refusal(&mut lines.lines, lines.alloc, fault);
        }
    }
}

/// Returns the exit status of a capture that is refused.
fn status_of(kind: FaultKind) -> Status
    ensures { code_of result ≡ status_by kind }
{
    match kind {
        FaultKind::Device => Status::Device,
        FaultKind::Memory => Status::Memory,
        _ => Status::Refused,
    }
}

/// Returns the exit status of what is answered of a capture.
fn answer_status<A: Allocator>(answer: &Result<Verdict<A>, CaptureFault>) -> Status
    ensures { code_of result ≡ answer_status answer.now }
{
    match answer {
        Ok(Verdict::Yes(_)) => Status::Done,
        Ok(Verdict::No(_)) => Status::No,
        Ok(Verdict::Unfinished) => Status::Unfinished,
        Err(fault) => status_of(fault.kind),
    }
}

/// Puts what is answered of a capture, and returns its exit status.
pub fn put_answer<A: Allocator + Copy, B: Allocator, W: Sink>(
    lines: &mut VerdictLines<'_, A, W>,
    answer: &Result<Verdict<B>, CaptureFault>,
) -> Status
    ensures puts { PutsLines lines.old lines.new (answer_text answer.now) }
    ensures status { code_of result ≡ answer_status answer.now }
{
    match answer {
        Ok(verdict) => put_verdict(lines, verdict),
        Err(fault) => put_capture_refusal(lines, *fault),
    }
    answer_status(answer)
}

/// Puts that a recording is refused, or one of its connections.
pub fn put_refusal<A: Allocator + Copy, W: Sink>(
    lines: &mut VerdictLines<'_, A, W>,
    refusal: Refusal,
)
    ensures { PutsLines lines.old lines.new (refusal_line refusal) }
{
    match &mut lines.teller {
        VerdictTeller::Text => bgp_import::put_refusal(&mut lines.lines, refusal),
        VerdictTeller::Json(telling) => {
            telling.put_refusal(&mut lines.lines, lines.alloc, refusal);
        }
    }
}

/// Puts the line of a connection.
fn put_opening_text<W: Sink>(lines: &mut Lines<'_, W>, session: &Session, opening: Opening)
    ensures { Writes lines.old lines.new (opening_text session.now opening ++ codes "\n") }
{
    bgp_import::put_opening(lines, session, opening);
    lines.put(b"\n");
}

/// Puts the line of one of several connections, which is judged then.
pub fn put_opening<A: Allocator + Copy, W: Sink>(
    lines: &mut VerdictLines<'_, A, W>,
    session: &Session,
    opening: Opening,
)
    ensures { PutsLines lines.old lines.new (opening_text session.now opening ++ codes "\n") }
{
    match &mut lines.teller {
        VerdictTeller::Text => put_opening_text(&mut lines.lines, session, opening),
        VerdictTeller::Json(telling) => {
            let line = VerdictLine::Opening(*session, opening);
            telling.put(&mut lines.lines, lines.alloc, &line);
        }
    }
}

/// Puts the line of a no at this packet.
fn put_packet_text<W: Sink>(lines: &mut Lines<'_, W>, packet: u64)
    ensures { Writes lines.old lines.new (line_text (Answers (answers.NoAtPacket packet))) }
{
    lines.put(b"no at packet ");
    lines.put_decimal(packet);
    lines.put(b"\n");
}

/// Puts that no order explains the sent message that this packet shows.
pub fn put_no_order<A: Allocator + Copy, W: Sink>(lines: &mut VerdictLines<'_, A, W>, packet: u64)
    ensures { PutsLines lines.old lines.new (line_text (Answers (answers.NoAtPacket packet))) }
{
    match &mut lines.teller {
        VerdictTeller::Text => put_packet_text(&mut lines.lines, packet),
        VerdictTeller::Json(telling) => {
            let line = VerdictLine::Answer(Answer::NoAtPacket(packet));
            telling.put(&mut lines.lines, lines.alloc, &line);
        }
    }
}

/// Puts that a verdict is unfinished.
pub fn put_unfinished<A: Allocator + Copy, W: Sink>(lines: &mut VerdictLines<'_, A, W>)
    ensures { PutsLines lines.old lines.new unfinished_line }
{
    match &mut lines.teller {
        VerdictTeller::Text => lines.lines.put(b"unfinished\n"),
        VerdictTeller::Json(telling) => {
            let line = VerdictLine::Answer(Answer::Unfinished);
            telling.put(&mut lines.lines, lines.alloc, &line);
        }
    }
}
