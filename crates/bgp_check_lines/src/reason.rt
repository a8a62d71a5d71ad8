//! The lines of a reason.

ghost use Rattle.std.specs.Prelude.{◌<◌, ℕ, IfOk, List, OnErr, OnOk};
ghost use Rattle.bgp_check_text.specs.Reason.{lines_text};
ghost use Rattle.bgp_check_text.specs.LinesKept.{IsOfLines};
ghost use Rattle.bgp_check_lines.specs.Lines.{PutsLines};
ghost use Rattle.bgp_check_lines.specs.Reason.{AreToldAs};
ghost use Rattle.bgp_check_lines.specs.Teller.{TellsText};

use crate::check_lines::CheckLines;
use crate::teller::LineTeller;
use bgp_check_text::{Reason, VerdictLines};
use bgp_json_check::CheckTeller;
use bgp_text::Lines;
use bgp_tool::Status;
use mrt::{MemSink, Sink};
use std::alloc::{AllocError, Allocator};

/// Writes the objects of a reason's lines, behind so many verdicts.
fn write_objects<A: Allocator + Copy, W: Sink>(
    sink: &mut W,
    alloc: A,
    judged: u64,
    reason: &Reason<A>,
) -> Result<(), AllocError>
    requires { W.failures sink.old < u64.MAX }
    ensures ok { OnOk result ((printed : List ℕ) × AreToldAs judged (lines_text reason.now) printed
        × W.takes sink.old sink.new printed) }
    ensures err { OnErr result (IsOfLines (lines_text reason.now)) }
{
    let mut lines = VerdictLines::behind(judged, alloc, sink);
    reason.put_lines(&mut lines, alloc)?;
    let status = lines.finish(Status::Done);
    // No effect: it ends the loan of the sink.
    lines.into_sink();
    match status {
        Status::Done => Ok(()),
        _ => Err(AllocError),
    }
}

/// Returns the objects of a reason's lines, behind so many verdicts, if there is memory for them.
fn objects_of<A: Allocator + Copy>(
    alloc: A,
    judged: u64,
    reason: &Reason<A>,
) -> Result<Vec<u8, A>, AllocError>
    ensures ok { IfOk result (λ text. AreToldAs judged (lines_text reason.now) text.items) }
    ensures err { OnErr result (IsOfLines (lines_text reason.now)) }
{
    let mut sink = MemSink::new(alloc);
    write_objects(&mut sink, alloc, judged, reason)?;
    Ok(sink.into_octets())
}

/// Tells the lines of a reason.
fn tell_reason<A: Allocator + Copy, W: Sink>(
    teller: &mut CheckTeller,
    lines: &mut Lines<'_, W>,
    alloc: A,
    reason: &Reason<A>,
)
    ensures { TellsText teller.old teller.new lines.old lines.new (lines_text reason.now) }
{
    let made = objects_of(alloc, teller.judged(), reason);
    teller.put_made(lines, made);
}

/// Puts the lines of a reason.
pub fn put_reason<A: Allocator + Copy, W: Sink>(
    lines: &mut CheckLines<'_, A, W>,
    reason: &Reason<A>,
)
    ensures { PutsLines lines.old lines.new (lines_text reason.now) }
{
    match &mut lines.teller {
        LineTeller::Text => bgp_check_text::put_reason(&mut lines.lines, reason),
        LineTeller::Json(teller) => tell_reason(teller, &mut lines.lines, lines.alloc, reason),
    }
}
