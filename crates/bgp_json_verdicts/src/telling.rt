//! Objects one after another, as far as there is memory for them.

ghost use Rattle.std.specs.Prelude.{◌≡◌, ◌∷◌, [], IfSome, false, map, true};
ghost use Rattle.std.specs.List.{flat_map};
ghost use Rattle.bgp_judge.specs.Ends.{end_value};
ghost use Rattle.bgp_judge.specs.Verdict.{No, verdict_value};
ghost use Rattle.bgp_tool.specs.Status.{code_of};
ghost use Rattle.bgp_json_verdicts.specs.Lines.{HasRoute, Refuses, RefusesCapture, end_lines};
ghost use Rattle.bgp_json_verdicts.specs.Lines.{line_value, route_value, verdict_lines};
ghost use Rattle.bgp_json_verdicts.specs.Objects.{counted_with, counts_behind, no_counts};
ghost use Rattle.bgp_json_verdicts.specs.Telling.{PutsCounted, Tells, told_status};

use crate::answer::Answer;
use crate::object::{put_line, put_refusal, put_route_line};
use crate::verdict_line::VerdictLine;
use bgp_import::Refusal;
use bgp_judge::{End, Verdict};
use bgp_path::Path;
use bgp_rib::RibIn;
use bgp_text::Lines;
use bgp_tool::{Status, put_json_capture_refusal};
use bgp_update::Destination;
use mrt::{CaptureFault, Sink};
use std::alloc::{AllocError, Allocator};

/// How many verdicts were told, and how many ends of the last one.
#[derive(Clone, Copy)]
pub struct Counts {
    /// Verdicts.
    pub judged: u64,
    /// Ends.
    pub end: u64,
}

/// Puts the objects of lines one after another, until memory is refused for one: then nothing more
/// is put.
#[derive(Clone, Copy)]
pub struct Telling {
    counts: Counts,
    has_failed: bool,
}

/// Returns how many verdicts and ends there are up to a line, if numbers of 64 bits can say it.
fn counted_with(counts: Counts, line: &VerdictLine<'_>) -> Option<Counts>
    ensures { IfSome result (λ after. after ≡ counted_with counts (line_value line.now)) }
{
    match line {
        VerdictLine::Opening(..) | VerdictLine::Reason(_) => Some(counts),
        VerdictLine::Answer(_) => Some(Counts {
            judged: counts.judged.checked_add(1)?,
            end: 0,
        }),
        VerdictLine::End(..) => Some(Counts {
            end: counts.end.checked_add(1)?,
            ..counts
        }),
    }
}

/// Puts the object of a line behind others with so many verdicts and ends, and returns how many
/// there are then. If memory is refused, it puts nothing.
fn put_counted<A: Allocator + Copy, W: Sink>(
    lines: &mut Lines<'_, W>,
    alloc: A,
    counts: Counts,
    line: &VerdictLine<'_>,
) -> Result<Counts, AllocError>
    ensures { PutsCounted result lines.old lines.new counts (line_value line.now) }
{
    let Some(counts) = counted_with(counts, line) else {
        return Err(AllocError);
    };
    put_line(lines, alloc, counts, line)?;
    Ok(counts)
}

impl Telling {
    /// Starts before the first verdict.
    pub fn new() -> Telling
        ensures counts { result.counts ≡ no_counts }
        ensures calm { result.has_failed ≡ false }
    {
        Telling {
            counts: Counts { judged: 0, end: 0 },
            has_failed: false,
        }
    }

    /// Starts behind so many verdicts, the last of which has no ends yet.
    pub fn behind(judged: u64) -> Telling
        ensures counts { result.counts ≡ counts_behind judged }
        ensures calm { result.has_failed ≡ false }
    {
        Telling {
            counts: Counts { judged, end: 0 },
            has_failed: false,
        }
    }

    /// Whether memory was refused for an object.
    pub fn has_failed(&self) -> bool
        ensures { result ≡ self.now.has_failed }
    {
        self.has_failed
    }

    /// Returns the exit status of what has this one, or that of memory, where it was refused for an
    /// object.
    pub fn status(&self, status: Status) -> Status
        ensures { code_of result ≡ told_status self.now (code_of status) }
    {
        if self.has_failed {
            Status::Memory
        } else {
            status
        }
    }

    /// Tells that memory was refused for an object, so that nothing more is put.
    pub fn fail(&mut self)
        ensures { self.new ≡ record self.old { has_failed = true } }
    {
        self.has_failed = true;
    }

    /// Puts the object of a line.
    pub fn put<A: Allocator + Copy, W: Sink>(
        &mut self,
        lines: &mut Lines<'_, W>,
        alloc: A,
        line: &VerdictLine<'_>,
    )
        ensures { Tells self.old self.new lines.old lines.new (line_value line.now ∷ []) }
    {
        if self.has_failed {
            return;
        }
        match put_counted(lines, alloc, self.counts, line) {
            Ok(counts) => self.counts = counts,
            Err(AllocError) => self.fail(),
        }
    }

    /// Puts the object of a route.
    fn put_route<A: Allocator + Copy, B: Allocator, W: Sink>(
        &mut self,
        lines: &mut Lines<'_, W>,
        alloc: A,
        destination: Destination,
        path: &Path<B>,
    )
        ensures { Tells self.old self.new lines.old lines.new
            (HasRoute destination path.now ∷ []) }
    {
        if self.has_failed {
            return;
        }
        match put_route_line(lines, alloc, self.counts, destination, path) {
            Ok(()) => {}
            Err(AllocError) => self.fail(),
        }
    }

    /// Puts the object of a capture that is refused.
    pub fn put_capture_refusal<A: Allocator, W: Sink>(
        &mut self,
        lines: &mut Lines<'_, W>,
        alloc: A,
        fault: CaptureFault,
    )
        ensures { Tells self.old self.new lines.old lines.new (RefusesCapture fault ∷ []) }
    {
        if self.has_failed {
            return;
        }
        match put_json_capture_refusal(lines, alloc, fault) {
            Ok(()) => {}
            Err(AllocError) => self.fail(),
        }
    }

    /// Puts the object of a recording that is refused, or of one of its connections.
    pub fn put_refusal<A: Allocator, W: Sink>(
        &mut self,
        lines: &mut Lines<'_, W>,
        alloc: A,
        refusal: Refusal,
    )
        ensures { Tells self.old self.new lines.old lines.new (Refuses refusal ∷ []) }
    {
        if self.has_failed {
            return;
        }
        match put_refusal(lines, alloc, refusal) {
            Ok(()) => {}
            Err(AllocError) => self.fail(),
        }
    }

    /// Puts the objects of routes, in the order of their destinations.
    fn put_routes<A: Allocator + Copy, B: Allocator, W: Sink>(
        &mut self,
        lines: &mut Lines<'_, W>,
        alloc: A,
        rib: &RibIn<B>,
    )
        ensures { Tells self.old self.new lines.old lines.new (map route_value rib.now.entries) }
    {
        for (destination, path) in rib.routes() {
            self.put_route(lines, alloc, destination, path);
        }
    }

    /// Puts the objects of a possible end and of its routes.
    fn put_end<A: Allocator + Copy, B: Allocator, W: Sink>(
        &mut self,
        lines: &mut Lines<'_, W>,
        alloc: A,
        end: &End<B>,
    )
        ensures { Tells self.old self.new lines.old lines.new (end_lines (end_value end.now)) }
    {
        self.put(lines, alloc, &VerdictLine::End(end.fsm, end.rib.disabled()));
        self.put_routes(lines, alloc, &end.rib);
    }

    /// Puts the objects of ends, one after another.
    fn put_ends<A: Allocator + Copy, B: Allocator, W: Sink>(
        &mut self,
        lines: &mut Lines<'_, W>,
        alloc: A,
        ends: &[End<B>],
    )
        ensures { Tells self.old self.new lines.old lines.new
            (flat_map end_lines (map end_value ends.now)) }
    {
        for end in ends {
            self.put_end(lines, alloc, end);
        }
    }

    /// Puts the object of a no behind so many records that begin a run.
    fn put_no<A: Allocator + Copy, W: Sink>(
        &mut self,
        lines: &mut Lines<'_, W>,
        alloc: A,
        count: u64,
    )
        ensures { Tells self.old self.new lines.old lines.new (verdict_lines (No count)) }
    {
        match count.checked_add(1) {
            Some(number) => self.put(lines, alloc, &VerdictLine::Answer(Answer::NoAt(number))),
            None => self.fail(),
        }
    }

    /// Puts the objects of a verdict, with each possible end and its routes.
    pub fn put_verdict<A: Allocator + Copy, B: Allocator, W: Sink>(
        &mut self,
        lines: &mut Lines<'_, W>,
        alloc: A,
        verdict: &Verdict<B>,
    )
        ensures { Tells self.old self.new lines.old lines.new
            (verdict_lines (verdict_value verdict.now)) }
    {
        match verdict {
            Verdict::Yes(ends) => {
                self.put(lines, alloc, &VerdictLine::Answer(Answer::Yes));
                self.put_ends(lines, alloc, ends.as_slice());
            }
            Verdict::No(count) => self.put_no(lines, alloc, *count),
            Verdict::Unfinished => {
                self.put(lines, alloc, &VerdictLine::Answer(Answer::Unfinished));
            }
        }
    }
}
