//! The objects of lines, each made in memory before it is put.

ghost use Rattle.std.specs.Prelude.{◌≡◌, ◌≤◌, ◌∷◌, [], OnOk, codes, if◌then◌else◌, map};
ghost use Rattle.json.specs.Json.{Json, max_depth, string};
ghost use Rattle.json.specs.Token as tokens;
ghost use Rattle.json.specs.Tree.{depth, json_tokens};
ghost use Rattle.bgp_tool.specs.Line.{PutsLine};
ghost use Rattle.bgp_tool.specs.Object.{json_line, typed};
ghost use Rattle.bgp_json_values.specs.Adding.{Adds};
ghost use Rattle.bgp_json_values.specs.Objects.{members_tokens, number_of, values_tokens};
ghost use Rattle.bgp_json_verdicts.specs.Lines.{HasRoute, line_value, reason_value};
ghost use Rattle.bgp_json_verdicts.specs.Objects.{answer_members, direction_from, end_members};
ghost use Rattle.bgp_json_verdicts.specs.Objects.{of_end, of_verdict, opening_members};
ghost use Rattle.bgp_json_verdicts.specs.Objects.{reason_members, reason_type};
ghost use Rattle.bgp_json_verdicts.specs.Objects.{family_texts, line_json, octet_of, refusal_json};

use crate::answer::{Answer, put_answer};
use crate::opening::put_opening;
use crate::reason::{put_reason, put_state, reason_type};
use crate::reason_line::ReasonLine;
use crate::route::put_route;
use crate::telling::Counts;
use crate::verdict_line::VerdictLine;
use bgp_import::Refusal;
use bgp_json_values::{Writer, put_number};
use bgp_machine::Fsm;
use bgp_open::Families;
use bgp_path::Path;
use bgp_prefix::Session;
use bgp_text::Lines;
use bgp_tool::{begin, put_json_recording_refusal};
use bgp_update::Destination;
use bgp_values::Direction;
use mrt::Sink;
use std::alloc::{AllocError, Allocator};
use streams::{Fault, Opening, Side};

/// Starts what an object is written to.
fn start<A: Allocator>(alloc: A) -> Writer<A>
    ensures before { result.before ≡ [] }
    ensures tokens { result.tokens ≡ [] }
{
    Writer::new(alloc)
}

/// Puts the line of what was written, or nothing if memory was refused for it.
pub fn put_written<A: Allocator, W: Sink>(
    lines: &mut Lines<'_, W>,
    writer: Writer<A>,
    written: Result<(), AllocError>,
) -> Result<(), AllocError>
    requires { OnOk written (writer.before ≡ []) }
    ensures { (value : Json) → OnOk written (writer.tokens ≡ json_tokens value)
        → depth value ≤ max_depth → PutsLine result lines.old lines.new (json_line value) }
{
    match written {
        Ok(()) => {
            let text = writer.into_inner();
            lines.put(text.as_slice());
            lines.put(b"\n");
            Ok(())
        }
        Err(fault) => Err(fault),
    }
}

/// Begins the object of a line that belongs to a verdict.
fn begin_of_verdict<A: Allocator>(
    writer: &mut Writer<A>,
    kind: &str,
    counts: Counts,
) -> Result<(), AllocError>
    ensures { Adds result writer.old writer.new (tokens.begin_object
        ∷ members_tokens ((codes "type", string kind.now)
        ∷ (codes "judged", number_of counts.judged) ∷ [])) }
{
    begin(writer, kind)?;
    put_number(writer, "judged", counts.judged)
}

/// Begins the object of a line that belongs to an end of a verdict.
fn begin_of_end<A: Allocator>(
    writer: &mut Writer<A>,
    kind: &str,
    counts: Counts,
) -> Result<(), AllocError>
    ensures { Adds result writer.old writer.new (tokens.begin_object
        ∷ members_tokens ((codes "type", string kind.now)
        ∷ (codes "judged", number_of counts.judged) ∷ (codes "end", number_of counts.end) ∷ [])) }
{
    begin_of_verdict(writer, kind, counts)?;
    put_number(writer, "end", counts.end)
}

/// Puts a family by its text, if it is so.
fn put_family<A: Allocator>(
    writer: &mut Writer<A>,
    is_so: bool,
    text: &str,
) -> Result<(), AllocError>
    ensures { Adds result writer.old writer.new
        (values_tokens (if is_so then string text.now ∷ [] else [])) }
{
    if is_so { writer.string(text) } else { Ok(()) }
}

/// Puts the texts of families.
pub fn put_families<A: Allocator>(
    writer: &mut Writer<A>,
    families: Families,
) -> Result<(), AllocError>
    ensures { Adds result writer.old writer.new
        (values_tokens (map string (family_texts families))) }
{
    put_family(writer, families.v4, "v4")?;
    put_family(writer, families.v6, "v6")
}

/// Puts an end: the state, and the families that are disabled.
fn put_end<A: Allocator + Copy>(
    writer: &mut Writer<A>,
    alloc: A,
    state: Fsm,
    disabled: Families,
) -> Result<(), AllocError>
    ensures { Adds result writer.old writer.new (members_tokens (end_members state disabled)) }
{
    put_state(writer, alloc, state)?;
    writer.key("disabled")?;
    writer.begin_array()?;
    put_families(writer, disabled)?;
    writer.end_array()
}

/// Writes the object of a connection that is named.
fn write_opening<A: Allocator + Copy>(
    writer: &mut Writer<A>,
    alloc: A,
    session: &Session,
    opening: Opening,
) -> Result<(), AllocError>
    ensures { Adds result writer.old writer.new
        (json_tokens (typed (codes "connection") (opening_members session.now opening))) }
{
    begin(writer, "connection")?;
    put_opening(writer, alloc, session, opening)?;
    writer.end_object()
}

/// Writes the object of what a verdict answers.
fn write_answer<A: Allocator>(
    writer: &mut Writer<A>,
    counts: Counts,
    answer: Answer,
) -> Result<(), AllocError>
    ensures { Adds result writer.old writer.new
        (json_tokens (of_verdict (codes "verdict") counts (answer_members answer))) }
{
    begin_of_verdict(writer, "verdict", counts)?;
    put_answer(writer, answer)?;
    writer.end_object()
}

/// Writes the object of an end.
fn write_end<A: Allocator + Copy>(
    writer: &mut Writer<A>,
    alloc: A,
    counts: Counts,
    state: Fsm,
    disabled: Families,
) -> Result<(), AllocError>
    ensures { Adds result writer.old writer.new
        (json_tokens (of_end (codes "end") counts (end_members state disabled))) }
{
    begin_of_end(writer, "end", counts)?;
    put_end(writer, alloc, state, disabled)?;
    writer.end_object()
}

/// Writes the object of a line of a reason.
fn write_reason<A: Allocator + Copy>(
    writer: &mut Writer<A>,
    alloc: A,
    counts: Counts,
    reason: &ReasonLine<'_>,
) -> Result<(), AllocError>
    ensures { Adds result writer.old writer.new
        (json_tokens (of_verdict (reason_type (reason_value reason.now)) counts
        (reason_members (reason_value reason.now)))) }
{
    begin_of_verdict(writer, reason_type(reason), counts)?;
    put_reason(writer, alloc, reason)?;
    writer.end_object()
}

/// Writes the object of a line up to which there are so many verdicts and ends.
fn write_line<A: Allocator + Copy>(
    writer: &mut Writer<A>,
    alloc: A,
    counts: Counts,
    line: &VerdictLine<'_>,
) -> Result<(), AllocError>
    ensures { Adds result writer.old writer.new
        (json_tokens (line_json counts (line_value line.now))) }
{
    match line {
        VerdictLine::Opening(session, opening) => write_opening(writer, alloc, session, *opening),
        VerdictLine::Answer(answer) => write_answer(writer, counts, *answer),
        VerdictLine::End(state, disabled) => write_end(writer, alloc, counts, *state, *disabled),
        VerdictLine::Reason(reason) => write_reason(writer, alloc, counts, reason),
    }
}

/// Puts the object of a line up to which there are so many verdicts and ends. If memory is refused,
/// it puts nothing.
pub(crate) fn put_line<A: Allocator + Copy, W: Sink>(
    lines: &mut Lines<'_, W>,
    alloc: A,
    counts: Counts,
    line: &VerdictLine<'_>,
) -> Result<(), AllocError>
    ensures { PutsLine result lines.old lines.new
        (json_line (line_json counts (line_value line.now))) }
{
    let mut writer = start(alloc);
    let written = write_line(&mut writer, alloc, counts, line);
    put_written(lines, writer, written)
}

/// Writes the object of a route up to which there are so many verdicts and ends.
fn write_route<A: Allocator + Copy, B: Allocator>(
    writer: &mut Writer<A>,
    alloc: A,
    counts: Counts,
    destination: Destination,
    path: &Path<B>,
) -> Result<(), AllocError>
    ensures { Adds result writer.old writer.new
        (json_tokens (line_json counts (HasRoute destination path.now))) }
{
    begin_of_end(writer, "route", counts)?;
    put_route(writer, alloc, destination, path)?;
    writer.end_object()
}

/// Puts the object of a route up to which there are so many verdicts and ends. If memory is refused,
/// it puts nothing.
pub(crate) fn put_route_line<A: Allocator + Copy, B: Allocator, W: Sink>(
    lines: &mut Lines<'_, W>,
    alloc: A,
    counts: Counts,
    destination: Destination,
    path: &Path<B>,
) -> Result<(), AllocError>
    ensures { PutsLine result lines.old lines.new
        (json_line (line_json counts (HasRoute destination path.now))) }
{
    let mut writer = start(alloc);
    let written = write_route(&mut writer, alloc, counts, destination, path);
    put_written(lines, writer, written)
}

/// Returns which way the octets went of the stream that this system sends.
fn direction_from(from: Side) -> Direction
    ensures { result ≡ direction_from from }
{
    match from {
        Side::Local => Direction::Sent,
        Side::Peer => Direction::Received,
    }
}

/// Returns the octet that a refusal names, if it names one.
fn octet_of(refusal: Refusal) -> Option<(Direction, u64)>
    ensures { result ≡ octet_of refusal }
{
    match refusal {
        Refusal::Connection(
            Fault::Conflict { from, place, .. }
            | Fault::Missing { from, place, .. }
            | Fault::AfterReset { from, place, .. },
        )
        | Refusal::RouteRefresh { from, place, .. } => Some((direction_from(from), place)),
        _ => None,
    }
}

/// Puts the object of a recording that is refused, or of one of its connections. If memory is
/// refused, it puts nothing.
pub(crate) fn put_refusal<A: Allocator, W: Sink>(
    lines: &mut Lines<'_, W>,
    alloc: A,
    refusal: Refusal,
) -> Result<(), AllocError>
    ensures { PutsLine result lines.old lines.new (json_line (refusal_json refusal)) }
{
    put_json_recording_refusal(
        lines,
        alloc,
        refusal.number(),
        refusal.name(),
        refusal.packet(),
        octet_of(refusal),
    )
}
