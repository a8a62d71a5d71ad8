//! Objects that are put, each made in memory before.

ghost use Rattle.std.specs.Prelude.{◌≡◌, [], map};
ghost use Rattle.json.specs.Tree.{json_tokens};
ghost use Rattle.bgp_json.specs.Line.{PutsLine};
ghost use Rattle.bgp_json.specs.Object.{json_line, typed};
ghost use Rattle.bgp_json_values.specs.Adding.{Adds};
ghost use Rattle.bgp_list.specs.Values.{how_value};
ghost use Rattle.bgp_list.specs.Forms.{line_json};
ghost use Rattle.bgp_list.specs.Lines.{line_value};
ghost use Rattle.bgp_list.specs.SessionJson.{session_json};
ghost use Rattle.mrt_sessions.specs.Located.{located};
ghost use Rattle.bgp_json_check.specs.Members.{all_members};
ghost use Rattle.bgp_json_check.specs.Objects.{detail_json, ended_json, judged_json};
ghost use Rattle.bgp_json_check.specs.Objects.{route_json, total_json, verdict_json};

use crate::member::{Member, put_flag, put_members};
use crate::objects::{CheckDetail, CheckTotal, CheckVerdict};
use bgp_json::begin;
use bgp_json_values::{Writer, put_number};
use bgp_json_verdicts::{At, put_place, put_route, put_written};
use bgp_list::{How, Line, put_end_members, put_how_members, write_session};
use bgp_path::Path;
use bgp_text::Lines;
use bgp_update::Destination;
use bgp_why::Endpoint;
use mrt::Sink;
use mrt_sessions::{Addresses, NamedRecord};
use std::alloc::{AllocError, Allocator};

/// Starts what an object is written to.
fn start<A: Allocator>(alloc: A) -> Writer<A>
    ensures before { result.before ≡ [] }
    ensures tokens { result.tokens ≡ [] }
{
    Writer::new(alloc)
}

/// Writes an object with these members.
fn write_plain<A: Allocator + Copy>(
    writer: &mut Writer<A>,
    alloc: A,
    kind: &str,
    members: &[Member<'_>],
) -> Result<(), AllocError>
    ensures { Adds result writer.old writer.new
        (json_tokens (typed kind.now (all_members members.now))) }
{
    begin(writer, kind)?;
    put_members(writer, alloc, members)?;
    writer.end_object()
}

/// Puts an object with these members. If memory is refused, it puts nothing.
fn put_plain<A: Allocator + Copy, W: Sink>(
    lines: &mut Lines<'_, W>,
    alloc: A,
    kind: &str,
    members: &[Member<'_>],
) -> Result<(), AllocError>
    ensures { PutsLine result lines.old lines.new
        (json_line (typed kind.now (all_members members.now))) }
{
    let mut writer = start(alloc);
    let written = write_plain(&mut writer, alloc, kind, members);
    put_written(lines, writer, written)
}

/// Writes an object of a verdict, with these members behind the verdict's number.
fn write_judged<A: Allocator + Copy>(
    writer: &mut Writer<A>,
    alloc: A,
    kind: &str,
    judged: u64,
    members: &[Member<'_>],
) -> Result<(), AllocError>
    ensures { Adds result writer.old writer.new
        (json_tokens (judged_json kind.now judged (all_members members.now))) }
{
    begin(writer, kind)?;
    put_number(writer, "judged", judged)?;
    put_members(writer, alloc, members)?;
    writer.end_object()
}

/// Puts an object of a verdict, with these members behind the verdict's number. If memory is
/// refused, it puts nothing.
fn put_judged<A: Allocator + Copy, W: Sink>(
    lines: &mut Lines<'_, W>,
    alloc: A,
    kind: &str,
    judged: u64,
    members: &[Member<'_>],
) -> Result<(), AllocError>
    ensures { PutsLine result lines.old lines.new
        (json_line (judged_json kind.now judged (all_members members.now))) }
{
    let mut writer = start(alloc);
    let written = write_judged(&mut writer, alloc, kind, judged, members);
    put_written(lines, writer, written)
}

/// Puts the object of a verdict. If memory is refused, it puts nothing.
pub(crate) fn put_verdict_object<A: Allocator + Copy, W: Sink>(
    lines: &mut Lines<'_, W>,
    alloc: A,
    judged: u64,
    verdict: &CheckVerdict<'_>,
) -> Result<(), AllocError>
    ensures { PutsLine result lines.old lines.new
        (json_line (verdict_json judged verdict.now)) }
{
    match verdict {
        CheckVerdict::Yes(end, peer, highest, before, routes) => {
            let members = [
                Member::Word("answer", "yes"),
                Member::End(*end),
                Member::Peer(*peer),
                Member::Reached(*highest),
                Member::Before(before),
                Member::Flag("with_routes", *routes),
            ];
            put_judged(lines, alloc, "verdict", judged, &members)
        }
        CheckVerdict::No(place, end, deed) => {
            let members = [
                Member::Word("answer", "no"),
                Member::Place(*place),
                Member::End(*end),
                Member::Deed(deed),
            ];
            put_judged(lines, alloc, "verdict", judged, &members)
        }
        CheckVerdict::Unfinished(place, end) => {
            let members = [
                Member::Word("answer", "unfinished"),
                Member::Place(*place),
                Member::End(*end),
            ];
            put_judged(lines, alloc, "verdict", judged, &members)
        }
        CheckVerdict::NotJudged(end, is_left_out, why) => {
            let members = [
                Member::Word("answer", "not judged"),
                Member::End(*end),
                Member::Flag("as_left_out", *is_left_out),
                Member::Word("why", why),
            ];
            put_judged(lines, alloc, "verdict", judged, &members)
        }
    }
}

/// Puts the object of what is said beside a verdict. If memory is refused, it puts nothing.
pub(crate) fn put_detail_object<A: Allocator + Copy, W: Sink>(
    lines: &mut Lines<'_, W>,
    alloc: A,
    judged: u64,
    detail: &CheckDetail<'_>,
) -> Result<(), AllocError>
    ensures { PutsLine result lines.old lines.new (json_line (detail_json judged detail.now)) }
{
    match detail {
        CheckDetail::End(number, state, disabled, routes) => {
            let members = [
                Member::Number("end", *number),
                Member::State(*state),
                Member::Disabled(*disabled),
                Member::Number("routes", *routes),
            ];
            put_judged(lines, alloc, "end", judged, &members)
        }
        CheckDetail::EndBefore(number, disabled, routes) => {
            let members = [
                Member::Number("end", *number),
                Member::Disabled(*disabled),
                Member::Number("routes", *routes),
            ];
            put_judged(lines, alloc, "end_before", judged, &members)
        }
        CheckDetail::RefreshNotJudged(direction, count) => {
            let members = [
                Member::Direction(*direction),
                Member::Number("count", *count),
            ];
            put_judged(lines, alloc, "refresh_not_judged", judged, &members)
        }
        CheckDetail::Incomplete(direction, count) => {
            let members = [
                Member::Direction(*direction),
                Member::Number("octets", *count),
            ];
            put_judged(lines, alloc, "incomplete", judged, &members)
        }
        CheckDetail::NotRead(direction, behind, at, count) => {
            let members = [
                Member::Direction(*direction),
                Member::Word("behind", behind),
                Member::Number("at", *at),
                Member::Number("octets", *count),
            ];
            put_judged(lines, alloc, "not_read", judged, &members)
        }
        CheckDetail::InMadeOrder(at, deed) => {
            let members = [
                Member::Place(at.place),
                Member::Flag("dated", at.is_dated),
                Member::Text("deed", deed),
            ];
            put_judged(lines, alloc, "in_made_order", judged, &members)
        }
        CheckDetail::OneOrder(delayed) => {
            let members = [Member::Number("delayed", *delayed)];
            put_judged(lines, alloc, "one_order", judged, &members)
        }
        CheckDetail::AnotherOrder => put_judged(lines, alloc, "another_order", judged, &[]),
        CheckDetail::AllOrders => put_judged(lines, alloc, "all_orders", judged, &[]),
        CheckDetail::Late(within, answer) => {
            let members = [
                Member::Number("within", u64::from(*within)),
                Member::Word("answer", answer),
            ];
            put_judged(lines, alloc, "late", judged, &members)
        }
        CheckDetail::Repeat(command) => {
            let members = [Member::Text("command", command)];
            put_judged(lines, alloc, "repeat", judged, &members)
        }
        CheckDetail::Open => put_judged(lines, alloc, "open_at_end", judged, &[]),
    }
}

/// Puts the object of what is said of a whole file. If memory is refused, it puts nothing.
pub(crate) fn put_total_object<A: Allocator + Copy, W: Sink>(
    lines: &mut Lines<'_, W>,
    alloc: A,
    total: &CheckTotal,
) -> Result<(), AllocError>
    ensures { PutsLine result lines.old lines.new (json_line (total_json total.now)) }
{
    match total {
        CheckTotal::CutShort(packet) => {
            let members = [Member::Number("packet", *packet)];
            put_plain(lines, alloc, "cut_short", &members)
        }
        CheckTotal::NothingAt(port) => {
            let members = [Member::Number("port", u64::from(*port))];
            put_plain(lines, alloc, "nothing", &members)
        }
        CheckTotal::Nothing => put_plain(lines, alloc, "nothing", &[]),
        CheckTotal::Summary(summary) => {
            let members = [
                Member::Number("ends", summary.ends),
                Member::Number("yes", summary.yes),
                Member::Number("no", summary.no),
                Member::Number("unfinished", summary.unfinished),
                Member::Number("not_judged", summary.not_judged),
                Member::Number("refused", summary.refused),
            ];
            put_plain(lines, alloc, "summary", &members)
        }
    }
}

/// Writes the object of a route of one of a verdict's ends.
fn write_route<A: Allocator + Copy, B: Allocator>(
    writer: &mut Writer<A>,
    alloc: A,
    kind: &str,
    judged: u64,
    end: u64,
    destination: Destination,
    path: &Path<B>,
) -> Result<(), AllocError>
    ensures { Adds result writer.old writer.new
        (json_tokens (route_json kind.now judged end (destination, path.now))) }
{
    begin(writer, kind)?;
    put_number(writer, "judged", judged)?;
    put_number(writer, "end", end)?;
    put_route(writer, alloc, destination, path)?;
    writer.end_object()
}

/// Puts the object of a route of one of a verdict's ends. If memory is refused, it puts nothing.
pub(crate) fn put_route_object<A: Allocator + Copy, B: Allocator, W: Sink>(
    lines: &mut Lines<'_, W>,
    alloc: A,
    kind: &str,
    judged: u64,
    end: u64,
    destination: Destination,
    path: &Path<B>,
) -> Result<(), AllocError>
    ensures { PutsLine result lines.old lines.new
        (json_line (route_json kind.now judged end (destination, path.now))) }
{
    let mut writer = start(alloc);
    let written = write_route(&mut writer, alloc, kind, judged, end, destination, path);
    put_written(lines, writer, written)
}

/// Writes the object of how a session ended: the record that shows it, by whom, and how.
fn write_ended<A: Allocator + Copy>(
    writer: &mut Writer<A>,
    alloc: A,
    judged: u64,
    at: &At,
    by: &Endpoint,
    how: How<'_>,
) -> Result<(), AllocError>
    ensures { Adds result writer.old writer.new
        (json_tokens (ended_json judged at.now by.now (how_value how.entry))) }
{
    begin(writer, "ended")?;
    put_number(writer, "judged", judged)?;
    put_place(writer, &at.place)?;
    put_flag(writer, "dated", at.is_dated)?;
    put_end_members(writer, alloc, "by", "by_port", by)?;
    put_how_members(writer, alloc, how)?;
    writer.end_object()
}

/// Puts the object of how a session ended. If memory is refused, it puts nothing.
pub(crate) fn put_ended_object<A: Allocator + Copy, W: Sink>(
    lines: &mut Lines<'_, W>,
    alloc: A,
    judged: u64,
    at: &At,
    by: &Endpoint,
    how: How<'_>,
) -> Result<(), AllocError>
    ensures { PutsLine result lines.old lines.new
        (json_line (ended_json judged at.now by.now (how_value how.entry))) }
{
    let mut writer = start(alloc);
    let written = write_ended(&mut writer, alloc, judged, at, by, how);
    put_written(lines, writer, written)
}

/// Puts the object of a line of a list. If memory is refused, it puts nothing.
pub(crate) fn put_listed_object<A: Allocator + Copy, W: Sink>(
    lines: &mut Lines<'_, W>,
    alloc: A,
    listed: &Line<'_>,
) -> Result<(), AllocError>
    ensures { PutsLine result lines.old lines.new
        (json_line (line_json (line_value listed.now))) }
{
    let mut writer = start(alloc);
    let written = listed.write(&mut writer, alloc);
    put_written(lines, writer, written)
}

/// Puts the object of a capture's session with these records. If memory is refused, it puts nothing.
pub(crate) fn put_session_object<A: Allocator + Copy, W: Sink>(
    lines: &mut Lines<'_, W>,
    alloc: A,
    addresses: Addresses,
    records: &[NamedRecord<'_>],
) -> Result<(), AllocError>
    ensures { PutsLine result lines.old lines.new
        (json_line (session_json addresses (map located records.now))) }
{
    let mut writer = start(alloc);
    let written = write_session(&mut writer, alloc, addresses, records);
    put_written(lines, writer, written)
}
