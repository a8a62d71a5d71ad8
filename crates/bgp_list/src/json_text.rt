//! Lines of JSON, made in memory before one of them is put.

ghost use Rattle.std.specs.Prelude.{◌≡◌, ◌≤◌, [], IfOk, map};
ghost use Rattle.json.specs.Json.{Json, max_depth};
ghost use Rattle.json.specs.Tree.{depth, json_tokens};
ghost use Rattle.mrt_sessions.specs.Sessions.{held_records, held_sessions};
ghost use Rattle.mrt_sessions.specs.Located.{located};
ghost use Rattle.bgp_list.specs.Forms.{line_json};
ghost use Rattle.bgp_list.specs.Lines.{line_value};
ghost use Rattle.bgp_list.specs.Objects.{AddsObject, AreObjects};
ghost use Rattle.bgp_list.specs.SessionJson.{session_json};

use crate::line::Line;
use crate::session_json::write_session;
use bgp_json_values::Writer;
use mrt_sessions::{Addresses, NamedRecord, Sessions};
use std::alloc::{AllocError, Allocator};

/// Starts what an object is written to.
fn start<A: Allocator>(alloc: A) -> Writer<A>
    ensures before { result.before ≡ [] }
    ensures tokens { result.tokens ≡ [] }
{
    Writer::new(alloc)
}

/// Appends the line of the object that was written.
fn add_written<A: Allocator>(text: &mut Vec<u8, A>, writer: Writer<A>) -> Result<(), AllocError>
    requires { writer.before ≡ [] }
    ensures { (value : Json) → writer.tokens ≡ json_tokens value → depth value ≤ max_depth
        → AddsObject result text.old.items text.new.items value }
{
    let line = writer.into_inner();
    text.extend_from_slice(line.as_slice())?;
    text.push(b'\n')?;
    Ok(())
}

/// Appends the object of a line.
fn add_line<A: Allocator + Copy>(
    text: &mut Vec<u8, A>,
    alloc: A,
    line: &Line<'_>,
) -> Result<(), AllocError>
    ensures { AddsObject result text.old.items text.new.items (line_json (line_value line.now)) }
{
    let mut writer = start(alloc);
    line.write(&mut writer, alloc)?;
    add_written(text, writer)
}

/// Returns the objects of these lines, one a line.
pub(crate) fn objects_of<A: Allocator + Copy>(
    alloc: A,
    list: &[Line<'_>],
) -> Result<Vec<u8, A>, AllocError>
    ensures { IfOk result (λ text. AreObjects text.items
        (map (λ line. line_json (line_value line)) list.now)) }
{
    let mut text = Vec::new(alloc);
    for line in list {
        add_line(&mut text, alloc, line)?;
    }
    Ok(text)
}

/// Appends the object of a session with these records.
fn add_session<A: Allocator + Copy>(
    text: &mut Vec<u8, A>,
    alloc: A,
    addresses: Addresses,
    records: &[NamedRecord<'_>],
) -> Result<(), AllocError>
    ensures { AddsObject result text.old.items text.new.items
        (session_json addresses (map located records.now)) }
{
    let mut writer = start(alloc);
    write_session(&mut writer, alloc, addresses, records)?;
    add_written(text, writer)
}

/// Appends the object of one of the sessions.
fn add_held<A: Allocator + Copy>(
    text: &mut Vec<u8, A>,
    alloc: A,
    sessions: &Sessions<'_, A>,
    addresses: Addresses,
) -> Result<(), AllocError>
    ensures { AddsObject result text.old.items text.new.items
        (session_json addresses (held_records sessions.now addresses)) }
{
    match sessions.records(addresses) {
        Some(records) => add_session(text, alloc, addresses, records),
        None => add_session(text, alloc, addresses, &[]),
    }
}

/// Returns the objects of all sessions, one a line.
pub(crate) fn objects_of_sessions<A: Allocator + Copy>(
    alloc: A,
    sessions: &Sessions<'_, A>,
) -> Result<Vec<u8, A>, AllocError>
    ensures { IfOk result (λ text. AreObjects text.items
        (map (λ addresses. session_json addresses (held_records sessions.now addresses))
        (held_sessions sessions.now))) }
{
    let mut text = Vec::new(alloc);
    for addresses in sessions.in_order() {
        add_held(&mut text, alloc, sessions, *addresses)?;
    }
    Ok(text)
}
