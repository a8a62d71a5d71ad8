//! The lines that a list has, too: connections, sessions, and what is refused.

ghost use Rattle.std.specs.Prelude.{Some, map};
ghost use Rattle.mrt_sessions.specs.Located.{located};
ghost use Rattle.bgp_check_text.specs.Values.{outline_value};
ghost use Rattle.bgp_json_check.specs.Connections.{connection_text, refused_between_text};
ghost use Rattle.bgp_json_check.specs.Connections.{refused_connection_text, refused_text};
ghost use Rattle.bgp_json_check.specs.Sessions.{fault_text, session_line};
ghost use Rattle.bgp_check_lines.specs.Lines.{PutsLines};

use crate::check_lines::CheckLines;
use crate::teller::LineTeller;
use bgp_check_text::Outline;
use bgp_import::Refusal;
use bgp_json_check::Line;
use bgp_prefix::Session;
use mrt::{CaptureFault, Sink};
use mrt_sessions::{Addresses, NamedRecord};
use segments::Addresses as Pair;
use std::alloc::Allocator;
use streams::Opening;

/// Puts a connection that isn't refused, of which this is known, whose opener sent so many octets,
/// and the other system so many.
pub fn put_connection<A: Allocator + Copy, W: Sink>(
    lines: &mut CheckLines<'_, A, W>,
    session: &Session,
    opening: Opening,
    outline: &Outline<'_>,
    first: usize,
    second: usize,
)
    ensures { PutsLines lines.old lines.new
        (connection_text session.now opening (outline_value outline.now) first second) }
{
    match &mut lines.teller {
        LineTeller::Text => {
            bgp_json_check::put_connection(
                &mut lines.lines,
                session,
                opening,
                outline,
                first,
                second,
            );
        }
        LineTeller::Json(teller) => {
            let listed = Line::Octets(*session, opening, *outline, first, second);
            teller.put_listed(&mut lines.lines, lines.alloc, &listed);
        }
    }
}

/// Puts a connection that is refused.
pub fn put_refused_connection<A: Allocator + Copy, W: Sink>(
    lines: &mut CheckLines<'_, A, W>,
    session: &Session,
    opening: Opening,
    refusal: Refusal,
)
    ensures { PutsLines lines.old lines.new
        (refused_connection_text session.now opening refusal) }
{
    match &mut lines.teller {
        LineTeller::Text => {
            bgp_json_check::put_refused_connection(&mut lines.lines, session, opening, refusal);
        }
        LineTeller::Json(teller) => {
            let listed = Line::Refused(*session, opening, refusal);
            teller.put_listed(&mut lines.lines, lines.alloc, &listed);
        }
    }
}

/// Puts two addresses of whose connections none can be told.
pub fn put_refused_between<A: Allocator + Copy, W: Sink>(
    lines: &mut CheckLines<'_, A, W>,
    addresses: Pair,
    refusal: Refusal,
)
    ensures { PutsLines lines.old lines.new (refused_between_text addresses refusal) }
{
    match &mut lines.teller {
        LineTeller::Text => {
            bgp_json_check::put_refused_between(&mut lines.lines, addresses, refusal);
        }
        LineTeller::Json(teller) => {
            let listed = Line::AllRefused(addresses, refusal);
            teller.put_listed(&mut lines.lines, lines.alloc, &listed);
        }
    }
}

/// Puts why a recording can't be read on.
pub fn put_refused<A: Allocator + Copy, W: Sink>(lines: &mut CheckLines<'_, A, W>, refusal: Refusal)
    ensures { PutsLines lines.old lines.new (refused_text refusal) }
{
    match &mut lines.teller {
        LineTeller::Text => bgp_json_check::put_refused(&mut lines.lines, refusal),
        LineTeller::Json(teller) => teller.put_refused(&mut lines.lines, refusal),
    }
}

/// Puts a capture's session with these records.
pub fn put_session<A: Allocator + Copy, W: Sink>(
    lines: &mut CheckLines<'_, A, W>,
    addresses: Addresses,
    records: &[NamedRecord<'_>],
)
    ensures { PutsLines lines.old lines.new
        (session_line addresses (map located records.now)) }
{
    match &mut lines.teller {
        LineTeller::Text => bgp_json_check::put_session(&mut lines.lines, addresses, records),
        LineTeller::Json(teller) => {
            teller.put_session(&mut lines.lines, lines.alloc, addresses, records);
        }
    }
}

/// Puts why a capture isn't read to its end.
fn put_some_fault<A: Allocator + Copy, W: Sink>(
    lines: &mut CheckLines<'_, A, W>,
    fault: CaptureFault,
)
    ensures { PutsLines lines.old lines.new (fault_text (Some fault)) }
{
    match &mut lines.teller {
        LineTeller::Text => bgp_json_check::put_fault(&mut lines.lines, Some(fault)),
        LineTeller::Json(teller) => teller.put_capture_fault(&mut lines.lines, fault),
    }
}

/// Puts why a capture isn't read to its end, if it isn't.
pub fn put_fault<A: Allocator + Copy, W: Sink>(
    lines: &mut CheckLines<'_, A, W>,
    fault: Option<CaptureFault>,
)
    ensures { PutsLines lines.old lines.new (fault_text fault) }
{
    match fault {
        None => {}
        Some(fault) => put_some_fault(lines, fault),
    }
}
