//! How a line names an end.

ghost use Rattle.bgp_text.specs.Lines.{Writes};
ghost use Rattle.bgp_check_text.specs.End.{as_text, end_text, part_by, part_end_text, part_text};

use bgp_text::Lines;
use bgp_why::{Endpoint, put_endpoint};
use mrt::Sink;

/// What a line says about which end it is.
#[derive(Clone, Copy, Debug, PartialEq, Eq)]
pub struct EndName {
    /// Its address, and in a recording its port.
    pub end: Endpoint,
    /// The AS number in its OPEN, if it sent one.
    pub as_number: Option<u32>,
    /// The numbers of the first and of the last record, if its session has several stretches.
    pub part: Option<(u64, u64)>,
}

/// The AS number.
fn put_as<W: Sink>(lines: &mut Lines<'_, W>, number: Option<u32>)
    ensures { Writes lines.old lines.new (as_text number) }
{
    match number {
        Some(number) => {
            lines.put(b"AS ");
            lines.put_decimal(number);
        }
        None => lines.put(b"AS unknown"),
    }
}

/// Which records these are.
fn put_part<W: Sink>(lines: &mut Lines<'_, W>, part: (u64, u64))
    ensures { Writes lines.old lines.new (part_text part) }
{
    lines.put(b"records ");
    lines.put_decimal(part.0);
    lines.put(b" to ");
    lines.put_decimal(part.1);
}

/// Which records these are, if that is said.
fn put_part_by<W: Sink>(lines: &mut Lines<'_, W>, part: Option<(u64, u64)>)
    ensures { Writes lines.old lines.new (part_by part) }
{
    match part {
        Some(part) => {
            lines.put(b", ");
            put_part(lines, part);
        }
        None => lines.put(b""),
    }
}

/// Puts the name of an end: `192.0.2.1:179 (AS 65001)`, or `192.0.2.1 (AS unknown, records 1 to
/// 11)`.
pub fn put_end<W: Sink>(lines: &mut Lines<'_, W>, name: &EndName)
    ensures { Writes lines.old lines.new (end_text name.now) }
{
    put_endpoint(lines, &name.end);
    lines.put(b" (");
    put_as(lines, name.as_number);
    put_part_by(lines, name.part);
    lines.put(b")");
}

/// Puts an end without an AS number, and which of its records these are: `192.0.2.1 (records 1 to
/// 11)`.
pub fn put_part_end<W: Sink>(lines: &mut Lines<'_, W>, end: &Endpoint, part: (u64, u64))
    ensures { Writes lines.old lines.new (part_end_text end.now part) }
{
    put_endpoint(lines, end);
    lines.put(b" (");
    put_part(lines, part);
    lines.put(b")");
}
