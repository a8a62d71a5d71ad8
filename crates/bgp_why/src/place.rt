//! Where a record stands, and its time.

ghost use Rattle.bgp_text.specs.Lines.{Writes};
ghost use Rattle.bgp_why.specs.Place.{packet_text, place_at, place_by, place_text, record_text};

use bgp_clock::{put_short, put_when};
use bgp_prefix::Seconds;
use bgp_text::Lines;
use mrt::Sink;

/// Where a record stands, and its time.
#[derive(Clone, Copy, Debug, PartialEq, Eq)]
pub struct Place {
    /// Its number among its session's records, from 1.
    pub number: u64,
    /// The packet that shows it, in a recording.
    pub packet: Option<u64>,
    /// Its second, and in a recording that of the packet.
    pub second: Seconds,
    /// The microseconds of the second's fraction, if the file has one.
    pub micro: Option<u32>,
}

/// A packet, or a number if there is none.
fn put_place_by<W: Sink>(lines: &mut Lines<'_, W>, number: u64, packet: Option<u64>)
    ensures { Writes lines.old lines.new (place_by number packet) }
{
    match packet {
        Some(packet) => {
            lines.put(b"packet ");
            lines.put_decimal(packet);
        }
        None => {
            lines.put(b"record ");
            lines.put_decimal(number);
        }
    }
}

/// Puts where a record stands: `packet 6` in a recording, and else `record 8`.
pub fn put_place<W: Sink>(lines: &mut Lines<'_, W>, place: &Place)
    ensures { Writes lines.old lines.new (place_text place.now) }
{
    put_place_by(lines, place.number, place.packet);
}

/// Puts where a record stands and its time, without the date if its day is that of `first`:
/// `record 8, 00:01:41`.
pub(crate) fn put_place_at<W: Sink>(lines: &mut Lines<'_, W>, first: Seconds, place: &Place)
    ensures { Writes lines.old lines.new (place_at first place.now) }
{
    put_place(lines, place);
    lines.put(b", ");
    put_short(lines, first, place.second, place.micro);
}

/// A packet, if there is one.
fn put_packet<W: Sink>(lines: &mut Lines<'_, W>, packet: Option<u64>)
    ensures { Writes lines.old lines.new (packet_text packet) }
{
    match packet {
        Some(packet) => {
            lines.put(b", packet ");
            lines.put_decimal(packet);
        }
        None => lines.put(b""),
    }
}

/// Puts the number of a record, its packet and its time: `record 8, 1970-01-01 00:01:41 UTC: `.
pub(crate) fn put_record<W: Sink>(lines: &mut Lines<'_, W>, place: &Place)
    ensures { Writes lines.old lines.new (record_text place.now) }
{
    lines.put(b"record ");
    lines.put_decimal(place.number);
    put_packet(lines, place.packet);
    lines.put(b", ");
    put_when(lines, place.second, place.micro);
    lines.put(b" UTC: ");
}
