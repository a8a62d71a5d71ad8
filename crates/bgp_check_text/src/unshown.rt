//! What of the octets of a connection is in no message that is judged.

ghost use Rattle.std.specs.Prelude.{◌≡◌};
ghost use Rattle.bgp_text.specs.Lines.{Writes};
ghost use Rattle.bgp_check_text.specs.Unshown.{behind_note, end_name, passed_note, passed_notes};
ghost use Rattle.bgp_check_text.specs.Unshown.{rest_note, short_note, unshown_notes};

use bgp_recording::{Rest, Unshown};
use bgp_text::Lines;
use mrt::Sink;

/// How many ROUTE-REFRESH messages of a direction aren't judged, if some aren't.
fn put_passed<W: Sink>(lines: &mut Lines<'_, W>, way: &[u8], count: usize)
    ensures { Writes lines.old lines.new (passed_note way.now count) }
{
    if 0 < count {
        lines.put(b"  note: ROUTE-REFRESH messages ");
        lines.put(way);
        lines.put(b", not judged: ");
        lines.put_decimal(count);
        lines.put(b"\n");
    } else {
        lines.put(b"");
    }
}

/// Puts how many ROUTE-REFRESH messages (RFC 2918) aren't judged: of those that were received, and
/// of those that were sent.
pub fn put_passed_over<W: Sink>(lines: &mut Lines<'_, W>, received: usize, sent: usize)
    ensures { Writes lines.old lines.new (passed_notes received sent) }
{
    put_passed(lines, b"received", received);
    put_passed(lines, b"sent", sent);
}

/// That the last message of a direction is incomplete, if it is.
fn put_short<W: Sink>(lines: &mut Lines<'_, W>, way: &[u8], count: usize)
    ensures { Writes lines.old lines.new (short_note way.now count) }
{
    if 0 < count {
        lines.put(b"  note: octets ");
        lines.put(way);
        lines.put(b" of an incomplete last message: ");
        lines.put_decimal(count);
        lines.put(b"\n");
    } else {
        lines.put(b"");
    }
}

/// What ends the messages of a direction.
fn end_name(is_refresh: bool) -> &'static [u8]
    ensures { result.now ≡ end_name is_refresh }
{
    if is_refresh {
        b"ROUTE-REFRESH"
    } else {
        b"faulty header"
    }
}

/// That octets of a direction after a faulty header aren't read, if there are some.
fn put_behind<W: Sink>(
    lines: &mut Lines<'_, W>,
    way: &[u8],
    place: usize,
    count: usize,
    is_refresh: bool,
)
    ensures { Writes lines.old lines.new (behind_note way.now place count is_refresh) }
{
    if 0 < count {
        lines.put(b"  note: octets ");
        lines.put(way);
        lines.put(b" after the ");
        lines.put(end_name(is_refresh));
        lines.put(b" at octet ");
        lines.put_decimal(place);
        lines.put(b", not read: ");
        lines.put_decimal(count);
        lines.put(b"\n");
    } else {
        lines.put(b"");
    }
}

/// What is left of a direction's octets, if something is.
fn put_rest<W: Sink>(lines: &mut Lines<'_, W>, way: &[u8], rest: Rest)
    ensures { Writes lines.old lines.new (rest_note way.now rest) }
{
    match rest {
        Rest::Short { count } => put_short(lines, way, count),
        Rest::BehindFault {
            place,
            count,
            is_refresh,
        } => put_behind(lines, way, place, count, is_refresh),
    }
}

/// Puts what of the octets of both directions is in no message that is judged: how many
/// ROUTE-REFRESH messages aren't judged, and then how many octets received, and how many sent, are
/// of an incomplete message or come after a fault.
pub fn put_unshown<W: Sink>(lines: &mut Lines<'_, W>, received: Unshown, sent: Unshown)
    ensures { Writes lines.old lines.new (unshown_notes received sent) }
{
    put_passed_over(lines, received.passed_over, sent.passed_over);
    put_rest(lines, b"received", received.rest);
    put_rest(lines, b"sent", sent.rest);
}
