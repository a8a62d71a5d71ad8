//! The line that tells how a session ended.

ghost use Rattle.bgp_text.specs.Lines.{Writes};
ghost use Rattle.bgp_ended.specs.EndedLine.{ended_line, ended_stretch_line, who_and_how_text};
ghost use Rattle.bgp_ended.specs.EndedLine.{who_text};
ghost use Rattle.bgp_ended.specs.Stretch.{ended_stretch_value};
ghost use Rattle.bgp_ended.specs.Values.{ended_value, how_value};

use crate::ended::{Ended, How};
use crate::how_text::put_how;
use crate::stretch::EndedStretch;
use bgp_clock::put_short;
use bgp_prefix::Seconds;
use bgp_text::Lines;
use bgp_why::{Endpoint, put_endpoint};
use mrt::Sink;

/// Who ended it, if that is said.
fn put_who<W: Sink>(lines: &mut Lines<'_, W>, how: How<'_>, by: &Endpoint)
    ensures { Writes lines.old lines.new (who_text (how_value how.entry) by.now) }
{
    match how {
        How::Notified(_) | How::Closed(_) => {
            lines.put(b", by ");
            put_endpoint(lines, by);
        }
        How::Fallen(_) => lines.put(b""),
    }
}

/// Who ended it, and how.
fn put_who_and_how<W: Sink>(lines: &mut Lines<'_, W>, how: How<'_>, by: &Endpoint)
    ensures { Writes lines.old lines.new (who_and_how_text (how_value how.entry) by.now) }
{
    put_who(lines, how, by);
    lines.put(b": ");
    put_how(lines, how);
    lines.put(b"\n");
}

/// Puts the line of a connection that this end of it ended, and whose first packet has this second:
/// `  ended at packet 17, 06:38:45.133606, by 192.0.2.2:51228: FIN, no NOTIFICATION`.
pub fn put_ended<W: Sink>(
    lines: &mut Lines<'_, W>,
    first: Seconds,
    by: &Endpoint,
    ended: &Ended<'_>,
)
    ensures { Writes lines.old lines.new (ended_line first by.now (ended_value ended.now)) }
{
    lines.put(b"  ended at packet ");
    lines.put_decimal(ended.moment.packet);
    lines.put(b", ");
    put_short(lines, first, ended.moment.second, ended.moment.micro);
    put_who_and_how(lines, ended.how, by);
}

/// Puts the line of a stretch that this system ended by the record with this number in its session,
/// whose first record has this second. The record's own second has this fraction, if it has one:
/// `  ended at record 12, 00:03:12.250000: OpenConfirm to Idle, no NOTIFICATION`.
pub fn put_ended_stretch<W: Sink>(
    lines: &mut Lines<'_, W>,
    first: Seconds,
    number: u64,
    micro: Option<u32>,
    by: &Endpoint,
    ended: &EndedStretch<'_>,
)
    ensures { Writes lines.old lines.new
        (ended_stretch_line first number micro by.now (ended_stretch_value ended.now)) }
{
    lines.put(b"  ended at record ");
    lines.put_decimal(number);
    lines.put(b", ");
    put_short(lines, first, ended.second, micro);
    put_who_and_how(lines, ended.how, by);
}
