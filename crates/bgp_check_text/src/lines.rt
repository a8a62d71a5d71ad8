//! The lines that begin with a verdict on an end.

ghost use Rattle.std.specs.Prelude.{map};
ghost use Rattle.bgp_judge.specs.Ends.{end_value};
ghost use Rattle.bgp_text.specs.Lines.{Writes};
ghost use Rattle.bgp_why.specs.State.{as_text};
ghost use Rattle.bgp_check_text.specs.Reached.{reached_value};
ghost use Rattle.bgp_check_text.specs.Text.{deed_if, no_line, not_judged_line, peer_text};
ghost use Rattle.bgp_check_text.specs.Text.{place_when, unfinished_line, why_text, yes_line};
ghost use Rattle.bgp_check_text.specs.Text.{yes_lines};

use crate::end::{EndName, put_end};
use crate::reached::Reached;
use crate::states::{put_routes_if, put_states};
use bgp_check::{NotJudged, PeerAs};
use bgp_clock::put_when;
use bgp_judge::End;
use bgp_text::Lines;
use bgp_why::{Place, put_place};
use mrt::Sink;
use std::alloc::Allocator;

/// AS_TRANS, which stands for an AS number of four octets (RFC 6793, 9).
const AS_TRANS: u32 = 23456;

/// Puts why an end isn't judged: `the file has no message that it sent`, for one.
pub fn put_why<W: Sink>(lines: &mut Lines<'_, W>, why: NotJudged)
    ensures { Writes lines.old lines.new (why_text why) }
{
    match why {
        NotJudged::NothingSent => lines.put(b"the file has no message that it sent"),
        NotJudged::ExtendedParameters => {
            lines.put(b"an OPEN has extended parameters (RFC 9072), which are not judged");
        }
        NotJudged::NoFamily => lines.put(b"its OPEN offers neither IPv4 nor IPv6 unicast"),
        NotJudged::DynamicCapabilities => {
            lines.put(b"both OPENs offer dynamic capabilities, which are not judged");
        }
        NotJudged::Confederations => {
            lines.put(b"an AS_PATH has confederation segments (RFC 5065), which are not judged");
        }
    }
}

/// Puts the line of an end that isn't judged: `not judged: 192.0.2.1:179 (AS unknown): the file has
/// no message that it sent`.
pub fn put_not_judged<W: Sink>(lines: &mut Lines<'_, W>, name: &EndName, why: NotJudged)
    ensures { Writes lines.old lines.new (not_judged_line name.now why) }
{
    lines.put(b"not judged: ");
    put_end(lines, name);
    lines.put(b": ");
    put_why(lines, why);
    lines.put(b"\n");
}

/// An AS number, and whether it is AS_TRANS.
fn put_as<W: Sink>(lines: &mut Lines<'_, W>, number: u32)
    ensures { Writes lines.old lines.new (as_text number) }
{
    lines.put_decimal(number);
    if number == AS_TRANS {
        lines.put(b" (AS_TRANS)");
    } else {
        lines.put(b"");
    }
}

/// For which peer the end has to be configured, unless it is the one whose OPEN was received.
fn put_peer<W: Sink>(lines: &mut Lines<'_, W>, peer: PeerAs)
    ensures { Writes lines.old lines.new (peer_text peer) }
{
    match peer {
        PeerAs::Any => lines.put(b", with no readable OPEN from its peer"),
        PeerAs::Is(_) => lines.put(b""),
        PeerAs::OtherThan(number) => {
            lines.put(b", if configured for a peer in another AS than ");
            put_as(lines, number);
        }
    }
}

/// The line of a yes.
fn put_yes_line<W: Sink, A: Allocator>(
    lines: &mut Lines<'_, W>,
    name: &EndName,
    peer: PeerAs,
    endings: &[End<A>],
    reached: &Reached<A>,
)
    ensures { Writes lines.old lines.new
        (yes_line name.now peer (reached_value reached.now) (map end_value endings.now)) }
{
    lines.put(b"yes: ");
    put_end(lines, name);
    put_peer(lines, peer);
    lines.put(b": ");
    put_states(lines, endings, reached);
    lines.put(b"\n");
}

/// Puts the line of a yes on a session that came so far, with all possible ends: `yes:
/// 192.0.2.1:179 (AS 65001): Established, routes from its peer: 2`. Then puts the lines of their
/// routes and of those before, if these are told.
pub fn put_yes<W: Sink, A: Allocator>(
    lines: &mut Lines<'_, W>,
    name: &EndName,
    peer: PeerAs,
    endings: &[End<A>],
    reached: &Reached<A>,
    routes: bool,
)
    ensures { Writes lines.old lines.new (yes_lines routes name.now peer
        (reached_value reached.now) (map end_value endings.now)) }
{
    put_yes_line(lines, name, peer, endings, reached);
    put_routes_if(lines, endings, reached, routes);
}

/// Where a record stands, and its time.
fn put_place_when<W: Sink>(lines: &mut Lines<'_, W>, place: &Place)
    ensures { Writes lines.old lines.new (place_when place.now) }
{
    put_place(lines, place);
    lines.put(b", ");
    put_when(lines, place.second, place.micro);
    lines.put(b" UTC: ");
}

/// What was done, if that can be said.
fn put_deed_if<W: Sink>(lines: &mut Lines<'_, W>, deed: &[u8])
    ensures { Writes lines.old lines.new (deed_if deed.now) }
{
    if deed.is_empty() {
        lines.put(b"");
    } else {
        lines.put(b" ");
        lines.put(deed);
    }
}

/// Puts the line of a no at a record, which shows that this was done: `no at packet 8, 1970-01-01
/// 00:01:42 UTC: 192.0.2.2:40000 (AS 65002) sent UPDATE to 192.0.2.1:179, not allowed here`.
pub fn put_no<W: Sink>(lines: &mut Lines<'_, W>, place: &Place, name: &EndName, deed: &[u8])
    ensures { Writes lines.old lines.new (no_line place.now name.now deed.now) }
{
    lines.put(b"no at ");
    put_place_when(lines, place);
    put_end(lines, name);
    put_deed_if(lines, deed);
    lines.put(b"\n");
}

/// Puts the line of an unfinished, whose last record is this one: `unfinished after packet 5,
/// 1970-01-01 00:01:40 UTC: 192.0.2.2:40000 (AS 65002) has not done what is due`.
pub fn put_unfinished<W: Sink>(lines: &mut Lines<'_, W>, place: &Place, name: &EndName)
    ensures { Writes lines.old lines.new (unfinished_line place.now name.now) }
{
    lines.put(b"unfinished after ");
    put_place_when(lines, place);
    put_end(lines, name);
    lines.put(b" has not done what is due\n");
}
