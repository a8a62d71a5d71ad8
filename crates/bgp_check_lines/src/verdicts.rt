//! The lines that begin with a verdict on an end.

ghost use Rattle.std.specs.Prelude.{◌≡◌, map};
ghost use Rattle.bgp_judge.specs.Ends.{end_value};
ghost use Rattle.bgp_text.specs.Lines.{Writes};
ghost use Rattle.bgp_check_text.specs.Reached.{reached_value};
ghost use Rattle.bgp_check_text.specs.Text.{no_line, not_judged_line, unfinished_line, why_text};
ghost use Rattle.bgp_check_text.specs.Text.{yes_lines};
ghost use Rattle.bgp_check_lines.specs.Lines.{PutsLines};
ghost use Rattle.bgp_check_lines.specs.Values.{judged_end, unnamed_line, unnamed_text};

use crate::check_lines::CheckLines;
use crate::teller::LineTeller;
use bgp_check_text::{EndName, NotJudged, PeerAs, Reached, put_part_end};
use bgp_json_check::{CheckVerdict, JudgedEnd};
use bgp_judge::End;
use bgp_text::Lines;
use bgp_why::{Endpoint, Place, put_endpoint};
use mrt::Sink;
use std::alloc::Allocator;

/// Returns an end as its object names it.
fn judged_end(name: &EndName) -> JudgedEnd
    ensures { result ≡ judged_end name.now }
{
    JudgedEnd {
        end: name.end,
        as_number: name.as_number,
        part: name.part,
    }
}

/// Puts the line of a yes on a session that came so far, with all possible ends; and the lines of
/// their routes and of those before, if these are told.
pub fn put_yes<A: Allocator + Copy, B: Allocator, W: Sink>(
    lines: &mut CheckLines<'_, A, W>,
    name: &EndName,
    peer: PeerAs,
    endings: &[End<B>],
    reached: &Reached<B>,
    routes: bool,
)
    ensures { PutsLines lines.old lines.new (yes_lines routes name.now peer
        (reached_value reached.now) (map end_value endings.now)) }
{
    match &mut lines.teller {
        LineTeller::Text => {
            bgp_check_text::put_yes(&mut lines.lines, name, peer, endings, reached, routes);
        }
        LineTeller::Json(teller) => teller.put_yes(
            &mut lines.lines,
            lines.alloc,
            routes,
            judged_end(name),
            peer,
            reached.highest,
            reached.counts.as_slice(),
            endings,
            reached.before.as_slice(),
        ),
    }
}

/// Puts the line of a no at a record, which shows that this was done.
pub fn put_no<A: Allocator + Copy, W: Sink>(
    lines: &mut CheckLines<'_, A, W>,
    place: &Place,
    name: &EndName,
    deed: &[u8],
)
    ensures { PutsLines lines.old lines.new (no_line place.now name.now deed.now) }
{
    match &mut lines.teller {
        LineTeller::Text => bgp_check_text::put_no(&mut lines.lines, place, name, deed),
        LineTeller::Json(teller) => {
            let verdict = CheckVerdict::No(*place, judged_end(name), deed);
            teller.put_verdict(&mut lines.lines, lines.alloc, &verdict);
        }
    }
}

/// Puts the line of an unfinished, whose last record is this one.
pub fn put_unfinished<A: Allocator + Copy, W: Sink>(
    lines: &mut CheckLines<'_, A, W>,
    place: &Place,
    name: &EndName,
)
    ensures { PutsLines lines.old lines.new (unfinished_line place.now name.now) }
{
    match &mut lines.teller {
        LineTeller::Text => bgp_check_text::put_unfinished(&mut lines.lines, place, name),
        LineTeller::Json(teller) => {
            let verdict = CheckVerdict::Unfinished(*place, judged_end(name));
            teller.put_verdict(&mut lines.lines, lines.alloc, &verdict);
        }
    }
}

/// Returns why an end isn't judged, in words.
fn why_text(why: NotJudged) -> &'static str
    ensures { result.now ≡ why_text why }
{
    match why {
        NotJudged::NothingSent => "the file has no message that it sent",
        NotJudged::ExtendedParameters => {
            "an OPEN has extended parameters (RFC 9072), which are not judged"
        }
        NotJudged::NoFamily => "its OPEN offers neither IPv4 nor IPv6 unicast",
        NotJudged::DynamicCapabilities => {
            "both OPENs offer dynamic capabilities, which are not judged"
        }
        NotJudged::Confederations => {
            "an AS_PATH has confederation segments (RFC 5065), which are not judged"
        }
    }
}

/// Puts the line of an end that isn't judged.
pub fn put_not_judged<A: Allocator + Copy, W: Sink>(
    lines: &mut CheckLines<'_, A, W>,
    name: &EndName,
    why: NotJudged,
)
    ensures { PutsLines lines.old lines.new (not_judged_line name.now why) }
{
    match &mut lines.teller {
        LineTeller::Text => bgp_check_text::put_not_judged(&mut lines.lines, name, why),
        LineTeller::Json(teller) => {
            let verdict = CheckVerdict::NotJudged(judged_end(name), false, why_text(why));
            teller.put_verdict(&mut lines.lines, lines.alloc, &verdict);
        }
    }
}

/// Puts an end without an AS number, and which of its records these are, if that is said.
fn put_unnamed_end<W: Sink>(lines: &mut Lines<'_, W>, end: &Endpoint, part: Option<(u64, u64)>)
    ensures { Writes lines.old lines.new (unnamed_text end.now part) }
{
    match part {
        None => put_endpoint(lines, end),
        Some(part) => put_part_end(lines, end, part),
    }
}

/// Puts the line of an end without an AS number that isn't judged, as text.
fn put_unnamed_text<W: Sink>(
    lines: &mut Lines<'_, W>,
    end: &Endpoint,
    part: Option<(u64, u64)>,
    why: &str,
)
    ensures { Writes lines.old lines.new (unnamed_line end.now part why.now) }
{
    lines.put(b"not judged: ");
    put_unnamed_end(lines, end, part);
    lines.put(b": ");
    lines.put(why.as_bytes());
    lines.put(b"\n");
}

/// Puts the line of an end without an AS number that isn't judged, and why.
pub fn put_unnamed<A: Allocator + Copy, W: Sink>(
    lines: &mut CheckLines<'_, A, W>,
    end: &Endpoint,
    part: Option<(u64, u64)>,
    why: &'static str,
)
    ensures { PutsLines lines.old lines.new (unnamed_line end.now part why.now) }
{
    match &mut lines.teller {
        LineTeller::Text => put_unnamed_text(&mut lines.lines, end, part, why),
        LineTeller::Json(teller) => {
            let unnamed = JudgedEnd {
                end: *end,
                as_number: None,
                part,
            };
            let verdict = CheckVerdict::NotJudged(unnamed, true, why);
            teller.put_verdict(&mut lines.lines, lines.alloc, &verdict);
        }
    }
}
