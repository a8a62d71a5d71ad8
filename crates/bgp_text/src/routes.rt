//! The text of a route (RFC 4271, 1.1): its destination and its path attributes.

ghost use Rattle.std.specs.Prelude.{◌≡◌, ◌<◌, [], if◌then◌else◌, codes, OnOk, OnErr};
ghost use Rattle.mrt.specs.Sink.{TakesBeginning};
ghost use Rattle.mrt.specs.Failures.{failures_after};
ghost use Rattle.bgp_text.specs.Lines.{Writes};
ghost use Rattle.bgp_text.specs.RouteText.{next_hop_text, numbers_text, segment_text, as_path_text};
ghost use Rattle.bgp_text.specs.RouteText.{origin_number, number_text, router_text};
ghost use Rattle.bgp_text.specs.RouteText.{aggregator_text, list_text, community_text};
ghost use Rattle.bgp_text.specs.RouteText.{extended_text, cluster_text, optional_text, route_text};
ghost use Rattle.bgp_path.specs.LargeCommunities.{large_community_text};

use crate::addresses::put_address;
use crate::lines::Lines;
use crate::updates::put_destination;
use bgp_path::{Aggregator, LargeCommunity, NextHop, Origin, Path, Segment, SegmentKind};
use bgp_prefix::Address;
use bgp_update::Destination;
use mrt::{Failed, Sink};
use std::alloc::Allocator;

/// Puts a next hop: one address, or two with a comma between them.
#[tactic(auto, unfolding(crate::specs::RouteText::next_hop_text))]
pub fn put_next_hop<W: Sink>(lines: &mut Lines<'_, W>, next_hop: NextHop)
    ensures { Writes lines.old lines.new (next_hop_text next_hop) }
{
    match next_hop {
        NextHop::V4(number) => put_address(lines, Address::V4(number)),
        NextHop::V6(number) => put_address(lines, Address::V6(number)),
        NextHop::V6WithLinkLocal(number, local) => {
            put_address(lines, Address::V6(number));
            lines.put(b",");
            put_address(lines, Address::V6(local));
        }
    }
}

/// AS numbers with an octet between them.
fn put_numbers<W: Sink>(lines: &mut Lines<'_, W>, between: u8, numbers: &[u32])
    ensures { Writes lines.old lines.new (numbers_text between numbers.now) }
{
    let Some((first, others)) = numbers.split_first() else {
        return;
    };
    lines.put_decimal(*first);
    for number in others {
        lines.put(&[between]);
        lines.put_decimal(*number);
    }
}

/// A segment: a sequence with blanks, a set in braces with commas.
#[tactic(auto, unfolding(crate::specs::RouteText::segment_text))]
fn put_segment<W: Sink, A: Allocator>(lines: &mut Lines<'_, W>, segment: &Segment<A>)
    ensures { Writes lines.old lines.new (segment_text segment.now) }
{
    match segment.kind() {
        SegmentKind::Sequence => put_numbers(lines, b' ', segment.numbers()),
        SegmentKind::Set => {
            lines.put(b"{");
            put_numbers(lines, b',', segment.numbers());
            lines.put(b"}");
        }
    }
}

/// The segments of an AS path with blanks between them, or a dash for none.
fn put_as_path<W: Sink, A: Allocator>(lines: &mut Lines<'_, W>, segments: &[Segment<A>])
    ensures { Writes lines.old lines.new (as_path_text segments.now) }
{
    let Some((first, others)) = segments.split_first() else {
        return lines.put(b"-");
    };
    put_segment(lines, first);
    for segment in others {
        lines.put(b" ");
        put_segment(lines, segment);
    }
}

/// A word and a number, where there is one.
#[tactic(auto, unfolding(crate::specs::RouteText::number_text))]
fn put_number<W: Sink>(lines: &mut Lines<'_, W>, word: &[u8], number: Option<u32>)
    ensures { Writes lines.old lines.new (number_text word.now number) }
{
    if let Some(number) = number {
        lines.put(word);
        lines.put_decimal(number);
    }
}

/// A word and the address of a router, where there is one.
#[tactic(auto, unfolding(crate::specs::RouteText::router_text))]
fn put_router<W: Sink>(lines: &mut Lines<'_, W>, word: &[u8], router: Option<u32>)
    ensures { Writes lines.old lines.new (router_text word.now router) }
{
    if let Some(router) = router {
        lines.put(word);
        lines.put_ipv4(router);
    }
}

/// The AS number and the address of an aggregator, where there is one.
#[tactic(auto, unfolding(crate::specs::RouteText::aggregator_text))]
fn put_aggregator<W: Sink>(lines: &mut Lines<'_, W>, aggregator: Option<Aggregator>)
    ensures { Writes lines.old lines.new (aggregator_text aggregator) }
{
    if let Some(aggregator) = aggregator {
        lines.put(b" aggregator ");
        lines.put_decimal(aggregator.as_number);
        lines.put(b" ");
        lines.put_ipv4(aggregator.address);
    }
}

/// COMMUNITIES, where there are some: the two halves of each.
fn put_communities<W: Sink>(lines: &mut Lines<'_, W>, values: &[u32])
    ensures { Writes lines.old lines.new
        (list_text (codes " communities") community_text values.now) }
{
    if values.is_empty() {
        return;
    }
    lines.put(b" communities");
    for value in values {
        lines.put(b" ");
        lines.put_decimal(*value / 65536);
        lines.put(b":");
        lines.put_decimal(*value % 65536);
    }
}

/// EXTENDED COMMUNITIES, where there are some: the octets of each.
fn put_extended<W: Sink>(lines: &mut Lines<'_, W>, values: &[u64])
    ensures { Writes lines.old lines.new
        (list_text (codes " extended") extended_text values.now) }
{
    if values.is_empty() {
        return;
    }
    lines.put(b" extended");
    for value in values {
        lines.put(b" ");
        lines.put_digits(&value.to_be_bytes());
    }
}

/// LARGE_COMMUNITY, where there are some: the three numbers of each (RFC 8092, 5).
fn put_large<W: Sink>(lines: &mut Lines<'_, W>, values: &[LargeCommunity])
    ensures { Writes lines.old lines.new
        (list_text (codes " large") large_community_text values.now) }
{
    if values.is_empty() {
        return;
    }
    lines.put(b" large");
    for value in values {
        lines.put(b" ");
        put_large_community(lines, *value);
    }
}

/// A large community: its three numbers with colons between them.
fn put_large_community<W: Sink>(lines: &mut Lines<'_, W>, value: LargeCommunity)
    ensures { Writes lines.old lines.new (large_community_text value) }
{
    lines.put_decimal(value.global_administrator);
    lines.put(b":");
    lines.put_decimal(value.local_data_part_1);
    lines.put(b":");
    lines.put_decimal(value.local_data_part_2);
}

/// CLUSTER_LIST, where it has clusters.
fn put_clusters<W: Sink>(lines: &mut Lines<'_, W>, values: &[u32])
    ensures { Writes lines.old lines.new
        (list_text (codes " clusters") cluster_text values.now) }
{
    if values.is_empty() {
        return;
    }
    lines.put(b" clusters");
    for value in values {
        lines.put(b" ");
        lines.put_ipv4(*value);
    }
}

/// A word where something is so, and nothing where it isn't.
fn put_if<W: Sink>(lines: &mut Lines<'_, W>, is_so: bool, word: &[u8])
    ensures { Writes lines.old lines.new (if is_so then word.now else []) }
{
    if is_so {
        lines.put(word);
    }
}

/// The attributes that a route may have.
fn put_optional<W: Sink, A: Allocator>(lines: &mut Lines<'_, W>, path: &Path<A>)
    ensures { Writes lines.old lines.new (optional_text path.now) }
{
    let parts = path.parts();
    put_number(lines, b" med ", parts.multi_exit_disc);
    put_number(lines, b" pref ", parts.local_pref);
    put_if(lines, parts.atomic_aggregate, b" atomic");
    put_aggregator(lines, parts.aggregator);
    put_communities(lines, parts.communities.as_slice());
    put_extended(lines, parts.extended_communities.as_slice());
    put_large(lines, parts.large_communities.as_slice());
    put_router(lines, b" originator ", parts.originator_id);
    put_clusters(lines, parts.cluster_list.as_slice());
}

/// The number of ORIGIN (RFC 4271, 4.3 a).
fn origin_number(origin: Origin) -> u8
    ensures { result ≡ origin_number origin }
{
    origin as u8
}

/// Puts a route: its destination, its next hop, AS path and origin, and then what else it has.
pub fn put_route<W: Sink, A: Allocator>(
    lines: &mut Lines<'_, W>,
    destination: Destination,
    path: &Path<A>,
)
    ensures { Writes lines.old lines.new (route_text destination path.now) }
{
    let parts = path.parts();
    put_destination(lines, destination);
    lines.put(b" via ");
    put_next_hop(lines, parts.next_hop);
    lines.put(b" path ");
    put_as_path(lines, parts.as_path.segments());
    lines.put(b" origin ");
    lines.put_decimal(origin_number(parts.origin));
    put_optional(lines, path);
}

/// Writes the text of a route to a sink: `DESTINATION via NEXT HOP path AS .. origin N`, and then
/// what else its path has. No word stands before it, and no end of line behind.
///
/// It takes no memory. Where the sink fails, a beginning of the text is written.
pub fn write_route<W: Sink, A: Allocator>(
    sink: &mut W,
    destination: Destination,
    path: &Path<A>,
) -> Result<(), Failed>
    requires { W.failures sink.old < u64.MAX }
    ensures ok { OnOk result (W.takes sink.old sink.new (route_text destination path.now)) }
    ensures err { OnErr result
        (TakesBeginning W.takes sink.old sink.new (route_text destination path.now)) }
    ensures failures { W.failures sink.new ≡ failures_after (W.failures sink.old) result }
{
    let mut lines = Lines::new(sink);
    put_route(&mut lines, destination, path);
    let handed_over = lines.hand_over();
    // No effect: it ends the loan of the sink.
    lines.into_sink();
    handed_over
}
