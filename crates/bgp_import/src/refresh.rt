//! A ROUTE-REFRESH (RFC 2918) among the messages of a connection, which isn't judged.

ghost use Rattle.std.specs.Prelude.{◌≡◌, ◌↔◌, IsTrue, IfSome, IfNone, Some};
ghost use Rattle.std.specs.List.{AllByRecursion};
ghost use Rattle.bgp_recording.specs.Captured.{IsNoRefresh, records_of};
ghost use Rattle.bgp_import.specs.Refreshes.{IsRefreshFrom, IsRefreshPacket, IsRefreshOf};
ghost use Rattle.bgp_import.specs.Refreshes.{IsRefreshIn, earlier, place_of};

use crate::capture::message_from;
use crate::refusal::Refusal;
use bgp_recording::{Entry, Recording, Rest};
use mrt::is_route_refresh;
use std::alloc::Allocator;
use streams::Side;

/// Whether an entry shows a ROUTE-REFRESH that this system sent.
fn is_refresh_from(entry: Entry<'_>, from: Side) -> bool
    ensures { IsTrue result ↔ IsRefreshFrom from entry.entry }
{
    match message_from(entry, from) {
        Some(octets) => is_route_refresh(octets),
        None => false,
    }
}

/// The packet that shows the first ROUTE-REFRESH that this system sent.
fn refresh_packet(entries: &[Entry<'_>], from: Side) -> Option<u64>
    ensures { IsRefreshPacket from entries.now result }
{
    for entry in entries {
        if is_refresh_from(*entry, from) {
            return Some(entry.packet);
        }
    }
    None
}

/// The place of the first octet of the faulty header that ends a direction's messages.
fn place_of(rest: Rest) -> u64
    ensures { result ≡ place_of rest }
{
    match rest {
        Rest::BehindFault { place, .. } => place as u64,
        Rest::Short { .. } => 0,
    }
}

/// The refusal for the ROUTE-REFRESH that this system sent, if there is one.
fn refresh_of(entries: &[Entry<'_>], from: Side, rest: Rest) -> Option<Refusal>
    ensures { IsRefreshOf from entries.now rest result }
{
    let packet = refresh_packet(entries, from)?;
    Some(Refusal::RouteRefresh {
        packet,
        from,
        place: place_of(rest),
    })
}

/// The refusal that names the lesser packet.
fn earlier(received: Option<Refusal>, sent: Option<Refusal>) -> Option<Refusal>
    ensures { result ≡ earlier received sent }
{
    match (received, sent) {
        (Some(received), Some(sent)) if sent.packet() < received.packet() => Some(sent),
        (Some(received), _) => Some(received),
        (None, sent) => sent,
    }
}

/// Why a session that may have a ROUTE-REFRESH isn't judged by these records, if there is one: it
/// is the last message of its direction, and of two the one that the lesser packet shows is named.
pub fn refresh_in<A: Allocator>(made: &Recording<'_, A>) -> Option<Refusal>
    ensures is { IsRefreshIn made.now.entries.items made.now.received.rest made.now.sent.rest
        result }
    ensures none { IfNone result
        (AllByRecursion IsNoRefresh (records_of made.now.entries.items)) }
{
    let entries = made.entries.as_slice();
    earlier(
        refresh_of(entries, Side::Peer, made.received.rest),
        refresh_of(entries, Side::Local, made.sent.rest),
    )
}
