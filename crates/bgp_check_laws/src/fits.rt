//! What the types of a line's values say: numbers have 64 bits, octets are octets, and no segment
//! of a path is empty. The functions have nothing to do: their contracts hand this on, each for a
//! value.

ghost use Rattle.std.specs.Prelude.{All, map};
ghost use Rattle.mrt_sessions.specs.Located.{located};
ghost use Rattle.bgp_wire.specs.Octets.{AreOctets};
ghost use Rattle.bgp_values.specs.ErrorData.{error_of};
ghost use Rattle.bgp_judge.specs.Ends.{end_value};
ghost use Rattle.bgp_ended.specs.Values.{ended_value, how_value, outline_value};
ghost use Rattle.bgp_check_text.specs.Reached.{reached_value};
ghost use Rattle.bgp_verdict_laws.specs.Numbers.{Fits, FitsIfAny, FitsPlace};
ghost use Rattle.bgp_list_laws.specs.Laws.{AreRecords};
ghost use Rattle.bgp_list_laws.specs.Ranges.{IsEnd, IsEndIfAny, IsError, IsHow, IsOpening};
ghost use Rattle.bgp_list_laws.specs.Ranges.{IsOutline, IsRefusal};
ghost use Rattle.bgp_check_laws.specs.Ranges.{AreEndings, FitsPeer, IsEnding, IsName, IsReached};
ghost use Rattle.bgp_check_laws.specs.Ranges.{IsRecord, IsRoute};

use bgp_check::PeerAs;
use bgp_check_text::{EndName, Reached};
use bgp_ended::{Ended, How, Outline};
use bgp_import::Refusal;
use bgp_judge::End;
use bgp_open::Notification;
use bgp_path::{Path, path_is_fit};
use bgp_rib::RibIn;
use bgp_update::Destination;
use bgp_why::{Endpoint, Place};
use mrt_sessions::NamedRecord;
use std::alloc::Allocator;
use streams::Opening;

// ---- places and ends

/// States this of the number of a record, and of its packet and its second.
pub(crate) fn place_fits(place: Place)
    ensures { FitsPlace place }
{}

/// States this of a port.
pub(crate) fn port_fits(end: Endpoint)
    ensures { FitsIfAny end.port }
{}

/// States this of the name of an end.
pub(crate) fn name_is(name: EndName)
    ensures { IsName name }
{
    port_fits(name.end);
}

/// States this of the AS number of an end's peer.
pub(crate) fn peer_fits(peer: PeerAs)
    ensures { FitsPeer peer }
{
    match peer {
        PeerAs::Any => {}
        PeerAs::Is(_number) => {}
        PeerAs::OtherThan(_number) => {}
    }
}

// ---- possible ends

/// States this of a route.
fn route_is<A: Allocator>(destination: Destination, path: &Path<A>)
    ensures { IsRoute (destination, path.now) }
{
    path_is_fit(path);
}

/// States this of all routes.
fn routes_are<A: Allocator>(rib: &RibIn<A>)
    ensures { All IsRoute rib.now.entries }
{
    for (destination, path) in rib.routes() {
        route_is(destination, path);
    }
}

/// States this of an end.
fn ending_is<A: Allocator>(end: &End<A>)
    ensures { IsEnding (end_value end.now) }
{
    let _count = end.rib.len();
    routes_are(&end.rib);
}

/// States this of all ends.
fn each_ending_is<A: Allocator>(ends: &[End<A>])
    ensures { All (λ e. IsEnding (end_value e)) ends.now }
{
    for end in ends {
        ending_is(end);
    }
}

/// States this of all ends, and of how many they are.
pub(crate) fn endings_are<A: Allocator>(ends: &[End<A>])
    ensures { AreEndings (map end_value ends.now) }
{
    each_ending_is(ends);
}

/// States this of counts.
fn counts_fit(counts: &[usize])
    ensures { All Fits counts.now }
{}

/// States this of how far a session came.
pub(crate) fn reached_is<A: Allocator>(reached: &Reached<A>)
    ensures { IsReached (reached_value reached.now) }
{
    let _highest = reached.highest;
    counts_fit(reached.counts.as_slice());
    endings_are(reached.before.as_slice());
}

// ---- how a session ended

/// States this of octets.
fn octets_are(octets: &[u8])
    ensures { AreOctets octets.now }
{}

/// States this of a NOTIFICATION.
fn error_is(notification: Notification<'_>)
    ensures { IsError (error_of notification.entry) }
{
    octets_are(notification.detail);
}

/// States this of how a session ended.
pub(crate) fn how_is(how: How<'_>)
    ensures { IsHow (how_value how.entry) }
{
    match how {
        How::Notified(notification) => error_is(notification),
        How::Closed(_closing) => {}
        How::Fallen(_state) => {}
    }
}

/// States this of the end of a connection.
fn end_is(ended: Ended<'_>)
    ensures { IsEnd (ended_value ended.entry) }
{
    how_is(ended.how);
}

/// States this of what is known of a connection.
pub(crate) fn outline_is(outline: Outline<'_>)
    ensures { IsOutline (outline_value outline.entry) }
{
    if let Some(ended) = outline.ended {
        end_is(ended);
    }
}

// ---- what is listed

/// States this of how a connection was opened.
pub(crate) fn opening_is(opening: Opening)
    ensures { IsOpening opening }
{}

/// States this of the packet of a refusal.
pub(crate) fn refusal_is(refusal: Refusal)
    ensures { IsRefusal refusal }
{
    let _packet = refusal.packet();
}

/// States this of a record of a capture's session.
fn record_is(named: &NamedRecord<'_>)
    ensures { IsRecord (located named.now) }
{
    octets_are(named.octets);
}

/// States this of all of them.
fn each_record_is(records: &[NamedRecord<'_>])
    ensures { All (λ named. IsRecord (located named)) records.now }
{
    for named in records {
        record_is(named);
    }
}

/// States this of all of them, and of how many they are.
pub(crate) fn records_are(records: &[NamedRecord<'_>])
    ensures { AreRecords (map located records.now) }
{
    each_record_is(records);
}
