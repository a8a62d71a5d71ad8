//! What there is to tell of in a recording, in the order of packets.

ghost use Rattle.std.specs.Prelude.{◌≤◌, ℕ, IfOk, List, OnErr, OnOk, length, reverse};
ghost use Rattle.packets.specs.Packet.{Recorded};
ghost use Rattle.streams.specs.Choice.{first_packet};
ghost use Rattle.streams.specs.Connections.{numbered};
ghost use Rattle.streams.specs.Held.{HoldsConnections};
ghost use Rattle.streams.specs.Passed.{Segment};
ghost use Rattle.bgp_import.specs.Listed.{AreListed, HasEachOf, IsPlaceOf, KeepsPlaces};
ghost use Rattle.bgp_import.specs.Pairs.{AreOrdered};
ghost use Rattle.bgp_import.specs.Places.{HasAll, HasEach, IsNumber, connection_in};
ghost use Rattle.bgp_import.specs.Talks.{HoldsAll, HoldsEach, HoldsSome, HoldsTalk};

use crate::talk::Talk;
use crate::talks::Talks;
use segments::{Addresses, PacketFault};
use std::alloc::{AllocError, Allocator};
use std::collections::BTreeMap;
use streams::Opening;

/// What there is to tell of.
#[derive(Drop)]
pub enum Listed<'a, A: Allocator> {
    /// A connection between two addresses: one of these, which was opened so.
    Connection(Addresses, &'a Talk<A>, Opening),
    /// Two addresses of whose connections none can be told.
    Refused(Addresses, PacketFault),
}

/// Adds the connection of this number between two addresses.
fn add_connection<'a, A: Allocator + Copy>(
    listed: &mut BTreeMap<u64, Listed<'a, A>, A>,
    addresses: Addresses,
    talk: &'a Talk<A>,
    number: usize,
) -> Result<(), AllocError>
    requires first { 1 ≤ number }
    requires last { (segments : List Segment) → HoldsConnections segments talk.now.connections
        → number ≤ length (numbered segments) }
    ensures listed { (port : ℕ) (packets : List Recorded) → AreOrdered addresses
        → HoldsAll port packets addresses talk.entry.now.connections
        → AreListed port packets listed.old.entries → AreListed port packets listed.new.entries }
    ensures keeps { KeepsPlaces listed.old listed.new }
    ensures adds { OnOk result ((segments : List Segment)
        → HoldsConnections (reverse segments) talk.entry.now.connections
        → IsPlaceOf listed.new (first_packet (connection_in segments number))) }
{
    match talk.connections.opening(number) {
        Some(opening) => {
            listed.insert(opening.packet, Listed::Connection(addresses, talk, opening))?;
            Ok(())
        }
        None => Ok(()),
    }
}

/// Adds each connection between two addresses.
fn add_connections<'a, A: Allocator + Copy>(
    listed: &mut BTreeMap<u64, Listed<'a, A>, A>,
    addresses: Addresses,
    talk: &'a Talk<A>,
) -> Result<(), AllocError>
    ensures listed { (port : ℕ) (packets : List Recorded) → AreOrdered addresses
        → HoldsAll port packets addresses talk.entry.now.connections
        → AreListed port packets listed.old.entries → AreListed port packets listed.new.entries }
    ensures keeps { KeepsPlaces listed.old listed.new }
    ensures adds { OnOk result ((segments : List Segment)
        → HoldsConnections (reverse segments) talk.entry.now.connections
        → HasEachOf segments listed.new) }
    ensures some { OnErr result ((segments : List Segment)
        → HoldsConnections (reverse segments) talk.entry.now.connections
        → (number : ℕ) × IsNumber segments number) }
{
    for index in 0..talk.connections.count() {
        add_connection(listed, addresses, talk, index + 1)?;
    }
    Ok(())
}

/// Adds what there is to tell of two addresses.
fn add_talk<'a, A: Allocator + Copy>(
    listed: &mut BTreeMap<u64, Listed<'a, A>, A>,
    addresses: Addresses,
    talk: &'a Talk<A>,
) -> Result<(), AllocError>
    ensures listed { (port : ℕ) (packets : List Recorded) → AreOrdered addresses
        → HoldsTalk port packets addresses talk.entry.now
        → AreListed port packets listed.old.entries → AreListed port packets listed.new.entries }
    ensures keeps { KeepsPlaces listed.old listed.new }
    ensures adds { OnOk result ((port : ℕ) (packets : List Recorded)
        → HoldsTalk port packets addresses talk.entry.now
        → HasEach port packets (IsPlaceOf listed.new) addresses) }
    ensures some { OnErr result ((port : ℕ) (packets : List Recorded)
        → HoldsTalk port packets addresses talk.entry.now
        → ¬ HasEach port packets (λ place. ⊥) addresses) }
{
    match talk.refusal {
        Some((fault, packet)) => {
            listed.insert(packet, Listed::Refused(addresses, fault))?;
            Ok(())
        }
        None => add_connections(listed, addresses, talk),
    }
}

/// All that there is to tell of, by the packets at which it stands: a connection at its first one,
/// two addresses of whose connections none can be told at the one that is refused.
///
/// `AllocError` is answered where memory was refused for something that there is to tell of.
pub fn listed_in<'a, A: Allocator + Copy>(
    alloc: A,
    talks: &'a Talks<A>,
) -> Result<BTreeMap<u64, Listed<'a, A>, A>, AllocError>
    ensures listed { (port : ℕ) (packets : List Recorded) → HoldsSome port packets talks.entry.now
        → IfOk result (λ listed. AreListed port packets listed.entries) }
    ensures all { (port : ℕ) (packets : List Recorded) → HoldsEach port packets talks.entry.now
        → IfOk result (λ listed. HasAll port packets (IsPlaceOf listed)) }
    ensures some { (port : ℕ) (packets : List Recorded) → HoldsSome port packets talks.entry.now
        → OnErr result (¬ HasAll port packets (λ place. ⊥)) }
{
    let mut listed = BTreeMap::new(alloc);
    for (addresses, talk) in &talks.by_addresses {
        add_talk(&mut listed, *addresses, talk)?;
    }
    Ok(listed)
}
