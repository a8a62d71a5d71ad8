//! All connections of a recording, by their two addresses.

ghost use Rattle.std.specs.Prelude.{◌≡◌, ◌<◌, ◌+◌, ◌++◌, ◌∷◌, ℕ, [], List, OnErr, OnOk, length};
ghost use Rattle.std.specs.Result.{result_err};
ghost use Rattle.packets.specs.Packet.{Recorded, recorded_of};
ghost use Rattle.packets.specs.Reader.{fresh_reader};
ghost use Rattle.segments.specs.Found.{found_in};
ghost use Rattle.segments.specs.Segment.{finding_of};
ghost use Rattle.streams.specs.Passed.{segment_of};
ghost use Rattle.bgp_import.specs.Pairs.{IsBetween};
ghost use Rattle.bgp_import.specs.Reading.{TakesAll, cut_short_at, failures_of};
ghost use Rattle.bgp_import.specs.Talks.{Changes, HoldsEach, IsRefusedBy, IsSameTalk};
ghost use Rattle.bgp_import.specs.Talks.{KeepsOthers, TakesPacket, TakesSegment};
ghost use Rattle.bgp_import.specs.Wrapped.{AreCounted};

use crate::cut_short::CutShort;
use crate::gathering::refused;
use crate::pairs::{addresses_of, ordered, selection_of};
use crate::refusal::Refusal;
use crate::selection::passed;
use crate::talk::Talk;
use crate::wrapped::Wrapped;
use mrt::Source;
use packets::{Packet, Reader};
use segments::{Addresses, Found, PacketFault, read_segment, segment_between};
use std::alloc::{AllocError, Allocator};
use std::collections::BTreeMap;
use streams::Passed;

/// All connections of a recording with a certain port, by their addresses.
#[derive(Drop)]
pub struct Talks<A: Allocator> {
    alloc: A,
    /// One of both ports of each connection.
    pub port: u16,
    /// The connections between two addresses, of which the lesser one is the first.
    pub by_addresses: BTreeMap<Addresses, Talk<A>, A>,
    /// How many packets are wrapped in something that isn't looked into.
    pub wrapped: Wrapped,
}

impl<A: Allocator + Copy> Talks<A> {
    /// None yet.
    pub fn new(alloc: A, port: u16) -> Talks<A>
        ensures holds { HoldsEach port [] result }
        ensures wrapped { AreCounted [] result.wrapped }
    {
        Talks {
            alloc,
            port,
            by_addresses: BTreeMap::new(alloc),
            wrapped: Wrapped::none(),
        }
    }

    /// Holds connections between these addresses, of which there may be none yet.
    fn hold(&mut self, addresses: Addresses) -> Result<(), AllocError>
        ensures port { self.new.port ≡ self.old.port }
        ensures wrapped { self.new.wrapped ≡ self.old.wrapped }
        ensures ok { OnOk result (Changes IsSameTalk self.old self.new addresses) }
        ensures err { OnErr result (KeepsOthers self.old self.new addresses) }
    {
        if !self.by_addresses.contains_key(&addresses) {
            self.by_addresses.insert(addresses, Talk::new(self.alloc))?;
        }
        Ok(())
    }

    /// Refuses all connections between these addresses.
    fn refuse(
        &mut self,
        fault: PacketFault,
        packet: u64,
        addresses: Addresses,
    ) -> Result<(), AllocError>
        ensures port { self.new.port ≡ self.old.port }
        ensures wrapped { self.new.wrapped ≡ self.old.wrapped }
        ensures ok { OnOk result (Changes (IsRefusedBy fault packet) self.old self.new addresses) }
        ensures err { OnErr result (KeepsOthers self.old self.new addresses) }
    {
        self.hold(addresses)?;
        match self.by_addresses.get_mut(&addresses) {
            Some(talk) => {
                talk.refuse(fault, packet);
                Ok(())
            }
            None => Ok(()),
        }
    }

    /// Takes a segment between these addresses.
    fn take_passed(&mut self, passed: &Passed<'_>, addresses: Addresses) -> Result<(), AllocError>
        ensures port { self.new.port ≡ self.old.port }
        ensures wrapped { self.new.wrapped ≡ self.old.wrapped }
        ensures ok { OnOk result
            (Changes (TakesSegment (segment_of passed.now)) self.old self.new addresses) }
        ensures err { OnErr result (KeepsOthers self.old self.new addresses) }
    {
        self.hold(addresses)?;
        match self.by_addresses.get_mut(&addresses) {
            Some(talk) => {
                talk.take(self.alloc, passed)?;
                Ok(())
            }
            None => Ok(()),
        }
    }

    /// Takes what was found in a packet between these addresses.
    fn take_found(
        &mut self,
        packet: &Packet<'_>,
        found: Found<'_>,
        addresses: Addresses,
    ) -> Result<(), AllocError>
        requires found { finding_of found ≡ found_in packet.now.link_type packet.now.octets.now }
        requires between { IsBetween (finding_of found) addresses }
        ensures port { self.new.port ≡ self.old.port }
        ensures wrapped { self.new.wrapped ≡ self.old.wrapped }
        ensures ok { OnOk result ((port : ℕ) (packets : List Recorded)
            → packet.now.number ≡ length packets + 1 → HoldsEach port packets self.old
            → HoldsEach port (packets ++ recorded_of packet.now ∷ []) self.new) }
        ensures err { OnErr result (KeepsOthers self.old self.new addresses) }
    {
        let selection = selection_of(addresses, self.port);
        match segment_between(found, &selection.conversation()) {
            Ok(None) => Ok(()),
            Ok(Some(segment)) => match selection.sender(&segment.ends) {
                Some(from) => self.take_passed(&passed(packet, &segment, from), addresses),
                None => Ok(()),
            },
            Err(fault) => self.refuse(fault, packet.number, addresses),
        }
    }

    /// Takes what a packet has of a connection. Refused for memory, none are held between its
    /// addresses.
    fn take(&mut self, packet: &Packet<'_>) -> Result<(), Refusal>
        ensures takes { (port : ℕ) (packets : List Recorded)
            → packet.now.number ≡ length packets + 1 → HoldsEach port packets self.old
            → TakesPacket port packets (recorded_of packet.now) result self.new }
        ensures wrapped { (packets : List Recorded) → AreCounted packets self.old.wrapped
            → AreCounted (packets ++ recorded_of packet.now ∷ []) self.new.wrapped }
    {
        self.wrapped.take(packet);
        let found = read_segment(packet.link_type, packet.octets);
        if let Found::UnknownLink(link_type) = found {
            return Err(refused(PacketFault::Link(link_type), packet.number));
        }
        let Some(addresses) = addresses_of(found) else {
            return Ok(());
        };
        let addresses = ordered(addresses);
        match self.take_found(packet, found, addresses) {
            Ok(()) => Ok(()),
            Err(AllocError) => {
                self.by_addresses.remove(&addresses);
                Err(Refusal::Memory {
                    packet: packet.number,
                })
            }
        }
    }
}

/// Takes all packets of a recording: up to its end, or to what keeps it from being read on, which
/// is answered. That is a fault of the file, a device that failed, a packet of a link whose type
/// isn't known, or want of memory. Where memory lacked, of two addresses nothing may be held.
pub fn take_all<A: Allocator + Copy, R: Source>(
    reader: &mut Reader<A>,
    talks: &mut Talks<A>,
    source: &mut R,
) -> Result<(), Refusal>
    requires fresh { reader.old ≡ fresh_reader }
    requires failures { R.failures source.old < u64.MAX }
    requires empty { HoldsEach talks.old.port [] talks.old }
    requires none { AreCounted [] talks.old.wrapped }
    ensures takes { TakesAll R.gives R.has_ended talks.old.port source.old source.new talks.new
        reader.new.number reader.new.is_cut result }
    ensures failures { R.failures source.new
        ≡ R.failures source.old + failures_of (result_err result) }
{
    loop {
        let taken = match reader.next_packet(source) {
            Ok(Some(packet)) => talks.take(&packet),
            Ok(None) => return Ok(()),
            Err(fault) => return Err(Refusal::File(fault)),
        };
        match taken {
            Ok(()) => {}
            Err(refusal) => return Err(refusal),
        }
    }
}

/// That the file was cut short after so many packets, where it was and was read so far.
pub fn cut_short_at(packets: u64, is_cut_short: bool, stopped: Option<Refusal>) -> Option<CutShort>
    ensures { result ≡ cut_short_at packets is_cut_short stopped }
{
    match stopped {
        None => CutShort::told(is_cut_short, packets),
        Some(_) => None,
    }
}
