//! The connections of one session in a recording.

ghost use Rattle.std.specs.Prelude.{◌≡◌, ◌<◌, ◌+◌, ◌++◌, ℕ, List, [], OnOk, IfErr, IfOk};
ghost use Rattle.std.specs.Prelude.{MatchOption, MatchResult, length};
ghost use Rattle.packets.specs.Packet.{recorded_of};
ghost use Rattle.packets.specs.Reader.{fresh_reader};
ghost use Rattle.streams.specs.Choice.{IsAnswered, IsNoNumber, OpensAs, numbered_one};
ghost use Rattle.streams.specs.Connections.{numbered};
ghost use Rattle.streams.specs.Held.{AllSound, HoldsConnections};
ghost use Rattle.streams.specs.Passed.{Segment};
ghost use Rattle.bgp_import.specs.Gathers.{Gathers, HoldsSession, IsNotChosen, cut_short_by};
ghost use Rattle.bgp_import.specs.Gathers.{failures_in};
ghost use Rattle.bgp_import.specs.Selecting.{HasPart};
ghost use Rattle.bgp_import.specs.Taking.{IsNotTaken, TakesAll};
ghost use Rattle.bgp_import.specs.declared.refusal.Refusal.TheVariants.{Memory, Packet as OfPacket};

use crate::cut_short::CutShort;
use crate::refusal::Refusal;
use crate::selection::{Selection, passed};
use mrt::Source;
use packets::{Packet, Reader};
use segments::{PacketFault, read_segment, segment_between};
use std::alloc::{AllocError, Allocator};
use streams::{Connection, Connections, Opening};

/// The connections of one session in a recording that was read to its end, or to where it was cut
/// short.
#[derive(Drop)]
pub struct Gathered<A: Allocator> {
    connections: Connections<A>,
    /// The number of the recording's last packet: 0 of none.
    last_packet: u64,
    /// Whether the recording was cut short after it.
    is_cut_short: bool,
}

impl<A: Allocator + Copy> Gathered<A> {
    /// How many connections hold octets.
    pub fn count(&self) -> usize
        ensures { (segments : List Segment) (count : ℕ) → HoldsSession segments count self.now
            → result ≡ length (numbered segments) }
    {
        self.connections.count()
    }

    /// How the connection of this number was opened, counted from 1.
    pub fn opening(&self, number: usize) -> Option<Opening>
        ensures { (segments : List Segment) (count : ℕ) → HoldsSession segments count self.now
            → MatchOption result (IsNoNumber number (numbered segments))
            (λ opening. (opening.number ≡ number)
            × OpensAs (numbered_one (numbered segments) number) opening) }
    {
        self.connections.opening(number)
    }

    /// The connection of this number, or the only one: refused where there is none or there are
    /// several, and where its segments spell no two streams.
    pub fn choose(&self, number: Option<usize>) -> Result<Connection<'_>, Refusal>
        ensures { (segments : List Segment) (count : ℕ) → HoldsSession segments count self.entry.now
            → MatchResult result
            (λ connection. IsAnswered number count (numbered segments) connection)
            (λ refusal. IsNotChosen number count segments refusal) }
    {
        match self.connections.choose(number, self.last_packet) {
            Ok(connection) => Ok(connection),
            Err(fault) => Err(Refusal::Connection(fault)),
        }
    }

    /// That the recording was cut short, where it was.
    pub fn cut_short(&self) -> Option<CutShort>
        ensures { (segments : List Segment) (count : ℕ) → HoldsSession segments count self.now
            → result ≡ cut_short_by self.now.is_cut_short count }
    {
        CutShort::told(self.is_cut_short, self.last_packet)
    }

    /// What is refused where there is no memory for what is made of a connection.
    pub fn no_memory(&self) -> Refusal
        ensures { (segments : List Segment) (count : ℕ) → HoldsSession segments count self.now
            → result ≡ Memory count }
    {
        Refusal::Memory {
            packet: self.last_packet,
        }
    }
}

/// Takes what a packet has of the session.
fn take<A: Allocator + Copy>(
    connections: &mut Connections<A>,
    selection: &Selection,
    packet: &Packet<'_>,
) -> Result<(), Refusal>
    requires sound { AllSound connections.old }
    ensures sound { OnOk result (AllSound connections.new) }
    ensures ok { OnOk result ((part : List Segment)
        × HasPart selection.now packet.now.number (recorded_of packet.now) part
        × ((before : List Segment) → HoldsConnections before connections.old
        → HoldsConnections (part ++ before) connections.new)) }
    ensures err { IfErr result (λ refusal. IsNotTaken selection.now packet.now.number
        (recorded_of packet.now) refusal) }
{
    let number = packet.number;
    let segment = match segment_between(
        read_segment(packet.link_type, packet.octets),
        &selection.conversation(),
    ) {
        Ok(Some(segment)) => segment,
        Ok(None) => return Ok(()),
        Err(fault) => return Err(refused(fault, number)),
    };
    let Some(from) = selection.sender(&segment.ends) else {
        return Ok(());
    };
    match connections.take(&passed(packet, &segment, from)) {
        Ok(()) => Ok(()),
        Err(AllocError) => Err(Refusal::Memory { packet: number }),
    }
}

/// The refusal of a packet.
pub fn refused(fault: PacketFault, packet: u64) -> Refusal
    ensures { result ≡ OfPacket fault packet }
{
    Refusal::Packet { fault, packet }
}

/// Takes what all packets have of the session, to the end of the recording or to the first refusal.
fn take_all<A: Allocator + Copy, R: Source>(
    connections: &mut Connections<A>,
    reader: &mut Reader<A>,
    selection: &Selection,
    source: &mut R,
) -> Result<(), Refusal>
    requires sound { AllSound connections.old }
    requires empty { HoldsConnections [] connections.old }
    requires fresh { reader.old ≡ fresh_reader }
    requires failures { R.failures source.old < u64.MAX }
    ensures takes { TakesAll R.gives R.has_ended selection.now source.old source.new
        connections.new reader.new.number reader.new.is_cut result }
    ensures failures { R.failures source.new ≡ R.failures source.old + failures_in result }
{
    loop {
        let taken = match reader.next_packet(source) {
            Ok(Some(packet)) => take(connections, selection, &packet),
            Ok(None) => return Ok(()),
            Err(fault) => return Err(Refusal::File(fault)),
        };
        match taken {
            Ok(()) => {}
            Err(refusal) => return Err(refusal),
        }
    }
}

/// Reads a recording to its end, also where it was cut short, and gathers the connections of one
/// session. It holds one packet and what it gathers.
///
/// The refusal is the first that is found where packets are read one after another: that of a
/// packet of the session, or of the file. It is `Device` where the source failed, and `Memory`
/// where memory was refused.
pub fn gather<A: Allocator + Copy, R: Source>(
    alloc: A,
    selection: &Selection,
    source: &mut R,
) -> Result<Gathered<A>, Refusal>
    requires { R.failures source.old < u64.MAX }
    ensures gathers { Gathers R.gives R.has_ended selection.now source.old source.new result }
    ensures failures { R.failures source.new ≡ R.failures source.old + failures_in result }
{
    let mut reader = Reader::new(alloc);
    let mut connections = Connections::new(alloc);
    match take_all(&mut connections, &mut reader, selection, source) {
        Ok(()) => Ok(Gathered {
            connections,
            last_packet: reader.number(),
            is_cut_short: reader.is_cut_short(),
        }),
        Err(refusal) => Err(refusal),
    }
}
