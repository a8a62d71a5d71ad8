//! A connection whose segments are taken one after another.

ghost use Rattle.std.specs.Prelude.{◌≡◌, ◌<◌, ◌^◌, ◌∷◌, [], List, ℕ, length, IfOk, OnOk, cond};
ghost use Rattle.std.specs.Prelude.{None};
ghost use Rattle.std.specs.Option.{option_or};
ghost use Rattle.streams.specs.Islands.{IsSound};
ghost use Rattle.streams.specs.Passed.{Segment, segment_of, other_side};
ghost use Rattle.streams.specs.Connections.{begins, has_ports, closing_by, end_by, opener_by};
ghost use Rattle.streams.specs.Directions.{half_in, missing_in};
ghost use Rattle.streams.specs.Refusals.{half_of, missing_of};
ghost use Rattle.streams.specs.Gatherings.{IsOf, HoldsConnection, AreSound};
ghost use Rattle.streams.specs.Gatherings.{gathering_faults, start_in, start_with};
ghost use Rattle.streams.specs.Gatherings.{noted, HasGathered, refusal_in, Opens, Shows};

use crate::connection::{Closing, Connection, End, Opening};
use crate::direction::Direction;
use crate::fault::Fault;
use crate::passed::{Passed, Side};
use std::alloc::{AllocError, Allocator};

/// A connection whose segments are taken one after another.
#[derive(Drop)]
pub struct Gathering<A: Allocator> {
    pub local_port: u16,
    pub peer_port: u16,
    /// Its first packet, who sent that, and its second with the microseconds of its fraction.
    pub packet: u64,
    pub first_from: Side,
    pub second: u32,
    pub micro: Option<u32>,
    /// Who opened it, once it has a SYN.
    pub opener: Option<Side>,
    /// The sequence number of each side's SYN.
    local_start: Option<u32>,
    peer_start: Option<u32>,
    last_second: u32,
    /// A segment of it has data.
    pub has_octets: bool,
    /// A segment of it has no SYN.
    has_others: bool,
    pub end: Option<End>,
    pub fault: Option<Fault>,
    /// What each side sent, up to the fault.
    pub sent: Direction<A>,
    pub received: Direction<A>,
}

/// The other one.
fn other_side(side: Side) -> Side
    ensures { result ≡ other_side side }
{
    match side {
        Side::Local => Side::Peer,
        Side::Peer => Side::Local,
    }
}

/// Who opened a connection, by a SYN.
fn opener_by(passed: &Passed<'_>) -> Option<Side>
    ensures { result ≡ opener_by (segment_of passed.now) }
{
    if !passed.syn {
        return None;
    }
    Some(match passed.acknowledgment {
        Some(_) => other_side(passed.from),
        None => passed.from,
    })
}

/// How a segment that has a FIN or a RST ends a connection.
fn closing_by(passed: &Passed<'_>) -> Closing
    ensures { result ≡ closing_by (segment_of passed.now) }
{
    if passed.rst {
        Closing::Reset
    } else {
        Closing::Fin
    }
}

/// The end of a connection, by a FIN or a RST.
fn end_by(passed: &Passed<'_>) -> Option<End>
    ensures { result ≡ end_by (segment_of passed.now) }
{
    if !passed.fin && !passed.rst {
        return None;
    }
    Some(End {
        packet: passed.packet,
        second: passed.second,
        micro: passed.micro,
        side: passed.from,
        closing: closing_by(passed),
    })
}

impl<A: Allocator + Copy> Gathering<A> {
    /// A connection that begins with a segment, which isn't taken yet.
    pub fn new(alloc: A, passed: &Passed<'_>) -> Gathering<A>
        ensures of { IsOf (segment_of passed.now) result }
        ensures holds { HoldsConnection [] result }
    {
        Gathering {
            local_port: passed.local_port,
            peer_port: passed.peer_port,
            packet: passed.packet,
            first_from: passed.from,
            second: passed.second,
            micro: passed.micro,
            opener: None,
            local_start: None,
            peer_start: None,
            last_second: 0,
            has_octets: false,
            has_others: false,
            end: None,
            fault: None,
            sent: Direction::new(alloc),
            received: Direction::new(alloc),
        }
    }

    /// Whether the segment goes between the same ports.
    pub fn has_ports(&self, passed: &Passed<'_>) -> bool
        ensures { result
            ≡ has_ports (segment_of passed.now) self.now.local_port self.now.peer_port }
    {
        self.local_port == passed.local_port && self.peer_port == passed.peer_port
    }

    /// The sequence number of a side's SYN.
    fn start(&self, side: Side) -> Option<u32>
        ensures { result ≡ start_in side self.now }
    {
        match side {
            Side::Local => self.local_start,
            Side::Peer => self.peer_start,
        }
    }

    /// Whether the segment begins another connection: it has a SYN whose number isn't that of its
    /// side's SYN; or its side has none, and it opens a connection where segments passed before.
    pub fn is_left_by(&self, passed: &Passed<'_>) -> bool
        ensures { result ≡ begins (segment_of passed.now)
            (start_in passed.now.from self.now) self.now.has_others }
    {
        match self.start(passed.from) {
            Some(start) => passed.syn && start != passed.sequence,
            None => passed.syn && passed.acknowledgment.is_none() && self.has_others,
        }
    }

    /// The first refusal of a segment, after those before it. The start is the sequence number of
    /// its side's SYN.
    fn find_fault(&self, passed: &Passed<'_>, start: Option<u32>) -> Option<Fault>
        requires sound { AreSound self.now }
        requires short { length passed.now.octets.now < 2 ^ 32 }
        ensures { result ≡ gathering_faults (segment_of passed.now) start self.now }
    {
        let packet = passed.packet;
        if !passed.is_whole {
            return Some(Fault::Cut { packet });
        }
        if passed.second < self.last_second {
            return Some(Fault::TimeBack { packet });
        }
        if start.is_none() && (passed.fin || !passed.octets.is_empty()) {
            return Some(Fault::NoStart { packet });
        }
        match passed.from {
            Side::Local => self.sent.find_fault(passed, start),
            Side::Peer => self.received.find_fault(passed, start),
        }
    }

    /// Gathers what a segment gives and acknowledges. Refused for memory the connection is of no
    /// more use.
    fn gather(&mut self, passed: &Passed<'_>, start: Option<u32>) -> Result<(), AllocError>
        requires sound { AreSound self.old }
        requires short { length passed.now.octets.now < 2 ^ 32 }
        ensures sound { OnOk result (AreSound self.new) }
        ensures gathered { OnOk result (HasGathered passed.now.from (segment_of passed.now) start
            self.old self.new.sent self.new.received) }
        ensures rest { self.new
            ≡ record self.old { sent = self.new.sent; received = self.new.received } }
    {
        match passed.from {
            Side::Local => {
                self.sent.add(passed, start)?;
                self.received.acknowledge(passed, self.peer_start)?;
            }
            Side::Peer => {
                self.received.add(passed, start)?;
                self.sent.acknowledge(passed, self.local_start)?;
            }
        }
        Ok(())
    }

    /// Notes of a segment what is needed of each, also of one after a fault.
    fn note(&mut self, passed: &Passed<'_>, start: Option<u32>)
        ensures { self.new ≡ noted (segment_of passed.now) start self.old }
    {
        self.opener = self.opener.or(opener_by(passed));
        match passed.from {
            Side::Local => self.local_start = start,
            Side::Peer => self.peer_start = start,
        }
        self.last_second = passed.second;
        self.has_octets |= !passed.octets.is_empty() || !passed.is_whole;
        self.has_others |= !passed.syn;
        self.end = self.end.or(end_by(passed));
    }

    /// The sequence number of the side's SYN, which the segment may have.
    fn start_with(&self, passed: &Passed<'_>) -> Option<u32>
        ensures { result ≡ start_with (start_in passed.now.from self.now) (segment_of passed.now) }
    {
        self.start(passed.from).or(if passed.syn {
            Some(passed.sequence)
        } else {
            None
        })
    }

    /// Takes a segment of the connection. Refused for memory the connection is of no more use.
    pub fn take(&mut self, passed: &Passed<'_>) -> Result<(), AllocError>
        requires sound { AreSound self.old }
        requires short { length passed.now.octets.now < 2 ^ 32 }
        ensures sound { OnOk result (AreSound self.new) }
        ensures holds { OnOk result ((before : List Segment) → HoldsConnection before self.old
            → HoldsConnection (segment_of passed.now ∷ before) self.new) }
        ensures of { OnOk result ((s : Segment) → IsOf s self.old → IsOf s self.new) }
    {
        let start = self.start_with(passed);
        if self.fault.is_none() {
            self.fault = self.find_fault(passed, start);
            if self.fault.is_none() {
                self.gather(passed, start)?;
            }
        }
        self.note(passed, start);
        Ok(())
    }

    /// The refusal of the connection, if there is one: the first of its segments', or of half a
    /// connection, or of what was sent and isn't given.
    pub fn refusal(&self) -> Option<Fault>
        ensures { result ≡ refusal_in self.now }
    {
        self.fault.or(self.half().or(self.missing()))
    }

    /// The refusal of half a connection: what a side sent is acknowledged, and its SYN isn't in the
    /// connection.
    fn half(&self) -> Option<Fault>
        ensures { result ≡ half_of (half_in self.now.peer_start self.now.received)
            (half_in self.now.local_start self.now.sent) }
    {
        match (
            self.received.half(self.peer_start),
            self.sent.half(self.local_start),
        ) {
            (None, None) => None,
            (Some(packet), None) | (None, Some(packet)) => Some(Fault::NoStart { packet }),
            (Some(received), Some(sent)) => Some(Fault::NoStart {
                packet: received.min(sent),
            }),
        }
    }

    /// The refusal of what was sent and isn't given.
    fn missing(&self) -> Option<Fault>
        ensures { result ≡ missing_of (missing_in self.now.received) (missing_in self.now.sent)
            (length self.now.received.gathered.known.octets.items)
            (length self.now.sent.gathered.known.octets.items) }
    {
        match (self.received.missing(), self.sent.missing()) {
            (None, None) => None,
            (Some(packet), None) => Some(self.lacks_received(packet)),
            (None, Some(packet)) => Some(self.lacks_sent(packet)),
            (Some(received), Some(sent)) if sent < received => Some(self.lacks_sent(sent)),
            (Some(received), Some(_)) => Some(self.lacks_received(received)),
        }
    }

    /// The refusal of what the peer sent and isn't given, as a packet shows.
    fn lacks_received(&self, packet: u64) -> Fault
        ensures { result ≡ Fault.Missing packet Side.Peer
            (length self.now.received.gathered.known.octets.items) }
    {
        Fault::Missing {
            packet,
            from: Side::Peer,
            place: self.received.gathered.known(),
        }
    }

    /// The refusal of what the local system sent and isn't given, as a packet shows.
    fn lacks_sent(&self, packet: u64) -> Fault
        ensures { result ≡ Fault.Missing packet Side.Local
            (length self.now.sent.gathered.known.octets.items) }
    {
        Fault::Missing {
            packet,
            from: Side::Local,
            place: self.sent.gathered.known(),
        }
    }

    /// Who opened it, and its first packet.
    pub fn opening(&self, number: usize) -> Opening
        ensures { Opens number self.now result }
    {
        Opening {
            number,
            local_port: self.local_port,
            peer_port: self.peer_port,
            opened_by: self.opener.unwrap_or(self.first_from),
            packet: self.packet,
            second: self.second,
            micro: self.micro,
        }
    }

    /// What the connection tells.
    pub fn told(&self, number: usize) -> Connection<'_>
        ensures { Shows number self.entry.now result }
    {
        let opening = self.opening(number);
        Connection {
            number,
            local_port: opening.local_port,
            peer_port: opening.peer_port,
            opened_by: opening.opened_by,
            packet: opening.packet,
            second: opening.second,
            micro: opening.micro,
            received: self.received.gathered.stream(),
            sent: self.sent.gathered.stream(),
            end: self.end,
        }
    }
}
