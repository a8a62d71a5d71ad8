//! Packets of a recording that are wrapped in something that isn't looked into.

ghost use Rattle.std.specs.Prelude.{◌≡◌, ◌++◌, ◌∷◌, List, []};
ghost use Rattle.packets.specs.Packet.{Recorded, recorded_of};

use packets::Packet;
use segments::{Wrapping, wrapping_of};
use std::fmt;

/// How many packets are wrapped, by what they are wrapped in.
#[derive(Clone, Copy, Debug, PartialEq, Eq)]
pub struct Wrapped {
    /// In GRE (RFC 2784) that isn't ERSPAN.
    pub gre: u64,
    /// In ERSPAN.
    pub erspan: u64,
    /// In VXLAN (RFC 7348).
    pub vxlan: u64,
    /// In MPLS (RFC 3032, RFC 4023).
    pub mpls: u64,
    /// In PPPoE (RFC 2516).
    pub pppoe: u64,
}

/// That so many packets are wrapped in something that isn't looked into: one sentence.
#[derive(Clone, Copy, Debug, PartialEq, Eq)]
pub struct NotLookedInto {
    /// In what.
    pub wrapping: Wrapping,
    /// How many, at least one.
    pub packets: u64,
}

impl Wrapped {
    ghost use Rattle.bgp_import.specs.Wrapped.{AreCounted, told_in_order, with_one};

    /// None so far.
    pub fn none() -> Wrapped
        ensures { AreCounted [] result }
    {
        Wrapped {
            gre: 0,
            erspan: 0,
            vxlan: 0,
            mpls: 0,
            pppoe: 0,
        }
    }

    /// Counts a packet, where it is wrapped.
    pub fn take(&mut self, packet: &Packet<'_>)
        ensures { (packets : List Recorded) → AreCounted packets self.old
            → AreCounted (packets ++ recorded_of packet.now ∷ []) self.new }
    {
        if let Some(wrapping) = wrapping_of(packet.link_type, packet.octets) {
            self.count(wrapping);
        }
    }

    /// Counts one more.
    fn count(&mut self, wrapping: Wrapping)
        ensures { self.new ≡ with_one wrapping self.old }
    {
        match wrapping {
            Wrapping::Gre => self.gre = self.gre.saturating_add(1),
            Wrapping::Erspan => self.erspan = self.erspan.saturating_add(1),
            Wrapping::Vxlan => self.vxlan = self.vxlan.saturating_add(1),
            Wrapping::Mpls => self.mpls = self.mpls.saturating_add(1),
            Wrapping::Pppoe => self.pppoe = self.pppoe.saturating_add(1),
        }
    }

    /// What is told of them, in the order in which it is.
    pub fn in_order(&self) -> [Option<NotLookedInto>; 5]
        ensures { result ≡ told_in_order self.now }
    {
        [
            NotLookedInto::told(Wrapping::Gre, self.gre),
            NotLookedInto::told(Wrapping::Erspan, self.erspan),
            NotLookedInto::told(Wrapping::Vxlan, self.vxlan),
            NotLookedInto::told(Wrapping::Mpls, self.mpls),
            NotLookedInto::told(Wrapping::Pppoe, self.pppoe),
        ]
    }
}

impl NotLookedInto {
    ghost use Rattle.bgp_import.specs.Wrapped.{not_looked_into};

    /// What is told of so many packets, if there are any.
    fn told(wrapping: Wrapping, packets: u64) -> Option<NotLookedInto>
        ensures { result ≡ not_looked_into wrapping packets }
    {
        (packets > 0).then_some(NotLookedInto { wrapping, packets })
    }
}

impl fmt::Display for NotLookedInto {
    fn fmt<W: fmt::Write>(&self, f: &mut fmt::Formatter<W>) -> fmt::Result {
        let NotLookedInto { wrapping, packets } = self;
        write!(
            f,
            "packets of {wrapping} that aren't looked into: {packets}"
        )
    }
}
