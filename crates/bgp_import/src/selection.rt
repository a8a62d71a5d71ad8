//! Which session of a recording is meant, and who sent its segments.

ghost use Rattle.std.specs.Prelude.{◌≡◌, ◌↔◌, IsTrue};
ghost use Rattle.packets.specs.Packet.{recorded_of};
ghost use Rattle.segments.specs.Segment.{segment_value};
ghost use Rattle.streams.specs.Passed.{segment_of};
ghost use Rattle.bgp_import.specs.Selecting.{conversation_of, IsLocalEnd, IsSentBy, passed_of};

use bgp_prefix::Session;
use packets::Packet;
use segments::{Conversation, Endpoint, Ends, Segment};
use streams::{Passed, Side};

/// Which session of a recording is meant: the segments between two addresses one of whose ports is
/// a certain one.
#[derive(Clone, Copy, Debug, PartialEq, Eq)]
pub struct Selection {
    /// The two addresses.
    pub session: Session,
    /// The port on which BGP is awaited: 179 (RFC 4271, 2), unless both systems have another.
    pub port: u16,
    /// The local system's port, where only its connections are meant. It tells the two systems
    /// apart where both have one address.
    pub local_port: Option<u16>,
}

impl Selection {
    /// The segments that may be of the session.
    pub fn conversation(&self) -> Conversation
        ensures { result ≡ conversation_of self.now }
    {
        Conversation {
            local: self.session.local,
            peer: self.session.peer,
            port: self.port,
        }
    }

    /// Whether this is an end of the local system.
    fn is_local(&self, end: &Endpoint) -> bool
        ensures { IsTrue result ↔ IsLocalEnd self.now end.now }
    {
        end.address == self.session.local && self.local_port.is_none_or(|port| end.port == port)
    }

    /// Who sent a segment of the conversation, if it is of the session.
    pub fn sender(&self, ends: &Ends) -> Option<Side>
        ensures { IsSentBy self.now ends.now result }
    {
        if self.is_local(&ends.from) {
            Some(Side::Local)
        } else if self.is_local(&ends.to) {
            Some(Side::Peer)
        } else {
            None
        }
    }
}

/// A segment of a packet, as it passed between the two systems.
pub fn passed<'a>(packet: &Packet<'_>, segment: &Segment<'a>, from: Side) -> Passed<'a>
    ensures { segment_of result
        ≡ passed_of packet.now.number (recorded_of packet.now) (segment_value segment.now) from }
{
    let (local, peer) = match from {
        Side::Local => (segment.ends.from, segment.ends.to),
        Side::Peer => (segment.ends.to, segment.ends.from),
    };
    Passed {
        packet: packet.number,
        second: packet.second,
        micro: packet.micro,
        from,
        local_port: local.port,
        peer_port: peer.port,
        sequence: segment.sequence,
        syn: segment.flags.syn,
        fin: segment.flags.fin,
        rst: segment.flags.rst,
        acknowledgment: segment.acknowledgment,
        octets: segment.octets,
        is_whole: segment.octets.len() == segment.wire_count,
    }
}
