//! The segment of a packet that carries TCP (`specs/Tcp.antt` draws its header).

ghost use Rattle.std.specs.Prelude.{◌≡◌, ◌≤◌, ◌≢◌, length};
ghost use Rattle.segments.specs.Segment.{finding_of, segment_value};
ghost use Rattle.segments.specs.Tcp.{ends_in, tcp_header_in, is_set, is_rst, flags_of};
ghost use Rattle.segments.specs.Tcp.{acknowledgment_of, segment_by, found_by, found_of};
ghost use Rattle.segments.specs.Values.{tcp_value};

use crate::found::{Addresses, Endpoint, Ends, Flags, Found, Segment};
use crate::ip::TcpOctets;
use byteorder::{BigEndian, ByteOrder};

/// How many octets the ports take.
const PORTS: usize = 4;

/// How many octets a header has without its options.
const HEADER: usize = 20;

const FIN: u8 = 1;

const SYN: u8 = 2;

const RST: u8 = 4;

const ACK: u8 = 16;

/// Reads both ends, by the ports.
#[tactic(auto, unfolding(crate::specs::Tcp::ends_in))]
fn read_ends(addresses: Addresses, octets: &[u8]) -> Ends
    requires { 4 ≤ length octets.now }
    ensures { result ≡ ends_in addresses octets.now }
{
    Ends {
        from: Endpoint {
            address: addresses.from,
            port: BigEndian::read_u16(octets),
        },
        to: Endpoint {
            address: addresses.to,
            port: BigEndian::read_u16(&octets[2..]),
        },
    }
}

/// A header of TCP (RFC 9293, 3.1), without its ports and options.
#[derive(Clone, Copy)]
pub(crate) struct TcpHeader {
    pub(crate) sequence: u32,
    pub(crate) acknowledgment: u32,
    /// How many octets it has with its options.
    pub(crate) header_len: usize,
    pub(crate) control: u8,
}

/// Reads a header.
#[tactic(auto, unfolding(crate::specs::Tcp::tcp_header_in))]
fn read_header(octets: &[u8]) -> TcpHeader
    requires { 20 ≤ length octets.now }
    ensures { tcp_value result ≡ tcp_header_in octets.now }
{
    TcpHeader {
        sequence: BigEndian::read_u32(&octets[4..]),
        acknowledgment: BigEndian::read_u32(&octets[8..]),
        header_len: 4 * usize::from(octets[12] / 16),
        control: octets[13],
    }
}

impl TcpHeader {
    /// Whether a control bit is set.
    fn has(&self, bit: u8) -> bool
        requires { bit ≢ 0 }
        ensures { result ≡ is_set bit self.now.control }
    {
        self.control / bit % 2 == 1
    }

    fn flags(&self) -> Flags
        ensures { result ≡ flags_of (tcp_value self.now) }
    {
        let rst = self.has(RST);
        Flags {
            syn: self.has(SYN),
            fin: self.has(FIN) && !rst,
            rst,
        }
    }

    fn acknowledgment(&self) -> Option<u32>
        ensures { result ≡ acknowledgment_of (tcp_value self.now) }
    {
        self.has(ACK).then_some(self.acknowledgment)
    }
}

/// The segment with this header.
fn segment_by<'a>(ends: Ends, header: &TcpHeader, tcp: TcpOctets<'a>) -> Segment<'a>
    requires kept { header.now.header_len ≤ length tcp.octets.now }
    requires wire { header.now.header_len ≤ tcp.wire_count }
    ensures { segment_value result
        ≡ segment_by ends (tcp_value header.now) tcp.entry.octets.now tcp.entry.wire_count }
{
    let flags = header.flags();
    let (octets, wire_count): (&[u8], usize) = if flags.rst {
        (&[], 0)
    } else {
        (
            &tcp.octets[header.header_len..],
            tcp.wire_count - header.header_len,
        )
    };
    Segment {
        ends,
        sequence: header.sequence,
        flags,
        acknowledgment: header.acknowledgment(),
        octets,
        wire_count,
    }
}

/// What the octets of a packet that carries TCP are.
pub(crate) fn found_of(tcp: TcpOctets<'_>) -> Found<'_>
    ensures { finding_of result
        ≡ found_of tcp.entry.addresses tcp.entry.octets.now tcp.entry.wire_count }
{
    if tcp.octets.len() < PORTS {
        return Found::NoPorts(tcp.addresses);
    }
    let ends = read_ends(tcp.addresses, tcp.octets);
    if tcp.wire_count < HEADER {
        return Found::Nothing;
    }
    if tcp.octets.len() < HEADER {
        return Found::CutHeader(ends);
    }
    let header = read_header(tcp.octets);
    if header.header_len < HEADER || tcp.wire_count < header.header_len {
        return Found::Nothing;
    }
    if tcp.octets.len() < header.header_len {
        return Found::CutHeader(ends);
    }
    Found::Segment(segment_by(ends, &header, tcp))
}
