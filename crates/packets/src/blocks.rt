//! The heads of pcapng's blocks (`specs/Pcapng.antt` draws them).

ghost use Rattle.std.specs.Prelude.{◌≡◌, ◌≤◌, length, drop};
ghost use Rattle.packets.specs.Order.{number_in};
ghost use Rattle.packets.specs.Pcapng.{is_section, section_order, block_order, kind_of};
ghost use Rattle.packets.specs.Pcapng.{block_kind, block_len, end_len};
ghost use Rattle.packets.specs.Pcapng.{least_len, has_bad_len, is_too_long};

use crate::clock::Clock;
use crate::order::Order;
use byteorder::{BigEndian, ByteOrder};

/// How many octets the head of a block has: its type, its total length and the first four of its
/// body.
pub(crate) const HEAD: usize = 12;

/// The greatest total length of an Interface Description that is read.
const MOST_INTERFACE: u32 = 65536;

/// The greatest total length of an Enhanced Packet that is read.
pub(crate) const MOST_ENHANCED: u32 = 327680;

/// An interface, as a section describes it.
#[derive(Clone, Copy)]
pub(crate) struct Interface {
    pub(crate) link_type: u16,
    pub(crate) clock: Clock,
}

/// What a block is.
#[derive(Clone, Copy)]
pub(crate) enum BlockKind {
    /// A Section Header.
    Section,
    /// An Interface Description.
    Interface,
    /// A Packet, which is obsolete, or a Simple Packet, which has no time.
    Timeless,
    /// An Enhanced Packet.
    Enhanced,
    /// Any other.
    Other,
}

fn is_section(head: &[u8; HEAD]) -> bool
    ensures { result ≡ is_section head.now }
{
    BigEndian::read_u32(head.as_slice()) == 0x0a0d_0d0a
}

/// The order of octets that a Section Header tells, if it tells one.
fn section_order(head: &[u8; HEAD]) -> Option<Order>
    ensures { result ≡ section_order head.now }
{
    match BigEndian::read_u32(&head[8..]) {
        0x1a2b_3c4d => Some(Order::Big),
        0x4d3c_2b1a => Some(Order::Little),
        _ => None,
    }
}

/// The order of a block's numbers, where its section has this one.
pub(crate) fn block_order(section: Option<Order>, head: &[u8; HEAD]) -> Option<Order>
    ensures { result ≡ block_order section head.now }
{
    if is_section(head) {
        return section_order(head);
    }
    section
}

/// The block of this type, if it is no Section Header.
fn kind_of(number: u32) -> BlockKind
    ensures { result ≡ kind_of number }
{
    match number {
        1 => BlockKind::Interface,
        2 | 3 => BlockKind::Timeless,
        6 => BlockKind::Enhanced,
        _ => BlockKind::Other,
    }
}

/// What a block is.
pub(crate) fn block_kind(order: Order, head: &[u8; HEAD]) -> BlockKind
    ensures { result ≡ block_kind order head.now }
{
    if is_section(head) {
        return BlockKind::Section;
    }
    kind_of(order.read_u32(head.as_slice()))
}

/// Its total length.
pub(crate) fn block_len(order: Order, head: &[u8; HEAD]) -> u32
    ensures { result ≡ block_len order head.now }
{
    order.read_u32(&head[4..])
}

/// The first word of its body.
pub(crate) fn first_word(order: Order, head: &[u8; HEAD]) -> u32
    ensures { result ≡ number_in order 4 (drop 8 head.now) }
{
    order.read_u32(&head[8..])
}

/// The total length as a block ends with it that has this rest.
pub(crate) fn end_len(order: Order, head: &[u8; HEAD], rest: &[u8]) -> u32
    requires { 4 ≤ length rest.now }
    ensures { result ≡ end_len order head.now rest.now }
{
    order.read_u32(rest.split_at(rest.len() - 4).1)
}

impl BlockKind {
    /// The least total length.
    fn least_len(self) -> u32
        ensures { result ≡ least_len self }
    {
        match self {
            BlockKind::Section => 28,
            BlockKind::Interface => 20,
            BlockKind::Enhanced => 32,
            BlockKind::Timeless | BlockKind::Other => 12,
        }
    }

    /// Whether a total length is no multiple of 4, or below the least.
    pub(crate) fn has_bad_len(self, len: u32) -> bool
        ensures { result ≡ has_bad_len self len }
    {
        len % 4 != 0 || len < self.least_len()
    }

    /// Whether the block would be held, and is longer than any that is read.
    pub(crate) fn is_too_long(self, len: u32) -> bool
        ensures { result ≡ is_too_long self len }
    {
        match self {
            BlockKind::Interface => len > MOST_INTERFACE,
            BlockKind::Enhanced => len > MOST_ENHANCED,
            BlockKind::Section | BlockKind::Timeless | BlockKind::Other => false,
        }
    }
}
