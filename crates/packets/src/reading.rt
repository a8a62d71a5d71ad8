//! One item of a recording, read from a source: a header of the file, a packet or a block.

ghost use Rattle.std.specs.Prelude.{◌≡◌, ◌<◌, ◌≤◌, ◌+◌, ◌++◌, ◌-◌, ℕ, List, IfOk, OnErr, IfSome};
ghost use Rattle.std.specs.Prelude.{◌⊎◌, false, IfNone, IfErr, IsTrue, length, take, drop};
ghost use Rattle.mrt.specs.Failures.{failures_after};
ghost use Rattle.packets.specs.Context.{Context, Start, Packets, Blocks};
ghost use Rattle.packets.specs.Pcap.{packet_at, pcap_start};
ghost use Rattle.packets.specs.Pcapng.{has_bad_len, is_too_long, block_at};
ghost use Rattle.packets.specs.Pcapng.{enhanced_by, enhanced_in};
ghost use Rattle.packets.specs.Recording.{start_at, judgement_at};
ghost use Rattle.packets.specs.Reading.{context_of, section_context, IsReadAs, IsInBuffer};
ghost use Rattle.packets.specs.Reading.{IsBegunAs, IsRestRead, told_as, IsPassedOver};
ghost use Rattle.packets.specs.declared.blocks.BlockKind.TheVariants as blocks;
ghost use Rattle.packets.specs.declared.blocks.Interface.{Interface};
ghost use Rattle.packets.specs.declared.fault.FaultKind.TheVariants as kinds;

use crate::blocks::{
    BlockKind, HEAD, Interface, MOST_ENHANCED, block_kind, block_len, block_order, end_len,
    first_word,
};
use crate::fault::FaultKind;
use crate::headers::{
    MOST_KEPT, Magic, PACKET_HEADER, begins_magic, enhanced_in, is_version_2, link_type_in,
    magic_in, packet_header_in,
};
use crate::interface::interface_in;
use crate::order::Order;
use crate::progress::Format;
use mrt::{Failed, Source, fill, pass_over};

/// How many octets the buffer of a reader has: as many as the longest block that is held.
pub(crate) const ROOM: usize = MOST_ENHANCED as usize;

/// A packet whose octets the buffer holds.
#[derive(Clone, Copy)]
pub(crate) struct Found {
    pub(crate) second: u32,
    pub(crate) micro: Option<u32>,
    pub(crate) link_type: u16,
    pub(crate) wire_count: u32,
    /// Where its octets begin in the buffer.
    pub(crate) at: usize,
    /// How many there are.
    pub(crate) count: usize,
}

/// What was read.
#[derive(Clone, Copy)]
pub(crate) enum Read {
    /// The source ended where a packet or a block could begin.
    End,
    /// The recording is refused.
    Refused(FaultKind),
    /// A header of the file or of a section: how to read on. No interface is described yet.
    Opened(Format),
    /// An interface was described.
    Described(Interface),
    /// A block that is passed over.
    Skipped,
    /// A packet.
    Packet(Found),
}

/// Reads a packet of pcap.
fn read_packet<S: Source>(
    source: &mut S,
    buffer: &mut [u8],
    magic: Magic,
    link_type: u16,
) -> Result<Read, Failed>
    requires room { length buffer.old ≡ ROOM }
    requires failures { S.failures source.old < u64.MAX }
    ensures room { length buffer.new ≡ length buffer.old }
    ensures ok { IfOk result (λ read. (octets : List ℕ) × S.gives source.old source.new octets
        × IsReadAs (packet_at magic link_type) (Packets magic link_type) octets
        (S.has_ended source.new) buffer.new read
        × IsInBuffer (length octets) (S.has_ended source.new) buffer.new read) }
    ensures err { OnErr result ((taken : List ℕ) × S.gives source.old source.new taken
        × IsBegunAs (packet_at magic link_type) taken) }
    ensures failures { S.failures source.new ≡ failures_after (S.failures source.old) result }
{
    let mut head = [0; PACKET_HEADER];
    let filled = fill(source, &mut head)?;
    if filled == 0 {
        return Ok(Read::End);
    }
    if filled < PACKET_HEADER {
        return Ok(Read::Refused(FaultKind::Truncated));
    }
    let header = packet_header_in(magic, &head);
    if header.kept > MOST_KEPT {
        return Ok(Read::Refused(FaultKind::TooLong));
    }
    let kept = header.kept as usize;
    let there = fill(source, &mut buffer[..kept])?;
    if there < kept {
        return Ok(Read::Refused(FaultKind::Truncated));
    }
    Ok(Read::Packet(Found {
        second: header.second,
        micro: header.micro,
        link_type,
        wire_count: header.wire,
        at: 0,
        count: kept,
    }))
}

/// Reads the second half of the header of a pcap file.
fn read_file_header<S: Source>(
    source: &mut S,
    magic: Magic,
    head: &[u8; HEAD],
) -> Result<Read, Failed>
    requires failures { S.failures source.old < u64.MAX }
    ensures ok { IfOk result (λ read. (octets : List ℕ) × S.gives source.old source.new octets
        × ((buffer : List ℕ) → IsReadAs (pcap_start magic) Start (head.now ++ octets)
        (S.has_ended source.new) buffer read
        × IsInBuffer (12 + length octets) (S.has_ended source.new) buffer read)) }
    ensures err { OnErr result ((taken : List ℕ) × S.gives source.old source.new taken
        × (length taken < 12)) }
    ensures failures { S.failures source.new ≡ failures_after (S.failures source.old) result }
{
    let mut rest = [0; HEAD];
    let filled = fill(source, &mut rest)?;
    if filled < HEAD {
        return Ok(Read::Refused(FaultKind::Truncated));
    }
    if !is_version_2(magic.order, head) {
        return Ok(Read::Refused(FaultKind::Format));
    }
    Ok(Read::Opened(Format::Pcap(magic, link_type_in(magic.order, &rest))))
}

/// Passes over all but the last four of so many octets, and answers those; none, where the source
/// ends before.
fn skip_to_last<S: Source>(
    source: &mut S,
    buffer: &mut [u8],
    count: u32,
) -> Result<Option<[u8; 4]>, Failed>
    requires count { 4 ≤ count }
    requires room { length buffer.old ≡ ROOM }
    requires failures { S.failures source.old < u64.MAX }
    ensures room { length buffer.new ≡ length buffer.old }
    ensures ok { IfOk result (λ last. (octets : List ℕ) × S.gives source.old source.new octets
        × IfSome last (λ last. (length octets ≡ count) × (drop (count - 4) octets ≡ last))
        × IfNone last ((length octets < count) × IsTrue (S.has_ended source.new))) }
    ensures err { OnErr result ((taken : List ℕ) × S.gives source.old source.new taken
        × (length taken < count)) }
    ensures failures { S.failures source.new ≡ failures_after (S.failures source.old) result }
{
    if !pass_over(source, buffer, count - 4)? {
        return Ok(None);
    }
    let mut last = [0; 4];
    if fill(source, &mut last)? < last.len() {
        return Ok(None);
    }
    Ok(Some(last))
}

/// Reads the rest of a Section Header.
fn read_section<S: Source>(
    source: &mut S,
    buffer: &mut [u8],
    order: Order,
    head: &[u8; HEAD],
    len: u32,
) -> Result<Read, Failed>
    requires len { 28 ≤ len }
    requires room { length buffer.old ≡ ROOM }
    requires failures { S.failures source.old < u64.MAX }
    ensures room { length buffer.new ≡ length buffer.old }
    ensures ok { IfOk result (λ read. (octets : List ℕ) × S.gives source.old source.new octets
        × ((interfaces : List Interface) (context : Context) →
        IsRestRead order interfaces blocks.Section len head.now context octets
        (S.has_ended source.new) buffer.new read)) }
    ensures err { OnErr result ((taken : List ℕ) × S.gives source.old source.new taken
        × (12 + length taken < len)) }
    ensures failures { S.failures source.new ≡ failures_after (S.failures source.old) result }
{
    let mut version = [0; 4];
    if fill(source, &mut version)? < version.len() {
        return Ok(Read::Refused(FaultKind::Truncated));
    }
    let Some(last) = skip_to_last(source, buffer, len - 16)? else {
        return Ok(Read::Refused(FaultKind::Truncated));
    };
    if order.read_u32(last.as_slice()) != len {
        return Ok(Read::Refused(FaultKind::Block));
    }
    if order.read_u16(version.as_slice()) != 1 {
        return Ok(Read::Refused(FaultKind::Format));
    }
    Ok(Read::Opened(Format::Pcapng(order)))
}

/// Passes over the rest of a block, and answers why it is refused, if it is.
fn skip_block<S: Source>(
    source: &mut S,
    buffer: &mut [u8],
    order: Order,
    head: &[u8; HEAD],
    len: u32,
) -> Result<Option<FaultKind>, Failed>
    requires len { (len ≡ 12) ⊎ (16 ≤ len) }
    requires room { length buffer.old ≡ ROOM }
    requires failures { S.failures source.old < u64.MAX }
    ensures room { length buffer.new ≡ length buffer.old }
    ensures ok { IfOk result (λ fault. (octets : List ℕ) × S.gives source.old source.new octets
        × IsPassedOver order head.now len octets (S.has_ended source.new) fault) }
    ensures err { OnErr result ((taken : List ℕ) × S.gives source.old source.new taken
        × (12 + length taken < len)) }
    ensures failures { S.failures source.new ≡ failures_after (S.failures source.old) result }
{
    if len == HEAD as u32 {
        return Ok((first_word(order, head) != len).then_some(FaultKind::Block));
    }
    match skip_to_last(source, buffer, len - HEAD as u32)? {
        Some(last) => Ok((order.read_u32(last.as_slice()) != len).then_some(FaultKind::Block)),
        None => Ok(Some(FaultKind::Truncated)),
    }
}

/// Reads the rest of a block into the front of the buffer, and answers why it is refused, if it is.
fn hold_block<S: Source>(
    source: &mut S,
    buffer: &mut [u8],
    order: Order,
    head: &[u8; HEAD],
    len: u32,
) -> Result<Option<FaultKind>, Failed>
    requires len { 16 ≤ len }
    requires most { len ≤ ROOM }
    requires room { length buffer.old ≡ ROOM }
    requires failures { S.failures source.old < u64.MAX }
    ensures room { length buffer.new ≡ length buffer.old }
    ensures ok { IfOk result (λ fault. (octets : List ℕ) × S.gives source.old source.new octets
        × IsPassedOver order head.now len octets (S.has_ended source.new) fault
        × (fault ≡ None → take (len - 12) buffer.new ≡ octets)) }
    ensures err { OnErr result ((taken : List ℕ) × S.gives source.old source.new taken
        × (12 + length taken < len)) }
    ensures failures { S.failures source.new ≡ failures_after (S.failures source.old) result }
{
    let count = len as usize - HEAD;
    let filled = fill(source, &mut buffer[..count])?;
    if filled < count {
        return Ok(Some(FaultKind::Truncated));
    }
    Ok((end_len(order, head, &buffer[..count]) != len).then_some(FaultKind::Block))
}

/// The packet of an Enhanced Packet, by the head and the rest of its block.
fn packet_in(
    order: Order,
    interfaces: &[Interface],
    head: &[u8; HEAD],
    rest: &[u8],
) -> Result<Found, FaultKind>
    requires { 20 ≤ length rest.now }
    ensures told { told_as (12 + length rest.now) rest.now result
        ≡ enhanced_by interfaces.now (12 + length rest.now) (enhanced_in order head.now rest.now)
        rest.now }
    ensures within { IfOk result (λ found. found.at + found.count ≤ length rest.now) }
    ensures whole { IfErr result (λ kind. kind ≡ kinds.Truncated → ⊥) }
{
    let header = enhanced_in(order, head, rest);
    if header.kept > MOST_KEPT {
        return Err(FaultKind::TooLong);
    }
    let Some(interface) = interfaces.get(header.interface as usize) else {
        return Err(FaultKind::Block);
    };
    let count = header.kept as usize;
    if HEAD + rest.len() < 32 + count {
        return Err(FaultKind::Block);
    }
    match interface.clock.second_at(header.ticks) {
        Some(second) => Ok(Found {
            second,
            micro: Some(interface.clock.micro_at(header.ticks)),
            link_type: interface.link_type,
            wire_count: header.wire,
            at: 16,
            count,
        }),
        None => Err(FaultKind::Time),
    }
}

/// Reads the rest of an Interface Description.
fn read_interface<S: Source>(
    source: &mut S,
    buffer: &mut [u8],
    order: Order,
    head: &[u8; HEAD],
    len: u32,
) -> Result<Read, Failed>
    requires len { 20 ≤ len }
    requires most { len ≤ ROOM }
    requires room { length buffer.old ≡ ROOM }
    requires failures { S.failures source.old < u64.MAX }
    ensures room { length buffer.new ≡ length buffer.old }
    ensures ok { IfOk result (λ read. (octets : List ℕ) × S.gives source.old source.new octets
        × ((interfaces : List Interface) →
        IsRestRead order interfaces blocks.Interface len head.now (Blocks order interfaces) octets
        (S.has_ended source.new) buffer.new read)) }
    ensures err { OnErr result ((taken : List ℕ) × S.gives source.old source.new taken
        × (12 + length taken < len)) }
    ensures failures { S.failures source.new ≡ failures_after (S.failures source.old) result }
{
    if let Some(fault) = hold_block(source, buffer, order, head, len)? {
        return Ok(Read::Refused(fault));
    }
    Ok(
        match interface_in(order, head, &buffer[..len as usize - HEAD]) {
            Some(interface) => Read::Described(interface),
            None => Read::Refused(FaultKind::Block),
        },
    )
}

/// Reads the rest of an Enhanced Packet.
fn read_enhanced<S: Source>(
    source: &mut S,
    buffer: &mut [u8],
    order: Order,
    interfaces: &[Interface],
    head: &[u8; HEAD],
    len: u32,
) -> Result<Read, Failed>
    requires len { 32 ≤ len }
    requires most { len ≤ ROOM }
    requires room { length buffer.old ≡ ROOM }
    requires failures { S.failures source.old < u64.MAX }
    ensures room { length buffer.new ≡ length buffer.old }
    ensures ok { IfOk result (λ read. (octets : List ℕ) × S.gives source.old source.new octets
        × IsRestRead order interfaces.now blocks.Enhanced len head.now
        (Blocks order interfaces.now) octets (S.has_ended source.new) buffer.new read) }
    ensures err { OnErr result ((taken : List ℕ) × S.gives source.old source.new taken
        × (12 + length taken < len)) }
    ensures failures { S.failures source.new ≡ failures_after (S.failures source.old) result }
{
    if let Some(fault) = hold_block(source, buffer, order, head, len)? {
        return Ok(Read::Refused(fault));
    }
    Ok(
        match packet_in(order, interfaces, head, &buffer[..len as usize - HEAD]) {
            Ok(found) => Read::Packet(found),
            Err(fault) => Read::Refused(fault),
        },
    )
}

/// Reads the rest of a packet that has no time, which is refused.
fn read_timeless<S: Source>(
    source: &mut S,
    buffer: &mut [u8],
    order: Order,
    head: &[u8; HEAD],
    len: u32,
) -> Result<Read, Failed>
    requires len { (len ≡ 12) ⊎ (16 ≤ len) }
    requires room { length buffer.old ≡ ROOM }
    requires failures { S.failures source.old < u64.MAX }
    ensures room { length buffer.new ≡ length buffer.old }
    ensures ok { IfOk result (λ read. (octets : List ℕ) × S.gives source.old source.new octets
        × ((interfaces : List Interface) →
        IsRestRead order interfaces blocks.Timeless len head.now (Blocks order interfaces) octets
        (S.has_ended source.new) buffer.new read)) }
    ensures err { OnErr result ((taken : List ℕ) × S.gives source.old source.new taken
        × (12 + length taken < len)) }
    ensures failures { S.failures source.new ≡ failures_after (S.failures source.old) result }
{
    Ok(match skip_block(source, buffer, order, head, len)? {
        Some(fault) => Read::Refused(fault),
        None => Read::Refused(FaultKind::Block),
    })
}

/// Passes over the rest of a block of another kind.
fn read_other<S: Source>(
    source: &mut S,
    buffer: &mut [u8],
    order: Order,
    head: &[u8; HEAD],
    len: u32,
) -> Result<Read, Failed>
    requires len { (len ≡ 12) ⊎ (16 ≤ len) }
    requires room { length buffer.old ≡ ROOM }
    requires failures { S.failures source.old < u64.MAX }
    ensures room { length buffer.new ≡ length buffer.old }
    ensures ok { IfOk result (λ read. (octets : List ℕ) × S.gives source.old source.new octets
        × ((interfaces : List Interface) →
        IsRestRead order interfaces blocks.Other len head.now (Blocks order interfaces) octets
        (S.has_ended source.new) buffer.new read)) }
    ensures err { OnErr result ((taken : List ℕ) × S.gives source.old source.new taken
        × (12 + length taken < len)) }
    ensures failures { S.failures source.new ≡ failures_after (S.failures source.old) result }
{
    Ok(match skip_block(source, buffer, order, head, len)? {
        Some(fault) => Read::Refused(fault),
        None => Read::Skipped,
    })
}

/// Reads the rest of a block of this kind and total length.
fn read_block_rest<S: Source>(
    source: &mut S,
    buffer: &mut [u8],
    order: Order,
    interfaces: &[Interface],
    head: &[u8; HEAD],
    kind: BlockKind,
    len: u32,
) -> Result<Read, Failed>
    requires len { has_bad_len kind len ≡ false }
    requires most { is_too_long kind len ≡ false }
    requires room { length buffer.old ≡ ROOM }
    requires failures { S.failures source.old < u64.MAX }
    ensures room { length buffer.new ≡ length buffer.old }
    ensures ok { IfOk result (λ read. (octets : List ℕ) × S.gives source.old source.new octets
        × ((context : Context) →
        ((kind ≡ blocks.Section → ⊥) → context ≡ Blocks order interfaces.now) →
        IsRestRead order interfaces.now kind len head.now context octets
        (S.has_ended source.new) buffer.new read)) }
    ensures err { OnErr result ((taken : List ℕ) × S.gives source.old source.new taken
        × (12 + length taken < len)) }
    ensures failures { S.failures source.new ≡ failures_after (S.failures source.old) result }
{
    match kind {
        BlockKind::Section => read_section(source, buffer, order, head, len),
        BlockKind::Interface => read_interface(source, buffer, order, head, len),
        BlockKind::Timeless => read_timeless(source, buffer, order, head, len),
        BlockKind::Enhanced => read_enhanced(source, buffer, order, interfaces, head, len),
        BlockKind::Other => read_other(source, buffer, order, head, len),
    }
}

/// Reads a block that has this head.
fn read_headed_block<S: Source>(
    source: &mut S,
    buffer: &mut [u8],
    section: Option<Order>,
    interfaces: &[Interface],
    head: &[u8; HEAD],
) -> Result<Read, Failed>
    requires room { length buffer.old ≡ ROOM }
    requires failures { S.failures source.old < u64.MAX }
    ensures room { length buffer.new ≡ length buffer.old }
    ensures ok { IfOk result (λ read. (octets : List ℕ) × S.gives source.old source.new octets
        × IsReadAs (block_at section interfaces.now) (section_context section interfaces.now)
        (head.now ++ octets) (S.has_ended source.new) buffer.new read
        × IsInBuffer (12 + length octets) (S.has_ended source.new) buffer.new read) }
    ensures err { OnErr result ((taken : List ℕ) × S.gives source.old source.new taken
        × IsBegunAs (block_at section interfaces.now) (head.now ++ taken)) }
    ensures failures { S.failures source.new ≡ failures_after (S.failures source.old) result }
{
    let Some(order) = block_order(section, head) else {
        return Ok(Read::Refused(FaultKind::Format));
    };
    let kind = block_kind(order, head);
    let len = block_len(order, head);
    if kind.has_bad_len(len) {
        return Ok(Read::Refused(FaultKind::Block));
    }
    if kind.is_too_long(len) {
        return Ok(Read::Refused(FaultKind::TooLong));
    }
    read_block_rest(source, buffer, order, interfaces, head, kind, len)
}

/// Reads a block of pcapng.
fn read_block<S: Source>(
    source: &mut S,
    buffer: &mut [u8],
    order: Order,
    interfaces: &[Interface],
) -> Result<Read, Failed>
    requires room { length buffer.old ≡ ROOM }
    requires failures { S.failures source.old < u64.MAX }
    ensures room { length buffer.new ≡ length buffer.old }
    ensures ok { IfOk result (λ read. (octets : List ℕ) × S.gives source.old source.new octets
        × IsReadAs (block_at (Some order) interfaces.now) (Blocks order interfaces.now) octets
        (S.has_ended source.new) buffer.new read
        × IsInBuffer (length octets) (S.has_ended source.new) buffer.new read) }
    ensures err { OnErr result ((taken : List ℕ) × S.gives source.old source.new taken
        × IsBegunAs (block_at (Some order) interfaces.now) taken) }
    ensures failures { S.failures source.new ≡ failures_after (S.failures source.old) result }
{
    let mut head = [0; HEAD];
    let filled = fill(source, &mut head)?;
    if filled == 0 {
        return Ok(Read::End);
    }
    if filled < HEAD {
        return Ok(Read::Refused(FaultKind::Truncated));
    }
    read_headed_block(source, buffer, Some(order), interfaces, &head)
}

/// Reads the header of a file.
fn read_start<S: Source>(source: &mut S, buffer: &mut [u8]) -> Result<Read, Failed>
    requires room { length buffer.old ≡ ROOM }
    requires failures { S.failures source.old < u64.MAX }
    ensures room { length buffer.new ≡ length buffer.old }
    ensures ok { IfOk result (λ read. (octets : List ℕ) × S.gives source.old source.new octets
        × IsReadAs start_at Start octets (S.has_ended source.new) buffer.new read
        × IsInBuffer (length octets) (S.has_ended source.new) buffer.new read) }
    ensures err { OnErr result ((taken : List ℕ) × S.gives source.old source.new taken
        × IsBegunAs start_at taken) }
    ensures failures { S.failures source.new ≡ failures_after (S.failures source.old) result }
{
    let mut head = [0; HEAD];
    let filled = fill(source, &mut head)?;
    if !begins_magic(&head[..filled.min(4)]) {
        return Ok(Read::Refused(FaultKind::Format));
    }
    if filled < HEAD {
        return Ok(Read::Refused(FaultKind::Truncated));
    }
    match magic_in(&head[..4]) {
        Some(magic) => read_file_header(source, magic, &head),
        None => read_headed_block(source, buffer, None, &[], &head),
    }
}

/// Reads one item, and takes no more octets than it has. Where it is a packet, the buffer holds its
/// octets then.
pub(crate) fn read_item<S: Source>(
    source: &mut S,
    buffer: &mut [u8],
    format: Format,
    interfaces: &[Interface],
) -> Result<Read, Failed>
    requires room { length buffer.old ≡ ROOM }
    requires failures { S.failures source.old < u64.MAX }
    ensures room { length buffer.new ≡ length buffer.old }
    ensures ok { IfOk result (λ read. (octets : List ℕ) × S.gives source.old source.new octets
        × IsReadAs (judgement_at (context_of format interfaces.now))
        (context_of format interfaces.now) octets (S.has_ended source.new) buffer.new read
        × IsInBuffer (length octets) (S.has_ended source.new) buffer.new read) }
    ensures err { OnErr result ((taken : List ℕ) × S.gives source.old source.new taken
        × IsBegunAs (judgement_at (context_of format interfaces.now)) taken) }
    ensures failures { S.failures source.new ≡ failures_after (S.failures source.old) result }
{
    match format {
        Format::Unknown => read_start(source, buffer),
        Format::Pcap(magic, link_type) => read_packet(source, buffer, magic, link_type),
        Format::Pcapng(order) => read_block(source, buffer, order, interfaces),
    }
}
