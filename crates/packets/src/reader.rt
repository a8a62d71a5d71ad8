//! A recording, read packet by packet.

ghost use Rattle.std.specs.Prelude.{◌≡◌, ◌<◌, ◌≤◌, ◌+◌, length, OnOk, OnErr};
ghost use Rattle.std.specs.Borrow.{sem};
ghost use Rattle.std.specs.Io.BufRead.{Rests};
ghost use Rattle.packets.specs.Packet.{recorded_of};
ghost use Rattle.packets.specs.Reading.{recorded_in};
ghost use Rattle.packets.specs.Reader.{fresh_reader, state_of, IsNext, failures_in};
ghost use Rattle.packets.specs.Advance.{Advances, failures_of};
ghost use Rattle.packets.specs.contracts.reader.Reader.{the_row};

use crate::blocks::Interface;
use crate::fault::{FaultKind, FileFault};
use crate::packet::Packet;
use crate::progress::Progress;
use crate::reading::{Found, ROOM, Read, read_item};
use mrt::Source;
use std::alloc::{AllocError, Allocator, Global};
use std::marker::Model;

/// Reads on to the next packet, whose octets the buffer holds then.
fn advance<S: Source, A: Allocator>(
    source: &mut S,
    buffer: &mut [u8],
    interfaces: &mut Vec<Interface, A>,
    progress: &mut Progress,
) -> Result<Option<Found>, FileFault>
    requires room { length buffer.old ≡ ROOM }
    requires failures { S.failures source.old < u64.MAX }
    requires one_source { progress.old.number ≤ S.given_count source.old }
    ensures room { length buffer.new ≡ ROOM }
    ensures next { Advances S.gives S.has_ended source.old source.new
        (state_of progress.old interfaces.old.items) (state_of progress.new interfaces.new.items)
        buffer.new result }
    ensures one_source { progress.new.number ≤ S.given_count source.new }
    ensures failures { S.failures source.new ≡ S.failures source.old + failures_of result }
{
    loop {
        match read_item(source, buffer, progress.format, interfaces) {
            Ok(Read::End) => {
                progress.end(false);
                return Ok(None);
            }
            Ok(Read::Refused(kind)) => {
                if !progress.is_cut_by(kind) {
                    return Err(progress.refuse(kind));
                }
                progress.end(true);
                return Ok(None);
            }
            Ok(Read::Opened(format)) => {
                progress.format = format;
                interfaces.clear();
            }
            Ok(Read::Described(interface)) => {
                if interfaces.push(interface).is_err() {
                    return Err(progress.refuse(FaultKind::Memory));
                }
            }
            Ok(Read::Skipped) => {}
            Ok(Read::Packet(found)) => {
                progress.number += 1;
                return Ok(Some(found));
            }
            Err(_) => return Err(progress.refuse(FaultKind::Device)),
        }
    }
}

/// The packet of this number that was found, whose octets the buffer has.
fn packet_of(number: u64, found: Found, buffer: &[u8]) -> Packet<'_>
    requires { found.at + found.count ≤ length buffer.now }
    ensures recorded { recorded_of result ≡ recorded_in found buffer.entry.now }
    ensures number { result.number ≡ number }
{
    Packet {
        number,
        second: found.second,
        micro: found.micro,
        link_type: found.link_type,
        octets: &buffer[found.at..][..found.count],
        wire_count: found.wire_count,
    }
}

/// Reads the packets of a recording. It holds one packet at the most, takes no octets beyond the
/// packet that it answers, and asks for no more than that lacks: who reads from a file puts a
/// buffer between.
///
/// After a fault it answers that fault for good, and after the end the end.
#[derive(Drop)]
pub struct Reader<A: Allocator = Global> {
    buffer: Vec<u8, A>,
    interfaces: Vec<Interface, A>,
    progress: Progress,
}

impl<A: Allocator> Model for Reader<A> {
    ghost use Rattle.std.specs.Prelude.{◌≤◌, length};
    ghost use Rattle.packets.specs.Reader.{ReaderState, state_of, HasRoom};

    ghost Value = { ReaderState };

    ghost view = { λ r. state_of r.progress r.interfaces.items };

    ghost invariant = { λ r. (length r.buffer.items ≤ 327680)
        × HasRoom (length r.buffer.items) (state_of r.progress r.interfaces.items) };
}

/// A buffer for what is held, made of an empty or an old one.
fn make_room<A: Allocator>(buffer: &mut Vec<u8, A>) -> Result<(), AllocError>
    requires { length buffer.old.items ≤ ROOM }
    ensures ok { OnOk result (length buffer.new.items ≡ ROOM) }
    ensures err { OnErr result (length buffer.old.items < ROOM) }
    ensures bound { length buffer.new.items ≤ ROOM }
{
    if buffer.len() < ROOM {
        buffer.resize(ROOM, 0)?;
    }
    Ok(())
}

impl<A: Allocator + Copy> Reader<A> {
    /// A reader that has read nothing. It takes no memory until a packet is read.
    pub fn new(alloc: A) -> Reader<A>
        ensures { result ≡ fresh_reader }
    {
        Reader {
            buffer: Vec::new(alloc),
            interfaces: Vec::new(alloc),
            progress: Progress::new(),
        }
    }

    /// How many packets it has answered.
    pub fn number(&self) -> u64
        ensures { result ≡ self.now.number }
    {
        self.progress.number
    }

    /// Whether the recording that it has read was cut short: its end was told within a packet or a
    /// block, the file's header aside.
    pub fn is_cut_short(&self) -> bool
        ensures { result ≡ self.now.is_cut }
    {
        self.progress.is_cut
    }

    /// Reads on to the next packet, and answers it, or `None` where the recording ends: also where
    /// it was cut short, and what it has of a packet is none. All calls are lent one source.
    ///
    /// A fault names the packet that is read there, or that would be the next. Faults 1 to 5 are
    /// what is wrong in the octets; 2 of them, `Truncated`, is told of a file's own header alone.
    /// 16, `Device`, is answered where the source failed in this call, and 17, `Memory`, where
    /// there was no memory for the buffer or for an interface.
    pub fn next_packet<S: Source>(
        &mut self,
        source: &mut S,
    ) -> Result<Option<Packet<'_>>, FileFault>
        requires failures { S.failures source.old < u64.MAX }
        requires one_source { self.old.number ≤ S.given_count source.old }

        // How the reader stands once the answer is let go.
        ensures* after_borrow { sem 𝓛 (Rests (the_row A.row A.Allocator) self.entry
            (λ new. IsNext S.gives S.has_ended source.old source.new self.old new result
            × (new.number ≤ S.given_count source.new))) }

        ensures failures { S.failures source.new
            ≡ S.failures source.old + failures_in self.old result }
    {
        if let Some(fault) = self.progress.fault {
            return Err(fault);
        }
        if self.progress.is_ended {
            return Ok(None);
        }
        if make_room(&mut self.buffer).is_err() {
            return Err(self.progress.refuse(FaultKind::Memory));
        }
        match advance(
            source,
            &mut self.buffer,
            &mut self.interfaces,
            &mut self.progress,
        )? {
            Some(found) => Ok(Some(packet_of(self.progress.number, found, &self.buffer))),
            None => Ok(None),
        }
    }
}
