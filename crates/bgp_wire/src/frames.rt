//! A stream as frames (RFC 4271, 4.1), in whatever pieces it comes.

ghost use Rattle.std.specs.Prelude.{◌≡◌, ◌<◌, ◌≤◌, ◌^◌, ◌++◌, ◌↔◌};
ghost use Rattle.std.specs.Prelude.{IsTrue, IsOk, IfOk, OnOk, OnErr};
ghost use Rattle.std.specs.Prelude.{length, drop};
ghost use Rattle.std.specs.Borrow.{sem};
ghost use Rattle.std.specs.Io.BufRead.{Rests};
ghost use Rattle.bgp_wire.specs.Framing.{IsFrame};
ghost use Rattle.bgp_wire.specs.Held.{nothing_held, after_feed};
ghost use Rattle.bgp_wire.specs.Next.{IsNext, after_next, IsFault};
ghost use Rattle.bgp_wire.specs.contracts.frames.Frames.{the_row};

use crate::header::{
    HEADER_LEN, HeaderFaults, HeaderVerdict, Limit, MessageType, check_header, header_at,
};
use bytes::BytesMut;
use std::alloc::{AllocError, Allocator, Global};
use std::marker::Model;

/// What [`Frames::next`] answers.
#[derive(Clone, Copy, Debug, PartialEq, Eq)]
pub enum Next<'a> {
    /// The first frame of what was held: the type that its header says, and all its octets, the
    /// header's too.
    Frame(MessageType, &'a [u8]),
    /// Neither a whole frame nor a header with faults is held: more octets decide.
    More,
    /// A header with faults stands where a frame should: the set of all of them, and its octets.
    Fault(HeaderFaults, &'a [u8; HEADER_LEN]),
}

/// Splits a stream into frames. What it answers depends on the octets alone, however they are cut
/// into pieces.
///
/// After a fault it answers that fault for good, and takes no more octets.
#[derive(Drop)]
pub struct Frames<A: Allocator = Global> {
    limit: Limit,
    octets: BytesMut<A>,
    /// How many octets at the front are handed out.
    taken: usize,
    closed: bool,
}

impl<A: Allocator> Model for Frames<A> {
    ghost use Rattle.std.specs.Prelude.{◌≤◌, IsTrue, length, drop};
    ghost use Rattle.bgp_wire.specs.Held.{Held};
    ghost use Rattle.bgp_wire.specs.Framing.{IsFaulty};

    ghost Value = { Held };

    ghost view = { λ f. record {
      limit = f.limit;
      octets = drop f.taken f.octets.items;
      is_closed = f.closed;
    } };

    ghost invariant = { λ f. (f.taken ≤ length f.octets.items)
        × (IsTrue f.closed → IsFaulty f.limit (drop f.taken f.octets.items)) };
}

impl<A: Allocator + Copy> Frames<A> {
    /// A splitter that holds nothing. It takes no memory until a piece comes.
    pub fn new(alloc: A, limit: Limit) -> Frames<A>
        ensures { result ≡ nothing_held limit }
    {
        Frames {
            limit,
            octets: BytesMut::new(alloc),
            taken: 0,
            closed: false,
        }
    }

    /// Lends the octets that came and aren't handed out: what stands behind the last frame.
    pub fn held(&self) -> &[u8]
        ensures { result.now ≡ self.now.octets }
    {
        octets_from(&self.octets, self.taken)
    }

    /// How many octets are held: those that came before a fault was answered, less those of the
    /// frames handed out.
    pub fn len(&self) -> usize
        ensures { result ≡ length self.now.octets }
    {
        self.octets.len() - self.taken
    }

    /// Appends a piece of the stream to what is held. Refused for memory it leaves all as before;
    /// after a fault was answered it passes the piece over.
    pub fn feed(&mut self, piece: &[u8]) -> Result<(), AllocError>
        ensures ok { OnOk result (self.new ≡ after_feed self.old piece.now) }
        ensures err { OnErr result (self.new ≡ self.old) }
        ensures closed { IsTrue self.old.is_closed → IsOk result }
    {
        if self.closed {
            return Ok(());
        }
        self.octets.advance(self.taken);
        self.taken = 0;
        self.octets.extend_from_slice(piece)
    }

    /// A splitter that holds the same, and goes on by itself.
    pub fn copy(&self) -> Result<Frames<A>, AllocError>
        ensures { IfOk result (λ copy. copy ≡ self.now) }
    {
        let held = octets_from(&self.octets, self.taken);
        Ok(Frames {
            limit: self.limit,
            octets: BytesMut::copy_from_slice(*self.octets.allocator(), held)?,
            taken: 0,
            closed: self.closed,
        })
    }

    /// Takes away the first frame of what is held and answers it; answers `More` or `Fault` where
    /// no frame stands at the front, and then takes nothing. It needs no memory.
    pub fn next(&mut self) -> Next<'_>
        // What is held once the answer is let go.
        ensures* after_borrow { sem 𝓛 (Rests (the_row A.row A.Allocator) self.entry
            (λ new. new ≡ after_next self.old result)) }
        ensures first { IsNext self.old.limit self.old.octets result }
        ensures again { IsTrue self.old.is_closed → IsFault result }
    {
        let next = first_of(self.limit, octets_from(&self.octets, self.taken));
        match next {
            Next::Frame(_, frame) => self.taken += frame.len(),
            Next::More => {}
            Next::Fault(..) => self.closed = true,
        }
        next
    }
}

/// The octets that aren't handed out.
fn octets_from<A: Allocator>(octets: &BytesMut<A>, taken: usize) -> &[u8]
    requires { taken ≤ length octets.now.items }
    ensures rest { result.now ≡ drop taken octets.entry.now.items }
    ensures fits { length octets.entry.now.items < 2 ^ 64 }
{
    octets.as_slice().split_at(taken).1
}

/// What stands at the front of the octets.
fn first_of(limit: Limit, octets: &[u8]) -> Next<'_>
    ensures { IsNext limit octets.entry.now result }
{
    let Some(header) = header_at(octets) else {
        return Next::More;
    };
    match check_header(header, limit) {
        HeaderVerdict::Faulty(faults) => Next::Fault(faults, header),
        HeaderVerdict::Whole(length, kind) => {
            let length = usize::from(length);
            if octets.len() < length {
                Next::More
            } else {
                Next::Frame(kind, &octets[..length])
            }
        }
    }
}

/// Whether the octets are one frame: a header without a fault, and as many octets as it says.
pub fn is_frame(limit: Limit, octets: &[u8]) -> bool
    ensures { IsTrue result ↔ IsFrame limit octets.now }
{
    let Some(header) = header_at(octets) else {
        return false;
    };
    match check_header(header, limit) {
        HeaderVerdict::Faulty(_) => false,
        HeaderVerdict::Whole(length, _) => are_so_many(octets, length),
    }
}

/// Whether the octets are as many as a Length says.
fn are_so_many(octets: &[u8], count: u16) -> bool
    ensures { IsTrue result ↔ (length octets.now ≡ count) }
{
    octets.len() == usize::from(count)
}
