//! The messages in a stream (RFC 4271, 4.1), and what of it is none.

ghost use Rattle.std.specs.Prelude.{◌≡◌, ◌<◌, ◌≤◌, ◌+◌, ◌^◌, ◌↔◌};
ghost use Rattle.std.specs.Prelude.{IsTrue, IfOk, IfSome, IfNone, length};
ghost use Rattle.bgp_wire.specs.Framing.{IsFaulty};
ghost use Rattle.bgp_wire.specs.Header.{IsSynchronized, header_of, length_of};
ghost use Rattle.bgp_recording.specs.Framed.{AreSplit, IsFront, IsStamped, stamped_at};
ghost use Rattle.bgp_recording.specs.Givers.{IsAt, given_by};
ghost use Rattle.bgp_recording.specs.Pieces.{IsRefreshHeader, alike, framing_of, framings_of};

use crate::givers::Cursor;
use crate::message::Message;
use bgp_prefix::{RouteRefresh, Session};
use bgp_wire::{HEADER_LEN, HeaderVerdict, Limit, MessageType, check_header, header_at, read_type};
use byteorder::{BigEndian, ByteOrder};
use std::alloc::{AllocError, Allocator, Global};
use streams::Run;

/// The type of a ROUTE-REFRESH (RFC 2918, 3).
const ROUTE_REFRESH: u8 = 5;

/// The most octets of a ROUTE-REFRESH, also where messages may be extended ones (RFC 8654, 4).
const LONGEST_REFRESH: usize = 4096;

/// By which rules the octets of one direction are framed.
#[derive(Clone, Copy, Debug)]
pub struct Framing {
    /// How long a message may be.
    pub limit: Limit,
    /// Whether a whole ROUTE-REFRESH (RFC 2918), whose type is the one fault of its header, is
    /// passed over. Any other message of its type has a faulty header.
    pub skips_refresh: bool,
}

impl Framing {
    /// The rules for both directions of a session.
    pub fn of_session(session: &Session) -> Framing
        ensures { result ≡ framing_of session.now }
    {
        Framing {
            limit: Limit::with_extended(session.extended),
            skips_refresh: session.refresh == RouteRefresh::PassedOver,
        }
    }
}

/// By which rules both directions are framed: what may come to a system is what it offered.
#[derive(Clone, Copy, Debug)]
pub struct Framings {
    /// What the local system received.
    pub received: Framing,
    /// What it sent.
    pub sent: Framing,
}

impl Framings {
    /// Both directions by the same rules.
    pub fn alike(framing: Framing) -> Framings
        ensures { result ≡ alike framing }
    {
        Framings {
            received: framing,
            sent: framing,
        }
    }

    /// Those of a session.
    pub fn of_session(session: &Session) -> Framings
        ensures { result ≡ framings_of session.now }
    {
        Framings::alike(Framing::of_session(session))
    }
}

/// What is left of a stream after its messages.
#[derive(Clone, Copy, Debug, PartialEq, Eq)]
pub enum Rest {
    /// So many octets, which are no whole message; 0 where the last message ends the stream.
    Short {
        count: usize,
    },
    /// So many octets after a faulty header, which are not read. The header is the last message.
    BehindFault {
        /// The place of the header's first octet.
        place: usize,
        /// How many octets there are after the header.
        count: usize,
        /// Whether it begins a whole ROUTE-REFRESH, which other rules of framing pass over.
        is_refresh: bool,
    },
}

/// What of a stream is in no record.
#[derive(Clone, Copy, Debug, PartialEq, Eq)]
pub struct Unshown {
    /// How many ROUTE-REFRESH messages are passed over.
    pub passed_over: usize,
    /// What is left after the messages.
    pub rest: Rest,
}

/// Which way a stream goes.
#[derive(Clone, Copy)]
pub(crate) enum Direction {
    Received,
    Sent,
}

/// What stands at the front of a stream.
#[derive(Clone, Copy)]
enum Front<'a> {
    /// The octets of a message, and its type.
    Message(&'a [u8], MessageType),
    /// Those of a ROUTE-REFRESH that is passed over.
    PassedOver(&'a [u8]),
    /// A faulty header, and whether it begins a whole ROUTE-REFRESH.
    Fault(&'a [u8], bool),
}

/// The messages of a stream, and what of it is none.
#[derive(Debug, Drop)]
pub struct Framed<'a, A: Allocator = Global> {
    /// The messages, in their order.
    pub messages: Vec<Message<'a>, A>,
    /// What of the stream is in none of them.
    pub unshown: Unshown,
}

impl Direction {
    /// The place of the octet whose packet is the message's: of a received one the last octet, and
    /// of a sent one the first.
    fn place(self, start: usize, count: usize) -> usize
        requires some { 1 ≤ count }
        requires fits { start + count < 2 ^ 64 }
        ensures { result ≡ stamped_at self start count }
    {
        match self {
            Direction::Received => start + count - 1,
            Direction::Sent => start,
        }
    }
}

/// Whether all octets of a header's marker are 255.
fn is_synchronized(header: &[u8; HEADER_LEN]) -> bool
    ensures { IsTrue result ↔ IsSynchronized header.now }
{
    header[..16].iter().all(|octet| *octet == 255)
}

/// The Length of a header, whether it is faulty or not.
#[tactic(auto, unfolding(bgp_wire::specs::Header::length_of))]
fn read_length(header: &[u8; HEADER_LEN]) -> usize
    ensures { result ≡ length_of header.now }
{
    usize::from(BigEndian::read_u16(&header[16..]))
}

/// How many octets the ROUTE-REFRESH has whose header this is: `None` where it is none, or has a
/// fault besides its type.
fn refresh_len(header: &[u8; HEADER_LEN]) -> Option<usize>
    ensures some { IfSome result (λ count. IsRefreshHeader header.now
        × (count ≡ length_of header.now)) }
    ensures none { IfNone result (¬ IsRefreshHeader header.now) }
{
    let length = read_length(header);
    if read_type(header) == ROUTE_REFRESH
        && HEADER_LEN <= length
        && length <= LONGEST_REFRESH
        && is_synchronized(header)
    {
        Some(length)
    } else {
        None
    }
}

/// What stands at the front of the octets where a faulty header does: `None` where more octets
/// would have to decide.
fn faulty_front<'a>(
    framing: Framing,
    header: &'a [u8; HEADER_LEN],
    octets: &'a [u8],
) -> Option<Front<'a>>
    requires faulty { IsFaulty framing.limit octets.now }
    requires header { header.now ≡ header_of octets.now }
    ensures { IsFront framing octets.entry.now result }
{
    match refresh_len(header) {
        Some(length) if !framing.skips_refresh => Some(Front::Fault(
            header,
            length <= octets.len(),
        )),
        Some(length) if octets.len() < length => None,
        Some(length) => Some(Front::PassedOver(&octets[..length])),
        None => Some(Front::Fault(header, false)),
    }
}

/// What stands at the front of the octets: `None` where more octets would have to decide.
fn front_of(framing: Framing, octets: &[u8]) -> Option<Front<'_>>
    ensures { IsFront framing octets.entry.now result }
{
    let header = header_at(octets)?;
    match check_header(header, framing.limit) {
        HeaderVerdict::Faulty(_) => faulty_front(framing, header, octets),
        HeaderVerdict::Whole(length, kind) => {
            let length = usize::from(length);
            if octets.len() < length {
                return None;
            }
            Some(Front::Message(&octets[..length], kind))
        }
    }
}

/// The message of these octets, which begin at a place, with its packet; it has this type, or none
/// where they are a faulty header.
fn message_at<'a>(
    cursor: &mut Cursor<'_>,
    direction: Direction,
    place: usize,
    octets: &'a [u8],
    kind: Option<MessageType>,
) -> Message<'a>
    requires at { IsAt cursor.old.runs.now cursor.old }
    requires base { cursor.old.base ≤ place }
    requires some { 1 ≤ length octets.now }
    requires given { place + length octets.now ≤ given_by cursor.old.runs.now }
    requires fits { place + length octets.now < 2 ^ 64 }
    ensures octets { result.octets.now ≡ octets.entry.now }
    ensures kind { result.kind ≡ kind }
    ensures stamped { IsStamped direction cursor.old.runs.now place result }
    ensures at { IsAt cursor.old.runs.now cursor.new }
    ensures base { cursor.new.base ≤ place + length octets.now }
{
    let moment = cursor.moment(direction.place(place, octets.len()));
    Message {
        octets,
        kind,
        packet: moment.packet,
        second: moment.second,
        micro: moment.micro,
    }
}

/// The messages of a stream, of which each place has a giver, and what of it is none.
pub(crate) fn split_messages<'a, A: Allocator>(
    alloc: A,
    framing: Framing,
    octets: &'a [u8],
    givers: &[Run],
    direction: Direction,
) -> Result<Framed<'a, A>, AllocError>
    requires { length octets.now ≤ given_by givers.now }
    ensures { IfOk result (λ framed. AreSplit framing direction givers.now octets.entry.now
        framed.messages.items framed.unshown) }
{
    let mut messages = Vec::new(alloc);
    let mut cursor = Cursor::new(givers);
    let mut place = 0;
    let mut passed_over = 0;
    loop {
        let left = octets.split_at(place).1;
        match front_of(framing, left) {
            None => {
                let rest = Rest::Short { count: left.len() };
                let unshown = Unshown { passed_over, rest };
                return Ok(Framed { messages, unshown });
            }
            Some(Front::PassedOver(refresh)) => {
                place += refresh.len();
                passed_over += 1;
            }
            Some(Front::Message(octets, kind)) => {
                messages.push(message_at(&mut cursor, direction, place, octets, Some(kind)))?;
                place += octets.len();
            }
            Some(Front::Fault(header, is_refresh)) => {
                messages.push(message_at(&mut cursor, direction, place, header, None))?;
                let rest = Rest::BehindFault {
                    place,
                    count: left.len() - header.len(),
                    is_refresh,
                };
                let unshown = Unshown { passed_over, rest };
                return Ok(Framed { messages, unshown });
            }
        }
    }
}
