//! The message header both ways (RFC 4271, 4.1), and which of its fields are at fault (6.1).
//!
//! ```text
//!  0                    16        18     19
//! +---------------------+---------+------+
//! | Marker: all 255     | Length  | Type |
//! +---------------------+---------+------+
//! ```

ghost use Rattle.std.specs.Prelude.{◌≡◌, ◌↔◌, ◌≤◌, ◌+◌, ◌^◌, ◌++◌, IsTrue, IsSome, IsNone};
ghost use Rattle.std.specs.Prelude.{IfSome, IfNone};
ghost use Rattle.std.specs.Prelude.{length, vec_len, vec_capacity};
ghost use Rattle.byteorder.specs.Endian.{big_bytes};
ghost use Rattle.bgp_wire.specs.Header.{header_of, header_octets, length_of, type_of};
ghost use Rattle.bgp_wire.specs.Header.{least_length, greatest_length, limit_with};
ghost use Rattle.bgp_wire.specs.Header.{IsSynchronized, IsBadLength, IsBadType};
ghost use Rattle.bgp_wire.specs.Verdict.{type_code, Names, IsEmpty, AreEachFault, IsEachFault};
ghost use Rattle.bgp_wire.specs.Verdict.{IsVerdict};
ghost use Rattle.bgp_wire.specs.Least.{IsLeastNamed};

use crate::error_code::ErrorCode;
use crate::named_fault::NamedFault;
use crate::octets::{put, put_u8, put_u16};
use byteorder::{BigEndian, ByteOrder};
use std::alloc::Allocator;

/// How many octets a message header has.
pub const HEADER_LEN: usize = 19; // marker 16, Length 2, Type 1

/// How many octets the marker has (RFC 4271, 4.1).
const MARKER_LEN: usize = 16;

/// Each octet of a marker: all ones.
const MARKER_OCTET: u8 = 255;

/// How long a message may be, its header included.
#[derive(Clone, Copy, Debug, PartialEq, Eq)]
pub enum Limit {
    /// At most 4096 octets, of every type (RFC 4271, 4.1).
    Plain,
    /// At most 65535 octets of an UPDATE or a NOTIFICATION, and 4096 of every other type, also of
    /// an unknown one (RFC 8654, 4).
    Extended,
}

impl Limit {
    /// The limit of messages that may be extended ones (RFC 8654, 4), or may not. Those that are
    /// received may where the local system offers that, those that are sent where the peer does.
    pub fn with_extended(extended: bool) -> Limit
        ensures { result ≡ limit_with extended }
    {
        if extended {
            Limit::Extended
        } else {
            Limit::Plain
        }
    }

    /// The greatest Length of a message of this type.
    pub fn greatest_length(self, kind: u8) -> u16
        ensures { result ≡ greatest_length self kind }
    {
        match self {
            Limit::Plain => 4096,
            Limit::Extended => match kind {
                2 | 3 => 65535, // UPDATE and NOTIFICATION
                _ => 4096,
            },
        }
    }
}

/// What kind of message a header announces, by its Type code (RFC 4271, 4.1).
#[derive(Clone, Copy, Debug, PartialEq, Eq)]
pub enum MessageType {
    Open = 1,
    Update = 2,
    Notification = 3,
    Keepalive = 4,
}

impl MessageType {
    /// The Type code.
    pub fn code(self) -> u8
        ensures { result ≡ type_code self }
    {
        self as u8
    }

    /// The kind of message that a Type code stands for, or `None` for a Bad Message Type.
    pub fn from_code(code: u8) -> Option<MessageType>
        ensures known { IfSome result (λ kind. type_code kind ≡ code) }
        ensures bad { IfNone result (IsBadType code) }
    {
        match code {
            1 => Some(MessageType::Open),
            2 => Some(MessageType::Update),
            3 => Some(MessageType::Notification),
            4 => Some(MessageType::Keepalive),
            _ => None,
        }
    }
}

/// The faults of one header, each by itself, with the data that a NOTIFICATION gives
/// (RFC 4271, 6.1). Where the marker is at fault, its data are free.
#[derive(Clone, Copy, Debug, PartialEq, Eq)]
pub struct HeaderFaults {
    /// Connection Not Synchronized (subcode 1): an octet of the marker isn't 255.
    pub marker: bool,
    /// Bad Message Length (subcode 2): the Length field, whose two octets are the data.
    pub length: Option<u16>,
    /// Bad Message Type (subcode 3): the Type field, whose octet is the data.
    pub kind: Option<u8>,
}

impl HeaderFaults {
    /// Whether no fault is in the set.
    pub fn is_empty(&self) -> bool
        ensures { IsTrue result ↔ IsEmpty self.now }
    {
        self.has_no_field()
    }

    /// Whether no field is at fault.
    fn has_no_field(&self) -> bool
        ensures { IsTrue result ↔ ((¬ IsTrue self.now.marker) × IsNone self.now.length
            × IsNone self.now.kind) }
    {
        !self.marker && self.length.is_none() && self.kind.is_none()
    }

    /// Whether a NOTIFICATION with this subcode of Message Header Error and these data names a
    /// fault of the set: with subcode 1 the data are free, with 2 and 3 they are the field's
    /// octets.
    pub fn contains(&self, subcode: u8, detail: &[u8]) -> bool
        ensures { IsTrue result ↔ Names self.now subcode detail.now }
    {
        match subcode {
            1 => self.marker,
            2 => self.length.is_some_and(|length| is_length(detail, length)),
            3 => self.kind.is_some_and(|kind| is_kind(detail, kind)),
            _ => false,
        }
    }

    /// The fault of the set with the least subcode: with the field's octets as data for subcodes 2
    /// and 3, and without data for 1. `None` where the set is empty.
    pub fn least(&self) -> Option<NamedFault>
        ensures some { IfSome result (λ fault. IsLeastNamed 1 (Names self.now) fault) }
        ensures none { IfNone result (IsEmpty self.now) }
    {
        let code = ErrorCode::MessageHeader.code();
        if self.marker {
            return Some(NamedFault::new(code, 1, &[]));
        }
        if let Some(length) = self.length {
            let mut octets = [0; 2];
            BigEndian::write_u16(&mut octets, length);
            return Some(NamedFault::new(code, 2, &octets));
        }
        let kind = self.kind?;
        Some(NamedFault::new(code, 3, &[kind]))
    }
}

/// Whether the data are these two octets of a Length field.
fn is_length(detail: &[u8], length: u16) -> bool
    ensures { IsTrue result ↔ (detail.now ≡ big_bytes 2 length) }
{
    let mut octets = [0; 2];
    BigEndian::write_u16(&mut octets, length);
    detail == octets.as_slice()
}

/// Whether the data are this octet of a Type field.
fn is_kind(detail: &[u8], kind: u8) -> bool
    ensures { IsTrue result ↔ (detail.now ≡ big_bytes 1 kind) }
{
    detail.len() == 1 && detail[0] == kind
}

/// What a check of a header answers.
#[derive(Clone, Copy, Debug, PartialEq, Eq)]
pub enum HeaderVerdict {
    /// A sound header, without a fault: its Length, which is the count of the whole message's
    /// octets, and its type. Nothing is said of the octets behind it.
    Whole(u16, MessageType),
    /// The set of all faults, at least one.
    Faulty(HeaderFaults),
}

/// The header at the front of the octets, faulty or not: `None` where they are fewer than 19.
pub fn header_at(octets: &[u8]) -> Option<&[u8; HEADER_LEN]>
    ensures some { IfSome result (λ header. header.now ≡ header_of octets.entry.now) }
    ensures whole { IsSome result ↔ (19 ≤ length octets.entry.now) }
{
    octets.first_chunk::<HEADER_LEN>()
}

/// The Length field.
#[tactic(auto, unfolding(crate::specs::Header::length_of))]
pub(crate) fn read_length(header: &[u8; HEADER_LEN]) -> u16
    ensures { result ≡ length_of header.now }
{
    BigEndian::read_u16(&header[MARKER_LEN..])
}

/// The Type field of a header, whether it is faulty or not.
#[tactic(auto, unfolding(crate::specs::Header::type_of))]
pub fn read_type(header: &[u8; HEADER_LEN]) -> u8
    ensures { result ≡ type_of header.now }
{
    header[18]
}

/// Whether all octets of the marker are 255. They are looked at as two numbers of eight octets.
pub(crate) fn is_synchronized(header: &[u8; HEADER_LEN]) -> bool
    ensures { IsTrue result ↔ IsSynchronized header.now }
{
    is_greatest(BigEndian::read_u64(header)) && is_greatest(BigEndian::read_u64(&header[8..]))
}

/// Whether all octets of a number are 255.
fn is_greatest(number: u64) -> bool
    ensures { IsTrue result ↔ (number + 1 ≡ 256 ^ 8) }
{
    number == u64::MAX
}

/// The least Length of a message of this type: that of its fixed fields.
fn least_length_of(kind: u8) -> u16
    ensures { result ≡ least_length kind }
{
    match kind {
        1 => 29, // header 19, version 1, AS 2, hold time 2, identifier 4, parameters' length 1
        2 => 23, // header 19, length of withdrawn routes 2, length of path attributes 2
        3 => 21, // header 19, code 1, subcode 1
        _ => 19, // header 19
    }
}

fn is_bad_length(limit: Limit, kind: u8, length: u16) -> bool
    ensures { IsTrue result ↔ IsBadLength limit kind length }
{
    length < least_length_of(kind)
        || limit.greatest_length(kind) < length
        || (kind == 4 && length != 19)
}

/// The faults of a header, each by itself.
fn faults_of(header: &[u8; HEADER_LEN], limit: Limit) -> HeaderFaults
    ensures { AreEachFault limit header.now result }
{
    let kind = read_type(header);
    let length = read_length(header);
    HeaderFaults {
        marker: !is_synchronized(header),
        length: is_bad_length(limit, kind, length).then_some(length),
        kind: MessageType::from_code(kind).is_none().then_some(kind),
    }
}

/// Checks a message's header against RFC 4271, 6.1: answers its Length and type where nothing is
/// wrong, and else the set of all its faults, any of which a NOTIFICATION may name.
pub fn check_header(header: &[u8; HEADER_LEN], limit: Limit) -> HeaderVerdict
    ensures verdict { IsVerdict limit header.now result }
    ensures each { IsEachFault limit header.now result }
{
    let faults = faults_of(header, limit);
    let Some(kind) = MessageType::from_code(read_type(header)) else {
        return HeaderVerdict::Faulty(faults);
    };
    if faults.is_empty() {
        HeaderVerdict::Whole(read_length(header), kind)
    } else {
        HeaderVerdict::Faulty(faults)
    }
}

/// Appends the header of a message of this type and of `length` octets, for which there is room.
#[tactic(auto, unfolding(crate::specs::Header::header_octets))]
pub fn put_header<A: Allocator>(out: &mut Vec<u8, A>, kind: MessageType, length: u16)
    requires { vec_len out.old + 19 ≤ vec_capacity out.old }
    ensures items { out.new.items ≡ out.old.items ++ header_octets (type_code kind) length }
    ensures len { vec_len out.new ≡ vec_len out.old + 19 }
    ensures capacity { vec_capacity out.old ≤ vec_capacity out.new }
{
    put(out, &[MARKER_OCTET; MARKER_LEN]);
    put_u16(out, length);
    put_u8(out, kind.code());
}
