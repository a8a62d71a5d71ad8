//! The layout of a capture's records (RFC 6396, 2 to 4.4), as they are read.
//!
//! `specs/Layout.antt` draws it.

ghost use Rattle.std.specs.Prelude.{◌≡◌, ◌≢◌, ◌↔◌, ◌≤◌, ◌+◌, IsTrue, IfSome, IfNone, length};
ghost use Rattle.mrt.specs.Layout.{header_in, second_in, kind_in, subtype_in, count_in};
ghost use Rattle.mrt.specs.Layout.{IsBgp4mp, form_of, as_width, micro_in, afi_at, afi_in};
ghost use Rattle.mrt.specs.Layout.{address_len, address_in, LacksFields};
ghost use Rattle.mrt.specs.Layout.{old_state_in, new_state_in};
ghost use Rattle.mrt.specs.Found.{header_value, afi_number, AreFields};
ghost use Rattle.mrt.specs.Rules.{body_limit};

use crate::record::Endpoints;
use crate::types::{
    BGP4MP, BGP4MP_ET, MESSAGE, MESSAGE_ADDPATH, MESSAGE_AS4, MESSAGE_AS4_ADDPATH,
    MESSAGE_AS4_LOCAL, MESSAGE_AS4_LOCAL_ADDPATH, MESSAGE_LOCAL, MESSAGE_LOCAL_ADDPATH,
    STATE_CHANGE, STATE_CHANGE_AS4,
};
use bgp_prefix::{Address, Family, Seconds, Session};
use byteorder::{BigEndian, ByteOrder};

/// The octets of a record's header.
pub const HEADER: usize = 12;

/// The most octets of a body that is read, of any session: 48 before a message of 65535.
pub const LONGEST_BODY: usize = 65583;

/// The most octets of a body that is read of a session whose messages have at most 4096.
pub const PLAIN_BODY: usize = 8192;

/// The most octets of a body that is read of this session: more than [`PLAIN_BODY`] only where its
/// messages may be extended ones (RFC 8654).
#[tactic(auto, unfolding(crate::specs::Rules::body_limit))]
pub fn body_limit(session: &Session) -> usize
    ensures limit { result ≡ body_limit session.now }
    ensures least { PLAIN_BODY ≤ result }
    ensures most { result ≤ LONGEST_BODY }
{
    if session.extended {
        LONGEST_BODY
    } else {
        PLAIN_BODY
    }
}

/// The header of a record (RFC 6396, 2).
#[derive(Clone, Copy, Debug)]
pub struct RecordHeader {
    /// The second at which the record was made.
    pub second: Seconds,
    /// Its type.
    pub kind: u16,
    /// Its subtype.
    pub subtype: u16,
    /// How many octets its body has.
    pub count: u32,
}

/// Reads a record's header.
pub fn read_header(octets: &[u8; HEADER]) -> RecordHeader
    ensures { header_value result ≡ header_in octets.now }
{
    RecordHeader {
        second: read_second(octets),
        kind: read_kind(octets),
        subtype: read_subtype(octets),
        count: read_count(octets),
    }
}

#[tactic(auto, unfolding(crate::specs::Layout::second_in))]
fn read_second(octets: &[u8; HEADER]) -> u32
    ensures { result ≡ second_in octets.now }
{
    BigEndian::read_u32(octets.as_slice())
}

#[tactic(auto, unfolding(crate::specs::Layout::kind_in))]
fn read_kind(octets: &[u8; HEADER]) -> u16
    ensures { result ≡ kind_in octets.now }
{
    BigEndian::read_u16(&octets[4..])
}

#[tactic(auto, unfolding(crate::specs::Layout::subtype_in))]
fn read_subtype(octets: &[u8; HEADER]) -> u16
    ensures { result ≡ subtype_in octets.now }
{
    BigEndian::read_u16(&octets[6..])
}

#[tactic(auto, unfolding(crate::specs::Layout::count_in))]
fn read_count(octets: &[u8; HEADER]) -> u32
    ensures { result ≡ count_in octets.now }
{
    BigEndian::read_u32(&octets[8..])
}

/// Whether the type is BGP4MP or BGP4MP_ET.
pub fn is_bgp4mp(kind: u16) -> bool
    ensures { IsTrue result ↔ IsBgp4mp kind }
{
    kind == BGP4MP || kind == BGP4MP_ET
}

/// What a record is, by its subtype.
#[derive(Clone, Copy, Debug)]
pub enum Form {
    /// A change of state.
    Change,
    /// A message that was received.
    Received,
    /// A message that was sent.
    Sent,
    /// A message with ADD-PATH (RFC 8050, 3).
    AddPath,
}

/// What a record of this subtype is, if it is one of the known ones.
pub fn form_of(subtype: u16) -> Option<Form>
    ensures { result ≡ form_of subtype }
{
    match subtype {
        STATE_CHANGE | STATE_CHANGE_AS4 => Some(Form::Change),
        MESSAGE | MESSAGE_AS4 => Some(Form::Received),
        MESSAGE_LOCAL | MESSAGE_AS4_LOCAL => Some(Form::Sent),
        MESSAGE_ADDPATH | MESSAGE_AS4_ADDPATH | MESSAGE_LOCAL_ADDPATH | MESSAGE_AS4_LOCAL_ADDPATH =>
            Some(Form::AddPath),
        _ => None,
    }
}

/// How many octets an AS number takes in a record of this subtype.
fn as_width(subtype: u16) -> usize
    ensures { result ≡ as_width subtype }
{
    match subtype {
        MESSAGE_AS4
        | STATE_CHANGE_AS4
        | MESSAGE_AS4_LOCAL
        | MESSAGE_AS4_ADDPATH
        | MESSAGE_AS4_LOCAL_ADDPATH => 4,
        _ => 2,
    }
}

/// Where the AFI stands in a body.
fn afi_at(header: &RecordHeader) -> usize
    ensures { result ≡ afi_at (header_value header.now) }
{
    let microseconds = if header.kind == BGP4MP_ET { 4 } else { 0 };
    microseconds + 2 * as_width(header.subtype) + 2
}

/// Reads the AFI.
#[tactic(auto, unfolding(crate::specs::Layout::afi_in))]
fn read_afi(header: &RecordHeader, body: &[u8]) -> u16
    requires { afi_at (header_value header.now) + 2 ≤ length body.now }
    ensures { result ≡ afi_in (header_value header.now) body.now }
{
    BigEndian::read_u16(body.split_at(afi_at(header)).1)
}

/// The family of an AFI, if it is one of the two.
fn family_of(afi: u16) -> Option<Family>
    ensures some { IfSome result (λ family. afi ≡ afi_number family) }
    ensures none { IfNone result ((afi ≢ 1) × (afi ≢ 2)) }
{
    match afi {
        1 => Some(Family::V4),
        2 => Some(Family::V6),
        _ => None,
    }
}

/// How many octets an address of the family takes.
fn address_len(family: Family) -> usize
    ensures { result ≡ address_len (afi_number family) }
{
    match family {
        Family::V4 => 4,
        Family::V6 => 16,
    }
}

/// Reads the address at the front of the octets.
#[tactic(auto, unfolding(crate::specs::Layout::address_in))]
fn read_address(family: Family, octets: &[u8]) -> Address
    requires { address_len (afi_number family) ≤ length octets.now }
    ensures { result ≡ address_in (afi_number family) octets.now }
{
    match family {
        Family::V4 => Address::V4(BigEndian::read_u32(octets)),
        Family::V6 => Address::V6(BigEndian::read_u128(octets)),
    }
}

/// Reads the fraction of the second, where the type has microseconds.
#[tactic(auto, unfolding(crate::specs::Layout::micro_in))]
fn read_micro(header: &RecordHeader, body: &[u8]) -> Option<u32>
    requires { afi_at (header_value header.now) ≤ length body.now }
    ensures { result ≡ micro_in (header_value header.now) body.now }
{
    if header.kind != BGP4MP_ET {
        return None;
    }
    let number = BigEndian::read_u32(body);
    (number < 1_000_000).then_some(number)
}

/// What stands in a body before its content.
#[derive(Clone, Copy, Debug)]
pub struct Fields {
    /// The fraction of the record's second, in microseconds: below 1,000,000. None where the type
    /// is BGP4MP, or the number is no fraction.
    pub micro: Option<u32>,
    /// The addresses.
    pub ends: Endpoints,
    /// Where the content begins.
    pub content_at: usize,
}

/// Reads the fields of a body, if it has them.
pub fn read_fields(header: &RecordHeader, body: &[u8]) -> Option<Fields>
    ensures some { IfSome result (AreFields (header_value header.now) body.now) }
    ensures none { IfNone result (LacksFields (header_value header.now) body.now) }
{
    let at = afi_at(header);
    if body.len() < at + 2 {
        return None;
    }
    let family = family_of(read_afi(header, body))?;
    let count = address_len(family);
    if body.len() < at + 2 + 2 * count {
        return None;
    }
    Some(Fields {
        micro: read_micro(header, body),
        ends: Endpoints {
            peer: read_address(family, body.split_at(at + 2).1),
            local: read_address(family, body.split_at(at + 2 + count).1),
        },
        content_at: at + 2 + 2 * count,
    })
}

/// Reads the old state of a change.
#[tactic(auto, unfolding(crate::specs::Layout::old_state_in))]
pub(crate) fn read_old_state(content: &[u8]) -> u16
    requires { 4 ≤ length content.now }
    ensures { result ≡ old_state_in content.now }
{
    BigEndian::read_u16(content)
}

/// Reads the new state of a change.
#[tactic(auto, unfolding(crate::specs::Layout::new_state_in))]
pub(crate) fn read_new_state(content: &[u8]) -> u16
    requires { 4 ≤ length content.now }
    ensures { result ≡ new_state_in content.now }
{
    BigEndian::read_u16(content.split_at(2).1)
}
