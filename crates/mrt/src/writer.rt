//! Records of a capture, as they are written (RFC 6396, 2 and 4.4).

ghost use Rattle.std.specs.Prelude.{◌≡◌, ◌<◌, ◌≤◌, ◌+◌, ◌++◌, ◌↔◌, OnOk, OnErr, IsTrue};
ghost use Rattle.std.specs.Prelude.{is_ok, length};
ghost use Rattle.std.specs.Prelude.{if◌then◌else◌};
ghost use Rattle.byteorder.specs.Endian.{big_bytes};
ghost use Rattle.bgp_prefix.specs.Shown.{second_of};
ghost use Rattle.mrt.specs.Failures.{failures_after};
ghost use Rattle.mrt.specs.Sink.{TakesBeginning};
ghost use Rattle.mrt.specs.Reader.{shown_of};
ghost use Rattle.mrt.specs.Written.{header_octets, number_octets, address_octets, afi_for};
ghost use Rattle.mrt.specs.Written.{content_for, subtype_for, behind_numbers, body_len};
ghost use Rattle.mrt.specs.Written.{record_octets, IsWritable};
ghost use Rattle.mrt.specs.Rules.{body_limit};

use crate::failure::Failed;
use crate::layout::{LONGEST_BODY, body_limit};
use crate::record::Record;
use crate::sink::{Sink, write_all};
use crate::types::{BGP4MP, MESSAGE_AS4, MESSAGE_AS4_LOCAL, STATE_CHANGE_AS4};
use bgp_prefix::{Address, Seconds, Session};
use byteorder::{BigEndian, ByteOrder};
use thiserror::Error;

/// The octets of a body before the addresses.
const NUMBERS: usize = 12;

/// Why a record isn't written.
#[derive(Clone, Copy, Debug, PartialEq, Eq, Error)]
pub enum WriteFault {
    /// The sink failed.
    #[error("the record can't be written")]
    Device = 1,
}

/// The header of a record.
#[tactic(auto, unfolding(crate::specs::Written::header_octets))]
fn header_of(second: Seconds, subtype: u16, count: u32) -> [u8; 12]
    ensures { result ≡ header_octets second subtype count }
{
    let mut octets = [0; 12];
    BigEndian::write_u32(&mut octets, second);
    BigEndian::write_u16(&mut octets[4..], BGP4MP);
    BigEndian::write_u16(&mut octets[6..], subtype);
    BigEndian::write_u32(&mut octets[8..], count);
    octets
}

/// The numbers before the addresses.
#[tactic(auto, unfolding(crate::specs::Written::number_octets))]
fn numbers_of(peer_as: u32, local_as: u32, afi: u16) -> [u8; 12]
    ensures { result ≡ number_octets peer_as local_as afi }
{
    let mut octets = [0; 12];
    BigEndian::write_u32(&mut octets, peer_as);
    BigEndian::write_u32(&mut octets[4..], local_as);
    BigEndian::write_u16(&mut octets[10..], afi);
    octets
}

/// The AFI of an address.
fn afi_of(address: Address) -> u16
    ensures { result ≡ afi_for address }
{
    match address {
        Address::V4(_) => 1,
        Address::V6(_) => 2,
    }
}

/// Writes an address.
fn write_address<W: Sink>(sink: &mut W, address: Address) -> Result<(), Failed>
    requires { W.failures sink.old < u64.MAX }
    ensures ok { OnOk result (W.takes sink.old sink.new (address_octets address)) }
    ensures err { OnErr result (TakesBeginning W.takes sink.old sink.new (address_octets address)) }
    ensures failures { W.failures sink.new ≡ failures_after (W.failures sink.old) result }
{
    match address {
        Address::V4(number) => {
            let mut octets = [0; 4];
            BigEndian::write_u32(&mut octets, number);
            write_all(sink, &octets)
        }
        Address::V6(number) => {
            let mut octets = [0; 16];
            BigEndian::write_u128(&mut octets, number);
            write_all(sink, &octets)
        }
    }
}

/// How many octets an address takes.
fn address_len(address: Address) -> usize
    ensures { result ≡ length (address_octets address) }
{
    match address {
        Address::V4(_) => 4,
        Address::V6(_) => 16,
    }
}

/// The two states of a change.
fn states_of(old: u16, new: u16) -> [u8; 4]
    ensures { result ≡ big_bytes 2 old ++ big_bytes 2 new }
{
    let mut octets = [0; 4];
    BigEndian::write_u16(&mut octets, old);
    BigEndian::write_u16(&mut octets[2..], new);
    octets
}

/// The second, the subtype and the count of a record's content.
fn parts_of(shown: &Record<'_>) -> (Seconds, u16, usize)
    ensures second { result.0 ≡ second_of (shown_of shown.now) }
    ensures subtype { result.1 ≡ subtype_for (shown_of shown.now) }
    ensures count { result.2 ≡ length (content_for (shown_of shown.now)) }
{
    match shown {
        Record::In(second, message) => (*second, MESSAGE_AS4, message.len()),
        Record::Out(second, message) => (*second, MESSAGE_AS4_LOCAL, message.len()),
        Record::Change(second, _, _) => (*second, STATE_CHANGE_AS4, 4),
    }
}

/// Writes the content of a record: the message as it stands, or two states.
fn write_content<W: Sink>(sink: &mut W, shown: &Record<'_>) -> Result<(), Failed>
    requires { W.failures sink.old < u64.MAX }
    ensures ok { OnOk result (W.takes sink.old sink.new (content_for (shown_of shown.now))) }
    ensures err { OnErr result
        (TakesBeginning W.takes sink.old sink.new (content_for (shown_of shown.now))) }
    ensures failures { W.failures sink.new ≡ failures_after (W.failures sink.old) result }
{
    match shown {
        Record::In(_, message) | Record::Out(_, message) => write_all(sink, message),
        Record::Change(_, old, new) => write_all(sink, &states_of(*old, *new)),
    }
}

/// Writes the addresses and the content of a record.
fn write_behind_numbers<W: Sink>(
    sink: &mut W,
    session: &Session,
    shown: &Record<'_>,
) -> Result<(), Failed>
    requires { W.failures sink.old < u64.MAX }
    ensures ok { OnOk result (W.takes sink.old sink.new
        (behind_numbers session.now (shown_of shown.now))) }
    ensures err { OnErr result (TakesBeginning W.takes sink.old sink.new
        (behind_numbers session.now (shown_of shown.now))) }
    ensures failures { W.failures sink.new ≡ failures_after (W.failures sink.old) result }
{
    write_address(sink, session.peer)?;
    write_address(sink, session.local)?;
    write_content(sink, shown)
}

/// How many octets a body has, whose content has so many.
fn count_of(session: &Session, content: usize) -> u32
    requires { content ≤ LONGEST_BODY }
    ensures { result ≡ 12 + (length (address_octets session.now.peer)
        + (length (address_octets session.now.local) + content)) }
{
    (NUMBERS + address_len(session.peer) + address_len(session.local) + content) as u32
}

/// Writes the parts of a record, one after another.
fn write_parts<W: Sink>(
    sink: &mut W,
    session: &Session,
    peer_as: u32,
    local_as: u32,
    shown: &Record<'_>,
) -> Result<(), Failed>
    requires failures { W.failures sink.old < u64.MAX }
    requires short { body_len session.now (shown_of shown.now) ≤ body_limit session.now }
    ensures ok { OnOk result (W.takes sink.old sink.new
        (record_octets session.now peer_as local_as (shown_of shown.now))) }
    ensures err { OnErr result (TakesBeginning W.takes sink.old sink.new
        (record_octets session.now peer_as local_as (shown_of shown.now))) }
    ensures failures { W.failures sink.new ≡ failures_after (W.failures sink.old) result }
{
    let (second, subtype, content) = parts_of(shown);
    let count = count_of(session, content);
    write_all(sink, &header_of(second, subtype, count))?;
    write_all(sink, &numbers_of(peer_as, local_as, afi_of(session.peer)))?;
    write_behind_numbers(sink, session, shown)
}

/// Whether a record can be written: both addresses are of one family, and the record's body has at
/// most [`PLAIN_BODY`](crate::PLAIN_BODY) octets, or [`LONGEST_BODY`] where the session's messages
/// may be extended ones (RFC 8654).
pub fn is_writable(session: &Session, shown: &Record<'_>) -> bool
    ensures { IsTrue result ↔ IsWritable session.now (shown_of shown.now) }
{
    if session.peer.family() != session.local.family() {
        return false;
    }
    let content = parts_of(shown).2;
    let room = body_limit(session) - NUMBERS;
    content <= room - address_len(session.peer) - address_len(session.local)
}

/// Writes one record of a session between these AS numbers, of type BGP4MP, with four-octet AS
/// numbers and interface index 0. It takes no memory.
///
/// It needs that the record can be written ([`is_writable`]). After a fault a beginning of the
/// record was written.
pub fn write_record<W: Sink>(
    sink: &mut W,
    session: &Session,
    peer_as: u32,
    local_as: u32,
    shown: &Record<'_>,
) -> Result<(), WriteFault>
    requires failures { W.failures sink.old < u64.MAX }
    requires writable { IsWritable session.now (shown_of shown.now) }
    ensures ok { OnOk result (W.takes sink.old sink.new
        (record_octets session.now peer_as local_as (shown_of shown.now))) }
    ensures err { OnErr result (TakesBeginning W.takes sink.old sink.new
        (record_octets session.now peer_as local_as (shown_of shown.now))) }

    // It fails exactly where the sink failed.
    ensures failures { W.failures sink.new
        ≡ (if is_ok result then W.failures sink.old else W.failures sink.old + 1) }
{
    match write_parts(sink, session, peer_as, local_as, shown) {
        Ok(()) => Ok(()),
        Err(_) => Err(WriteFault::Device),
    }
}
