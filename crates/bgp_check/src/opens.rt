//! Both OPENs of a session's records.

ghost use Rattle.std.specs.Prelude.{◌≡◌, ◌↔◌, IsTrue, IfSome, IfNone, map, option_map};
ghost use Rattle.bgp_open.specs.Open.{IsOpen};
ghost use Rattle.bgp_open.specs.OpenFault.{IsWellFormed};
ghost use Rattle.mrt.specs.Reader.{shown_of};
ghost use Rattle.bgp_parts.specs.Opens.{HasHeardOpen, HasOwnOpen, HasPeersOpen, HasWholeOpen};
ghost use Rattle.bgp_parts.specs.Opens.{IsOpenMessage, IsReceived, IsSent, ReceivesNone};
ghost use Rattle.bgp_parts.specs.Opens.{SendsNone};

use bgp_open::read_open;
use bgp_wire::{HeaderVerdict, Limit, MessageType, check_header, header_at, message_body};
use mrt::Record;

/// How many octets the fields have that are in every OPEN.
const FIXED_LEN: usize = 10; // version 1, AS 2, hold time 2, identifier 4, parameters' length 1

/// Whether the type is that of an OPEN.
fn is_open(kind: MessageType) -> bool
    ensures { IsTrue result ↔ (kind ≡ MessageType.Open) }
{
    matches!(kind, MessageType::Open)
}

/// Whether a header without a fault announces an OPEN.
fn is_open_message(octets: &[u8]) -> bool
    ensures { IsTrue result ↔ IsOpenMessage octets.now }
{
    let Some(header) = header_at(octets) else {
        return false;
    };
    match check_header(header, Limit::Plain) {
        HeaderVerdict::Whole(_, kind) => is_open(kind),
        HeaderVerdict::Faulty(_) => false,
    }
}

/// Whether the octets are a whole and well-formed OPEN.
fn is_well_formed(octets: &[u8]) -> bool
    ensures { IsTrue result ↔ IsWellFormed octets.now }
{
    read_open(octets).is_ok()
}

/// The octets of a well-formed OPEN that the record shows as sent.
fn sent_open(shown: Record<'_>) -> Option<&[u8]>
    ensures some { IfSome result (λ own. IsSent IsWellFormed (shown_of shown.entry) own.now) }
    ensures none { IfNone result (SendsNone IsWellFormed (shown_of shown.entry)) }
    ensures well_formed { IfSome result (λ own. IsWellFormed own.now) }
{
    match shown {
        Record::Out(_, octets) if is_well_formed(octets) => Some(octets),
        _ => None,
    }
}

/// The own OPEN of a session's records: of the messages sent the first that is a whole and
/// well-formed one.
pub fn own_open<'a>(records: &[Record<'a>]) -> Option<&'a [u8]>
    ensures first { HasOwnOpen (map shown_of records.now) (option_map (λ own. own.now) result) }
    ensures well_formed { IfSome result (λ own. IsWellFormed own.now) }
{
    for record in records {
        match sent_open(*record) {
            Some(octets) => return Some(octets),
            None => {}
        }
    }
    None
}

/// Whether the octets are a whole OPEN, well-formed or not.
fn is_whole_open(octets: &[u8]) -> bool
    ensures { IsTrue result ↔ IsOpen octets.now }
{
    match message_body(MessageType::Open, octets) {
        Some(body) => body.len() >= FIXED_LEN,
        None => false,
    }
}

/// The octets of a whole OPEN that the record shows as sent.
fn sent_whole_open(shown: Record<'_>) -> Option<&[u8]>
    ensures some { IfSome result (λ whole. IsSent IsOpen (shown_of shown.entry) whole.now) }
    ensures none { IfNone result (SendsNone IsOpen (shown_of shown.entry)) }
{
    match shown {
        Record::Out(_, octets) if is_whole_open(octets) => Some(octets),
        _ => None,
    }
}

/// The first whole OPEN that is sent, well-formed or not.
pub(crate) fn whole_open<'a>(records: &[Record<'a>]) -> Option<&'a [u8]>
    ensures { HasWholeOpen (map shown_of records.now) (option_map (λ whole. whole.now) result) }
{
    for record in records {
        match sent_whole_open(*record) {
            Some(octets) => return Some(octets),
            None => {}
        }
    }
    None
}

/// The octets of a message that the record shows as received, if a header without a fault announces
/// an OPEN.
fn received_open(shown: Record<'_>) -> Option<&[u8]>
    ensures some { IfSome result (λ peers.
        IsReceived IsOpenMessage (shown_of shown.entry) peers.now) }
    ensures none { IfNone result (ReceivesNone IsOpenMessage (shown_of shown.entry)) }
{
    match shown {
        Record::In(_, octets) if is_open_message(octets) => Some(octets),
        _ => None,
    }
}

/// The peer's OPEN of a session's records: of the messages received the first that a header without
/// a fault announces as one, whatever its fields say.
pub fn peers_open<'a>(records: &[Record<'a>]) -> Option<&'a [u8]>
    ensures { HasPeersOpen (map shown_of records.now) (option_map (λ peers. peers.now) result) }
{
    for record in records {
        match received_open(*record) {
            Some(octets) => return Some(octets),
            None => {}
        }
    }
    None
}

/// The octets of a well-formed OPEN that the record shows as received.
fn heard_in(shown: Record<'_>) -> Option<&[u8]>
    ensures some { IfSome result (λ heard.
        IsReceived IsWellFormed (shown_of shown.entry) heard.now) }
    ensures none { IfNone result (ReceivesNone IsWellFormed (shown_of shown.entry)) }
    ensures well_formed { IfSome result (λ heard. IsWellFormed heard.now) }
{
    match shown {
        Record::In(_, octets) if is_well_formed(octets) => Some(octets),
        _ => None,
    }
}

/// The OPEN that is heard in a session's records: of the messages received the first that is a
/// whole and well-formed one.
pub fn heard_open<'a>(records: &[Record<'a>]) -> Option<&'a [u8]>
    ensures first { HasHeardOpen (map shown_of records.now)
        (option_map (λ heard. heard.now) result) }
    ensures well_formed { IfSome result (λ heard. IsWellFormed heard.now) }
{
    for record in records {
        match heard_in(*record) {
            Some(octets) => return Some(octets),
            None => {}
        }
    }
    None
}
