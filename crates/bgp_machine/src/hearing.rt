//! What a received message is, as the machine's rows tell messages apart (RFC 4271, 6.1, 6.2 and
//! 8.1.5).

ghost use Rattle.std.specs.Prelude.{◌≡◌, ◌↔◌, IsTrue};
ghost use Rattle.bgp_machine.specs.Heard.{Hears, Announces, IsBadVersion, received_limit};
ghost use Rattle.bgp_wire.specs.Verdict.{type_code};

use bgp_open::{
    Config, Link, OpenSubcodes, negotiate, one_fault, open_faults, read_notification, read_open,
};
use bgp_wire::{
    ErrorCode, HeaderFaults, HeaderVerdict, Limit, MessageType, check_header, header_at,
};

/// What a received message is.
#[derive(Clone, Copy, Debug, PartialEq, Eq)]
pub enum Heard {
    /// Fewer octets than a header has.
    TooShort,
    /// An OPEN that need not be refused: what both OPENs settle, and what it may be refused for all
    /// the same.
    ValidOpen(Link, OpenSubcodes),
    /// A message whose header has these faults.
    FaultyHeader(HeaderFaults),
    /// An OPEN that has to be refused: what it may be refused for.
    InvalidOpen(OpenSubcodes),
    /// The NOTIFICATION Unsupported Version Number.
    BadVersion,
    /// Another NOTIFICATION.
    Notification,
    /// A KEEPALIVE.
    Keepalive,
    /// An UPDATE.
    Update,
}

/// An OPEN is heard.
fn hear_open(config: &Config, octets: &[u8]) -> Heard
    requires { Announces config.now 1 octets.now }
    ensures { Hears config.now octets.now result }
{
    let faults = open_faults(config, octets);
    let subcodes = faults.must.union(faults.may);
    if !faults.must.is_empty() {
        return Heard::InvalidOpen(subcodes);
    }
    match read_open(octets) {
        Ok(message) => Heard::ValidOpen(negotiate(config, &message), subcodes),
        // A valid OPEN is well-formed.
        Err(_) => {
            one_fault();
            unreachable!()
        }
    }
}

/// Whether it is the NOTIFICATION Unsupported Version Number.
fn is_bad_version(octets: &[u8]) -> bool
    ensures { IsTrue result ↔ IsBadVersion octets.now }
{
    let Some(notification) = read_notification(octets) else {
        return false;
    };
    notification.code == ErrorCode::OpenMessage.code() && notification.subcode == 1
}

/// A message of a type is heard.
fn hear_type(config: &Config, octets: &[u8], kind: MessageType) -> Heard
    requires { Announces config.now (type_code kind) octets.now }
    ensures { Hears config.now octets.now result }
{
    match kind {
        MessageType::Open => hear_open(config, octets),
        MessageType::Update => Heard::Update,
        MessageType::Keepalive => Heard::Keepalive,
        MessageType::Notification => {
            if is_bad_version(octets) {
                Heard::BadVersion
            } else {
                Heard::Notification
            }
        }
    }
}

/// Returns how long a message may be that the local system receives, in every state: as long as an
/// extended one if it offers those (RFC 8654, 4), whatever the peer offers.
pub fn received_limit(config: &Config) -> Limit
    ensures { result ≡ received_limit config.now }
{
    Limit::with_extended(config.parts.session.extended)
}

/// Returns what octets are heard as. It takes no memory.
pub fn hear(config: &Config, octets: &[u8]) -> Heard
    ensures { Hears config.now octets.now result }
{
    let Some(header) = header_at(octets) else {
        return Heard::TooShort;
    };
    match check_header(header, received_limit(config)) {
        HeaderVerdict::Faulty(faults) => Heard::FaultyHeader(faults),
        HeaderVerdict::Whole(_, kind) => hear_type(config, octets, kind),
    }
}
