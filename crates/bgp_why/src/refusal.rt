//! Why an OPEN has to be refused (RFC 4271, 6.2; RFC 6286, 2.2).

ghost use Rattle.std.specs.Prelude.{◌≡◌, ◌↔◌, IsTrue, IfSome, IfNone};
ghost use Rattle.bgp_open.specs.Open.{IsOpen, fixed_fields_of, open_of, version_of};
ghost use Rattle.bgp_open.specs.OpenFault.{IsReadable};
ghost use Rattle.bgp_open.specs.OpenSubcodes.{peer_as_of};
ghost use Rattle.bgp_open.specs.declared.config.Config.{Config as TheConfig};
ghost use Rattle.bgp_why.specs.Refusal.{AreFieldReasons, AreReasons, IsRefusedBy};

use bgp_open::{Config, Open, OpenFault, open_faults, read_fields, read_open};
use bgp_why_parts::offered_as_number;
use bgp_wire::{MessageType, message_body};

/// How many octets the fields have that are in every OPEN.
const FIXED_LEN: usize = 10; // version 1, AS 2, hold time 2, identifier 4, parameters' length 1

/// The fields of an OPEN that are at fault, each with what it says.
#[derive(Clone, Copy)]
pub struct FieldReasons {
    /// A parameter isn't of type 2, Capabilities.
    pub other_parameter: bool,
    /// The AS number that the peer says it has isn't the one that is configured.
    pub peer_as: Option<u32>,
    /// The AS number that is configured.
    pub configured_as: u32,
    /// The BGP Identifier is 0, or it is an internal peer's and that of the local system.
    pub identifier: Option<u32>,
    /// The Hold Time is 1 or 2 seconds.
    pub hold: Option<u16>,
}

/// Why an OPEN has to be refused.
#[derive(Clone, Copy)]
pub enum OpenReasons {
    /// It is of this version, which isn't 4, and nothing else of it is read.
    Version(u8),
    /// Its fields can't be read.
    Malformed,
    /// These fields are at fault.
    Fields(FieldReasons),
}

/// The fields that are in every OPEN, if the octets are a whole one.
fn fixed_fields(octets: &[u8]) -> Option<&[u8; FIXED_LEN]>
    ensures fields { IfSome result (λ fields. fields.now ≡ fixed_fields_of octets.entry.now) }
    ensures none { IfNone result (¬ IsOpen octets.entry.now) }
{
    let (fields, _) = message_body(MessageType::Open, octets)?.split_first_chunk::<FIXED_LEN>()?;
    Some(fields)
}

/// Version.
#[tactic(auto, unfolding(bgp_open::specs::Open::version_of))]
fn read_version(fields: &[u8; FIXED_LEN]) -> u8
    ensures { result ≡ version_of fields.now }
{
    fields[0]
}

/// The version of a whole OPEN; 0 of octets that are none.
fn version(octets: &[u8]) -> u8
    ensures { IsOpen octets.now → result ≡ version_of (fixed_fields_of octets.now) }
{
    match fixed_fields(octets) {
        Some(fields) => read_version(fields),
        None => 0,
    }
}

/// The AS number that a peer says it has (RFC 6793, 4.1).
fn peer_as(config: &Config, message: &Open<'_>) -> u32
    ensures { result ≡ peer_as_of config.now message.now }
{
    let my_as = u32::from(message.my_as());
    if config.parts.as4 {
        offered_as_number(message).unwrap_or(my_as)
    } else {
        my_as
    }
}

/// Whether an OPEN has to be refused by this subcode, whose data are free.
fn is_refused_by(config: &Config, octets: &[u8], subcode: u8) -> bool
    ensures { IsTrue result ↔ IsRefusedBy config.now octets.now subcode }
{
    open_faults(config, octets).must.contains(subcode, &[])
}

/// The fields of an OPEN that are at fault, which says this.
fn field_reasons(config: &Config, octets: &[u8], message: &Open<'_>) -> FieldReasons
    requires { message.now ≡ open_of octets.now }
    ensures { AreFieldReasons config.now octets.now result }
{
    FieldReasons {
        other_parameter: is_refused_by(config, octets, 4),
        peer_as: is_refused_by(config, octets, 2).then_some(peer_as(config, message)),
        configured_as: config.parts.peer_as,
        identifier: is_refused_by(config, octets, 3).then_some(message.id()),
        hold: is_refused_by(config, octets, 6).then_some(message.hold()),
    }
}

/// Why the fields of an OPEN can't be read.
#[tactic(auto, using(bgp_parts::proofs::ReadableOpen::readable_with_other))]
fn unreadable(octets: &[u8]) -> OpenReasons
    requires { ¬ IsReadable octets.now }
    ensures { (config : TheConfig) → AreReasons config octets.now result }
{
    match read_open(octets) {
        Err(OpenFault::Version) => OpenReasons::Version(version(octets)),
        Err(OpenFault::Malformed) => OpenReasons::Malformed,
        Err(OpenFault::Parameter) => unreachable!(),
        Ok(_) => unreachable!(),
    }
}

/// Why an OPEN has to be refused. If nothing in it is at fault, no field is named.
pub fn open_reasons(config: &Config, octets: &[u8]) -> OpenReasons
    ensures { AreReasons config.now octets.now result }
{
    match read_fields(octets) {
        Some(message) => OpenReasons::Fields(field_reasons(config, octets, &message)),
        None => unreadable(octets),
    }
}
