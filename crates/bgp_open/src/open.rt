//! OPEN messages (RFC 4271, 4.2).
//!
//! ```text
//!  0         1       3           5                9              10
//! +---------+-------+-----------+----------------+--------------+------------+
//! | Version | My AS | Hold Time | BGP Identifier | Parm. Length | Parameters |
//! +---------+-------+-----------+----------------+--------------+------------+
//! ```

ghost use Rattle.std.specs.Prelude.{◌≡◌, ◌≢◌, ◌↔◌, IsTrue, IfOk, IfErr, IfSome, IfNone, take, drop};
ghost use Rattle.bgp_open.specs.Open.{IsOpen, fixed_fields_of, parameters_of, open_of};
ghost use Rattle.bgp_open.specs.Open.{version_of, my_as_of, hold_of, id_of, parameters_length_of};
ghost use Rattle.bgp_open.specs.OpenFault.{AreAllCapabilities, IsReadable};
ghost use Rattle.bgp_open.specs.OpenFault.{IsWellFormed, IsAnswered};

use crate::capability::Capabilities;
use crate::fault::OpenFault;
use crate::parameters::{are_all_capabilities, are_parameters};
use bgp_wire::{MessageType, message_body};
use byteorder::{BigEndian, ByteOrder};
use std::marker::Model;

/// How many octets the fields have that are in every OPEN.
const FIXED_LEN: usize = 10; // version 1, AS 2, hold time 2, identifier 4, parameters' length 1

/// The only version of BGP that is spoken here.
pub(crate) const VERSION: u8 = 4;

/// Version.
#[tactic(auto, unfolding(crate::specs::Open::version_of))]
fn read_version(fields: &[u8; FIXED_LEN]) -> u8
    ensures { result ≡ version_of fields.now }
{
    fields[0]
}

/// My Autonomous System.
#[tactic(auto, unfolding(crate::specs::Open::my_as_of))]
fn read_my_as(fields: &[u8; FIXED_LEN]) -> u16
    ensures { result ≡ my_as_of fields.now }
{
    BigEndian::read_u16(&fields[1..])
}

/// Hold Time, in seconds.
#[tactic(auto, unfolding(crate::specs::Open::hold_of))]
fn read_hold(fields: &[u8; FIXED_LEN]) -> u16
    ensures { result ≡ hold_of fields.now }
{
    BigEndian::read_u16(&fields[3..])
}

/// BGP Identifier.
#[tactic(auto, unfolding(crate::specs::Open::id_of))]
fn read_id(fields: &[u8; FIXED_LEN]) -> u32
    ensures { result ≡ id_of fields.now }
{
    BigEndian::read_u32(&fields[5..])
}

/// Optional Parameters Length.
#[tactic(auto, unfolding(crate::specs::Open::parameters_length_of))]
fn read_parameters_length(fields: &[u8; FIXED_LEN]) -> u8
    ensures { result ≡ parameters_length_of fields.now }
{
    fields[9]
}

/// The fixed fields and the parameters of a whole OPEN.
fn open_parts(octets: &[u8]) -> Option<(&[u8; FIXED_LEN], &[u8])>
    ensures whole { IfSome result (λ parts. IsOpen octets.entry.now) }
    ensures fields { IfSome result (λ parts. parts.0.now ≡ fixed_fields_of octets.entry.now) }
    ensures parameters { IfSome result (λ parts. parts.1.now ≡ parameters_of octets.entry.now) }
    ensures none { IfNone result (¬ IsOpen octets.entry.now) }
{
    message_body(MessageType::Open, octets)?.split_first_chunk::<FIXED_LEN>()
}

/// The fields of an OPEN of version 4. Contracts see it as these fields and a list of capabilities.
#[derive(Debug, Drop)]
pub struct Open<'a> {
    my_as: u16,
    hold: u16,
    id: u32,
    parameters: &'a [u8],
}

impl<'a> Model for Open<'a> {
    ghost use Rattle.bgp_open.specs.Open.{OpenFields, capabilities_of};

    ghost Value = { OpenFields };

    ghost view = { λ s. record {
      my_as = s.my_as;
      hold = s.hold;
      id = s.id;
      capabilities = capabilities_of s.parameters.now;
    } };
}

impl<'a> Open<'a> {
    /// Returns My Autonomous System as it was sent. A speaker whose AS number has more than two
    /// octets sends 23456 (RFC 6793, 3 and 9).
    pub fn my_as(&self) -> u16
        ensures { result ≡ self.now.my_as }
    {
        self.my_as
    }

    /// Returns the Hold Time that the speaker proposes, in seconds.
    pub fn hold(&self) -> u16
        ensures { result ≡ self.now.hold }
    {
        self.hold
    }

    /// Returns the speaker's BGP Identifier.
    pub fn id(&self) -> u32
        ensures { result ≡ self.now.id }
    {
        self.id
    }

    /// Returns the capabilities in all parameters, in order.
    pub fn caps(&self) -> Capabilities<'a>
        ensures { result ≡ self.now.capabilities }
    {
        Capabilities::new(self.parameters)
    }
}

/// An OPEN whose fields can be told, and whether all its parameters are of type 2.
#[derive(Drop)]
pub(crate) struct ReadableOpen<'a> {
    pub(crate) message: Open<'a>,
    pub(crate) has_capabilities_alone: bool,
}

/// Reads an OPEN of version 4 whose parameters are whole, of whatever types they are.
pub(crate) fn read_readable(octets: &[u8]) -> Result<ReadableOpen<'_>, OpenFault>
    ensures ok { IfOk result (λ readable. IsReadable octets.entry.now) }
    ensures open { IfOk result (λ readable. readable.message ≡ open_of octets.entry.now) }
    ensures types { IfOk result (λ readable. IsTrue readable.has_capabilities_alone
        ↔ AreAllCapabilities (parameters_of octets.entry.now)) }
    ensures err { IfErr result (λ fault. IsAnswered octets.entry.now fault) }
    ensures never { IfErr result (λ fault. fault ≢ OpenFault.Parameter) }
{
    let Some((fields, parameters)) = open_parts(octets) else {
        return Err(OpenFault::Malformed);
    };
    // Unsupported Version Number (RFC 4271, 6.2).
    if read_version(fields) != VERSION {
        return Err(OpenFault::Version);
    }
    if usize::from(read_parameters_length(fields)) != parameters.len() {
        return Err(OpenFault::Malformed);
    }
    // A recognized parameter that is malformed (RFC 4271, 6.2), and any that runs over.
    if !are_parameters(parameters) {
        return Err(OpenFault::Malformed);
    }
    Ok(ReadableOpen {
        message: Open {
            my_as: read_my_as(fields),
            hold: read_hold(fields),
            id: read_id(fields),
            parameters,
        },
        has_capabilities_alone: are_all_capabilities(parameters),
    })
}

/// Reads the fields of a readable OPEN: its version is 4, and its parameters are whole. Returns
/// `None` for other octets.
///
/// A readable OPEN may still have to be refused, for a parameter of another type or for what its
/// fields say ([`open_faults`](crate::open_faults)). So whoever describes an OPEN reads it with
/// this function: [`RouteOffer::of`](crate::RouteOffer::of), a reason, `check`, an import. Who
/// takes part in a session reads it with [`read_open`].
pub fn read_fields(octets: &[u8]) -> Option<Open<'_>>
    ensures some { IfSome result (λ message. IsReadable octets.entry.now) }
    ensures open { IfSome result (λ message. message ≡ open_of octets.entry.now) }
    ensures none { IfNone result (¬ IsReadable octets.entry.now) }
{
    match read_readable(octets) {
        Ok(readable) => Some(readable.message),
        Err(_) => None,
    }
}

/// Reads a whole OPEN message. Octets that aren't one are malformed. If there are several faults,
/// it returns the least. Only a version other than 4 comes before all others, since nothing else is
/// known about such a message.
pub fn read_open(octets: &[u8]) -> Result<Open<'_>, OpenFault>
    ensures open { IfOk result (λ message. message ≡ open_of octets.entry.now) }
    ensures ok { IfOk result (λ message. IsWellFormed octets.entry.now) }
    ensures err { IfErr result (λ fault. IsAnswered octets.entry.now fault) }
{
    let readable = read_readable(octets)?;
    // Unsupported Optional Parameter (RFC 4271, 6.2): only capabilities are known here.
    if !readable.has_capabilities_alone {
        return Err(OpenFault::Parameter);
    }
    Ok(readable.message)
}
