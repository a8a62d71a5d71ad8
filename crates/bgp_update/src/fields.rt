//! The three fields of an UPDATE (RFC 4271, 4.3).
//!
//! ```text
//! Withdrawn Routes Length 2 | Withdrawn Routes
//! Total Path Attribute Length 2 | Path Attributes
//! Network Layer Reachability Information, to the end
//! ```

ghost use Rattle.std.specs.Prelude.{◌≡◌, ◌↔◌, IsTrue, IfSome, IfNone};
ghost use Rattle.bgp_update.specs.Counted.{IsCounted, LacksCounted};
ghost use Rattle.bgp_update.specs.Fields.{sections_of};
ghost use Rattle.bgp_update.specs.Sections.{IsUpdate, IsMalformed};

use bgp_attr::{MessageType, message_body};
use byteorder::{BigEndian, ByteOrder};

/// The octets of the fields.
#[derive(Clone, Copy, Debug, PartialEq, Eq)]
pub struct Fields<'a> {
    /// The Withdrawn Routes field.
    pub withdrawn: &'a [u8],
    /// The Path Attributes field.
    pub attributes: &'a [u8],
    /// The Network Layer Reachability Information field.
    pub nlri: &'a [u8],
}

/// Splits a whole UPDATE into its fields. Returns none if its lengths are bad, or if the octets are
/// no UPDATE.
pub fn split_update(octets: &[u8]) -> Option<Fields<'_>>
    ensures some { IfSome result (λ fields. IsUpdate octets.entry.now (sections_of fields)) }
    ensures none { IfNone result (IsMalformed octets.entry.now) }
{
    let Some(body) = message_body(MessageType::Update, octets) else {
        return None;
    };
    let Some((withdrawn, rest)) = split_counted(body) else {
        return None;
    };
    let Some((attributes, nlri)) = split_counted(rest) else {
        return None;
    };
    Some(Fields {
        withdrawn,
        attributes,
        nlri,
    })
}

/// Splits off the field after its length in two octets, and returns it with what follows.
fn split_counted(octets: &[u8]) -> Option<(&[u8], &[u8])>
    ensures some { IfSome result (λ r. IsCounted octets.entry.now r.0.now r.1.now) }
    ensures none { IfNone result (LacksCounted octets.entry.now) }
{
    if octets.len() < 2 {
        return None;
    }
    let len = usize::from(BigEndian::read_u16(octets));
    let rest = octets.split_at(2).1;
    if rest.len() < len {
        return None;
    }
    Some(rest.split_at(len))
}
