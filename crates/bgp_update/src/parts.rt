//! An UPDATE part by part (RFC 4271, 4.3): what a router says, before it is asked what to do about
//! it.

ghost use Rattle.std.specs.Prelude.{IfSome, IfNone};
ghost use Rattle.bgp_update.specs.Parts.{LacksParts, SpellsParts, parts_of};

use crate::destinations::Destinations;
use crate::fields::split_update;
use bgp_attr::Attrs;
use bgp_open::{Family, RouteForm};

/// The parts of an UPDATE, each in wire order.
#[derive(Debug, Drop)]
pub struct Parts<'a> {
    /// The destinations that the Withdrawn Routes field withdraws.
    pub withdrawn: Destinations<'a>,
    /// The path attributes, repeated ones too.
    pub attributes: Attrs<'a>,
    /// The destinations that the NLRI field announces.
    pub nlri: Destinations<'a>,
}

/// Reads the parts of a whole UPDATE whose routes are spelled in this form. Returns none if a
/// length, one of the two lists of IPv4 destinations or the end of the attributes is at fault, or
/// if the octets are no UPDATE. It takes no memory.
pub fn read_parts(form: RouteForm, octets: &[u8]) -> Option<Parts<'_>>
    ensures some { IfSome result (λ parts. SpellsParts form octets.entry.now (parts_of parts)) }
    ensures none { IfNone result (LacksParts form octets.entry.now) }
{
    let Some(fields) = split_update(octets) else {
        return None;
    };
    let Some(withdrawn) = Destinations::new(form, Family::V4, fields.withdrawn) else {
        return None;
    };
    let Some(nlri) = Destinations::new(form, Family::V4, fields.nlri) else {
        return None;
    };
    let attributes = Attrs::new(fields.attributes);
    if attributes.tail().is_some() {
        return None;
    }
    Some(Parts {
        withdrawn,
        attributes,
        nlri,
    })
}
