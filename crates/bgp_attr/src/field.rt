//! The Path Attributes field of an UPDATE (RFC 4271, 4.3): whole attributes, and then a tail.

ghost use Rattle.std.specs.Prelude.{◌≡◌, ◌<◌, ◌≤◌, ◌==◌, length, drop};
ghost use Rattle.std.specs.Prelude.{bit_and, IfSome, IfNone};
ghost use Rattle.bgp_attr.specs.Field.{attribute_of, header_len, value_len};
ghost use Rattle.bgp_attr.specs.Split.{attribute_len, first_attribute, rest_of, tail_at};

use crate::flags::{EXTENDED_LENGTH, OPTIONAL_TRANSITIVE};
use crate::types::AttrType;
use byteorder::{BigEndian, ByteOrder};
use std::marker::Model;

/// One path attribute, borrowed from the field in which it stands. On the wire it is
///
/// ```text
/// flags 1 | type 1 | length 1, or 2 with Extended Length | value
/// ```
#[derive(Clone, Copy, Debug, PartialEq, Eq)]
pub struct Attr<'a> {
    /// The Attribute Flags octet.
    pub flags: u8,
    /// The Attribute Type Code.
    pub kind: u8,
    /// The value, without the length before it.
    pub value: &'a [u8],
}

impl<'a> Attr<'a> {
    ghost use Rattle.bgp_attr.specs.Types.{has_bits_of};

    /// Whether its Optional and Transitive bits are those of the type (RFC 7606, 3 c).
    pub fn has_bits_of(&self, attr_type: AttrType) -> bool
        ensures bits { result ≡ has_bits_of self.now.flags attr_type }
    {
        self.flags & OPTIONAL_TRANSITIVE == attr_type.row().bits
    }
}

/// What is left of an attribute field after its last whole attribute, where that isn't nothing.
#[derive(Clone, Copy, Debug, PartialEq, Eq)]
pub enum Tail {
    /// Fewer octets than the header of an attribute has.
    ShortHeader,
    /// A whole header, of this type, whose value runs past the field.
    Overrun(u8),
}

/// Whether a length of two octets follows the type.
fn is_extended(flags: u8) -> bool
    ensures { result ≡ (bit_and flags 16 == 16) }
{
    flags & EXTENDED_LENGTH == EXTENDED_LENGTH
}

/// How many octets the header at the front takes, and how many its value: none where the header
/// is not whole.
#[tactic(auto, unfolding(crate::specs::Field::header_len, crate::specs::Field::value_len))]
fn lengths(octets: &[u8]) -> Option<(usize, usize)>
    ensures header { IfSome result (λ r. r.0 ≡ header_len octets.now) }
    ensures bounds { IfSome result (λ r. (3 ≤ r.0) × (r.0 ≤ length octets.now)) }
    ensures value { IfSome result (λ r. r.1 ≡ value_len octets.now) }
    ensures none { IfNone result (length octets.now < header_len octets.now) }
{
    if octets.len() < 3 {
        return None;
    }
    if !is_extended(octets[0]) {
        return Some((3, usize::from(octets[2])));
    }
    if octets.len() < 4 {
        return None;
    }
    Some((4, usize::from(BigEndian::read_u16(&octets[2..]))))
}

/// The attribute at the front and what follows it: none where no whole attribute stands there.
fn first_attr(octets: &[u8]) -> Option<(Attr<'_>, &[u8])>
    ensures whole { IfSome result (λ _. attribute_len octets.now ≤ length octets.now) }
    ensures attribute { IfSome result (λ r. attribute_of r.0 ≡ first_attribute octets.now) }
    ensures rest { IfSome result (λ r. r.1.now ≡ drop (attribute_len octets.now) octets.now) }
    ensures none { IfNone result (length octets.now < attribute_len octets.now) }
{
    let (header_len, value_len) = lengths(octets)?;
    let (header, rest) = octets.split_at(header_len);
    if rest.len() < value_len {
        return None;
    }
    let (value, rest) = rest.split_at(value_len);
    let attr = Attr {
        flags: header[0],
        kind: header[1],
        value,
    };
    Some((attr, rest))
}

/// What follows the last of the attributes that stand one after the other from the front.
fn after_attributes(field: &[u8]) -> &[u8]
    ensures { result.now ≡ rest_of field.now }
{
    let mut rest = field;
    while let Some((_, after)) = first_attr(rest) {
        rest = after;
    }
    rest
}

/// Which tail the octets are, where no whole attribute stands at their front.
#[tactic(auto, unfolding(crate::specs::Split::tail_at))]
fn tail_at(rest: &[u8]) -> Option<Tail>
    ensures { result ≡ tail_at rest.now }
{
    if rest.is_empty() {
        return None;
    }
    match lengths(rest) {
        None => Some(Tail::ShortHeader),
        Some(_) => Some(Tail::Overrun(rest[1])),
    }
}

/// The attributes of an attribute field, in the order in which they stand there.
#[derive(Debug, Drop)]
pub struct Attrs<'a> {
    rest: &'a [u8],
}

impl<'a> Model for Attrs<'a> {
    ghost use Rattle.bgp_attr.specs.Split.{Split, split_of};

    ghost Value = { Split };

    ghost view = { λ a. split_of a.rest.now };
}

impl<'a> Attrs<'a> {
    ghost use Rattle.bgp_attr.specs.Field.{IsAttributeField};
    ghost use Rattle.bgp_attr.specs.Split.{split_of};

    /// The attributes of this field.
    #[tactic(auto, using(crate::proofs::OneField::is_field))]
    pub fn new(field: &'a [u8]) -> Attrs<'a>
        ensures split { IsAttributeField field.entry.now result.attributes result.tail }
        ensures same { result ≡ split_of field.entry.now }
    {
        Attrs { rest: field }
    }

    /// What stands after the last attribute and is none: `None` where the attributes fill the
    /// field.
    pub fn tail(&self) -> Option<Tail>
        ensures tail { result ≡ self.now.tail }
    {
        tail_at(after_attributes(self.rest))
    }
}

impl<'a> Iterator for Attrs<'a> {
    type Item = Attr<'a>;

    ghost use Rattle.std.specs.Prelude.{length};
    ghost use Rattle.std.specs.Iterator.{at_most};
    ghost use Rattle.bgp_attr.specs.Split.{GivesFirst};

    ghost next_gives = { GivesFirst };

    ghost remaining = { λ s. at_most (length s.attributes) };

    #[tactic(auto, using(crate::proofs::Steps::steps))]
    fn next(&mut self) -> Option<Attr<'a>> {
        let (attr, rest) = first_attr(self.rest)?;
        self.rest = rest;
        Some(attr)
    }
}
