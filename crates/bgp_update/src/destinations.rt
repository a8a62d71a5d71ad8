//! Lists of destinations (RFC 4271, 4.3; RFC 4760, 5; RFC 7911, 3).

ghost use Rattle.std.specs.Prelude.{◌≡◌, ◌≤◌, ◌++◌, true, false, length};
ghost use Rattle.std.specs.Prelude.{IfSome, IfNone, OnOk};
ghost use Rattle.std.specs.Option.{option_map};
ghost use Rattle.bgp_update.specs.Destinations.{
  BeginsWithDestination,
  destination_len,
  destinations_of,
  has_destination,
  has_prefix,
  prefix_len,
};
ghost use Rattle.bgp_update.specs.Field.{field_destinations};
ghost use Rattle.bgp_update.specs.Listed.{listed};

use crate::destination::{Destination, PathId};
use bgp_open::{Family, Prefix, RouteForm};
use byteorder::{BigEndian, ByteOrder};
use std::alloc::{AllocError, Allocator};
use std::marker::Model;

/// How many octets a path identifier has.
const ID_LEN: usize = 4;

/// A field of destinations, which may be incorrect: that of an MP attribute, a Withdrawn Routes or
/// an NLRI field. It takes no memory.
///
/// Contracts see its destinations: none if it is incorrect.
#[derive(Clone, Copy, Debug)]
pub struct DestinationField<'a> {
    /// Each prefix has a path identifier before it.
    identified: bool,
    family: Family,
    octets: &'a [u8],
}

/// The destinations of a field, in wire order. It takes no memory.
///
/// Contracts see it as the list of what is left.
#[derive(Debug, Drop)]
pub struct Destinations<'a> {
    rest: DestinationField<'a>,
}

impl<'a> Model for Destinations<'a> {
    ghost use Rattle.std.specs.Prelude.{◌≡◌, List, is_some, true};
    ghost use Rattle.bgp_update.specs.Field.{field_destinations};
    ghost use Rattle.bgp_update.specs.Listed.{listed};
    ghost use Rattle.bgp_update.specs.declared.destination.Destination.{Destination};

    ghost Value = { List Destination };

    ghost view = { λ d. listed (field_destinations d.rest) };

    ghost invariant = { λ d. is_some (field_destinations d.rest) ≡ true };
}

impl<'a> Destinations<'a> {
    ghost use Rattle.std.specs.Prelude.{List, IfSome, IfNone};
    ghost use Rattle.bgp_update.specs.Destinations.{AreDestinations, is_identified};
    ghost use Rattle.bgp_update.specs.declared.destination.Destination.{Destination as Value};

    /// Reads the destinations of a field of a family whose routes are spelled in this form. Returns
    /// none if it is incorrect, since an identifier is cut or nothing stands behind it, a length is
    /// above that of an address, or the last prefix runs over (RFC 7606, 5.3).
    pub fn new(form: RouteForm, family: Family, field: &'a [u8]) -> Option<Destinations<'a>>
        ensures some { IfSome result (λ destinations. AreDestinations (is_identified form family)
            family field.entry.now destinations) }
        ensures none { IfNone result ((destinations : List Value)
            → ¬ AreDestinations (is_identified form family) family field.entry.now destinations) }
    {
        let rest = DestinationField::new(form, family, field);
        match rest.count() {
            Some(_) => Some(Destinations { rest }),
            None => None,
        }
    }
}

impl<'a> Iterator for Destinations<'a> {
    ghost use Rattle.std.specs.Prelude.{length};
    ghost use Rattle.std.specs.Iterator.{YieldsFirst, at_most};

    type Item = Destination;

    ghost next_gives = { YieldsFirst (λ s. s) };

    ghost remaining = { λ s. at_most (length s) };

    fn next(&mut self) -> Option<Destination> {
        let Some((destination, count)) = read_first(self.rest) else {
            return None;
        };
        self.rest.octets = self.rest.octets.split_at(count).1;
        Some(destination)
    }
}

/// Reads the destination at the front, and counts the octets that spell it. Returns none if none
/// stands there.
#[inline(always)]
fn read_first(field: DestinationField<'_>) -> Option<(Destination, usize)>
    ensures some { IfSome result (λ r. BeginsWithDestination field.entry.identified
        field.entry.family field.entry.octets.now r.0 r.1) }
    ensures none { IfNone result (has_destination field.entry.identified field.entry.family
        field.entry.octets.now ≡ false) }
{
    if !field.identified {
        let Ok((prefix, count)) = Prefix::read(field.family, field.octets) else {
            return None;
        };
        return Some((Destination::plain(prefix), count));
    }
    if field.octets.len() < ID_LEN {
        return None;
    }
    let Ok((prefix, count)) = Prefix::read(field.family, field.octets.split_at(ID_LEN).1) else {
        return None;
    };
    let path = Some(PathId::new(BigEndian::read_u32(field.octets)));
    Some((Destination { prefix, path }, ID_LEN + count))
}

/// Counts the octets that spell the prefix at the front. Returns none if no prefix of the family
/// stands there.
fn first_prefix_len(family: Family, octets: &[u8]) -> Option<usize>
    ensures some { IfSome result (λ len. has_prefix family octets.now ≡ true) }
    ensures len { IfSome result (λ len. len ≡ prefix_len octets.now) }
    ensures bounds { IfSome result (λ len. (1 ≤ len) × (len ≤ length octets.now)) }
    ensures none { IfNone result (has_prefix family octets.now ≡ false) }
{
    let Some(&bits) = octets.first() else {
        return None;
    };
    if bits > family.bits() {
        return None;
    }
    let len = 1 + usize::from(bits).div_ceil(8);
    if len > octets.len() {
        return None;
    }
    Some(len)
}

impl<'a> DestinationField<'a> {
    ghost use Rattle.bgp_update.specs.Destinations.{destinations_of, is_identified};
    ghost use Rattle.bgp_update.specs.Field.{field_destinations};

    /// Takes these octets for a field of a family whose routes are spelled in this form.
    pub fn new(form: RouteForm, family: Family, octets: &'a [u8]) -> DestinationField<'a>
        ensures { field_destinations result
            ≡ destinations_of (is_identified form family) family octets.entry.now }
    {
        DestinationField {
            identified: form.identified.contains(family),
            family,
            octets,
        }
    }
}

impl DestinationField<'_> {
    ghost use Rattle.std.specs.Prelude.{◌≡◌, ◌≢◌, ◌≤◌, ◌++◌, ◌↔◌, [], true, false, length};
    ghost use Rattle.std.specs.Prelude.{IfSome, IfNone, IsTrue, OnOk, Some};
    ghost use Rattle.std.specs.Option.{option_map};
    ghost use Rattle.bgp_update.specs.Destinations.{destination_len, has_destination};
    ghost use Rattle.bgp_update.specs.Field.{field_destinations};
    ghost use Rattle.bgp_update.specs.Listed.{listed};

    /// Checks whether the field has no octets, so no destinations.
    pub fn is_empty(self) -> bool
        ensures { IsTrue result ↔ (field_destinations self.entry ≡ Some []) }
    {
        self.octets.is_empty()
    }

    /// Guesses how many destinations there are: most prefixes have 24 bits, so 4 octets, or more.
    pub(crate) fn likely_count(self) -> usize
        ensures { result ≤ length self.entry.octets.now }
    {
        let usual_len = if self.identified { ID_LEN + 4 } else { 4 };
        self.octets.len() / usual_len
    }

    /// Counts the octets that spell the destination at the front. Returns none if none stands
    /// there.
    fn first_len(self) -> Option<usize>
        ensures some { IfSome result
            (λ len. has_destination self.entry.identified self.entry.family self.entry.octets.now
            ≡ true) }
        ensures len { IfSome result
            (λ len. len ≡ destination_len self.entry.identified self.entry.octets.now) }
        ensures bounds { IfSome result (λ len. (1 ≤ len) × (len ≤ length self.entry.octets.now)) }
        ensures none { IfNone result
            (has_destination self.entry.identified self.entry.family self.entry.octets.now
            ≡ false) }
    {
        if !self.identified {
            return first_prefix_len(self.family, self.octets);
        }
        if self.octets.len() < ID_LEN {
            return None;
        }
        let rest = self.octets.split_at(ID_LEN).1;
        match first_prefix_len(self.family, rest) {
            Some(len) => Some(ID_LEN + len),
            None => None,
        }
    }

    /// Counts the destinations. Returns none if the field is incorrect, since an identifier is cut
    /// or nothing stands behind it, a length is above that of an address, or the last prefix runs
    /// over (RFC 7606, 5.3).
    pub fn count(self) -> Option<usize>
        ensures { result ≡ option_map length (field_destinations self.entry) }
    {
        let mut rest = self;
        let mut count = 0;
        while !rest.octets.is_empty() {
            let Some(len) = rest.first_len() else {
                return None;
            };
            rest.octets = rest.octets.split_at(len).1;
            count += 1;
        }
        Some(count)
    }

    /// Checks whether the field is right and has a destination.
    pub fn has_some(self) -> bool
        ensures { IsTrue result ↔ (listed (field_destinations self.entry) ≢ []) }
    {
        match self.count() {
            Some(count) => count > 0,
            None => false,
        }
    }

    /// Appends the destinations, or none if the field is incorrect.
    #[inline(always)]
    pub(crate) fn push_to<A: Allocator>(
        self,
        out: &mut Vec<Destination, A>,
    ) -> Result<(), AllocError>
        ensures { OnOk result (out.new.items
            ≡ out.old.items ++ listed (field_destinations self.entry)) }
    {
        let len = out.len();
        out.reserve(self.likely_count())?;
        let mut rest = self;
        while let Some((destination, count)) = read_first(rest) {
            out.push(destination)?;
            rest.octets = rest.octets.split_at(count).1;
        }
        if !rest.octets.is_empty() {
            out.truncate(len); // It stopped at a destination that is none.
        }
        Ok(())
    }
}
