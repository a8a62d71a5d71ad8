//! The parts of an UPDATE: all that keeps it from being clean (RFC 4271, 4.3 and 5; RFC 7606, 3).

ghost use Rattle.std.specs.Prelude.{◌≡◌, ◌↔◌, ◌<◌, ◌++◌, ◌∷◌, [], map};
ghost use Rattle.std.specs.Prelude.{IsTrue, OnOk, IfOk};
ghost use Rattle.bgp_attr.specs.Field.{attribute_of};
ghost use Rattle.bgp_attr.specs.Split.{attributes_of, rest_of, tail_at};
ghost use Rattle.bgp_update.specs.Fields.{sections_of};
ghost use Rattle.bgp_parts.specs.AttributeFaults.{first_faults, mp_faults};
ghost use Rattle.bgp_parts.specs.UpdateParts.{AreUpdateParts, Faulty, attribute_parts, base_parts};
ghost use Rattle.bgp_parts.specs.UpdateParts.{has_destinations, is_absent, missing_parts};
ghost use Rattle.bgp_parts.specs.UpdateParts.{part_if, section_parts, shown_part, tail_parts};

use crate::attribute::{AttributeFault, class_fault, state_fault};
use crate::multiprotocol::are_destinations;
use bgp_attr::{Attr, AttrType, AttrVerdict, Attrs, Tail, class, first_of};
use bgp_open::{Link, RouteForm};
use bgp_prefix::Family;
use bgp_update::{Fields, side, split_update};
use std::alloc::{AllocError, Allocator};

/// One thing that keeps an UPDATE from being clean.
#[derive(Clone, Copy, Debug, PartialEq, Eq)]
pub enum UpdatePart<'a> {
    /// The lengths of its fields run over the message; then nothing else is told.
    LengthsRunOver,
    /// The Withdrawn Routes field isn't a list of IPv4 destinations.
    WithdrawnMalformed,
    /// The NLRI field isn't a list of IPv4 destinations.
    NlriMalformed,
    /// An attribute, and what is wrong with it.
    Faulty(Attr<'a>, AttributeFault),
    /// Behind the last attribute stands a part of a header.
    AttributesCut,
    /// Behind the last attribute stands one of this type whose value runs over.
    Overrun(u8),
    /// ORIGIN, AS_PATH or NEXT_HOP isn't there, and has to be.
    Missing(AttrType),
    /// IPv4 isn't in use, and the Withdrawn Routes or the NLRI field has destinations of it.
    BaseNotInUse,
}

/// Appends the part.
fn push<'a, A: Allocator>(
    out: &mut Vec<UpdatePart<'a>, A>,
    part: UpdatePart<'a>,
) -> Result<(), AllocError>
    ensures { OnOk result (map shown_part out.new.items
        ≡ map shown_part out.old.items ++ shown_part part.entry ∷ []) }
{
    out.push(part)?;
    Ok(())
}

/// Appends the part, where that holds.
fn push_if<'a, A: Allocator>(
    out: &mut Vec<UpdatePart<'a>, A>,
    holds: bool,
    part: UpdatePart<'a>,
) -> Result<(), AllocError>
    ensures { OnOk result (map shown_part out.new.items
        ≡ map shown_part out.old.items ++ part_if holds (shown_part part.entry)) }
{
    if !holds {
        return Ok(());
    }
    push(out, part)
}

/// Appends the faults of an MP attribute: its flags, and then its state.
fn push_mp_faults<'a, A: Allocator>(
    out: &mut Vec<UpdatePart<'a>, A>,
    link: &Link,
    form: RouteForm,
    attr_type: Option<AttrType>,
    attr: Attr<'a>,
) -> Result<(), AllocError>
    ensures { OnOk result (map shown_part out.new.items
        ≡ map shown_part out.old.items ++ map (Faulty (attribute_of attr.entry))
        (mp_faults link.now.families form attr_type (attribute_of attr.entry))) }
{
    let Some(attr_type) = attr_type else {
        return Ok(());
    };
    let has_other_bits = !attr.has_bits_of(attr_type);
    push_if(
        out,
        has_other_bits,
        UpdatePart::Faulty(attr, AttributeFault::Flags),
    )?;
    let Some(fault) = state_fault(link.families, form, attr_type, &attr) else {
        return Ok(());
    };
    push(out, UpdatePart::Faulty(attr, fault))
}

/// Appends the faults of an attribute, the first of its type.
fn push_first_faults<'a, A: Allocator>(
    out: &mut Vec<UpdatePart<'a>, A>,
    link: &Link,
    form: RouteForm,
    attr: Attr<'a>,
) -> Result<(), AllocError>
    ensures { OnOk result (map shown_part out.new.items
        ≡ map shown_part out.old.items ++ map (Faulty (attribute_of attr.entry))
        (first_faults link.now form (attribute_of attr.entry))) }
{
    let attr_type = AttrType::of(attr.kind);
    let Some(verdict) = class(side(link), &attr) else {
        return push_mp_faults(out, link, form, attr_type, attr);
    };
    if is_good(verdict) {
        return Ok(());
    }
    let fault = class_fault(link, attr_type, &attr, verdict);
    push(out, UpdatePart::Faulty(attr, fault))
}

/// Whether the class asks for nothing.
fn is_good(verdict: AttrVerdict) -> bool
    ensures { IsTrue result ↔ (verdict ≡ AttrVerdict.Good) }
{
    matches!(verdict, AttrVerdict::Good)
}

/// An index for an attribute type.
fn index_of(kind: u8) -> usize
    ensures same { result ≡ kind }
    ensures below { result < 256 }
{
    usize::from(kind)
}

/// Appends the parts of the attributes in a field, in wire order.
fn push_attribute_parts<'a, A: Allocator>(
    out: &mut Vec<UpdatePart<'a>, A>,
    link: &Link,
    form: RouteForm,
    field: &'a [u8],
) -> Result<(), AllocError>
    ensures { OnOk result (map shown_part out.new.items
        ≡ map shown_part out.old.items
        ++ attribute_parts link.now form [] (attributes_of field.entry.now)) }
{
    let mut seen = [false; 256];
    let mut repeated = [false; 256];
    let mut attrs = Attrs::new(field);
    while let Some(attr) = attrs.next() {
        let index = index_of(attr.kind);
        if !seen[index] {
            seen[index] = true;
            push_first_faults(out, link, form, attr)?;
        } else if !repeated[index] {
            repeated[index] = true;
            push(out, UpdatePart::Faulty(attr, AttributeFault::Repeated))?;
        }
    }
    Ok(())
}

/// Appends what follows the last attribute of a field.
fn push_tail<'a, A: Allocator>(
    out: &mut Vec<UpdatePart<'a>, A>,
    field: &[u8],
) -> Result<(), AllocError>
    ensures { OnOk result (map shown_part out.new.items
        ≡ map shown_part out.old.items ++ tail_parts (tail_at (rest_of field.now))) }
{
    match Attrs::new(field).tail() {
        None => Ok(()),
        Some(Tail::ShortHeader) => push(out, UpdatePart::AttributesCut),
        Some(Tail::Overrun(kind)) => push(out, UpdatePart::Overrun(kind)),
    }
}

/// Whether a field has no attribute of this type.
fn is_absent(field: &[u8], attr_type: AttrType) -> bool
    ensures { result ≡ is_absent (attributes_of field.now) attr_type }
{
    first_of(field, attr_type.row().number).is_none()
}

/// Appends the mandatory attributes that aren't there: ORIGIN and AS_PATH where anything is
/// announced, and NEXT_HOP where NLRI isn't empty (RFC 4271, 5; RFC 4760, 3; RFC 7606, 3 d).
fn push_missing<'a, A: Allocator>(
    out: &mut Vec<UpdatePart<'a>, A>,
    nlri: &[u8],
    field: &[u8],
) -> Result<(), AllocError>
    ensures { OnOk result (map shown_part out.new.items
        ≡ map shown_part out.old.items ++ missing_parts nlri.now (attributes_of field.now)) }
{
    let is_filled = !nlri.is_empty();
    let announces = is_filled || !is_absent(field, AttrType::MpReachNlri);
    let lacks_origin = is_absent(field, AttrType::Origin) && announces;
    let lacks_path = is_absent(field, AttrType::AsPath) && announces;
    let lacks_hop = is_absent(field, AttrType::NextHop) && is_filled;
    push_if(out, lacks_origin, UpdatePart::Missing(AttrType::Origin))?;
    push_if(out, lacks_path, UpdatePart::Missing(AttrType::AsPath))?;
    push_if(out, lacks_hop, UpdatePart::Missing(AttrType::NextHop))
}

/// Checks whether a field holds IPv4 destinations: an incorrect one holds none.
fn has_destinations(form: RouteForm, field: &[u8]) -> bool
    ensures { result ≡ has_destinations form field.now }
{
    !field.is_empty() && are_destinations(form, Family::V4, field)
}

/// Appends that IPv4 isn't in use, where one of both fields holds destinations of it.
fn push_base<'a, A: Allocator>(
    out: &mut Vec<UpdatePart<'a>, A>,
    link: &Link,
    form: RouteForm,
    fields: &Fields<'a>,
) -> Result<(), AllocError>
    ensures { OnOk result (map shown_part out.new.items
        ≡ map shown_part out.old.items ++ base_parts link.now form (sections_of fields.now)) }
{
    let has_some = has_destinations(form, fields.withdrawn) || has_destinations(form, fields.nlri);
    let is_unused = !link.families.contains(Family::V4) && has_some;
    push_if(out, is_unused, UpdatePart::BaseNotInUse)
}

/// Appends all parts of an UPDATE with these fields.
fn push_parts<'a, A: Allocator>(
    out: &mut Vec<UpdatePart<'a>, A>,
    link: &Link,
    form: RouteForm,
    fields: &Fields<'a>,
) -> Result<(), AllocError>
    ensures { OnOk result (map shown_part out.new.items
        ≡ map shown_part out.old.items ++ section_parts link.now form (sections_of fields.now)) }
{
    let has_bad_withdrawn = !are_destinations(form, Family::V4, fields.withdrawn);
    let has_bad_nlri = !are_destinations(form, Family::V4, fields.nlri);
    push_if(out, has_bad_withdrawn, UpdatePart::WithdrawnMalformed)?;
    push_if(out, has_bad_nlri, UpdatePart::NlriMalformed)?;
    push_attribute_parts(out, link, form, fields.attributes)?;
    push_tail(out, fields.attributes)?;
    push_missing(out, fields.nlri, fields.attributes)?;
    push_base(out, link, form, fields)
}

/// All that keeps an UPDATE on the link from being clean, part by part: its lengths, and then
/// nothing else; or its lists of destinations, its attributes in wire order, what follows them, the
/// mandatory attributes that it lacks, and destinations of IPv4 that isn't in use. Octets that are
/// no UPDATE count as one whose lengths run over. Its routes are to be spelled in this form: the
/// link's `sent` or `received`.
///
/// How long it is isn't told: what a link allows differs for what is sent and what is received.
/// Each part takes memory, and there is an `Err` where that is refused.
pub fn update_parts<'a, A: Allocator + Copy>(
    alloc: A,
    link: &Link,
    form: RouteForm,
    octets: &'a [u8],
) -> Result<Vec<UpdatePart<'a>, A>, AllocError>
    ensures { IfOk result (λ told.
        AreUpdateParts link.now form octets.entry.now (map shown_part told.items)) }
{
    let mut told = Vec::new(alloc);
    let Some(fields) = split_update(octets) else {
        told.push(UpdatePart::LengthsRunOver)?;
        return Ok(told);
    };
    push_parts(&mut told, link, form, &fields)?;
    Ok(told)
}
