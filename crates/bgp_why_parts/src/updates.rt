//! What keeps an UPDATE from being clean (RFC 4271, 4.3 and 5; RFC 7606, 3).

ghost use Rattle.std.specs.Prelude.{◌≡◌, ◌++◌, map};
ghost use Rattle.bgp_names.specs.Attributes.{attribute_name};
ghost use Rattle.bgp_attr.specs.Field.{attribute_of};
ghost use Rattle.bgp_parts.specs.UpdateParts.{shown_part};
ghost use Rattle.bgp_names.specs.Lines.{Writes};
ghost use Rattle.bgp_why_parts.specs.Updates.{external_text, family_fault, family_word};
ghost use Rattle.bgp_why_parts.specs.Updates.{fault_text, flags_text, value_text};
ghost use Rattle.bgp_why_parts.specs.Updates.{part_text, update_parts_by, update_parts_text};

use bgp_attr::Attr;
use bgp_names::{Lines, put_attribute_name};
use bgp_parts::{AttributeFault, UpdatePart};
use bgp_prefix::Family;
use mrt::Sink;

/// A family.
fn family_word(family: Family) -> &'static str
    ensures { result.now ≡ family_word family }
{
    match family {
        Family::V4 => "IPv4",
        Family::V6 => "IPv6",
    }
}

/// That an attribute of a family isn't in use, or has other contents.
fn put_family_fault<W: Sink>(lines: &mut Lines<'_, W>, family: Family, fault: &[u8])
    ensures { Writes lines.old lines.new (family_fault family fault.now) }
{
    lines.put(b" of ");
    lines.put(family_word(family).as_bytes());
    lines.put(fault);
}

/// The flags of an attribute.
fn put_flags<W: Sink>(lines: &mut Lines<'_, W>, flags: u8)
    ensures { Writes lines.old lines.new (flags_text flags) }
{
    lines.put(b" with wrong flags ");
    lines.put_decimal(flags);
}

/// The value of an attribute.
fn put_value<W: Sink>(lines: &mut Lines<'_, W>, value: &[u8])
    ensures { Writes lines.old lines.new (value_text value.now) }
{
    lines.put(b" with wrong value ");
    lines.put_hex(value);
}

/// That an external peer gets no such attribute.
fn external_text(is_sent: bool) -> &'static [u8]
    ensures { result.now ≡ external_text is_sent }
{
    if is_sent {
        b" to an external peer"
    } else {
        b" from an external peer"
    }
}

/// What is wrong with an attribute.
fn put_fault<W: Sink>(
    lines: &mut Lines<'_, W>,
    is_sent: bool,
    attr: Attr<'_>,
    fault: AttributeFault,
)
    ensures { Writes lines.old lines.new (fault_text is_sent (attribute_of attr.entry) fault) }
{
    match fault {
        AttributeFault::Unknown => lines.put(b" marked well-known and unknown"),
        AttributeFault::Flags => put_flags(lines, attr.flags),
        AttributeFault::FourOctetAsNumbers => lines.put(b" though AS numbers have 4 octets"),
        AttributeFault::FromExternalPeer => lines.put(external_text(is_sent)),
        AttributeFault::Value => put_value(lines, attr.value),
        AttributeFault::DiscardedValue => {
            put_value(lines, attr.value);
            lines.put(b", to be discarded");
        }
        AttributeFault::BelowThreeOctets => lines.put(b" of fewer than 3 octets"),
        AttributeFault::NotInUse(family) => {
            put_family_fault(lines, family, b", which is not in use");
        }
        AttributeFault::Contents(family) => put_family_fault(lines, family, b" malformed"),
        AttributeFault::Repeated => lines.put(b" repeated"),
    }
}

/// The name of an attribute of this type, and what is wrong with it.
fn put_named<W: Sink>(lines: &mut Lines<'_, W>, kind: u8, fault: &[u8])
    ensures { Writes lines.old lines.new (attribute_name kind ++ fault.now) }
{
    put_attribute_name(lines, kind);
    lines.put(fault);
}

/// The text of a part.
fn put_part<W: Sink>(lines: &mut Lines<'_, W>, is_sent: bool, part: UpdatePart<'_>)
    ensures { Writes lines.old lines.new (part_text is_sent (shown_part part.entry)) }
{
    match part {
        UpdatePart::LengthsRunOver => lines.put(b"lengths that do not fit"),
        UpdatePart::WithdrawnMalformed => lines.put(b"withdrawn prefixes malformed"),
        UpdatePart::NlriMalformed => lines.put(b"NLRI malformed"),
        UpdatePart::Faulty(attr, fault) => {
            put_attribute_name(lines, attr.kind);
            put_fault(lines, is_sent, attr, fault);
        }
        UpdatePart::AttributesCut => lines.put(b"the last attribute cut short"),
        UpdatePart::Overrun(kind) => put_named(lines, kind, b" past the end of the attributes"),
        UpdatePart::Missing(attr_type) => {
            put_named(lines, attr_type.row().number, b" missing");
        }
        UpdatePart::BaseNotInUse => lines.put(b"IPv4 prefixes, which are not in use"),
    }
}

/// Puts what keeps an UPDATE that was sent, or received, from being clean, part by part: `ORIGIN
/// with wrong value 03; NEXT_HOP missing`.
pub(crate) fn put_update_parts<W: Sink>(
    lines: &mut Lines<'_, W>,
    is_sent: bool,
    parts: &[UpdatePart<'_>],
)
    ensures { Writes lines.old lines.new
        (update_parts_text is_sent (map shown_part parts.now)) }
{
    let mut separator: &[u8] = b"";
    for part in parts {
        lines.put(separator);
        put_part(lines, is_sent, *part);
        separator = b"; ";
    }
}
