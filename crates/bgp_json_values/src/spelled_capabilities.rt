//! Whether the value of a capability spells its octets. It doesn't if something that is reserved
//! isn't 0.

ghost use Rattle.std.specs.Prelude.{◌≡◌, ◌≤◌, ◌++◌, IfOk, OnOk, Some, bytes_eq, flat_map, length};
ghost use Rattle.bgp_values.specs.CapabilityValue.{capability_value, capability_value_of};
ghost use Rattle.bgp_values.specs.CapabilityValue.{long_lived, restart};
ghost use Rattle.bgp_values.specs.Items.{item_size, items_of};
ghost use Rattle.bgp_json_values.specs.CapabilityJson.{flag, spelled_capability, spelled_family};

use crate::items::behind;
use bgp_values::{CapabilityValue, Item, first_piece, has_bits};
use std::alloc::{AllocError, Allocator};

/// Returns this bit if it is set, else 0.
fn flag(is_set: bool, bit: u16) -> u16
    ensures { result ≡ flag is_set bit }
{
    if is_set { bit } else { 0 }
}

/// Appends a family whose flags, in its fourth octet, are the first bit alone.
fn spell_family<A: Allocator>(out: &mut Vec<u8, A>, octets: &[u8]) -> Result<(), AllocError>
    requires { 4 ≤ length octets.now }
    ensures { OnOk result (out.new.items ≡ out.old.items ++ spelled_family octets.now) }
{
    out.extend_from_slice(octets.split_at(3).0)?;
    out.push(if has_bits(octets[3], 128) { 128 } else { 0 })?;
    out.extend_from_slice(behind(4, octets))
}

/// Appends families whose flags are the first bit alone.
fn spell_families<A: Allocator>(
    out: &mut Vec<u8, A>,
    item: Item,
    octets: &[u8],
) -> Result<(), AllocError>
    requires { 4 ≤ item_size item }
    ensures { OnOk result (out.new.items
        ≡ out.old.items ++ flat_map spelled_family (items_of item octets.now)) }
{
    let mut rest = octets;
    while let Some((piece, others)) = first_piece(item.size(), rest) {
        spell_family(out, piece)?;
        rest = others;
    }
    Ok(())
}

/// Checks whether octets are those of this value of Graceful Restart.
fn is_spelled_restart<A: Allocator>(
    alloc: A,
    octets: &[u8],
    restarted: bool,
    notification: bool,
    seconds: u16,
    families: &[u8],
) -> Result<bool, AllocError>
    ensures { IfOk result (λ is_so. is_so ≡ bytes_eq (spelled_capability
        (restart restarted notification seconds (items_of Item.RestartFamily families.now)))
        octets.now) }
{
    let bits = flag(restarted, 1 << 15) | flag(notification, 1 << 14) | seconds;
    let mut spelled = Vec::new(alloc);
    spelled.extend_from_slice(&bits.to_be_bytes())?;
    spell_families(&mut spelled, Item::RestartFamily, families)?;
    Ok(spelled.as_slice() == octets)
}

/// Checks whether octets are those of these families of Long-Lived Graceful Restart.
fn is_spelled_long_lived<A: Allocator>(
    alloc: A,
    octets: &[u8],
    families: &[u8],
) -> Result<bool, AllocError>
    ensures { IfOk result (λ is_so. is_so ≡ bytes_eq (spelled_capability
        (long_lived (items_of Item.LongLivedFamily families.now))) octets.now) }
{
    let mut spelled = Vec::new(alloc);
    spell_families(&mut spelled, Item::LongLivedFamily, families)?;
    Ok(spelled.as_slice() == octets)
}

/// Checks whether the octets of a capability with this code are those of the value that they have.
pub(crate) fn is_spelled<A: Allocator>(
    alloc: A,
    code: u8,
    octets: &[u8],
    value: CapabilityValue<'_>,
) -> Result<bool, AllocError>
    requires { capability_value code octets.now ≡ Some (capability_value_of value) }
    ensures { IfOk result (λ is_so. is_so
        ≡ bytes_eq (spelled_capability (capability_value_of value.entry)) octets.now) }
{
    match value {
        CapabilityValue::Family { .. } => Ok(octets[2] == 0),
        CapabilityValue::Restart {
            restarted,
            notification,
            seconds,
            families,
        } => is_spelled_restart(alloc, octets, restarted, notification, seconds, families),
        CapabilityValue::LongLived(families) => is_spelled_long_lived(alloc, octets, families),
        _ => Ok(true),
    }
}
