//! Lists of destinations (RFC 4271, 4.3; RFC 7911, 3).

ghost use Rattle.std.specs.Prelude.{◌≡◌, ◌+◌, ◌/◌, ◌++◌, ◌∷◌, [], List};
ghost use Rattle.std.specs.Prelude.{IfOk, OnOk, bytes_eq, map};
ghost use Rattle.json.specs.Tree.{json_tokens};
ghost use Rattle.bgp_prefix.specs.Bits.{octets_of};
ghost use Rattle.bgp_prefix.specs.Prefix.{IsPrefix, prefix_length, prefix_octets};
ghost use Rattle.bgp_values.specs.Destination.{Destination as Listed};
ghost use Rattle.bgp_json_values.specs.Adding.{Adds};
ghost use Rattle.bgp_json_values.specs.Fronts.{IsAfter};
ghost use Rattle.bgp_json_values.specs.Left.{are_left};
ghost use Rattle.bgp_json_values.specs.Objects.{number_of, values_tokens};
ghost use Rattle.bgp_json_values.specs.RoutesJson.{destinations_json, id_in, path_ids_json};
ghost use Rattle.bgp_json_values.specs.RoutesJson.{spelled_destination, spelled_destinations};
ghost use Rattle.bgp_json_values.specs.RoutesJson.{spelled_id};

use crate::fronts::after;
use crate::texts::put_prefix;
use bgp_prefix::{Address, Prefix};
use bgp_values::{Destination, Destinations, PathId};
use json_writer::Writer;
use std::alloc::{AllocError, Allocator};

/// Returns destinations as a list, which can be gone through more than once.
pub fn listed<A: Allocator>(
    alloc: A,
    destinations: Destinations<'_>,
) -> Result<Vec<Destination, A>, AllocError>
    ensures { IfOk result (λ list. list.items ≡ destinations.entry) }
{
    let mut list = Vec::new(alloc);
    for destination in destinations {
        list.push(destination)?;
    }
    Ok(list)
}

/// Puts the prefixes of destinations, as an array.
pub fn put_destinations<A: Allocator + Copy>(
    writer: &mut Writer<A>,
    alloc: A,
    destinations: &[Destination],
) -> Result<(), AllocError>
    ensures { Adds result writer.old writer.new
        (json_tokens (destinations_json destinations.now)) }
{
    writer.begin_array()?;
    for destination in destinations {
        put_prefix(writer, alloc, destination.prefix)?;
    }
    writer.end_array()
}

/// Puts a path identifier, if there is one.
fn put_id<A: Allocator>(writer: &mut Writer<A>, path: Option<PathId>) -> Result<(), AllocError>
    ensures { Adds result writer.old writer.new (values_tokens (map number_of (id_in path))) }
{
    match path {
        None => Ok(()),
        Some(id) => writer.u64(u64::from(id.number())),
    }
}

/// Puts the path identifiers that destinations have, as an array.
pub fn put_path_ids<A: Allocator>(
    writer: &mut Writer<A>,
    destinations: &[Destination],
) -> Result<(), AllocError>
    ensures { Adds result writer.old writer.new (json_tokens (path_ids_json destinations.now)) }
{
    writer.begin_array()?;
    for destination in destinations {
        put_id(writer, destination.path)?;
    }
    writer.end_array()
}

/// Returns what is left of octets after those of a path identifier, if they begin with these.
#[inline(always)]
fn after_id(path: Option<PathId>, octets: &[u8]) -> Option<&[u8]>
    ensures { IsAfter (spelled_id path) octets.entry.now result }
{
    match path {
        None => Some(octets),
        Some(id) => after(&id.number().to_be_bytes(), octets),
    }
}

/// Returns how many octets hold the bits of a prefix.
#[inline(always)]
fn octet_count(prefix: Prefix) -> usize
    ensures value { result ≡ (prefix_length prefix + 7) / 8 }
    ensures fits { IsPrefix prefix }
{
    usize::from(prefix.length()).div_ceil(8)
}

/// Returns what is left of octets after those that hold the bits of a prefix, if they begin with
/// these.
#[inline(always)]
fn after_bits(prefix: Prefix, octets: &[u8]) -> Option<&[u8]>
    ensures { IsAfter (octets_of ((prefix_length prefix + 7) / 8) prefix.bits)
        octets.entry.now result }
{
    let count = octet_count(prefix);
    match prefix.address() {
        Address::V4(number) => after(&number.to_be_bytes()[..count], octets),
        Address::V6(number) => after(&number.to_be_bytes()[..count], octets),
    }
}

/// Returns what is left of octets after those of a prefix, if they begin with these.
#[inline(always)]
fn after_prefix(prefix: Prefix, octets: &[u8]) -> Option<&[u8]>
    ensures { IsAfter (prefix_octets prefix) octets.entry.now result }
{
    let (length, rest) = octets.split_first()?;
    if *length == prefix.length() {
        after_bits(prefix, rest)
    } else {
        None
    }
}

/// Returns what is left of octets after those of a destination, if they begin with these.
#[inline(always)]
fn after_destination(destination: Destination, octets: &[u8]) -> Option<&[u8]>
    ensures { IsAfter (spelled_destination destination) octets.entry.now result }
{
    let rest = after_id(destination.path, octets)?;
    after_prefix(destination.prefix, rest)
}

/// Checks whether octets are those that destinations spell. They aren't if a bit behind a prefix
/// isn't zero.
pub fn are_spelled(destinations: &[Destination], octets: &[u8]) -> bool
    ensures { result ≡ bytes_eq (spelled_destinations destinations.now) octets.now }
{
    let mut rest = octets;
    for destination in destinations {
        match after_destination(*destination, rest) {
            None => return false,
            Some(others) => rest = others,
        }
    }
    rest.is_empty()
}

/// Returns what is left of octets, if there were some, after those of a destination, if they begin
/// with these.
#[inline(always)]
fn after_next(destination: Destination, octets: Option<&[u8]>) -> Option<&[u8]>
    ensures { (others : List Listed)
        → are_left result others ≡ are_left octets.entry (destination ∷ others) }
{
    match octets {
        None => None,
        Some(octets) => after_destination(destination, octets),
    }
}

/// Checks whether octets have been gone through.
fn is_end(octets: Option<&[u8]>) -> bool
    ensures { result ≡ are_left octets.entry [] }
{
    match octets {
        None => false,
        Some(octets) => octets.is_empty(),
    }
}

/// Puts the prefixes of destinations, as an array, while they are gone through. Returns whether
/// octets are those that they spell: they aren't if a bit behind a prefix isn't zero, or if there
/// are no octets.
pub fn put_spelled<A: Allocator + Copy>(
    writer: &mut Writer<A>,
    alloc: A,
    destinations: Destinations<'_>,
    octets: Option<&[u8]>,
) -> Result<bool, AllocError>
    ensures tokens { OnOk result (writer.new.tokens
        ≡ writer.old.tokens ++ json_tokens (destinations_json destinations.entry)) }
    ensures before { OnOk result (writer.new.before ≡ writer.old.before) }
    ensures spelled { IfOk result
        (λ is_spelled. is_spelled ≡ are_left octets.entry destinations.entry) }
{
    writer.begin_array()?;
    let mut rest = octets;
    for destination in destinations {
        put_prefix(writer, alloc, destination.prefix)?;
        rest = after_next(destination, rest);
    }
    writer.end_array()?;
    Ok(is_end(rest))
}
