//! Items, of which lists of capabilities and attributes consist.

ghost use Rattle.std.specs.Prelude.{◌≡◌, ◌≤◌, drop, length};
ghost use Rattle.json.specs.Tree.{json_tokens};
ghost use Rattle.bgp_values.specs.Items.{item_size, items_of};
ghost use Rattle.bgp_json_values.specs.Adding.{Adds};
ghost use Rattle.bgp_json_values.specs.ItemJson.{family_at, family_members, item_json, items_json};
ghost use Rattle.bgp_json_values.specs.ItemJson.{way_json};
ghost use Rattle.bgp_json_values.specs.Objects.{members_tokens};

use crate::texts::{put_address, put_number, put_octets, put_truth};
use bgp_names::name_of_way;
use bgp_prefix::Address;
use bgp_values::{Item, first_piece, has_bits};
use byteorder::{BigEndian, ByteOrder};
use json_writer::Writer;
use std::alloc::{AllocError, Allocator};

/// Returns the octets behind so many.
pub(crate) fn behind(count: usize, octets: &[u8]) -> &[u8]
    requires { count ≤ length octets.now }
    ensures { result.now ≡ drop count octets.entry.now }
{
    octets.split_at(count).1
}

/// Puts a family by its numbers: two members.
pub(crate) fn put_family<A: Allocator>(
    writer: &mut Writer<A>,
    afi: u16,
    safi: u16,
) -> Result<(), AllocError>
    ensures { Adds result writer.old writer.new (members_tokens (family_members afi safi)) }
{
    put_number(writer, "afi", u64::from(afi))?;
    put_number(writer, "safi", u64::from(safi))
}

/// Puts a family: AFI of two octets, SAFI of one.
fn put_family_at<A: Allocator>(writer: &mut Writer<A>, octets: &[u8]) -> Result<(), AllocError>
    requires { 3 ≤ length octets.now }
    ensures { Adds result writer.old writer.new (members_tokens (family_at octets.now)) }
{
    put_family(writer, BigEndian::read_u16(octets), u16::from(octets[2]))
}

/// Puts a family and the AFI of its next hops.
fn put_hop_family<A: Allocator>(writer: &mut Writer<A>, octets: &[u8]) -> Result<(), AllocError>
    requires { length octets.now ≡ 6 }
    ensures { Adds result writer.old writer.new
        (json_tokens (item_json Item.HopFamily octets.now)) }
{
    let safi = BigEndian::read_u16(behind(2, octets));
    let next_hop_afi = BigEndian::read_u16(behind(4, octets));
    writer.begin_object()?;
    put_family(writer, BigEndian::read_u16(octets), safi)?;
    put_number(writer, "next_hop_afi", u64::from(next_hop_afi))?;
    writer.end_object()
}

/// Puts a family of Graceful Restart.
fn put_restart_family<A: Allocator>(writer: &mut Writer<A>, octets: &[u8]) -> Result<(), AllocError>
    requires { length octets.now ≡ 4 }
    ensures { Adds result writer.old writer.new
        (json_tokens (item_json Item.RestartFamily octets.now)) }
{
    writer.begin_object()?;
    put_family_at(writer, octets)?;
    put_truth(writer, "preserved", has_bits(octets[3], 128))?;
    writer.end_object()
}

/// Puts what a system does with path identifiers.
fn put_way<A: Allocator>(writer: &mut Writer<A>, way: u8) -> Result<(), AllocError>
    ensures { Adds result writer.old writer.new (json_tokens (way_json way)) }
{
    writer.string(name_of_way(way).unwrap_or(""))
}

/// Puts a family and what is done with its path identifiers.
fn put_path_family<A: Allocator>(writer: &mut Writer<A>, octets: &[u8]) -> Result<(), AllocError>
    requires { length octets.now ≡ 4 }
    ensures { Adds result writer.old writer.new
        (json_tokens (item_json Item.PathFamily octets.now)) }
{
    writer.begin_object()?;
    put_family_at(writer, octets)?;
    writer.key("way")?;
    put_way(writer, octets[3])?;
    writer.end_object()
}

/// Puts a family of Long-Lived Graceful Restart.
fn put_long_lived_family<A: Allocator>(
    writer: &mut Writer<A>,
    octets: &[u8],
) -> Result<(), AllocError>
    requires { length octets.now ≡ 7 }
    ensures { Adds result writer.old writer.new
        (json_tokens (item_json Item.LongLivedFamily octets.now)) }
{
    let time = BigEndian::read_u24(behind(4, octets));
    writer.begin_object()?;
    put_family_at(writer, octets)?;
    put_truth(writer, "preserved", has_bits(octets[3], 128))?;
    put_number(writer, "time", u64::from(time))?;
    writer.end_object()
}

/// Puts a community: its two halves.
fn put_community<A: Allocator>(writer: &mut Writer<A>, octets: &[u8]) -> Result<(), AllocError>
    requires { length octets.now ≡ 4 }
    ensures { Adds result writer.old writer.new
        (json_tokens (item_json Item.Community octets.now)) }
{
    let high = BigEndian::read_u16(octets);
    let low = BigEndian::read_u16(behind(2, octets));
    writer.pair(u32::from(high), u32::from(low))
}

/// Puts a large community: its three numbers.
fn put_large_community<A: Allocator>(
    writer: &mut Writer<A>,
    octets: &[u8],
) -> Result<(), AllocError>
    requires { length octets.now ≡ 12 }
    ensures { Adds result writer.old writer.new
        (json_tokens (item_json Item.LargeCommunity octets.now)) }
{
    let first = BigEndian::read_u32(octets);
    let second = BigEndian::read_u32(behind(4, octets));
    let third = BigEndian::read_u32(behind(8, octets));
    writer.triple(first, second, third)
}

/// Puts an item.
#[inline(always)]
fn put_item<A: Allocator + Copy>(
    writer: &mut Writer<A>,
    alloc: A,
    item: Item,
    octets: &[u8],
) -> Result<(), AllocError>
    requires { length octets.now ≡ item_size item }
    ensures { Adds result writer.old writer.new (json_tokens (item_json item octets.now)) }
{
    match item {
        Item::HopFamily => put_hop_family(writer, octets),
        Item::RestartFamily => put_restart_family(writer, octets),
        Item::PathFamily => put_path_family(writer, octets),
        Item::LongLivedFamily => put_long_lived_family(writer, octets),
        Item::AsNumber2 => writer.u32(u32::from(BigEndian::read_u16(octets))),
        Item::AsNumber4 => writer.u32(BigEndian::read_u32(octets)),
        Item::Community => put_community(writer, octets),
        Item::ExtendedCommunity => put_octets(writer, alloc, octets),
        Item::LargeCommunity => put_large_community(writer, octets),
        Item::Cluster => put_address(writer, alloc, Address::V4(BigEndian::read_u32(octets))),
    }
}

/// Puts the items that octets are, as an array. It is made for an item that is known where it is
/// called.
#[inline(always)]
fn put_each<A: Allocator + Copy>(
    writer: &mut Writer<A>,
    alloc: A,
    item: Item,
    octets: &[u8],
) -> Result<(), AllocError>
    ensures { Adds result writer.old writer.new
        (json_tokens (items_json item (items_of item octets.now))) }
{
    writer.begin_array()?;
    let mut rest = octets;
    while let Some((piece, others)) = first_piece(item.size(), rest) {
        put_item(writer, alloc, item, piece)?;
        rest = others;
    }
    writer.end_array()
}

/// Puts the items that octets are, as an array.
pub(crate) fn put_items<A: Allocator + Copy>(
    writer: &mut Writer<A>,
    alloc: A,
    item: Item,
    octets: &[u8],
) -> Result<(), AllocError>
    ensures { Adds result writer.old writer.new
        (json_tokens (items_json item (items_of item octets.now))) }
{
    match item {
        Item::AsNumber4 => put_each(writer, alloc, Item::AsNumber4, octets),
        Item::AsNumber2 => put_each(writer, alloc, Item::AsNumber2, octets),
        Item::Community => put_each(writer, alloc, Item::Community, octets),
        Item::LargeCommunity => put_each(writer, alloc, Item::LargeCommunity, octets),
        _ => put_each(writer, alloc, item, octets),
    }
}
