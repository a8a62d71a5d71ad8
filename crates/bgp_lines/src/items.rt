//! The texts of items, of which lists of capabilities and attributes consist.

ghost use Rattle.std.specs.Prelude.{◌≡◌, ◌≤◌, [], drop, length, if◌then◌else◌};
ghost use Rattle.bgp_text.specs.Lines.{Writes};
ghost use Rattle.bgp_names.specs.Families.{family_name, family_numbers};
ghost use Rattle.bgp_values.specs.Items.{item_size, items_of};
ghost use Rattle.bgp_lines.specs.ItemText.{family_text, item_text, preserved_text, way_text};
ghost use Rattle.bgp_lines.specs.Joined.{each_behind, joined};

use bgp_names::{name_of_way, put_afi_name, put_family_name};
use bgp_text::Lines;
use bgp_values::{Item, first_piece, has_bits};
use byteorder::{BigEndian, ByteOrder};
use mrt::Sink;

/// Returns the octets behind so many.
pub(crate) fn behind(count: usize, octets: &[u8]) -> &[u8]
    requires { count ≤ length octets.now }
    ensures { result.now ≡ drop count octets.entry.now }
{
    octets.split_at(count).1
}

/// Puts a word if something is so.
pub(crate) fn put_if<W: Sink>(lines: &mut Lines<'_, W>, is_so: bool, word: &[u8])
    ensures { Writes lines.old lines.new (if is_so then word.now else []) }
{
    lines.put(if is_so { word } else { b"" });
}

/// Puts a family by its numbers.
fn put_numbers<W: Sink>(lines: &mut Lines<'_, W>, afi: u16, safi: u16)
    ensures { Writes lines.old lines.new (family_numbers afi safi) }
{
    lines.put(b"afi ");
    lines.put_decimal(afi);
    lines.put(b" safi ");
    lines.put_decimal(safi);
}

/// Puts a family whose SAFI has two octets.
fn put_wide_family<W: Sink>(lines: &mut Lines<'_, W>, afi: u16, safi: u16)
    ensures { Writes lines.old lines.new (family_name afi safi) }
{
    match u8::try_from(safi) {
        Ok(safi) => put_family_name(lines, afi, safi),
        Err(_) => put_numbers(lines, afi, safi),
    }
}

/// Puts a family: AFI of two octets, SAFI of one.
fn put_family<W: Sink>(lines: &mut Lines<'_, W>, octets: &[u8])
    requires { 3 ≤ length octets.now }
    ensures { Writes lines.old lines.new (family_text octets.now) }
{
    put_family_name(lines, BigEndian::read_u16(octets), octets[2]);
}

/// Puts whether the state of a family's routes was preserved.
fn put_preserved<W: Sink>(lines: &mut Lines<'_, W>, flags: u8)
    ensures { Writes lines.old lines.new (preserved_text flags) }
{
    put_if(lines, has_bits(flags, 128), b" preserved");
}

/// Puts what a system does with path identifiers.
fn put_way<W: Sink>(lines: &mut Lines<'_, W>, way: u8)
    ensures { Writes lines.old lines.new (way_text way) }
{
    lines.put(name_of_way(way).unwrap_or("").as_bytes());
}

/// Puts a family and the AFI of its next hops.
fn put_hop_family<W: Sink>(lines: &mut Lines<'_, W>, octets: &[u8])
    requires { length octets.now ≡ 6 }
    ensures { Writes lines.old lines.new (item_text Item.HopFamily octets.now) }
{
    put_wide_family(
        lines,
        BigEndian::read_u16(octets),
        BigEndian::read_u16(behind(2, octets)),
    );
    lines.put(b" via ");
    put_afi_name(lines, BigEndian::read_u16(behind(4, octets)));
}

/// Puts a family of Graceful Restart.
fn put_restart_family<W: Sink>(lines: &mut Lines<'_, W>, octets: &[u8])
    requires { length octets.now ≡ 4 }
    ensures { Writes lines.old lines.new (item_text Item.RestartFamily octets.now) }
{
    put_family(lines, octets);
    put_preserved(lines, octets[3]);
}

/// Puts a family and what is done with its path identifiers.
fn put_path_family<W: Sink>(lines: &mut Lines<'_, W>, octets: &[u8])
    requires { length octets.now ≡ 4 }
    ensures { Writes lines.old lines.new (item_text Item.PathFamily octets.now) }
{
    put_family(lines, octets);
    lines.put(b" ");
    put_way(lines, octets[3]);
}

/// Puts a family of Long-Lived Graceful Restart.
fn put_long_lived_family<W: Sink>(lines: &mut Lines<'_, W>, octets: &[u8])
    requires { length octets.now ≡ 7 }
    ensures { Writes lines.old lines.new (item_text Item.LongLivedFamily octets.now) }
{
    put_family(lines, octets);
    lines.put(b" ");
    lines.put_decimal(BigEndian::read_u24(behind(4, octets)));
    lines.put(b" seconds");
    put_preserved(lines, octets[3]);
}

/// Puts a community: its two halves.
fn put_community<W: Sink>(lines: &mut Lines<'_, W>, octets: &[u8])
    requires { length octets.now ≡ 4 }
    ensures { Writes lines.old lines.new (item_text Item.Community octets.now) }
{
    lines.put_decimal(BigEndian::read_u16(octets));
    lines.put(b":");
    lines.put_decimal(BigEndian::read_u16(behind(2, octets)));
}

/// Puts a large community: its three numbers.
fn put_large_community<W: Sink>(lines: &mut Lines<'_, W>, octets: &[u8])
    requires { length octets.now ≡ 12 }
    ensures { Writes lines.old lines.new (item_text Item.LargeCommunity octets.now) }
{
    lines.put_decimal(BigEndian::read_u32(octets));
    lines.put(b":");
    lines.put_decimal(BigEndian::read_u32(behind(4, octets)));
    lines.put(b":");
    lines.put_decimal(BigEndian::read_u32(behind(8, octets)));
}

/// Puts an item.
#[tactic(auto, unfolding(crate::specs::ItemText::item_text))]
fn put_item<W: Sink>(lines: &mut Lines<'_, W>, item: Item, octets: &[u8])
    requires { length octets.now ≡ item_size item }
    ensures { Writes lines.old lines.new (item_text item octets.now) }
{
    match item {
        Item::HopFamily => put_hop_family(lines, octets),
        Item::RestartFamily => put_restart_family(lines, octets),
        Item::PathFamily => put_path_family(lines, octets),
        Item::LongLivedFamily => put_long_lived_family(lines, octets),
        Item::AsNumber2 => lines.put_decimal(BigEndian::read_u16(octets)),
        Item::AsNumber4 => lines.put_decimal(BigEndian::read_u32(octets)),
        Item::Community => put_community(lines, octets),
        Item::ExtendedCommunity => lines.put_digits(octets),
        Item::LargeCommunity => put_large_community(lines, octets),
        Item::Cluster => lines.put_ipv4(BigEndian::read_u32(octets)),
    }
}

/// Puts the items that octets are, each behind this text.
pub(crate) fn put_each<W: Sink>(lines: &mut Lines<'_, W>, before: &[u8], item: Item, octets: &[u8])
    ensures { Writes lines.old lines.new
        (each_behind before.now (item_text item) (items_of item octets.now)) }
{
    let mut rest = octets;
    while let Some((piece, others)) = first_piece(item.size(), rest) {
        lines.put(before);
        put_item(lines, item, piece);
        rest = others;
    }
}

/// Puts the items that octets are, with this text between them.
pub(crate) fn put_joined<W: Sink>(
    lines: &mut Lines<'_, W>,
    between: &[u8],
    item: Item,
    octets: &[u8],
)
    ensures { Writes lines.old lines.new
        (joined between.now (item_text item) (items_of item octets.now)) }
{
    let Some((first, others)) = first_piece(item.size(), octets) else {
        return lines.put(b"");
    };
    put_item(lines, item, first);
    put_each(lines, between, item, others);
}
