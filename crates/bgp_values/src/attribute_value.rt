//! What the values of path attributes say (RFC 4271, 4.3 and 5), but for the two that have routes
//! of other families.

ghost use Rattle.std.specs.Prelude.{◌≡◌, option_map};
ghost use Rattle.bgp_values.specs.AttributeValue.{address_value, aggregator_value};
ghost use Rattle.bgp_values.specs.AttributeValue.{as4_path_value, atomic_value, attribute_value};
ghost use Rattle.bgp_values.specs.AttributeValue.{attribute_value_of, items_value, metric_value};
ghost use Rattle.bgp_values.specs.AttributeValue.{number_value, origin_value, path_value};

use crate::items::Item;
use crate::pieces::are_some_pieces;
use crate::segments::are_segments;
use byteorder::{BigEndian, ByteOrder};

/// What the value of a path attribute says.
#[derive(Clone, Copy, Debug)]
pub enum AttributeValue<'a> {
    /// The number of ORIGIN, 0 to 2.
    Origin(u8),
    /// A path: whether its AS numbers have four octets, and the octets that are its segments.
    Path(bool, &'a [u8]),
    /// An IPv4 address.
    Address(u32),
    /// A number.
    Number(u32),
    /// Nothing but that it is there.
    Atomic,
    /// The AS number and the address of an aggregator.
    Aggregator(u32, u32),
    /// Items, and their octets.
    Items(Item, &'a [u8]),
    /// A metric (RFC 7311, 3).
    Metric(u64),
}

/// Reads a value of ORIGIN.
fn read_origin(octets: &[u8]) -> Option<AttributeValue<'_>>
    ensures { option_map attribute_value_of result ≡ origin_value octets.entry.now }
{
    if octets.len() == 1 && octets[0] <= 2 {
        Some(AttributeValue::Origin(octets[0]))
    } else {
        None
    }
}

/// Reads a path whose AS numbers have four octets, or two.
fn read_path(as4: bool, octets: &[u8]) -> Option<AttributeValue<'_>>
    ensures { option_map attribute_value_of result ≡ path_value as4 octets.entry.now }
{
    if are_segments(as4, octets) {
        Some(AttributeValue::Path(as4, octets))
    } else {
        None
    }
}

/// Reads a path whose AS numbers have four octets, and which isn't empty.
fn read_as4_path(octets: &[u8]) -> Option<AttributeValue<'_>>
    ensures { option_map attribute_value_of result ≡ as4_path_value octets.entry.now }
{
    if octets.is_empty() {
        return None;
    }
    read_path(true, octets)
}

/// Reads an IPv4 address.
fn read_address(octets: &[u8]) -> Option<AttributeValue<'_>>
    ensures { option_map attribute_value_of result ≡ address_value octets.entry.now }
{
    if octets.len() == 4 {
        Some(AttributeValue::Address(BigEndian::read_u32(octets)))
    } else {
        None
    }
}

/// Reads a number.
fn read_number(octets: &[u8]) -> Option<AttributeValue<'_>>
    ensures { option_map attribute_value_of result ≡ number_value octets.entry.now }
{
    if octets.len() == 4 {
        Some(AttributeValue::Number(BigEndian::read_u32(octets)))
    } else {
        None
    }
}

/// Reads a value that has no octets.
fn read_atomic(octets: &[u8]) -> Option<AttributeValue<'_>>
    ensures { option_map attribute_value_of result ≡ atomic_value octets.entry.now }
{
    if octets.is_empty() {
        Some(AttributeValue::Atomic)
    } else {
        None
    }
}

/// Reads the AS number, of four octets or two, and the address of an aggregator.
fn read_aggregator(as4: bool, octets: &[u8]) -> Option<AttributeValue<'_>>
    ensures { option_map attribute_value_of result ≡ aggregator_value as4 octets.entry.now }
{
    match (as4, octets.len()) {
        (false, 6) => Some(AttributeValue::Aggregator(
            u32::from(BigEndian::read_u16(octets)),
            BigEndian::read_u32(&octets[2..]),
        )),
        (true, 8) => Some(AttributeValue::Aggregator(
            BigEndian::read_u32(octets),
            BigEndian::read_u32(&octets[4..]),
        )),
        _ => None,
    }
}

/// Reads items, one at least.
fn read_items(kind: Item, octets: &[u8]) -> Option<AttributeValue<'_>>
    ensures { option_map attribute_value_of result ≡ items_value kind octets.entry.now }
{
    if are_some_pieces(kind.size(), octets) {
        Some(AttributeValue::Items(kind, octets))
    } else {
        None
    }
}

/// Reads a metric.
fn read_metric(octets: &[u8]) -> Option<AttributeValue<'_>>
    ensures { option_map attribute_value_of result ≡ metric_value octets.entry.now }
{
    if octets.len() != 11 || octets[0] != 1 || BigEndian::read_u16(&octets[1..]) != 11 {
        return None;
    }
    Some(AttributeValue::Metric(BigEndian::read_u64(&octets[3..])))
}

impl<'a> AttributeValue<'a> {
    /// Returns what the octets of an attribute of this type say, if they say something. AS numbers
    /// have four octets, or two.
    pub fn of(as4: bool, kind: u8, octets: &'a [u8]) -> Option<AttributeValue<'a>>
        ensures { option_map attribute_value_of result
            ≡ attribute_value as4 kind octets.entry.now }
    {
        match kind {
            1 => read_origin(octets),
            2 => read_path(as4, octets),
            3 | 9 => read_address(octets),
            4 | 5 | 35 => read_number(octets),
            6 => read_atomic(octets),
            7 => read_aggregator(as4, octets),
            8 => read_items(Item::Community, octets),
            10 => read_items(Item::Cluster, octets),
            16 => read_items(Item::ExtendedCommunity, octets),
            17 => read_as4_path(octets),
            18 => read_aggregator(true, octets),
            26 => read_metric(octets),
            32 => read_items(Item::LargeCommunity, octets),
            _ => None,
        }
    }
}
