//! The fields of an UPDATE, appended to a vector that has room for them.

ghost use Rattle.std.specs.Prelude.{◌≡◌, ◌++◌, ◌+◌, ◌≤◌, length, vec_len, vec_capacity};
ghost use Rattle.byteorder.specs.Endian.{big_bytes};
ghost use Rattle.bgp_prefix.specs.Prefix.{prefix_octets};
ghost use Rattle.bgp_prefix.specs.declared.family.Family.TheVariants.{V6};
ghost use Rattle.bgp_attr.specs.Field.{attribute_octets};
ghost use Rattle.bgp_attr.specs.Writing.{path_octets};
ghost use Rattle.bgp_update.specs.Clean.{most_octets};
ghost use Rattle.bgp_update.specs.Found.{side_of};
ghost use Rattle.bgp_update_writer.specs.Update.{Announces, update_value};
ghost use Rattle.bgp_update_writer.specs.Written.{hop_octets, nlri_octets, reach_attribute};
ghost use Rattle.bgp_update_writer.specs.Written.{reach_octets, unreach_attribute, unreach_octets};
ghost use Rattle.bgp_update_writer.specs.Written.{announced_octets, field_octets, update_octets};
ghost use Rattle.bgp_update_writer.specs.Written.{withdrawn_octets};
ghost use Rattle.bgp_update_writer.specs.Lengths.{AreLengths};

use crate::lengths::{Lengths, hop_len};
use crate::update::Update;
use bgp_attr::{AttrType, put_attribute_header, put_path};
use bgp_open::Link;
use bgp_path::{NextHop, Path};
use bgp_prefix::{Family, Prefix};
use bgp_update::side;
use bgp_wire::{MessageType, put, put_header, put_u8, put_u16, put_u32};
use byteorder::{BigEndian, ByteOrder};
use std::alloc::Allocator;

/// AFI 2 and SAFI 1, IPv6 unicast (RFC 4760, 3).
const IPV6_UNICAST: [u8; 3] = [0, 2, 1];

/// Appends the octets that spell a prefix.
fn put_prefix<A: Allocator>(out: &mut Vec<u8, A>, prefix: &Prefix)
    requires { vec_len out.old + length (prefix_octets prefix.now) ≤ vec_capacity out.old }
    ensures items { out.new.items ≡ out.old.items ++ prefix_octets prefix.now }
    ensures len { vec_len out.new ≡ vec_len out.old + length (prefix_octets prefix.now) }
    ensures capacity { vec_capacity out.old ≤ vec_capacity out.new }
{
    // It can't fail where there is room.
    let _ = prefix.write(out);
}

/// Appends prefixes, one after another.
fn put_prefixes<A: Allocator>(out: &mut Vec<u8, A>, prefixes: &[Prefix])
    requires { vec_len out.old + length (nlri_octets prefixes.now) ≤ vec_capacity out.old }
    ensures items { out.new.items ≡ out.old.items ++ nlri_octets prefixes.now }
    ensures len { vec_len out.new ≡ vec_len out.old + length (nlri_octets prefixes.now) }
    ensures capacity { vec_capacity out.old ≤ vec_capacity out.new }
{
    for prefix in prefixes {
        put_prefix(out, prefix);
    }
}

/// Appends an IPv6 address.
fn put_ipv6<A: Allocator>(out: &mut Vec<u8, A>, address: u128)
    requires { vec_len out.old + 16 ≤ vec_capacity out.old }
    ensures items { out.new.items ≡ out.old.items ++ big_bytes 16 address }
    ensures len { vec_len out.new ≡ vec_len out.old + 16 }
    ensures capacity { vec_capacity out.old ≤ vec_capacity out.new }
{
    let mut octets = [0; 16];
    BigEndian::write_u128(&mut octets, address);
    put(out, &octets);
}

/// Appends a next hop.
fn put_hop<A: Allocator>(out: &mut Vec<u8, A>, hop: NextHop)
    requires { vec_len out.old + length (hop_octets hop) ≤ vec_capacity out.old }
    ensures items { out.new.items ≡ out.old.items ++ hop_octets hop }
    ensures len { vec_len out.new ≡ vec_len out.old + length (hop_octets hop) }
    ensures capacity { vec_capacity out.old ≤ vec_capacity out.new }
{
    match hop {
        NextHop::V4(address) => put_u32(out, address),
        NextHop::V6(address) => put_ipv6(out, address),
        NextHop::V6WithLinkLocal(address, link_local) => {
            put_ipv6(out, address);
            put_ipv6(out, link_local);
        }
    }
}

/// Appends MP_REACH_NLRI for IPv6, whose value has `value_len` octets:
///
/// ```text
/// +-----+------+-----+----------+----------+-----------+
/// | AFI | SAFI | len | Next hop | Reserved | Prefixes  |
/// |  2  |  1   |  1  |   len    |    1     | the rest  |
/// +-----+------+-----+----------+----------+-----------+
/// ```
fn put_reach<A: Allocator>(out: &mut Vec<u8, A>, hop: NextHop, prefixes: &[Prefix], value_len: u16)
    requires value { value_len ≡ length (reach_octets hop prefixes.now) }
    requires room { vec_len out.old + length (attribute_octets (reach_attribute hop prefixes.now))
        ≤ vec_capacity out.old }
    ensures items { out.new.items
        ≡ out.old.items ++ attribute_octets (reach_attribute hop prefixes.now) }
    ensures len { vec_len out.new
        ≡ vec_len out.old + length (attribute_octets (reach_attribute hop prefixes.now)) }
    ensures capacity { vec_capacity out.old ≤ vec_capacity out.new }
{
    put_attribute_header(out, AttrType::MpReachNlri, value_len);
    put(out, &IPV6_UNICAST);
    put_u8(out, hop_len(hop));
    put_hop(out, hop);
    put_u8(out, 0); // reserved
    put_prefixes(out, prefixes);
}

/// Appends MP_UNREACH_NLRI for IPv6, whose value has `value_len` octets: AFI, SAFI and prefixes.
fn put_unreach<A: Allocator>(out: &mut Vec<u8, A>, prefixes: &[Prefix], value_len: u16)
    requires value { value_len ≡ length (unreach_octets prefixes.now) }
    requires room { vec_len out.old + length (attribute_octets (unreach_attribute prefixes.now))
        ≤ vec_capacity out.old }
    ensures items { out.new.items
        ≡ out.old.items ++ attribute_octets (unreach_attribute prefixes.now) }
    ensures len { vec_len out.new
        ≡ vec_len out.old + length (attribute_octets (unreach_attribute prefixes.now)) }
    ensures capacity { vec_capacity out.old ≤ vec_capacity out.new }
{
    put_attribute_header(out, AttrType::MpUnreachNlri, value_len);
    put(out, &IPV6_UNICAST);
    put_prefixes(out, prefixes);
}

/// Appends the attributes of a path that a message has room for.
fn put_short_path<A: Allocator, B: Allocator>(out: &mut Vec<u8, A>, link: &Link, path: &Path<B>)
    requires fits { length (path_octets (side_of link.now) path.now) ≤ most_octets link.now }
    requires room { vec_len out.old + length (path_octets (side_of link.now) path.now)
        ≤ vec_capacity out.old }
    ensures items { out.new.items ≡ out.old.items ++ path_octets (side_of link.now) path.now }
    ensures len { vec_len out.new
        ≡ vec_len out.old + length (path_octets (side_of link.now) path.now) }
    ensures capacity { vec_capacity out.old ≤ vec_capacity out.new }
{
    put_path(out, side(link), path);
}

/// Appends the path attributes of an announcement of IPv6.
fn put_reachable<A: Allocator, B: Allocator>(
    out: &mut Vec<u8, A>,
    link: &Link,
    prefixes: &[Prefix],
    path: &Path<B>,
    value_len: u16,
)
    requires value { value_len ≡ length (reach_octets path.now.next_hop prefixes.now) }
    requires fits { length (field_octets link.now (Announces V6 prefixes.now path.now))
        ≤ most_octets link.now }
    requires room { vec_len out.old
        + length (field_octets link.now (Announces V6 prefixes.now path.now))
        ≤ vec_capacity out.old }
    ensures items { out.new.items
        ≡ out.old.items ++ field_octets link.now (Announces V6 prefixes.now path.now) }
    ensures len { vec_len out.new ≡ vec_len out.old
        + length (field_octets link.now (Announces V6 prefixes.now path.now)) }
    ensures capacity { vec_capacity out.old ≤ vec_capacity out.new }
{
    put_reach(out, path.parts().next_hop, prefixes, value_len);
    put_short_path(out, link, path);
}

/// Appends the path attributes.
fn put_attributes<A: Allocator, B: Allocator>(
    out: &mut Vec<u8, A>,
    link: &Link,
    update: &Update<'_, B>,
    lengths: Lengths,
)
    requires lengths { AreLengths link.now (update_value update.now) lengths }
    requires room { vec_len out.old + length (field_octets link.now (update_value update.now))
        ≤ vec_capacity out.old }
    ensures items { out.new.items
        ≡ out.old.items ++ field_octets link.now (update_value update.now) }
    ensures len { vec_len out.new
        ≡ vec_len out.old + length (field_octets link.now (update_value update.now)) }
    ensures capacity { vec_capacity out.old ≤ vec_capacity out.new }
{
    match update {
        Update::Announce {
            family: Family::V4,
            path,
            ..
        } => put_short_path(out, link, path),
        Update::Announce {
            family: Family::V6,
            prefixes,
            path,
        } => put_reachable(out, link, prefixes, path, lengths.mp_value),
        Update::Withdraw {
            family: Family::V4,
            ..
        } => {}
        Update::Withdraw {
            family: Family::V6,
            prefixes,
        } => put_unreach(out, prefixes, lengths.mp_value),
    }
}

/// Appends the Withdrawn Routes.
fn put_withdrawn<A: Allocator, B: Allocator>(out: &mut Vec<u8, A>, update: &Update<'_, B>)
    requires { vec_len out.old + length (withdrawn_octets (update_value update.now))
        ≤ vec_capacity out.old }
    ensures items { out.new.items ≡ out.old.items ++ withdrawn_octets (update_value update.now) }
    ensures len { vec_len out.new
        ≡ vec_len out.old + length (withdrawn_octets (update_value update.now)) }
    ensures capacity { vec_capacity out.old ≤ vec_capacity out.new }
{
    match update {
        Update::Withdraw {
            family: Family::V4,
            prefixes,
        } => put_prefixes(out, prefixes),
        _ => {}
    }
}

/// Appends the Network Layer Reachability Information.
fn put_nlri<A: Allocator, B: Allocator>(out: &mut Vec<u8, A>, update: &Update<'_, B>)
    requires { vec_len out.old + length (announced_octets (update_value update.now))
        ≤ vec_capacity out.old }
    ensures items { out.new.items ≡ out.old.items ++ announced_octets (update_value update.now) }
{
    match update {
        Update::Announce {
            family: Family::V4,
            prefixes,
            ..
        } => put_prefixes(out, prefixes),
        _ => {}
    }
}

/// Appends the UPDATE, whose fields have these lengths.
pub(crate) fn put_update<A: Allocator, B: Allocator>(
    out: &mut Vec<u8, A>,
    link: &Link,
    update: &Update<'_, B>,
    lengths: Lengths,
)
    requires lengths { AreLengths link.now (update_value update.now) lengths }
    requires room { vec_len out.old + length (update_octets link.now (update_value update.now))
        ≤ vec_capacity out.old }
    ensures { out.new.items ≡ out.old.items ++ update_octets link.now (update_value update.now) }
{
    put_header(out, MessageType::Update, lengths.message());
    put_u16(out, lengths.withdrawn);
    put_withdrawn(out, update);
    put_u16(out, lengths.attributes);
    put_attributes(out, link, update, lengths);
    put_nlri(out, update);
}
