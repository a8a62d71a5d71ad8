//! The value of an attribute as it is written: how many octets it has, and the octets.

ghost use Rattle.std.specs.Prelude.{◌≡◌, ◌+◌, ◌*◌, ◌≤◌, ◌^◌, ◌++◌, length, vec_len, vec_capacity};
ghost use Rattle.std.specs.List.{flat_map};
ghost use Rattle.byteorder.specs.Endian.{big_bytes};
ghost use Rattle.bgp_attr.specs.Values.{aggregator_octets, value_octets};

use crate::large_communities::{large_communities_len, put_large_communities};
use crate::segments::{as_path_len, number_len, put_as_number, put_as_path};
use bgp_path::{Aggregator, LargeCommunity, Segment};
use bgp_wire::{put_u8, put_u32, put_u64};
use std::alloc::Allocator;

/// The value of an attribute.
#[derive(Drop)]
pub(crate) enum AttrValue<'a, A: Allocator> {
    /// Nothing: the attribute says by being there.
    Empty,
    /// One octet.
    Octet(u8),
    /// A number of four octets.
    Number(u32),
    /// Numbers of four octets each.
    Numbers(&'a [u32]),
    /// Numbers of eight octets each.
    LongNumbers(&'a [u64]),
    /// Large communities.
    LargeCommunities(&'a [LargeCommunity]),
    /// Path segments; whether their AS numbers have four octets.
    Segments(bool, &'a [Segment<A>]),
    /// An AS number and an address; whether the number has four octets.
    Aggregator(bool, Aggregator),
}

impl<'a, A: Allocator> AttrValue<'a, A> {
    /// How many octets it has.
    pub(crate) fn len(&self) -> u128
        ensures len { result ≡ length (value_octets self.now) }
        ensures bound { result ≤ 1022 * 2 ^ 64 }
    {
        match *self {
            AttrValue::Empty => 0,
            AttrValue::Octet(_) => 1,
            AttrValue::Number(_) => 4,
            AttrValue::Numbers(numbers) => numbers_len(numbers),
            AttrValue::LongNumbers(numbers) => long_numbers_len(numbers),
            AttrValue::LargeCommunities(communities) => large_communities_len(communities),
            AttrValue::Segments(as4, segments) => as_path_len(as4, segments),
            AttrValue::Aggregator(as4, _) => number_len(as4) as u128 + 4,
        }
    }

    /// Appends it.
    pub(crate) fn put<B: Allocator>(&self, out: &mut Vec<u8, B>)
        requires { vec_len out.old + length (value_octets self.now) ≤ vec_capacity out.old }
        ensures items { out.new.items ≡ out.old.items ++ value_octets self.now }
        ensures len { vec_len out.new ≡ vec_len out.old + length (value_octets self.now) }
        ensures capacity { vec_capacity out.old ≤ vec_capacity out.new }
    {
        match *self {
            AttrValue::Empty => {}
            AttrValue::Octet(octet) => put_u8(out, octet),
            AttrValue::Number(number) => put_u32(out, number),
            AttrValue::Numbers(numbers) => put_u32s(out, numbers),
            AttrValue::LongNumbers(numbers) => put_u64s(out, numbers),
            AttrValue::LargeCommunities(communities) => put_large_communities(out, communities),
            AttrValue::Segments(as4, segments) => put_as_path(out, as4, segments),
            AttrValue::Aggregator(as4, aggregator) => put_aggregator(out, as4, aggregator),
        }
    }
}

/// How many octets numbers of four octets each have.
fn numbers_len(numbers: &[u32]) -> u128
    ensures len { result ≡ length (flat_map (big_bytes 4) numbers.now) }
    ensures bound { result ≤ 4 * 2 ^ 64 }
{
    4 * numbers.len() as u128
}

/// How many octets numbers of eight octets each have.
fn long_numbers_len(numbers: &[u64]) -> u128
    ensures len { result ≡ length (flat_map (big_bytes 8) numbers.now) }
    ensures bound { result ≤ 8 * 2 ^ 64 }
{
    8 * numbers.len() as u128
}

/// Appends an AS number and an address.
fn put_aggregator<A: Allocator>(out: &mut Vec<u8, A>, as4: bool, aggregator: Aggregator)
    requires { vec_len out.old + length (aggregator_octets as4 aggregator) ≤ vec_capacity out.old }
    ensures items { out.new.items ≡ out.old.items ++ aggregator_octets as4 aggregator }
    ensures len { vec_len out.new ≡ vec_len out.old + length (aggregator_octets as4 aggregator) }
    ensures capacity { vec_capacity out.old ≤ vec_capacity out.new }
{
    put_as_number(out, as4, aggregator.as_number);
    put_u32(out, aggregator.address);
}

/// Appends numbers of four octets each.
fn put_u32s<A: Allocator>(out: &mut Vec<u8, A>, numbers: &[u32])
    requires { vec_len out.old + length (flat_map (big_bytes 4) numbers.now)
        ≤ vec_capacity out.old }
    ensures items { out.new.items ≡ out.old.items ++ flat_map (big_bytes 4) numbers.now }
    ensures len { vec_len out.new
        ≡ vec_len out.old + length (flat_map (big_bytes 4) numbers.now) }
    ensures capacity { vec_capacity out.old ≤ vec_capacity out.new }
{
    for number in numbers {
        put_u32(out, *number);
    }
}

/// Appends numbers of eight octets each.
fn put_u64s<A: Allocator>(out: &mut Vec<u8, A>, numbers: &[u64])
    requires { vec_len out.old + length (flat_map (big_bytes 8) numbers.now)
        ≤ vec_capacity out.old }
    ensures items { out.new.items ≡ out.old.items ++ flat_map (big_bytes 8) numbers.now }
    ensures len { vec_len out.new
        ≡ vec_len out.old + length (flat_map (big_bytes 8) numbers.now) }
    ensures capacity { vec_capacity out.old ≤ vec_capacity out.new }
{
    for number in numbers {
        put_u64(out, *number);
    }
}
