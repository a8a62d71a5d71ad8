//! The numbers of a path fit the octets that a message has for them. The functions have nothing to
//! run: their contracts hand on what the types say.

ghost use Rattle.std.specs.Prelude.{◌<◌, ◌^◌, IfSome, All};
ghost use Rattle.bgp_path.specs.Path.{value_of};
ghost use Rattle.bgp_path.specs.Fit.{IsFit, IsFitCommunity, IsFitHop};

use crate::large_community::LargeCommunity;
use crate::path::{Aggregator, NextHop, Path, PathParts};
use std::alloc::Allocator;

/// Each number of a path has at most as many octets as a message has for it.
pub fn path_is_fit<A: Allocator>(path: &Path<A>)
    ensures { IsFit path.now }
{
    parts_are_fit(path.parts());
}

/// The same of its parts.
fn parts_are_fit<A: Allocator>(parts: &PathParts<A>)
    ensures { IsFit (value_of parts.now) }
{
    let _segments = parts.as_path.segments();
    let communities = parts.communities.as_slice();
    let clusters = parts.cluster_list.as_slice();
    let extended = parts.extended_communities.as_slice();
    let large = parts.large_communities.as_slice();
    hop_is_fit(parts.next_hop);
    number_is_fit(parts.multi_exit_disc);
    number_is_fit(parts.local_pref);
    number_is_fit(parts.originator_id);
    aggregator_is_fit(parts.aggregator);
    numbers_are_fit(communities);
    numbers_are_fit(clusters);
    long_numbers_are_fit(extended);
    large_communities_are_fit(large);
}

/// The same of a next hop.
fn hop_is_fit(next_hop: NextHop)
    ensures { IsFitHop next_hop }
{
    match next_hop {
        NextHop::V4(_address) => {}
        NextHop::V6(_address) => {}
        NextHop::V6WithLinkLocal(_address, _link_local) => {}
    }
}

/// The same of a number that may be there.
fn number_is_fit(number: Option<u32>)
    ensures { IfSome number (λ n. n < 2 ^ 32) }
{
    if let Some(_number) = number {}
}

/// The same of an aggregator that may be there.
fn aggregator_is_fit(aggregator: Option<Aggregator>)
    ensures { IfSome aggregator (λ a. (a.as_number < 2 ^ 32) × (a.address < 2 ^ 32)) }
{
    if let Some(aggregator) = aggregator {
        let _number = aggregator.as_number;
        let _address = aggregator.address;
    }
}

/// The same of a list.
pub(crate) fn numbers_are_fit(numbers: &[u32])
    ensures { All (λ n. n < 2 ^ 32) numbers.now }
{}

/// The same of a list of numbers that have eight octets.
fn long_numbers_are_fit(numbers: &[u64])
    ensures { All (λ n. n < 2 ^ 64) numbers.now }
{}

/// The same of a list of large communities.
fn large_communities_are_fit(communities: &[LargeCommunity])
    ensures { All IsFitCommunity communities.now }
{
    for community in communities {
        community_is_fit(*community);
    }
}

/// The same of a large community.
fn community_is_fit(community: LargeCommunity)
    ensures { IsFitCommunity community }
{
    let _global_administrator = community.global_administrator;
    let _local_data_part_1 = community.local_data_part_1;
    let _local_data_part_2 = community.local_data_part_2;
}
