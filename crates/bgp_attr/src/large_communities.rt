//! Large communities as the octets of LARGE_COMMUNITY hold them (RFC 8092, 3):
//!
//! ```text
//! Global Administrator 4 | Local Data Part 1 4 | Local Data Part 2 4
//! ```

ghost use Rattle.std.specs.Prelude.{◌≡◌, ◌≤◌, ◌<◌, ◌+◌, ◌*◌, ◌^◌, ◌++◌, IfSome, IfNone, IfOk};
ghost use Rattle.std.specs.Prelude.{List, [], ◌∷◌, if◌then◌else◌, not};
ghost use Rattle.std.specs.Prelude.{length, drop, vec_len, vec_capacity};
ghost use Rattle.std.specs.List.{flat_map};
ghost use Rattle.bgp_path.specs.declared.large_community.LargeCommunity.{
  LargeCommunity as LargeCommunityValue,
};
ghost use Rattle.bgp_path.specs.LargeCommunities.{has_large_community, without_repeats};
ghost use Rattle.bgp_attr.specs.LargeCommunities.{large_communities_in, large_community_at};
ghost use Rattle.bgp_attr.specs.LargeCommunities.{large_community_octets};
ghost use Rattle.bgp_attr.specs.Noted.{AreNoted};

use bgp_path::LargeCommunity;
use bgp_wire::put_u32;
use byteorder::{BigEndian, ByteOrder};
use std::alloc::{AllocError, Allocator};
use std::collections::BTreeSet;

/// How many octets one has.
const SIZE: usize = 12;

/// So many are quicker compared with each other than noted in a set.
const FEW: usize = 48;

/// The large community in the first twelve octets, and what follows them.
fn split_large_community(octets: &[u8]) -> Option<(LargeCommunity, &[u8])>
    ensures enough { IfSome result (λ _. 12 ≤ length octets.now) }
    ensures community { IfSome result (λ r. r.0 ≡ large_community_at octets.now) }
    ensures rest { IfSome result (λ r. r.1.now ≡ drop 12 octets.now) }
    ensures none { IfNone result (length octets.now < 12) }
{
    if octets.len() < SIZE {
        return None;
    }
    let community = LargeCommunity {
        global_administrator: BigEndian::read_u32(octets),
        local_data_part_1: BigEndian::read_u32(&octets[4..]),
        local_data_part_2: BigEndian::read_u32(&octets[8..]),
    };
    Some((community, &octets[SIZE..]))
}

/// Notes a large community. Returns whether none that was noted before is equal to it.
fn note<A: Allocator + Clone>(
    noted: &mut BTreeSet<(u32, u32, u32), A>,
    community: LargeCommunity,
) -> Result<bool, AllocError>
    ensures new { (kept : List LargeCommunityValue) → AreNoted noted.old kept
        → IfOk result (λ new. new ≡ not (has_large_community kept community)) }
    ensures noted { (kept : List LargeCommunityValue) → AreNoted noted.old kept
        → IfOk result
        (λ new. AreNoted noted.new (if new then kept ++ community ∷ [] else kept)) }
{
    let numbers = (
        community.global_administrator,
        community.local_data_part_1,
        community.local_data_part_2,
    );
    Ok(noted.insert(numbers)?)
}

/// The large communities in their order, of equal ones the first alone: each is compared with all
/// before it.
fn read_few<A: Allocator>(alloc: A, octets: &[u8]) -> Result<Vec<LargeCommunity, A>, AllocError>
    ensures { IfOk result (λ communities.
        communities.items ≡ without_repeats (large_communities_in octets.now)) }
{
    let mut communities = Vec::with_capacity(alloc, octets.len() / SIZE)?;
    let mut rest = octets;
    while let Some((community, after)) = split_large_community(rest) {
        if !communities.contains(&community) {
            communities.push(community)?;
        }
        rest = after;
    }
    Ok(communities)
}

/// The same, with a set of those that were read: what one takes grows as the logarithm of their
/// count.
fn read_many<A: Allocator + Copy>(
    alloc: A,
    octets: &[u8],
) -> Result<Vec<LargeCommunity, A>, AllocError>
    ensures { IfOk result (λ communities.
        communities.items ≡ without_repeats (large_communities_in octets.now)) }
{
    let mut communities = Vec::with_capacity(alloc, octets.len() / SIZE)?;
    let mut noted = BTreeSet::new(alloc);
    let mut rest = octets;
    while let Some((community, after)) = split_large_community(rest) {
        if note(&mut noted, community)? {
            communities.push(community)?;
        }
        rest = after;
    }
    Ok(communities)
}

/// The large communities in their order, of equal ones the first alone (RFC 8092, 3).
pub(crate) fn read_large_communities<A: Allocator + Copy>(
    alloc: A,
    octets: &[u8],
) -> Result<Vec<LargeCommunity, A>, AllocError>
    ensures { IfOk result (λ communities.
        communities.items ≡ without_repeats (large_communities_in octets.now)) }
{
    if octets.len() <= FEW * SIZE {
        return read_few(alloc, octets);
    }
    read_many(alloc, octets)
}

/// How many octets large communities have.
pub(crate) fn large_communities_len(communities: &[LargeCommunity]) -> u128
    ensures len { result ≡ length (flat_map large_community_octets communities.now) }
    ensures bound { result ≤ 12 * 2 ^ 64 }
{
    SIZE as u128 * communities.len() as u128
}

/// Appends large communities.
pub(crate) fn put_large_communities<A: Allocator>(
    out: &mut Vec<u8, A>,
    communities: &[LargeCommunity],
)
    requires { vec_len out.old + length (flat_map large_community_octets communities.now)
        ≤ vec_capacity out.old }
    ensures items { out.new.items
        ≡ out.old.items ++ flat_map large_community_octets communities.now }
    ensures len { vec_len out.new
        ≡ vec_len out.old + length (flat_map large_community_octets communities.now) }
    ensures capacity { vec_capacity out.old ≤ vec_capacity out.new }
{
    for community in communities {
        put_large_community(out, *community);
    }
}

/// Appends one: its three numbers.
fn put_large_community<A: Allocator>(out: &mut Vec<u8, A>, community: LargeCommunity)
    requires { vec_len out.old + length (large_community_octets community)
        ≤ vec_capacity out.old }
    ensures items { out.new.items ≡ out.old.items ++ large_community_octets community }
    ensures len { vec_len out.new ≡ vec_len out.old + length (large_community_octets community) }
    ensures capacity { vec_capacity out.old ≤ vec_capacity out.new }
{
    put_u32(out, community.global_administrator);
    put_u32(out, community.local_data_part_1);
    put_u32(out, community.local_data_part_2);
}
