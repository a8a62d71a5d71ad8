//! The routes of a made-up peer: prefixes in no order or ascending, in groups that share a path.

use crate::parties::{PEER_ADDRESS, PEER_AS};
use crate::paths::{Attributes, path_of};
use bgp_path::{Origin, Path};
use bgp_prefix::{Address, Family, Prefix};
use bgp_update::{Changes, Destination, PathId, Put};
use std::alloc::{AllocError, Global};
use std::ops::Range;

/// What the peer has.
#[derive(Clone, Copy)]
pub struct Feed {
    v4: u32,
    v6: u32,
    per_group: u32,
    is_sorted: bool,
}

impl Feed {
    /// So many prefixes of each family, and about so many paths; and whether prefixes ascend.
    pub fn new(v4: u32, v6: u32, paths: u32, is_sorted: bool) -> Feed {
        let prefixes = v4.saturating_add(v6);
        Feed {
            v4,
            v6,
            per_group: prefixes.checked_div(paths).unwrap_or(1).max(1),
            is_sorted,
        }
    }

    /// How many prefixes it has.
    pub fn prefixes(&self) -> u32 {
        self.v4.saturating_add(self.v6)
    }

    /// How many groups the prefixes of IPv4 have.
    fn v4_groups(&self) -> u32 {
        groups(self.v4, self.per_group)
    }

    /// How many groups there are.
    pub fn groups(&self) -> u32 {
        self.v4_groups()
            .saturating_add(groups(self.v6, self.per_group))
    }

    /// The family of a group, and which of its prefixes the group has.
    fn members(&self, group: u32) -> (Family, Range<u32>) {
        let v4_groups = self.v4_groups();
        let (family, place, count) = if group < v4_groups {
            (Family::V4, group, self.v4)
        } else {
            (Family::V6, group.saturating_sub(v4_groups), self.v6)
        };
        let first = place.saturating_mul(self.per_group);
        let end = first.saturating_add(self.per_group).min(count);
        (family, first.min(end)..end)
    }

    /// One of the prefixes.
    fn prefix(&self, family: Family, index: u32) -> Option<Prefix> {
        let number = if self.is_sorted { index } else { mixed(index) };
        prefix(family, number)
    }

    /// The prefixes of a group, without path identifiers.
    fn group(&self, alloc: Global, group: u32) -> Result<Vec<Destination>, AllocError> {
        let (family, members) = self.members(group);
        let mut destinations = Vec::new(alloc);
        for index in members {
            if let Some(prefix) = self.prefix(family, index) {
                let path: Option<PathId> = None;
                destinations.push(Destination { prefix, path })?;
            }
        }
        Ok(destinations)
    }

    /// The group is announced.
    pub fn announcement(
        &self,
        alloc: Global,
        group: u32,
        path: &Path,
    ) -> Result<Changes, AllocError> {
        let destinations = self.group(alloc, group)?;
        let path = path.clone()?;
        let put = Some(Put { path, destinations });
        let (nlri, mp_reach_nlri) = if self.members(group).0 == Family::V4 {
            (put, None)
        } else {
            (None, put)
        };
        Ok(Changes {
            remove: Vec::new(alloc),
            nlri,
            mp_reach_nlri,
        })
    }

    /// The octets of the group's prefixes (RFC 4271, 4.3).
    fn spelled(&self, alloc: Global, group: u32) -> Result<Vec<u8>, AllocError> {
        let (family, members) = self.members(group);
        let mut octets = Vec::new(alloc);
        for index in members {
            if let Some(prefix) = self.prefix(family, index) {
                prefix.write(&mut octets)?;
            }
        }
        Ok(octets)
    }

    /// The UPDATE by which the group is announced: in its NLRI field (RFC 4271, 4.3), or for IPv6
    /// in MP_REACH_NLRI (RFC 4760, 3).
    pub fn announcing(&self, alloc: Global, group: u32) -> Result<Vec<u8>, AllocError> {
        let nlri = self.spelled(alloc, group)?;
        match self.members(group).0 {
            Family::V4 => announcing_v4(alloc, group, &nlri),
            Family::V6 => announcing_v6(alloc, group, &nlri),
        }
    }

    /// The UPDATE by which the group is withdrawn: in its field of withdrawn routes (RFC 4271,
    /// 4.3), or for IPv6 in MP_UNREACH_NLRI (RFC 4760, 4).
    pub fn withdrawing(&self, alloc: Global, group: u32) -> Result<Vec<u8>, AllocError> {
        let withdrawn = self.spelled(alloc, group)?;
        match self.members(group).0 {
            Family::V4 => update(alloc, &withdrawn, b"", b""),
            Family::V6 => withdrawing_v6(alloc, &withdrawn),
        }
    }
}

/// ORIGIN, and of AS_PATH what is before the last of four AS numbers.
const ORIGIN_AND_AS_PATH: [u8; 21] = [
    0x40, 0x01, 0x01, 0x00, // ORIGIN: IGP
    0x40, 0x02, 0x12, 0x02, 0x04, // AS_PATH: a sequence of four
    0x00, 0x00, 0xfd, 0xea, // 65002
    0x00, 0x00, 0x00, 0xae, // 174
    0x00, 0x00, 0x0d, 0x1c, // 3356
];

/// Of COMMUNITIES what is before the last of two.
const COMMUNITIES: [u8; 7] = [0xc0, 0x08, 0x08, 0xfd, 0xea, 0x00, 0x01];

/// NEXT_HOP: 192.0.2.2.
const NEXT_HOP: [u8; 7] = [0x40, 0x03, 0x04, 0xc0, 0x00, 0x02, 0x02];

/// Of the value of MP_REACH_NLRI what is before its prefixes.
const REACH_V6: [u8; 21] = [
    0x00, 0x02, 0x01, 0x10, // IPv6 unicast, a next hop of 16 octets
    0x20, 0x01, 0x0d, 0xb8, 0x00, 0x00, 0x00, 0x00, // 2001:db8::
    0x00, 0x00, 0x00, 0x00, 0x00, 0x00, 0x00, 0x00, // its other half
    0x00, // reserved
];

/// The UPDATE by which prefixes of IPv4 are announced.
fn announcing_v4(alloc: Global, group: u32, nlri: &[u8]) -> Result<Vec<u8>, AllocError> {
    let number = group.to_be_bytes();
    let fields: [&[u8]; 5] = [
        &ORIGIN_AND_AS_PATH,
        &number,
        &COMMUNITIES,
        &number,
        &NEXT_HOP,
    ];
    let attributes = joined(alloc, &fields)?;
    update(alloc, b"", &attributes, nlri)
}

/// The UPDATE by which prefixes of IPv6 are announced.
fn announcing_v6(alloc: Global, group: u32, nlri: &[u8]) -> Result<Vec<u8>, AllocError> {
    let number = group.to_be_bytes();
    let length = octets_of(nlri.len().saturating_add(21));
    let fields: [&[u8]; 8] = [
        &ORIGIN_AND_AS_PATH,
        &number,
        &COMMUNITIES,
        &number,
        b"\x90\x0e",
        &length,
        &REACH_V6,
        nlri,
    ];
    let attributes = joined(alloc, &fields)?;
    update(alloc, b"", &attributes, b"")
}

/// The UPDATE by which prefixes of IPv6 are withdrawn.
fn withdrawing_v6(alloc: Global, withdrawn: &[u8]) -> Result<Vec<u8>, AllocError> {
    let length = octets_of(withdrawn.len().saturating_add(3));
    let fields: [&[u8]; 4] = [b"\x90\x0f", &length, b"\x00\x02\x01", withdrawn];
    let attributes = joined(alloc, &fields)?;
    update(alloc, b"", &attributes, b"")
}

/// The UPDATE of these fields (RFC 4271, 4.3).
fn update<'a>(
    alloc: Global,
    withdrawn: &'a [u8],
    attributes: &'a [u8],
    nlri: &'a [u8],
) -> Result<Vec<u8>, AllocError> {
    let fields = withdrawn.len().saturating_add(attributes.len());
    let length = octets_of(fields.saturating_add(nlri.len()).saturating_add(23));
    let of_withdrawn = octets_of(withdrawn.len());
    let of_attributes = octets_of(attributes.len());
    let fields: [&[u8]; 8] = [
        &[0xff; 16],
        &length,
        &[2],
        &of_withdrawn,
        withdrawn,
        &of_attributes,
        attributes,
        nlri,
    ];
    joined(alloc, &fields)
}

/// Octets, one field after another.
fn joined(alloc: Global, fields: &[&[u8]]) -> Result<Vec<u8>, AllocError> {
    let mut octets = Vec::new(alloc);
    for field in fields {
        octets.extend_from_slice(field)?;
    }
    Ok(octets)
}

/// A count as two octets, or the greatest that fits.
fn octets_of(count: usize) -> [u8; 2] {
    u16::try_from(count).unwrap_or(u16::MAX).to_be_bytes()
}

/// How many groups so many prefixes have.
fn groups(prefixes: u32, per_group: u32) -> u32 {
    prefixes
        .checked_div(per_group)
        .unwrap_or(0)
        .saturating_add(1)
}

/// A path of four AS numbers and two communities, another one for each group.
pub fn path(alloc: Global, group: u32) -> Result<Path, AllocError> {
    let attributes = Attributes {
        origin: Origin::Igp,
        numbers: Vec::from_slice(alloc, &[PEER_AS, 174, 3356, group])?,
        next_hop: PEER_ADDRESS,
        communities: Vec::from_slice(alloc, &[group, 0xfdea_0001])?,
    };
    path_of(alloc, attributes)
}

/// A number of 24 bits. As the indices ascend the numbers are in no order, and no two of the first
/// 2^24 are equal: products by odd numbers and the sums by halves can be undone.
fn mixed(index: u32) -> u32 {
    let one = index.wrapping_mul(0x9e37_79b1) & 0xff_ffff;
    (one ^ (one >> 12)).wrapping_mul(0x85eb_ca6b) & 0xff_ffff
}

/// The prefix of 24 or 48 bits with this number of 24 bits.
fn prefix(family: Family, number: u32) -> Option<Prefix> {
    match family {
        Family::V4 => Prefix::new(Address::V4(number << 8), 24),
        Family::V6 => Prefix::new(
            Address::V6((0x2001 << 112) | (u128::from(number) << 80)),
            48,
        ),
    }
}
