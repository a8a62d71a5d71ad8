//! UPDATEs that announce a prefix each.

use crate::broken;
use crate::paths::{Attributes, path_of};
use bgp_open::Link;
use bgp_path::{Origin, Path};
use bgp_prefix::{Address, Family, Prefix};
use bgp_update_writer::{Update, write_update};
use std::alloc::{AllocError, Global};
use std::io;

/// So many prefixes of 24 bits, which ascend from 16.0.0.0/24 on.
pub(crate) fn prefixes_of(alloc: Global, count: u32) -> io::Result<Vec<Prefix>> {
    let mut prefixes = Vec::new(alloc);
    for number in 0..count.min(1 << 20) {
        match Prefix::new(Address::V4(0x1000_0000 | (number << 8)), 24) {
            Some(prefix) => prefixes.push(prefix)?,
            None => return Err(broken()),
        }
    }
    Ok(prefixes)
}

/// ORIGIN, AS_PATH of one AS and NEXT_HOP.
pub(crate) fn plain_path(alloc: Global, number: u32, next_hop: u32) -> Result<Path, AllocError> {
    let attributes = Attributes {
        origin: Origin::Igp,
        numbers: Vec::from_slice(alloc, &[number])?,
        next_hop,
        communities: Vec::new(alloc),
    };
    path_of(alloc, attributes)
}

/// The UPDATEs that announce the prefixes one by one, joined.
pub(crate) fn written(
    alloc: Global,
    link: &Link,
    path: &Path,
    prefixes: &[Prefix],
) -> io::Result<Vec<u8>> {
    let mut octets = Vec::new(alloc);
    for prefix in prefixes {
        let update: Update<'_> = Update::Announce {
            family: Family::V4,
            prefixes: &[*prefix],
            path,
        };
        if write_update(link, &update, &mut octets).is_err() {
            return Err(broken());
        }
    }
    Ok(octets)
}
