//! UPDATEs whose octets were written down by hand from the layouts (RFC 4271, 4.3; RFC 4760, 3 and
//! 4; RFC 6793, 4.2.2), and counts of octets that were added up by hand.

mod faults;
mod memory;
mod rows;
mod sizes;

use bgp_open::{Config, Families, Link, negotiate, read_open};
use bgp_path::{
    AsPath, Items, LargeCommunity, NextHop, Numbers, Origin, Path, PathParts, Segment, SegmentKind,
};
use bgp_prefix::{Family, Prefix, read_prefix};
use bgp_update_writer::{Update, UpdateFault, write_update};
use bgp_vectors::SPEAKER_A;
use bgp_wire::vectors::OPEN_B;
use std::alloc::{AllocError, Global};

const BOTH: Families = Families { v4: true, v6: true };

const NEITHER: Families = Families {
    v4: false,
    v6: false,
};

/// 192.0.2.2
const HOP: NextHop = NextHop::V4(0xc000_0202);

/// 2001:db8::2
const HOP_V6: NextHop = NextHop::V6(0x2001_0db8 << 96 | 2);

/// What is to come of an update.
#[derive(Clone, Copy)]
enum Wanted<'a> {
    /// These octets are written.
    Octets(&'a [u8]),
    /// An UPDATE of so many octets is written.
    Length(u16),
    Fault(UpdateFault),
}

/// What a path says beside ORIGIN IGP.
#[derive(Clone, Copy)]
pub struct Said<'a> {
    /// The one AS of AS_PATH.
    number: u32,
    next_hop: NextHop,
    local_pref: Option<u32>,
    originator_id: Option<u32>,
    cluster_list: &'a [u32],
    communities: usize,
    large_communities: &'a [LargeCommunity],
}

/// An update over a link, and what is to come of it.
#[derive(Clone, Copy)]
struct Row<'a> {
    lesson: &'a str,
    /// The families in use.
    families: Families,
    /// Whether AS numbers have four octets.
    as4: bool,
    /// Whether the peer is internal.
    internal: bool,
    /// Whether the peer offers extended messages.
    extended: bool,
    /// The families whose prefixes are sent with path identifiers.
    identified: Families,
    /// By which path the prefixes are reachable; `None` where they are withdrawn.
    path: Option<Said<'a>>,
    family: Family,
    /// So many times each of these.
    prefixes: &'a [(usize, &'a str)],
    wanted: Wanted<'a>,
}

/// The path by AS 65002 and 192.0.2.2.
pub const BY_V4: Said<'static> = Said {
    number: 65002,
    next_hop: HOP,
    local_pref: None,
    originator_id: None,
    cluster_list: &[],
    communities: 0,
    large_communities: &[],
};

/// 65002:1:2
const LARGE: LargeCommunity = LargeCommunity {
    global_administrator: 65002,
    local_data_part_1: 1,
    local_data_part_2: 2,
};

/// The path by AS 65002 and 2001:db8::2, with fe80::2.
const BY_BOTH_V6: Said<'static> = Said {
    next_hop: NextHop::V6WithLinkLocal(0x2001_0db8 << 96 | 2, 0xfe80 << 112 | 2),
    ..BY_V4
};

/// The path by AS 65002 and 2001:db8::2.
const BY_V6: Said<'static> = Said {
    next_hop: HOP_V6,
    ..BY_V4
};

/// The announcement of 10.0.0.0/8, which is clean.
const ANNOUNCE: Row<'static> = Row {
    lesson: "",
    families: BOTH,
    as4: true,
    internal: false,
    extended: false,
    identified: NEITHER,
    path: Some(BY_V4),
    family: Family::V4,
    prefixes: &[(1, "10.0.0.0/8")],
    wanted: Wanted::Length(45),
};

/// The withdrawal of 10.0.0.0/8, which is clean.
const WITHDRAW: Row<'static> = Row {
    path: None,
    wanted: Wanted::Length(25),
    ..ANNOUNCE
};

/// What the router and its peer settle, but for what a row says otherwise.
fn link_of(row: &Row<'_>) -> Option<Link> {
    let config = Config::new(SPEAKER_A)?;
    let open = read_open(&OPEN_B).ok()?;
    let mut link = negotiate(&config, &open);
    link.families = row.families;
    link.as4 = row.as4;
    link.internal = row.internal;
    link.extended = row.extended;
    link.sent.identified = row.identified;
    Some(link)
}

/// Appends a prefix so many times.
fn append(prefixes: &mut Vec<Prefix>, count: usize, prefix: Prefix) -> Result<(), AllocError> {
    for _ in 0..count {
        prefixes.push(prefix)?;
    }
    Ok(())
}

/// So many times each prefix.
fn prefixes_of(alloc: Global, runs: &[(usize, &str)]) -> Option<Vec<Prefix>> {
    let mut prefixes = Vec::new(alloc);
    for (count, text) in runs {
        append(&mut prefixes, *count, read_prefix(text)?).ok()?;
    }
    Some(prefixes)
}

/// The AS path of one AS.
fn as_path(alloc: Global, number: u32) -> Result<AsPath, AllocError> {
    let mut as_path = AsPath::new(alloc);
    if let Some(segment) = Segment::new(SegmentKind::Sequence, vec![in alloc; number]?) {
        as_path.push(segment)?;
    }
    Ok(as_path)
}

/// A path that says this.
pub fn path_of(alloc: Global, said: &Said<'_>) -> Result<Path, AllocError> {
    let as_path = as_path(alloc, said.number)?;
    let cluster_list = Vec::from_slice(alloc, said.cluster_list)?;
    let communities = vec![in alloc; 0xffff_ff01u32; said.communities]?;
    let large_communities = Vec::from_slice(alloc, said.large_communities)?;
    let parts = PathParts {
        origin: Origin::Igp,
        as_path,
        next_hop: said.next_hop,
        multi_exit_disc: None,
        local_pref: said.local_pref,
        atomic_aggregate: false,
        aggregator: None,
        communities: Numbers::from(communities),
        originator_id: said.originator_id,
        cluster_list: Items::from(cluster_list),
        extended_communities: Items::new(alloc),
        large_communities: Items::from(large_communities),
    };
    Path::new(alloc, parts)
}

/// Whether this was appended to what stood there.
fn is_right(
    answer: Result<(), UpdateFault>,
    out: &[u8],
    stood: &[u8],
    wanted: &Wanted<'_>,
) -> bool {
    let Some(appended) = out.strip_prefix(stood) else {
        return false;
    };
    match (answer, wanted) {
        (Ok(()), Wanted::Octets(octets)) => appended == *octets,
        (Ok(()), Wanted::Length(length)) => {
            let [high, low] = length.to_be_bytes();
            let header = [high, low, 2]; // Length, UPDATE
            appended.len() == usize::from(*length) && appended.get(16..19) == Some(&header)
        }
        (Err(fault), Wanted::Fault(wanted)) => appended.is_empty() && fault == *wanted,
        _ => false,
    }
}

/// Whether that comes of an update behind what stands there.
fn is_answered_behind(
    alloc: Global,
    link: &Link,
    update: &Update<'_>,
    (stood, wanted): (&[u8], &Wanted<'_>),
) -> bool {
    match Vec::from_slice(alloc, stood) {
        Ok(mut out) => {
            let answer = write_update(link, update, &mut out);
            is_right(answer, &out, stood, wanted)
        }
        Err(_) => false,
    }
}

/// Whether that comes of an update, behind an octet and where nothing stands.
fn is_answered(alloc: Global, link: &Link, update: &Update<'_>, wanted: &Wanted<'_>) -> bool {
    is_answered_behind(alloc, link, update, (&[], wanted))
        && is_answered_behind(alloc, link, update, (&[9], wanted))
        && match wanted {
            Wanted::Octets(octets) => {
                memory::is_refused_and_then_written(alloc, link, update, octets)
            }
            _ => true,
        }
}

/// Whether what is wanted comes of an announcement of these prefixes.
fn is_announced(alloc: Global, row: &Row<'_>, said: &Said<'_>, prefixes: &[Prefix]) -> bool {
    match (link_of(row), path_of(alloc, said)) {
        (Some(link), Ok(path)) => {
            let update = Update::Announce {
                family: row.family,
                prefixes,
                path: &path,
            };
            is_answered(alloc, &link, &update, &row.wanted)
        }
        _ => false,
    }
}

/// Whether it comes of their withdrawal.
fn is_withdrawn(alloc: Global, row: &Row<'_>, prefixes: &[Prefix]) -> bool {
    let family = row.family;
    match link_of(row) {
        Some(link) => is_answered(
            alloc,
            &link,
            &Update::Withdraw { family, prefixes },
            &row.wanted,
        ),
        None => false,
    }
}

/// Whether that comes of the row's update.
fn is_told(alloc: Global, row: &Row<'_>) -> bool {
    match (prefixes_of(alloc, row.prefixes), &row.path) {
        (Some(prefixes), Some(said)) => is_announced(alloc, row, said, &prefixes),
        (Some(prefixes), None) => is_withdrawn(alloc, row, &prefixes),
        (None, _) => false,
    }
}
