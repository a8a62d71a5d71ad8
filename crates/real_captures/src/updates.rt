//! The outcomes of UPDATEs against what another program told of them, which was written from the
//! same specification apart from ours, in two tables, and against what was worked out by hand from
//! the standards in another, a block of lines a case.
//!
//! A line of `case` says what a block teaches. `link` and `octets` are given; told are the families
//! that an Apply disables (`apply`), what it removes and puts (`remove`, `put`), the subcodes of a
//! reset (`reset`), and whether the UPDATE is clean (`clean`). Where OPENs offer anything about
//! routes, two lists stand behind the link: what the own OPEN offers, and what the peer's does.

use crate::case::{malformed, octets_of};
use bgp_open::{
    Config, ConfigParts, Families, Link, RouteOffer, negotiate, read_open, write_own_open,
};
use bgp_path::Path;
use bgp_text::write_route;
use bgp_update::{Changes, Destination, Outcomes, Subcodes, is_clean, read_update};
use bgp_vectors::{SPEAKER_A, families_of, offer_of};
use mrt::MemSink;
use std::alloc::{AllocError, Global};
use std::io;

/// Whether a case is so.
pub(crate) fn is_outcome(alloc: Global, block: &str) -> io::Result<bool> {
    let Some((line, digits, told)) = parts_of(block) else {
        return Ok(false);
    };
    let link = link_of(alloc, line)?;
    let octets = octets_of(alloc, digits)?;
    has_outcomes(alloc, &link, octets.as_slice(), told)
}

/// The line of the link, the digits of the UPDATE and the lines that a block tells.
fn parts_of(block: &str) -> Option<(&str, &str, &str)> {
    let (line, rest) = given_in(block).split_once('\n')?;
    let (digits, told) = rest.split_once('\n').unwrap_or((rest, ""));
    Some((line, digits.strip_prefix("octets ")?, told))
}

/// Whether an UPDATE has the outcomes that are told.
fn has_outcomes(alloc: Global, link: &Link, octets: &[u8], told: &str) -> io::Result<bool> {
    let outcomes = read_update(alloc, link, octets)?;
    let mut text = String::new(alloc);
    push_outcomes(alloc, &mut text, &outcomes)?;
    let clean = if is_clean(link, octets) {
        "clean yes"
    } else {
        "clean no"
    };
    text.push_str(clean)?;
    Ok(is_ordered(&outcomes) && text.as_str() == told)
}

/// The lines after that which says what a block teaches, if one does.
fn given_in(block: &str) -> &str {
    match block.split_once('\n') {
        Some((first, rest)) if first.starts_with("case ") => rest,
        _ => block,
    }
}

/// The first of all subcodes that is in a set.
fn first_in(set: Subcodes) -> Option<u8> {
    for subcode in 0..=255u8 {
        if set.contains(subcode) {
            return Some(subcode);
        }
    }
    None
}

/// Whether the least subcode is the first of the set, and no family is disabled where nothing is
/// applied.
fn is_ordered(outcomes: &Outcomes<Global>) -> bool {
    let (certain, optional) = (outcomes.certain, outcomes.optional);
    let are_kept = !certain.v4 && !certain.v6 && !optional.v4 && !optional.v6;
    let reset = outcomes.reset;
    reset.least() == first_in(reset)
        && reset.is_empty() == reset.least().is_none()
        && (outcomes.changes.is_some() || are_kept)
}

/// The link that a line tells: the octets of an AS number, the peer and the families in use, and
/// what both OPENs offer about routes, if they offer anything.
fn link_of(alloc: Global, line: &str) -> io::Result<Link> {
    let (config, peers) = configs_of(line).ok_or_else(malformed)?;
    let mut octets = Vec::new(alloc);
    write_own_open(&peers, &mut octets)?;
    let open = read_open(octets.as_slice()).map_err(|_| malformed())?;
    Ok(negotiate(&config, &open))
}

/// The configurations of both ends of the link that a line tells, the own one first.
fn configs_of(line: &str) -> Option<(Config, Config)> {
    let mut words = line.split(' ').skip(1);
    let as4 = words.next()? == "4";
    let is_internal = words.next()? == "internal";
    let used = families_of(words.next()?);
    let config = config_of(as4, is_internal, used, offer_of(words.next())?)?;
    let peers = peers_config_of(used, offer_of(words.next())?)?;
    Some((config, peers))
}

/// A configuration by which these families are used.
fn config_of(as4: bool, is_internal: bool, used: Families, offers: RouteOffer) -> Option<Config> {
    Config::new(ConfigParts {
        local_as: if is_internal { 65002 } else { 65001 },
        families: Families {
            v4: used.v4,
            v6: used.v6 || !used.v4,
        },
        as4,
        offers,
        ..SPEAKER_A
    })
}

/// The peer's: it offers IPv4 in any case, so that no family is used where the own OPEN offers IPv6
/// alone.
fn peers_config_of(used: Families, offers: RouteOffer) -> Option<Config> {
    Config::new(ConfigParts {
        local_as: 65002,
        peer_as: 65001,
        local_id: 0xc000_0202,
        families: Families {
            v4: true,
            v6: used.v6,
        },
        offers,
        ..SPEAKER_A
    })
}

/// Appends the lines of the outcomes.
fn push_outcomes(alloc: Global, text: &mut String, outcomes: &Outcomes<Global>) -> io::Result<()> {
    if let Some(changes) = &outcomes.changes {
        push_disabled(text, outcomes)?;
        push_changes(alloc, text, changes)?;
    }
    if !outcomes.reset.is_empty() {
        text.push_str("reset")?;
        for subcode in 0..=255u8 {
            if outcomes.reset.contains(subcode) {
                text.push_str(format!(in alloc; " {subcode}")?.as_str())?;
            }
        }
        text.push_str("\n")?;
    }
    Ok(())
}

/// The sets of families, and how each is told.
static SETS: [(bool, bool, &str); 4] = [
    (false, false, "-"),
    (true, false, "v4"),
    (false, true, "v6"),
    (true, true, "v4,v6"),
];

/// Appends a line for each set of families that an Apply disables: the certain ones, and of the
/// optional ones any.
fn push_disabled(text: &mut String, outcomes: &Outcomes<Global>) -> Result<(), AllocError> {
    for (v4, v6, name) in &SETS {
        let (certain, optional) = (outcomes.certain, outcomes.optional);
        if may_be(*v4, certain.v4, optional.v4) && may_be(*v6, certain.v6, optional.v6) {
            text.push_str("apply disabled ")?;
            text.push_str(name)?;
            text.push_str("\n")?;
        }
    }
    Ok(())
}

/// Whether a family may be disabled so.
fn may_be(disabled: bool, certain: bool, optional: bool) -> bool {
    if disabled {
        certain || optional
    } else {
        !certain
    }
}

/// Appends what is removed, and what is put.
fn push_changes(alloc: Global, text: &mut String, changes: &Changes<Global>) -> io::Result<()> {
    if !changes.remove.is_empty() {
        text.push_str("remove")?;
        for destination in changes.remove.as_slice() {
            push_destination(alloc, text, *destination)?;
        }
        text.push_str("\n")?;
    }
    for group in changes.nlri.iter().chain(&changes.mp_reach_nlri) {
        for destination in group.destinations.as_slice() {
            text.push_str("put ")?;
            push_route(alloc, text, *destination, &group.path)?;
            text.push_str("\n")?;
        }
    }
    Ok(())
}

/// Appends the text of a destination, after a blank.
fn push_destination(
    alloc: Global,
    text: &mut String,
    destination: Destination,
) -> Result<(), AllocError> {
    let Destination { prefix, path } = destination;
    text.push_str(format!(in alloc; " {prefix}")?.as_str())?;
    match path {
        Some(id) => text.push_str(format!(in alloc; "#{}", id.number())?.as_str()),
        None => Ok(()),
    }
}

/// Appends the text of a route.
fn push_route(
    alloc: Global,
    text: &mut String,
    destination: Destination,
    path: &Path<Global>,
) -> io::Result<()> {
    let mut sink = MemSink::new(alloc);
    if write_route(&mut sink, destination, path).is_err() {
        return Err(io::Error::from(AllocError));
    }
    match str::from_utf8(sink.octets()) {
        Ok(route) => Ok(text.push_str(route)?),
        Err(_) => Err(io::Error::from(io::ErrorKind::InvalidData)),
    }
}
