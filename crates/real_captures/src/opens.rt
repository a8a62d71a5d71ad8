//! OPENs, and what a system that is configured so finds in them, against what was worked out by
//! hand.
//!
//! A line of `case` says what a block teaches, `config` gives the configuration and `octets` the
//! OPEN. Each line behind them tells one thing: whether there is such a configuration
//! (`configured`), whether it may send the OPEN itself (`own`) and does (`written`), the subcodes
//! that a peer's has to be refused with and those that it may be (`must`, `may`), what a peer's
//! settles (`link`), how routes are spelled then that are received and that are sent (`forms`), and
//! the number of the fault where it is none (`malformed`).

use crate::case::{malformed, octets_of};
use bgp_open::{
    Config, ConfigParts, Families, Link, OpenSubcodes, RouteForm, is_own_open, negotiate,
    open_faults, read_open, write_own_open,
};
use bgp_vectors::parts_of;
use std::alloc::{AllocError, Global};
use std::io;

/// Whether each line of a block is so.
pub(crate) fn is_open(alloc: Global, block: &str) -> io::Result<bool> {
    let (_, rest) = first_line(block);
    let (config, rest) = first_line(rest);
    let (octets, told) = first_line(rest);
    let (Some(config), Some(digits)) = (
        config.strip_prefix("config "),
        octets.strip_prefix("octets "),
    ) else {
        return Err(malformed());
    };
    let Some(parts) = parts_of(alloc, config)? else {
        return Err(malformed());
    };
    let octets = octets_of(alloc, digits)?;
    are_told(alloc, &parts, octets.as_slice(), told)
}

/// A text's first line, and the others.
fn first_line(text: &str) -> (&str, &str) {
    text.split_once('\n').unwrap_or((text, ""))
}

/// Whether each of these lines is so of these parts and an OPEN.
fn are_told(alloc: Global, parts: &ConfigParts, octets: &[u8], told: &str) -> io::Result<bool> {
    let Some(config) = Config::new(*parts) else {
        return Ok(told == "configured no");
    };
    for line in told.split('\n') {
        if !is_told(alloc, &config, octets, line)? {
            return Ok(false);
        }
    }
    Ok(config.parts == *parts)
}

/// Whether a line is so of a configuration and an OPEN.
fn is_told(alloc: Global, config: &Config, octets: &[u8], line: &str) -> io::Result<bool> {
    let (word, told) = line.split_once(' ').unwrap_or((line, ""));
    match word {
        "configured" => Ok(told == "yes"),
        "own" => Ok(is_own_open(config, octets) == (told == "yes")),
        "written" => Ok(is_written(alloc, config, octets)? == (told == "yes")),
        "must" => Ok(are_subcodes(alloc, &open_faults(config, octets).must, told)?),
        "may" => Ok(are_subcodes(alloc, &open_faults(config, octets).may, told)?),
        "link" => Ok(is_settled(alloc, config, octets, told)?),
        "forms" => Ok(are_forms(alloc, config, octets, told)?),
        "malformed" => Ok(is_malformed(octets, told)),
        _ => Err(malformed()),
    }
}

/// Whether these are the subcodes of a set, in ascending order, each with the data that it wants.
fn are_subcodes(alloc: Global, set: &OpenSubcodes, told: &str) -> Result<bool, AllocError> {
    let mut text = String::new(alloc);
    for subcode in 0..=255u8 {
        if set.contains(subcode, &[0x00, 0x04]) {
            let is_free = set.contains(subcode, &[]);
            let data = if is_free { "" } else { ":0004" };
            text.push_str(format!(in alloc; "{subcode}{data} ")?.as_str())?;
        }
    }
    Ok(set.is_empty() == told.is_empty() && text.as_str().trim_end() == told)
}

/// Whether the system writes just these octets for its OPEN, behind another one.
fn is_written(alloc: Global, config: &Config, octets: &[u8]) -> Result<bool, AllocError> {
    let mut out = Vec::from_slice(alloc, &[9])?;
    let is_written = write_own_open(config, &mut out).is_ok();
    Ok(is_written && out.split_first() == Some((&9, octets)))
}

/// Whether octets are no OPEN, and their fault has this number.
fn is_malformed(octets: &[u8], number: &str) -> bool {
    match read_open(octets) {
        Ok(_) => false,
        Err(fault) => number.parse::<u8>() == Ok(fault.number()),
    }
}

/// How a set of families is told.
fn name_of(families: Families) -> &'static str {
    match (families.v4, families.v6) {
        (false, false) => "-",
        (true, false) => "v4",
        (false, true) => "v6",
        (true, true) => "v4,v6",
    }
}

/// How a link is told: the Hold Time, the octets of an AS number, the families, the peer, and
/// whether it offers extended messages.
fn link_text(alloc: Global, link: &Link) -> Result<String, AllocError> {
    let (hold, families) = (link.hold, name_of(link.families));
    let width = if link.as4 { 4 } else { 2 };
    let peer = if link.internal {
        "internal"
    } else {
        "external"
    };
    let limit = if link.extended { "extended" } else { "plain" };
    format!(in alloc; "{hold} {width} {families} {peer} {limit}")
}

/// Whether a configuration and an OPEN settle that.
fn is_settled(
    alloc: Global,
    config: &Config,
    octets: &[u8],
    told: &str,
) -> Result<bool, AllocError> {
    match read_open(octets) {
        Ok(open) => Ok(link_text(alloc, &negotiate(config, &open))?.as_str() == told),
        Err(_) => Ok(false),
    }
}

/// How a form is told: the families with path identifiers, and whether IPv4 routes may have IPv6
/// next hops.
fn form_text(alloc: Global, form: &RouteForm) -> Result<String, AllocError> {
    let families = name_of(form.identified);
    let next_hops = if form.ipv6_next_hops {
        "+next-hops"
    } else {
        ""
    };
    format!(in alloc; "{families}{next_hops}")
}

/// Whether routes are spelled so under a configuration and a peer's OPEN: those that are received,
/// and those that are sent.
fn are_forms(
    alloc: Global,
    config: &Config,
    octets: &[u8],
    told: &str,
) -> Result<bool, AllocError> {
    let Ok(open) = read_open(octets) else {
        return Ok(false);
    };
    let link = negotiate(config, &open);
    let received = form_text(alloc, &link.received)?;
    let sent = form_text(alloc, &link.sent)?;
    let text = format!(in alloc; "{} {}", received.as_str(), sent.as_str())?;
    Ok(text.as_str() == told)
}
