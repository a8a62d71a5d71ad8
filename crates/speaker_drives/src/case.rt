//! A case, told by a block of lines: `config` and the settings; `next-hops` and two addresses; what
//! is handed in; and what comes of it, with `capture` and the records, and `>` and a route.

use bgp_open::Config;
use bgp_prefix::{Address, read_address};
use hex::FromHexError;
use std::alloc::{AllocError, Global};
use std::io;

pub(crate) fn malformed() -> io::Error {
    io::Error::from(io::ErrorKind::InvalidData)
}

/// What stands after a word in the first line that begins with it.
pub(crate) fn line_of<'a>(block: &'a str, word: &str) -> Option<&'a str> {
    for line in block.split('\n') {
        if let Some((first, rest)) = line.split_once(' ') {
            if first == word {
                return Some(rest);
            }
        }
    }
    None
}

/// The settings.
pub(crate) fn config_of(alloc: Global, block: &str) -> io::Result<Config> {
    let Some(line) = line_of(block, "config") else {
        return Err(malformed());
    };
    bgp_vectors::config_of(alloc, line)?.ok_or_else(malformed)
}

/// The next hops.
pub(crate) fn hops_of(block: &str) -> io::Result<(u32, u128)> {
    let words = line_of(block, "next-hops").and_then(|line| line.split_once(' '));
    let Some((first, second)) = words else {
        return Err(malformed());
    };
    match (read_address(first), read_address(second)) {
        (Some(Address::V4(first)), Some(Address::V6(second))) => Ok((first, second)),
        _ => Err(malformed()),
    }
}

/// The octets that hexadecimal digits spell; a dash spells none.
pub(crate) fn octets_of(alloc: Global, digits: &str) -> io::Result<Vec<u8>> {
    if digits == "-" {
        return Ok(Vec::new(alloc));
    }
    match hex::decode(alloc, digits) {
        Ok(octets) => Ok(octets),
        Err(FromHexError::OutOfMemory) => Err(io::Error::from(AllocError)),
        Err(_) => Err(malformed()),
    }
}

/// Whether a line of the block spells these octets.
pub(crate) fn is_line(alloc: Global, block: &str, word: &str, octets: &[u8]) -> io::Result<bool> {
    match line_of(block, word) {
        Some(digits) => Ok(octets_of(alloc, digits)?.as_slice() == octets),
        None => Err(malformed()),
    }
}

/// What stands after the word `input` in a line: the second, the name and the value.
pub(crate) fn words_in(line: &str) -> Option<(&str, &str, &str)> {
    let (second, input) = line.strip_prefix("input ")?.split_once(' ')?;
    let (name, value) = input.split_once(' ').unwrap_or((input, ""));
    Some((second, name, value))
}

/// The digits of the octets that a line hands in, or that it is read.
fn digits_in(line: &str) -> Option<&str> {
    match line.strip_prefix("read ") {
        Some("Nothing" | "Closed" | "Failed") => None,
        Some(digits) => Some(digits),
        None => match words_in(line) {
            Some((_, "Bytes", digits)) => Some(digits),
            _ => None,
        },
    }
}

/// The octets of all pieces, joined.
pub(crate) fn pieces_of(alloc: Global, block: &str) -> io::Result<Vec<u8>> {
    let mut octets = Vec::new(alloc);
    for line in block.split('\n') {
        if let Some(digits) = digits_in(line) {
            octets.extend_from_slice(octets_of(alloc, digits)?.as_slice())?;
        }
    }
    Ok(octets)
}

/// The lines of the routes.
fn routes_of(alloc: Global, block: &str) -> io::Result<String> {
    let mut text = String::new(alloc);
    for line in block.split('\n') {
        if let Some(route) = line.strip_prefix("> ") {
            text.push_str(route)?;
            text.push_str("\n")?;
        }
    }
    Ok(text)
}

/// Whether the text of an end has the routes of the block.
pub(crate) fn are_routes(alloc: Global, end: &str, block: &str) -> io::Result<bool> {
    match end.split_once('\n') {
        Some((_, routes)) => Ok(routes == routes_of(alloc, block)?.as_str()),
        None => Ok(false),
    }
}
