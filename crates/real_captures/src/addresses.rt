//! The texts of IPv6 addresses (RFC 5952) against a table that another program made, and those of
//! addresses and prefixes by hand behind it: `data/addresses.txt` says which.
//!
//! A line is a number in hexadecimal digits, 8 for IPv4 and 32 for IPv6, with `/` and a length if
//! it is of a prefix; then its text, and other texts that are read as it. A dash stands before a
//! text of no address, and `-/` before one of no prefix.

use bgp_prefix::{Address, Prefix, read_address, read_prefix};
use std::alloc::Global;
use std::fmt::Display;
use std::rt::Files;
use std::{fs, io};

/// Prints each line of the table that is not so, and then how many are. Answers whether all are.
pub(crate) fn compare_addresses<R: Files + Print + AllocGlobal>(rt: &R) -> io::Result<bool> {
    let table = fs::read_to_string(rt, "addresses.txt")?;
    let mut same = 0u64;
    let mut others = 0u64;
    for line in table.lines() {
        if line.starts_with('#') {
            continue;
        }
        if is_so(rt.alloc(), line)? {
            same = same.saturating_add(1);
        } else {
            println!(rt; "not so: {line}")?;
            others = others.saturating_add(1);
        }
    }
    println!(rt; "{same} texts as in the table, {others} others")?;
    Ok(others == 0)
}

/// Whether a line is so.
fn is_so(alloc: Global, line: &str) -> io::Result<bool> {
    let (number, texts) = line.split_once(' ').unwrap_or((line, ""));
    match number {
        "-" => Ok(read_address(texts).is_none()),
        "-/" => Ok(read_prefix(texts).is_none()),
        _ => are_texts(alloc, number, texts),
    }
}

/// Whether an address or a prefix with a number prints the first of these texts, and is read from
/// each.
fn are_texts(alloc: Global, number: &str, texts: &str) -> io::Result<bool> {
    let (printed, _) = texts.split_once(' ').unwrap_or((texts, ""));
    if let Some(prefix) = prefix_of(number) {
        let are_read = texts
            .split(' ')
            .all(|text| read_prefix(text) == Some(prefix));
        Ok(are_read && prints(alloc, &prefix, printed)?)
    } else if let Some(address) = address_of(number) {
        let are_read = texts
            .split(' ')
            .all(|text| read_address(text) == Some(address));
        Ok(are_read && prints(alloc, &address, printed)?)
    } else {
        Ok(false)
    }
}

/// The address of this number.
fn address_of(digits: &str) -> Option<Address> {
    if digits.len() == 8 {
        Some(Address::V4(u32::from_str_radix(digits, 16).ok()?))
    } else {
        Some(Address::V6(u128::from_str_radix(digits, 16).ok()?))
    }
}

/// The prefix of this lowest address and this length.
fn prefix_of(number: &str) -> Option<Prefix> {
    let (digits, length) = number.split_once('/')?;
    Prefix::new(address_of(digits)?, length.parse::<u8>().ok()?)
}

/// Whether a value prints this text.
fn prints(alloc: Global, value: &impl Display, text: &str) -> io::Result<bool> {
    Ok(format!(in alloc; "{value}")?.as_str() == text)
}
