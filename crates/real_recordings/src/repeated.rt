//! Whether `bgp judge` gives each verdict that is told with its options.

use crate::answer::lines_to;
use crate::case::malformed;
use crate::file::File;
use crate::words::{command_of, words_of};
use bgp_words::{Command, Reporting};
use std::alloc::Global;
use std::io;

/// What `bgp judge --explain` answers of a file, where it is asked by the words of a line.
fn judged(alloc: Global, file: &File<'_>, line: &str) -> io::Result<String> {
    let words = words_of(alloc, line)?;
    let Ok(
        Command::Judge {
            config,
            recording,
            file: name,
            ..
        },
    ) = command_of(alloc, words.as_slice())
    else {
        return Err(malformed());
    };
    let explain = Command::Judge {
        config,
        recording,
        reporting: Reporting {
            explain: true,
            json: false,
        },
        file: name,
    };
    lines_to(alloc, &explain, file)
}

/// A line around the number of a record that it names.
fn around_number(line: &str) -> (&str, &str) {
    match line.split_once("record ") {
        Some((front, rest)) => (front, rest.trim_start_matches(|c: char| c.is_ascii_digit())),
        None => (line, ""),
    }
}

/// How the note of `bgp check` begins that its answer is about one order of the packets.
static ABOUT_ONE_ORDER: &str = "note: packets do not show when a router handled what it received, ";

/// Whether a text is told as another is printed: in full, or its beginning, where any AS number but
/// one may be configured.
fn is_alike(told: &str, printed: &str) -> bool {
    match told.split_once(", configured another") {
        Some((front, _)) => printed.starts_with(front),
        None => told == printed,
    }
}

/// Whether a line is told as another is printed, or but for the number of a record: where messages
/// of a capture are passed over, `bgp judge` counts its records without them.
fn is_told_so(told: &str, printed: &str, counts_alike: bool) -> bool {
    if counts_alike {
        return is_alike(told, printed);
    }
    let (told_front, told_rest) = around_number(told);
    let (front, rest) = around_number(printed);
    is_alike(told_front, front) && is_alike(told_rest, rest)
}

/// Whether a possible end is told like this: its state, and in Established the families that are
/// disabled.
fn is_end(told: &str, end: &str) -> bool {
    let Some((state, disabled)) = end.split_once(" disabled ") else {
        return false;
    };
    let Some(rest) = told.strip_prefix(state) else {
        return false;
    };
    match disabled {
        "v4" => rest.starts_with(" with IPv4 disabled, "),
        "v6" => rest.starts_with(" with IPv6 disabled, "),
        "v4,v6" => rest.starts_with(" with IPv4 and IPv6 disabled, "),
        _ => rest.starts_with(", ") || rest.starts_with(" after "),
    }
}

/// Whether each end that is printed after a yes is told, in the same order, and no other.
fn are_ends(told: &str, answer: &str) -> bool {
    let mut states = told.split(", or ");
    for line in answer.lines() {
        if let Some(end) = line.strip_prefix("> end ") {
            match states.next() {
                Some(state) if is_end(state, end) => {}
                _ => return false,
            }
        }
    }
    states.next().is_none()
}

/// Whether the reason that is printed is told, and after it only notes. The record's line is in the
/// verdict's; and the details begin with what no reason of `bgp judge` says.
fn is_reason(details: &[&str], answer: &str, counts_alike: bool) -> bool {
    let mut places = details.iter().filter(|told| !is_of_check(told));
    for line in answer.lines() {
        let Some(line) = line.strip_prefix(">   ") else {
            continue;
        };
        if line.starts_with("record ") {
            continue;
        }
        match places.next() {
            Some(told) if is_told_so(told, line, counts_alike) => {}
            _ => return false,
        }
    }
    places.all(|told| told.starts_with("note: "))
}

/// Whether `bgp check` alone says this before a reason.
fn is_of_check(told: &str) -> bool {
    told.starts_with("in the order of bgp import, ") || told.starts_with("the lines below are for ")
}

/// Whether an answer of `bgp judge` begins with such a verdict.
fn begins_so(verdict: &str, answer: &str, counts_alike: bool) -> bool {
    match answer.lines().find_map(|line| line.strip_prefix("> ")) {
        Some(line) => is_told_so(verdict, line, counts_alike),
        None => false,
    }
}

/// The record and the packet in the note of `bgp judge` on a no of one order of the packets.
fn shown_record(note: &str) -> Option<(&str, &str)> {
    let (record, rest) = note
        .strip_prefix("note no at record ")?
        .split_once(": packet ")?;
    let (packet, rest) = rest.split_once(" shows it; ")?;
    if rest.starts_with("this is about one order ") {
        Some((record, packet))
    } else {
        None
    }
}

/// Whether an answer of `bgp judge` begins with a no at a record, which that packet shows: so it
/// says the no of one order.
fn begins_at_record(verdict: &str, answer: &str) -> bool {
    let Some((record, packet)) = answer.lines().find_map(shown_record) else {
        return false;
    };
    verdict.strip_prefix("no at packet ") == Some(packet) && begins_so_at(record, answer)
}

/// Whether an answer of `bgp judge` begins with a no at this record.
fn begins_so_at(record: &str, answer: &str) -> bool {
    match answer.lines().find_map(|line| line.strip_prefix("> ")) {
        Some(line) => line.strip_prefix("no at record ") == Some(record),
        None => false,
    }
}

/// Whether an answer of `bgp judge` begins with the verdict that is told with these details.
fn has_verdict(verdict: &str, details: &[&str], answer: &str, counts_alike: bool) -> bool {
    let is_no_of_one = verdict.starts_with("no at packet ")
        && details.iter().any(|told| told.starts_with(ABOUT_ONE_ORDER));
    if is_no_of_one {
        begins_at_record(verdict, answer)
    } else {
        begins_so(verdict, answer, counts_alike)
    }
}

/// Whether what is printed is told: a verdict, and each possible end, or each line of the reason. No
/// routes are compared.
fn is_told(told: &str, details: &[&str], answer: &str, counts_alike: bool) -> bool {
    if !has_verdict(verdict_in(told), details, answer, counts_alike) {
        return false;
    }
    match told.strip_prefix("yes: ") {
        Some(end) => are_ends(states_in(end), answer),
        None => is_reason(details, answer, counts_alike),
    }
}

/// The verdict in the line of an end.
fn verdict_in(line: &str) -> &str {
    if line.starts_with("yes: ") {
        return "yes";
    }
    if line.starts_with("unfinished after ") {
        return "unfinished";
    }
    match line.split_once(", ") {
        Some((front, _)) => front,
        None => line,
    }
}

/// The states in the line of an end after its verdict: they stand after its AS number.
fn states_in(end: &str) -> &str {
    match end.split_once(" (AS ") {
        Some((_, rest)) => match rest.split_once(": ") {
            Some((_, states)) => states,
            None => "",
        },
        None => "",
    }
}

/// The words of `bgp judge` in a detail, if it has them.
fn options_in(detail: &str) -> Option<&str> {
    detail.strip_prefix("repeat: bgp ")?.strip_suffix(" FILE")
}

/// How many verdicts of an answer are told with the options of `bgp judge`: `None` where it gives
/// another for one of them.
pub(crate) fn repeated(alloc: Global, file: &File<'_>, answer: &str) -> io::Result<Option<u64>> {
    let mut count = 0u64;
    let mut verdict = "";
    let mut details = Vec::new(alloc);
    for line in answer.lines() {
        let line = line.strip_prefix("> ").unwrap_or(line);
        let Some(detail) = line.strip_prefix("  ") else {
            verdict = line;
            details.clear();
            continue;
        };
        let Some(words) = options_in(detail) else {
            details.push(detail)?;
            continue;
        };
        let counts_alike = file.is_recording() || !words.contains(" --skip-refresh");
        let printed = judged(alloc, file, words)?;
        if !is_told(verdict, &details, printed.as_str(), counts_alike) {
            return Ok(None);
        }
        count = count.saturating_add(1);
    }
    Ok(Some(count))
}
