//! Tables of blocks of lines, each of which tells a case and its answer.

use crate::judged::is_judged_by_both;
use crate::lines::is_stream;
use crate::opens::is_open;
use crate::runs::is_decoded;
use crate::told::is_told;
use crate::updates::is_outcome;
use std::rt::Files;
use std::{fs, io};

/// What the cases of a table tell of.
#[derive(Clone, Copy)]
enum Told {
    /// A capture's lines.
    Lines,
    /// The same where each of its reads fails in turn, and where it ends at each octet.
    LinesAnywhere,
    /// The verdict on a capture.
    Verdict,
    /// The outcomes of an UPDATE.
    Outcomes,
    /// A stream's lines.
    StreamLines,
    /// What is found in an OPEN.
    Open,
    /// What a command prints and tells.
    Command,
}

/// The tables, and what their cases tell of.
static TABLES: [(&str, Told); 20] = [
    ("cases.txt", Told::Lines),
    ("rules.txt", Told::LinesAnywhere),
    ("cases-extended.txt", Told::Lines),
    ("cases-large.txt", Told::Lines),
    ("judged.txt", Told::Verdict),
    ("judged-extended.txt", Told::Verdict),
    ("judged-large.txt", Told::Verdict),
    ("sessions.txt", Told::Verdict),
    ("rows-by-hand.txt", Told::Verdict),
    ("cuts.txt", Told::Verdict),
    ("recordings.txt", Told::Verdict),
    ("updates.txt", Told::Outcomes),
    ("updates-large.txt", Told::Outcomes),
    ("updates-by-hand.txt", Told::Outcomes),
    ("streams-by-hand.txt", Told::StreamLines),
    ("names.txt", Told::StreamLines),
    ("json.txt", Told::StreamLines),
    ("opens-by-hand.txt", Told::Open),
    ("told.txt", Told::Command),
    ("breaks.txt", Told::Command),
];

/// Goes through the tables. Answers whether all their cases are so.
pub(crate) fn compare_tables<R: Files + Print + AllocGlobal>(rt: &R) -> io::Result<bool> {
    let mut all = true;
    for (name, told) in &TABLES {
        all = compare(rt, name, *told)? && all;
    }
    Ok(all)
}

/// Prints each case of a table that is not so, and then how many there were. Answers whether all
/// are so.
fn compare<R: Files + Print + AllocGlobal>(rt: &R, name: &str, told: Told) -> io::Result<bool> {
    let table = fs::read_to_string(rt, name)?;
    let mut cases = 0u64;
    let mut all = true;
    for block in table.split("\n\n") {
        let block = block.trim_end();
        if block.is_empty() {
            continue;
        }
        cases = cases.saturating_add(1);
        all &= compare_case(rt, cases, block, told)?;
    }
    println!(rt; "{name}: {cases} cases")?;
    Ok(all)
}

/// Prints a case of this number if it is not so. Answers whether it is so.
fn compare_case<R: Files + Print + AllocGlobal>(
    rt: &R,
    number: u64,
    block: &str,
    told: Told,
) -> io::Result<bool> {
    let is_so = is_so(rt, block, told)?;
    if !is_so {
        println!(rt; "case {number} is not so:\n{block}")?;
    }
    Ok(is_so)
}

/// Whether a case is so.
fn is_so<R: Files + AllocGlobal>(rt: &R, block: &str, told: Told) -> io::Result<bool> {
    match told {
        Told::Lines => is_decoded(rt.alloc(), block, false),
        Told::LinesAnywhere => is_decoded(rt.alloc(), block, true),
        Told::Verdict => is_judged_by_both(rt, block),
        Told::Outcomes => is_outcome(rt.alloc(), block),
        Told::StreamLines => is_stream(rt.alloc(), block),
        Told::Open => is_open(rt.alloc(), block),
        Told::Command => is_told(rt.alloc(), block),
    }
}
