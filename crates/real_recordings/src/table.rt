//! Tables of cases and of command lines: blocks of lines, with an empty line between two.

use crate::announced::compare_announced;
use crate::case::{compare_case, compare_first_column};
use crate::spelled::compare_line;
use std::rt::Files;
use std::{fs, io};

/// What the blocks of a table tell of.
#[derive(Clone, Copy)]
enum Kind {
    Cases,
    /// Cases of which lines that are indented are left out, and the ends of those of verdicts.
    FirstColumn,
    CommandLines,
    Prefixes,
}

static TABLES: [(&str, Kind); 16] = [
    ("cases.txt", Kind::Cases),
    ("judged.txt", Kind::Cases),
    ("explained.txt", Kind::Cases),
    ("explained-by-hand.txt", Kind::Cases),
    ("checked.txt", Kind::Cases),
    ("captures.txt", Kind::Cases),
    ("forms.txt", Kind::Cases),
    ("offers.txt", Kind::Cases),
    ("slow.txt", Kind::Cases),
    ("orders.txt", Kind::FirstColumn),
    ("options.txt", Kind::Cases),
    ("names.txt", Kind::Cases),
    ("json.txt", Kind::Cases),
    ("reports.txt", Kind::Cases),
    ("words.txt", Kind::CommandLines),
    ("announced.txt", Kind::Prefixes),
];

/// Prints what is not so in each table, and how much was compared. Answers whether all is so.
pub(crate) fn compare_tables<R: Files + Print + AllocGlobal>(rt: &R) -> io::Result<bool> {
    let mut all = true;
    for (name, kind) in &TABLES {
        all &= compare_table(rt, name, *kind)?;
    }
    Ok(all)
}

/// Prints each block of a table that is not so, and then how many there were. Answers whether all
/// are so.
fn compare_table<R: Files + Print + AllocGlobal>(
    rt: &R,
    name: &str,
    kind: Kind,
) -> io::Result<bool> {
    let table = fs::read_to_string(rt, name)?;
    let mut blocks = 0u64;
    let mut verdicts = 0u64;
    let mut all = true;
    for block in table.split("\n\n") {
        let block = block.trim_end();
        if block.is_empty() {
            continue;
        }
        blocks = blocks.saturating_add(1);
        match compare_block(rt, kind, block)? {
            Some(count) => verdicts = verdicts.saturating_add(count),
            None => all = false,
        }
    }
    print_counts(rt, (name, kind), blocks, verdicts)?;
    Ok(all)
}

/// Prints a block that is not so. Answers how many verdicts of it `bgp judge` gives too, where it
/// is so.
fn compare_block<R: Print + AllocGlobal>(
    rt: &R,
    kind: Kind,
    block: &str,
) -> io::Result<Option<u64>> {
    match kind {
        Kind::Cases => compare_case(rt, block),
        Kind::FirstColumn => compare_first_column(rt, block),
        Kind::CommandLines => compare_line(rt, block),
        Kind::Prefixes => compare_announced(rt, block),
    }
}

/// Prints how many blocks a table has, and how many verdicts in them `bgp judge` gives too.
fn print_counts<R: Print>(
    rt: &R,
    (name, kind): (&str, Kind),
    blocks: u64,
    verdicts: u64,
) -> io::Result<()> {
    let what = match kind {
        Kind::Cases | Kind::FirstColumn => "cases",
        Kind::CommandLines => "command lines",
        Kind::Prefixes => "prefixes",
    };
    if verdicts == 0 {
        println!(rt; "{name}: {blocks} {what}")
    } else {
        println!(rt; "{name}: {blocks} {what}, {verdicts} verdicts that judge gives")
    }
}
