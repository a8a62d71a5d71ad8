//! What there is to say of the prefix that `bgp speak` is to announce.

use crate::case::malformed;
use crate::words::{command_of, words_of};
use bgp_speak_tool::announce_note;
use bgp_words::Command;
use std::alloc::Global;
use std::io;

/// Prints a block that is not so: `case` says what it teaches, `args` has the words of the command
/// without a file, and `!` the sentence that is told, if one is.
pub(crate) fn compare_announced<R: Print + AllocGlobal>(
    rt: &R,
    block: &str,
) -> io::Result<Option<u64>> {
    let Some(words) = line_of(block, "args ") else {
        return Err(malformed());
    };
    let told = told_of(rt.alloc(), words)?;
    if told.as_str() == line_of(block, "! ").unwrap_or("") {
        return Ok(Some(0));
    }
    println!(rt; "the prefix is not announced so:\n{block}\nbut: {told}")?;
    Ok(None)
}

/// The sentence on the prefix that these words name: nothing where there is none.
fn told_of(alloc: Global, words: &str) -> io::Result<String> {
    let words = words_of(alloc, words)?;
    let Ok(
        Command::Speak {
            config,
            speaking,
            ..
        },
    ) = command_of(alloc, words.as_slice())
    else {
        return Err(malformed());
    };
    let note = announce_note(config.parts.families, &speaking);
    match note {
        Some(note) => Ok(format!(in alloc; "{note}")?),
        None => Ok(String::new(alloc)),
    }
}

/// What stands behind a mark in the first line that begins with it.
fn line_of<'a>(block: &'a str, mark: &str) -> Option<&'a str> {
    for line in block.split('\n') {
        if let Some(rest) = line.strip_prefix(mark) {
            return Some(rest);
        }
    }
    None
}
