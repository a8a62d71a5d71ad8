//! The words of a command, as `bgp` reads them, and what is meant by them.

use crate::case::malformed;
use bgp_words::{Command, command_line};
use std::alloc::Global;
use std::io;

/// The words of a command line over a file, and the capture that is made of it, where one is. They
/// have neither the program's name nor those of files.
pub(crate) fn words_of<'a>(alloc: Global, told: &'a str) -> io::Result<Vec<&'a str>> {
    let mut words = Vec::new(alloc);
    words.push("bgp")?;
    for word in told.split_whitespace() {
        words.push(word)?;
    }
    words.push("-")?;
    if told.starts_with("import ") {
        words.push("-")?;
    }
    Ok(words)
}

/// The command that words spell.
pub(crate) fn command_of<'a>(alloc: Global, words: &'a [&'a str]) -> io::Result<Command<'a>> {
    command_line(alloc, words).map_err(|_| malformed())
}
