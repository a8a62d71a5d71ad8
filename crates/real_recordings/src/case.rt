//! A file and what a command answers of it, told by a block of lines.

use crate::answer::answer_to;
use crate::file::File;
use crate::objects::compare_objects;
use crate::repeated::repeated;
use hex::FromHexError;
use std::alloc::{AllocError, Global};
use std::io;

/// A file, the words of a command over it, and the lines that tell its answer.
#[derive(Clone, Copy)]
pub(crate) struct Case<'a> {
    pub(crate) name: &'a str,
    pub(crate) words: &'a str,
    pub(crate) file: &'a [u8],
    pub(crate) answer: &'a str,
    pub(crate) shows: Shows,
}

/// Which lines that are printed the answer shows.
#[derive(Clone, Copy, PartialEq, Eq)]
pub(crate) enum Shows {
    All,
    /// Those that aren't indented, and of an end's line its front.
    FirstColumn,
}

/// What is answered where a table is malformed.
pub(crate) fn malformed() -> io::Error {
    io::Error::from(io::ErrorKind::InvalidData)
}

/// The octets that hexadecimal digits spell; a dash spells none.
fn octets_of(alloc: Global, digits: &str) -> io::Result<Vec<u8>> {
    if digits == "-" {
        return Ok(Vec::new(alloc));
    }
    match hex::decode(alloc, digits) {
        Ok(octets) => Ok(octets),
        Err(FromHexError::OutOfMemory) => Err(io::Error::from(AllocError)),
        Err(_) => Err(malformed()),
    }
}

/// Takes the first line of a text, which begins with this word, and answers what it tells after it,
/// and the other lines.
fn told<'a>(text: &'a str, word: &str) -> io::Result<(&'a str, &'a str)> {
    let (line, rest) = text.split_once('\n').unwrap_or((text, ""));
    match line.split_once(' ') {
        Some((first, told)) if first == word => Ok((told, rest)),
        _ => Err(malformed()),
    }
}

/// Compares the case of a block of lines: `case` and its name; `args` and the words of the command;
/// `octets` and the file; and then the lines of the answer: `status` and a number, `refusal` and
/// its text, `note` and a sentence, `capture` and its octets, `>` and a line that is printed.
pub(crate) fn compare_case<R: Print + AllocGlobal>(rt: &R, block: &str) -> io::Result<Option<u64>> {
    compare_shown(rt, block, Shows::All)
}

/// The same of a block without the lines that are indented, as the details of a verdict are.
pub(crate) fn compare_first_column<R: Print + AllocGlobal>(
    rt: &R,
    block: &str,
) -> io::Result<Option<u64>> {
    compare_shown(rt, block, Shows::FirstColumn)
}

/// Compares the case of a block of lines that has such lines of what is printed.
fn compare_shown<R: Print + AllocGlobal>(
    rt: &R,
    block: &str,
    shows: Shows,
) -> io::Result<Option<u64>> {
    let (name, rest) = told(block, "case")?;
    let (words, rest) = told(rest, "args")?;
    let (digits, answer) = told(rest, "octets")?;
    let file = octets_of(rt.alloc(), digits)?;
    let case = Case {
        name,
        words,
        file: file.as_slice(),
        answer,
        shows,
    };
    compare(rt, &case)
}

/// Prints a case if it is not so, or if `bgp judge` gives another verdict for one that is told with
/// its options. Answers how many of these there are, where it is so.
pub(crate) fn compare<R: Print + AllocGlobal>(rt: &R, case: &Case<'_>) -> io::Result<Option<u64>> {
    let file = File::read_at_once(case.file);
    if !is_so(rt, case, &file)? || !is_so(rt, case, &File::read_by_octets(case.file))? {
        return Ok(None);
    }
    if !is_read_from_json(rt, case, &file)? {
        return Ok(None);
    }
    let count = judged_again(rt.alloc(), case, &file)?;
    if count.is_none() {
        println!(rt; "case {} is judged otherwise", case.name)?;
    }
    Ok(count)
}

/// Whether an answer of `judge` in JSON reads back as its answer in text.
fn is_read_from_json<R: Print + AllocGlobal>(
    rt: &R,
    case: &Case<'_>,
    file: &File<'_>,
) -> io::Result<bool> {
    if !case.words.starts_with("judge") || case.words.contains("--json") {
        return Ok(true);
    }
    compare_objects(rt, case.words, file)
}

/// How many verdicts of `bgp check` are those of `bgp judge` with the options that `--settings`
/// prints: `None` where one of them isn't. Those of a case that is quiet, or a report, stand in
/// another, too.
fn judged_again(alloc: Global, case: &Case<'_>, file: &File<'_>) -> io::Result<Option<u64>> {
    let is_elsewhere = case.words.contains("--quiet") || case.words.contains("--html");
    if !case.words.starts_with("check") || is_elsewhere || case.shows == Shows::FirstColumn {
        return Ok(Some(0));
    }
    if case.words.contains("--settings") {
        return repeated(alloc, file, case.answer);
    }
    let words = format!(in alloc; "{} --settings", case.words)?;
    let answer = answer_to(alloc, words.as_str(), file)?;
    repeated(alloc, file, answer.as_str())
}

/// Prints a case if it is not so, whose file is read like this. Answers whether it is so.
fn is_so<R: Print + AllocGlobal>(rt: &R, case: &Case<'_>, file: &File<'_>) -> io::Result<bool> {
    let answer = answer_to(rt.alloc(), case.words, file)?;
    if is_shown(answer.as_str(), case) {
        return Ok(true);
    }
    let Case {
        name,
        words,
        answer: known,
        ..
    } = *case;
    println!(rt; "case {name} is not so: {words}\n{answer}\nand not\n{known}\n")?;
    Ok(false)
}

/// Whether an answer is the case's, in the lines that this shows.
fn is_shown(answer: &str, case: &Case<'_>) -> bool {
    match case.shows {
        Shows::All => answer == case.answer,
        Shows::FirstColumn => {
            let mut known = case.answer.lines();
            for line in answer.lines().filter(|line| !line.starts_with(">   ")) {
                match known.next() {
                    Some(front) if is_front(line, front) => {}
                    _ => return false,
                }
            }
            known.next().is_none()
        }
    }
}

/// Whether a line is this one. Of an end the known line has what was done, and not what is wrong
/// with it or which states are possible.
fn is_front(line: &str, known: &str) -> bool {
    line == known || (known.contains(" (AS ") && line.starts_with(known))
}
