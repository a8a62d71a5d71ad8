//! Commands that read what a reader gives: what they print, the exit status, and what they tell on
//! standard error, told by blocks of lines.
//!
//! A line of `case` says what a block teaches. `args` has the words of `decode` without a file; or
//! `config` the configuration by which a file is judged, with `explain` if the reason is wanted.
//! `file` has the file's name, and `octets` what is in it. Where `reading` is there, the reader fails
//! behind the octets by the error that it names, and where `opening` is, the file can't be opened;
//! `writing` says for how many octets the writer has room, and by which error it then fails.
//! `status` is the exit status, `>` a line that is printed, of which the writer takes what it has
//! room for, and `!` one that is told. `skipped` says how many records were skipped: of other
//! kinds, of other sessions, and ROUTE-REFRESH messages that were received and sent.

use crate::case::{has_word, malformed, octets_of, options_of};
use crate::devices::{Given, Paper};
use crate::lines::stream_options;
use bgp_compact::CompactTracker;
use bgp_explain::{JudgedCapture, LeftOut, Report, judge_opened};
use bgp_judge::{PlainTracker, Tracker};
use bgp_open::Config;
use bgp_tool::{
    Note, SessionOptions, StreamOptions, decode_opened, decode_opened_capture, passed_over,
};
use bgp_vectors::config_of;
use bgp_verdict_lines::VerdictForm;
use mrt::{FromWrite, SkippedRecords};
use std::alloc::{AllocError, Global};
use std::fmt::{Display, Write};
use std::io::{self, ErrorKind};

/// The errors of devices, by their names.
static ERRORS: [(&str, ErrorKind); 6] = [
    ("BrokenPipe", ErrorKind::BrokenPipe),
    ("NotFound", ErrorKind::NotFound),
    ("OutOfMemory", ErrorKind::OutOfMemory),
    ("PermissionDenied", ErrorKind::PermissionDenied),
    ("StorageFull", ErrorKind::StorageFull),
    ("TimedOut", ErrorKind::TimedOut),
];

/// A command over a file.
#[derive(Clone, Copy)]
enum Command {
    DecodeStream(StreamOptions),
    DecodeCapture(SessionOptions),
    Judge { config: Config, report: Report },
}

/// Whether a command does what its block says: with the plain tracker and with the compact one, and
/// from a reader that gives all at once and from one that gives octet by octet.
pub(crate) fn is_told(alloc: Global, block: &str) -> io::Result<bool> {
    let command = command_of(alloc, block)?;
    is_done(alloc, &command, block)
}

/// The command of a block.
fn command_of(alloc: Global, block: &str) -> io::Result<Command> {
    if let Some(line) = line_of(block, "config ") {
        let report = if block.contains("\nexplain\n") {
            Report::WithReason
        } else {
            Report::VerdictAlone
        };
        let config = config_of(alloc, line)?.ok_or_else(malformed)?;
        return Ok(Command::Judge { config, report });
    }
    let Some(words) = line_of(block, "args ") else {
        return Err(malformed());
    };
    let options = options_of(words)?;
    if has_word(words, "--mrt") {
        Ok(Command::DecodeCapture(options))
    } else {
        Ok(Command::DecodeStream(stream_options(&options)))
    }
}

/// Whether this command does so.
fn is_done(alloc: Global, command: &Command, block: &str) -> io::Result<bool> {
    let octets = octets_of(alloc, line_of(block, "octets ").unwrap_or("-"))?;
    Ok(
        is_done_by::<PlainTracker<Global>>(alloc, command, block, octets.as_slice())?
            && is_done_by::<CompactTracker<Global>>(alloc, command, block, octets.as_slice())?,
    )
}

/// Whether it does so with this tracker.
fn is_done_by<T: Tracker<Global>>(
    alloc: Global,
    command: &Command,
    block: &str,
    octets: &[u8],
) -> Result<bool, AllocError> {
    Ok(
        is_done_in_pieces::<T>(alloc, command, block, octets, usize::MAX)?
            && is_done_in_pieces::<T>(alloc, command, block, octets, 1)?,
    )
}

/// Whether it does so where the reader gives at most so many octets at a time.
fn is_done_in_pieces<T: Tracker<Global>>(
    alloc: Global,
    command: &Command,
    block: &str,
    octets: &[u8],
    most: usize,
) -> Result<bool, AllocError> {
    let opened = opened_of(block, octets, most);
    let paper = Paper::new(alloc, room_of(block));
    let (judged, written) = ended::<T>(alloc, command, file_of(block), opened, paper);
    Ok(is_outcome(alloc, block, &judged)? && is_text(alloc, block, written.as_slice())?)
}

/// How a command ends, and what it prints.
fn ended<'a, T: Tracker<Global>>(
    alloc: Global,
    command: &Command,
    file: &'a str,
    opened: io::Result<Given<'_>>,
    paper: Paper,
) -> (JudgedCapture<'a>, Vec<u8>) {
    let mut sink = FromWrite::new(paper);
    let confederation = false;
    let left_out = LeftOut::nothing();
    let judged = match command {
        Command::DecodeStream(options) => {
            let outcome = decode_opened(*options, alloc, file, opened, &mut sink);
            JudgedCapture {
                outcome,
                confederation,
                left_out,
            }
        }
        Command::DecodeCapture(options) => {
            let outcome = decode_opened_capture(alloc, options, file, opened, &mut sink);
            JudgedCapture {
                outcome,
                confederation,
                left_out,
            }
        }
        Command::Judge { config, report } => {
            judge_opened::<Global, T, _, _>(
                alloc,
                config,
                *report,
                VerdictForm::Text,
                file,
                opened,
                &mut sink,
            )
        }
    };
    (judged, sink.into_inner().written)
}

/// Whether a command ends with the status, the skipped records and the sentences of its block.
fn is_outcome(alloc: Global, block: &str, judged: &JudgedCapture<'_>) -> Result<bool, AllocError> {
    let outcome = &judged.outcome;
    let mut told = String::new(alloc);
    put_told(&mut told, judged)?;
    let status = line_of(block, "status ").and_then(|status| status.parse::<u8>().ok());
    Ok(
        status == Some(outcome.status)
            && are_skipped(alloc, block, outcome.skipped)?
            && are_lines(alloc, block, "! ", told.as_str())?,
    )
}

/// Puts the sentences that are told of a command.
fn put_told(told: &mut String, judged: &JudgedCapture<'_>) -> Result<(), AllocError> {
    let JudgedCapture {
        outcome,
        confederation,
        left_out,
    } = judged;
    if let Some(skipped) = outcome.skipped {
        let (received, sent) = passed_over(&skipped);
        put_sentence(told, received)?;
        put_sentence(told, sent)?;
    }
    if *confederation {
        put_sentence(told, Some(Note::Confederation))?;
    }
    if let Some(offer) = left_out.without {
        put_sentence(told, Some(Note::Without { offer }))?;
    }
    put_sentence(told, outcome.note)
}

/// Puts a sentence and the end of its line: nothing if there is none.
fn put_sentence<T: Display + Drop>(told: &mut String, note: Option<T>) -> Result<(), AllocError> {
    match note {
        Some(note) => write!(told, "{note}\n"),
        None => Ok(()),
    }
}

/// Whether so many records were skipped, if the block says how many.
fn are_skipped(
    alloc: Global,
    block: &str,
    skipped: Option<SkippedRecords>,
) -> Result<bool, AllocError> {
    match (line_of(block, "skipped "), skipped) {
        (Some(line), Some(skipped)) => {
            let (kinds, sessions) = (skipped.other_kinds, skipped.other_sessions);
            let (received, sent) = (skipped.received_refreshes, skipped.sent_refreshes);
            let text = format!(in alloc; "{kinds} {sessions} {received} {sent}")?;
            Ok(text.as_str() == line)
        }
        (line, _) => Ok(line.is_none()),
    }
}

/// What stands behind a mark in the first line that begins with it.
fn line_of<'a>(block: &'a str, mark: &str) -> Option<&'a str> {
    for line in block.split('\n') {
        if let Some(rest) = line.strip_prefix(mark) {
            return Some(rest);
        }
    }
    None
}

/// What stands behind a mark in the lines that begin with it, each with its end.
fn lines_of(alloc: Global, block: &str, mark: &str) -> Result<String, AllocError> {
    let mut text = String::new(alloc);
    for line in block.split('\n') {
        if let Some(rest) = line.strip_prefix(mark) {
            text.push_str(rest)?;
            text.push_str("\n")?;
        }
    }
    Ok(text)
}

/// Whether this is what stands there.
fn are_lines(alloc: Global, block: &str, mark: &str, text: &str) -> Result<bool, AllocError> {
    Ok(lines_of(alloc, block, mark)?.as_str() == text)
}

/// Whether this is what is printed, as far as the writer has room for it.
fn is_text(alloc: Global, block: &str, written: &[u8]) -> Result<bool, AllocError> {
    let text = lines_of(alloc, block, "> ")?;
    let (room, _) = room_of(block);
    let count = text.len().min(room);
    Ok(text.as_bytes().get(..count) == Some(written))
}

/// The name of the file: two quotation marks stand for one without characters.
fn file_of(block: &str) -> &str {
    match line_of(block, "file ") {
        Some("\"\"") | None => "",
        Some(name) => name,
    }
}

/// A reader of the file, which gives at most so many octets at a time, if it can be opened.
fn opened_of<'a>(block: &str, octets: &'a [u8], most: usize) -> io::Result<Given<'a>> {
    match line_of(block, "opening ").and_then(|name| error_named(name)) {
        Some(error) => Err(io::Error::from(error)),
        None => Ok(Given {
            octets,
            most,
            error: line_of(block, "reading ").and_then(|name| error_named(name)),
        }),
    }
}

/// For how many octets the writer has room, and by which error it then fails.
fn room_of(block: &str) -> (usize, ErrorKind) {
    named_room_of(block).unwrap_or((usize::MAX, ErrorKind::WriteZero))
}

/// The same, if the block says it.
fn named_room_of(block: &str) -> Option<(usize, ErrorKind)> {
    let (room, error) = line_of(block, "writing ")?.split_once(' ')?;
    Some((room.parse::<usize>().ok()?, error_named(error)?))
}

/// The error of a device that has this name.
fn error_named(name: &str) -> Option<ErrorKind> {
    for (known, error) in &ERRORS {
        if *known == name {
            return Some(*error);
        }
    }
    None
}
