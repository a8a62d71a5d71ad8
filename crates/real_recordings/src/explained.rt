//! Recordings of real sessions, explained as the captures that are made of them.

use crate::answer::{answer_in, lines_to, memory};
use crate::case::malformed;
use crate::file::File;
use crate::words::{command_of, words_of};
use bgp_commands::Answer;
use bgp_import::RecordingOptions;
use bgp_open::{Config, ConfigParts};
use bgp_words::{Command, Reporting};
use linked_list_allocator::LocalHeap;
use std::alloc::Global;
use std::io;

/// How many connections of a recording are looked at.
const CONNECTIONS: usize = 4;

/// How a connection of a recording is judged.
#[derive(Clone, Copy)]
struct Talk {
    config: Config,
    options: RecordingOptions,
}

/// The capture that is made of the connection, if there is such a one.
fn capture_of(alloc: Global, talk: &Talk, recording: &File<'_>) -> io::Result<Option<Vec<u8>>> {
    let import = Command::Import {
        session: talk.config.parts.session,
        recording: talk.options,
        file: "-",
        out: "-",
    };
    let heap = memory(alloc)?;
    let (answer, octets) = answer_in(alloc, &heap, &import, recording)?;
    if is_capture(&answer) {
        Ok(Some(octets))
    } else {
        Ok(None)
    }
}

/// Whether an answer is a capture that was made whole.
fn is_capture(answer: &Answer<'_, &LocalHeap>) -> bool {
    match answer {
        Answer::Imported(imported, ..) => imported.ended.is_ok(),
        _ => false,
    }
}

/// The line without the place and the time that it names. A recording has a packet and its time, to
/// fractions of a second, and its capture a record and the second at which it was handled. The
/// first line of a reason keeps the number of its record.
fn around_place(line: &str) -> (&str, &str) {
    if line.starts_with(">   record ") {
        return (before(line, ", "), behind(line, " UTC: "));
    }
    if line.starts_with(">   last received: ") {
        return (">   last received: ", behind(behind(line, ", "), ", "));
    }
    if line.starts_with(">   state: ") {
        return (before(line, " since "), "");
    }
    if line.starts_with(">   note: it had sent ") {
        return (before(line, " already, at "), "");
    }
    (line, "")
}

/// What stands before the first of these in a line: all of it, if there is none.
fn before<'a>(line: &'a str, word: &str) -> &'a str {
    match line.split_once(word) {
        Some((front, _)) => front,
        None => line,
    }
}

/// What stands behind the first of these in a line: nothing, if there is none.
fn behind<'a>(line: &'a str, word: &str) -> &'a str {
    match line.split_once(word) {
        Some((_, rest)) => rest,
        None => "",
    }
}

/// Whether a line of a connection's answer is its capture's, but for packets and times. A capture
/// has one order of its messages: what is a no over all is one in that, too.
fn is_same_line(line: &str, known: &str) -> bool {
    if line.starts_with("> no at packet ") {
        return known.starts_with("> no at record ");
    }
    let (front, rest) = around_place(line);
    let (known_front, known_rest) = around_place(known);
    front == known_front && rest == known_rest
}

/// Whether a line is of captures alone: what a capture passes over, that a message may be missing,
/// and that a state stays, which no packet shows.
fn is_of_captures(line: &str) -> bool {
    line.starts_with(">   records of other ")
        || line.starts_with(">   or: the same state once more, ")
        || line.starts_with(">   note: a sent message may be missing ")
}

/// Whether a line is of recordings alone: a note, and what could have come in another order.
fn is_of_recordings(line: &str) -> bool {
    line.starts_with("note ")
        || line.starts_with(">   or: in another order, ")
        || line.starts_with(">   or: perhaps more in another order ")
}

/// Whether a connection's answer is its capture's, but for packets and times, for what is told of a
/// recording besides, and for what is of captures alone.
fn is_same(answer: &str, known: &str) -> bool {
    let mut known = known.lines().filter(|line| !is_of_captures(line));
    for line in answer.lines().filter(|line| !is_of_recordings(line)) {
        match known.next() {
            Some(other) if is_same_line(line, other) => {}
            _ => return false,
        }
    }
    known.next().is_none() && answer.starts_with("status ")
}

/// Prints a connection that isn't explained as its capture. Answers whether it is.
fn compare_answers<R: Print + AllocGlobal>(
    rt: &R,
    talk: &Talk,
    recording: &File<'_>,
    capture: &File<'_>,
) -> io::Result<bool> {
    let explain = Command::Judge {
        config: talk.config,
        recording: talk.options,
        reporting: Reporting {
            explain: true,
            json: false,
        },
        file: "-",
    };
    let known = lines_to(rt.alloc(), &explain, capture)?;
    let answer = lines_to(rt.alloc(), &explain, recording)?;
    let is_so = is_same(answer.as_str(), known.as_str());
    if !is_so {
        println!(rt; "{answer}\nbut\n{known}")?;
    }
    Ok(is_so)
}

/// The same of a connection if there is such a one.
fn compare_talk<R: Print + AllocGlobal>(
    rt: &R,
    talk: &Talk,
    recording: &File<'_>,
) -> io::Result<Option<bool>> {
    match capture_of(rt.alloc(), talk, recording)? {
        Some(capture) => {
            let capture = File::read_at_once(capture.as_slice());
            Ok(Some(compare_answers(rt, talk, recording, &capture)?))
        }
        None => Ok(None),
    }
}

/// Compares each connection of a recording under a configuration. Answers how many there are, where
/// all are so.
fn compare_talks<R: Print + AllocGlobal>(
    rt: &R,
    config: Config,
    options: RecordingOptions,
    recording: &File<'_>,
) -> io::Result<Option<u64>> {
    let mut count = 0u64;
    for number in 1..=CONNECTIONS {
        let talk = Talk {
            config,
            options: RecordingOptions {
                connection: Some(number),
                ..options
            },
        };
        match compare_talk(rt, &talk, recording)? {
            Some(true) => count = count.saturating_add(1),
            Some(false) => return Ok(None),
            None => {}
        }
    }
    Ok(Some(count))
}

/// Compares a recording that is judged by these words: under their configuration, under one with
/// another Hold Time, and one with another AS number of the peer, by which most are a no. Answers
/// how many connections there are, where all are so.
pub(crate) fn compare_explained<R: Print + AllocGlobal>(
    rt: &R,
    words: &str,
    recording: &[u8],
) -> io::Result<Option<u64>> {
    let words = words_of(rt.alloc(), words)?;
    let Ok(
        Command::Judge {
            config,
            recording: options,
            ..
        },
    ) = command_of(rt.alloc(), words.as_slice())
    else {
        return Err(malformed());
    };
    compare_configured(rt, &config.parts, options, &File::read_at_once(recording))
}

/// The same of a recording that is judged with these parts.
fn compare_configured<R: Print + AllocGlobal>(
    rt: &R,
    parts: &ConfigParts,
    options: RecordingOptions,
    recording: &File<'_>,
) -> io::Result<Option<u64>> {
    let mut sum = 0u64;
    for (hold, peer_as) in [
        (parts.hold, parts.peer_as),
        (180, parts.peer_as),
        (parts.hold, 65009),
    ] {
        let config = Config::new(ConfigParts {
            hold,
            peer_as,
            ..*parts
        })
        .ok_or_else(malformed)?;
        match compare_talks(rt, config, options, recording)? {
            Some(count) => sum = sum.saturating_add(count),
            None => return Ok(None),
        }
    }
    Ok(Some(sum))
}
