//! Recordings of real sessions, listed, judged from both ends, and explained.

use crate::case::{Case, Shows, compare};
use crate::explained::compare_explained;
use crate::told::Told;
use std::alloc::Global;
use std::rt::Files;
use std::{fs, io};

/// The recordings that lie in `sessions/`, each with the status of judging it from the ends a and
/// b.
static SESSIONS: [(&str, u8, u8); 14] = [
    ("addpath-bird-frr", 0, 0),
    ("bad-as-bird", 0, 0),
    ("bad-as-trans", 1, 0),
    ("bird-frr-plain", 0, 0),
    ("collision", 0, 0),
    ("delayopen", 0, 0),
    ("flap", 0, 0),
    ("hold-expiry-openbgpd", 0, 0),
    ("maxprefix", 0, 0),
    ("nexthops-frr-bird", 0, 0),
    ("nocaps", 0, 0),
    ("retries", 0, 0),
    ("transport6", 0, 0),
    ("v4only", 0, 0),
];

/// Prints what is not so of each session, and then how many there were, and how many connections.
/// Answers whether all is so.
pub(crate) fn compare_sessions<R: Files + Print + AllocGlobal>(rt: &R) -> io::Result<bool> {
    let mut connections = 0u64;
    let mut all = true;
    for (name, a, b) in &SESSIONS {
        match compare_session(rt, name, *a, *b)? {
            Some(count) => connections = connections.saturating_add(count),
            None => all = false,
        }
    }
    let count = SESSIONS.len();
    println!(rt; "sessions: {count} recordings")?;
    println!(rt; "{connections} connections are explained as their captures")?;
    Ok(all)
}

/// Prints what is not so of a session. Answers how many connections are explained, where all is so.
fn compare_session<R: Files + Print + AllocGlobal>(
    rt: &R,
    name: &str,
    a: u8,
    b: u8,
) -> io::Result<Option<u64>> {
    let path = format!(in rt.alloc(); "sessions/{name}")?;
    let name = path.as_str();
    let recording = read(rt, name, "pcap")?;
    let recording = recording.as_slice();
    let is_listed = compare_list(rt, name, recording)?;
    let from_a = compare_end(rt, (name, "a", a), recording)?;
    let from_b = compare_end(rt, (name, "b", b), recording)?;
    match (is_listed, from_a, from_b) {
        (true, Some(a), Some(b)) => Ok(Some(a.saturating_add(b))),
        _ => Ok(None),
    }
}

/// Reads a file of a session, of an end of one, or of an example.
pub(crate) fn read<R: Files + AllocGlobal>(
    rt: &R,
    name: &str,
    suffix: &str,
) -> io::Result<Vec<u8>> {
    let path = format!(in rt.alloc(); "{name}.{suffix}")?;
    fs::read(rt, path.as_str())
}

/// The same of a text.
pub(crate) fn read_text<R: Files + AllocGlobal>(
    rt: &R,
    name: &str,
    suffix: &str,
) -> io::Result<String> {
    let path = format!(in rt.alloc(); "{name}.{suffix}")?;
    fs::read_to_string(rt, path.as_str())
}

/// What a status, the lines of standard error and what is printed are as an answer.
pub(crate) fn answer_of(
    alloc: Global,
    status: u8,
    notes: &str,
    printed: &[u8],
) -> io::Result<String> {
    let mut told = Told::with_status(alloc, status);
    for note in notes.lines() {
        told.put_note(Some(note.strip_prefix("bgp: ").unwrap_or(note)));
    }
    told.put_printed(printed);
    told.end()
}

/// Prints a session's list if it is not so. Answers whether it is.
fn compare_list<R: Files + Print + AllocGlobal>(
    rt: &R,
    name: &str,
    recording: &[u8],
) -> io::Result<bool> {
    let list = read(rt, name, "pcap.list.stdout")?;
    let answer = answer_of(rt.alloc(), 0, "", list.as_slice())?;
    let case = Case {
        name,
        words: "list",
        file: recording,
        answer: answer.as_str(),
        shows: Shows::All,
    };
    Ok(compare(rt, &case)?.is_some())
}

/// Reads what is known of judging one end.
fn read_answer<R: Files + AllocGlobal>(rt: &R, name: &str, status: u8) -> io::Result<String> {
    let notes = read_text(rt, name, "stderr")?;
    let printed = read(rt, name, "stdout")?;
    answer_of(rt.alloc(), status, notes.as_str(), printed.as_slice())
}

/// Prints what is not so of one end of a session. Answers how many connections are explained, where
/// all is so.
fn compare_end<R: Files + Print + AllocGlobal>(
    rt: &R,
    (name, end, status): (&str, &str, u8),
    recording: &[u8],
) -> io::Result<Option<u64>> {
    let name = format!(in rt.alloc(); "{name}.{end}")?;
    let words = read_text(rt, name.as_str(), "args")?;
    let answer = read_answer(rt, name.as_str(), status)?;
    let case = Case {
        name: name.as_str(),
        words: words.as_str(),
        file: recording,
        answer: answer.as_str(),
        shows: Shows::All,
    };
    if compare(rt, &case)?.is_none() {
        return Ok(None);
    }
    compare_explained(rt, words.as_str(), recording)
}
