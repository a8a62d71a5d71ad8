//! Verdicts in JSON, read back as the lines that are printed without it.

use crate::answer::answer_to;
use crate::case::malformed;
use crate::file::File;
use bgp_clock::{put_clock, put_when};
use bgp_text::Lines;
use json::{Error, Scratch, Value};
use mrt::MemSink;
use std::alloc::{AllocError, Global};
use std::fmt::Write;
use std::io;

/// Origins by their names.
static ORIGINS: [(&str, &str); 3] = [("IGP", "0"), ("EGP", "1"), ("INCOMPLETE", "2")];

/// Lists that a route may have.
static LISTS: [&str; 3] = ["communities", "extended", "large"];

/// How an object's line reads, by its type. A key in braces stands for the text or the number under
/// it; where nothing is under it, the words before it are left out, too. `{date}` is the object's
/// time, and `{place}` where a record stands and its time, if there is one.
static LINES: [(&str, &str); 16] = [
    ("verdict", "{answer} at record {record} at packet {packet}"),
    (
        "record",
        "  record {record}, packet {packet}, {date} UTC: {address} {deed}",
    ),
    ("message", "  message: {line}"),
    ("data", "  data: {line}"),
    ("not_whole", "  not a whole message: {text}"),
    ("state", "  state: {state} since {place}"),
    (
        "last_received",
        "  last received: {place}, {message}: {asked}",
    ),
    (
        "possible_in_another_order",
        "  or: in another order, {item}",
    ),
    (
        "other_orders_unknown",
        "  or: perhaps more in another order (too many to try, or out of memory)",
    ),
    (
        "sent_already",
        "  note: it had sent NOTIFICATION {code}/{subcode} ({name}) already, at {place}",
    ),
    ("note", "  note: {text}"),
    (
        "records",
        "  records of the session: {records} (received {received}, sent {sent}, changes of state \
         {changes})",
    ),
    ("ignored", "  received in Idle, and ignored: {count}"),
    (
        "skipped",
        "  records of other {of}: {count}, the first of --peer {first.peer} --local {first.local}",
    ),
    (
        "connection",
        "connection {connection} from {from} {from_port} to {to} {to_port} at {second}",
    ),
    (
        "refused",
        "{what} refused: {number} {name} at {at} at packet {packet} {direction} octet {octet}",
    ),
];

/// Returns the text under a key; nothing if there is none.
fn text_at<'a>(object: &Value<'a>, key: &str) -> &'a str {
    object.get(key).and_then(Value::as_str).unwrap_or("")
}

/// Returns the number under a key, if there is one.
fn number_at<'a>(object: &Value<'a>, key: &str) -> Option<&'a str> {
    object.get(key).and_then(Value::as_number)
}

/// Returns the text or the number under a key, or under two with a dot between them.
fn said_at<'a>(object: &Value<'a>, key: &str) -> Option<&'a str> {
    let value = match key.split_once('.') {
        Some((outer, inner)) => object.get(outer)?.get(inner)?,
        None => object.get(key)?,
    };
    value.as_str().or_else(|| value.as_number())
}

/// Whether true stands under a key.
fn is_so(object: &Value<'_>, key: &str) -> bool {
    object.get(key).and_then(Value::as_bool) == Some(true)
}

/// Returns the values of a list.
fn values_of<'v, 'a>(value: Option<&'v Value<'a>>) -> Option<&'v [Value<'a>]> {
    match value {
        Some(Value::Array(values)) => Some(values.as_slice()),
        _ => None,
    }
}

/// Puts the time of an object, with its date or without.
fn put_time(
    text: &mut String,
    alloc: Global,
    object: &Value<'_>,
    is_dated: bool,
) -> io::Result<()> {
    let second = number_at(object, "second").and_then(|number| number.parse::<u32>().ok());
    let micro = number_at(object, "micro").and_then(|number| number.parse::<u32>().ok());
    let second = second.ok_or_else(malformed)?;
    let mut sink = MemSink::new(alloc);
    let mut lines = Lines::new(&mut sink);
    if is_dated {
        put_when(&mut lines, second, micro);
    } else {
        put_clock(&mut lines, second, micro);
    }
    let handed = lines.hand_over();
    // No effect: it ends the loan of the sink.
    lines.into_sink();
    let said = std::str::from_utf8(sink.octets()).map_err(|_| malformed())?;
    match handed {
        Ok(()) => Ok(text.push_str(said)?),
        Err(_) => Err(malformed()),
    }
}

/// Puts words, where a record stands, and its time; nothing if there is no record.
fn put_place(text: &mut String, alloc: Global, object: &Value<'_>, words: &str) -> io::Result<()> {
    let Some(record) = number_at(object, "record") else {
        return Ok(());
    };
    match number_at(object, "packet") {
        Some(packet) => write!(text, "{words}packet {packet}, ")?,
        None => write!(text, "{words}record {record}, ")?,
    }
    put_time(text, alloc, object, is_so(object, "dated"))
}

/// Puts words, and what is said under a key, if something is.
fn put_said(
    text: &mut String,
    object: &Value<'_>,
    words: &str,
    key: &str,
) -> Result<(), AllocError> {
    match said_at(object, key) {
        Some(said) => write!(text, "{words}{said}"),
        None => Ok(()),
    }
}

/// Puts a piece of a line: words, and a key behind a brace; or words alone.
fn put_piece(text: &mut String, alloc: Global, object: &Value<'_>, piece: &str) -> io::Result<()> {
    match piece.split_once('{') {
        Some((words, "date")) => {
            text.push_str(words)?;
            put_time(text, alloc, object, true)
        }
        Some((words, "place")) => put_place(text, alloc, object, words),
        Some((words, key)) => Ok(put_said(text, object, words, key)?),
        None => Ok(text.push_str(piece)?),
    }
}

/// Puts an end.
fn put_end(text: &mut String, object: &Value<'_>) -> Result<(), AllocError> {
    write!(text, "end {} disabled ", text_at(object, "state"))?;
    match values_of(object.get("disabled")) {
        None | Some([]) => text.push_str("-"),
        Some([one]) => text.push_str(one.as_str().unwrap_or("")),
        Some(_) => text.push_str("v4,v6"),
    }
}

/// Puts numbers with something between two.
fn put_numbers(text: &mut String, values: &[Value<'_>], between: &str) -> Result<(), AllocError> {
    let mut before = "";
    for value in values {
        text.push_str(before)?;
        before = between;
        match value {
            Value::Array(numbers) => {
                text.push_str("{")?;
                put_set(text, numbers.as_slice())?;
                text.push_str("}")?;
            }
            other => text.push_str(other.as_number().unwrap_or(""))?,
        }
    }
    Ok(())
}

/// Puts the numbers of a set.
fn put_set(text: &mut String, numbers: &[Value<'_>]) -> Result<(), AllocError> {
    let mut before = "";
    for number in numbers {
        write!(text, "{before}{}", number.as_number().unwrap_or(""))?;
        before = ",";
    }
    Ok(())
}

/// Puts a word, and texts behind it, if there are some.
fn put_list(text: &mut String, word: &str, object: &Value<'_>) -> Result<(), AllocError> {
    let Some(values) = values_of(object.get(word)) else {
        return Ok(());
    };
    if values.is_empty() {
        return Ok(());
    }
    write!(text, " {word}")?;
    for value in values {
        write!(text, " {}", value.as_str().unwrap_or(""))?;
    }
    Ok(())
}

/// Puts the prefix, the next hop and the path of a route.
fn put_path(text: &mut String, object: &Value<'_>) -> Result<(), AllocError> {
    write!(text, "route {}", text_at(object, "prefix"))?;
    put_said(text, object, "#", "path_id")?;
    let mut before = " via ";
    if let Some(hops) = values_of(object.get("next_hop")) {
        for hop in hops {
            write!(text, "{before}{}", hop.as_str().unwrap_or(""))?;
            before = ",";
        }
    }
    text.push_str(" path ")?;
    match values_of(object.get("path")) {
        None | Some([]) => text.push_str("-"),
        Some(segments) => put_numbers(text, segments, " "),
    }
}

/// Puts a route.
fn put_route(text: &mut String, object: &Value<'_>) -> Result<(), AllocError> {
    put_path(text, object)?;
    let name = text_at(object, "origin");
    let origin = ORIGINS.iter().find(|(origin, _)| *origin == name);
    write!(text, " origin {}", origin.map_or("", |(_, number)| *number))?;
    put_said(text, object, " med ", "med")?;
    put_said(text, object, " pref ", "pref")?;
    if is_so(object, "atomic") {
        text.push_str(" atomic")?;
    }
    put_said(text, object, " aggregator ", "aggregator.as")?;
    put_said(text, object, " ", "aggregator.address")?;
    for list in &LISTS {
        put_list(text, list, object)?;
    }
    put_said(text, object, " originator ", "originator")?;
    put_list(text, "clusters", object)
}

/// Returns the words before an item.
fn item_words(object: &Value<'_>) -> &'static str {
    if !is_so(object, "first") {
        return "or: ";
    }
    match (is_so(object, "owed"), is_so(object, "next")) {
        (true, true) => "had to come next: ",
        (true, false) => "had to come here: ",
        (false, true) => "could come next: ",
        (false, false) => "could come here: ",
    }
}

/// Puts an item.
fn put_item(text: &mut String, object: &Value<'_>) -> Result<(), AllocError> {
    write!(text, "  {}{}", item_words(object), text_at(object, "item"))?;
    put_said(text, object, "; ", "but")
}

/// Puts the line of an object.
fn put_line(text: &mut String, alloc: Global, object: &Value<'_>) -> io::Result<()> {
    match text_at(object, "type") {
        "end" => Ok(put_end(text, object)?),
        "route" => Ok(put_route(text, object)?),
        "possible" => Ok(put_item(text, object)?),
        name => match LINES.iter().find(|(of, _)| *of == name) {
            Some((_, line)) => put_pieces(text, alloc, object, line),
            None => Err(malformed()),
        },
    }
}

/// Puts all pieces of a line.
fn put_pieces(text: &mut String, alloc: Global, object: &Value<'_>, line: &str) -> io::Result<()> {
    for piece in line.split('}') {
        put_piece(text, alloc, object, piece)?;
    }
    Ok(())
}

/// Puts the line of an object that a text is.
fn put_plain(text: &mut String, alloc: Global, object: &str) -> io::Result<()> {
    let mut scratch = Scratch::new(alloc);
    match Value::parse(alloc, object, &mut scratch) {
        Ok(object) => put_line(text, alloc, &object),
        Err(Error::OutOfMemory) => Err(io::Error::from(AllocError)),
        Err(_) => Err(malformed()),
    }
}

/// Returns the answer in text that an answer in JSON tells.
fn plain_of(alloc: Global, answer: &str) -> io::Result<String> {
    let mut text = String::new(alloc);
    for line in answer.lines() {
        match line.split_once("> ") {
            Some(("", object)) => {
                text.push_str("> ")?;
                put_plain(&mut text, alloc, object)?;
            }
            _ => text.push_str(line)?,
        }
        text.push_str("\n")?;
    }
    Ok(text)
}

/// Prints a case whose answer in JSON doesn't say what its answer in text says. Returns whether it
/// does.
pub(crate) fn compare_objects<R: Print + AllocGlobal>(
    rt: &R,
    words: &str,
    file: &File<'_>,
) -> io::Result<bool> {
    let alloc = rt.alloc();
    let known = answer_to(alloc, words, file)?;
    let words = format!(in alloc; "{words} --json")?;
    let answer = answer_to(alloc, words.as_str(), file)?;
    let read = plain_of(alloc, answer.as_str())?;
    let is_so = read.trim_end() == known.trim_end();
    if !is_so {
        println!(rt; "{read}\nis read from JSON, and not\n{known}")?;
    }
    Ok(is_so)
}
