//! What a command over a file answers, told as a case tells it: the program's own dispatch, over
//! octets in memory.

ghost use Rattle.std.specs.Prelude.{◌↔◌, IsTrue};
ghost use Rattle.bgp_words.specs.Import.{AreApart, CanImport};
ghost use Rattle.bgp_words.specs.Settings.{IsOfOneFamily};

use crate::case::malformed;
use crate::file::File;
use crate::told::Told;
use crate::words::{command_of, words_of};
use bgp_commands::{Answer, reads_file};
use bgp_compact::CompactTracker;
use bgp_import::{Imported, Stopped};
use bgp_prefix::Session;
use bgp_words::Command;
use linked_list_allocator::LocalHeap;
use mrt::FromWrite;
use std::alloc::Global;
use std::io;

/// How many octets of memory a command has, if nothing else is said: more than any case needs.
const ENOUGH: usize = 1 << 28;

/// The memory of a command.
pub(crate) fn memory(alloc: Global) -> io::Result<LocalHeap> {
    Ok(LocalHeap::new(alloc, ENOUGH)?)
}

/// The lines of the answer to the words of a command over a file.
pub(crate) fn answer_to(alloc: Global, words: &str, file: &File<'_>) -> io::Result<String> {
    let words = words_of(alloc, words)?;
    let Ok(command) = command_of(alloc, words.as_slice()) else {
        return Err(malformed());
    };
    lines_to(alloc, &command, file)
}

/// The lines of the answer to a command.
pub(crate) fn lines_to(
    alloc: Global,
    command: &Command<'_>,
    file: &File<'_>,
) -> io::Result<String> {
    let heap = memory(alloc)?;
    let (answer, octets) = answer_in(alloc, &heap, command, file)?;
    lines_of(alloc, &answer, octets.as_slice())
}

/// The answer to a command that takes its memory from a heap, and the octets that it prints or
/// writes.
pub(crate) fn answer_in<'a, 'h>(
    alloc: Global,
    heap: &'h LocalHeap,
    command: &Command<'a>,
    file: &File<'_>,
) -> io::Result<(Answer<'a, &'h LocalHeap>, Vec<u8>)> {
    if !reads_file(command) {
        return Err(malformed());
    }
    if !can_import(command) {
        return Err(malformed());
    }
    let mut sink = FromWrite::new(Vec::new(alloc));
    let opened = Ok(file.reader());
    let answer = bgp_commands::answer_to::<&LocalHeap, CompactTracker<&LocalHeap>, _, _>(
        heap, command, opened, &mut sink,
    );
    Ok((answer, sink.into_inner()))
}

/// Whether a command, if it imports, names ends as packets have them and that can be told apart.
fn can_import(command: &Command<'_>) -> bool
    ensures { IsTrue result → CanImport command.now }
{
    match command {
        Command::Import {
            session,
            recording,
            ..
        } => are_ends(session, recording.local_port),
        _ => true,
    }
}

/// Whether both addresses are of one family, and the two ends can be told apart.
fn are_ends(session: &Session, local_port: Option<u16>) -> bool
    ensures family { IsTrue result → IsOfOneFamily session.now }
    ensures apart { IsTrue result → AreApart session.now local_port }
{
    if session.peer.family() == session.local.family() {
        are_apart(session, local_port)
    } else {
        false
    }
}

/// Whether the two ends of a session can be told apart in a recording.
fn are_apart(session: &Session, local_port: Option<u16>) -> bool
    ensures { IsTrue result ↔ AreApart session.now local_port }
{
    session.peer != session.local || local_port.is_some()
}

/// The lines of an answer that printed these octets, or wrote them as a capture. What is told on
/// standard error stands before what is printed, but for `check`.
fn lines_of(alloc: Global, answer: &Answer<'_, &LocalHeap>, octets: &[u8]) -> io::Result<String> {
    let mut told = Told::with_status(alloc, answer.status());
    match answer {
        Answer::Imported(imported, ..) => {
            put_import_notes(&mut told, imported);
            if imported.ended.is_ok() {
                told.put("\ncapture ");
            }
            told.put(hex::encode(alloc, octets)?);
        }
        Answer::CheckedRecording(..) | Answer::CheckedCapture(..) => {
            told.put_printed(octets);
            answer.say(&mut told);
        }
        _ => {
            answer.say(&mut told);
            told.put_printed(octets);
        }
    }
    told.end()
}

/// Puts what is told of an import on standard error, its refusal first.
fn put_import_notes(told: &mut Told, imported: &Imported) {
    match imported.ended {
        Ok(notes) => {
            told.put_note(imported.cut_short);
            for note in notes.in_order() {
                told.put_note(note);
            }
        }
        Err(Stopped::Refused(refusal)) => {
            told.put("\nrefusal ");
            told.put(refusal);
            told.put_note(imported.cut_short);
            told.put_note(refusal.help());
        }
        Err(Stopped::Unwritten) => told.put_note(imported.cut_short),
    }
}
