//! Commands that read a file, over files and standard streams.

ghost use Rattle.std.specs.Prelude.{◌≡◌, ◌<◌, ◌^◌, IsTrue};
ghost use Rattle.mrt.specs.FromWrite.{writer_state};
ghost use Rattle.bgp_words.specs.Import.{CanImport};
ghost use Rattle.bgp_commands.specs.Answers.{reads_file};

use crate::answering::{file_of, run_over};
use crate::made_file::MadeFile;
use crate::voice::StandardError;
use bgp_compact::CompactTracker;
use bgp_words::Command;
use mrt::FromWrite;
use std::alloc::Global;
use std::fs::OpenFile;
use std::io::{BufReader, ErrorKind, Read, Write};
use std::rt::Files;
use std::{fs, io};

/// Runs a command that reads a file, or standard input for `-`, and prints to standard output.
/// Returns the exit status.
pub(crate) fn print_answer<R: Files + Input + Print + Eprint + AllocGlobal>(
    rt: &R,
    command: &Command<'_>,
) -> u8
    requires reads { IsTrue (reads_file command.now) }
    requires importable { CanImport command.now }
{
    write_answer(rt, command, &mut FromWrite::new(io::writer(rt)))
}

/// Runs a command that reads a file and makes another one of this name; `-` is standard output. The
/// file is made, or emptied, when its first octet is written, so if nothing is written it stays as
/// it was. Returns the exit status.
pub(crate) fn make_file<R: Files + Input + Print + Eprint + AllocGlobal>(
    rt: &R,
    command: &Command<'_>,
    out: &str,
) -> u8
    requires reads { IsTrue (reads_file command.now) }
    requires importable { CanImport command.now }
{
    if out == "-" {
        print_answer(rt, command)
    } else {
        write_answer(rt, command, &mut FromWrite::new(MadeFile::new(rt, out)))
    }
}

/// Runs a command that reads a file, or standard input for `-`, into a sink, and returns the exit
/// status.
fn write_answer<R: Files + Input + Eprint + AllocGlobal, W: Write>(
    rt: &R,
    command: &Command<'_>,
    sink: &mut FromWrite<W>,
) -> u8
    requires reads { IsTrue (reads_file command.now) }
    requires importable { CanImport command.now }
    requires sink { (writer_state sink.old).failures < 2 ^ 63 }
{
    let file = file_of(command);
    if file == "-" {
        answer_opened(rt, command, Ok(rt.reader()), sink)
    } else {
        answer_opened(rt, command, open(rt, file), sink)
    }
}

/// Runs a command over what a file's reader gives, if it could be opened.
fn answer_opened<R: Eprint + AllocGlobal, F: Read + Drop, W: Write>(
    rt: &R,
    command: &Command<'_>,
    opened: io::Result<F>,
    sink: &mut FromWrite<W>,
) -> u8
    requires reads { IsTrue (reads_file command.now) }
    requires importable { CanImport command.now }
    requires sink { (writer_state sink.old).failures < 2 ^ 63 }
{
    let opened = buffered(rt, opened);
    let mut voice = StandardError(rt);
    run_over::<Global, CompactTracker<Global>, _, _, _>(
        rt.alloc(),
        command,
        opened,
        sink,
        &mut voice,
    )
}

/// Puts a buffer before a file, which is asked for few octets at a time.
fn buffered<R: AllocGlobal, F: Read + Drop>(
    rt: &R,
    opened: io::Result<F>,
) -> io::Result<BufReader<F>> {
    BufReader::new(rt.alloc(), opened?)
}

/// Opens a file to read. A folder can be opened, and not read: it is refused.
fn open<R: Files>(rt: &R, file: &str) -> io::Result<R::File> {
    let opened = fs::open(rt, file)?;
    if opened.metadata()?.is_dir() {
        return Err(io::Error::from(ErrorKind::IsADirectory));
    }
    Ok(opened)
}
