//! A command line, from its words to the exit status.

ghost use Rattle.bgp_words.specs.Import.{CanImport};
ghost use Rattle.bgp_words.specs.Speak.{CanSpeak};

use crate::devices::{make_file, print_answer};
use crate::speaker;
use crate::words::words_status;
use bgp_tool::{ErrorWords, Status};
use bgp_words::{Command, command_line};
use clap::Error;
use std::convert::AsStr;
use std::io::ErrorKind;
use std::net::Net;
use std::rt::{Clock, Files};

/// Runs the command that the words spell, the program's own name first, and answers the exit
/// status. What goes wrong is told on standard error; `errors` is the same stream, on which `speak`
/// prints each record that it writes.
pub fn run_words<R: Files + Net + Clock + Input + Print + Eprint + AllocGlobal, E: Print, S: AsStr>(
    rt: &R,
    errors: &E,
    words: &[S],
) -> u8 {
    match command_line(rt.alloc(), words) {
        Ok(command) => run(rt, errors, &command),
        Err(error) => told(rt, &error).code(),
    }
}

/// Runs a command, and returns the exit status.
fn run<R: Files + Net + Clock + Input + Print + Eprint + AllocGlobal, E: Print>(
    rt: &R,
    errors: &E,
    command: &Command<'_>,
) -> u8
    requires speakable { CanSpeak command.now }
    requires importable { CanImport command.now }
{
    match *command {
        Command::Decode { .. }
        | Command::Capture { .. }
        | Command::Judge { .. }
        | Command::List { .. }
        | Command::Check { .. } => print_answer(rt, command),
        Command::Import { out, .. } => make_file(rt, command, out),
        Command::Speak {
            config,
            speaking,
            file,
        } => speaker::speak(rt, errors, &config, &speaking, file),
        Command::Pair { file } => speaker::pair(rt, file),
    }
}

/// Prints help, the version or a usage fault, each where it belongs.
fn told<R: Print + Eprint>(rt: &R, error: &Error) -> Status {
    let status = words_status(error);
    if status != Status::Done {
        let _ = eprint!(rt; "bgp: {error}");
        return status;
    }
    match print!(rt; "{error}") {
        Ok(()) => status,
        Err(error) => {
            tell_unprinted(rt, error.kind());
            Status::Device
        }
    }
}

/// Tells why standard output can't be written, unless a pipe was closed.
fn tell_unprinted<R: Eprint>(rt: &R, error: ErrorKind) {
    if error != ErrorKind::BrokenPipe {
        let _ = eprintln!(rt; "bgp: standard output: {}", ErrorWords(error));
    }
}
