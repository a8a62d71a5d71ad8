//! The program `bgp`: hands the words of its command line on, and answers with an exit status.
#![tactic(auto)]

use bgp_commands::run_words;
use bgp_tool::Status;
use std::net::Net;
use std::process::ExitCode;
use std::rt::{Clock, Env, Files};
use std::{env, io};

fn main(rt: HostRuntime) -> ExitCode {
    ExitCode::from(run(&rt, &rt.stderr()))
}

/// Answers the exit status on every path: an `Err` out of `main` would be status 1, which is the
/// answer no of a judgement.
fn run<R: Files + Net + Clock + Env + Input + Print + Eprint + AllocGlobal, E: Print>(
    rt: &R,
    errors: &E,
) -> u8 {
    match words(rt) {
        Ok(words) => run_words(rt, errors, words.as_slice()),
        Err(error) => unread(rt, &error).code(),
    }
}

/// The words of the command line, the program's own name first.
fn words<R: Env + AllocGlobal>(rt: &R) -> io::Result<Vec<String>> {
    let mut words = Vec::new(rt.alloc());
    for word in env::args(rt)? {
        words.push(word)?;
    }
    Ok(words)
}

/// Tells why the words can't be read: memory was refused, or one of them isn't text.
fn unread<R: Eprint>(rt: &R, error: &io::Error) -> Status {
    if error.kind() == io::ErrorKind::OutOfMemory {
        let _ = eprintln!(rt; "bgp: memory was refused for the command line");
        return Status::Memory;
    }
    let _ = eprintln!(rt; "bgp: a word of the command line isn't UTF-8 text");
    Status::Usage
}
