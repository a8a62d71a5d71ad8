//! What benchmarks measure: loads as large as is asked for. The first word says which load, and the
//! words after it how large it is:
//!
//! - `attributes FILE`: the file is one field of path attributes, which are split and classed
//!   (`bench/attributes.sh`).
//! - `updates FILE`: the stream of that name is read in blocks, and the outcomes of its UPDATEs are
//!   counted, by `read_update` and nothing beside it (`bench/updates.sh`).
//! - `routes [IPV4 IPV6 PATHS [sorted | shared]]`: a table of so many prefixes of each family and
//!   about so many paths is put, a tenth of it taken away and put again, and all listed; the
//!   prefixes are in no order, or ascend, or share one path (`bench/routes.sh`).
//! - `table FILE`: the routes of a capture are put into a table, and nothing else is done
//!   (`bench/judge.sh`).
//! - `speaker [PREFIXES]`: a speaker's core hears and announces so many prefixes
//!   (`bench/speaker.sh`).
//! - `each FILE CAPTURE ..`: the UPDATEs of that stream, small loads of routes and of a speaker, as
//!   they are without sizes, and the routes of each capture. So the gate runs it, on the UPDATEs of
//!   `bench/mix.sh`, whose prefixes were counted by hand, and on two captures of
//!   `bench/sessions.py`, which counts what it announces.
#![tactic(auto)]

mod classes;
mod outcomes;
mod parties;
mod paths;
mod routes;
mod speaker;
mod table;

use classes::print_classes;
use outcomes::print_outcomes;
use routes::fill_routes;
use speaker::load_speaker;
use std::process::ExitCode;
use std::rt::{Clock, Env, Files};
use std::{env, io};
use table::print_table;

fn main(rt: HostRuntime) -> ExitCode {
    match run(&rt) {
        Ok(true) => ExitCode::SUCCESS,
        Ok(false) => ExitCode::FAILURE,
        Err(error) => {
            let _ = eprintln!(rt; "{error}");
            ExitCode::FAILURE
        }
    }
}

/// Carries the load that the words ask for. Answers whether it came to what it has to.
fn run<R: Files + Env + Clock + Print + AllocGlobal>(rt: &R) -> io::Result<bool> {
    let words: Vec<String> = env::args(rt)?.skip(1).collect(rt.alloc())?;
    let Some((load, words)) = words.as_slice().split_first() else {
        return Err(refused());
    };
    match load.as_str() {
        "attributes" => print_classes(rt, file_of(words)?),
        "updates" => print_outcomes(rt, file_of(words)?).map(|()| true),
        "routes" => fill_routes(rt, words),
        "table" => print_table(rt, file_of(words)?).map(|()| true),
        "speaker" => load_speaker(rt, words),
        "each" => carry_each(rt, words),
        _ => Err(refused()),
    }
}

/// Carries a small load of each: of the UPDATEs that the first word names, and of the captures that
/// the others do.
fn carry_each<R: Files + Clock + Print + AllocGlobal>(
    rt: &R,
    words: &[String],
) -> io::Result<bool> {
    let Some((updates, captures)) = words.split_first() else {
        return Err(refused());
    };
    print_outcomes(rt, updates.as_str())?;
    for capture in captures {
        print_table(rt, capture.as_str())?;
    }
    Ok(fill_routes(rt, &[])? && load_speaker(rt, &[])?)
}

/// The file that the words name.
fn file_of(words: &[String]) -> io::Result<&str> {
    match words {
        [name] => Ok(name.as_str()),
        _ => Err(refused()),
    }
}

/// The number that a word spells.
fn number_of(word: &String) -> io::Result<u32> {
    match word.as_str().parse::<u32>() {
        Ok(number) => Ok(number),
        Err(_) => Err(refused()),
    }
}

/// Words that ask for no load.
fn refused() -> io::Error {
    io::Error::from(io::ErrorKind::InvalidInput)
}

/// A failure of what has to succeed.
fn broken() -> io::Error {
    io::Error::from(io::ErrorKind::InvalidData)
}
