//! Drives of a speaker's core, and talks of a speaker over a wire, whose records, octets, states
//! and routes are known from elsewhere: `drives.txt`, `wires.txt` and `wires-clock.txt`, whose
//! clock runs, were made at random and answered by a program that was written apart from this one.
//! `drives-by-hand.txt` was written down from the rules of the session machine
//! (docs/SESSION-MACHINE.md) and of the core's choices, one drive for each thing that it teaches;
//! each is driven whole, with its pieces cut into single octets, and one input after another.
//! `wires-by-hand.txt` was written down likewise (docs/SPEAKER.md).
//!
//! What a drive or a talk shows is judged, too, by the plain tracker and by the compact one: yes,
//! with the state and the routes of its end among the ends. So are a thousand drives by chance.
//!
//! Then both ends of a session speak over a real loopback connection (`sockets`), and what they
//! print is stored.
#![tactic(auto)]

mod case;
mod chance;
mod drive;
mod judging;
mod sockets;
mod talk;

use chance::drive_by_chance;
use drive::{is_drive, is_drive_each_way};
use std::alloc::Global;
use std::net::Net;
use std::process::ExitCode;
use std::rt::{Clock, Files};
use std::{fs, io};
use talk::is_talk;

/// What the blocks of a table tell of.
#[derive(Clone, Copy)]
enum Told {
    Drives,
    DrivesEachWay,
    Talks,
}

/// The tables, what they have, and what their blocks tell of.
static TABLES: [(&str, &str, Told); 5] = [
    ("drives.txt", "drives", Told::Drives),
    ("drives-by-hand.txt", "drives by hand", Told::DrivesEachWay),
    ("wires.txt", "talks", Told::Talks),
    ("wires-clock.txt", "talks by the clock", Told::Talks),
    ("wires-by-hand.txt", "talks by hand", Told::Talks),
];

fn main(rt: HostRuntime) -> ExitCode {
    match compare_all(&rt) {
        Ok(true) => ExitCode::SUCCESS,
        Ok(false) => ExitCode::FAILURE,
        Err(error) => {
            let _ = eprintln!(rt; "{error}");
            ExitCode::FAILURE
        }
    }
}

/// Prints what is not so, and how much was compared, and what is done over sockets. Answers whether
/// all is so.
fn compare_all<R: Net + Files + Clock + Print + AllocGlobal>(rt: &R) -> io::Result<bool> {
    let mut all = true;
    for (file, name, told) in &TABLES {
        all = compare(rt, file, name, *told)? && all;
    }
    all = drive_by_chance(rt)? && all;
    sockets::show(rt)?;
    Ok(all)
}

/// Prints each block of a table that is not so, and then how many there were. Answers whether all
/// are so.
fn compare<R: Files + Print + AllocGlobal>(
    rt: &R,
    file: &str,
    name: &str,
    told: Told,
) -> io::Result<bool> {
    let text = fs::read_to_string(rt, file)?;
    let mut count = 0u64;
    let mut all = true;
    for block in text.split("\n\n") {
        let block = block.trim_end();
        if block.is_empty() {
            continue;
        }
        count = count.saturating_add(1);
        all &= compare_block(rt, file, told, (count, block))?;
    }
    println!(rt; "{count} {name}")?;
    Ok(all)
}

/// Prints a block of a table that is not so. Answers whether it is so.
fn compare_block<R: Print + AllocGlobal>(
    rt: &R,
    file: &str,
    told: Told,
    (count, block): (u64, &str),
) -> io::Result<bool> {
    let is_so = is_so(rt.alloc(), told, block)?;
    if !is_so {
        println!(rt; "{file}: number {count} is not so:\n{block}")?;
    }
    Ok(is_so)
}

/// Whether a block is so.
fn is_so(alloc: Global, told: Told, block: &str) -> io::Result<bool> {
    match told {
        Told::Drives => is_drive(alloc, block),
        Told::DrivesEachWay => is_drive_each_way(alloc, block),
        Told::Talks => is_talk(alloc, block),
    }
}
