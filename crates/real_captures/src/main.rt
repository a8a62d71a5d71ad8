//! Decodes and judges captures, streams, UPDATEs and addresses whose answers are known from
//! elsewhere.
//!
//! Decoded are those of real routers' sessions, whose text is this program's; and four tables of
//! captures, whose lines and statuses it compares. `cases.txt` was answered by another program, and
//! so were `cases-extended.txt`, once it knew extended messages (RFC 8654), and `cases-large.txt`,
//! once it knew large communities, too (RFC 8092); `rules.txt` was worked out by hand from RFC
//! 6396.
//!
//! Judged are seven tables, by the plain tracker and by the compact one. A program that was
//! written apart from this one answered `judged.txt`, random captures, `judged-extended.txt` and
//! `judged-large.txt`, more of them as it answered later, and `recordings.txt`, those of real
//! routers' sessions; `sessions.txt` was worked out by hand from RFC 4271, one session for each
//! thing that it teaches, `rows-by-hand.txt` has each row of the session machine
//! (docs/SESSION-MACHINE.md) where it holds and where its guard fails by one, and `cuts.txt` is two
//! records cut to each length. And each capture of `judged.txt` is altered twice: there both
//! trackers answer alike. So they do for a thousand sessions by chance.
//!
//! Then the streams of real routers are decoded, whose UPDATEs are clean; and the outcomes of
//! UPDATEs and the texts of addresses are compared with tables that other programs made, and those
//! of UPDATEs with one that was worked out by hand (docs/UPDATE-ERRORS.md), too. So were the lines
//! of the streams in `streams-by-hand.txt`, and what is found in the OPENs of `opens-by-hand.txt`.
//! The lines in words of the streams in `names.txt`, and those in JSON of `json.txt`, were answered
//! by another program.
//!
//! `told.txt` and `breaks.txt` were, too: commands over readers and writers that may fail, with
//! what they tell on standard error.
#![tactic(auto)]

mod addresses;
mod altered;
mod case;
mod chance;
mod devices;
mod judged;
mod lines;
mod messages;
mod moves;
mod opens;
mod raw_streams;
mod recordings;
mod runs;
mod sessions;
mod table;
mod told;
mod updates;
mod walk;

use addresses::compare_addresses;
use chance::judge_sessions;
use judged::compare_altered;
use raw_streams::print_streams;
use recordings::print_captures;
use std::io;
use std::process::ExitCode;
use std::rt::Files;
use table::compare_tables;

fn main(rt: HostRuntime) -> ExitCode {
    match run(&rt) {
        Ok(true) => ExitCode::SUCCESS,
        Ok(false) => ExitCode::FAILURE,
        Err(error) => {
            let _ = eprintln!(rt; "{error}");
            ExitCode::FAILURE
        }
    }
}

/// Goes through all. Answers whether all is as it is known.
fn run<R: Files + Print + AllocGlobal>(rt: &R) -> io::Result<bool> {
    print_captures(rt)?;
    let captures = compare_captures(rt)?;
    let others = compare_others(rt)?;
    Ok(captures && others)
}

/// Goes through the tables, and judges altered captures.
fn compare_captures<R: Files + Print + AllocGlobal>(rt: &R) -> io::Result<bool> {
    let tables = compare_tables(rt)?;
    let altered = compare_altered(rt, "judged.txt")?;
    Ok(tables && altered)
}

/// Goes through the streams, the addresses and sessions by chance.
fn compare_others<R: Files + Print + AllocGlobal>(rt: &R) -> io::Result<bool> {
    let streams = print_streams(rt)?;
    let addresses = compare_addresses(rt)?;
    let sessions = judge_sessions(rt)?;
    Ok(streams && addresses && sessions)
}
