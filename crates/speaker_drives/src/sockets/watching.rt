//! Captures that are shown while they are written.

use bgp_prefix::{Address, RouteRefresh, Session};
use bgp_speak_tool::Watched;
use mrt::{MemSink, SinkUpset, write_all};
use std::num::NonZeroUsize;
use std::rt::Files;
use std::{fs, io};

/// The left end's address, 192.0.2.1.
const LEFT: Address = Address::V4(0xc000_0201);

/// The right end's, 192.0.2.2.
const RIGHT: Address = Address::V4(0xc000_0202);

/// How a capture is written: at once or octet by octet, and the number of the write that fails. Its
/// first record, a change of state, has 36 octets (RFC 6396, 2 and 4.4.1).
static WRITINGS: [(&str, bool, u64); 5] = [
    ("in one write:", false, u64::MAX),
    ("octet by octet:", true, u64::MAX),
    ("no octet:", false, 0),
    ("an octet less than the first record:", true, 35),
    ("the first record:", true, 36),
];

/// The header of a record that is longer than any that is written: type 16, subtype 4, and a body
/// of 100,000 octets (RFC 6396, 2).
const LONG: [u8; 12] = [0, 0, 3, 232, 0, 16, 0, 4, 0, 1, 134, 160];

/// Prints what is shown of both captures of a pair.
pub fn show<R: Files + Print + AllocGlobal>(rt: &R, left: &str, right: &str) -> io::Result<()> {
    let octets = fs::read(rt, left)?;
    let session = session_of(LEFT, RIGHT);
    for (title, is_slow, fails) in &WRITINGS {
        println!(rt; "{title}")?;
        write(rt, &octets, &session, *is_slow, *fails, false)?;
    }
    println!(rt; "quiet:")?;
    write(rt, &octets, &session, false, u64::MAX, true)?;
    println!(rt; "after a record that is too long:")?;
    write(
        rt,
        &after_a_long_one(rt, &octets)?,
        &session,
        false,
        u64::MAX,
        false,
    )?;
    println!(rt; "of the other end:")?;
    let octets = fs::read(rt, right)?;
    write(
        rt,
        &octets,
        &session_of(RIGHT, LEFT),
        false,
        u64::MAX,
        false,
    )
}

/// The session of an end.
fn session_of(local: Address, peer: Address) -> Session {
    Session {
        peer,
        local,
        refresh: RouteRefresh::NotOffered,
        extended: false,
    }
}

/// These octets after a record that is too long.
fn after_a_long_one<R: AllocGlobal>(rt: &R, octets: &[u8]) -> io::Result<Vec<u8>> {
    let mut capture = Vec::new(rt.alloc());
    capture.extend_from_slice(&LONG)?;
    capture.resize(LONG.len() + 100_000, 0)?;
    capture.extend_from_slice(octets)?;
    Ok(capture)
}

/// Writes a capture, whose records are printed, and then how many octets its sink took.
fn write<R: Print + AllocGlobal>(
    rt: &R,
    octets: &[u8],
    session: &Session,
    is_slow: bool,
    fails: u64,
    is_quiet: bool,
) -> io::Result<()> {
    let most = if is_slow {
        NonZeroUsize::MIN
    } else {
        NonZeroUsize::MAX
    };
    let sink = MemSink::new(rt.alloc())
        .in_pieces_of(most)
        .upset_at(fails, SinkUpset::Fail);
    let mut capture = Watched::new(rt.alloc(), sink, session, rt, is_quiet);
    let _ = write_all(&mut capture, octets);
    let taken = capture.into_inner().into_octets().len();
    println!(rt; "{taken} octets")
}
