//! The captures of real routers' sessions that lie in the folder where the program runs.

use bgp_json::OutputForm;
use bgp_lines::LineForm;
use bgp_prefix::{Address, RouteRefresh, Session};
use bgp_tool::{SessionOptions, decode_capture};
use mrt::{FromRead, FromWrite, Reader};
use std::io::BufReader;
use std::rt::Files;
use std::{fs, io};

/// The captures by session and end; `examples/README.md` tells what the sessions are.
static CAPTURES: [&str; 39] = [
    "as-trans.a.mrt",
    "as-trans.a.native-openbgpd-in.mrt",
    "as-trans.a.native-openbgpd-out.mrt",
    "as-trans.a.up.mrt",
    "as-trans.b.mrt",
    "as-trans.b.native-frr.mrt",
    "bad-as-frr.a.mrt",
    "bad-as-frr.a.native-frr.mrt",
    "bad-as-frr.a.up.mrt",
    "bad-as-frr.b.mrt",
    "bad-as-frr.b.native-openbgpd-in.mrt",
    "bad-as-frr.b.native-openbgpd-out.mrt",
    "bird-frr.a.mrt",
    "bird-frr.a.native-bird.mrt",
    "bird-frr.a.up.mrt",
    "bird-frr.b.mrt",
    "bird-frr.b.native-frr.mrt",
    "hold0.a.mrt",
    "hold0.a.native-bird.mrt",
    "hold0.a.up.mrt",
    "hold0.b.mrt",
    "hold0.b.native-frr.mrt",
    "openbgpd-gobgp.a.mrt",
    "openbgpd-gobgp.a.native-openbgpd-in.mrt",
    "openbgpd-gobgp.a.native-openbgpd-out.mrt",
    "openbgpd-gobgp.a.up.mrt",
    "openbgpd-gobgp.b.mrt",
    "openbgpd-gobgp.b.native-gobgp.mrt",
    "refresh.a.mrt",
    "refresh.a.native-bird.mrt",
    "refresh.a.up.mrt",
    "refresh.b.mrt",
    "refresh.b.native-frr.mrt",
    "transport6.a.mrt",
    "transport6.a.native-openbgpd-in.mrt",
    "transport6.a.native-openbgpd-out.mrt",
    "transport6.a.up.mrt",
    "transport6.b.mrt",
    "transport6.b.native-bird.mrt",
];

/// The session of a capture, by its name: the local system is at the end that the name tells.
fn session_of(name: &str) -> Session {
    let (a, b) = if name.starts_with("transport6") {
        let network = 0x2001_0db8_u128 << 96;
        (Address::V6(network | 1), Address::V6(network | 2))
    } else {
        (Address::V4(0xc000_0201), Address::V4(0xc000_0202))
    };
    let (local, peer) = if name.contains(".a.") { (a, b) } else { (b, a) };
    Session {
        peer,
        local,
        refresh: RouteRefresh::NotOffered,
        extended: false,
    }
}

/// Prints all captures.
pub(crate) fn print_captures<R: Files + Print + AllocGlobal>(rt: &R) -> io::Result<()> {
    for name in &CAPTURES {
        print_capture(rt, name)?;
    }
    Ok(())
}

/// Prints a capture's name, its text, and the status that decoding it answers.
fn print_capture<R: Files + Print + AllocGlobal>(rt: &R, name: &str) -> io::Result<()> {
    println!(rt; "{name}")?;
    let mut source = FromRead::new(BufReader::new(rt.alloc(), fs::open(rt, name)?)?);
    let mut sink = FromWrite::new(io::writer(rt));
    let mut reader = Reader::new(rt.alloc());
    let options = SessionOptions {
        session: session_of(name),
        form: OutputForm::Text(LineForm::Plain),
    };
    let status = decode_capture(rt.alloc(), &mut reader, &options, &mut source, &mut sink);
    println!(rt; "status {status}")
}
