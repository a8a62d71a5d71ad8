//! The streams of real routers that lie in `streams/`.

use crate::sessions::print_sessions;
use bgp_json::OutputForm;
use bgp_lines::LineForm;
use bgp_tool::{StreamOptions, decode_raw};
use bgp_wire::Limit;
use mrt::{FromRead, FromWrite};
use std::rt::Files;
use std::{fs, io};

/// The streams by session and direction; `examples/README.md` tells what the sessions are.
static STREAMS: [&str; 14] = [
    "as-trans.a-to-b.bgp",
    "as-trans.b-to-a.bgp",
    "bad-as-frr.a-to-b.bgp",
    "bad-as-frr.b-to-a.bgp",
    "bird-frr.a-to-b.bgp",
    "bird-frr.b-to-a.bgp",
    "hold0.a-to-b.bgp",
    "hold0.b-to-a.bgp",
    "openbgpd-gobgp.a-to-b.bgp",
    "openbgpd-gobgp.b-to-a.bgp",
    "refresh.a-to-b.bgp",
    "refresh.b-to-a.bgp",
    "transport6.a-to-b.bgp",
    "transport6.b-to-a.bgp",
];

/// The streams of a session in which both sides offer extended messages (RFC 8654): each has an
/// UPDATE of more than 4096 octets, so it is decoded with them and without.
static EXTENDED: [&str; 2] = ["extmsg.a-to-b.bgp", "extmsg.b-to-a.bgp"];

/// Decodes all streams, one after another. Answers whether all their UPDATEs are clean.
pub(crate) fn print_streams<R: Files + Print + AllocGlobal>(rt: &R) -> io::Result<bool> {
    for name in &STREAMS {
        print_stream(rt, Limit::Plain, name)?;
    }
    for name in &EXTENDED {
        print_stream(rt, Limit::Plain, name)?;
        print_stream(rt, Limit::Extended, name)?;
    }
    print_sessions(rt)
}

/// Prints a stream's name, its text, where its messages may be so long, and the status that
/// decoding it answers.
fn print_stream<R: Files + Print + AllocGlobal>(
    rt: &R,
    limit: Limit,
    name: &str,
) -> io::Result<()> {
    println!(rt; "{name}")?;
    let path = format!(in rt.alloc(); "streams/{name}")?;
    let mut source = FromRead::new(fs::open(rt, path.as_str())?);
    let mut sink = FromWrite::new(io::writer(rt));
    let options = StreamOptions {
        limit,
        form: OutputForm::Text(LineForm::Plain),
    };
    let status = decode_raw(options, rt.alloc(), &mut source, &mut sink);
    println!(rt; "status {status}")
}
