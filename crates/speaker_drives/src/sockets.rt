//! Both ends of a session over a real loopback connection, with real files: what `bgp pair` prints
//! and answers, and what is told where its captures can't be made. Then what is shown of these
//! captures while they are written, as `bgp speak` does, and what a pair prints whose ends hear
//! noise. And a wire over such a connection, call by call.

mod noise;
mod watching;
mod wire;

use bgp_compact::CompactTracker;
use bgp_speak_tool::pair_session;
use mrt::FromWrite;
use noise::Noisy;
use std::alloc::Global;
use std::io;
use std::net::Net;
use std::rt::{Clock, Files};

/// Two pairs: one whose captures can be made, and one whose folder isn't there. Then what is shown
/// of the captures of the first, a pair whose ends hear noise, and a wire.
pub(crate) fn show<R: Net + Files + Clock + Print + AllocGlobal>(rt: &R) -> io::Result<()> {
    pair(rt, "pair.mrt")?;
    pair(rt, "no_folder/pair.mrt")?;
    watching::show(rt, "pair.mrt", "pair.mrt.right")?;
    pair_over(rt, &Noisy { files: rt }, "noise.mrt")?;
    wire::show(rt)
}

/// Prints what a pair prints, its exit status, and what is told of it.
fn pair<R: Net + Files + Print + AllocGlobal>(rt: &R, file: &str) -> io::Result<()> {
    pair_over(rt, rt, file)
}

/// The same over another network, with its files.
fn pair_over<R: Print + AllocGlobal, N: Net + Files>(
    rt: &R,
    net: &N,
    file: &str,
) -> io::Result<()> {
    let mut sink = FromWrite::new(io::writer(rt));
    let outcome = pair_session::<Global, CompactTracker<Global>, _, _>(
        rt.alloc(),
        net,
        file,
        &mut sink,
    );
    println!(rt; "status {}", outcome.status)?;
    match outcome.note {
        Some(note) => println!(rt; "{note}"),
        None => Ok(()),
    }
}
