//! What a speaker does over a real connection.

ghost use Rattle.std.specs.Prelude.{◌≡◌};
ghost use Rattle.bgp_talk.specs.declared.wire.Connection.TheVariants.{NotAsked};

use super::{accepted, listen};
use bgp_open::Config;
use bgp_speak_tool::speak_session;
use bgp_talk::SocketWire;
use bgp_vectors::SPEAKER_A;
use bgp_wire::vectors::{ADMINISTRATIVE_SHUTDOWN, OPEN_A};
use mrt::MemSink;
use std::io;
use std::io::{ErrorKind, Read};
use std::net::Net;
use std::rt::Clock;

/// Router A's IPv4 next hop, 192.0.2.1.
const HOP_4: u32 = 0xc000_0201;

/// Its IPv6 next hop, 2001:db8::1.
const HOP_6: u128 = 0x2001_0db8_0000_0000_0000_0000_0000_0001;

/// Prints what comes of a talk with a peer that says nothing, and of one with nobody.
pub(crate) fn show<R: Net + Clock + Print + AllocGlobal>(rt: &R) -> io::Result<()> {
    with_a_silent_peer(rt)?;
    with_nobody(rt)
}

/// With a peer that says nothing, for one turn: it hears the OPEN and the Cease, 49 and 21 octets.
fn with_a_silent_peer<R: Net + Clock + Print + AllocGlobal>(rt: &R) -> io::Result<()> {
    println!(rt; "with a peer that says nothing:")?;
    let (listener, port) = listen(rt)?;
    let capture = speak(rt, SocketWire::connecting(rt, port))?;
    println!(rt; "{} octets of capture", capture.len())?;
    let mut peer = accepted::<R>(&listener)?;
    tell_heard(rt, &mut peer)
}

/// Prints what the peer has heard.
fn tell_heard<R: Print + AllocGlobal, S: Read>(rt: &R, peer: &mut S) -> io::Result<()> {
    let mut heard = Vec::new(rt.alloc());
    peer.read_to_end(&mut heard)?;
    println!(rt; "the peer reads {} octets", heard.len())?;
    match heard.strip_prefix(&OPEN_A) {
        Some(rest) if rest == ADMINISTRATIVE_SHUTDOWN.as_slice() => {
            println!(rt; "OPEN and Cease")
        }
        _ => println!(rt; "{heard:?}"),
    }
}

/// Where nobody listens: the core starts and fails.
fn with_nobody<R: Net + Clock + Print + AllocGlobal>(rt: &R) -> io::Result<()> {
    println!(rt; "with nobody:")?;
    let (listener, port) = listen(rt)?;
    drop(listener);
    let capture = speak(rt, SocketWire::connecting(rt, port))?;
    // A change of state takes 36 octets, the last of which are both states (RFC 6396, 4.4.1).
    for record in capture.chunks(36) {
        println!(rt; "{:?}", record.split_at(record.len().min(32)).1)?;
    }
    Ok(())
}

/// Takes one turn over a wire, prints the status, what is printed and why there is no connection,
/// and answers the capture.
fn speak<R: Net + Clock + Print + AllocGlobal>(
    rt: &R,
    mut wire: SocketWire<'_, R>,
) -> io::Result<Vec<u8>>
    requires fresh { wire.connection ≡ NotAsked }
    requires failures { wire.failures ≡ 0 }
{
    let Some(config) = Config::new(SPEAKER_A) else {
        return Err(io::Error::from(ErrorKind::InvalidData));
    };
    let session = &config.parts.session;
    if session.peer.family() != session.local.family() {
        return Err(io::Error::from(ErrorKind::InvalidData));
    }
    let mut capture = MemSink::new(rt.alloc());
    let mut output = MemSink::new(rt.alloc());
    let status = speak_session(
        rt.alloc(),
        &config,
        HOP_4,
        HOP_6,
        false,
        &[],
        &mut wire,
        &mut capture,
        &mut output,
        1,
    );
    tell_output(rt, status, output.into_octets())?;
    println!(rt;
        "refused: {}",
        wire.refusal() == Some(ErrorKind::ConnectionRefused)
    )?;
    Ok(capture.into_octets())
}

/// Prints the status, and what was printed.
fn tell_output<R: Print>(rt: &R, status: u8, octets: Vec<u8>) -> io::Result<()> {
    println!(rt; "status {status}")?;
    match String::from_utf8(octets) {
        Ok(text) => print!(rt; "{text}"),
        Err(_) => Err(io::Error::from(ErrorKind::InvalidData)),
    }
}
