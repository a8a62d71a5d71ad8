//! What each call of a wire answers.

ghost use Rattle.std.specs.Prelude.{◌≡◌, ◌<◌, ◌≤◌, ◌+◌, length};
ghost use Rattle.bgp_talk.specs.declared.wire.Connection.TheVariants.{Stands};

use super::{accepted, listen, loopback};
use bgp_talk::{ReadAnswer, SocketWire, Wire};
use std::io;
use std::io::{ErrorKind, Read, Write};
use std::net::{Net, OpenStream, Shutdown, TcpStream};
use std::rt::Clock;

/// The beginning of 2026, in seconds after that of 1970.
const YEAR_2026: u32 = 1_767_225_600;

/// Prints the answers of a wire that connects, and of one that is connected to.
pub(crate) fn show<R: Net + Clock + Print>(rt: &R) -> io::Result<()> {
    connecting(rt)?;
    listening(rt)
}

/// What is wrong where there is no connection.
fn unconnected() -> io::Error {
    io::Error::from(ErrorKind::NotConnected)
}

/// Of one that connects to a peer, which answers, stops to send, and goes.
fn connecting<R: Net + Clock + Print>(rt: &R) -> io::Result<()> {
    println!(rt; "it connects:")?;
    let (listener, port) = listen(rt)?;
    let mut wire = SocketWire::connecting(rt, port);
    if wire.connect().is_err() {
        return Err(unconnected());
    }
    let peer = accepted::<R>(&listener)?;
    println!(rt; "its clock is right: {}", wire.now() >= YEAR_2026)?;
    tell_read(rt, &mut wire)?;
    tell_talk(rt, &mut wire, peer)?;
    tell_last_write(rt, &mut wire)?;
    println!(rt; "failures: {}", wire.failures())
}

/// Of one whose peer says something, stops to send, and goes.
fn tell_talk<R: Net + Print, W: Wire>(rt: &R, wire: &mut W, mut peer: R::Stream) -> io::Result<()>
    requires stands { W.connection wire.old ≡ Stands }
    requires failures { W.failures wire.old < 90 }
    ensures stands { W.connection wire.new ≡ Stands }
    ensures failures { W.failures wire.new ≤ W.failures wire.old + 4 }
{
    peer.write_all(b"abc")?;
    tell_answer(rt, wire, &mut peer, b"defgh")?;
    peer.shutdown(Shutdown::Write)?;
    tell_answer(rt, wire, &mut peer, b"ij")
}

/// Of one that a peer connects to.
fn listening<R: Net + Clock + Print>(rt: &R) -> io::Result<()> {
    println!(rt; "it listens:")?;
    let mut wire = SocketWire::listening(rt, 0)?;
    let mut peer = TcpStream::connect(rt, loopback(wire.port()))?;
    if wire.connect().is_err() {
        return Err(unconnected());
    }
    peer.write_all(b"op")?;
    tell_answer(rt, &mut wire, &mut peer, b"q")?;
    println!(rt; "failures: {}", wire.failures())
}

/// Prints what a read answers, then what a write answers, and what the peer reads of it.
fn tell_answer<R: Print, W: Wire, S: Read>(
    rt: &R,
    wire: &mut W,
    peer: &mut S,
    octets: &[u8],
) -> io::Result<()>
    requires some { 0 < length octets.now }
    requires stands { W.connection wire.old ≡ Stands }
    requires failures { W.failures wire.old < 99 }
    ensures stands { W.connection wire.new ≡ Stands }
    ensures failures { W.failures wire.new ≤ W.failures wire.old + 2 }
{
    tell_read(rt, wire)?;
    tell_write(rt, wire, octets)?;
    tell_peer(rt, peer)
}

/// Prints what a read answers.
fn tell_read<R: Print, W: Wire>(rt: &R, wire: &mut W) -> io::Result<()>
    requires stands { W.connection wire.old ≡ Stands }
    requires failures { W.failures wire.old < 100 }
    ensures stands { W.connection wire.new ≡ Stands }
    ensures failures { W.failures wire.new ≤ W.failures wire.old + 1 }
{
    let mut buffer = [0; 8];
    match wire.read(&mut buffer) {
        ReadAnswer::Bytes(count) => println!(rt; "it reads {:?}", &buffer[..count]),
        ReadAnswer::Nothing => println!(rt; "it reads nothing"),
        ReadAnswer::Closed => println!(rt; "it reads the end"),
        ReadAnswer::Failed => println!(rt; "its read fails"),
    }
}

/// Prints what a write answers.
fn tell_write<R: Print, W: Wire>(rt: &R, wire: &mut W, octets: &[u8]) -> io::Result<()>
    requires some { 0 < length octets.now }
    requires stands { W.connection wire.old ≡ Stands }
    requires failures { W.failures wire.old < 100 }
    ensures stands { W.connection wire.new ≡ Stands }
    ensures failures { W.failures wire.new ≤ W.failures wire.old + 1 }
{
    match wire.write(octets) {
        Ok(count) => println!(rt; "it writes {count} octets"),
        Err(_) => println!(rt; "its write fails"),
    }
}

/// Writes until a write fails, at most a hundred times, and prints whether one did: the first ones
/// after a peer has gone may be taken, since the system hears of that from their answer alone
/// (RFC 9293, 3.5.2).
fn tell_last_write<R: Print, W: Wire>(rt: &R, wire: &mut W) -> io::Result<()>
    requires stands { W.connection wire.old ≡ Stands }
    requires failures { W.failures wire.old < 100 }
{
    for _ in 0..100 {
        if wire.write(b"kl").is_err() {
            return println!(rt; "at last its write fails");
        }
    }
    println!(rt; "no write fails")
}

/// Prints what the peer reads.
fn tell_peer<R: Print, S: Read>(rt: &R, peer: &mut S) -> io::Result<()> {
    let mut buffer = [0; 8];
    let count = peer.read(&mut buffer)?;
    println!(rt; "the peer reads {:?}", &buffer[..count])
}
