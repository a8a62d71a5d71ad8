//! A wire over a real loopback connection: what each of its calls answers, what a speaker does over
//! it whose peer says nothing, and over a port where nobody listens.

mod calls;
mod talks;

use std::io;
use std::net::{Ipv4Addr, Net, OpenListener, OpenStream, SocketAddr, SocketAddrV4, TcpListener};
use std::rt::Clock;
use std::time::Duration;

/// Prints what comes of all calls and talks.
pub(crate) fn show<R: Net + Clock + Print + AllocGlobal>(rt: &R) -> io::Result<()> {
    calls::show(rt)?;
    talks::show(rt)
}

/// A port of the loopback address; 0 is one that the system picks.
fn loopback(port: u16) -> SocketAddr {
    SocketAddr::V4(SocketAddrV4::new(Ipv4Addr::LOCALHOST, port))
}

/// The peer that has connected. It waits five seconds at most for octets.
fn accepted<R: Net>(listener: &R::Listener) -> io::Result<R::Stream> {
    let (peer, _) = listener.accept()?;
    peer.set_read_timeout(Some(Duration::from_secs(5)))?;
    Ok(peer)
}

/// A listener, and its port.
fn listen<R: Net>(rt: &R) -> io::Result<(R::Listener, u16)> {
    let listener = TcpListener::bind(rt, loopback(0))?;
    let port = listener.local_addr()?.port();
    Ok((listener, port))
}
