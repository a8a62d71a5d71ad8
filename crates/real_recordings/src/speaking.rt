//! `bgp speak` and `bgp pair`, run as `bgp` does, over loopback and real files.

use crate::runs::{print_file, run, words_in};
use bgp_commands::run_words;
use bgp_talk::SocketWire;
use std::io;
use std::net::{Ipv4Addr, Net, OpenListener, SocketAddr, SocketAddrV4, TcpListener, TcpStream};
use std::rt::{Clock, Files};

/// The words of `bgp speak`, but for the port and the file.
const SPEAK: &str = "bgp speak --local-as 65001 --peer-as 65002 --local-id 192.0.2.1 --local \
                     192.0.2.1 --peer 192.0.2.2 --families both --next-hop 192.0.2.1 --next-hop6 \
                     2001:db8::1 --turns 1 --quiet";

/// The words by which the file of `bgp speak` is judged.
const JUDGE: &str = "bgp judge --local-as 65001 --peer-as 65002 --local-id 192.0.2.1 --local \
                     192.0.2.1 --peer 192.0.2.2 --families both";

/// Two pairs, one of which can't make its files. A speaker whose port is in use leaves its file as
/// it was. One that comes to no connection, and one whose peer says nothing, write a capture that is
/// judged yes. A peer at another address than 127.0.0.1 is refused.
pub(crate) fn speak_all<R: Files + Net + Clock + Input + Print + Eprint + AllocGlobal, E: Print>(
    rt: &R,
    errors: &E,
) -> io::Result<()> {
    run(rt, errors, "bgp pair pair.mrt")?;
    run(rt, errors, "bgp pair no_folder/pair.mrt")?;
    let listener = TcpListener::bind(rt, at(Ipv4Addr::LOCALHOST, 0))?;
    let port = listener.local_addr()?.port();
    speak(rt, errors, "--listen", port, "kept.mrt")?;
    print_file(rt, "kept.mrt", Some("session.mrt"))?;
    speak(rt, errors, "--connect", port, "spoken.mrt")?;
    judge(rt, errors, "spoken.mrt")?;
    drop(listener);
    speak(rt, errors, "--connect", port, "alone.mrt")?;
    judge(rt, errors, "alone.mrt")?;
    connect_elsewhere(rt)
}

/// The address of a port.
fn at(address: Ipv4Addr, port: u16) -> SocketAddr {
    SocketAddr::V4(SocketAddrV4::new(address, port))
}

/// Prints what `bgp speak` prints at a port whose number isn't known before, and its status.
fn speak<R: Files + Net + Clock + Input + Print + Eprint + AllocGlobal, E: Print>(
    rt: &R,
    errors: &E,
    option: &str,
    port: u16,
    file: &str,
) -> io::Result<()> {
    println!(rt; "> {SPEAK} {option} PORT {file}")?;
    let line = format!(in rt.alloc(); "{SPEAK} {option} {port} {file}")?;
    let words = words_in(rt.alloc(), line.as_str())?;
    let status = run_words(rt, errors, words.as_slice());
    println!(rt; "status {status}")
}

/// Prints what `bgp judge` prints of a speaker's file, and its status.
fn judge<R: Files + Net + Clock + Input + Print + Eprint + AllocGlobal, E: Print>(
    rt: &R,
    errors: &E,
    file: &str,
) -> io::Result<()> {
    let line = format!(in rt.alloc(); "{JUDGE} {file}")?;
    run(rt, errors, line.as_str())
}

/// Prints whether a listener on which a speaker would wait is reached at two addresses of this
/// machine: 127.0.0.1, and 127.0.0.2, which is none of its own.
fn connect_elsewhere<R: Net + Clock + Print>(rt: &R) -> io::Result<()> {
    let wire = SocketWire::listening(rt, 0)?;
    for address in [Ipv4Addr::new(127, 0, 0, 2), Ipv4Addr::LOCALHOST] {
        let is_reached = TcpStream::connect(rt, at(address, wire.port())).is_ok();
        println!(rt; "{address} is reached: {is_reached}")?;
    }
    Ok(())
}
