//! A wire over TCP, on the loopback address.

ghost use Rattle.std.specs.Prelude.{◌≡◌, ◌+◌, ◌<◌, IfOk};
ghost use Rattle.bgp_talk.specs.declared.wire.Connection.TheVariants.{NotAsked};

use crate::wire::{Connection, ReadAnswer, Wire};
use bgp_prefix::Seconds;
use mrt::Failed;
use std::io;
use std::io::{ErrorKind, Read, Write};
use std::net::{
    Ipv4Addr, Net, OpenListener, OpenStream, SocketAddr, SocketAddrV4, TcpListener, TcpStream,
};
use std::rt::Clock;
use std::time::{Duration, SystemTime, UNIX_EPOCH};

/// A TCP connection on 127.0.0.1, and the system's clock. It tells nothing of what it carries.
///
/// A read waits a second at most for octets, and a write for room: then nothing came, or the write
/// failed. Any other error is a failure, also that of a call which a signal interrupted. Where the
/// clock can't be read, or is before 1970, the second is the last one told, 0 at first; from 2106
/// on it is the last that 32 bits hold.
#[derive(Drop)]
pub struct SocketWire<'a, R: Net> {
    rt: &'a R,
    port: u16,
    listener: Option<R::Listener>,
    stream: Option<R::Stream>,
    connection: Connection,
    second: Seconds,
    failures: u64,
    refusal: Option<ErrorKind>,
}

impl<'a, R: Net + Clock> SocketWire<'a, R> {
    /// A wire that will connect to this port.
    pub fn connecting(rt: &'a R, port: u16) -> SocketWire<'a, R>
        ensures fresh { result.connection ≡ NotAsked }
        ensures failures { result.failures ≡ 0 }
    {
        SocketWire::new(rt, port, None)
    }

    /// A wire that listens on this port, from now on, and will take the first connection that a
    /// peer opens to it, however long that takes. Port 0 is one that the system picks.
    pub fn listening(rt: &'a R, port: u16) -> io::Result<SocketWire<'a, R>>
        ensures fresh { IfOk result (λ wire. wire.connection ≡ NotAsked) }
        ensures failures { IfOk result (λ wire. wire.failures ≡ 0) }
    {
        let listener = TcpListener::bind(rt, loopback(port))?;
        let port = listener.local_addr()?.port();
        Ok(SocketWire::new(rt, port, Some(listener)))
    }

    // A wire that wasn't asked yet.
    fn new(rt: &'a R, port: u16, listener: Option<R::Listener>) -> SocketWire<'a, R>
        ensures fresh { result.connection ≡ NotAsked }
        ensures failures { result.failures ≡ 0 }
    {
        SocketWire {
            rt,
            port,
            listener,
            stream: None,
            connection: Connection::NotAsked,
            second: 0,
            failures: 0,
            refusal: None,
        }
    }

    /// The port that it connects to or listens on.
    pub fn port(&self) -> u16 {
        self.port
    }

    /// Why there is no connection: `None` where it wasn't asked for yet, or came to be.
    pub fn refusal(&self) -> Option<ErrorKind> {
        self.refusal
    }

    // Counts a failure.
    fn fail(&mut self) -> Failed
        requires { self.old.failures < u64.MAX }
        ensures failures { self.new.failures ≡ self.old.failures + 1 }
        ensures connection { self.new.connection ≡ self.old.connection }
    {
        self.failures += 1;
        Failed
    }
}

/// The loopback address, with this port.
fn loopback(port: u16) -> SocketAddr {
    SocketAddr::V4(SocketAddrV4::new(Ipv4Addr::LOCALHOST, port))
}

/// The stream of a connection that a peer opens, or that is opened to this port where there is no
/// listener.
fn opened<R: Net>(rt: &R, port: u16, listener: Option<R::Listener>) -> io::Result<R::Stream> {
    let stream = match listener {
        Some(listener) => listener.accept()?.0,
        None => TcpStream::connect(rt, loopback(port))?,
    };
    stream.set_nodelay(true)?;
    stream.set_read_timeout(Some(Duration::from_secs(1)))?;
    stream.set_write_timeout(Some(Duration::from_secs(1)))?;
    Ok(stream)
}

/// The second of the system's clock, if it can be read.
fn second_of<R: Clock>(rt: &R) -> Option<Seconds> {
    let now = SystemTime::now(rt).ok()?;
    let since = now.duration_since(UNIX_EPOCH).ok()?;
    Some(since.as_secs().min(u64::from(u32::MAX)) as u32)
}

impl<'a, R: Net + Clock> Wire for SocketWire<'a, R> {
    ghost tells = { λ a b account. Unit {0} };

    ghost failures = { λ a. a.failures };

    ghost connection = { λ a. a.connection };

    ghost nothing = { λ a. tt };

    ghost joined = { λ a b c xs ys first second. tt };

    fn connect(&mut self) -> Result<(), Failed> {
        match opened(self.rt, self.port, self.listener.take()) {
            Ok(stream) => {
                self.stream = Some(stream);
                self.connection = Connection::Stands;
                Ok(())
            }
            Err(error) => {
                self.refusal = Some(error.kind());
                self.connection = Connection::Refused;
                Err(self.fail())
            }
        }
    }

    fn read(&mut self, buffer: &mut [u8]) -> ReadAnswer {
        let Some(stream) = &mut self.stream else {
            self.failures += 1;
            return ReadAnswer::Failed;
        };
        match stream.read(buffer) {
            Ok(0) => ReadAnswer::Closed,
            Ok(count) => ReadAnswer::Bytes(count),
            Err(error) => match error.kind() {
                ErrorKind::WouldBlock => ReadAnswer::Nothing,
                ErrorKind::TimedOut => ReadAnswer::Nothing,
                _ => {
                    self.failures += 1;
                    ReadAnswer::Failed
                }
            },
        }
    }

    fn write(&mut self, octets: &[u8]) -> Result<usize, Failed> {
        let Some(stream) = &mut self.stream else {
            self.failures += 1;
            return Err(Failed);
        };
        match stream.write(octets) {
            Ok(count) => Ok(count),
            Err(_) => {
                self.failures += 1;
                Err(Failed)
            }
        }
    }

    fn now(&mut self) -> Seconds {
        if let Some(second) = second_of(self.rt) {
            self.second = second;
        }
        self.second
    }

    fn failures(&self) -> u64 {
        self.failures
    }
}
