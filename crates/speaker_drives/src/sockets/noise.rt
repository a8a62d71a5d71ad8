//! A network on which each end hears noise, whatever the other one says; its files are real ones.

use std::alloc::Allocator;
use std::fs::{Metadata, OpenOptions};
use std::io;
use std::io::{Read, Write};
use std::net::{Ipv4Addr, Net, OpenListener, OpenStream, SocketAddr, SocketAddrV4};
use std::os::fd::{AsRawFd, RawFd};
use std::rt::Files;
use std::time::Duration;

/// The address of each end.
fn address() -> SocketAddr {
    SocketAddr::V4(SocketAddrV4::new(Ipv4Addr::LOCALHOST, 1))
}

/// A network whose streams carry noise, and files.
#[derive(Drop)]
pub(crate) struct Noisy<'a, R: Files> {
    pub(crate) files: &'a R,
}

/// A stream that takes all that is written, and gives zeros, with which no message begins
/// (RFC 4271, 4.1). It is no open file.
#[derive(Drop)]
pub(crate) struct Noise;

impl Read for Noise {
    fn read(&mut self, buffer: &mut [u8]) -> io::Result<usize> {
        buffer.fill(0);
        Ok(buffer.len())
    }
}

impl Write for Noise {
    fn write(&mut self, octets: &[u8]) -> io::Result<usize> {
        Ok(octets.len())
    }

    fn flush(&mut self) -> io::Result<()> {
        Ok(())
    }
}

impl AsRawFd for Noise {
    fn as_raw_fd(&self) -> RawFd {
        -1
    }
}

impl OpenStream for Noise {
    fn local_addr(&self) -> io::Result<SocketAddr> {
        Ok(address())
    }

    fn set_read_timeout(&self, _limit: Option<Duration>) -> io::Result<()> {
        Ok(())
    }
}

impl OpenListener for Noise {
    type Stream = Noise;

    fn accept(&self) -> io::Result<(Noise, SocketAddr)> {
        Ok((Noise, address()))
    }

    fn local_addr(&self) -> io::Result<SocketAddr> {
        Ok(address())
    }
}

impl<R: Files> Net for Noisy<'_, R> {
    type Stream = Noise;

    type Listener = Noise;

    fn bind(&self, _address: SocketAddr) -> io::Result<Noise> {
        Ok(Noise)
    }

    fn connect(&self, _address: SocketAddr) -> io::Result<Noise> {
        Ok(Noise)
    }
}

impl<R: Files> Files for Noisy<'_, R> {
    type File = R::File;

    type Dir = R::Dir;

    fn open_file(&self, how: &OpenOptions, path: &str) -> io::Result<R::File> {
        self.files.open_file(how, path)
    }

    fn open_dir(&self, path: &str) -> io::Result<R::Dir> {
        self.files.open_dir(path)
    }

    fn metadata(&self, path: &str) -> io::Result<Metadata> {
        self.files.metadata(path)
    }

    fn symlink_metadata(&self, path: &str) -> io::Result<Metadata> {
        self.files.symlink_metadata(path)
    }

    fn copy(&self, from: &str, to: &str) -> io::Result<u64> {
        self.files.copy(from, to)
    }

    fn rename(&self, from: &str, to: &str) -> io::Result<()> {
        self.files.rename(from, to)
    }

    fn remove_file(&self, path: &str) -> io::Result<()> {
        self.files.remove_file(path)
    }

    fn create_dir(&self, path: &str) -> io::Result<()> {
        self.files.create_dir(path)
    }

    fn remove_dir(&self, path: &str) -> io::Result<()> {
        self.files.remove_dir(path)
    }

    fn remove_dir_all<A: Allocator>(&self, alloc: A, path: &str) -> io::Result<()> {
        self.files.remove_dir_all(alloc, path)
    }
}
