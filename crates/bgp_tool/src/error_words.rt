//! Why a device failed, in the words that the system's own tools have for it.

use std::fmt;
use std::io::ErrorKind;

/// Why a device failed, as `strerror` says it, where the kind of the error tells which it is.
#[derive(Clone, Copy, Debug, PartialEq, Eq)]
pub struct ErrorWords(pub ErrorKind);

impl fmt::Display for ErrorWords {
    fn fmt<W: fmt::Write>(&self, f: &mut fmt::Formatter<W>) -> fmt::Result {
        let words = match self.0 {
            ErrorKind::NotFound => "No such file or directory",
            ErrorKind::PermissionDenied => "Permission denied",
            ErrorKind::AlreadyExists => "File exists",
            ErrorKind::NotADirectory => "Not a directory",
            ErrorKind::IsADirectory => "Is a directory",
            ErrorKind::InvalidFilename => "File name too long",
            ErrorKind::FilesystemLoop => "Too many levels of symbolic links",
            ErrorKind::ReadOnlyFilesystem => "Read-only file system",
            ErrorKind::StorageFull => "No space left on device",
            ErrorKind::QuotaExceeded => "Disk quota exceeded",
            ErrorKind::FileTooLarge => "File too large",
            ErrorKind::BrokenPipe => "Broken pipe",
            ErrorKind::AddrInUse => "Address already in use",
            ErrorKind::ConnectionRefused => "Connection refused",
            ErrorKind::ConnectionReset => "Connection reset by peer",
            ErrorKind::TimedOut => "Connection timed out",
            other => return write!(f, "{other}"),
        };
        f.write_str(words)
    }
}
