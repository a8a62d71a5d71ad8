//! Why a pair of ends gave up.

use std::io::ErrorKind;

/// An end of the connection.
#[derive(Clone, Copy, Debug, PartialEq, Eq)]
pub enum PairEnd {
    /// It connects.
    Left,
    /// It listens.
    Right,
}

/// Why a pair of ends gave up.
#[derive(Clone, Copy, Debug, PartialEq, Eq)]
pub enum PairFault {
    /// An end's capture can't be opened, written or read again. Why: `None` where it is too long to
    /// be counted.
    Capture(PairEnd, Option<ErrorKind>),
    /// The connection can't be made, or it failed.
    Connection(ErrorKind),
    /// Memory was refused.
    Memory,
}
