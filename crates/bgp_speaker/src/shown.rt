//! A record that a core shows, and which owns its message.

ghost use Rattle.std.specs.Prelude.{◌≡◌};
ghost use Rattle.mrt.specs.Reader.{shown_of};
ghost use Rattle.bgp_speaker.specs.Shown.{shown_value};

use bgp_prefix::Seconds;
use mrt::Record;
use std::alloc::{Allocator, Global};

/// A record of a session.
#[derive(Drop)]
pub enum Shown<A: Allocator = Global> {
    /// A message that was received, and when.
    In(Seconds, Vec<u8, A>),
    /// A message that was sent, and when.
    Out(Seconds, Vec<u8, A>),
    /// A change of state, and when: the number of the old state, and of the new one (RFC 6396,
    /// 4.4.1).
    Change(Seconds, u16, u16),
}

impl<A: Allocator> Shown<A> {
    /// The record, which borrows its message.
    pub fn record(&self) -> Record<'_>
        ensures { shown_of result ≡ shown_value self.now }
    {
        match self {
            Shown::In(second, octets) => Record::In(*second, octets.as_slice()),
            Shown::Out(second, octets) => Record::Out(*second, octets.as_slice()),
            Shown::Change(second, old, new) => Record::Change(*second, *old, *new),
        }
    }
}
