//! A record that is kept, with a message of its own.

ghost use Rattle.std.specs.Prelude.{◌≡◌, IfOk};
ghost use Rattle.mrt.specs.Reader.{shown_of};
ghost use Rattle.bgp_explain.specs.Kept.{shown_by};

use bgp_prefix::Seconds;
use mrt::Record;
use std::alloc::{AllocError, Allocator, Global};

/// A record of a session that is kept. Its message is a copy of its own.
#[derive(Drop)]
pub enum KeptRecord<A: Allocator = Global> {
    /// A message that the local system received: the second, and all its octets.
    In(Seconds, Vec<u8, A>),
    /// A message that the local system sent.
    Out(Seconds, Vec<u8, A>),
    /// A change of the local system's state: the second, the old state and the new one, by the
    /// numbers of RFC 6396, 4.4.1.
    Change(Seconds, u16, u16),
}

/// A copy of octets.
fn copy_of<A: Allocator + Copy>(alloc: A, octets: &[u8]) -> Result<Vec<u8, A>, AllocError>
    ensures { IfOk result (λ copy. copy.items ≡ octets.now) }
{
    let mut copy = Vec::new(alloc);
    copy.extend_from_slice(octets)?;
    Ok(copy)
}

impl<A: Allocator + Copy> KeptRecord<A> {
    /// A copy of a record.
    pub(crate) fn copy_of(alloc: A, shown: &Record<'_>) -> Result<KeptRecord<A>, AllocError>
        ensures { IfOk result (λ kept. shown_by kept ≡ shown_of shown.now) }
    {
        Ok(match *shown {
            Record::In(second, octets) => KeptRecord::In(second, copy_of(alloc, octets)?),
            Record::Out(second, octets) => KeptRecord::Out(second, copy_of(alloc, octets)?),
            Record::Change(second, old, new) => KeptRecord::Change(second, old, new),
        })
    }

    /// The record, which borrows its message.
    pub fn as_record(&self) -> Record<'_>
        ensures { shown_of result ≡ shown_by self.now }
    {
        match self {
            KeptRecord::In(second, octets) => Record::In(*second, octets.as_slice()),
            KeptRecord::Out(second, octets) => Record::Out(*second, octets.as_slice()),
            KeptRecord::Change(second, old, new) => Record::Change(*second, *old, *new),
        }
    }
}
