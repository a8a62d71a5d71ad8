//! Whether other rules of framing find the same messages in a connection.

ghost use Rattle.std.specs.Prelude.{◌↔◌, IsTrue, ℕ};
ghost use Rattle.mrt.specs.Reader.{shown_of};
ghost use Rattle.bgp_recording.specs.Captured.{records_of};
ghost use Rattle.bgp_recording.specs.Recorded.{IsRecordedInOrder};
ghost use Rattle.bgp_check_text.specs.FramedAlike.{ArePlain, IsPlainRecord};
ghost use Rattle.streams.specs.declared.connection.Connection.{Connection as Connected};

use crate::laws::records_are_framed_alike;
use bgp_ended::finds_the_same;
use bgp_recording::{Entry, Framings, Recording};
use mrt::Record;
use std::alloc::Allocator;

/// The most octets of a message that nobody offered to extend (RFC 4271, 4.1).
const LONGEST_PLAIN: usize = 4096;

/// Whether a record shows no longer message than nobody offered to extend.
fn is_plain(one: &Record<'_>) -> bool
    ensures { IsTrue result ↔ IsPlainRecord (shown_of one.now) }
{
    match one {
        Record::In(_, octets) | Record::Out(_, octets) => octets.len() <= LONGEST_PLAIN,
        Record::Change(..) => true,
    }
}

/// Whether none of them does.
fn are_plain(entries: &[Entry<'_>]) -> bool
    ensures { IsTrue result ↔ ArePlain (records_of entries.now) }
{
    for one in entries {
        if !is_plain(&one.record) {
            return false;
        }
    }
    true
}

/// Whether the records that were made of a connection by the old rules of framing are those by the
/// new ones, too, as far as that can be said without framing it again: the rules are the same; or
/// they differ only in lengths and messages that don't occur, and no whole header stands in what is
/// left of a stream.
pub fn are_framed_alike<A: Allocator>(made: &Recording<'_, A>, old: Framings, new: Framings) -> bool
    ensures { IsTrue result → (within : ℕ) (connection : Connected)
        → IsRecordedInOrder old within connection made.now.entries.items made.now.received
        made.now.sent
        → IsRecordedInOrder new within connection made.now.entries.items made.now.received
        made.now.sent }
{
    records_are_framed_alike();
    let are_short = are_plain(made.entries.as_slice());
    finds_the_same(are_short, old.received, new.received, made.received)
        && finds_the_same(are_short, old.sent, new.sent, made.sent)
}
