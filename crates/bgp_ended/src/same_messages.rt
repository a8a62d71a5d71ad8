//! Whether other rules of framing find the same messages in a stream.

ghost use Rattle.std.specs.Prelude.{◌≡◌, ◌↔◌, ◌≤◌, IsTrue, Option as Maybe, length};
ghost use Rattle.streams.specs.declared.connection.End.{End as Closed};
ghost use Rattle.streams.specs.declared.connection.Stream.{Stream as Streamed};
ghost use Rattle.bgp_recording.specs.Gathered.{IsHeard, IsSaid};
ghost use Rattle.bgp_ended.specs.SameMessages.{AreShort, FindsTheSame, HasNoHeader};
ghost use Rattle.bgp_ended.specs.SameMessages.{IsSameLimit, IsSameRefresh};

use bgp_recording::{Framed, Framing, Message, Rest, Unshown};
use bgp_wire::{HEADER_LEN, Limit};
use std::alloc::Allocator;

/// The most octets of a message that nobody offered to extend (RFC 4271, 4.1).
const LONGEST_PLAIN: usize = 4096;

/// Returns whether a message isn't longer than one that nobody offered to extend.
fn is_short(message: &Message<'_>) -> bool
    ensures { IsTrue result ↔ (length message.now.octets.now ≤ 4096) }
{
    message.octets.len() <= LONGEST_PLAIN
}

/// Returns whether none of the messages is.
fn are_short(messages: &[Message<'_>]) -> bool
    ensures { IsTrue result ↔ AreShort messages.now }
{
    for message in messages {
        if !is_short(message) {
            return false;
        }
    }
    true
}

/// Returns whether two rules of framing are the same.
fn are_same(old: Framing, new: Framing) -> bool
    ensures { IsTrue result ↔ (new ≡ old) }
{
    old.limit == new.limit && old.skips_refresh == new.skips_refresh
}

/// Returns whether no header stands in what is left, but one that is at fault.
fn has_no_header(rest: Rest) -> bool
    ensures { IsTrue result ↔ HasNoHeader rest }
{
    match rest {
        Rest::Short { count } => count < HEADER_LEN,
        Rest::BehindFault { .. } => true,
    }
}

/// Returns whether the new limit is the old one; or it is the lesser one, and the messages are
/// short.
fn is_same_limit(are_short: bool, old: Framing, new: Framing) -> bool
    ensures { IsTrue result → IsSameLimit (IsTrue are_short) old new }
{
    match (old.limit, new.limit) {
        (Limit::Plain, Limit::Plain) | (Limit::Extended, Limit::Extended) => true,
        (Limit::Extended, Limit::Plain) => are_short,
        (Limit::Plain, Limit::Extended) => false,
    }
}

/// Returns whether the new rules pass over ROUTE-REFRESHes (RFC 2918) as the old ones do; or over
/// none, and none was passed over.
fn is_same_refresh(old: Framing, new: Framing, unshown: Unshown) -> bool
    ensures { IsTrue result → IsSameRefresh old new unshown }
{
    if new.skips_refresh {
        return old.skips_refresh;
    }
    !old.skips_refresh || unshown.passed_over == 0
}

/// Returns whether the new rules find the same messages in a stream as the old ones, as far as that
/// can be said without framing it again. Whether those that the old ones find are short is known
/// (4,096 octets at most), and what of the stream is in none.
pub fn finds_the_same(are_short: bool, old: Framing, new: Framing, unshown: Unshown) -> bool
    ensures { IsTrue result → FindsTheSame (IsTrue are_short) old new unshown }
{
    if are_same(old, new) {
        return true;
    }
    is_same_limit(are_short, old, new)
        && is_same_refresh(old, new, unshown)
        && has_no_header(unshown.rest)
}

/// Returns whether the new rules find the same messages in the stream in which the old ones found
/// these.
pub(crate) fn finds_the_same_in<A: Allocator>(
    known: &Framed<'_, A>,
    old: Framing,
    new: Framing,
) -> bool
    ensures heard { IsTrue result → (stream : Streamed)
        → IsHeard old stream known.now.messages.items known.now.unshown
        → IsHeard new stream known.now.messages.items known.now.unshown }
    ensures said { IsTrue result → (stream : Streamed) (end : Maybe Closed)
        → IsSaid old stream end known.now.messages.items known.now.unshown
        → IsSaid new stream end known.now.messages.items known.now.unshown }
{
    finds_the_same(are_short(&known.messages), old, new, known.unshown)
}
