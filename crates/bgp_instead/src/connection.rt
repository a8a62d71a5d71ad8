//! What could have been sent on a connection of a recording.

ghost use Rattle.std.specs.Prelude.{IfOk, IfSome};
ghost use Rattle.bgp_recording.specs.Gathered.{IsClocked, IsCovered};
ghost use Rattle.bgp_instead.specs.Connections.{AreSendableOver};

use crate::asking::sendable_instead;
use crate::sendable::Sendable;
use bgp_open::Config;
use bgp_recording::{Framings, frame_connection};
use std::alloc::{AllocError, Allocator};
use streams::Connection;

/// Returns which messages could have been sent in place of the sent message behind so many, of a
/// connection: of the first one that no order explains, if it is asked with
/// [`Unexplained::before`](bgp_orders::Unexplained::before). The messages of either direction are
/// framed by its rules.
///
/// Takes the time and memory of [`sendable_instead`], and returns `None` if that does. Returns
/// `AllocError` if memory is refused.
pub fn sendable_over_orders<A: Allocator + Copy>(
    alloc: A,
    config: &Config,
    connection: &Connection<'_>,
    framings: Framings,
    within: u16,
    before: usize,
) -> Result<Option<Sendable>, AllocError>
    requires received { IsCovered connection.now.received }
    requires sent { IsCovered connection.now.sent }
    ensures { IfOk result (λ found. IfSome found (λ sendable. IsClocked connection.now
        → AreSendableOver config.now within framings connection.now before sendable)) }
{
    let framed = frame_connection(alloc, connection, framings)?;
    let exchange = framed.exchange(connection);
    sendable_instead(alloc, config, &exchange, within, before)
}
