//! The verdict over all orders on a connection of a recording.

ghost use Rattle.std.specs.Prelude.{ℕ, IfOk};
ghost use Rattle.bgp_open.specs.declared.config.Config.{Config as TheConfig};
ghost use Rattle.bgp_recording.specs.Gathered.{IsClocked, IsCovered};
ghost use Rattle.bgp_orders.specs.Connections.{HoldsOver, IsOverOrders, NoOrderExplains};
ghost use Rattle.bgp_orders.specs.Rows.{IsAnswer};

use crate::counting::explained_count;
use crate::explained::Explained;
use bgp_open::Config;
use bgp_recording::{Exchange, Framings, frame_connection};
use std::alloc::{AllocError, Allocator};
use streams::Connection;

/// The first sent message that no way explains.
#[derive(Clone, Copy, Debug, PartialEq, Eq)]
pub struct Unexplained {
    /// How many sent messages come before it.
    pub before: usize,
    /// The first packet that shows that it had been made, counted from 1.
    pub packet: u64,
}

/// The verdict over all orders of a connection's messages that the packets allow.
#[derive(Clone, Copy, Debug, PartialEq, Eq)]
pub enum OverOrders {
    /// Some run shows just the records of some way.
    Yes,
    /// No way explains this sent message and all before it. Some way explains those before it.
    No(Unexplained),
    /// Some way explains every sent message, and no run shows just the records of a way.
    Unfinished,
    /// There are too many nodes, so it isn't known.
    TooMany,
}

/// Returns the verdict, with the packet of the first message that isn't explained.
fn with_packet(exchange: &Exchange<'_, '_>, explained: Explained) -> OverOrders
    ensures { (config : TheConfig) (within : ℕ) → IsAnswer config within exchange.now explained
        → HoldsOver config within exchange.now result }
{
    match explained {
        Explained::All { is_whole: true } => OverOrders::Yes,
        Explained::All { is_whole: false } => OverOrders::Unfinished,
        Explained::Only(before) => match exchange.sent.get(before) {
            Some(message) => OverOrders::No(Unexplained {
                before,
                packet: message.packet,
            }),
            None => OverOrders::TooMany,
        },
        Explained::TooMany => OverOrders::TooMany,
    }
}

/// Returns the verdict over all orders of a connection's messages that the packets allow, if each
/// received message is handled within so many seconds after it came. The messages of either
/// direction are framed by its rules. A no says that no order has a run of the session machine that
/// explains this sent message and all before it.
///
/// Takes the time and memory of [`explained_count`]. Returns `AllocError` if memory is refused.
pub fn verdict_over_orders<A: Allocator + Copy>(
    alloc: A,
    config: &Config,
    connection: &Connection<'_>,
    framings: Framings,
    within: u16,
) -> Result<OverOrders, AllocError>
    requires received { IsCovered connection.now.received }
    requires sent { IsCovered connection.now.sent }
    ensures { IfOk result (λ over. IsClocked connection.now
        → IsOverOrders config.now within framings connection.now over) }
{
    let framed = frame_connection(alloc, connection, framings)?;
    let exchange = framed.exchange(connection);
    let explained = explained_count(alloc, config, &exchange, within)?;
    Ok(with_packet(&exchange, explained))
}

/// States what a no over all orders says: no way, whichever state the session begins in, has
/// records, up to and with that message or any further, that begin a run under this configuration.
pub fn no_order_explains_a_no()
    ensures { NoOrderExplains }
{}
