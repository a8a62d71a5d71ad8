//! The words of a ladder that name a connection and its ends. They are made by themselves: for
//! `Lines` a buffer is cleared that is far greater, and a file may have thousands of ladders.

ghost use Rattle.std.specs.Prelude.{◌≡◌, IfOk};
ghost use Rattle.std.specs.String.{string_bytes};
ghost use Rattle.bgp_why.specs.Endpoint.{with_port};
ghost use Rattle.bgp_import.specs.ListText.{other_side};
ghost use Rattle.bgp_report.specs.Ladders.{order_words, side_words, summary_words};

use bgp_check_tool::Order;
use bgp_import::{end_of, other_side};
use bgp_prefix::{Address, Session};
use std::alloc::{AllocError, Allocator};
use streams::{Opening, Side};

/// The words of a ladder.
#[derive(Drop)]
pub(crate) struct Names<A: Allocator> {
    /// Which connection it is, and which end.
    pub(crate) summary: Vec<u8, A>,
    /// The end that opened the connection.
    pub(crate) left: Vec<u8, A>,
    /// The other one.
    pub(crate) right: Vec<u8, A>,
}

/// Returns in which order records stand.
pub(crate) fn order_words(order: Order) -> &'static [u8]
    ensures { result.now ≡ order_words order }
{
    match order {
        Order::Made => b"in the order of bgp import",
        Order::Another => b"in the order of bgp import; the yes is about another order",
        Order::All => b"in the order of bgp import; the answer is about all orders",
    }
}

/// Returns an address with a port.
pub(crate) fn port_words<A: Allocator>(
    alloc: A,
    address: Address,
    port: u16,
) -> Result<String<A>, AllocError>
    ensures { IfOk result (λ text. string_bytes text ≡ with_port address port) }
{
    match address {
        Address::V4(_) => format!(in alloc; "{address}:{port}"),
        Address::V6(_) => format!(in alloc; "[{address}]:{port}"),
    }
}

/// Returns the end on this side.
fn side_of<A: Allocator>(
    alloc: A,
    session: &Session,
    opening: Opening,
    side: Side,
) -> Result<String<A>, AllocError>
    ensures { IfOk result (λ text. string_bytes text ≡ side_words session.now opening side) }
{
    let end = end_of(side, session, opening);
    port_words(alloc, end.address, end.port)
}

/// Returns the words of the ladder of the end on this side.
pub(crate) fn names_of<A: Allocator + Copy>(
    alloc: A,
    session: &Session,
    opening: Opening,
    side: Side,
) -> Result<Names<A>, AllocError>
    ensures summary { IfOk result (λ names. names.summary.items
        ≡ summary_words session.now opening side) }
    ensures left { IfOk result (λ names. names.left.items
        ≡ side_words session.now opening opening.opened_by) }
    ensures right { IfOk result (λ names. names.right.items
        ≡ side_words session.now opening (other_side opening.opened_by)) }
{
    let number = opening.number;
    let left = side_of(alloc, session, opening, opening.opened_by)?;
    let right = side_of(alloc, session, opening, other_side(opening.opened_by))?;
    let end = side_of(alloc, session, opening, side)?;
    let summary = format!(in alloc; "connection {number}, {left} to {right}: records of {end}")?;
    Ok(Names {
        summary: summary.into_bytes(),
        left: left.into_bytes(),
        right: right.into_bytes(),
    })
}
