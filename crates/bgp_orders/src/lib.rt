//! Orders: what all orders say together in which the local system may have handled the messages
//! that packets show.
//!
//! Packets show in which order octets passed, and not when the local system read them. A *way* is a
//! state in which the session may have begun and an order that the packets allow; it settles the
//! session's records. A sent message is *explained* if the records of some way, up to and with that
//! message, begin a run of the session machine. So a message that isn't explained contradicts every
//! order that the packets allow, and not only the one that
//! [`make_records`](bgp_recording::make_records) makes.
//!
//! Ways are many. But a walk through the messages stands, at each moment, at a *node*: how many
//! messages of each direction are behind it, and a [member](bgp_judge::PlainMember) of the judge,
//! whose routes decide nothing. There are few nodes, and whatever a way explains, a node is reached
//! for it.
//!
//! ```text
//! match explained_count(alloc, &config, &exchange, 10)? {
//!     Explained::Only(count) => print(exchange.sent[count].packet), // no order explains it
//!     Explained::All { is_whole } => print(is_whole),
//!     Explained::TooMany => print("too many nodes"),
//! }
//! ```
#![tactic(auto)]

mod connection;
mod counting;
mod course;
mod explained;
mod laws;
mod leading;
mod node;
mod search;
mod sent_place;
mod tracing;
mod whole;

pub use connection::{OverOrders, Unexplained, no_order_explains_a_no, verdict_over_orders};
pub use counting::{MOST_NODES, explained_count};
pub use explained::Explained;
pub use laws::{
    explained_messages_are_reached, one_verdict_over_all_ways, orders_are_walks,
    patience_keeps_verdicts, ways_begin_with_their_fronts, whole_ways_are_reached,
};
pub use sent_place::{SentPlace, place_of_sent};
pub use whole::{entries_of_whole_way, record_whole_way, runs_of_entries_are_whole};
