//! TCP connections of a recording: the octets of both directions, with the packets that gave them
//! (RFC 9293).
//!
//! The two systems are called local and peer. Their segments are taken one after another, in the
//! order of the recording; what is left then is the connections between both, each with two streams
//! or with the reason why its segments spell none:
//!
//! ```text
//! let mut connections = Connections::new(alloc);
//! for .. {
//!     connections.take(&Passed { packet, second, micro, from: Side::Peer, .. })?;
//! }
//! let connection = connections.choose(None, last_packet)?;
//! for run in connection.received.runs {
//!     println!(rt; "packet {} gave {} octets", run.packet, run.count)?;
//! }
//! ```
#![tactic(auto)]

mod connection;
mod connections;
mod direction;
mod fault;
mod gathered;
mod gathering;
mod laws;
mod passed;
mod placing;
mod stretch;

pub use connection::{Closing, Connection, End, Opening, Run, Stream};
pub use connections::Connections;
pub use fault::Fault;
pub use laws::{
    answered_connections_are_clocked, answered_connections_are_whole, answered_streams_are_spelled,
    conflicts_are_the_first, missing_octets_are_the_first, places_are_unique,
    segments_spell_at_most_one_stream,
};
pub use passed::{Passed, Side};
