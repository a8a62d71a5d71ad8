//! A BGP session as packets show it: its messages in an order in which the local system may have
//! handled them.
//!
//! Packets tell in which order octets passed, and not when the local system read them: what came
//! may have waited. So a capture of the session, which is in the order of processing, has to be
//! made: received messages are put off as far as the patience allows, where an answer of the local
//! system shows that it hadn't read them before.
//!
//! ```text
//! let made = make_records(alloc, &connection, Framings::of_session(&session), 10)?;
//! for entry in &made.entries {
//!     println!(rt; "packet {}: {:?}", entry.packet, entry.record)?;
//! }
//! ```
#![tactic(auto)]

mod entry;
mod framing;
mod givers;
mod laws;
mod making;
mod message;
mod ordering;
mod pending;
mod putting;
mod standing;
mod state;
mod waiting;

pub use entry::Entry;
pub use framing::{Framed, Framing, Framings, Rest, Unshown};
pub use laws::{
    connections_are_recorded_once, made_records_are_read, made_records_are_the_streams,
};
pub use making::{FramedConnection, Recording, frame_connection, make_records};
pub use message::Message;
pub use ordering::{Exchange, made_entries};
pub use pending::{Moment, Pending, Place};
pub use standing::Before;
pub use state::State;
