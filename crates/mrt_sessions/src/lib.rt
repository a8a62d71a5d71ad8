//! Captures of any number of sessions (RFC 6396): a file is held whole, and read once for all of
//! its sessions.
//!
//! ```text
//! let held = hold(alloc, source);
//! let file = records_in(alloc, &held.octets)?;
//! let sessions = Sessions::of(alloc, &file.records)?;
//! for addresses in sessions.in_order() {
//!     let Some(records) = sessions.records(*addresses) else { continue };
//!     let read = read_session(alloc, *addresses, extended, records)?;
//! }
//! ```
#![tactic(auto)]

mod addresses;
mod alike;
mod counts;
mod file;
mod front;
mod holding;
mod laws;
mod lengths;
mod named;
mod reading;
mod sessions;
mod taking;

pub use addresses::Addresses;
pub use alike::{reads_as, show_the_same};
pub use counts::{Counts, Direction};
pub use file::{FileRecords, records_in};
pub use holding::{Ending, Held, hold};
pub use laws::{reads_are_spelled, sessions_are_captures, the_same_addresses_are_equal};
pub use lengths::ExtendedMessages;
pub use named::NamedRecord;
pub use reading::{SessionRecords, read_session};
pub use sessions::Sessions;
