//! UPDATE messages as they are written (RFC 4271, 4.3; RFC 4760, 3 and 4; RFC 7606, 5.1): one
//! message for prefixes of one family, and only such as the peer takes as they are meant.
//!
//! ```text
//! let update = Update::Announce { family, prefixes: &prefixes, path: &path };
//! match write_update(&link, &update, &mut out) {
//!     Ok(()) => send(&out),
//!     Err(UpdateFault::TooLarge) => halve(&prefixes),
//!     Err(fault) => return Err(fault),
//! }
//! ```
#![tactic(auto)]

mod laws;
mod lengths;
mod update;
mod writing;

pub use laws::{one_prefix_can_be_written, written_updates_are_applied};
pub use update::{Update, UpdateFault, write_update};
