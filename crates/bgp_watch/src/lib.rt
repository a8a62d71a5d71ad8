//! The longest front of a session's records that has an end in Established, found while they are
//! judged: so it is known what stood before the session left that state, and no record is judged
//! once more.
//!
//! ```text
//! let watched = watch_records::<A, T>(alloc, &config, records)?;
//! if let Some(front) = watched.before {
//!     print(front.ends); // after `front.count` records
//! }
//! ```
#![tactic(auto)]

mod front;
mod telling;
mod watching;

pub use front::Front;
pub use telling::last_told;
pub use watching::{Watched, watch_records};
