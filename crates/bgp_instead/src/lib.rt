//! Which messages could have been sent in place of one that no order explains: the reason of a no
//! over all orders.
//!
//! ```text
//! if let Some(sendable) = sendable_instead(alloc, &config, &exchange, 10, count)? {
//!     print(sendable.keepalive); // in some order the local system could have sent a KEEPALIVE
//! }
//! ```
#![tactic(auto)]

mod asking;
mod connection;
mod laws;
mod message_at;
mod others;
mod sendable;

pub use asking::{MOST_ASKED, sendable_instead};
pub use connection::sendable_over_orders;
pub use laws::each_message_is_of_a_kind;
pub use message_at::is_message_at;
pub use others::other_orders;
pub use sendable::Sendable;
