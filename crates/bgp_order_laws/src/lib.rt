//! Laws of what `judge` and `check` print of a connection in a recording, and of all orders of its
//! messages that the packets allow ([`bgp_orders`]). A printed yes lists every end; and of `judge`,
//! two prints say one thing, and more patience keeps a printed yes. Packets don't tell when the local
//! system read a message. So these laws say that what is printed doesn't rest on the order that was
//! made, nor on memory.
//!
//! ```text
//! a_printed_yes_lists_every_end();
//! // The `end` lines behind `yes` are all ends that the session can have, in any allowed order.
//! ```
#![tactic(auto)]

mod laws;

pub use laws::{
    a_checked_yes_lists_every_end, a_printed_verdict_is_the_only_one,
    a_printed_yes_lists_every_end, more_patience_keeps_a_printed_yes,
};
