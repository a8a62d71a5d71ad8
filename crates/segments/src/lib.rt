//! TCP segments of packets as a recording has them: the layers below TCP are passed over, and what
//! the TCP header says is read.
//!
//! ```text
//! let conversation = Conversation { local, peer, port: 179 };
//! let found = read_segment(packet.link_type, packet.octets);
//! if let Some(segment) = segment_between(found, &conversation)? {
//!     println!(rt; "{} octets from {}", segment.octets.len(), segment.ends.from.port)?;
//! }
//! ```
#![tactic(auto)]

mod conversation;
mod fault;
mod found;
mod ip;
mod link;
mod reading;
mod tcp;
mod wrapping;

pub use conversation::{Conversation, segment_between};
pub use fault::PacketFault;
pub use found::{Addresses, Endpoint, Ends, Flags, Found, Segment};
pub use reading::read_segment;
pub use wrapping::{Wrapping, wrapping_of};
