//! How a session ended, and which AS numbers its ends have: of a connection of a recording, and of
//! a stretch of a session in a capture.
//!
//! ```text
//! let outline = outline_of(alloc, &connection)?;
//! if let Some(ended) = outline.ended {
//!     println!(rt; "packet {}: {:?}", ended.moment.packet, ended.how)?;
//! }
//! ```
#![tactic(auto)]

mod ended;
mod ended_line;
mod how_text;
mod laws;
mod notified;
mod offered;
mod opens;
mod outline;
mod same_messages;
mod stretch;

pub use bgp_check::PeerAs;
pub use bgp_why::{Endpoint, put_endpoint};
pub use ended::{Ended, How, Outline};
pub use ended_line::{put_ended, put_ended_stretch};
pub use how_text::put_how;
pub use laws::each_connection_has_one_outline;
pub use offered::{framing_by, with_both_offers};
pub use outline::outline_of;
pub use same_messages::finds_the_same;
pub use stretch::{EndedStretch, ended_in};
