//! The text of what `bgp` prints, written piece by piece to a sink: messages, records of a capture,
//! addresses, prefixes and routes. It takes no memory.
//!
//! What each text is, is stated in `specs/Text.antt`, `specs/RouteText.antt` and
//! `specs/Capture.antt`. A text is put into [`Lines`] and then handed over:
//!
//! ```text
//! let mut lines = Lines::new(&mut sink);
//! put_message(&mut lines, kind, frame);
//! lines.hand_over()
//! ```
#![tactic(auto)]

mod addresses;
mod lines;
mod messages;
mod outlet;
mod records;
mod room;
mod routes;
mod updates;
mod writing;

pub use addresses::{put_address, put_prefix};
pub use bgp_update::{Destination, Destinations, Families, Parts, read_parts};
pub use lines::Lines;
pub use messages::{put_fault, put_message, put_rest};
pub use mrt::Sink;
pub use records::{put_record, put_record_text, put_refused};
pub use routes::{put_next_hop, put_route, write_route};
pub use updates::put_destination;
