//! Packets of a recording: a file of the formats pcap and pcapng, read packet by packet.
//!
//! ```text
//! let mut source = FromRead::new(file);
//! let mut reader = Reader::new(Global);
//! while let Some(packet) = reader.next_packet(&mut source)? {
//!     println!(rt; "{}: {} octets", packet.number, packet.octets.len())?;
//! }
//! ```
#![tactic(auto)]

mod blocks;
mod clock;
mod fault;
mod headers;
mod interface;
mod laws;
mod order;
mod packet;
mod progress;
mod reader;
mod reading;

pub use fault::{FaultKind, FileFault};
pub use laws::each_recording_has_one_reading;
pub use packet::Packet;
pub use reader::Reader;
