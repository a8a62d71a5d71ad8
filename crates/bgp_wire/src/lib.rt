//! Octets of a BGP connection as frames (RFC 4271, 4.1 and 6.1).
//!
//! A frame is the octets of one message, its header checked and not yet read:
//!
//! ```text
//! let mut frames = Frames::new(alloc, Limit::Plain);
//! frames.feed(piece)?;
//! match frames.next() {
//!     Next::Frame(kind, octets) => ..,
//!     Next::More => ..,
//!     Next::Fault(faults, header) => ..,
//! }
//! ```
#![tactic(auto)]

mod as_number;
mod error_code;
mod frames;
mod header;
mod laws;
mod message;
mod named_fault;
mod octets;
pub mod vectors;

pub use as_number::{AS_TRANS, needs_four_octets, two_octet_as};
pub use error_code::ErrorCode;
pub use frames::{Frames, Next, is_frame};
pub use header::{
    HEADER_LEN, HeaderFaults, HeaderVerdict, Limit, MessageType, check_header, header_at,
    put_header, read_type,
};
pub use laws::{
    each_header_has_one_set_of_faults, each_message_is_its_header_and_body,
    each_stream_has_one_framing, whole_messages_are_frames,
};
pub use message::{message_body, put_keepalive};
pub use named_fault::NamedFault;
pub use octets::{put, put_u8, put_u16, put_u32, put_u64};
