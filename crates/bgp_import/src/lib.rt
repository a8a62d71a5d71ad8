//! Recordings of packets, over any source: the connections that they hold, and captures of BGP
//! sessions that are made of them, into any sink.
//!
//! A recording is a file of packets; a capture is the MRT records of one session, in the order in
//! which its local system may have handled the messages. `import_recording` makes the one of the
//! other. What a command line says of a recording, besides its session, are `RecordingOptions`.
//!
//! ```text
//! match import_recording(alloc, &import, &mut source, &mut sink).ended {
//!     Ok(notes) => notes.in_order().into_iter().flatten().for_each(print),
//!     Err(Stopped::Refused(refusal)) => print(refusal), // nothing is written
//!     Err(Stopped::Unwritten) => print("the sink failed"),
//! }
//! ```
//!
//! `listed_in` lists the connections between any two addresses, and the addresses whose packets
//! can't be read.
//!
//! ```text
//! let mut reader = Reader::new(alloc);
//! let mut talks = Talks::new(alloc, 179);
//! let stopped = take_all(&mut reader, &mut talks, source).err();
//! for (packet, listed) in &listed_in(alloc, &talks)? {
//!     match listed {
//!         Listed::Connection(addresses, talk, opening) => tell(addresses, talk, opening),
//!         Listed::Refused(addresses, fault) => refuse(addresses, fault, packet),
//!     }
//! }
//! ```
#![tactic(auto)]

mod capture;
mod connection_laws;
mod cut_short;
mod gathering;
mod help;
mod importing;
mod laws;
mod listed;
mod listing;
mod note;
mod octets;
mod options;
mod pairs;
mod refresh;
mod refusal;
mod selection;
mod sender;
mod talk;
mod talks;
mod wrapped;

pub use capture::{notes_on, write_capture};
pub use connection_laws::each_stands_at_a_packet_of_its_own;
pub use cut_short::CutShort;
pub use gathering::{Gathered, gather, refused};
pub use help::Help;
pub use importing::{Import, Imported, Stopped, import_recording, records_of};
pub use laws::{recordings_are_answered_once, recordings_are_made_once};
pub use listed::{Listed, listed_in};
pub use listing::{end_of, other_side, put_counts, put_end, put_opening, put_refusal, put_refused};
pub use note::{Note, Notes};
pub use octets::octets_from;
pub use options::RecordingOptions;
pub use pairs::selection_of;
pub use refresh::refresh_in;
pub use refusal::{Cause, Refusal};
pub use selection::{Selection, passed};
pub use sender::as_number;
pub use talk::Talk;
pub use talks::{Talks, cut_short_at, take_all};
pub use wrapped::{NotLookedInto, Wrapped};
