//! What a file holds, line by line: `bgp list` of a recording of packets, and of a capture of MRT
//! records.
//!
//! ```text
//! let listed = list_recording(alloc, 179, ListForm::Text, &mut source, &mut sink);
//! for refusal in listed.refusals.iter().flatten() {
//!     help_against(refusal);
//! }
//! std::process::exit(listed.status);
//! ```
#![tactic(auto)]

mod capture;
mod cause;
mod connection;
mod connection_json;
mod ended_json;
mod firsts;
mod form;
mod json_text;
mod laws;
mod line;
mod listed;
mod members;
mod recording;
mod refusal_json;
mod session;
mod session_json;

pub use bgp_ended::{How, PeerAs};
pub use capture::{ListedCapture, fault_status, list_capture, put_fault};
pub use connection::{
    endpoint_of, put_connection, put_refused, put_refused_between, put_refused_connection,
};
pub use ended_json::put_how_members;
pub use firsts::{NUMBERS, add_first};
pub use form::ListForm;
pub use laws::each_of_them_is_listed;
pub use line::Line;
pub use listed::{ListedRecording, NothingListed};
pub use members::{put_as_number, put_end_members, put_pair};
pub use recording::list_recording;
pub use refusal_json::{put_fault_json, put_refused_json};
pub use session::{first_second, put_session};
pub use session_json::write_session;
