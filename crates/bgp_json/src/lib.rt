//! The messages of a session as JSON, as `bgp decode --json` prints them: an object a line.
//!
//! What has a value ([`bgp_values`]) is put by it; the octets stand beside it if the value doesn't
//! spell them. So an object determines the octets of its message: `bgp_json_laws` has the law.
//!
//! Each line is made in memory before it is put. If memory is refused, nothing of it is put.
#![tactic(auto)]

mod faults;
mod line;
mod members;
mod message;
mod open;
mod others;
mod output_form;
mod output_teller;
mod place;
mod record;
mod teller;
mod update;

pub use faults::put_json_fault;
pub use members::{begin, put_text};
pub use message::put_json_frame;
pub use others::{
    put_json_capture_refusal, put_json_change, put_json_recording_refusal, put_json_rest,
    put_states,
};
pub use output_form::OutputForm;
pub use output_teller::{OutputTeller, put_capture_refusal};
pub use place::{Place, RecordPlace};
pub use record::put_json_message;
pub use teller::JsonTeller;
