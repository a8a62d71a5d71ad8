//! The commands of the program `bgp`, each as one function over sources and sinks.
//!
//! What a command prints is stated in the specs of bgp_text, bgp_lines and bgp_json, but for a
//! verdict's text, which is stated in `specs/VerdictText.antt`; what it answers is an exit status:
//!
//! ```text
//! let options = StreamOptions { limit: Limit::Plain, form: OutputForm::Json { as2: false } };
//! let status = decode_raw(options, alloc, &mut source, &mut sink);
//! ```
#![tactic(auto)]

mod captures;
mod decoding;
mod error_words;
mod front;
mod front_note;
mod headline;
mod judging;
mod laws;
mod note;
mod nothing_found;
mod offer_note;
mod opened;
mod opened_capture;
mod pair_fault;
mod ready;
mod refreshes;
mod refusal_note;
mod seen;
mod session_options;
mod shown;
mod status;
mod stream_options;
mod verdicts;

pub use bgp_json::{begin, put_json_capture_refusal, put_json_recording_refusal, put_text};
pub use captures::{decode_capture, hand_over};
pub use decoding::decode_raw;
pub use error_words::ErrorWords;
pub use front::{Form, WithFront};
pub use headline::{each_capture_has_one_verdict, judge_capture, text_and_status};
pub use judging::{put_answer, write_answer};
pub use laws::{each_session_has_one_text, each_stream_has_one_text};
pub use note::{CaptureCommand, Note, Unmet};
pub use nothing_found::{without_packets, without_records};
pub use opened::{Outcome, decode_opened, unopened, unwritten};
pub use opened_capture::{decode_opened_capture, note_of};
pub use pair_fault::{PairEnd, PairFault};
pub use ready::Ready;
pub use refreshes::passed_over;
pub use seen::Seen;
pub use session_options::SessionOptions;
pub use status::Status;
pub use stream_options::StreamOptions;
pub use verdicts::{put_end, put_routes, put_verdict};
