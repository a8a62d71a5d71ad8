//! The commands of the program `bgp` over recordings of packets, each as one function over sources
//! and sinks, or over a file that is a recording or a capture.
//!
//! A recording is a file of packets; a capture is the MRT records of one session (RFC 6396). What
//! is judged or decoded of a recording are the records that `bgp_import` makes of a connection. The
//! reason of a verdict is that of `bgp_explain`, and says besides which packet shows the record
//! that can't be, and by which packet the last message came:
//!
//! ```text
//! let report = Report::WithReason;
//! let judged = judge_recording::<_, CompactTracker<_>, _, _>(
//!     alloc, &config, report, &options, source, sink,
//! );
//! for remark in judged.remarks.iter() {
//!     eprintln!(rt; "bgp: {remark}")?;
//! }
//! ```
#![tactic(auto)]

mod connection;
mod decoding;
mod files;
mod headline;
mod judging;
mod laws;
mod options;
mod orders;
mod peeked;
mod remark;
mod remarking;

pub use decoding::decode_recording;
pub use files::{FileOutcome, decode_file, judge_file};
pub use headline::{
    a_no_at_a_packet_is_by_no_order, a_no_at_a_record_is_as_made, a_no_is_told, each_end_is_shown,
    import_and_judge_agree, judge_recording, what_is_printed_is_over_all_orders,
    what_is_unfinished_is_so,
};
pub use judging::{Judged, status_of};
pub use laws::{
    each_record_has_one_plain_line, each_recording_is_explained_in_one_way,
    made_records_could_have_stood, others_could_have_been_sent, recordings_are_explained_as_judged,
};
pub use options::import_of;
pub use peeked::Peeked;
pub use remark::{Remark, RemarkKind};
