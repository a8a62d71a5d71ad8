//! The verdict on one session of a capture (RFC 6396), and why it is a no or unfinished: what the
//! records before tell, and all that could have stood in the place of the first impossible one.
//!
//! ```text
//! let explained =
//!     explain_with::<A, CompactTracker<A>, _>(&mut reader, alloc, &config, &mut source);
//! if let Some(reason) = &explained.reason {
//!     print(reason.told.state, reason.possible);
//! }
//! ```
#![tactic(auto)]

mod capture;
mod deed;
mod details;
mod explained;
mod fractions;
mod headline;
mod kept;
mod kept_lines;
mod laws;
mod left_out;
mod moments;
mod offers;
mod opened;
mod places;
mod progress;
mod records;
mod report;
mod sending;
mod sent_line;
mod skipped;
mod so_far;
mod tally;
mod texts;
mod why;

pub use bgp_tool::Status;
pub use bgp_verdict_lines::VerdictForm;
pub use capture::explain_with;
pub use details::Details;
pub use explained::{Explained, Impossible, Reason, Totals};
pub use fractions::{Fractions, NumberedRecord};
pub use headline::{explain_capture, explained_as_judged};
pub use kept::KeptRecord;
pub use kept_lines::KeptLines;
pub use laws::{
    a_no_at_a_message_tells_what_is_owed, a_no_names_what_lacks, each_reason_has_one_text,
    each_verdict_is_explained_in_one_way, the_last_message_is_told, what_could_have_stood_is_told,
};
pub use left_out::LeftOut;
pub use moments::{Moments, SentNotification, first_second};
pub use opened::{JudgedCapture, judge_opened};
pub use places::{Places, entry_place};
pub use records::{
    ExplainedRecords, explain_records, keep_lines_of, put_deed_of, put_explained_records,
};
pub use report::Report;
pub use skipped::Skipped;
pub use tally::Tally;
pub use texts::{put_explained, put_reason};
// Who puts a reason needs no other crate for that.
pub use bgp_verdict_lines::VerdictLines;
