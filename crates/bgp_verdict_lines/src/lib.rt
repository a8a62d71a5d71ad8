//! The lines of verdicts, of their ends with routes, and of their reasons, in either form: as text,
//! or as JSON, an object a line.
//!
//! What is put of a verdict has one text (that of bgp_tool's, bgp_import's and bgp_why's lines). As
//! text that is what is written. In JSON it is the text of the lines whose objects are written
//! (`specs/Printed.antt`), so that these can't say anything else. An object is made in memory before
//! it is put. If memory is refused for one, nothing of it is put, nor of what follows it, and the
//! exit status is 4:
//!
//! ```text
//! let mut lines = VerdictLines::new(form, alloc, sink);
//! let status = put_answer(&mut lines, &answer);
//! put_state(&mut lines, &style, told.state, since);
//! let status = lines.finish(status);
//! ```
#![tactic(auto)]

mod answers;
mod deed;
mod form;
mod notes;
mod others;
mod possible;
mod reasons;
mod received;
mod teller;
mod texts;
mod totals;
mod verdict_lines;

pub use answers::{
    put_answer, put_capture_refusal, put_no_order, put_opening, put_refusal, put_unfinished,
    put_verdict,
};
pub use deed::put_record_line;
pub use form::VerdictForm;
pub use reasons::{
    put_another_as, put_data_line, put_last_received, put_last_update, put_message_line,
    put_not_whole, put_notes, put_possible, put_possible_but, put_sent_already, put_state,
};
pub use teller::VerdictTeller;
pub use totals::{put_ignored, put_note, put_other_kinds, put_other_sessions, put_records};
pub use verdict_lines::VerdictLines;
