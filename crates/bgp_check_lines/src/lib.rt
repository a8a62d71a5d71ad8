//! The lines of `bgp check` in either form: as text, or as JSON, an object a line.
//!
//! What is put has one text, that of bgp_check_text's and bgp_list's lines and of the lines that the
//! tools put. As text that is what is written. In JSON it is the text of the lines whose objects
//! are written (`specs/Values.antt`), so that these can't say anything else. An object is made in
//! memory before it is put. If memory is refused for one, nothing of it is put, nor of what follows
//! it, and the exit status is 4:
//!
//! ```text
//! let mut lines = CheckLines::new(form, alloc, sink);
//! put_connection(&mut lines, &session, opening, &outline, first, second);
//! put_no(&mut lines, &place, &name, deed);
//! put_last(&mut lines, &tally, quiet);
//! let status = lines.finish(tally.status());
//! ```
#![tactic(auto)]

mod check_lines;
mod listed;
mod notes;
mod reason;
mod teller;
mod totals;
mod verdicts;

// The form is that of the lines of a verdict.
pub use bgp_check_text::{
    Asked, EndName, EndedStretch, JudgeOptions, NumberedRecord, Places, Printing, Reached, Reason,
    Settings, Tally, VerdictForm, are_framed_alike, asked_of, capture_options, ended_in,
    entry_place, is_left_out, is_no_yes, judge_options, reached_by, reason_of, reason_under,
    sent_as_number, sent_deed, sent_form, told_configuration,
};
pub use bgp_json_check::{fault_status, first_second};
pub use check_lines::CheckLines;
pub use listed::{
    put_connection, put_fault, put_refused, put_refused_between, put_refused_connection,
    put_session,
};
pub use notes::{
    put_all_orders, put_another_order, put_ended, put_in_made_order, put_late, put_one_order,
    put_open, put_passed_over, put_repeat, put_unshown,
};
pub use reason::put_reason;
pub use teller::LineTeller;
pub use totals::{put_cut_short, put_last, put_no_record, put_nothing_at};
pub use verdicts::{put_no, put_not_judged, put_unfinished, put_unnamed, put_yes};
