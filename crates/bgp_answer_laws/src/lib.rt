//! Laws of the answers in what `check` prints, as a report in HTML reads them: line by line, by how
//! each line begins ([`bgp_html`]).
//!
//! Each mark that a report has of an end has its answer in the text, in the order of the marks, and
//! no other line begins an answer. So what is noted of an answer by its number are the lines of that
//! end's reason that say what could have come, or had to.
#![tactic(auto)]

mod laws;

pub use laws::{
    each_mark_has_its_answer, each_reason_says_what_may_come, notes_are_of_answers,
    told_ends_have_lines,
};
