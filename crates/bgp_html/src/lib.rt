//! Text in HTML: whatever is written through here is shown as it is, and is no markup.
//!
//! ```text
//! let mut escaping = Escaping::new(&mut lines);
//! let mut text = Lines::new(&mut escaping);
//! put_verdict(&mut text, verdict);
//! ```
#![tactic(auto)]

mod escaped;
mod escaping;
mod head;
mod laws;
mod notes;
mod page;
mod printed;
mod report;
mod tag;

pub use escaped::put_escaped;
pub use escaping::Escaping;
pub use laws::{
    escaped_text_is_no_markup, escaped_text_is_that_text_alone, lines_are_printed,
    lines_stand_together, notes_are_lines, reports_say_the_same, words_are_no_tags, words_are_seen,
};
pub use notes::Notes;
pub use printed::{Element, Kind};
pub use report::Report;
pub use tag::{Column, Mark, Tag, What, put_tag};
