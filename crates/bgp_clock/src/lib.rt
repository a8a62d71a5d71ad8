//! The text of a second since 1970, in UTC: `2026-11-22 06:38:45.133606`, or without the date. It
//! takes no memory.
//!
//! The calendar is that of the toolchain's `httpdate`; a law says that the text, read back by that
//! calendar, is the second. A text is put into [`Lines`](bgp_text::Lines):
//!
//! ```text
//! put_when(&mut lines, 1795329525, Some(133606)); // `2026-11-22 06:38:45.133606`
//! put_short(&mut lines, first, second, None); // `06:38:45`, if both lie on one day
//! ```
#![tactic(auto)]

mod civil;
mod laws;
mod texts;

pub use laws::{each_second_has_its_date, each_second_reads_back};
pub use texts::{put_clock, put_short, put_when};
