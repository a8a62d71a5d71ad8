//! The objects of verdicts, of their ends with routes, and of the lines of their reasons in JSON.
//!
//! Each line has a text (`specs/Lines.antt`), which is printed without `--json`, and an object
//! (`specs/Objects.antt`), both of the same values. [`Telling`] puts the objects one after another,
//! and counts verdicts and their ends. Each is made in memory before it is put. If memory is
//! refused for one, nothing of it is put, nor of what follows it:
//!
//! ```text
//! let mut telling = Telling::new();
//! telling.put_verdict(&mut lines, alloc, &verdict);
//! let line = VerdictLine::Reason(ReasonLine::State(state, since));
//! telling.put(&mut lines, alloc, &line);
//! let status = telling.status(status);
//! ```
#![tactic(auto)]

mod answer;
mod at;
mod object;
mod opening;
mod reason;
mod reason_line;
mod route;
mod telling;
mod verdict_line;

pub use answer::Answer;
pub use at::{At, put_number_if, put_place};
pub use bgp_tool::{Status, hand_over, put_verdict};
pub use object::{put_families, put_written};
pub use reason::{put_octets_text, put_reason, put_state, reason_type};
pub use reason_line::ReasonLine;
pub use route::put_route;
pub use telling::{Counts, Telling};
pub use verdict_line::VerdictLine;
