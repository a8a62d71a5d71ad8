//! `bgp check --html` for a page in a browser: a file's octets in, and its report out.
//!
//! This is a module of WebAssembly, when it is built for that (docs/PAGE.md). Who calls its one
//! export hands over memory, from which all that a call needs is taken, lends the file's octets and
//! its name, and room for the report and for the sentences on standard error. The answer says how
//! long both are; what didn't fit is cut off.
#![tactic(auto)]

mod answer;
mod checking;

pub use answer::Answer;
pub use checking::bgp_page_check;
