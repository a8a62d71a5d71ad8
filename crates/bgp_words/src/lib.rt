//! The command line of the program `bgp`: what its words may be, and the command that they spell.
//!
//! ```text
//! match command_line(alloc, words)? {
//!     Command::Decode { form, extended, file } => ..
//! }
//! ```
#![tactic(auto)]

mod check;
mod decode;
mod import;
mod judge;
mod list;
mod misfit;
mod offers;
mod options;
mod pair;
mod recording;
mod settings;
mod speak;
mod texts;
mod usage;
mod values;
mod words;

pub use check::{CheckForm, Checking};
pub use judge::Reporting;
pub use words::{Command, command_line};
