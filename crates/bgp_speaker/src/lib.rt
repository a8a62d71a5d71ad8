//! The core of a BGP-4 speaker: the session machine (RFC 4271, 8.2.2), where it chooses.
//!
//! It has no socket and no clock. A [`Core`] is told one [`Input`] after another, each with its
//! second, and answers the octets to send and the records of what it did; [`drive`] does so with a
//! list of them. What it chooses, and why that is one of the standard's choices, is in
//! docs/SPEAKER.md. Seconds are those of a capture's records: Unix time.
#![tactic(auto)]

mod choosing;
mod draft;
mod driving;
mod engine;
mod hearing;
mod input;
mod laws;
mod pending;
mod picking;
mod saying;
mod shown;
mod speaker;

pub use driving::{Run, drive};
pub use engine::{Core, Output};
pub use input::Input;
pub use laws::{
    each_choice_is_one, each_chosen_step_is_the_machines, each_connection_is_heard,
    each_drive_can_be_written, each_drive_is_a_run, however_cut,
};
pub use shown::Shown;
pub use speaker::Speaker;
