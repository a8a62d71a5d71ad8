//! The session machine (RFC 4271, 8.2.2; RFC 9687): the steps that a session may take, and what
//! each sends, shows and leaves. Each row of its tables has a name (docs/SESSION-MACHINE.md).
//!
//! ```text
//! let by_itself = hidden_steps(&config, state.head, second);
//! let mut about = ArrayVec::new();
//! let changes = list_message_steps(alloc, &config, state.head, second, octets, &mut about)?;
//! if let Some(step) = about.as_slice().first() {
//!     // `meets` checks whether octets are what `step.wants` sends
//!     state.take(step.after, changes.as_ref())?;
//! }
//! ```
#![tactic(auto)]

mod effects;
mod fsm;
mod hearing;
mod hidden;
mod laws;
mod listing;
mod meeting;
mod messages;
mod moving;
mod received;
mod rows;
mod sameness;
mod silent;
mod state;
mod step;
mod updates;
mod want;

pub use bgp_rib::{
    Changes, RibIn, Subcodes, empty_is_clean, equality_is_real, read_update, some_outcome,
};
pub use fsm::Fsm;
pub use hearing::{Heard, hear, received_limit};
pub use hidden::{hidden_step, hidden_steps};
pub use laws::{
    a_note_keeps_the_state, each_owed_want_can_be_met, each_record_goes_one_way, runs_are_joined,
};
pub use listing::MOST_STEPS;
pub use meeting::meets;
pub use messages::list_message_steps;
pub use received::heard_step;
pub use rows::{HiddenRow, ReceivedRow};
pub use sameness::{same_change, same_head, same_link, same_wants};
pub use silent::silent_steps;
pub use state::{Head, HoldTimer, State};
pub use step::{After, Routes, Step};
pub use updates::update_step;
pub use want::{FaultSet, Unexpected, Want, Wants};
