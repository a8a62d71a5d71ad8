//! Why a verdict is as it is: what may follow a session's records, as the session machine has it
//! (RFC 4271, 8.2.2).
//!
//! ```text
//! let possible = possible(alloc, &tracker, &config, told.state, last_message)?;
//! if possible.message {
//!     print("received message");
//! }
//! ```
#![tactic(auto)]

mod asking;
mod kinds;
mod laws;
mod told;

pub use asking::possible;
pub use kinds::{FsmErrors, Possible, States};
pub use laws::{
    each_message_can_be_heard, each_no_has_a_reason, hold_timer_expires_from_then_on,
    one_record_of_each_kind_tells_all, owed_where_unfinished, records_tell_one_by_one,
};
pub use told::Told;
