//! Laws of the texts that stand for the parts of a message: what it lacks of a message that could
//! have come in its place. Each is on a function that does nothing. A text says which parts there
//! are; where it leaves something open, the law says what.
//!
//! ```text
//! each_update_part_has_its_text();
//! // `ORIGIN with wrong value 03; NEXT_HOP missing`: these two parts, and no others.
//! ```
#![tactic(auto)]

mod laws;

pub use laws::{
    each_notification_part_has_its_text, each_open_part_has_its_text, each_own_fault_has_its_text,
    each_update_part_has_its_text,
};
