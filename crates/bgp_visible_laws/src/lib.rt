//! Laws of the lines of [`bgp_lines`] and [`bgp_json`]: each is UTF-8, and none has a control
//! character but the line feed at its end.
//!
//! So a terminal that prints a line in words or in JSON obeys nothing that a peer sent.
#![tactic(auto)]

mod json_laws;
mod laws;

pub use json_laws::{
    no_message_in_json_has_a_control_character, no_other_in_json_has_a_control_character,
    no_record_in_json_has_a_control_character,
};
pub use laws::{
    no_fault_has_a_control_character, no_message_has_a_control_character,
    no_record_has_a_control_character, no_rest_has_a_control_character,
};
