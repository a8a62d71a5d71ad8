//! Laws of the lines that [`bgp_check_lines`] puts as text or in JSON: what is printed in JSON
//! determines the text, and has no control character but line feeds at the ends of its lines.
//!
//! So nothing that `check` prints is lost with `--json`, and a terminal that prints it obeys
//! nothing that a peer sent. The counts of verdicts that stand in an object may differ.
#![tactic(auto)]

mod fits;
mod laws;
mod line_laws;
mod visible_laws;

pub use laws::{each_line_determines_its_text, each_output_determines_its_text};
pub use line_laws::{
    each_connection_is_a_line, each_deed_is_visible, each_ending_is_a_line,
    each_made_order_is_a_line, each_note_is_a_line, each_reason_is_lines, each_session_is_a_line,
    each_total_is_a_line, each_unjudged_is_a_line, each_verdict_is_a_line, each_yes_is_lines,
};
pub use visible_laws::{
    no_line_in_json_has_a_control_character, no_output_in_json_has_a_control_character,
};
