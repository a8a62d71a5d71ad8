//! Laws of what [`bgp_list`] puts as text or in JSON: what is printed in JSON determines the text,
//! and has no control character but line feeds at the ends of its lines.
//!
//! So nothing that `bgp list` prints is lost with `--json`: neither of a line, nor of a whole list.
#![tactic(auto)]

mod laws;
mod visible_laws;

pub use laws::{
    each_line_determines_its_text, each_list_determines_its_text, each_refusal_determines_its_text,
    each_session_determines_its_text, each_session_list_determines_its_text,
};
pub use visible_laws::{
    no_line_in_json_has_a_control_character, no_session_in_json_has_a_control_character,
};
