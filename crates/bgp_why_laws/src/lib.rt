//! Laws of the texts in the lines of a verdict's reason, which [`bgp_why`] defines: they are UTF-8,
//! and none has a control character. So each line that `judge` puts is one whose object in JSON
//! determines its text (bgp_verdict_laws), and whose line in JSON has no control character.
#![tactic(auto)]

mod laws;
mod line_laws;
mod visible_laws;

pub use laws::{
    each_ask_is_visible, each_cause_is_visible, each_cut_is_visible, each_deed_is_visible,
    each_item_is_visible, each_lack_is_visible, each_name_is_visible, each_note_is_visible,
};
pub use line_laws::{
    each_end_is_lines, each_item_is_a_line, each_message_is_a_line, each_note_is_a_line,
    each_record_is_a_line, the_last_received_is_a_line,
};
pub use visible_laws::{
    no_line_in_json_has_a_control_character, no_output_in_json_has_a_control_character,
};
