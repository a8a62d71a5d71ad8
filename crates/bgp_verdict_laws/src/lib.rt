//! Laws of the lines that [`bgp_verdict_lines`] puts as text or in JSON: what is printed in JSON
//! determines the text.
//!
//! So nothing that `judge` prints is lost with `--json`. The counts of verdicts and ends that stand
//! in an object may differ.
#![tactic(auto)]

mod laws;

pub use laws::{
    each_lack_has_its_mark, each_line_determines_its_text, each_number_is_one_of_json,
    each_output_determines_its_text, each_text_has_its_mark,
};
