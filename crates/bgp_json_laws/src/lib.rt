//! Laws of the objects and lines that [`bgp_json`] and [`bgp_tool`] put: equal ones are of equal
//! octets. And of the octets that a line has.
//!
//! So nothing is lost in JSON. The two messages may be read in different ways (with AS numbers of
//! two octets or four, with path identifiers or without), and stand in different places.
#![tactic(auto)]

mod laws;
mod line_laws;
mod visible_laws;

pub use laws::{
    each_attribute_has_its_object, each_capability_has_its_object, each_message_has_its_object,
    each_object_has_its_octets,
};
pub use line_laws::{
    each_capture_has_its_text, each_frame_has_its_line, each_record_has_its_line,
    each_stream_has_its_text,
};
pub use visible_laws::no_line_has_a_control_character;
