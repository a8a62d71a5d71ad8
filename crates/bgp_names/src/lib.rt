//! The names of numbers in BGP: of what a NOTIFICATION says, states, address families,
//! capabilities, path attributes and message types. What has no name is printed by its number.
//!
//! The tables are in `specs/`, after IANA's registries and the RFCs. Texts are put into
//! [`Lines`](bgp_text::Lines):
//!
//! ```text
//! put_error_name(&mut lines, 6, 4); // `Cease, Administrative Reset`
//! put_error_name(&mut lines, 9, 3); // `code 9, subcode 3`
//! put_family_name(&mut lines, 1, 128); // `IPv4 VPN`
//! ```
#![tactic(auto)]

mod attributes;
mod capabilities;
mod errors;
mod families;
mod laws;
mod messages;
mod naming;
mod states;

pub use attributes::{
    name_of_attribute, name_of_origin, name_of_segment, put_attribute_name, put_attribute_word,
};
pub use bgp_text::Lines;
pub use capabilities::{name_of_capability, name_of_role, name_of_way, put_capability_name};
pub use errors::{
    has_subcode, name_of_code, name_of_subcode, put_code_name, put_error_name,
    put_short_error_name, put_subcode_name,
};
pub use families::{families_name, put_afi_name, put_family_name};
pub use laws::{
    each_attribute_has_its_name, each_capability_has_its_name, each_error_has_its_name,
    each_family_has_its_name, each_message_type_has_its_name, each_name_is_plain,
    each_state_has_its_name,
};
pub use messages::put_type_text;
pub use states::{name_of_state, put_state_name};
