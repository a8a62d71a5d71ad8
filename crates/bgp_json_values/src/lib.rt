//! What messages hold, in JSON: capabilities, path attributes, routes, and the errors that
//! NOTIFICATIONs tell, as `bgp decode --json` prints them.
//!
//! Each function appends whole values, or whole members of an object, to a [`Writer`](json_writer::Writer). It
//! fails only if memory is refused. What has a value ([`bgp_values`]) is put by its value. Octets
//! that have none, or that aren't what it spells, are put in hexadecimal: nothing is lost.
//!
//! ```text
//! put_capabilities(&mut writer, alloc, open.caps())?;
//! // [{"code":1,"name":"Multiprotocol","value":{"afi":1,"safi":1}},
//! //  {"code":9,"name":"Role","octets":"05"}]
//! ```
#![tactic(auto)]

mod attributes;
mod capabilities;
mod destinations;
mod errors;
mod fronts;
mod heads;
mod items;
mod octets;
mod routes;
mod spelled_capabilities;
mod spelled_routes;
mod texts;
mod times;

pub use attributes::put_attributes;
pub use bgp_names::{name_of_state, name_of_subcode};
pub use capabilities::put_capabilities;
pub use destinations::{are_spelled, listed, put_destinations, put_path_ids, put_spelled};
pub use errors::{put_error, put_error_name};
pub use json_writer::Writer;
pub use octets::{put_octets_member, put_unless};
pub use texts::{put_address, put_name, put_number, put_octets, put_prefix, put_truth};
pub use times::put_time;
