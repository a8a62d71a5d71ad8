//! Path attributes of BGP-4 on the wire (RFC 4271, 4.3 and 5): the field in which they stand, the
//! class of each, and how a route's value is written as them.
//!
//! ```text
//! for attr in Attrs::new(field) {
//!     match class(side, &attr) {
//!         Some(AttrVerdict::Good) => keep(attr),
//!         Some(AttrVerdict::Discard) => {}
//!         Some(AttrVerdict::Withdraw | AttrVerdict::Reset) => return Err(attr.kind),
//!         None => {} // MP_REACH_NLRI and MP_UNREACH_NLRI
//!     }
//! }
//! ```
#![tactic(auto)]

mod classes;
mod field;
mod first;
mod flags;
mod large_communities;
mod laws;
mod numbers;
mod peer;
mod reading;
mod segments;
mod types;
mod values;
mod writing;

pub use bgp_path::{NextHop, Path};
pub use bgp_wire::{Limit, MessageType, message_body};
pub use classes::{AttrVerdict, Side, class};
pub use field::{Attr, Attrs, Tail};
pub use first::{FirstAttrs, first_of};
pub use flags::{EXTENDED_LENGTH, OPTIONAL, TRANSITIVE};
pub use laws::{one_split, reads_back, segments_are_told, writes_a_field};
pub use peer::is_for_peer;
pub use reading::read_path;
pub use types::{AttrType, TypeRow};
pub use writing::{is_writable, path_len, put_attribute_header, put_path, write_path};
