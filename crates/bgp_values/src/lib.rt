//! The values of what messages hold: what capabilities, path attributes and the data of a
//! NOTIFICATION say, and how the OPENs of a session settle that its UPDATEs are read.
//!
//! Octets have a value only if they have the form that their code or type demands. Nothing is
//! guessed. It takes no memory.
#![tactic(auto)]

mod attribute_value;
mod capability_value;
mod counted;
mod error_data;
mod items;
mod opens;
mod pieces;
mod readable;
mod routes_value;
mod segments;

pub use attribute_value::AttributeValue;
pub use bgp_update::{Destination, Destinations, PathId};
pub use capability_value::CapabilityValue;
pub use error_data::{ErrorData, cause_of};
pub use items::{Item, has_bits};
pub use opens::{Direction, Offered, Opens, Reading};
pub use pieces::first_piece;
pub use readable::read_text;
pub use routes_value::RoutesValue;
pub use segments::{Segment, first_segment};
