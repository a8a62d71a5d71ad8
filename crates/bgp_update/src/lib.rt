//! What an UPDATE asks of a BGP speaker: every outcome that the standards allow (RFC 4271, 4.3 and
//! 6.3; RFC 4760; RFC 7606; RFC 8950).
//!
//! What is received is read by the link's received form, and what is sent is clean by its sent
//! form. A form says of which families prefixes stand behind path identifiers (RFC 7911, 3).
//!
//! ```text
//! let outcomes = read_update(alloc, &link, octets)?;
//! if let Some(changes) = &outcomes.changes {
//!     apply(changes);
//! } else {
//!     reset_with(outcomes.reset.least());
//! }
//! ```
#![tactic(auto)]

mod changes;
mod clean;
mod destination;
mod destinations;
mod disabled;
mod fields;
mod laws;
mod link_side;
mod mp;
mod mp_faults;
mod mp_parts;
mod outcomes;
mod parts;
mod pass;
mod reading;
mod reset_faults;
mod subcodes;
mod survey;
mod withdraw_faults;

pub use bgp_attr::{Attr, Attrs};
pub use bgp_open::{
    Capabilities, Capability, Families, Notification, Open, OpenFault, RouteForm,
    read_notification, read_open,
};
pub use clean::{is_clean, most_octets};
pub use destination::{Destination, PathId};
pub use destinations::{DestinationField, Destinations};
pub use fields::{Fields, split_update};
pub use laws::{
    clean_is_applied, destinations_are_by_form, empty_is_clean, fields_are_read,
    next_hops_are_by_form, one_change, one_split, outcomes_depend_on_form, peers_read_alike,
    some_outcome,
};
pub use link_side::side;
pub use mp::{MpContents, family_in, next_hop_in, reach_contents, unreach_contents};
pub use mp_parts::{ReachParts, UnreachParts, family_with, split_reach, split_unreach};
pub use outcomes::{Changes, Outcomes, Put};
pub use parts::{Parts, read_parts};
pub use reading::read_update;
pub use subcodes::{Subcodes, subcodes_are_sets};
