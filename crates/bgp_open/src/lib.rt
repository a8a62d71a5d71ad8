//! Reads and writes OPEN and NOTIFICATION messages (RFC 4271, 4.2 and 4.5), and works out what two
//! OPENs settle.
//!
//! ```text
//! let faults = open_faults(&config, octets);
//! let link = negotiate(&config, &read_open(octets)?); // if `faults.must` is empty
//! ```
#![tactic(auto)]

mod capability;
mod config;
mod entries;
mod families;
mod fault;
mod laws;
mod link;
mod next_hops;
mod notification;
mod offer;
mod open;
mod own_open;
mod parameters;
mod paths;
mod route_form;
mod route_offer;
mod subcodes;
mod triplet;
mod written_open;

pub use bgp_prefix::{Family, Prefix, Seconds};
pub use capability::{Capabilities, Capability};
pub use config::{Config, ConfigParts};
pub use families::Families;
pub use fault::OpenFault;
pub use laws::{
    both_ends_settle_one_session, each_readable_open_is_its_parts, one_fault, one_reading,
    one_set_of_subcodes, own_open_exists, plain_forms, subcodes_of_both_sets,
    written_notification_is_a_frame, written_open_reads_back,
};
pub use link::{Link, negotiate};
pub use notification::{
    Notification, NotificationWriteFault, read_notification, write_notification,
};
pub use open::{Open, read_fields, read_open};
pub use own_open::{is_own_open, write_own_open};
pub use route_form::RouteForm;
pub use route_offer::RouteOffer;
pub use subcodes::{OpenFaults, OpenSubcodes, open_faults};
pub use written_open::{OpenWriteFault, write_open};
