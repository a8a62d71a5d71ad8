//! The routes that a peer has announced (RFC 4271, 3.2: Adj-RIB-In), and what UPDATEs change of
//! them.
//!
//! ```text
//! let mut rib = RibIn::new(alloc);
//! if let Some(changes) = &read_update(alloc, &link, octets)?.changes {
//!     rib.apply(changes)?;
//! }
//! for (destination, path) in rib.routes() { print(destination, path); }
//! ```
#![tactic(auto)]

mod applying;
mod families;
mod keys;
mod laws;
mod rib_in;
mod route_iter;
mod table;
mod updates;
mod writing;

pub use bgp_update::{
    Changes, Outcomes, Subcodes, empty_is_clean, is_clean, read_update, some_outcome,
    subcodes_are_sets,
};
pub use laws::{
    changes_leave_routes, disabled_families_are_left_out, each_change_is_the_maps,
    equal_maps_are_one, equality_is_real, updates_join,
};
pub use rib_in::RibIn;
pub use route_iter::RouteIter;
pub use updates::Applied;
