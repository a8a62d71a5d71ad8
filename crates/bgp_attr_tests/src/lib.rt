//! Tests of `bgp_path`: AS paths, paths, and refused memory. And of `bgp_attr`: rows of the
//! standards, and octets of real routers. (The class of each attribute, and the paths that fields
//! say, are compared by the program `real_captures`, as outcomes of UPDATEs.)
//!
//! They stand in a crate of their own, since a crate with tests is proved twice.
#![tactic(auto)]

#[cfg(test)]
mod attr;
#[cfg(test)]
mod parts;
#[cfg(test)]
mod path;
