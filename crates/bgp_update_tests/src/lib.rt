//! Tests of messages: of `bgp_open`, OPEN and NOTIFICATION messages, read and written
//! (`real_captures` compares what OPENs settle); of `bgp_update`, UPDATEs with little memory, how
//! long they may be, and next hops and path identifiers by the form of each direction
//! (`real_captures` compares their outcomes); of `bgp_update_writer`, UPDATEs as they are written,
//! octet for octet; and of `bgp_text`, texts of routes.
//!
//! They stand in a crate of their own, since a crate with tests is proved twice.
#![tactic(auto)]

#[cfg(test)]
mod opens;
#[cfg(test)]
mod texts;
#[cfg(test)]
mod update;
#[cfg(test)]
mod writer;
