//! Tests of `bgp_prefix`: prefixes as bits and octets (the program `real_captures` compares texts,
//! and addresses). And of `bgp_wire`: headers, frames and octets.
//!
//! They stand in a crate of their own, since a crate with tests is proved twice.
#![tactic(auto)]

#[cfg(test)]
mod prefix;
#[cfg(test)]
mod wire;
