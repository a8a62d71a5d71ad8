//! Tests of `bgp_rib`: routes under changes, and refused memory.
//!
//! They stand in a crate of their own, since a crate with tests is proved twice.
#![tactic(auto)]

#[cfg(test)]
mod tests;
