//! Tests of `bgp_machine`: each row of the session machine's tables.
//!
//! They stand in a crate of their own, since a crate with tests is proved twice.
#![tactic(auto)]

#[cfg(test)]
mod tests;
