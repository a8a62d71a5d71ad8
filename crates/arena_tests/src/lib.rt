//! Tests of `arena`: collections over `&Arena`, blocks that come back, and memory that is used up.
//!
//! They stand in a crate of their own, since a crate with tests is proved twice.
#![tactic(auto)]

#[cfg(test)]
mod tests;
