//! Tests of `bgp_tool`: refused memory, and what no file brings about. (Lines, verdicts, devices
//! that fail and what is told on standard error are compared by the program `real_captures`.)
//!
//! They stand in a crate of their own, since a crate with tests is proved twice.
#![tactic(auto)]

#[cfg(test)]
mod tests;
