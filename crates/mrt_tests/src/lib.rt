//! Tests of `mrt`: devices that fail, records octet by octet, refused memory. Of `mrt_sessions`,
//! too: sessions of a file that are told apart, and that have just some records.
//!
//! They stand in a crate of their own, since a crate with tests is proved twice.
#![tactic(auto)]

#[cfg(test)]
mod tests;
