//! Tests of `packets`: files made by hand, octet by octet; reads that fail; refused memory. Of
//! `segments`: packets made by hand. And of `streams`: connections worked out by hand, and refused
//! memory. Each refusal, and each layer of a packet, is a case of the program `real_recordings`.
//!
//! They stand in a crate of their own, since a crate with tests is proved twice.
#![tactic(auto)]

#[cfg(test)]
mod packet;
#[cfg(test)]
mod segment;
#[cfg(test)]
mod stream;
