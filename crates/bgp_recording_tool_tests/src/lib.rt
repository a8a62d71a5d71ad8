//! Tests of `bgp_recording_tool`: devices that fail, refused memory, and files that are recordings
//! or captures. Of `bgp_recording` and `bgp_import`: each read that fails, and refused memory. Of
//! `bgp_explain`: a sink that fails, refused memory, and what is told of the end of a file.
//! (Recordings, what is made of them, each refusal, and texts that explain verdicts are compared by
//! the program `real_recordings`.)
//!
//! They stand in a crate of their own, since a crate with tests is proved twice.
#![tactic(auto)]

#[cfg(test)]
mod explain;
#[cfg(test)]
mod import;
#[cfg(test)]
mod memory;
#[cfg(test)]
mod recording;
#[cfg(test)]
mod tool;
#[cfg(test)]
mod two_connections;
