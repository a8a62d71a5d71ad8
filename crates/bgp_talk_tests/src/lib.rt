//! Tests of `bgp_talk`: refused memory, sinks that fail, records as they arise, and a wire in
//! memory by itself. Of `bgp_speaker`: memory that is refused to a core. And of `bgp_speak_tool`:
//! what is printed of a speaker over such a wire, and of the captures of both ends of a connection.
//! (`speaker_drives` compares what a core and a speaker do.)
//!
//! They stand in a crate of their own, since a crate with tests is proved twice.
#![tactic(auto)]

#[cfg(test)]
mod tests;
