//! The speaker over a connection.
//!
//! [`speak`] runs a speaker's core over a [`Wire`], which carries octets both ways and tells the
//! time, and writes what the core does to a capture. Its contract speaks of what the wire told, one
//! call after another, and of the inputs that this makes. [`MemWire`] is a wire in memory, which
//! can be told to fail; it tells all. [`SocketWire`] is a wire over TCP, and tells nothing,
//! since nobody knows what its peer will send. [`Speaking`] is what a command line says of all
//! that, besides the configuration.
#![tactic(auto)]

mod fault;
mod laws;
mod mem_wire;
mod options;
mod socket;
mod speaking;
mod talking;
mod wire;

pub use fault::SpeakFault;
pub use laws::{
    a_core_at_rest_is_quiet, a_talk_asks_one_thing, a_talk_hands_in_what_is_told,
    a_talk_reads_in_its_turns, a_talk_writes_what_is_sent, a_wire_in_memory_took_what_it_tells,
    each_record_is_short,
};
pub use mem_wire::{MemRead, MemWire, WireUpset};
pub use options::{Speaking, Start};
pub use socket::SocketWire;
pub use speaking::{Report, speak};
pub use talking::{again, write_records};
pub use wire::{Connection, ReadAnswer, Wire};
