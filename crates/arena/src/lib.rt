//! An allocator over memory that a caller hands over, as a page hands memory over to a module of
//! WebAssembly, in which there is no `Global`.
//!
//! A block is cut from the front of what no block has had. A block that comes back goes into the
//! list of its size, and is handed out again from there. The memory itself goes back to nobody.
//!
//! ```text
//! let arena = Arena::new(memory);
//! let mut octets = Vec::new(&arena);
//! octets.push(7)?;
//! ```
#![tactic(auto)]

mod arena;
mod chain;
mod freed;
mod memory;
mod sizes;

pub use arena::Arena;
pub use memory::Memory;
