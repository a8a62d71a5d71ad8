//! JSON that is written at once where it stands in memory, token by token or by whole texts.
//!
//! A [`Writer`] places the commas and the colons, and leaves the nesting to its caller. What it
//! wrote is the text that the crate `json` prints of the tokens, so a reader finds these in it. It
//! fails only if memory is refused, and is then as it was.
//!
//! ```text
//! let mut writer = Writer::new(alloc);
//! writer.begin_object()?;
//! writer.key("prefix")?;
//! writer.ipv4_prefix(address, 24)?;
//! writer.end_object()?; // {"prefix":"192.0.2.0/24"}
//! ```
#![tactic(auto)]

mod buffer;
mod escaping;
mod ipv6;
mod places;
mod writer;

pub use writer::Writer;
