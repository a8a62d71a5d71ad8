//! Prefixes and addresses of BGP-4 (RFC 4271, 4.3; RFC 4760, 5): as bits, as octets and as texts.
//!
//! ```text
//! let (prefix, count) = Prefix::read(Family::V4, octets)?;
//! let also = read_prefix("10.128.0.0/9");
//! println!(rt; "{prefix} is spelled by {count} octets")?;
//! ```
#![tactic(auto)]

mod address;
mod family;
mod laws;
mod order;
mod prefix;
mod session;
mod text;

pub use address::Address;
pub use family::Family;
pub use laws::{
    each_prefix_is_that_of_its_address, equal_prefixes_are_one, octets_begin_with_one_prefix,
    printed_texts_are_read, the_shortened_run_is_the_first_longest,
    written_octets_spell_the_prefix,
};
pub use prefix::{Prefix, PrefixFault};
pub use session::{RouteRefresh, Seconds, Session};
pub use text::{read_address, read_prefix};
