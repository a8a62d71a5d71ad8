//! The lines of messages in words, as `bgp decode --names` prints them.
//!
//! What has a value, as an AS path or an address family, is put by its value ([`bgp_values`]) and
//! by the names of [`bgp_names`]. Everything else is put in hexadecimal. It takes no memory.
#![tactic(auto)]

mod attribute_line;
mod form;
mod items;
mod message_line;
mod notifications;
mod open_line;
mod others;
mod quoting;
mod record_line;
mod routes_line;
mod teller;
mod update_line;

pub use form::LineForm;
pub use message_line::put_named;
pub use notifications::{put_error_data, put_notification};
pub use open_line::{put_malformed_open, put_open};
pub use others::{put_named_change, put_named_fault, put_named_rest, put_named_stream_fault};
pub use quoting::put_quoted;
pub use record_line::put_named_message;
pub use teller::Teller;
pub use update_line::put_update;
