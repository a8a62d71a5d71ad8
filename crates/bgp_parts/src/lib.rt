//! What a message that was sent lacks of the messages that could have been sent, part by part, as
//! data without text; what both OPENs of a session offer about routes; and whether its records show
//! an UPDATE of a confederation (RFC 5065), which isn't judged.
//!
//! ```text
//! match own_open_parts(&config, octets) {
//!     OwnOpenParts::Malformed(fault) => tell_fault(fault),
//!     OwnOpenParts::Differing(parts) => tell_parts(parts.hold, parts.id),
//! }
//! if some_show_confederations(records) {
//!     return Err(NotJudged::Confederations);
//! }
//! ```
#![tactic(auto)]

mod attribute;
mod both_offers;
mod confederations;
mod laws;
mod multiprotocol;
mod notification;
mod offer;
mod own_open;
mod update;
mod withdrawal;

pub use attribute::AttributeFault;
pub use bgp_reason::{FsmErrors, Possible, States, Told};
pub use both_offers::settle_something;
pub use confederations::{has_confederation, shows_confederation, some_show_confederations};
pub use laws::{
    clean_lacks_nothing, own_open_lacks_nothing, parts_tell_withdrawals, possible_lacks_nothing,
};
pub use notification::{NotificationPart, NotificationParts, notification_parts};
pub use offer::offered_as_number;
pub use own_open::{Differing, OpenDifferences, OwnOpenParts, own_open_parts};
pub use update::{UpdatePart, update_parts};
pub use withdrawal::is_withdrawal;
