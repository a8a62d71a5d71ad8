//! The words for what a message lacks, part by part, as `bgp check` and `bgp judge --explain` print
//! them, and how much of a text from the wire is shown.
//!
//! What each text is, is stated in `specs/`. A text is put into [`Lines`](bgp_names::Lines):
//!
//! ```text
//! let parts = Parts::Update(true, &parts);
//! put_parts(&mut lines, b": ", &parts); // `: ORIGIN with wrong value 03; NEXT_HOP missing`
//! ```
#![tactic(auto)]

mod codes;
mod cut;
mod laws;
mod notifications;
mod offers;
mod opens;
mod own_faults;
mod parts;
mod room;
mod updates;

pub use bgp_names::{families_name, put_state_name};
pub use bgp_parts::{
    FsmErrors, NotificationParts, OwnOpenParts, Possible, States, Told, UpdatePart, is_withdrawal,
    notification_parts, offered_as_number, own_open_parts, update_parts,
};
pub use codes::{put_code, put_full_code};
pub use cut::put_cut;
pub use laws::{
    each_code_has_its_text, each_fault_has_its_text, each_set_of_families_has_its_text,
};
pub use offers::put_offer;
pub use own_faults::{OwnFaults, put_own_faults};
pub use parts::{Parts, put_parts};
pub use room::Room;
