//! Whether an end of a session kept to the standard, where its settings aren't known: they are read
//! off the OPEN that it sent, and what an OPEN doesn't say is left free. A verdict holds over all
//! configurations under which the OPEN is the end's own, and one or two judgings find it.
//!
//! Laws say why two are enough. They speak of a stretch of a session: its records from one that
//! leaves Idle to the next one that does.
//!
//! Packets show one stretch: `check_end` judges it. A session in a capture is cut into its
//! stretches, and each is judged by itself, without ROUTE-REFRESH messages that are passed over:
//!
//! ```text
//! let extended = extended_messages(named);
//! let read = read_session(alloc, addresses, extended, named)?;
//! let mut rest = read.records.as_slice().split_at(before_leaving(&read.records)).1;
//! while let Some((leaving, later)) = rest.split_first() {
//!     let (stretch, behind) = rest.split_at(1 + before_leaving(later));
//!     let told = check_stretch::<A, T>(alloc, &session, stretch, behind.first().copied())?;
//!     rest = behind;
//! }
//! ```
#![tactic(auto)]

mod answering;
mod checking;
mod cutting;
mod dynamic;
mod laws;
mod leaving;
mod not_judged;
mod offer;
mod opens;
mod own_fault;
mod passing;
mod peer_as;
mod session_offers;
mod settings;
mod stretch;
mod stretch_laws;
mod widest;

pub use answering::{Answer, Judged, WatchedEnd, check_end, watch_end};
pub use checking::{Checked, check_records};
pub use cutting::{before_leaving, leaves_idle};
pub use laws::{
    a_session_is_cut_without_loss, a_verdict_holds_under_its_configuration,
    a_wider_configuration_has_its_runs, an_own_fault_is_a_no, another_peer_is_refused_alike,
    no_configuration_explains_a_no, own_faults_are_all, stretches_begin_as_the_session_does,
    what_is_told_holds_over_all, widest_configurations_are_enough, widest_configurations_exist,
    widest_configurations_have_the_same_ends, widest_configurations_make_the_verdict,
    widest_configurations_without_open_are_enough, widest_settings_are_widest,
};
pub use not_judged::{NotJudged, sends_some};
pub use offer::{Offer, offer_of};
pub use opens::{heard_open, own_open, peers_open};
pub use own_fault::OwnFault;
pub use passing::{Kept, RefreshOffers};
pub use peer_as::PeerAs;
pub use session_offers::extended_messages;
pub use settings::has_own_fault;
pub use stretch::{StretchTold, check_stretch};
pub use stretch_laws::{
    a_left_stretch_is_judged_over_all, a_no_names_its_record, no_configuration_has_a_run,
    what_is_judged_is_a_stretch,
};
pub use widest::{Widest, widest_of};
