//! What `bgp check` prints about an end, whether packets or MRT records show it: the verdict, why
//! that is a no or unfinished, and the `bgp judge` command that reproduces it; and how many ends
//! have each verdict.
//!
//! The reason is the one that `bgp judge --explain` gives under the configuration for which the
//! verdict holds, in the style of `check`.
//!
//! ```text
//! let places = Places::Shown(&entries);
//! let instead = OtherOrders::Unasked;
//! let reason = reason_of::<A, CompactTracker<A>>(
//!     alloc, sent, first, &peer, places, instead, &records, &answer,
//! )?;
//!
//! let name = EndName { end, as_number, part: None };
//! put_no(&mut lines, &place, &name, reason.deed());
//! put_reason(&mut lines, &reason);
//!
//! let asked = asked_of(179, 10, &session, &connections, opening, side);
//! let made = make_records(alloc, &connection, framings, 10)?;
//! if let Some(options) = judge_options(alloc, config, asked, &connection, 10, &made, framings)? {
//!     put_judge_line(&mut lines, &options);
//! }
//! if let Some(options) = capture_options(config, file.is_plain, named, &records, skips_refresh) {
//!     put_judge_line(&mut lines, &options);
//! }
//! ```
#![tactic(auto)]

mod as_number;
mod asking;
mod end;
mod explained;
mod framed_alike;
mod highest;
mod judge_line;
mod laws;
mod lines;
mod of_capture;
mod options;
mod own_faults;
mod quiet;
mod reached;
mod read_alike;
mod reason;
mod refused;
mod sending;
mod settings;
mod shown;
mod states;
mod tally;
mod unshown;

// Where records stand, for who tells an end.
pub use as_number::sent_as_number;
pub use asking::asked_of;
pub use bgp_check::{NotJudged, PeerAs};
pub use bgp_ended::{EndedStretch, Outline, ended_in, put_ended_stretch};
pub use bgp_explain::{NumberedRecord, Places, VerdictForm, VerdictLines, entry_place};
pub use end::{EndName, put_end, put_part_end};
pub use framed_alike::are_framed_alike;
pub use judge_line::{put_command, put_judge_line};
pub use laws::{a_capture_is_read_alike, each_item_has_its_text, records_are_framed_alike};
pub use lines::{put_no, put_not_judged, put_unfinished, put_why, put_yes};
pub use of_capture::capture_options;
pub use options::{Asked, JudgeOptions};
pub use own_faults::told_configuration;
pub use quiet::{Printing, is_left_out};
pub use reached::{Reached, reached_by};
pub use read_alike::judge_options;
pub use reason::{Reason, put_deed, put_reason, reason_of, reason_under};
pub use sending::{sent_deed, sent_form};
pub use settings::{Settings, is_no_yes};
pub use states::put_routes_if;
pub use tally::Tally;
pub use unshown::{put_passed_over, put_unshown};
