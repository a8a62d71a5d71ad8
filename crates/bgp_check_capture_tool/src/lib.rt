//! `bgp check` of a capture as one function over a source and a sink: whether the local system of
//! each session in a file of MRT records kept to the standard, stretch by stretch, without a
//! setting.
//!
//! ```text
//! let checked =
//!     check_capture::<_, CompactTracker<_>, _, _>(alloc, &options, &mut source, &mut sink);
//! std::process::exit(checked.status);
//! ```
//!
//! Who wants the records that were judged besides holds the file and hands in a list for them:
//!
//! ```text
//! let held = hold(alloc, &mut source);
//! let mut marks = StretchMarks::new(alloc);
//! let checked = check_capture_marking::<_, CompactTracker<_>, _>(
//!     alloc, &options, &held, &mut sink, &mut marks,
//! );
//! ```
#![tactic(auto)]

mod checking;
mod counted;
mod cutting;
mod ends;
mod firsts;
mod headline;
mod judging;
mod laws;
mod lines;
mod marks;
mod naming;
mod nothing;
mod options;
mod part;
mod places;
mod quiet_laws;
mod stretch_end;
mod telling;
mod told_end;

pub use bgp_check_lines::{EndName, NumberedRecord, Printing, Settings};
pub use checking::CheckedCapture;
pub use headline::{
    a_printed_verdict_is_over_all_configurations, check_capture, check_capture_marking,
};
pub use laws::{
    a_judge_line_gives_the_verdict, no_configuration_has_a_run, no_verdict_is_vacuous,
    without_its_ends_it_is_the_list,
};
pub use marks::{StretchMark, StretchMarks};
pub use nothing::NothingJudged;
pub use options::CaptureOptions;
pub use quiet_laws::quiet_keeps_what_is_not_well;
