//! `bgp check` as one function over a source and a sink: whether each end of each session in a
//! recording of packets kept to the standard, without a setting.
//!
//! ```text
//! let settings = Settings::Always;
//! let options = CheckOptions { port: 179, within: 10, printing, settings };
//! let checked = check_recording::<_, CompactTracker<_>, _, _>(alloc, &options, source, sink);
//! std::process::exit(checked.status);
//! ```
#![tactic(auto)]

mod about;
mod another;
mod blocks;
mod checking;
mod connection;
mod counted;
mod elsewhere;
mod ending;
mod headline;
mod instead;
mod judging;
mod late;
mod laws;
mod lines;
mod making;
mod marks;
mod nothing;
mod options;
mod orders;
mod peer;
mod place;
mod seen;

pub use another::Order;
pub use bgp_check_lines::Settings;
pub use checking::CheckedRecording;
pub use headline::{a_printed_verdict_is_over_all_configurations, check_marking, check_recording};
pub use laws::{
    a_judge_line_gives_the_verdict, a_verdict_is_over_all_configurations, each_of_them_is_told,
    no_configuration_has_a_run, no_order_has_a_run, no_order_is_whole, no_verdict_is_vacuous,
    one_order_is_told_for_a_cause, quiet_keeps_what_is_not_well, without_its_ends_it_is_the_list,
};
pub use making::{Made, made_of};
pub use marks::{BothMarks, EndMark, Marks, NoAt};
pub use nothing::NothingJudged;
pub use options::CheckOptions;
pub use seen::seen_from;
