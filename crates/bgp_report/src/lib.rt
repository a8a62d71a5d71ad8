//! What `bgp check` prints of a file, as a report in HTML.
//!
//! A report is one file for a browser, which runs no script and loads nothing. It has the name of
//! the file, and then each line that `bgp check --routes --settings` prints, in an element of its
//! own. What is printed, and with which status, is what [`check_recording`] and [`check_capture`]
//! promise of a text in memory; bgp_html's laws say that a report has just these lines, and no
//! markup but its own. After the text stand the records of each end of a recording that is judged,
//! or of each such stretch of a session in a capture, as bgp_ladder puts them.
//!
//! ```text
//! let checked = report_recording::<_, CompactTracker<_>, _, _>(
//!     alloc, &options, file, source, sink,
//! );
//! ```
//!
//! [`check_recording`]: bgp_check_tool::check_recording
//! [`check_capture`]: bgp_check_capture_tool::check_capture
#![tactic(auto)]

mod capture;
mod handing;
mod ladder;
mod ladders;
mod names;
mod recording;
mod stretch;
mod stretch_names;
mod stretches;

// What `check` prints as text and in JSON is passed on, so that who prints a file in any form needs
// this crate alone.
pub use bgp_check_capture_tool::{
    CaptureOptions, CheckedCapture, NothingJudged as NoCaptureJudged, Printing, check_capture,
};
pub use bgp_check_tool::{
    CheckOptions, CheckedRecording, NothingJudged as NoRecordingJudged, Settings, check_recording,
};
pub use capture::report_capture;
pub use recording::report_recording;
