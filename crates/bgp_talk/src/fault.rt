//! Why a speaker gives up.

use thiserror::Error;

/// Why a speaker gave up before its end.
#[derive(Clone, Copy, Debug, PartialEq, Eq, Error)]
pub enum SpeakFault {
    /// The capture can't be written: its sink failed.
    #[error("the capture can't be written")]
    Capture = 1,
    /// There was no memory for it.
    #[error("out of memory")]
    Memory = 2,
}
