//! How a capture is checked.

use bgp_check_lines::{Printing, Settings, VerdictForm};

/// How a capture is checked.
#[derive(Clone, Copy, Debug)]
pub struct CaptureOptions {
    /// Which lines are printed.
    pub printing: Printing,
    /// After which verdicts the options of `bgp judge` are told, where neither the file nor the
    /// session is refused.
    pub settings: Settings,
    /// In which form all is told.
    pub form: VerdictForm,
}
