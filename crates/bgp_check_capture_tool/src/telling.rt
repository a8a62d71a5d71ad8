//! What is told of sessions besides their verdicts.

ghost use Rattle.std.specs.Prelude.{◌≡◌};
ghost use Rattle.bgp_check_capture_tool.specs.Checking.{telling_of};
ghost use Rattle.bgp_check_capture_tool.specs.Judging.{telling_where};

use crate::options::CaptureOptions;
use bgp_check_lines::{Printing, Settings};
use mrt::CaptureFault;

/// What is told of sessions of a file besides their verdicts.
#[derive(Clone, Copy)]
pub(crate) struct Telling {
    /// Which lines are printed.
    pub(crate) printing: Printing,
    /// After which verdicts the options of `bgp judge` are.
    pub(crate) settings: Settings,
    /// No record of the file is too long for a session without extended messages (RFC 8654).
    pub(crate) is_plain: bool,
}

impl Telling {
    /// What is told of a file that isn't read on for this, if it isn't.
    pub(crate) fn of(
        options: &CaptureOptions,
        is_plain: bool,
        fault: Option<CaptureFault>,
    ) -> Telling
        ensures { result ≡ telling_of options.now is_plain fault }
    {
        let telling = Telling {
            printing: options.printing,
            settings: options.settings,
            is_plain,
        };
        telling.where_refused(fault)
    }

    /// What is told of a session, or of those of a file, that is refused for this, if it is.
    pub(crate) fn where_refused(self, fault: Option<CaptureFault>) -> Telling
        ensures { result ≡ telling_where fault self }
    {
        Telling {
            settings: self.settings.where_refused(fault.is_some()),
            ..self
        }
    }
}
