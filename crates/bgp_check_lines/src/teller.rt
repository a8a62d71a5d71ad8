//! What tells lines in one form.

ghost use Rattle.std.specs.Prelude.{◌≡◌};
ghost use Rattle.bgp_tool.specs.Status.{code_of};
ghost use Rattle.bgp_check_lines.specs.Teller.{Starts, teller_status};

use bgp_check_text::VerdictForm;
use bgp_json_check::CheckTeller;
use bgp_tool::Status;

/// Tells lines one after another, in one form.
#[derive(Clone, Copy)]
pub enum LineTeller {
    /// As text.
    Text,
    /// As JSON.
    Json(CheckTeller),
}

impl LineTeller {
    /// Starts before the first line.
    pub fn new(form: VerdictForm) -> LineTeller
        ensures { Starts form result }
    {
        match form {
            VerdictForm::Text => LineTeller::Text,
            VerdictForm::Json => LineTeller::Json(CheckTeller::new()),
        }
    }

    /// Returns the exit status of what has this one, or that of memory, where it was refused for an
    /// object.
    pub fn status(&self, status: Status) -> Status
        ensures { code_of result ≡ teller_status self.now (code_of status) }
    {
        match self {
            LineTeller::Text => status,
            LineTeller::Json(teller) => teller.status(status),
        }
    }
}
