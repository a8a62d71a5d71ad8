//! Verdicts one after another, in either form.

ghost use Rattle.std.specs.Prelude.{◌≡◌};
ghost use Rattle.bgp_json_verdicts.specs.Status.{code_of};
ghost use Rattle.bgp_verdict_lines.specs.Teller.{Starts, StartsBehind, teller_status};

use crate::form::VerdictForm;
use bgp_json_verdicts::{Status, Telling};

/// Tells verdicts one after another, in one form.
#[derive(Clone, Copy)]
pub enum VerdictTeller {
    /// As text.
    Text,
    /// As JSON.
    Json(Telling),
}

impl VerdictTeller {
    /// Starts before the first verdict.
    pub fn new(form: VerdictForm) -> VerdictTeller
        ensures { Starts form result }
    {
        match form {
            VerdictForm::Text => VerdictTeller::Text,
            VerdictForm::Json => VerdictTeller::Json(Telling::new()),
        }
    }

    /// Starts in JSON behind so many verdicts, the last of which has no ends yet.
    pub fn behind(judged: u64) -> VerdictTeller
        ensures { StartsBehind judged result }
    {
        VerdictTeller::Json(Telling::behind(judged))
    }

    /// Returns the exit status of what has this one, or that of memory, where it was refused for an
    /// object.
    pub fn status(&self, status: Status) -> Status
        ensures { code_of result ≡ teller_status self.now (code_of status) }
    {
        match self {
            VerdictTeller::Text => status,
            VerdictTeller::Json(telling) => telling.status(status),
        }
    }
}
