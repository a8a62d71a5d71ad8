//! How the records of a session are decoded.

use bgp_json::OutputForm;
use bgp_prefix::Session;

/// Which session's records are decoded, and how their lines are written.
///
/// ```text
/// let options = SessionOptions { session, form: OutputForm::Json { as2: false } };
/// ```
#[derive(Clone, Copy, Debug, PartialEq, Eq)]
pub struct SessionOptions {
    /// The session's ends, and whether its local system offers extended messages.
    pub session: Session,
    /// The form of the lines.
    pub form: OutputForm,
}
