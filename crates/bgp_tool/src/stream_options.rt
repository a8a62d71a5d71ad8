//! How a stream is decoded.

use bgp_json::OutputForm;
use bgp_wire::Limit;

/// How the messages of a stream are read, and how their lines are written.
///
/// ```text
/// let options = StreamOptions { limit: Limit::Plain, form: OutputForm::Json { as2: false } };
/// ```
#[derive(Clone, Copy, Debug, PartialEq, Eq)]
pub struct StreamOptions {
    /// How long a message may be (RFC 4271, 4.1; RFC 8654, 4).
    pub limit: Limit,
    /// The form of the lines.
    pub form: OutputForm,
}
