//! The forms in which `bgp decode` prints.

use bgp_lines::LineForm;

/// In which form the lines of messages and records are printed.
///
/// ```text
/// let form = OutputForm::Json { as2: false };
/// ```
#[derive(Clone, Copy, Debug, PartialEq, Eq)]
pub enum OutputForm {
    /// As text, in numbers or in words.
    Text(LineForm),
    /// As JSON, an object a line.
    Json {
        /// AS numbers in AS_PATH and AGGREGATOR have two octets, whatever the OPENs offer.
        as2: bool,
    },
}
