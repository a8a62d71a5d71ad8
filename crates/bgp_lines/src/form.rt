//! The forms of the lines of messages.

/// How the lines of messages are written.
#[derive(Clone, Copy, Debug, PartialEq, Eq)]
pub enum LineForm {
    /// In numbers and in hexadecimal, as [`bgp_text`] has them.
    Plain,
    /// In words.
    Names {
        /// AS numbers in AS_PATH and AGGREGATOR have two octets, whatever the OPENs offer.
        as2: bool,
    },
}
