//! The forms of a list.

/// How a list is printed.
#[derive(Clone, Copy, Debug, PartialEq, Eq)]
pub enum ListForm {
    /// Lines that a person reads.
    Text,
    /// JSON, an object a line.
    Json,
}
