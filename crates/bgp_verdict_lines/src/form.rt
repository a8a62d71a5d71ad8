//! The forms in which a verdict is told.

/// In which form a verdict is told.
#[derive(Clone, Copy, Debug, PartialEq, Eq)]
pub enum VerdictForm {
    /// As text.
    Text,
    /// As JSON, an object a line.
    Json,
}
