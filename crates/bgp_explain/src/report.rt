//! What is reported on records that are judged.

/// What is reported on records that are judged.
#[derive(Clone, Copy, Debug, PartialEq, Eq)]
pub enum Report {
    /// The verdict.
    VerdictAlone,
    /// The verdict, and then why it is a no or unfinished, or what the records of a yes are.
    WithReason,
}
