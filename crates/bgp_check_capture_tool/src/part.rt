//! Which records of a session something is told of.

/// Records of a session that follow one another.
#[derive(Clone, Copy)]
pub(crate) struct Part {
    /// How many records of the session stand before them.
    pub(crate) before: usize,
    /// How many they are.
    pub(crate) count: usize,
}
