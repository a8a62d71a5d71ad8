//! What all ways say together.

/// How much of an exchange some way explains.
#[derive(Clone, Copy, Debug, PartialEq, Eq)]
pub enum Explained {
    /// Every sent message is explained.
    All {
        /// Some run shows just the records of some way: nothing that is owed is missing at its end.
        is_whole: bool,
    },
    /// So many of the sent messages are explained, and with the next one they aren't.
    Only(usize),
    /// There are more nodes than [`MOST_NODES`](crate::MOST_NODES), so it isn't known.
    TooMany,
}
