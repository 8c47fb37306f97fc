// Who waits, and what was acknowledged.

/// A commit that was answered Done: all that stood before it in the history outlasts a crash from then on.
#[derive(Clone, Copy, PartialEq, Eq, Debug)]
pub struct Ack {
    pub session: u32,
    /// The number of its entry in the history, counted from 1.
    pub ask: u64,
    /// None: it is of every dataset.
    pub dataset: Option<u64>,
    /// How many writes and syncs there were since the import began, as it was answered.
    pub calls: u128,
}

/// A session that waits for the answer to its commit.
#[derive(Clone, Copy, PartialEq, Eq, Debug)]
pub struct Waiting {
    pub session: u32,
    /// The number of its entry in the history, counted from 1.
    pub ask: u64,
    /// The group that it sealed.
    pub group: u64,
}
