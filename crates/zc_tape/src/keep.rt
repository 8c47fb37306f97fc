// What a crash leaves of one write.

/// What a crash leaves of a write that no sync has made durable.
#[derive(Clone, Copy, Debug, PartialEq, Eq)]
pub enum Keep {
    /// Nothing of it.
    Old,
    /// All of it.
    New,
    /// Its first 2,048 bytes.
    Half,
}
