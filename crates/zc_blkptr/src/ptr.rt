// Pointers and slots.

/// Where a block is, since when, and the digest of its bytes.
#[derive(Clone, Copy, Debug, PartialEq, Eq)]
pub struct Ptr {
    pub device: u32,
    /// The place on the device.
    pub place: u32,
    /// The group in which the pointer came into its file.
    pub logical: u64,
    /// The group that wrote the block.
    pub physical: u64,
    /// The first 16 bytes of the block's SHA-256.
    pub digest: [u8; 16],
}

/// What a block of a file is.
#[derive(Clone, Copy, Debug, PartialEq, Eq)]
pub enum Slot {
    /// Zeros, with no block after them.
    Hole,
    /// The block that the pointer names.
    At(Ptr),
}
