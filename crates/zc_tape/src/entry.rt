// A call that stands on the tape of a disk set in memory.

/// A call that has returned, Ok or failed. It has its bytes inline, so that it takes no memory of its own.
#[derive(Debug, Drop)]
pub(crate) enum Entry {
    Wrote {
        device: u32,
        place: u32,
        bytes: [u8; 4096],
        ok: bool,
    },
    Synced {
        ok: bool,
    },
}
