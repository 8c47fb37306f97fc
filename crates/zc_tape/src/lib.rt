// Disk sets: what their calls do, what stands on their tapes, and what a crash at any moment may leave.
//
// A disk set has a tape: the bytes at its start and the list of writes and syncs that have returned.
// What a crash may leave follows from the tape alone: the synced bytes, and any bytes at the places
// written since. Functions that make device calls state which calls they appended, and nothing else;
// that every moment is fine then follows from the calls, by the laws in proofs/.
//
// A disk set in memory keeps its tape as data: the blocks at its start, the blocks as they read, and the
// calls with their bytes. So it can hand out the image that a crash left, for any choice of the writes
// that survive, and fail exactly where it was told to.
#![tactic(auto)]

mod blocks;
mod call;
mod disks;
mod entry;
mod executor;
mod keep;
mod memory;

pub use call::{DiskCall, Plan};
pub use disks::{DiskSet, Failed};
pub use executor::{perform, perform_one};
pub use keep::Keep;
pub use memory::MemoryDisks;
