// Block pointers: which place a block of a file is at, and since when, in 40 bytes.
//
// A pointer carries the first 16 bytes of its block's SHA-256, so that a block that is read can be told from another. A file's
// slot holds a pointer or a hole. Each slot has one spelling, and `decode` takes no other bytes: what it reads is spelled so, and
// what it refuses is the spelling of no slot that the limits allow. Whether the place holds the block is not a matter of its
// spelling; `matches` asks the block.
#![tactic(auto)]

mod digest;
mod ptr;
mod reading;
mod writing;

pub use digest::{digest_of, matches};
pub use ptr::{Ptr, Slot};
pub use reading::{BadPtr, decode, ptr_field};
pub use writing::encode;
