// The base of the pool store: its numbers and limits, the arithmetic of blocks of 4,096 bytes, and small owned types that
// contracts see as plain values.
//
// A type that clauses compare with a definition holds no allocator, bare `Vec`, `Box` or map: it holds the types of this crate,
// which clauses see as a list of bytes (`Name`, `Bytes`), as a list (`Listed`, and `Queue`, first in first out), as the entries of
// a map in ascending order (`Ordered`), and as the value itself (`Boxed`). Each is a thin layer over a collection of std.
#![tactic(auto)]

mod blocks;
mod boxed;
mod bytes;
mod limits;
mod listed;
mod name;
mod numbers;
mod ordered;
mod queue;

pub use blocks::{BLOCK, blocks_for, blocks_of, edit_block, overlaps};
pub use boxed::Boxed;
pub use bytes::Bytes;
pub use limits::Limits;
pub use listed::Listed;
pub use name::Name;
pub use numbers::{BlockIndex, DatasetId, DeviceNo, FileId, GroupNo, PlaceAt, PlaceNo};
pub use ordered::Ordered;
pub use queue::Queue;
pub use std::alloc::AllocError as NoMemory;
