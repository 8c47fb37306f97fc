// The outside of the store: where its scripts come from, where its replies go, and where its disk sets lie.
//
// Each object has a count of faults that never falls, and answers that it failed only where that count
// rose in the call: so code that is generic over it can't make a fault up. What an object holds is told
// by those in memory, and by no other.
//
// The objects in memory serve tests: each fails exactly at the calls that were listed when it was made. Standard
// input, standard output and the shelf in files are thin adapters, which are trusted for what passes through them.
#![tactic(auto)]

mod calls;
mod device_file;
mod file_disks;
mod file_shelf;
mod gives;
mod memory_shelf;
mod memory_sink;
mod memory_source;
mod shelf;
mod sink;
mod slots;
mod source;
mod standard;
mod unused;

pub use file_disks::FileDisks;
pub use file_shelf::FileShelf;
pub use memory_shelf::MemoryShelf;
pub use memory_sink::MemorySink;
pub use memory_source::MemorySource;
pub use shelf::{Shelf, ShelfFault};
pub use sink::{Sink, SinkFault};
pub use source::Source;
pub use standard::{StandardInput, StandardOutput};
