// Plain files: what a pool's commands mean, as a program that keeps every byte in memory.
//
// A plain pool has no places, no groups and no logs. It has datasets with files, and a file has blocks: a hole, or 4,096 bytes
// with a stamp, which names the command that made them and the number of the block. The types of this crate are the ones that
// definitions speak of, and `apply` gives for each entry of a history what the definitions say: the reply, and the pool that
// comes next. Whatever keeps its blocks in another way is compared with it.
//
// Here a write copies the bytes of the blocks that it touches. Nothing is shared.
#![tactic(auto)]

mod answering;
mod commands;
mod entry;
mod finding;
mod held;
mod plain;
mod plain_pool;
mod reading;
mod room;
mod tally;
mod truncating;
mod writing;

pub use entry::Entry;
pub use plain::Plain;
pub use plain_pool::{PlainBlock, PlainDataset, PlainFile, PlainPool};
pub use tally::{MadeBlock, Tally};
