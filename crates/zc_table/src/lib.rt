// The reference table of one device: which of its blocks have more than one pointer, and how many more.
//
// A block that is cloned gets an entry with the number of its pointers less one; a block without an entry has at most one. A
// pointer does not say whether its block was cloned, so each free has to ask the table. To make that cheap for blocks that never
// were, the places of the device are cut into regions of 64, and a region whose counts sum to 0 has no entry to be asked for.
// A look-up of an entry ticks a counter of steps, which has no bytes; asking for a region's sum is free.
//
// Contracts see a table as the list of its counts, one for each place, with 0 where there is no entry: the sum of a region, the
// number of entries and the references that they stand for are all formulas over it. `PlainTable` keeps the counts and those
// three as numbers beside each other.
//
// In a catalogue a table is the list of its entries and the sums of its regions. Whether the sums there are those of the entries
// is not a matter of their spelling: `read_table` tells what the bytes say.
#![tactic(auto)]

mod plain;
mod reading;
mod steps;
mod stored;
mod table;
mod writing;

pub use plain::PlainTable;
pub use reading::{read_table, table_field};
pub use steps::Steps;
pub use stored::{StoredCount, StoredTable};
pub use table::RefTable;
pub use writing::put_table;
