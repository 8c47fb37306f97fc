// A table as a catalogue has it.
use zc_num::Listed;

/// The count of a place that has an entry.
#[derive(Clone, Copy, Debug, PartialEq, Eq)]
pub struct StoredCount {
    pub place: u32,
    /// The number of the block's pointers less one.
    pub count: u64,
}

/// What the bytes of a table say.
#[derive(Debug, Drop, PartialEq, Eq)]
pub struct StoredTable {
    /// Ascending by place.
    pub entries: Listed<StoredCount>,
    /// The counter of each region, in order.
    pub regions: Listed<u64>,
}
