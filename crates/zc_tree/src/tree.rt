use zc_blkptr::Ptr;
use zc_num::{Listed, Name, Ordered};

/// What a group has committed.
#[derive(Debug, Drop)]
pub struct Tree {
    /// The group that committed it.
    pub group: u64,
    /// The id of the dataset that is made next.
    pub next_dataset: u64,
    /// Ascending by id.
    pub datasets: Listed<Dataset>,
}

/// Files under a name, with a log of their own.
#[derive(Debug, Drop)]
pub struct Dataset {
    pub id: u64,
    /// The number of its log area, 0 to 7.
    pub slot: u32,
    pub name: Name,
    /// The id of the file that is made next.
    pub next_file: u64,
    pub log: LogState,
    /// Ascending by id.
    pub files: Listed<File>,
}

/// What the root says of a dataset's log.
#[derive(Clone, Copy, Debug, PartialEq, Eq)]
pub enum LogState {
    /// What the log holds in the root's epoch is nobody's yet.
    Normal,
    /// The pointers of so many blocks of this epoch are counted.
    Claimed { epoch: u64, blocks: u32 },
}

/// Bytes under a name.
#[derive(Debug, Drop)]
pub struct File {
    pub id: u64,
    pub name: Name,
    /// In bytes.
    pub size: u64,
    /// The pointer of each block that isn't a hole.
    pub slots: Ordered<Ptr>,
}
