use zc_num::{BLOCK, Boxed, Limits, Listed, Name};

/// What a pool holds.
#[derive(Debug, Drop)]
pub struct PlainPool {
    /// The size of the disks, and what it limits.
    pub limits: Limits,
    /// The number of the dataset that is made next. None is given twice.
    pub next_dataset: u64,
    /// In the order in which they were made, so ascending by number.
    pub datasets: Listed<PlainDataset>,
}

/// Files under a name.
#[derive(Debug, Drop)]
pub struct PlainDataset {
    pub id: u64,
    pub name: Name,
    /// The number of the file that is made next. None is given twice.
    pub next_file: u64,
    /// In the order in which they were made, so ascending by number.
    pub files: Listed<PlainFile>,
}

/// Bytes under a name.
#[derive(Debug, Drop)]
pub struct PlainFile {
    pub id: u64,
    pub name: Name,
    /// In bytes.
    pub size: u64,
    /// As many as the size takes.
    pub blocks: Listed<PlainBlock>,
}

/// 4,096 bytes of a file. Those past the file's size are 0.
#[derive(Debug, Drop)]
pub enum PlainBlock {
    /// All bytes are 0, and none was ever written.
    Hole,
    /// The command with this number in the history made the bytes, as those of the block with this index.
    Made {
        entry: u64,
        index: u64,
        bytes: Boxed<[u8; BLOCK]>,
    },
}
