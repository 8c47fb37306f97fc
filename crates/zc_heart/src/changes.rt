// What a group changed, and what became of it on the disks.

use crate::block::Block;
use zc_blkptr::Ptr;
use zc_num::{Listed, Name};

/// What stands at a block of a file now.
#[derive(Drop)]
pub enum Now {
    /// A hole.
    Hole,
    /// These bytes, which the group made.
    Made { bytes: Block },
}

/// One change of a tree. Changes are made in their order.
#[derive(Drop)]
pub enum Change {
    /// A dataset without files, after the others. The next one has a number above its own.
    MakeDataset {
        id: u64,
        slot: u32,
        name: Name,
    },
    /// The dataset and its files go.
    DropDataset {
        id: u64,
    },
    /// A file without bytes, after the others of the dataset. The next one has a number above its own.
    MakeFile {
        dataset: u64,
        file: u64,
        name: Name,
    },
    /// The file goes.
    DropFile {
        dataset: u64,
        file: u64,
    },
    /// The file has this size. Its blocks stay.
    Size {
        dataset: u64,
        file: u64,
        size: u64,
    },
    /// This stands at the file's block.
    Put {
        dataset: u64,
        file: u64,
        block: u32,
        now: Now,
    },
}

/// A group that was sealed.
#[derive(Drop)]
pub struct Sealed {
    pub group: u64,
    /// How many blocks stood in the pool as it was sealed, a shared one counted once.
    pub held: u64,
    /// What it changed. No two puts are of one block of one file.
    pub changes: Listed<Change>,
}

/// A group that was written.
#[derive(Drop)]
pub struct GroupDone {
    pub group: u64,
    /// That of the sealed group.
    pub held: u64,
    /// Where the blocks were put that the group made, in the order of its changes.
    pub placed: Listed<Ptr>,
}
