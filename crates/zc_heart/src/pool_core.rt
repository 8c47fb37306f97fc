// What a heart is made of.
ghost use Rattle.std.specs.Prelude.{◌≡◌};
ghost use Rattle.zc_heart.specs.Core.{pool_of};
ghost use Rattle.zc_heart.specs.Meaning.{dataset_number};

use crate::changes::Change;
use crate::dataset::{dataset_at, dataset_index};
use crate::directory::Directory;
use crate::file::HeartFile;
use crate::stamps::{Numbers, Stamp, Stamps};
use zc_num::{Limits, Listed, Name, Queue};

/// Files under a name.
#[derive(Drop)]
pub struct HeartDataset {
    pub id: u64,
    /// The number of its log area, 0 to 7.
    pub area: u32,
    pub name: Name,
    /// The number of the file that is made next.
    pub next_file: u64,
    /// How many pointers to blocks its files have.
    pub pointers: u64,
    /// Ascending by number.
    pub files: Directory<HeartFile>,
    /// The numbers of files that the open group may have changed, and of files that are gone.
    pub changed: Numbers,
}

/// A group that was sealed and isn't taken in yet.
#[derive(Drop)]
pub struct WaitingGroup {
    pub group: u64,
    /// How many blocks stood in the pool as it was sealed, a shared one counted once.
    pub held: u64,
    /// How many blocks of files it made, each counted once.
    pub made: u64,
    /// The stamps of the blocks that its changes put, in their order.
    pub stamps: Listed<Stamp>,
}

/// The files of an open pool.
#[derive(Drop)]
pub struct Core {
    pub limits: Limits,
    /// The number of the open group.
    pub group: u64,
    /// The number of the dataset that is made next.
    pub next_dataset: u64,
    /// Ascending by number.
    pub datasets: Listed<HeartDataset>,
    /// How many files share each block, by its stamp.
    pub stamps: Stamps,
    /// The datasets and files that the open group made and dropped, in order.
    pub log: Listed<Change>,
    /// How many blocks of files the open group made, each counted once.
    pub made: u64,
    /// How many blocks the last finished group holds.
    pub held: u64,
    /// The sealed groups that aren't taken in yet, in order.
    pub waiting: Queue<WaitingGroup>,
    /// The number of the last command that made a block.
    pub last: u64,
}

impl Core {
    /// The number of the dataset of the name, and whether it is mounted, as each one is.
    pub fn dataset(&self, name: &Name) -> Option<(u64, bool)>
        ensures { result ≡ dataset_number name.now (pool_of self.now) }
    {
        match dataset_index(self, name) {
            None => None,
            Some(place) => Some((dataset_at(self, place).id, true)),
        }
    }
}
