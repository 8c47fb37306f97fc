// Whether a tree has the datasets, files and blocks of a plain pool.

use zc_plain::{PlainBlock, PlainDataset, PlainFile, PlainPool};
use zc_tree::{Dataset, File, Tree};

// How many blocks the file has that are no holes, if the tree's file has just those.
fn count_same(plain: &PlainFile, file: &File) -> Option<u64> {
    let mut count: u64 = 0;
    for k in 0..plain.blocks.len() {
        let index = u32::try_from(k).ok()?;
        match plain.blocks.get(k) {
            Some(PlainBlock::Made { .. }) if file.slots.get(index).is_some() => {
                count = count.saturating_add(1);
            }
            Some(PlainBlock::Hole) if file.slots.get(index).is_none() => {}
            _ => return None,
        }
    }
    if file.slots.len() as u64 == count {
        Some(count)
    } else {
        None
    }
}

// The same of one file, its number, its name and its size.
fn count_file(plain: &PlainFile, file: &File) -> Option<u64> {
    if plain.id == file.id && plain.name == file.name && plain.size == file.size {
        count_same(plain, file)
    } else {
        None
    }
}

// The same of one dataset.
fn count_dataset(plain: &PlainDataset, dataset: &Dataset) -> Option<u64> {
    if plain.id != dataset.id
        || plain.name != dataset.name
        || plain.next_file != dataset.next_file
        || plain.files.len() != dataset.files.len()
    {
        return None;
    }
    let mut count: u64 = 0;
    for k in 0..plain.files.len() {
        let more = count_file(plain.files.get(k)?, dataset.files.get(k)?)?;
        count = count.saturating_add(more);
    }
    Some(count)
}

/// How many blocks the pool holds, if the tree has just its datasets, files and blocks.
pub fn count_pool(plain: &PlainPool, tree: &Tree) -> Option<u64> {
    if plain.next_dataset != tree.next_dataset || plain.datasets.len() != tree.datasets.len() {
        return None;
    }
    let mut count: u64 = 0;
    for k in 0..plain.datasets.len() {
        let more = count_dataset(plain.datasets.get(k)?, tree.datasets.get(k)?)?;
        count = count.saturating_add(more);
    }
    Some(count)
}
