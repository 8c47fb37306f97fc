// The change of one slot.
ghost use Rattle.std.specs.Prelude.{◌≡◌, ◌<◌, IfOk, IfSome, OnOk, OnErr, Some, slice_get, slice_set, length, ℕ};
ghost use Rattle.zc_tree.specs.declared.tree.File.{File};
ghost use Rattle.zc_tree.specs.declared.tree.Dataset.{Dataset};
ghost use Rattle.zc_tree.specs.Reach.{slot_of, slot_at, with_slot, StandsAt, StandsFirst, Path, IsPath, HasFile, Replaces};

use crate::{Dataset, File, Tree};
use zc_blkptr::{Ptr, Slot};
use zc_num::{Listed, NoMemory};

impl Tree {
    /// Puts `slot` at the block of the file with these numbers, which is there, and gives what was there before. Where memory is
    /// wanting, the tree is as before. Takes logarithmic time in the files of the dataset, where they ascend, and in the file's
    /// blocks.
    pub fn replace(
        &mut self,
        dataset: u64,
        file: u64,
        block: u32,
        slot: Slot,
    ) -> Result<Slot, NoMemory>
        requires { HasFile self.old dataset file }
        ensures replaced { IfOk result (λ before. Replaces self.old self.new dataset file block slot before) }
        ensures err { OnErr result (self.new ≡ self.old) }
    {
        let (dataset_index, file_index) = self.path_of(dataset, file);
        put_in_dataset(&mut self.datasets, dataset_index, file_index, block, slot)
    }

    // Where the dataset and the file with these numbers stand.
    fn path_of(&self, dataset: u64, file: u64) -> (usize, usize)
        requires { HasFile self.now dataset file }
        ensures { (path : Path) × IsPath self.now dataset file path × (result.0 ≡ path.dataset_index) × (result.1 ≡ path.file_index) }
    {
        let datasets = self.datasets.as_slice();
        let dataset_index = dataset_place(datasets, dataset);
        let file_index = file_place(datasets[dataset_index].files.as_slice(), file);
        (dataset_index, file_index)
    }
}

// Puts the slot at the block of a file of a dataset, and gives what was there before.
fn put_in_dataset(
    datasets: &mut Listed<Dataset>,
    dataset_index: usize,
    file_index: usize,
    block: u32,
    slot: Slot,
) -> Result<Slot, NoMemory>
    requires { (dataset : Dataset) × (file : File) × (slice_get datasets.old dataset_index ≡ Some dataset) × (slice_get dataset.files file_index ≡ Some file) }
    ensures put { (dataset : Dataset) (file : File) → slice_get datasets.old dataset_index ≡ Some dataset → slice_get dataset.files file_index ≡ Some file →
        IfOk result (λ before. (before ≡ slot_at block file) × (datasets.new ≡ slice_set datasets.old dataset_index (record dataset { files = slice_set dataset.files file_index (with_slot block slot file) }))) }
    ensures err { OnErr result (datasets.new ≡ datasets.old) }
{
    put_in_file(
        &mut datasets.at_mut(dataset_index).files,
        file_index,
        block,
        slot,
    )
}

// Puts the slot at the block of one of the files, and gives what was there before.
fn put_in_file(
    files: &mut Listed<File>,
    index: usize,
    block: u32,
    slot: Slot,
) -> Result<Slot, NoMemory>
    requires { index < length files.old }
    ensures put { (file : File) → slice_get files.old index ≡ Some file → IfOk result (λ before. (before ≡ slot_at block file) × (files.new ≡ slice_set files.old index (with_slot block slot file))) }
    ensures err { OnErr result (files.new ≡ files.old) }
{
    put_slot(files.at_mut(index), block, slot)
}

// Where the first dataset with this number stands.
fn dataset_place(datasets: &[Dataset], id: u64) -> usize
    requires { (index : ℕ) × StandsAt (λ dataset. dataset.id) datasets.now id index }
    ensures { StandsFirst (λ dataset. dataset.id) datasets.now id result }
{
    for index in 0..datasets.len() {
        if datasets[index].id == id {
            return index;
        }
    }
    unreachable!()
}

// Where a file with this number stands. Where the numbers ascend, it is found by halves.
fn file_place(files: &[File], id: u64) -> usize
    requires { (index : ℕ) × StandsAt (λ file. file.id) files.now id index }
    ensures { StandsAt (λ file. file.id) files.now id result }
{
    if let Some(index) = place_by_halves(files, id) {
        return index;
    }
    for index in 0..files.len() {
        if files[index].id == id {
            return index;
        }
    }
    unreachable!()
}

// Where a file with this number stands, if the numbers ascend and it is there; a place that is found is always right.
fn place_by_halves(files: &[File], id: u64) -> Option<usize>
    ensures { IfSome result (StandsAt (λ file. file.id) files.now id) }
{
    let mut low = 0;
    let mut high = files.len();
    while low < high {
        let middle = low + (high - low) / 2;
        let found = files[middle].id;
        if found == id {
            return Some(middle);
        }
        if found < id {
            low = middle + 1;
        } else {
            high = middle;
        }
    }
    None
}

// Puts the slot at the block of a file, and gives what was there before.
fn put_slot(file: &mut File, block: u32, slot: Slot) -> Result<Slot, NoMemory>
    ensures before { IfOk result (λ before. before ≡ slot_at block file.old) }
    ensures after { OnOk result (file.new ≡ with_slot block slot file.old) }
    ensures err { OnErr result (file.new ≡ file.old) }
{
    match slot {
        Slot::Hole => Ok(slot_of(file.slots.remove(block))),
        Slot::At(ptr) => Ok(slot_of(file.slots.insert(block, ptr)?)),
    }
}

// The slot of an entry that is there or not.
fn slot_of(entry: Option<Ptr>) -> Slot
    ensures { result ≡ slot_of entry }
{
    match entry {
        None => Slot::Hole,
        Some(ptr) => Slot::At(ptr),
    }
}
