// One change, made in a tree.
ghost use Rattle.std.specs.Prelude.{◌≡◌, ◌+◌, ◌<◌, IsTrue, IfOk, OnOk, Some, slice_get, length};
ghost use Rattle.zc_num.specs.Words.{change_at};
ghost use Rattle.zc_tree.specs.declared.tree.File.{File};
ghost use Rattle.zc_tree.specs.declared.tree.Dataset.{Dataset};
ghost use Rattle.zc_heart.specs.Changes.{change_by, without, number_of_dataset, number_of_file, with_dataset, with_file, with_slot, changed};
ghost use Rattle.zc_apply.specs.InParts.{by_number, in_one_file, in_one_dataset, Rises, AreRising};

use crate::rising::places_of;
use std::alloc::Global;
use std::mem;
use zc_blkptr::Ptr;
use zc_heart::{Change, Now};
use zc_num::{Listed, Name, NoMemory, Ordered};
use zc_tree::{Dataset, File, LogState, Tree};

/// Makes the change in the tree. Bytes that the group made stand where the pointer says. Where the files' numbers are known to
/// rise, a file is found by halves.
#[tactic(auto, unfolding(zc_heart::specs::Changes::changed))]
pub(crate) fn make_change(
    alloc: Global,
    tree: &mut Tree,
    rising: bool,
    change: &Change,
    ptr: Ptr,
) -> Result<(), NoMemory>
    requires { IsTrue rising → AreRising tree.old.datasets }
    ensures { OnOk result (tree.new ≡ changed change.now ptr tree.old) }
{
    match change {
        Change::MakeDataset { id, slot, name } => add_dataset(alloc, tree, *id, *slot, name),
        Change::DropDataset { id } => {
            drop_dataset(alloc, &mut tree.datasets, *id);
            Ok(())
        }
        Change::MakeFile { dataset, .. } => {
            change_datasets(alloc, &mut tree.datasets, rising, *dataset, change, ptr)
        }
        Change::DropFile { dataset, .. } => {
            change_datasets(alloc, &mut tree.datasets, rising, *dataset, change, ptr)
        }
        Change::Size { dataset, .. } => {
            change_datasets(alloc, &mut tree.datasets, rising, *dataset, change, ptr)
        }
        Change::Put { dataset, .. } => {
            change_datasets(alloc, &mut tree.datasets, rising, *dataset, change, ptr)
        }
    }
}

// The number after this one. After the last number of all there is none.
fn next_number(id: u64) -> Result<u64, NoMemory>
    ensures { IfOk result (λ next. next ≡ id + 1) }
{
    id.checked_add(1).ok_or(NoMemory)
}

// Adds a dataset without files after the others.
fn add_dataset(
    alloc: Global,
    tree: &mut Tree,
    id: u64,
    slot: u32,
    name: &Name,
) -> Result<(), NoMemory>
    ensures { OnOk result (tree.new ≡ with_dataset id slot name.now tree.old) }
{
    let next = next_number(id)?;
    let name = name.clone()?;
    tree.datasets.push(Dataset {
        id,
        slot,
        name,
        next_file: 1,
        log: LogState::Normal,
        files: Listed::new(alloc),
    })?;
    tree.next_dataset = next;
    Ok(())
}

// Drops each dataset with the number.
fn drop_dataset(alloc: Global, datasets: &mut Listed<Dataset>, id: u64)
    ensures { datasets.new ≡ without number_of_dataset id datasets.old }
{
    let mut kept = mem::replace(datasets, Listed::new(alloc)).into_vec();
    keep_other_datasets(&mut kept, id);
    *datasets = Listed::from_vec(kept);
}

fn keep_other_datasets(datasets: &mut Vec<Dataset>, id: u64)
    ensures { datasets.new.items ≡ without number_of_dataset id datasets.old.items }
{
    datasets.retain(|dataset| dataset.id != id);
}

// Makes the change in each dataset with the number.
fn change_datasets(
    alloc: Global,
    datasets: &mut Listed<Dataset>,
    rising: bool,
    id: u64,
    change: &Change,
    ptr: Ptr,
) -> Result<(), NoMemory>
    requires { IsTrue rising → AreRising datasets.old }
    ensures { OnOk result (datasets.new ≡ change_by number_of_dataset id (in_one_dataset change.now ptr) datasets.old) }
{
    for k in 0..datasets.len() {
        change_dataset_at(alloc, datasets, k, rising, id, change, ptr)?;
    }
    Ok(())
}

// Makes the change in the dataset at the place, where it has the number.
fn change_dataset_at(
    alloc: Global,
    datasets: &mut Listed<Dataset>,
    k: usize,
    rising: bool,
    id: u64,
    change: &Change,
    ptr: Ptr,
) -> Result<(), NoMemory>
    requires there { k < length datasets.old }
    requires known { (dataset : Dataset) → slice_get datasets.old k ≡ Some dataset → IsTrue rising → Rises dataset.files }
    ensures { OnOk result (datasets.new ≡ change_at (by_number number_of_dataset id (in_one_dataset change.now ptr)) k datasets.old) }
{
    change_if_dataset(alloc, datasets.at_mut(k), rising, id, change, ptr)
}

// Makes the change in the dataset, where it has the number.
fn change_if_dataset(
    alloc: Global,
    dataset: &mut Dataset,
    rising: bool,
    id: u64,
    change: &Change,
    ptr: Ptr,
) -> Result<(), NoMemory>
    requires { IsTrue rising → Rises dataset.old.files }
    ensures { OnOk result (dataset.new ≡ by_number number_of_dataset id (in_one_dataset change.now ptr) dataset.old) }
{
    if dataset.id != id {
        return Ok(());
    }
    change_dataset(alloc, dataset, rising, change, ptr)
}

// Makes the change in the dataset.
fn change_dataset(
    alloc: Global,
    dataset: &mut Dataset,
    rising: bool,
    change: &Change,
    ptr: Ptr,
) -> Result<(), NoMemory>
    requires { IsTrue rising → Rises dataset.old.files }
    ensures { OnOk result (dataset.new ≡ in_one_dataset change.now ptr dataset.old) }
{
    match change {
        Change::MakeDataset { .. } => Ok(()),
        Change::DropDataset { .. } => Ok(()),
        Change::MakeFile { file, name, .. } => add_file(alloc, dataset, *file, name),
        Change::DropFile { file, .. } => {
            drop_file(alloc, &mut dataset.files, *file);
            Ok(())
        }
        Change::Size { file, .. } => {
            change_files(&mut dataset.files, rising, *file, change, ptr)
        }
        Change::Put { file, .. } => { change_files(&mut dataset.files, rising, *file, change, ptr) }
    }
}

// Adds a file without bytes after the others.
fn add_file(alloc: Global, dataset: &mut Dataset, id: u64, name: &Name) -> Result<(), NoMemory>
    ensures { OnOk result (dataset.new ≡ with_file id name.now dataset.old) }
{
    let next = next_number(id)?;
    let name = name.clone()?;
    dataset.files.push(File {
        id,
        name,
        size: 0,
        slots: Ordered::new(alloc),
    })?;
    dataset.next_file = next;
    Ok(())
}

// Drops each file with the number.
fn drop_file(alloc: Global, files: &mut Listed<File>, id: u64)
    ensures { files.new ≡ without number_of_file id files.old }
{
    let mut kept = mem::replace(files, Listed::new(alloc)).into_vec();
    keep_other_files(&mut kept, id);
    *files = Listed::from_vec(kept);
}

fn keep_other_files(files: &mut Vec<File>, id: u64)
    ensures { files.new.items ≡ without number_of_file id files.old.items }
{
    files.retain(|file| file.id != id);
}

// Makes the change in each file with the number.
fn change_files(
    files: &mut Listed<File>,
    rising: bool,
    id: u64,
    change: &Change,
    ptr: Ptr,
) -> Result<(), NoMemory>
    requires { IsTrue rising → Rises files.old }
    ensures { OnOk result (files.new ≡ change_by number_of_file id (in_one_file change.now ptr) files.old) }
{
    let (first, last) = places_of(files.as_slice(), rising, id);
    for k in first..last {
        change_file_at(files, k, id, change, ptr)?;
    }
    Ok(())
}

// Makes the change in the file at the place, where it has the number.
fn change_file_at(
    files: &mut Listed<File>,
    k: usize,
    id: u64,
    change: &Change,
    ptr: Ptr,
) -> Result<(), NoMemory>
    requires { k < length files.old }
    ensures { OnOk result (files.new ≡ change_at (by_number number_of_file id (in_one_file change.now ptr)) k files.old) }
{
    change_if_file(files.at_mut(k), id, change, ptr)
}

// Makes the change in the file, where it has the number.
fn change_if_file(file: &mut File, id: u64, change: &Change, ptr: Ptr) -> Result<(), NoMemory>
    ensures { OnOk result (file.new ≡ by_number number_of_file id (in_one_file change.now ptr) file.old) }
{
    if file.id != id {
        return Ok(());
    }
    change_file(file, change, ptr)
}

// Makes the change in the file.
fn change_file(file: &mut File, change: &Change, ptr: Ptr) -> Result<(), NoMemory>
    ensures { OnOk result (file.new ≡ in_one_file change.now ptr file.old) }
{
    match change {
        Change::MakeDataset { .. } => Ok(()),
        Change::DropDataset { .. } => Ok(()),
        Change::MakeFile { .. } => Ok(()),
        Change::DropFile { .. } => Ok(()),
        Change::Size { size, .. } => {
            file.size = *size;
            Ok(())
        }
        Change::Put { block, now, .. } => put(file, *block, now, ptr),
    }
}

// Puts a hole, or the pointer, at the block.
fn put(file: &mut File, block: u32, now: &Now, ptr: Ptr) -> Result<(), NoMemory>
    ensures { OnOk result (file.new ≡ with_slot block now.now ptr file.old) }
{
    match now {
        Now::Hole => {
            file.slots.remove(block);
            Ok(())
        }
        Now::Made { .. } => {
            file.slots.insert(block, ptr)?;
            Ok(())
        }
    }
}
