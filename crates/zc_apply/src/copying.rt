// Copies of a tree and of its parts.
ghost use Rattle.std.specs.Prelude.{◌≡◌, IfOk};

use std::alloc::Global;
use zc_blkptr::Ptr;
use zc_num::{Listed, NoMemory, Ordered};
use zc_tree::{Dataset, File, Tree};

/// The same tree once more.
pub(crate) fn copy_tree(alloc: Global, tree: &Tree) -> Result<Tree, NoMemory>
    ensures { IfOk result (λ copy. copy ≡ tree.now) }
{
    Ok(Tree {
        group: tree.group,
        next_dataset: tree.next_dataset,
        datasets: copy_datasets(alloc, &tree.datasets)?,
    })
}

#[tactic(auto, using(crate::proofs::MappedLaws::one_more))]
fn copy_datasets(alloc: Global, datasets: &Listed<Dataset>) -> Result<Listed<Dataset>, NoMemory>
    ensures { IfOk result (λ copy. copy ≡ datasets.now) }
{
    let mut copy = Listed::new(alloc);
    for k in 0..datasets.len() {
        copy.push(copy_dataset(alloc, datasets.at(k))?)?;
    }
    Ok(copy)
}

fn copy_dataset(alloc: Global, dataset: &Dataset) -> Result<Dataset, NoMemory>
    ensures { IfOk result (λ copy. copy ≡ dataset.now) }
{
    Ok(Dataset {
        id: dataset.id,
        slot: dataset.slot,
        name: dataset.name.clone()?,
        next_file: dataset.next_file,
        log: dataset.log,
        files: copy_files(alloc, &dataset.files)?,
    })
}

#[tactic(auto, using(crate::proofs::MappedLaws::one_more))]
fn copy_files(alloc: Global, files: &Listed<File>) -> Result<Listed<File>, NoMemory>
    ensures { IfOk result (λ copy. copy ≡ files.now) }
{
    let mut copy = Listed::new(alloc);
    for k in 0..files.len() {
        copy.push(copy_file(files.at(k))?)?;
    }
    Ok(copy)
}

fn copy_file(file: &File) -> Result<File, NoMemory>
    ensures { IfOk result (λ copy. copy ≡ file.now) }
{
    Ok(File {
        id: file.id,
        name: file.name.clone()?,
        size: file.size,
        slots: copy_slots(&file.slots)?,
    })
}

fn copy_slots(slots: &Ordered<Ptr>) -> Result<Ordered<Ptr>, NoMemory>
    ensures { IfOk result (λ copy. copy ≡ slots.now) }
{
    slots.clone()
}
