// Slots of a file that are put one by one, which no run of the program does.
ghost use Rattle.std.specs.Prelude.{IsTrue, IfSome};
ghost use Rattle.zc_tree.specs.declared.tree.File.{File};
ghost use Rattle.zc_tree.specs.declared.tree.Dataset.{Dataset};
ghost use Rattle.zc_tree.specs.Reach.{StandsAt, StandsFirst, HasFile};

use std::alloc::Global;
use std::test::Fail;
use zc_blkptr::{Ptr, Slot};
use zc_num::{Listed, Name, NoMemory, Ordered};
use zc_tree::{Dataset, File, LogState, Tree};

fn slot_at(place: u32) -> Slot {
    Slot::At(Ptr {
        device: 0,
        place,
        logical: 3,
        physical: 2,
        digest: [7; 16],
    })
}

// A tree with dataset 1, and file 1 in it, which has no block.
fn one_file(alloc: Global) -> Result<Tree, NoMemory> {
    let mut files = Listed::new(alloc);
    files.push(File {
        id: 1,
        name: Name::of(alloc, b"f")?,
        size: 40_960,
        slots: Ordered::new(alloc),
    })?;
    let mut datasets = Listed::new(alloc);
    datasets.push(Dataset {
        id: 1,
        slot: 0,
        name: Name::of(alloc, b"d")?,
        next_file: 2,
        log: LogState::Normal,
        files,
    })?;
    Ok(Tree {
        group: 3,
        next_dataset: 2,
        datasets,
    })
}

// The first dataset with this number.
fn dataset_among(datasets: &[Dataset], id: u64) -> Option<usize>
    ensures { IfSome result (StandsFirst (λ dataset. dataset.id) datasets.now id) }
{
    for index in 0..datasets.len() {
        if datasets[index].id == id {
            return Some(index);
        }
    }
    None
}

// A file with this number.
fn file_among(files: &[File], id: u64) -> Option<usize>
    ensures { IfSome result (StandsAt (λ file. file.id) files.now id) }
{
    for index in 0..files.len() {
        if files[index].id == id {
            return Some(index);
        }
    }
    None
}

// Whether the tree has a file with these numbers.
fn has_file(tree: &Tree, dataset: u64, file: u64) -> bool
    ensures { IsTrue result → HasFile tree.now dataset file }
{
    let datasets = tree.datasets.as_slice();
    match dataset_among(datasets, dataset) {
        None => false,
        Some(index) => file_among(datasets[index].files.as_slice(), file).is_some(),
    }
}

// Changes a slot of a file that is there.
fn put(
    tree: &mut Tree,
    dataset: u64,
    file: u64,
    block: u32,
    slot: Slot,
) -> Result<Option<Slot>, NoMemory> {
    if !has_file(tree, dataset, file) {
        return Ok(None);
    }
    Ok(Some(tree.replace(dataset, file, block, slot)?))
}

#[test]
fn a_slot_that_is_put_gives_the_one_before(rt: HostRuntime) -> Result<(), Fail> {
    let mut tree = one_file(rt.alloc())?;
    let one = slot_at(68);
    let two = slot_at(69);
    assert!(rt; put(&mut tree, 1, 1, 5, one)? == Some(Slot::Hole));
    assert!(rt; put(&mut tree, 1, 1, 3, one)? == Some(Slot::Hole));
    assert!(rt; put(&mut tree, 1, 1, 5, two)? == Some(one));
    assert!(rt; put(&mut tree, 1, 1, 3, Slot::Hole)? == Some(one));
    assert!(rt; put(&mut tree, 1, 2, 5, Slot::Hole)?.is_none());
    assert!(rt; put(&mut tree, 2, 1, 5, Slot::Hole)?.is_none());
    assert_eq!(rt; tree.walk(rt.alloc())?.len(), 1);
    Ok(())
}
