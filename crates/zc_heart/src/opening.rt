// The heart of a tree that was read, and the blocks at its pointers.
ghost use Rattle.std.specs.Prelude.{◌≡◌, ◌∷◌, ◌++◌, [], ◌+◌, ◌^◌, ◌<◌, ◌-◌, ℕ, List, map, length, count_by, IfOk, OnOk, Some};
ghost use Rattle.std.specs.List.{AllByRecursion};
ghost use Rattle.zc_num.specs.Ordered.{insert_entry};
ghost use Rattle.zc_tree.specs.Reach.{pointers_of_files, pointers_of_tree};
ghost use Rattle.zc_plain.specs.Charge.{is_stamp, with_each};
ghost use Rattle.zc_blkptr.specs.declared.ptr.Ptr.{Ptr};
ghost use Rattle.zc_heart.specs.Changes.{Where};
ghost use Rattle.zc_heart.specs.Core.{IsCore};
ghost use Rattle.zc_heart.specs.Meaning.{MayOpen, IsOpened};
ghost use Rattle.zc_heart.specs.Noted.{AreWhere};
ghost use Rattle.zc_heart.specs.Opening.{place_number, number_of, stamp_at_ptr, HasRead, AreWhole, IsThere, read_block, with_slots, read_file, read_named, read_dataset, read_core, HasBlocks, MayFollow, MayRead};
ghost use Rattle.zc_heart.specs.Stamps.{AreCounted, files_at, IsAllKnown};

use crate::block::Block;
use crate::directory::Directory;
use crate::file::{HeartFile, HeldBlock};
use crate::pool_core::{Core, HeartDataset};
use crate::stamps::{Numbers, Stamp, Stamps};
use std::alloc::Global;
use std::collections::BTreeMap;
use zc_blkptr::Ptr;
use zc_num::{BLOCK, Boxed, Limits, Listed, NoMemory, Ordered, Queue};
use zc_tree::{Dataset, File, Tree};

/// A block that was read.
#[derive(Drop)]
pub struct HeartBlock {
    pub device: u32,
    pub place: u32,
    pub bytes: Boxed<[u8; BLOCK]>,
}

/// The files of a tree, with the blocks at its pointers. Takes time with the size of the pool.
///
/// # Errors
/// Want of memory.
pub fn open(
    alloc: Global,
    limits: Limits,
    tree: &Tree,
    blocks: Vec<HeartBlock>,
) -> Result<Core, NoMemory>
    requires { MayOpen limits tree.now blocks.items }
    ensures core { IfOk result (λ core. IsCore core) }
    ensures opened { IfOk result (λ core. IsOpened limits tree.now blocks.items core) }
{
    let found = blocks_by_place(alloc, blocks)?;
    hold(alloc, limits, tree, &found)
}

// ---- blocks by their places

// The place as one number.
fn place_number(device: u32, place: u32) -> u64
    ensures { result ≡ place_number device place }
{
    u64::from(device) * (1 << 32) + u64::from(place)
}

// Notes a block at its place.
fn note_block(
    alloc: Global,
    found: &mut BTreeMap<u64, Block>,
    block: HeartBlock,
) -> Result<(), NoMemory>
    ensures noted { OnOk result (found.new.entries ≡ insert_entry (place_number block.device block.place) block.bytes found.old.entries) }
    ensures place { block.place < 2 ^ 32 }
    ensures whole { OnOk result (length block.bytes ≡ 4096) }
{
    let number = place_number(block.device, block.place);
    let held = Block::new(alloc, block.bytes.into_inner())?;
    let _bytes = held.bytes();
    found.insert(number, held)?;
    Ok(())
}

// The blocks by their places; of two at one place the first.
fn blocks_by_place(alloc: Global, blocks: Vec<HeartBlock>) -> Result<BTreeMap<u64, Block>, NoMemory>
    ensures read { IfOk result (λ found. HasRead found.entries blocks.items) }
    ensures whole { IfOk result (λ _. AreWhole blocks.items) }
{
    let mut found = BTreeMap::new(alloc);
    let mut left = Listed::from_vec(blocks);
    while let Some(block) = left.pop() {
        note_block(alloc, &mut found, block)?;
    }
    Ok(found)
}

// ---- the files

// The heart of the tree, where each of its blocks is among those that were found.
fn hold(
    alloc: Global,
    limits: Limits,
    tree: &Tree,
    found: &BTreeMap<u64, Block>,
) -> Result<Core, NoMemory>
    requires group { tree.now.group < 2 ^ 64 - 1 }
    requires datasets { AllByRecursion (MayRead found.now.entries) tree.now.datasets }
    ensures held { IfOk result (λ core. core ≡ read_core found.now.entries limits tree.now core.stamps core.held) }
    ensures files { IfOk result (λ core. (stamp : ℕ × ℕ) → files_at core.stamps stamp ≡ count_by (is_stamp stamp) (map stamp_at_ptr (pointers_of_tree tree.now))) }
    ensures places { (placing : Where) → AllByRecursion (λ (ptr : Ptr). placing 0 (number_of ptr) ≡ ptr) (pointers_of_tree tree.now) → IfOk result (λ core. AreWhere placing core.stamps) }
    ensures known { IfOk result (λ core. IsAllKnown core.stamps) }
    ensures distinct { (list : List (ℕ × ℕ)) → IfOk result (λ core. AreCounted core.stamps list → core.held ≡ length (with_each is_stamp [] list)) }
{
    let ptrs = tree.walk(alloc)?;
    let stamps = count_all(alloc, ptrs.as_slice())?;
    let datasets = hold_datasets(alloc, tree.datasets.as_slice(), found)?;
    let held = stamps.distinct();
    Ok(Core {
        limits,
        group: tree.group + 1,
        next_dataset: tree.next_dataset,
        datasets,
        stamps,
        log: Listed::new(alloc),
        made: 0,
        held,
        waiting: Queue::new(alloc),
        last: 0,
    })
}

// One block of a file at each of the pointers.
fn count_all(alloc: Global, ptrs: &[Ptr]) -> Result<Stamps, NoMemory>
    ensures files { IfOk result (λ stamps. (stamp : ℕ × ℕ) → files_at stamps stamp ≡ count_by (is_stamp stamp) (map stamp_at_ptr ptrs.now)) }
    ensures places { (placing : Where) → AllByRecursion (λ (ptr : Ptr). placing 0 (number_of ptr) ≡ ptr) ptrs.now → IfOk result (λ stamps. AreWhere placing stamps) }
    ensures known { IfOk result (λ stamps. IsAllKnown stamps) }
{
    let mut stamps = Stamps::new(alloc);
    for ptr in ptrs {
        count_one(&mut stamps, ptr)?;
    }
    Ok(stamps)
}

// One more block of a file at the pointer.
fn count_one(stamps: &mut Stamps, ptr: &Ptr) -> Result<(), NoMemory>
    ensures files { OnOk result ((stamp : ℕ × ℕ) → files_at stamps.new stamp ≡ files_at stamps.old stamp + count_by (is_stamp stamp) (stamp_at_ptr ptr.now ∷ [])) }
    ensures places { (placing : Where) → AreWhere placing stamps.old → placing 0 (number_of ptr.now) ≡ ptr.now → OnOk result (AreWhere placing stamps.new) }
    ensures known { IsAllKnown stamps.old → OnOk result (IsAllKnown stamps.new) }
{
    let stamp = Stamp {
        entry: 0,
        index: place_number(ptr.device, ptr.place),
    };
    stamps.insert(stamp, *ptr)
}

// Datasets in order.
fn hold_datasets(
    alloc: Global,
    datasets: &[Dataset],
    found: &BTreeMap<u64, Block>,
) -> Result<Listed<HeartDataset>, NoMemory>
    requires { AllByRecursion (MayRead found.now.entries) datasets.now }
    ensures { IfOk result (λ held. held ≡ map (read_dataset found.now.entries) datasets.now) }
{
    let mut held = Listed::new(alloc);
    for dataset in datasets {
        held.push(hold_dataset(alloc, dataset, found)?)?;
    }
    Ok(held)
}

// A dataset.
fn hold_dataset(
    alloc: Global,
    dataset: &Dataset,
    found: &BTreeMap<u64, Block>,
) -> Result<HeartDataset, NoMemory>
    requires { MayRead found.now.entries dataset.now }
    ensures { IfOk result (λ held. held ≡ read_dataset found.now.entries dataset.now) }
{
    let name = dataset.name.clone()?;
    let pointers = pointers_in(dataset.files.as_slice());
    let files = hold_files(alloc, dataset.files.as_slice(), found)?;
    Ok(HeartDataset {
        id: dataset.id,
        area: dataset.slot,
        name,
        next_file: dataset.next_file,
        pointers,
        files,
        changed: Numbers::new(alloc),
    })
}

// How many pointers the files have.
fn pointers_in(files: &[File]) -> u64
    requires { length (pointers_of_files files.now) < 2 ^ 63 }
    ensures { result ≡ length (pointers_of_files files.now) }
{
    let mut pointers: u64 = 0;
    for file in files {
        pointers += file.slots.len() as u64;
    }
    pointers
}

// Files in order.
fn hold_files(
    alloc: Global,
    files: &[File],
    found: &BTreeMap<u64, Block>,
) -> Result<Directory<HeartFile>, NoMemory>
    requires there { AllByRecursion (HasBlocks found.now.entries) files.now }
    requires follow { MayFollow found.now.entries [] files.now }
    ensures { IfOk result (λ held. held ≡ map (read_named found.now.entries) files.now) }
{
    let mut held = Directory::new(alloc);
    for file in files {
        let name = file.name.clone()?;
        let value = hold_file(alloc, file, found)?;
        held.push(file.id, name, value)?;
    }
    Ok(held)
}

// A file.
fn hold_file(
    alloc: Global,
    file: &File,
    found: &BTreeMap<u64, Block>,
) -> Result<HeartFile, NoMemory>
    requires { HasBlocks found.now.entries file.now }
    ensures { IfOk result (λ held. held ≡ read_file found.now.entries file.now) }
{
    let blocks = hold_blocks(alloc, &file.slots, found)?;
    Ok(HeartFile {
        size: file.size,
        blocks,
        marks: Ordered::new(alloc),
        pointers: file.slots.len() as u64,
        sized: false,
    })
}

// The blocks of a file.
fn hold_blocks(
    alloc: Global,
    slots: &Ordered<Ptr>,
    found: &BTreeMap<u64, Block>,
) -> Result<Ordered<Option<HeldBlock>>, NoMemory>
    requires { AllByRecursion (λ (slot : ℕ × Ptr). IsThere found.now.entries slot.1) slots.now }
    ensures { IfOk result (λ held. held ≡ with_slots found.now.entries [] slots.now) }
{
    let mut held = Ordered::new(alloc);
    for (block, ptr) in slots.iter() {
        held.insert(*block, Some(hold_block(found, ptr)?))?;
    }
    Ok(held)
}

// The block at a pointer. Its bytes are shared.
fn hold_block(found: &BTreeMap<u64, Block>, ptr: &Ptr) -> Result<HeldBlock, NoMemory>
    requires { IsThere found.now.entries ptr.now }
    ensures { IfOk result (λ held. held ≡ read_block found.now.entries ptr.now) }
{
    let number = place_number(ptr.device, ptr.place);
    match found.get(&number) {
        Some(block) => Ok(HeldBlock {
            entry: 0,
            index: number,
            bytes: block.share()?,
        }),
        None => unreachable!(),
    }
}
