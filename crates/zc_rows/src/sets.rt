// Disk sets outside a run: taken from a shelf, laid on one, copied and changed.
ghost use Rattle.std.specs.Prelude.{◌≡◌, IfOk};
ghost use Rattle.zc_rows.specs.Shelves.{IsAllIn, IsUnused};
ghost use Rattle.zc_tape.specs.Memory.{tape_of};

use std::alloc::Global;
use zc_io::{MemoryShelf, Shelf, ShelfFault};
use zc_num::{Name, NoMemory, PlaceAt};
use zc_tape::{DiskSet, Keep, MemoryDisks};

/// The bytes of a place.
pub type Block = [u8; 4096];

/// Takes a set from a shelf, of which so many calls may fail before.
pub fn take_out(shelf: &mut MemoryShelf, name: &Name, failing: usize) -> Option<MemoryDisks> {
    for _ in 0..failing {
        match shelf.take(name) {
            Ok(set) => return Some(set),
            Err(ShelfFault::Failed) => {}
            Err(_) => return None,
        }
    }
    shelf.take(name).ok()
}

/// Lays a set on a shelf, where none lies under the name.
pub fn lay(shelf: &mut MemoryShelf, name: &Name, set: MemoryDisks) -> Result<(), NoMemory>
    requires all_in { IsAllIn shelf.old }
    requires unused { IsUnused set }
    ensures all_in { IsAllIn shelf.new }
{
    if shelf.disk(name).is_some() {
        return Ok(());
    }
    match shelf.put(name, set) {
        Ok(()) => Ok(()),
        Err((fault, _)) => Err(fault),
    }
}

/// The set as it reads, where no write of it has failed.
pub fn copied(alloc: Global, set: &MemoryDisks) -> Result<MemoryDisks, NoMemory> {
    let calls = set.calls();
    let choice = vec![in alloc; Keep::New; calls as usize]?;
    set.leave(calls, &choice)
}

/// Reads a place, where it is there.
pub fn block_of(set: &mut MemoryDisks, at: &PlaceAt) -> Option<Block> {
    if at.device >= set.devices() || at.place >= set.places() {
        return None;
    }
    let mut block = [0; 4096];
    match set.read(at.device, at.place, &mut block) {
        Ok(()) => Some(block),
        Err(_) => None,
    }
}

/// Puts bytes into a place, where it is there, of a set without a call on its tape.
pub fn set_block(set: &mut MemoryDisks, at: &PlaceAt, block: &Block) -> bool
    ensures calls { (tape_of set.new).calls ≡ (tape_of set.old).calls }
{
    if at.device >= set.devices() || at.place >= set.places() || set.calls() != 0 {
        return false;
    }
    set.put(at.device, at.place, block);
    true
}

/// Whether all bytes are zeros.
pub fn is_zero(block: &Block) -> bool {
    block.iter().all(|byte| *byte == 0)
}

// Copies a place that doesn't hold zeros.
fn copy_place(from: &mut MemoryDisks, to: &mut MemoryDisks, at: &PlaceAt)
    ensures calls { (tape_of to.new).calls ≡ (tape_of to.old).calls }
{
    if let Some(block) = block_of(from, at)
        && !is_zero(&block)
    {
        let _ = set_block(to, at, &block);
    }
}

// Copies the places of a device.
fn copy_device(from: &mut MemoryDisks, to: &mut MemoryDisks, device: u32)
    ensures calls { (tape_of to.new).calls ≡ (tape_of to.old).calls }
{
    for place in 0..from.places() {
        copy_place(from, to, &PlaceAt { device, place });
    }
}

/// A set with the same bytes, of whose calls those with these numbers fail.
pub fn with_failing(
    alloc: Global,
    mut set: MemoryDisks,
    failing: &[u64],
) -> Result<MemoryDisks, NoMemory>
    ensures unused { IfOk result (λ copy. IsUnused copy) }
{
    let mut copy = MemoryDisks::new(alloc, set.devices(), set.places(), failing)?;
    for device in 0..set.devices() {
        copy_device(&mut set, &mut copy, device);
    }
    Ok(copy)
}
