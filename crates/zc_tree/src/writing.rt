// The bytes of a dataset's part.
ghost use Rattle.std.specs.Prelude.{◌≡◌, ◌++◌, ◌<◌, ◌^◌, length, OnOk};
ghost use Rattle.std.specs.List.{AllByRecursion};
ghost use Rattle.zc_wire.specs.Numbers.{u32_bytes};
ghost use Rattle.zc_tree.specs.Spelling.{name_bytes, log_bytes, entry_bytes, entries_bytes, file_bytes, files_bytes, dataset_bytes, HasFileWidths, HasDatasetWidths};

use crate::{Dataset, File, LogState};
use zc_blkptr::{Ptr, Slot, encode};
use zc_num::{Name, NoMemory, Ordered};
use zc_wire::{put_bytes, put_u32, put_u64};

/// Puts the bytes of the dataset's part after those of `out`.
#[tactic(auto, unfolding(crate::specs::Spelling::dataset_bytes))]
pub fn put_dataset(dataset: &Dataset, out: &mut Vec<u8>) -> Result<(), NoMemory>
    requires { HasDatasetWidths dataset.now }
    ensures { OnOk result (out.new.items ≡ out.old.items ++ dataset_bytes dataset.now) }
{
    put_u64(out, dataset.id)?;
    put_u32(out, dataset.slot)?;
    put_name(&dataset.name, out)?;
    put_u64(out, dataset.next_file)?;
    put_log(&dataset.log, out)?;
    put_files(dataset.files.as_slice(), out)
}

// Puts a name with its length in front.
#[tactic(auto, unfolding(crate::specs::Spelling::name_bytes))]
fn put_name(name: &Name, out: &mut Vec<u8>) -> Result<(), NoMemory>
    requires { length name.now < 2 ^ 32 }
    ensures { OnOk result (out.new.items ≡ out.old.items ++ name_bytes name.now) }
{
    put_u32(out, name.len() as u32)?;
    put_bytes(out, name.bytes())
}

// Puts the state of a log.
#[tactic(auto, unfolding(crate::specs::Spelling::log_bytes))]
fn put_log(log: &LogState, out: &mut Vec<u8>) -> Result<(), NoMemory>
    ensures { OnOk result (out.new.items ≡ out.old.items ++ log_bytes log.now) }
{
    match *log {
        LogState::Normal => put_u32(out, 0),
        LogState::Claimed { epoch, blocks } => {
            put_u32(out, 1)?;
            put_u64(out, epoch)?;
            put_u32(out, blocks)
        }
    }
}

// Puts the files with their number in front.
fn put_files(files: &[File], out: &mut Vec<u8>) -> Result<(), NoMemory>
    requires few { length files.now < 2 ^ 32 }
    requires each { AllByRecursion HasFileWidths files.now }
    ensures { OnOk result (out.new.items ≡ out.old.items ++ (u32_bytes (length files.now) ++ files_bytes files.now)) }
{
    put_u32(out, files.len() as u32)?;
    for file in files {
        put_file(file, out)?;
    }
    Ok(())
}

// Puts a file.
#[tactic(auto, unfolding(crate::specs::Spelling::file_bytes))]
fn put_file(file: &File, out: &mut Vec<u8>) -> Result<(), NoMemory>
    requires { HasFileWidths file.now }
    ensures { OnOk result (out.new.items ≡ out.old.items ++ file_bytes file.now) }
{
    put_u64(out, file.id)?;
    put_name(&file.name, out)?;
    put_u64(out, file.size)?;
    put_entries(&file.slots, out)
}

// Puts the entries of a file with their number in front.
fn put_entries(slots: &Ordered<Ptr>, out: &mut Vec<u8>) -> Result<(), NoMemory>
    requires { length slots.now < 2 ^ 32 }
    ensures { OnOk result (out.new.items ≡ out.old.items ++ (u32_bytes (length slots.now) ++ entries_bytes slots.now)) }
{
    put_u32(out, slots.len() as u32)?;
    for (block, ptr) in slots.iter() {
        put_entry(*block, ptr, out)?;
    }
    Ok(())
}

// Puts a block's number and its pointer.
#[tactic(auto, unfolding(crate::specs::Spelling::entry_bytes))]
fn put_entry(block: u32, ptr: &Ptr, out: &mut Vec<u8>) -> Result<(), NoMemory>
    ensures { OnOk result (out.new.items ≡ out.old.items ++ entry_bytes (block, ptr.now)) }
{
    let mut bytes = [0u8; 40];
    encode(&Slot::At(*ptr), &mut bytes);
    put_u32(out, block)?;
    put_bytes(out, &bytes)
}
