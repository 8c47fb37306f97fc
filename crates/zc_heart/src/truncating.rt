// A file's size that is set.
//
// The block that is trimmed is made first, and there is room for it and for the marks of the blocks that go before anything changes: so
// where memory is wanting nothing has changed.
ghost use Rattle.std.specs.Prelude.{◌≡◌, ◌/◌, ◌^◌, ◌<◌, ◌≤◌, IfOk, OnOk, OnErr, ℕ};
ghost use Rattle.zc_plain.specs.PlainPool.{blocks_of_size};
ghost use Rattle.zc_plain.specs.IsPlain.{IsPlainFile};
ghost use Rattle.zc_heart.specs.Core.{IsHeartFile};
ghost use Rattle.zc_heart.specs.File.{bare, CountsChange, Counts, IsNew, StaysFile, StaysCounted, Truncates};
ghost use Rattle.zc_heart.specs.Steps.{HasMarkRoom, KeepsAll, trimmed_bytes, IsCut, PutsCut, DropsFrom};

use crate::block::Block;
use crate::file::HeartFile;
use crate::reading::is_trimmed;
use crate::stamps::{Stamp, Stamps};
use std::alloc::Global;
use zc_num::NoMemory;

/// Gives the file the size. A block that is trimmed is made anew by the command with the number.
///
/// # Errors
/// Want of memory; nothing has changed.
pub fn truncate_into(
    alloc: Global,
    file: &mut HeartFile,
    stamps: &mut Stamps,
    number: u64,
    size: u64,
) -> Result<(), NoMemory>
    requires heart { IsHeartFile file.old }
    requires plain { IsPlainFile (bare file.old) }
    requires fits { size ≤ 2 ^ 28 }
    requires fitted { file.old.size ≤ 2 ^ 28 }
    requires new { IsNew number stamps.old }
    requires counted { Counts stamps.old file.old }
    ensures heart { IsHeartFile file.new }
    ensures ok { OnOk result (Truncates number size file.old file.new) }
    ensures counts { OnOk result (CountsChange stamps.old stamps.new file.old file.new) }
    ensures err { OnErr result (StaysFile file.old file.new) }
    ensures stays { OnErr result (StaysCounted stamps.old stamps.new) }
{
    let trimmed = make_trimmed(alloc, file, stamps, number, size)?;
    make_mark_rooms(file, size)?;
    put_trimmed(file, stamps, number, size, trimmed);
    drop_blocks(file, stamps, size);
    file.set_size(size);
    Ok(())
}

// The block in which the file is trimmed, made anew, where there is one, and room for it.
fn make_trimmed(
    alloc: Global,
    file: &mut HeartFile,
    stamps: &mut Stamps,
    number: u64,
    size: u64,
) -> Result<Option<Block>, NoMemory>
    requires heart { IsHeartFile file.old }
    requires fits { file.old.size ≤ 2 ^ 28 }
    ensures file { KeepsAll file.old file.new }
    ensures stamps { StaysCounted stamps.old stamps.new }
    ensures trimmed { IfOk result (λ trimmed. IsCut number size trimmed file.old file.new stamps.new) }
{
    if !is_trimmed(file, size) {
        return Ok(None);
    }
    let index = (size / 4096) as u32;
    let bytes = trimmed_block(alloc, file, size)?;
    file.make_room(index)?;
    stamps.room(Stamp {
        entry: number,
        index: u64::from(index),
    })?;
    Ok(Some(bytes))
}

// The block inside which the size lies, with bytes 0 from there on.
#[tactic(auto, unfolding(crate::specs::Steps::trimmed_bytes))]
fn trimmed_block(alloc: Global, file: &HeartFile, size: u64) -> Result<Block, NoMemory>
    requires { size < 2 ^ 44 }
    ensures { IfOk result (λ block. block ≡ trimmed_bytes size file.now (size / 4096)) }
{
    let mut bytes = file.block_bytes((size / 4096) as u32);
    bytes[(size % 4096) as usize..].fill(0);
    Block::new(alloc, bytes)
}

// Makes room for the marks of the blocks from the size on.
fn make_mark_rooms(file: &mut HeartFile, size: u64) -> Result<(), NoMemory>
    requires fits { size ≤ 2 ^ 28 }
    requires fitted { file.old.size ≤ 2 ^ 28 }
    ensures kept { KeepsAll file.old file.new }
    ensures room { OnOk result ((k : ℕ) → blocks_of_size size ≤ k → k < blocks_of_size file.old.size → HasMarkRoom k file.new) }
{
    let end = file.size.div_ceil(4096) as u32;
    for k in size.div_ceil(4096) as u32..end {
        file.make_held_room(k)?;
    }
    Ok(())
}

// Puts the block in which the file is trimmed, where there is one. Takes no memory.
fn put_trimmed(
    file: &mut HeartFile,
    stamps: &mut Stamps,
    number: u64,
    size: u64,
    trimmed: Option<Block>,
)
    requires heart { IsHeartFile file.old }
    requires fits { size ≤ 2 ^ 28 }
    requires fitted { file.old.size ≤ 2 ^ 28 }
    requires trimmed { IsCut number size trimmed file.old file.old stamps.old }
    requires counted { Counts stamps.old file.old }
    requires new { IsNew number stamps.old }
    ensures { PutsCut number size file.old file.new stamps.old stamps.new }
{
    match trimmed {
        Some(bytes) => file.put_block(stamps, number, (size / 4096) as u32, bytes),
        None => {}
    }
}

// Makes holes of the blocks from the size on. Takes no memory.
fn drop_blocks(file: &mut HeartFile, stamps: &mut Stamps, size: u64)
    requires heart { IsHeartFile file.old }
    requires fits { size ≤ 2 ^ 28 }
    requires fitted { file.old.size ≤ 2 ^ 28 }
    requires room { (k : ℕ) → blocks_of_size size ≤ k → k < blocks_of_size file.old.size → HasMarkRoom k file.old }
    requires counted { Counts stamps.old file.old }
    ensures { DropsFrom (blocks_of_size size) file.old file.new stamps.old stamps.new }
{
    let end = file.size.div_ceil(4096) as u32;
    for k in size.div_ceil(4096) as u32..end {
        file.drop_block(stamps, k);
    }
}
