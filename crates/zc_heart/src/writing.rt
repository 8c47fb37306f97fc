// Bytes that are written into a file.
//
// The blocks that the bytes touch are made first, and there is room for each of them before the first is put: so where memory is
// wanting nothing has changed.
ghost use Rattle.std.specs.Prelude.{◌≡◌, ◌+◌, ◌-◌, ◌*◌, ◌/◌, ◌^◌, ◌<◌, ◌≤◌, ◌&&◌, length, true, IfOk, OnOk, OnErr, IsTrue, ℕ, List, replicate};
ghost use Rattle.zc_num.specs.Words.{each};
ghost use Rattle.zc_num.specs.Blocks.{edited};
ghost use Rattle.zc_plain.specs.PlainPool.{blocks_of_size};
ghost use Rattle.zc_plain.specs.Written.{start_in, part_in};
ghost use Rattle.zc_plain.specs.Putting.{first_touched, touched_count};
ghost use Rattle.zc_plain.specs.IsPlain.{IsPlainFile};
ghost use Rattle.zc_heart.specs.Core.{IsHeartFile};
ghost use Rattle.zc_heart.specs.File.{bare, Marks, CountsChange, Counts, IsNew, StaysFile, StaysCounted, Writes};
ghost use Rattle.zc_heart.specs.Input.{input_bytes};
ghost use Rattle.zc_heart.specs.Steps.{held_at, HasRoom, HasStampRoom, KeepsAll, PutsAll, written_bytes};

use crate::block::Block;
use crate::file::HeartFile;
use crate::stamps::{Stamp, Stamps};
use std::alloc::Global;
use zc_num::{BLOCK, NoMemory, edit_block};

/// The bytes that are written.
#[derive(Clone, Copy)]
pub enum Input<'a> {
    /// These.
    Bytes { bytes: &'a [u8] },
    /// The same one, so many times.
    Repeated { byte: u8, length: u64 },
}

impl<'a> Input<'a> {
    /// How many bytes there are.
    pub fn len(&self) -> u64
        ensures { result ≡ length (input_bytes self.now) }
    {
        match self {
            Input::Bytes { bytes } => bytes.len() as u64,
            Input::Repeated { length, .. } => *length,
        }
    }
}

/// Writes the bytes, of which there are some, into the file from the offset on. They stand there by the command with the number.
///
/// # Errors
/// Want of memory; nothing has changed.
pub fn write_into(
    alloc: Global,
    file: &mut HeartFile,
    stamps: &mut Stamps,
    number: u64,
    offset: u64,
    input: &Input,
) -> Result<(), NoMemory>
    requires heart { IsHeartFile file.old }
    requires plain { IsPlainFile (bare file.old) }
    requires some { 0 < length (input_bytes input.now) }
    requires fits { offset + length (input_bytes input.now) ≤ 2 ^ 28 }
    requires new { IsNew number stamps.old }
    requires counted { Counts stamps.old file.old }
    ensures heart { IsHeartFile file.new }
    ensures ok { OnOk result (Writes number offset (input_bytes input.now) file.old file.new) }
    ensures counts { OnOk result (CountsChange stamps.old stamps.new file.old file.new) }
    ensures err { OnErr result (StaysFile file.old file.new) }
    ensures stays { OnErr result (StaysCounted stamps.old stamps.new) }
{
    let first = (offset / 4096) as u32;
    let end = offset + input.len();
    let count = end.div_ceil(4096) as u32 - first;
    let made = made_blocks(alloc, file, first, count, offset, input)?;
    make_rooms(file, stamps, number, first, count)?;
    file.set_size(file.size.max(end));
    put_blocks(file, stamps, number, first, made);
    Ok(())
}

// So many blocks from `first` on with the bytes written over theirs.
#[tactic(auto, using(zc_num::proofs::Each::each_none, zc_num::proofs::Each::each_more))]
fn made_blocks(
    alloc: Global,
    file: &HeartFile,
    first: u32,
    count: u32,
    offset: u64,
    input: &Input,
) -> Result<Vec<Block>, NoMemory>
    requires fits { first + count < 2 ^ 32 }
    requires first { first ≡ first_touched offset }
    requires count { count ≡ touched_count offset (length (input_bytes input.now)) }
    requires some { 0 < length (input_bytes input.now) }
    ensures { IfOk result (λ made. made.items ≡ each count (λ k. written_bytes offset (input_bytes input.now) file.now (first + k))) }
{
    let mut made = Vec::with_capacity(alloc, count as usize)?;
    for k in 0..count {
        made.push(made_block(alloc, file, first + k, offset, input)?)?;
    }
    Ok(made)
}

// One block, with those of the bytes that stand in it written over its own.
#[tactic(auto, unfolding(crate::specs::Steps::written_bytes))]
fn made_block(
    alloc: Global,
    file: &HeartFile,
    index: u32,
    offset: u64,
    input: &Input,
) -> Result<Block, NoMemory>
    requires begins { offset ≤ index * 4096 + 4096 }
    requires ends { index * 4096 ≤ offset + length (input_bytes input.now) }
    ensures { IfOk result (λ block. block ≡ written_bytes offset (input_bytes input.now) file.now index) }
{
    let mut bytes = file.block_bytes(index);
    edit_part(&mut bytes, index, offset, input);
    Block::new(alloc, bytes)
}

// Writes those of the bytes over the block that stand in the block with the number.
fn edit_part(block: &mut [u8; BLOCK], index: u32, offset: u64, input: &Input)
    requires begins { offset ≤ index * 4096 + 4096 }
    requires ends { index * 4096 ≤ offset + length (input_bytes input.now) }
    ensures { block.new ≡ edited block.old (start_in index offset) (part_in index offset (input_bytes input.now)) }
{
    let first = u64::from(index) * 4096;
    let start = offset.saturating_sub(first) as usize;
    match input {
        Input::Bytes { bytes } => {
            let behind = &bytes[first.saturating_sub(offset) as usize..];
            edit_block(block, start, &behind[..behind.len().min(BLOCK - start)]);
        }
        Input::Repeated { byte, length } => {
            let behind = *length - first.saturating_sub(offset);
            let count = behind.min(4096 - start as u64) as usize;
            fill_block(block, start, count, *byte);
        }
    }
}

// Writes the byte over so many of those of the block, from the byte `from` on.
fn fill_block(block: &mut [u8; BLOCK], from: usize, count: usize, byte: u8)
    requires { from + count ≤ 4096 }
    ensures { block.new ≡ edited block.old from (replicate count byte) }
{
    block[from..from + count].fill(byte);
}

// Makes room for so many blocks of the command from `first` on.
fn make_rooms(
    file: &mut HeartFile,
    stamps: &mut Stamps,
    number: u64,
    first: u32,
    count: u32,
) -> Result<(), NoMemory>
    requires { first + count < 2 ^ 32 }
    ensures file { KeepsAll file.old file.new }
    ensures stamps { StaysCounted stamps.old stamps.new }
    ensures room { OnOk result ((k : ℕ) → first ≤ k → k < first + count → HasRoom k file.new) }
    ensures stamp_room { OnOk result (HasStampRoom number first (first + count) stamps.new) }
{
    for k in 0..count {
        let index = first + k;
        file.make_room(index)?;
        stamps.room(Stamp {
            entry: number,
            index: u64::from(index),
        })?;
    }
    Ok(())
}

// Puts the blocks at `first` and after it, the last one first.
fn put_blocks(file: &mut HeartFile, stamps: &mut Stamps, number: u64, first: u32, made: Vec<Block>)
    requires heart { IsHeartFile file.old }
    requires short { file.old.size < 2 ^ 64 }
    requires within { first + length made.items ≤ blocks_of_size file.old.size }
    requires fits { first + length made.items < 2 ^ 32 }
    requires room { (k : ℕ) → first ≤ k → k < first + length made.items → HasRoom k file.old }
    requires stamp_room { HasStampRoom number first (first + length made.items) stamps.old }
    requires counted { Counts stamps.old file.old }
    requires new { IsNew number stamps.old }
    ensures { PutsAll number first made.items first file.old file.new stamps.old stamps.new }
{
    let mut left = made;
    while let Some(bytes) = left.pop() {
        let index = first + left.len() as u32;
        file.put_block(stamps, number, index, bytes);
    }
}
