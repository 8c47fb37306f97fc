// Bytes that are written into a file.
//
// The blocks that the bytes touch are made first, and only then put into the file: so where memory is wanting, the file is as
// before. The other blocks stay where they are, and none is copied.
ghost use Rattle.std.specs.Prelude.{◌≡◌, ◌+◌, ◌*◌, ◌^◌, ◌<◌, ◌≤◌, length, IfOk, OnOk, OnErr};
ghost use Rattle.zc_plain.specs.Written.{made_block, written};
ghost use Rattle.zc_plain.specs.Putting.{grown, resized, replaced, made_blocks};
ghost use Rattle.zc_plain.specs.IsPlain.{IsPlainFile};

use crate::reading::block_bytes;
use crate::{PlainBlock, PlainFile};
use std::alloc::Global;
use std::mem;
use zc_num::{BLOCK, Boxed, Listed, NoMemory, edit_block};

/// Writes the bytes, of which there are some, into the file from the offset on. They stand there by the command with the number.
///
/// # Errors
/// Want of memory; the file is as before.
#[tactic(auto, using(crate::proofs::Together::put_together))]
pub fn write_into(
    alloc: Global,
    file: &mut PlainFile,
    number: u64,
    offset: u64,
    bytes: &[u8],
) -> Result<(), NoMemory>
    requires plain { IsPlainFile file.old }
    requires some { 0 < length bytes.now }
    requires fits { offset + length bytes.now < 2 ^ 64 }
    ensures ok { OnOk result (file.new ≡ written number offset bytes.now file.old) }
    ensures err { OnErr result (file.new ≡ file.old) }
{
    let made = made_blocks(alloc, &file.blocks, number, offset, bytes)?;
    put_blocks(alloc, &mut file.blocks, (offset / 4096) as usize, made)?;
    file.size = file.size.max(offset + bytes.len() as u64);
    Ok(())
}

// The blocks that the bytes touch, made anew.
#[tactic(auto, unfolding(crate::specs::Putting::made_blocks), using(zc_num::proofs::Each::each_none, zc_num::proofs::Each::each_more))]
fn made_blocks(
    alloc: Global,
    blocks: &Listed<PlainBlock>,
    number: u64,
    offset: u64,
    bytes: &[u8],
) -> Result<Vec<PlainBlock>, NoMemory>
    requires some { 0 < length bytes.now }
    requires fits { offset + length bytes.now < 2 ^ 64 }
    ensures { IfOk result (λ made. made.items ≡ made_blocks number offset bytes.now blocks.now) }
{
    let first = offset / 4096;
    let count = (offset + bytes.len() as u64).div_ceil(4096) - first;
    let mut made = Vec::with_capacity(alloc, count as usize)?;
    for k in 0..count {
        made.push(made_block(alloc, blocks, number, offset, bytes, first + k)?)?;
    }
    Ok(made)
}

// One block, with those of the bytes that stand in it.
#[tactic(auto, unfolding(crate::specs::Written::made_block))]
fn made_block(
    alloc: Global,
    blocks: &Listed<PlainBlock>,
    number: u64,
    offset: u64,
    bytes: &[u8],
    index: u64,
) -> Result<PlainBlock, NoMemory>
    requires begins { offset ≤ index * 4096 + 4096 }
    requires ends { index * 4096 ≤ offset + length bytes.now }
    requires fits { index * 4096 < 2 ^ 64 }
    ensures { IfOk result (λ block. block ≡ made_block number offset bytes.now blocks.now index) }
{
    let first = index * 4096;
    let start = offset.saturating_sub(first) as usize;
    let behind = &bytes[first.saturating_sub(offset) as usize..];
    let part = &behind[..behind.len().min(BLOCK - start)];
    let mut block = block_bytes(blocks, index);
    edit_block(&mut block, start, part);
    Ok(PlainBlock::Made {
        entry: number,
        index,
        bytes: Boxed::new(alloc, block)?,
    })
}

// Puts the blocks in the place of those from `first` on, with holes in front of them where the list is too short.
fn put_blocks(
    alloc: Global,
    blocks: &mut Listed<PlainBlock>,
    first: usize,
    others: Vec<PlainBlock>,
) -> Result<(), NoMemory>
    requires { first + length others.items < 2 ^ 64 }
    ensures ok { OnOk result (blocks.new ≡ replaced first others.items (grown (first + length others.items) blocks.old)) }
    ensures err { OnErr result (blocks.new ≡ blocks.old) }
{
    let mut all = mem::replace(blocks, Listed::new(alloc)).into_vec();
    let put = put_in_vec(&mut all, first, others);
    *blocks = Listed::from_vec(all);
    put
}

// The same in a vector.
#[tactic(auto, unfolding(crate::specs::Putting::replaced), using(crate::proofs::Together::length_grown))]
fn put_in_vec(
    blocks: &mut Vec<PlainBlock>,
    first: usize,
    others: Vec<PlainBlock>,
) -> Result<(), NoMemory>
    requires { first + length others.items < 2 ^ 64 }
    ensures ok { OnOk result (blocks.new.items ≡ replaced first others.items (grown (first + length others.items) blocks.old.items)) }
    ensures err { OnErr result (blocks.new.items ≡ blocks.old.items) }
{
    let mut others = others;
    let end = first + others.len();
    grow(blocks, end)?;
    blocks[first..end].swap_with_slice(&mut others);
    Ok(())
}

/// Gives the list so many blocks: the last ones go, or holes stand after them.
///
/// # Errors
/// Want of memory; the blocks are as before.
#[tactic(auto, unfolding(crate::specs::Putting::resized))]
pub fn resize_blocks(
    alloc: Global,
    blocks: &mut Listed<PlainBlock>,
    count: usize,
) -> Result<(), NoMemory>
    ensures ok { OnOk result (blocks.new ≡ resized count blocks.old) }
    ensures err { OnErr result (blocks.new ≡ blocks.old) }
{
    let mut all = mem::replace(blocks, Listed::new(alloc)).into_vec();
    let grown = grow(&mut all, count);
    *blocks = Listed::from_vec(all);
    grown?;
    blocks.truncate(count);
    Ok(())
}

// Adds holes until there are at least so many blocks.
#[tactic(auto, unfolding(crate::specs::Putting::grown))]
fn grow(blocks: &mut Vec<PlainBlock>, count: usize) -> Result<(), NoMemory>
    ensures ok { OnOk result (blocks.new.items ≡ grown count blocks.old.items) }
    ensures err { OnErr result (blocks.new.items ≡ blocks.old.items) }
{
    let missing = count.saturating_sub(blocks.len());
    blocks.reserve(missing)?;
    for _ in 0..missing {
        blocks.push_reserved(PlainBlock::Hole);
    }
    Ok(())
}
