// A file's size that is set.
//
// The block in which the file is trimmed is made first, and only then is the file changed: so where memory is wanting, the file is as
// before.
ghost use Rattle.std.specs.Prelude.{◌≡◌, ◌/◌, ◌<◌, ◌^◌, ◌≤◌, IfOk, OnOk, OnErr, IsTrue, if◌then◌else◌, Some, None};
ghost use Rattle.zc_plain.specs.PlainPool.{block_at, is_made, blocks_of_size};
ghost use Rattle.zc_plain.specs.Truncated.{is_trimmed, trimmed_block, truncated};
ghost use Rattle.zc_plain.specs.IsPlain.{IsPlainFile};

use crate::reading::{block_bytes, is_made};
use crate::writing::resize_blocks;
use crate::{PlainBlock, PlainFile};
use std::alloc::Global;
use zc_num::{BLOCK, Boxed, Listed, NoMemory};

/// Whether the file is trimmed inside a block that is no hole, once it has the size.
pub fn is_trimmed(file: &PlainFile, size: u64) -> bool
    ensures { result ≡ is_trimmed file.now.size size file.now.blocks (size / 4096) }
{
    size < file.size && size % 4096 != 0 && is_made(&file.blocks, size / 4096)
}

/// Gives the file the size. A block that is trimmed is made anew by the command with the number.
///
/// # Errors
/// Want of memory; the file is as before.
pub fn truncate_file(
    alloc: Global,
    file: &mut PlainFile,
    number: u64,
    size: u64,
) -> Result<(), NoMemory>
    requires plain { IsPlainFile file.old }
    requires fits { size ≤ 2 ^ 62 }
    ensures ok { OnOk result (file.new ≡ truncated number size file.old) }
    ensures err { OnErr result (file.new ≡ file.old) }
{
    let trimmed = trimmed_of(alloc, file, number, size)?;
    resize_blocks(alloc, &mut file.blocks, size.div_ceil(4096) as usize)?;
    match trimmed {
        None => {}
        Some(block) => file.blocks.set((size / 4096) as usize, block),
    }
    file.size = size;
    Ok(())
}

// The block in which the file is trimmed, made anew, where there is one.
fn trimmed_of(
    alloc: Global,
    file: &PlainFile,
    number: u64,
    size: u64,
) -> Result<Option<PlainBlock>, NoMemory>
    ensures { IfOk result (λ trimmed. trimmed ≡ (if is_trimmed file.now.size size file.now.blocks (size / 4096) then Some (trimmed_block number size file.now.blocks (size / 4096)) else None)) }
{
    if !is_trimmed(file, size) {
        return Ok(None);
    }
    let block = trimmed_block(alloc, &file.blocks, number, size)?;
    Ok(Some(block))
}

// The block inside which the size lies, with bytes 0 from there on.
#[tactic(auto, unfolding(crate::specs::Truncated::trimmed_block))]
fn trimmed_block(
    alloc: Global,
    blocks: &Listed<PlainBlock>,
    number: u64,
    size: u64,
) -> Result<PlainBlock, NoMemory>
    ensures { IfOk result (λ block. block ≡ trimmed_block number size blocks.now (size / 4096)) }
{
    let index = size / 4096;
    let mut block = block_bytes(blocks, index);
    block[(size % 4096) as usize..].fill(0);
    Ok(PlainBlock::Made {
        entry: number,
        index,
        bytes: Boxed::new(alloc, block)?,
    })
}
