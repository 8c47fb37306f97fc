// The bytes of blocks and files.
ghost use Rattle.std.specs.Prelude.{◌≡◌, ◌+◌, ◌-◌, ◌*◌, ◌^◌, ◌<◌, ◌≤◌, min, length, IfOk};
ghost use Rattle.zc_num.specs.Words.{each};
ghost use Rattle.zc_plain.specs.PlainPool.{zeros, bytes_of_block, block_at, is_made, made_count, byte_of, bytes_from};

use crate::{PlainBlock, PlainFile};
use std::alloc::Global;
use zc_num::{BLOCK, Bytes, Listed, NoMemory};

// 4,096 bytes 0.
#[tactic(auto, unfolding(crate::specs::PlainPool::zeros))]
fn zeros() -> [u8; BLOCK]
    ensures { result ≡ zeros }
{
    [0; BLOCK]
}

// The bytes of the block with the index.
pub fn block_bytes(blocks: &Listed<PlainBlock>, index: u64) -> [u8; BLOCK]
    ensures value { result ≡ bytes_of_block (block_at index blocks.now) }
    ensures whole { length result ≡ 4096 }
{
    match blocks.get(index as usize) {
        Some(PlainBlock::Made { bytes, .. }) => *bytes.block(),
        _ => zeros(),
    }
}

// Whether the block with the index is no hole.
pub fn is_made(blocks: &Listed<PlainBlock>, index: u64) -> bool
    ensures { result ≡ is_made (block_at index blocks.now) }
{
    matches!(blocks.get(index as usize), Some(PlainBlock::Made { .. }))
}

// How many of the blocks are no holes.
#[tactic(auto, unfolding(crate::specs::PlainPool::made_count), using(crate::proofs::Counted::counted_block))]
pub fn made_count(blocks: &Listed<PlainBlock>) -> u64
    ensures { result ≡ made_count blocks.now }
{
    let mut count = 0;
    for k in 0..blocks.len() {
        if is_made(blocks, k as u64) {
            count += 1;
        }
    }
    count
}

// Byte `at` of the file.
#[tactic(auto, unfolding(crate::specs::PlainPool::byte_of), using(crate::proofs::Bytes::zero_of_zeros))]
fn byte_of(file: &PlainFile, at: u64) -> u8
    ensures { result ≡ byte_of file.now at }
{
    let place = (at % 4096) as usize;
    match file.blocks.get((at / 4096) as usize) {
        Some(PlainBlock::Made { bytes, .. }) => bytes.block()[place],
        _ => 0,
    }
}

/// The file's bytes from the offset on, at most `length` of them.
///
/// # Errors
/// Want of memory.
#[tactic(auto, using(zc_num::proofs::Each::each_none, zc_num::proofs::Each::each_more))]
pub fn bytes_from(
    alloc: Global,
    file: &PlainFile,
    offset: u64,
    length: u64,
) -> Result<Bytes, NoMemory>
    ensures { IfOk result (λ bytes. bytes ≡ bytes_from offset length file.now) }
{
    let count = length.min(file.size.saturating_sub(offset));
    let mut bytes = Vec::with_capacity(alloc, count as usize)?;
    for k in 0..count {
        bytes.push(byte_of(file, offset + k))?;
    }
    Ok(Bytes::from_vec(bytes))
}
