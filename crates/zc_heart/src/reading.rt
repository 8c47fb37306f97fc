// What a file's bytes are, and what a command would do to its blocks.
ghost use Rattle.std.specs.Prelude.{◌≡◌, ◌+◌, ◌-◌, ◌*◌, ◌/◌, ◌^◌, ◌<◌, ◌≤◌, ◌++◌, min, length, take, drop, IfOk, OnOk};
ghost use Rattle.zc_plain.specs.PlainPool.{bytes_of_block, bytes_from};
ghost use Rattle.zc_plain.specs.Answer.{holes_touched};
ghost use Rattle.zc_plain.specs.Truncated.{is_trimmed};
ghost use Rattle.zc_heart.specs.Core.{plain_blocks, IsHeartFile};
ghost use Rattle.zc_heart.specs.File.{bare, unmade_in};
ghost use Rattle.zc_heart.specs.Steps.{held_at};

use crate::file::{HeartFile, zeros};
use std::alloc::Global;
use zc_num::{BLOCK, Bytes, NoMemory};

/// The file's bytes from the offset on, at most `length` of them. Each is copied once.
///
/// # Errors
/// Want of memory.
pub fn bytes_from(
    alloc: Global,
    file: &HeartFile,
    offset: u64,
    length: u64,
) -> Result<Bytes, NoMemory>
    requires { file.now.size ≤ 2 ^ 28 }
    ensures { IfOk result (λ bytes. bytes ≡ bytes_from offset length (bare file.now)) }
{
    let count = length.min(file.size.saturating_sub(offset)) as usize;
    let mut bytes = Vec::with_capacity(alloc, count)?;
    while bytes.len() < count {
        let at = offset + bytes.len() as u64;
        let start = (at % 4096) as usize;
        let part = (BLOCK - start).min(count - bytes.len());
        push_part(&mut bytes, file, (at / 4096) as u32, start, part)?;
    }
    Ok(Bytes::from_vec(bytes))
}

// Adds so many bytes of the block with the number, from the byte `start` on.
fn push_part(
    bytes: &mut Vec<u8>,
    file: &HeartFile,
    index: u32,
    start: usize,
    count: usize,
) -> Result<(), NoMemory>
    requires { start + count ≤ 4096 }
    ensures pushed { OnOk result (bytes.new.items ≡ bytes.old.items ++ take count (drop start (bytes_of_block (held_at index file.now)))) }
    ensures whole { length (bytes_of_block (held_at index file.now)) ≡ 4096 }
{
    match file.blocks.get(index) {
        Some(Some(held)) => push_run(bytes, held.bytes.bytes(), start, count),
        _ => push_run(bytes, &zeros(), start, count),
    }
}

// Adds so many bytes of these, from the byte `start` on.
fn push_run(
    bytes: &mut Vec<u8>,
    block: &[u8; BLOCK],
    start: usize,
    count: usize,
) -> Result<(), NoMemory>
    requires { start + count ≤ 4096 }
    ensures pushed { OnOk result (bytes.new.items ≡ bytes.old.items ++ take count (drop start block.now)) }
    ensures whole { length block.now ≡ 4096 }
{
    bytes.extend_from_slice(&block[start..start + count])?;
    Ok(())
}

/// How many of the blocks are holes that so many bytes from the offset on touch, of which there are some.
#[tactic(auto, unfolding(zc_plain::specs::Answer::holes_touched), using(zc_num::proofs::Each::each_none, zc_num::proofs::Each::each_more, zc_plain::proofs::Counted::counted_push, crate::proofs::HeldLaws::block_of_heart))]
pub fn holes_touched(file: &HeartFile, offset: u64, length: u64) -> u64
    requires heart { IsHeartFile file.now }
    requires some { 0 < length }
    requires fits { offset + length ≤ 2 ^ 28 }
    ensures { result ≡ holes_touched offset length (plain_blocks file.now) }
{
    let first = (offset / 4096) as u32;
    let count = (offset + length).div_ceil(4096) as u32 - first;
    let mut holes = 0;
    for k in 0..count {
        if !file.is_held(first + k) {
            holes += 1;
        }
    }
    holes
}

/// How many of so many blocks from `first` on the open group didn't make.
#[tactic(auto, using(zc_num::proofs::Each::each_none, zc_num::proofs::Each::each_more, zc_plain::proofs::Counted::counted_push))]
pub fn unmade(file: &HeartFile, first: u32, count: u32) -> u64
    requires { first + count < 2 ^ 32 }
    ensures { result ≡ unmade_in first count file.now }
{
    let mut unmade = 0;
    for k in 0..count {
        if !file.is_made(first + k) {
            unmade += 1;
        }
    }
    unmade
}

/// Whether the file is trimmed inside a block that is no hole, once it has the size.
#[tactic(auto, using(crate::proofs::ReadLaws::uncut_past, crate::proofs::ReadLaws::uncut_between, crate::proofs::ReadLaws::trimmed_where_held, crate::proofs::HeldLaws::block_of_heart))]
pub fn is_trimmed(file: &HeartFile, size: u64) -> bool
    requires heart { IsHeartFile file.now }
    requires fits { file.now.size ≤ 2 ^ 28 }
    ensures { result ≡ is_trimmed file.now.size size (plain_blocks file.now) (size / 4096) }
{
    if file.size <= size {
        return false;
    }
    if size % 4096 == 0 {
        return false;
    }
    file.is_held((size / 4096) as u32)
}
