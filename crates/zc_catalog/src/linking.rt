// The blocks of a chain of places.
ghost use Rattle.std.specs.Prelude.{◌≡◌, ◌+◌, ◌-◌, ◌≤◌, ◌++◌, ◌<◌, length, take, drop, replicate, IfOk};
ghost use Rattle.zc_wire.specs.Numbers.{u32_of};
ghost use Rattle.zc_catalog.specs.Chain.{chain_length, place_bytes, blank, mark_before, link_before, links, next_in};

use std::alloc::Global;
use zc_num::{Boxed, NoMemory, PlaceAt, edit_block};
use zc_wire::{Cursor, bytes_of_u32};

// What stands in place of a next place where there is none.
const END: PlaceAt = PlaceAt {
    device: u32::MAX,
    place: u32::MAX,
};

/// The blocks of the chain over these places that holds the bytes of a catalogue, each for its place.
///
/// # Errors
/// Want of memory.
pub fn link(alloc: Global, bytes: &[u8], at: &[PlaceAt]) -> Result<Vec<Boxed<[u8; 4096]>>, NoMemory>
    requires { length at.now ≡ chain_length (length bytes.now) }
    ensures { IfOk result (λ blocks. blocks.items ≡ links at.now bytes.now) }
{
    let mut made = Vec::with_capacity(alloc, at.len())?;
    let mut rest = bytes;
    for index in 0..at.len() {
        made.push(block_before(alloc, behind(at, index), rest)?)?;
        rest = split_part(rest).1;
    }
    Ok(made)
}

// The places after the one at `index`.
fn behind(at: &[PlaceAt], index: usize) -> &[PlaceAt]
    requires { index < length at.now }
    ensures { result.now ≡ drop (index + 1) at.now }
{
    at.split_at(index + 1).1
}

// The bytes that a block holds, and those after them.
#[tactic(auto, using(crate::proofs::ChainLaws::taken_block, crate::proofs::ChainLaws::dropped_block))]
fn split_part(bytes: &[u8]) -> (&[u8], &[u8])
    ensures front { result.0.now ≡ take 4088 bytes.now }
    ensures back { result.1.now ≡ drop 4088 bytes.now }
    ensures few { length result.0.now ≤ 4088 }
{
    bytes.split_at(bytes.len().min(4088))
}

// The block that these bytes begin, with these places after its own.
#[tactic(auto, using(crate::proofs::ChainLaws::written_before))]
fn block_before(
    alloc: Global,
    places: &[PlaceAt],
    bytes: &[u8],
) -> Result<Boxed<[u8; 4096]>, NoMemory>
    requires { length places.now + 1 ≡ chain_length (length bytes.now) }
    ensures { IfOk result (λ block. block ≡ link_before places.now bytes.now) }
{
    let mut block = Boxed::new(alloc, blank())?;
    write_link(block.get_mut(), &next_before(places), bytes);
    Ok(block)
}

// Zeros.
#[tactic(auto, unfolding(crate::specs::Chain::blank))]
fn blank() -> [u8; 4096]
    ensures { result ≡ blank }
{
    [0u8; 4096]
}

// The place that a block names that has these places after its own.
fn next_before(places: &[PlaceAt]) -> PlaceAt
    ensures { result ≡ mark_before places.now }
{
    match places.first() {
        Some(next) => *next,
        None => END,
    }
}

// Writes the next place and the first bytes over zeros.
fn write_link(block: &mut [u8; 4096], next: &PlaceAt, bytes: &[u8])
    requires { block.old ≡ blank }
    ensures { block.new ≡ place_bytes next.now ++ (take 4088 bytes.now ++ replicate (4088 - length bytes.now) 0) }
{
    edit_block(block, 0, &bytes_of_u32(next.device));
    edit_block(block, 4, &bytes_of_u32(next.place));
    edit_block(block, 8, split_part(bytes).0);
}

/// Where the block after this one of a chain stands; `None` exactly at the end mark.
pub fn next_of(block: &[u8; 4096]) -> Option<PlaceAt>
    ensures { result ≡ next_in block.now }
{
    let device = number_at(block, 0);
    let place = number_at(block, 4);
    if device == u32::MAX && place == u32::MAX {
        None
    } else {
        Some(PlaceAt { device, place })
    }
}

// The number that the four bytes from the byte `from` on spell.
fn number_at(bytes: &[u8], from: usize) -> u32
    requires { from + 4 ≤ length bytes.now }
    ensures { result ≡ u32_of (drop from bytes.now) }
{
    match Cursor::new(bytes.split_at(from).1).u32() {
        Ok(number) => number,
        Err(_) => unreachable!(),
    }
}
