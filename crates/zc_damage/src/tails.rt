// The bytes of files after their sizes.
ghost use Rattle.std.specs.Prelude.{◌≡◌, ◌*◌, ◌-◌};
ghost use Rattle.std.specs.List.Sorted.{IsStrictlyIncreasing};
ghost use Rattle.std.specs.Option.{option_copied};
ghost use Rattle.zc_num.specs.Ordered.{value_at};
ghost use Rattle.zc_damage.specs.Places.{number_of, numbers_of, is_block_at, bytes_in, bytes_of};
ghost use Rattle.zc_damage.specs.Words.{when};
ghost use Rattle.zc_damage.specs.Checks.{tail_hit, tail_hit_among, tail_hit_of, tail_hit_with, last_block, last_pointer, byte_after};

use crate::{DamageKind, FoundBlock, Hit};
use zc_blkptr::Ptr;
use zc_num::{Limits, Ordered};
use zc_tree::{Dataset, File};

/// The first file with a byte after its size, in its last block, that isn't 0. The blocks ascend by the numbers of their places,
/// so each is found by halves.
pub fn tail_hit(limits: &Limits, datasets: &[Dataset], blocks: &[FoundBlock]) -> Option<Hit>
    requires { IsStrictlyIncreasing (numbers_of limits.now.places blocks.now) }
    ensures { result ≡ tail_hit (bytes_in blocks.now) datasets.now }
{
    for dataset in datasets {
        if let Some(hit) = tail_hit_among(limits, dataset.files.as_slice(), blocks) {
            return Some(hit);
        }
    }
    None
}

// The first of these files with such a byte.
fn tail_hit_among(limits: &Limits, files: &[File], blocks: &[FoundBlock]) -> Option<Hit>
    requires { IsStrictlyIncreasing (numbers_of limits.now.places blocks.now) }
    ensures { result ≡ tail_hit_among (bytes_in blocks.now) files.now }
{
    for file in files {
        if let Some(hit) = tail_hit_of(limits, file, blocks) {
            return Some(hit);
        }
    }
    None
}

// Whether a file has such a byte.
fn tail_hit_of(limits: &Limits, file: &File, blocks: &[FoundBlock]) -> Option<Hit>
    requires { IsStrictlyIncreasing (numbers_of limits.now.places blocks.now) }
    ensures { result ≡ tail_hit_of (bytes_in blocks.now) file.now }
{
    match last_pointer(file) {
        None => None,
        Some(ptr) => {
            let count = last_bytes(file.size);
            tail_hit_with(ptr, block_byte_after(limits, blocks, ptr, count))
        }
    }
}

// The pointer of the block that has the last byte of a file.
fn last_pointer(file: &File) -> Option<&Ptr>
    ensures { option_copied result ≡ last_pointer file.now }
{
    if file.size == 0 {
        return None;
    }
    let block = (file.size - 1) / 4096;
    match u32::try_from(block) {
        Ok(block) => file.slots.get(block),
        // More than 32 bits, so no block of a pool has this number; a pass over all of them says so.
        Err(_) => pointer_among(&file.slots, block),
    }
}

// The pointer of the block with this number, by a pass over all.
fn pointer_among(slots: &Ordered<Ptr>, block: u64) -> Option<&Ptr>
    ensures { option_copied result ≡ value_at block slots.now }
{
    for (number, ptr) in slots.iter() {
        if u64::from(*number) == block {
            return Some(ptr);
        }
    }
    None
}

// How many bytes of a file of this size are in its last block.
fn last_bytes(size: u64) -> usize
    ensures { result ≡ size - 4096 * last_block size }
{
    let blocks = size.saturating_sub(1) / 4096;
    (size - 4096 * blocks) as usize
}

// The hit that a byte after the size is.
fn tail_hit_with(ptr: &Ptr, byte: Option<u8>) -> Option<Hit>
    ensures { result ≡ tail_hit_with ptr.now byte }
{
    match byte {
        None => None,
        Some(byte) => Some(Hit {
            kind: DamageKind::Tail,
            device: ptr.device,
            place: ptr.place,
            kept: 0,
            found: u64::from(byte),
        }),
    }
}

// The first byte that isn't 0 after so many of the block that the pointer names.
fn block_byte_after(limits: &Limits, blocks: &[FoundBlock], ptr: &Ptr, count: usize) -> Option<u8>
    requires { IsStrictlyIncreasing (numbers_of limits.now.places blocks.now) }
    ensures { result ≡ byte_after count (bytes_in blocks.now ptr.now.device ptr.now.place) }
{
    match block_at(limits, blocks, ptr.device, ptr.place) {
        None => None,
        Some(block) => byte_after(count, block.bytes.block()),
    }
}

// The first byte that isn't 0 after so many of these.
fn byte_after(count: usize, bytes: &[u8]) -> Option<u8>
    ensures { result ≡ byte_after count bytes.now }
{
    for index in count..bytes.len() {
        if bytes[index] != 0 {
            return Some(bytes[index]);
        }
    }
    None
}

// The block at the place, found by halves.
fn block_at<'b>(
    limits: &Limits,
    blocks: &'b [FoundBlock],
    device: u32,
    place: u32,
) -> Option<&'b FoundBlock>
    requires { IsStrictlyIncreasing (numbers_of limits.now.places blocks.now) }
    ensures { bytes_of (option_copied result) ≡ bytes_in blocks.now device place }
{
    let wanted = wide_number_of(limits, device, place);
    let mut low = 0;
    let mut high = blocks.len();
    while low < high {
        let middle = low + (high - low) / 2;
        let block = &blocks[middle];
        let found = wide_number_of(limits, block.device, block.place);
        if found == wanted {
            return if_there(block, device, place);
        }
        if found < wanted {
            low = middle + 1;
        } else {
            high = middle;
        }
    }
    None
}

// The block, if it is at the place.
fn if_there(block: &FoundBlock, device: u32, place: u32) -> Option<&FoundBlock>
    ensures { option_copied result ≡ when (is_block_at device place block.now) block.now }
{
    if block.device == device && block.place == place {
        Some(block)
    } else {
        None
    }
}

// The number of a place, which the pool need not have.
fn wide_number_of(limits: &Limits, device: u32, place: u32) -> u64
    ensures { result ≡ number_of limits.now.places device place }
{
    u64::from(device) * u64::from(limits.places()) + u64::from(place)
}
