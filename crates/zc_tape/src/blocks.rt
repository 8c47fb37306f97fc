// Blocks of 4,096 bytes, one a place, device after device.
ghost use Rattle.std.specs.Prelude.{◌≡◌, ◌+◌, ◌*◌, ◌<◌, true, length, map, replicate, IfOk};
ghost use Rattle.std.specs.List.{list_all};
ghost use Rattle.zc_tape.specs.Blocks.{zeros, image, image_after, made_of, is_there};
ghost use Rattle.zc_tape.specs.Crash.{held};
ghost use Rattle.zc_tape.specs.Tape.{with_bytes};

use crate::entry::Entry;
use std::alloc::Global;
use zc_num::NoMemory;

/// A block of zeros.
#[tactic(auto, unfolding(crate::specs::Blocks::zeros))]
fn zero_block() -> [u8; 4096]
    ensures { result ≡ zeros }
{
    [0; 4096]
}

/// That many blocks of zeros.
pub(crate) fn zero_blocks(alloc: Global, count: usize) -> Result<Vec<[u8; 4096]>, NoMemory>
    ensures { IfOk result (λ v. v.items ≡ replicate count zeros) }
{
    let zero = zero_block();
    let mut blocks = Vec::with_capacity(alloc, count)?;
    for _ in 0..count {
        blocks.push(zero)?;
    }
    Ok(blocks)
}

/// A copy of the blocks.
pub(crate) fn copy_blocks(alloc: Global, blocks: &[[u8; 4096]]) -> Result<Vec<[u8; 4096]>, NoMemory>
    ensures { IfOk result (λ v. v.items ≡ blocks.now) }
{
    let mut copy = Vec::with_capacity(alloc, blocks.len())?;
    for block in blocks {
        copy.push(*block)?;
    }
    Ok(copy)
}

/// Where a place's block lies.
fn block_at(devices: u32, places: u32, device: u32, place: u32) -> usize
    requires device_there { device < devices }
    requires place_there { place < places }
    ensures at { result ≡ device * places + place }
    ensures within { result < devices * places }
{
    device as usize * places as usize + place as usize
}

/// The bytes at a place.
#[tactic(auto, using(crate::proofs::Images::image_read))]
pub(crate) fn get_block(
    blocks: &[[u8; 4096]],
    devices: u32,
    places: u32,
    device: u32,
    place: u32,
) -> &[u8; 4096]
    requires whole { length blocks.now ≡ devices * places }
    requires device_there { device < devices }
    requires place_there { place < places }
    ensures { result.now ≡ image places blocks.now device place }
{
    &blocks[block_at(devices, places, device, place)]
}

/// Puts bytes into a place.
#[tactic(auto, using(crate::proofs::Images::image_set))]
pub(crate) fn set_block(
    blocks: &mut [[u8; 4096]],
    devices: u32,
    places: u32,
    device: u32,
    place: u32,
    bytes: &[u8; 4096],
)
    requires whole { length blocks.old ≡ devices * places }
    requires device_there { device < devices }
    requires place_there { place < places }
    ensures { image places blocks.new ≡ with_bytes (image places blocks.old) device place bytes.now }
{
    blocks[block_at(devices, places, device, place)] = *bytes;
}

/// Puts the bytes of an entry into their place, where it is an Ok write.
pub(crate) fn replay_entry(blocks: &mut [[u8; 4096]], devices: u32, places: u32, entry: &Entry)
    requires whole { length blocks.old ≡ devices * places }
    requires there { is_there devices places entry.now ≡ true }
    ensures { image places blocks.new ≡ image_after (image places blocks.old) (made_of entry.now) }
{
    if let Entry::Wrote {
        device,
        place,
        bytes,
        ok: true,
    } = entry
    {
        set_block(blocks, devices, places, *device, *place, bytes);
    }
}

/// Puts the bytes of the Ok writes into their places, the first first.
#[tactic(auto, using(crate::proofs::Replay::now_next, crate::proofs::Replay::there_at))]
pub(crate) fn replay(blocks: &mut [[u8; 4096]], devices: u32, places: u32, entries: &[Entry])
    requires whole { length blocks.old ≡ devices * places }
    requires there { list_all (is_there devices places) entries.now ≡ true }
    ensures { image places blocks.new ≡ (held (image places blocks.old) (map made_of entries.now)).now }
{
    for entry in entries {
        replay_entry(blocks, devices, places, entry);
    }
}
