// Where a group's new blocks are put, and the pointers to them.
ghost use Rattle.std.specs.Prelude.{◌≡◌, ◌∷◌, ◌++◌, [], length, map, IfOk, OnOk};
ghost use Rattle.zc_damage.specs.Places.{ReachPlaces, ChainPlaces};
ghost use Rattle.zc_group.specs.Chosen.{free_places};
ghost use Rattle.zc_group.specs.Committed.{found_of};
ghost use Rattle.zc_group.specs.Kept.{HasPlaces};
ghost use Rattle.zc_state.specs.State.{place_of_block};
ghost use Rattle.zc_lane.specs.Placed.{bytes_made_by, bytes_made, bytes_of, free_after, ptr_to};

use std::alloc::Global;
use zc_blkptr::{Ptr, digest_of};
use zc_damage::Census;
use zc_group::{Root, free_places};
use zc_heart::{Block, Change, Now};
use zc_num::{Boxed, Limits, Listed, NoMemory, PlaceAt};
use zc_plan::PlacedBlock;

/// The blocks that the changes make, in their order, at the first places that are free after the root.
///
/// # Errors
/// Want of memory, and where too few places are free.
pub(crate) fn placed_blocks(
    alloc: Global,
    root: &Root,
    changes: &[Change],
) -> Result<Listed<PlacedBlock>, NoMemory>
    requires { HasPlaces root.now }
    ensures places { IfOk result (λ new. map place_of_block (map found_of new) ≡ free_after root.now (length (bytes_made changes.now))) }
    ensures bytes { IfOk result (λ new. bytes_of (map found_of new) ≡ bytes_made changes.now) }
{
    let blocks = blocks_made(alloc, changes)?;
    let places = places_after(alloc, root, blocks.len())?;
    put_at(alloc, places.as_slice(), blocks.as_slice())
}

// The blocks that the changes make, in their order. Copies no byte.
fn blocks_made(alloc: Global, changes: &[Change]) -> Result<Listed<Block>, NoMemory>
    ensures { IfOk result (λ blocks. blocks ≡ bytes_made changes.now) }
{
    let mut blocks = Listed::new(alloc);
    for change in changes {
        push_made(change, &mut blocks)?;
    }
    Ok(blocks)
}

// Adds the block that the change makes, if it makes one.
fn push_made(change: &Change, blocks: &mut Listed<Block>) -> Result<(), NoMemory>
    ensures { OnOk result (blocks.new ≡ blocks.old ++ bytes_made_by change.now) }
{
    match change {
        Change::Put {
            now: Now::Made { bytes },
            ..
        } => push_shared(bytes, blocks),
        _ => Ok(()),
    }
}

// Adds the block once more.
fn push_shared(block: &Block, blocks: &mut Listed<Block>) -> Result<(), NoMemory>
    ensures { OnOk result (blocks.new ≡ blocks.old ++ block.now ∷ []) }
{
    let shared = block.share()?;
    blocks.push(shared)
}

// The first places, so many, that neither the root's tree nor its catalogue has.
fn places_after(alloc: Global, root: &Root, count: usize) -> Result<Listed<PlaceAt>, NoMemory>
    requires { HasPlaces root.now }
    ensures first { IfOk result (λ places. places ≡ free_after root.now count) }
    ensures all { IfOk result (λ places. length places ≡ count) }
{
    let reach = root.tree.walk(alloc)?;
    places_among(
        alloc,
        &root.limits,
        reach.as_slice(),
        root.chain.as_slice(),
        count,
    )
}

// The first places, so many, that no pointer is to, and that are none of the chain.
fn places_among(
    alloc: Global,
    limits: &Limits,
    reach: &[Ptr],
    chain: &[PlaceAt],
    count: usize,
) -> Result<Listed<PlaceAt>, NoMemory>
    requires reach_there { ReachPlaces limits.now.devices limits.now.places reach.now }
    requires chain_there { ChainPlaces limits.now.devices limits.now.places chain.now }
    ensures first { IfOk result (λ places. places ≡ free_places limits.now.devices limits.now.places chain.now reach.now count) }
    ensures all { IfOk result (λ places. length places ≡ count) }
{
    let census = Census::of(alloc, limits, reach, chain)?;
    free_places(alloc, &census, count)
}

// The blocks, each at the place of its index.
fn put_at(
    alloc: Global,
    places: &[PlaceAt],
    blocks: &[Block],
) -> Result<Listed<PlacedBlock>, NoMemory>
    requires { length places.now ≡ length blocks.now }
    ensures places { IfOk result (λ new. map place_of_block (map found_of new) ≡ places.now) }
    ensures bytes { IfOk result (λ new. bytes_of (map found_of new) ≡ blocks.now) }
{
    let mut new = Listed::new(alloc);
    for k in 0..blocks.len() {
        push_at(alloc, places[k], &blocks[k], &mut new)?;
    }
    Ok(new)
}

// Adds the block, at the place. What is written wants bytes of its own, so they are copied here.
fn push_at(
    alloc: Global,
    at: PlaceAt,
    block: &Block,
    new: &mut Listed<PlacedBlock>,
) -> Result<(), NoMemory>
    ensures { OnOk result (new.new ≡ new.old ++ record { device = at.device; place = at.place; bytes = block.now } ∷ []) }
{
    let bytes = Boxed::new(alloc, *block.bytes())?;
    new.push(PlacedBlock {
        device: at.device,
        place: at.place,
        bytes,
    })
}

/// The pointers that the group has to its new blocks, in their order. Each block is hashed once.
///
/// # Errors
/// Want of memory.
pub(crate) fn pointers_to(
    alloc: Global,
    group: u64,
    new: &[PlacedBlock],
) -> Result<Listed<Ptr>, NoMemory>
    ensures { IfOk result (λ placed. placed ≡ map (ptr_to group) (map found_of new.now)) }
{
    let mut placed = Listed::new(alloc);
    for block in new {
        placed.push(pointer_to(group, block))?;
    }
    Ok(placed)
}

// The pointer that the group has to its new block.
fn pointer_to(group: u64, block: &PlacedBlock) -> Ptr
    ensures { result ≡ ptr_to group (found_of block.now) }
{
    Ptr {
        device: block.device,
        place: block.place,
        logical: group,
        physical: group,
        digest: digest_of(block.bytes.get()),
    }
}
