// The blocks that the pointers are to.
ghost use Rattle.std.specs.Prelude.{◌≡◌, ◌<◌, ◌≤◌, ◌+◌, ◌/◌, ◌%◌, map, IfOk, OnOk, IsErrOf, None};
ghost use Rattle.std.specs.Str.{bytes_eq};
ghost use Rattle.std.specs.List.Sorted.{IsStrictlyIncreasing};
ghost use Rattle.zc_num.specs.Limits.{total_of};
ghost use Rattle.zc_tape.specs.Cause.{Rose};
ghost use Rattle.zc_tape.specs.Crash.{reads};
ghost use Rattle.zc_damage.specs.Places.{numbers_of};
ghost use Rattle.zc_damage.specs.Checks.{owner_hit};
ghost use Rattle.zc_state.specs.State.{place_of_block, block_places};
ghost use Rattle.zc_state.specs.Reading.{blocks_of};
ghost use Rattle.zc_image.specs.ReadAnswers.{IsWhole, ReadAnswers, Tells};
ghost use Rattle.zc_image.specs.Gathering.{block_by, gathered, IsRisingTo, AreBlocksBelow};

use crate::ImageFault;
use crate::block::{read_place, zeros};
use crate::hits::damaged_bytes;
use std::alloc::Global;
use zc_blkptr::{Ptr, digest_of};
use zc_damage::{Census, DamageKind, FoundBlock};
use zc_num::{Boxed, Limits, Listed, PlaceAt};
use zc_tape::DiskSet;

// The place with this number.
#[tactic(auto, using(zc_damage::proofs::PlaceNumbers::some_places))]
fn place_at(limits: &Limits, number: u32) -> PlaceAt
    ensures { result ≡ record { device = number / limits.now.places; place = number % limits.now.places } }
{
    PlaceAt {
        device: number / limits.places(),
        place: number % limits.places(),
    }
}

// Reads the block at the place with this number, to which the pointer is.
fn read_block<D: DiskSet>(
    alloc: Global,
    disks: &mut D,
    limits: &Limits,
    number: u32,
    ptr: &Ptr,
) -> Result<FoundBlock, ImageFault>
    requires there { number < total_of limits.now.devices limits.now.places }
    requires devices { limits.now.devices ≡ (D.shape disks.old).devices }
    requires places { limits.now.places ≡ (D.shape disks.old).places }
    ensures exact { IsWhole (D.tape disks.old) → ReadAnswers (λ block. block) result (block_by limits.now.places (reads (D.tape disks.old)) number ptr.now) }
    ensures device { IfOk result (λ block. block.device ≡ number / limits.now.places) }
    ensures place { IfOk result (λ block. block.place ≡ number % limits.now.places) }
    ensures tape { D.tape disks.new ≡ D.tape disks.old }
    ensures shape { D.shape disks.new ≡ D.shape disks.old }
    ensures spare { D.spare disks.new ≡ D.spare disks.old }
    ensures later { D.faults disks.old ≤ D.faults disks.new }
    ensures cause { IsErrOf result ImageFault.DiskFault → Rose (D.faults disks.old) (D.faults disks.new) }
{
    let at = place_at(limits, number);
    let mut block = zeros();
    read_place(disks, &at, &mut block)?;
    let digest = digest_of(&block);
    if !is_same(&ptr.digest, &digest) {
        return Err(damaged_bytes(
            alloc,
            DamageKind::Block,
            ptr.device,
            ptr.place,
            &ptr.digest,
            &digest,
        ));
    }
    let bytes = Boxed::new(alloc, block)?;
    Ok(FoundBlock {
        device: at.device,
        place: at.place,
        bytes,
    })
}

// Whether two digests have the same bytes.
fn is_same(left: &[u8; 16], right: &[u8; 16]) -> bool
    ensures { result ≡ bytes_eq left.now right.now }
{
    left.as_slice() == right.as_slice()
}

// Adds the block at the place with this number, if a pointer is to it.
#[tactic(auto, using(crate::proofs::BlockSteps::no_block_more, crate::proofs::BlockSteps::one_block_more))]
fn add_block<D: DiskSet>(
    alloc: Global,
    disks: &mut D,
    limits: &Limits,
    census: &Census,
    number: u32,
    blocks: &mut Listed<FoundBlock>,
) -> Result<(), ImageFault>
    requires there { number < total_of limits.now.devices limits.now.places }
    requires census_devices { census.now.devices ≡ limits.now.devices }
    requires census_places { census.now.places ≡ limits.now.places }
    requires devices { limits.now.devices ≡ (D.shape disks.old).devices }
    requires places { limits.now.places ≡ (D.shape disks.old).places }
    ensures exact { IsWhole (D.tape disks.old) → ReadAnswers (λ _. blocks.new) result (gathered limits.now.places (reads (D.tape disks.old)) census.now.reach number blocks.old) }
    ensures rising { OnOk result (IsRisingTo number (numbers_of limits.now.places blocks.old) → IsRisingTo (number + 1) (numbers_of limits.now.places blocks.new)) }
    ensures there { OnOk result (AreBlocksBelow limits.now.places census.now.reach number blocks.old → AreBlocksBelow limits.now.places census.now.reach (number + 1) blocks.new) }
    ensures tape { D.tape disks.new ≡ D.tape disks.old }
    ensures shape { D.shape disks.new ≡ D.shape disks.old }
    ensures spare { D.spare disks.new ≡ D.spare disks.old }
    ensures later { D.faults disks.old ≤ D.faults disks.new }
    ensures cause { IsErrOf result ImageFault.DiskFault → Rose (D.faults disks.old) (D.faults disks.new) }
{
    match census.first_to(number) {
        None => Ok(()),
        Some(ptr) => {
            let block = read_block(alloc, disks, limits, number, ptr)?;
            blocks.push(block)?;
            Ok(())
        }
    }
}

// Reads the block of each place to which a pointer is, ascending by place.
pub fn read_blocks<D: DiskSet>(
    alloc: Global,
    disks: &mut D,
    limits: &Limits,
    census: &Census,
) -> Result<Listed<FoundBlock>, ImageFault>
    requires census_devices { census.now.devices ≡ limits.now.devices }
    requires census_places { census.now.places ≡ limits.now.places }
    requires owners { owner_hit limits.now.devices limits.now.places census.now.chain census.now.reach ≡ None }
    requires devices { limits.now.devices ≡ (D.shape disks.old).devices }
    requires places { limits.now.places ≡ (D.shape disks.old).places }
    ensures exact { IsWhole (D.tape disks.old) → ReadAnswers (λ blocks. blocks) result
        (blocks_of limits.now.devices limits.now.places (reads (D.tape disks.old)) census.now.reach) }
    ensures ascending { IfOk result (λ blocks. IsStrictlyIncreasing (numbers_of limits.now.places blocks)) }
    ensures there { IfOk result (λ blocks. map place_of_block blocks ≡ block_places limits.now.devices limits.now.places census.now.reach) }
    ensures tape { D.tape disks.new ≡ D.tape disks.old }
    ensures shape { D.shape disks.new ≡ D.shape disks.old }
    ensures spare { D.spare disks.new ≡ D.spare disks.old }
    ensures later { D.faults disks.old ≤ D.faults disks.new }
    ensures cause { IsErrOf result ImageFault.DiskFault → Rose (D.faults disks.old) (D.faults disks.new) }
{
    let mut blocks = Listed::new(alloc);
    for number in 0..limits.total() {
        add_block(alloc, disks, limits, census, number, &mut blocks)?;
    }
    Ok(blocks)
}
