// The limits of a file, a dataset and a pool, and the refusals where a command would exceed one.
ghost use Rattle.std.specs.Prelude.{◌≡◌, ◌+◌, ◌/◌, ◌^◌, ◌<◌, ◌≤◌, IsSome, length};
ghost use Rattle.zc_plain.specs.Putting.{first_touched, touched_count};
ghost use Rattle.zc_plain.specs.Answer.{holes_touched, refuse_end, refuse_pointers};
ghost use Rattle.zc_heart.specs.Core.{pool_of, made_waiting, IsHeartFile, IsCore};
ghost use Rattle.zc_heart.specs.Deeds.{pointers_at, blocks_on, file_on, unmade_on, trimmed_count, trimmed_on, room_in_file, refuse_charge};

use crate::dataset::{Spot, dataset_at, file_on, refuse_if};
use crate::file::HeartFile;
use crate::pool_core::Core;
use crate::reading::{holes_touched, is_trimmed, unmade};
use zc_command::{Refusal, What};

/// Refused where the file would end past its limit.
pub fn refuse_end(core: &Core, end: u64) -> Result<(), Refusal>
    ensures { result ≡ refuse_end end (pool_of core.now) }
{
    let most = core.limits.file_bytes();
    refuse_if(most < end, Refusal::Efbig { end, most })
}

// Refused where the dataset would have too many pointers.
fn refuse_pointers(core: &Core, need: u64) -> Result<(), Refusal>
    ensures { result ≡ refuse_pointers need (pool_of core.now) }
{
    let most = u64::from(core.limits.pointers());
    refuse_if(
        most < need,
        Refusal::Enospc {
            what: What::Pointers,
            need,
            most,
        },
    )
}

/// Refused where the file would end past its limit, or its dataset would have too many pointers, with so many bytes from the offset
/// on, of which there are some.
#[tactic(auto, unfolding(crate::specs::Deeds::room_in_file))]
pub fn room_in_file(core: &Core, spot: Spot, offset: u64, len: u64) -> Result<(), Refusal>
    requires core { IsCore core.now }
    requires within { spot.place < length core.now.datasets }
    requires there { IsSome (file_on spot core.now) }
    requires some { 0 < len }
    requires fits { offset + len < 2 ^ 64 }
    ensures { result ≡ room_in_file offset len spot core.now }
{
    refuse_end(core, offset + len)?;
    refuse_pointers(core, pointers_after(core, spot, offset, len))
}

// The pointers of the dataset once a block stands wherever the bytes touch one.
#[tactic(auto, using(crate::proofs::Ready::few_pointers_there, zc_plain::proofs::FewBlocks::few_holes))]
fn pointers_after(core: &Core, spot: Spot, offset: u64, len: u64) -> u64
    requires core { IsCore core.now }
    requires within { spot.place < length core.now.datasets }
    requires there { IsSome (file_on spot core.now) }
    requires some { 0 < len }
    requires fits { offset + len ≤ 2 ^ 28 }
    ensures { result ≡ pointers_at spot.place core.now + holes_touched offset len (blocks_on spot core.now) }
{
    let held = dataset_at(core, spot.place).pointers;
    let more = holes_touched(&file_on(core, spot).value, offset, len);
    held + more
}

// How many blocks the sealed groups made, each counted once in its group.
#[tactic(auto, using(zc_plain::proofs::Counted::summed_item, zc_plain::proofs::Counted::summed_within))]
fn made_waiting(core: &Core) -> u64
    requires { made_waiting core.now < 2 ^ 64 }
    ensures { result ≡ made_waiting core.now }
{
    let mut made = 0;
    for k in 0..core.waiting.len() {
        made += core.waiting.at(k).made;
    }
    made
}

/// Refused where the pool would be charged too much once so many more blocks were made.
#[tactic(auto, unfolding(crate::specs::Deeds::refuse_charge))]
pub fn refuse_charge(core: &Core, more: u64) -> Result<(), Refusal>
    requires core { IsCore core.now }
    requires fits { more ≤ 2 ^ 62 }
    ensures { result ≡ refuse_charge more core.now }
{
    let need = core.held + (made_waiting(core) + core.made) + more;
    let most = u64::from(core.limits.data_places());
    refuse_if(
        most < need,
        Refusal::Enospc {
            what: What::Charge,
            need,
            most,
        },
    )
}

/// How many of the blocks that so many bytes from the offset on touch, of which there are some, the open group didn't make.
#[tactic(auto, using(crate::proofs::Ready::unmade_few))]
pub fn unmade_touched(core: &Core, spot: Spot, offset: u64, len: u64) -> u64
    requires within { spot.place < length core.now.datasets }
    requires there { IsSome (file_on spot core.now) }
    requires some { 0 < len }
    requires fits { offset + len ≤ 2 ^ 28 }
    ensures value { result ≡ unmade_on (first_touched offset) (touched_count offset len) spot core.now }
    ensures few { result ≤ 2 ^ 28 }
{
    let first = (offset / 4096) as u32;
    let count = (offset + len).div_ceil(4096) as u32 - first;
    unmade(&file_on(core, spot).value, first, count)
}

/// How many blocks are made where the file gets the size and the open group didn't make them: the one that is trimmed, at most.
#[tactic(auto, using(crate::proofs::Ready::spot_short, crate::proofs::Ready::unmade_few))]
pub fn unmade_trimmed(core: &Core, spot: Spot, size: u64) -> u64
    requires core { IsCore core.now }
    requires within { spot.place < length core.now.datasets }
    requires there { IsSome (file_on spot core.now) }
    requires fits { size ≤ 2 ^ 28 }
    ensures value { result ≡ unmade_on (size / 4096) (trimmed_on size spot core.now) spot core.now }
    ensures few { result ≤ 1 }
{
    let file = &file_on(core, spot).value;
    unmade(file, (size / 4096) as u32, trimmed_count(file, size))
}

// How many of its blocks are trimmed where the file gets the size.
fn trimmed_count(file: &HeartFile, size: u64) -> u32
    requires heart { IsHeartFile file.now }
    requires fits { file.now.size ≤ 2 ^ 28 }
    ensures value { result ≡ trimmed_count size file.now }
    ensures few { result ≤ 1 }
{
    if is_trimmed(file, size) { 1 } else { 0 }
}
