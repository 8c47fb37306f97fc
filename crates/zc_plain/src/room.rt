// The limits of a file, a dataset and a pool, and the refusals where a command would exceed one.
ghost use Rattle.std.specs.Prelude.{◌≡◌, ◌+◌, ◌*◌, ◌^◌, ◌<◌, ◌≤◌, length, nat_lt};
ghost use Rattle.zc_command.specs.declared.refusal.What.TheVariants as what;
ghost use Rattle.zc_command.specs.declared.refusal.Refusal.TheVariants.{Enospc};
ghost use Rattle.zc_plain.specs.PlainPool.{dataset_at, file_at, pointers_in};
ghost use Rattle.zc_plain.specs.IsPlain.{IsPlain, IsPlainDataset};
ghost use Rattle.zc_plain.specs.Answer.{refuse_if, refuse_end, refuse_pointers, holes_touched, pointers_after, room_in_file, most_charge, most_files};

use crate::finding::{Path, dataset_at, file_at, refuse_if};
use crate::reading::{is_made, made_count};
use crate::tally::MadeBlock;
use crate::{PlainBlock, PlainDataset, PlainPool};
use zc_command::{Refusal, What};
use zc_num::Listed;

/// Refused where the file would end past its limit.
pub fn refuse_end(pool: &PlainPool, end: u64) -> Result<(), Refusal>
    ensures { result ≡ refuse_end end pool.now }
{
    let most = pool.limits.file_bytes();
    refuse_if(most < end, Refusal::Efbig { end, most })
}

// Refused where the dataset would have too many pointers.
fn refuse_pointers(pool: &PlainPool, need: u64) -> Result<(), Refusal>
    ensures { result ≡ refuse_pointers need pool.now }
{
    let most = u64::from(pool.limits.pointers());
    refuse_if(
        most < need,
        Refusal::Enospc {
            what: What::Pointers,
            need,
            most,
        },
    )
}

/// Refused where the pool would be charged too much: so many blocks are held, and these were made.
pub fn refuse_charge(pool: &PlainPool, held: u64, made: &[MadeBlock]) -> Result<(), Refusal>
    requires { held + length made.now < 2 ^ 64 }
    ensures { result ≡ refuse_if (nat_lt (most_charge pool.now) (held + length made.now)) (Enospc what.Charge (held + length made.now) (most_charge pool.now)) }
{
    let need = held + made.len() as u64;
    let most = u64::from(pool.limits.data_places());
    refuse_if(
        most < need,
        Refusal::Enospc {
            what: What::Charge,
            need,
            most,
        },
    )
}

// The pointers to blocks that the files of the dataset have.
#[tactic(auto, unfolding(crate::specs::PlainPool::pointers_in), using(crate::proofs::Counted::summed_item, crate::proofs::Counted::summed_within))]
fn pointers_in(dataset: &PlainDataset) -> u64
    requires { pointers_in dataset.now < 2 ^ 64 }
    ensures { result ≡ pointers_in dataset.now }
{
    let mut count = 0;
    for k in 0..dataset.files.len() {
        count += made_count(&dataset.files.at(k).blocks);
    }
    count
}

// How many of the blocks are holes that so many bytes from the offset on touch, of which there are some.
#[tactic(auto, unfolding(crate::specs::Answer::holes_touched), using(zc_num::proofs::Each::each_none, zc_num::proofs::Each::each_more, crate::proofs::Counted::counted_push))]
fn holes_touched(blocks: &Listed<PlainBlock>, offset: u64, length: u64) -> u64
    requires some { 0 < length }
    requires fits { offset + length < 2 ^ 64 }
    ensures { result ≡ holes_touched offset length blocks.now }
{
    let first = offset / 4096;
    let count = (offset + length).div_ceil(4096) - first;
    let mut holes = 0;
    for k in 0..count {
        if !is_made(blocks, first + k) {
            holes += 1;
        }
    }
    holes
}

/// Refused where the file would end past its limit, or its dataset would have too many pointers, with so many bytes from the
/// offset on, of which there are some.
#[tactic(auto, unfolding(crate::specs::Answer::room_in_file))]
pub fn room_in_file(pool: &PlainPool, path: Path, offset: u64, len: u64) -> Result<(), Refusal>
    requires plain { IsPlain pool.now }
    requires dataset { path.dataset < length pool.now.datasets }
    requires file { path.file < length (dataset_at path.dataset pool.now).files }
    requires some { 0 < len }
    requires fits { offset + len < 2 ^ 64 }
    ensures { result ≡ room_in_file offset len path pool.now }
{
    refuse_end(pool, offset + len)?;
    let held = pointers_in(dataset_at(pool, path.dataset));
    let more = holes_touched(&file_at(pool, path).blocks, offset, len);
    refuse_pointers(pool, held + more)
}
