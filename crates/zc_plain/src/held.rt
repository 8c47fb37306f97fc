// How many blocks a pool holds, a shared one counted once.
//
// The stamps that were met are a list without repeats, and each one is looked for in it.
ghost use Rattle.std.specs.Prelude.{◌≡◌, ◌≤◌, ◌^◌, [], flat_map, IfOk, OnOk};
ghost use Rattle.std.specs.List.{list_any};
ghost use Rattle.zc_plain.specs.declared.plain_pool.PlainFile.{PlainFile};
ghost use Rattle.zc_plain.specs.IsPlain.{IsPlain};
ghost use Rattle.zc_plain.specs.Charge.{is_stamp, with_one, with_each, stamp_of, stamps_of, held_by};

use crate::{PlainBlock, PlainDataset, PlainFile, PlainPool};
use std::alloc::Global;
use zc_num::NoMemory;

/// How many blocks the pool holds, a shared one counted once.
///
/// # Errors
/// Want of memory.
#[tactic(auto, unfolding(crate::specs::Charge::held_by), using(crate::proofs::Stamps::few_stamps))]
pub fn held_by(alloc: Global, pool: &PlainPool) -> Result<u64, NoMemory>
    requires plain { IsPlain pool.now }
    ensures value { IfOk result (λ held. held ≡ held_by pool.now) }
    ensures few { IfOk result (λ held. held ≤ 2 ^ 62) }
{
    let met = stamps_met(alloc, pool)?;
    Ok(met.len() as u64)
}

// The stamps of the pool's blocks, each once.
#[tactic(auto, unfolding(crate::specs::Charge::stamps_of), using(crate::proofs::Counted::added_none))]
fn stamps_met(alloc: Global, pool: &PlainPool) -> Result<Vec<(u64, u64)>, NoMemory>
    ensures { IfOk result (λ met. met.items ≡ with_each is_stamp [] (stamps_of pool.now)) }
{
    let mut met = Vec::new(alloc);
    for k in 0..pool.datasets.len() {
        add_dataset(&mut met, pool.datasets.at(k))?;
    }
    Ok(met)
}

// Adds the stamps of the dataset's files that aren't there.
#[tactic(auto, using(crate::proofs::Counted::added_none))]
fn add_dataset(met: &mut Vec<(u64, u64)>, dataset: &PlainDataset) -> Result<(), NoMemory>
    ensures { OnOk result (met.new.items ≡ with_each is_stamp met.old.items (flat_map (λ (file : PlainFile). flat_map stamp_of file.blocks) dataset.now.files)) }
{
    for k in 0..dataset.files.len() {
        add_file(met, dataset.files.at(k))?;
    }
    Ok(())
}

// Adds the stamps of the file's blocks that aren't there.
#[tactic(auto, using(crate::proofs::Counted::added_none))]
fn add_file(met: &mut Vec<(u64, u64)>, file: &PlainFile) -> Result<(), NoMemory>
    ensures { OnOk result (met.new.items ≡ with_each is_stamp met.old.items (flat_map stamp_of file.now.blocks)) }
{
    for k in 0..file.blocks.len() {
        add_block(met, file.blocks.at(k))?;
    }
    Ok(())
}

// Adds the stamp of the block, if it has one, where it isn't there.
#[tactic(auto, unfolding(crate::specs::Charge::with_each))]
fn add_block(met: &mut Vec<(u64, u64)>, block: &PlainBlock) -> Result<(), NoMemory>
    ensures { OnOk result (met.new.items ≡ with_each is_stamp met.old.items (stamp_of block.now)) }
{
    match block {
        PlainBlock::Hole => Ok(()),
        PlainBlock::Made { entry, index, .. } => add_stamp(met, (*entry, *index)),
    }
}

// Adds the stamp where it isn't there.
fn add_stamp(met: &mut Vec<(u64, u64)>, stamp: (u64, u64)) -> Result<(), NoMemory>
    ensures { OnOk result (met.new.items ≡ with_one is_stamp met.old.items stamp) }
{
    if has_stamp(met.as_slice(), &stamp) {
        return Ok(());
    }
    met.push(stamp)?;
    Ok(())
}

// Whether the stamp is one of them.
fn has_stamp(met: &[(u64, u64)], stamp: &(u64, u64)) -> bool
    ensures { result ≡ list_any (is_stamp stamp.now) met.now }
{
    met.iter().any(|one| is_stamp(stamp, one))
}

// Whether both are one.
fn is_stamp(a: &(u64, u64), b: &(u64, u64)) -> bool
    ensures { result ≡ is_stamp a.now b.now }
{
    a.0 == b.0 && a.1 == b.1
}
