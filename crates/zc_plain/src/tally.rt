// What a pool's charge is counted from: what the last finished group holds, and which blocks were made after its seal.
//
// The blocks are a list without repeats, and each one is looked for in it. So a group in which many blocks are made takes a time
// that grows with the square of their number.
ghost use Rattle.std.specs.Prelude.{◌≡◌, ℕ, ◌==◌, ◌+◌, ◌^◌, ◌<◌, length, filter, IfOk, IfSome, OnOk, OnErr};
ghost use Rattle.zc_num.specs.Words.{found_from};
ghost use Rattle.std.specs.List.{list_any};
ghost use Rattle.zc_plain.specs.Charge.{is_block, with_one, with_each, blocks_made, with_seal, with_finish, seals_up_to, is_after, charge_of};

use std::alloc::Global;
use std::mem;
use zc_num::{Listed, NoMemory};

/// A block of a file whose bytes a command made.
#[derive(Clone, Copy, PartialEq, Eq, Debug)]
pub struct MadeBlock {
    /// How many seals stood before the command.
    pub seals: u64,
    /// The number of the dataset.
    pub dataset: u64,
    /// The number of the file.
    pub file: u64,
    /// The index of the block in the file.
    pub block: u64,
}

/// What the charge is counted from.
#[derive(Debug, Drop)]
pub struct Tally {
    /// The groups that were sealed, from the first on.
    pub sealed: Listed<u64>,
    /// How many blocks the last finished group holds, each once; before any, how many the pool began with.
    pub held: u64,
    /// The blocks that were made after that group's seal, each once; before any, those that were made at all.
    pub made: Listed<MadeBlock>,
}

// Whether both are one block of one file, made after as many seals.
fn is_block(a: &MadeBlock, b: &MadeBlock) -> bool
    ensures { result ≡ is_block a.now b.now }
{
    a.seals == b.seals && a.dataset == b.dataset && a.file == b.file && a.block == b.block
}

// Whether the block is one of them.
fn has_block(made: &[MadeBlock], block: &MadeBlock) -> bool
    ensures { result ≡ list_any (is_block block.now) made.now }
{
    made.iter().any(|one| is_block(block, one))
}

// Adds the block where it isn't there.
fn add_one(made: &mut Vec<MadeBlock>, block: MadeBlock) -> Result<(), NoMemory>
    ensures ok { OnOk result (made.new.items ≡ with_one is_block made.old.items block) }
{
    if has_block(made.as_slice(), &block) {
        return Ok(());
    }
    made.push(block)?;
    Ok(())
}

// The blocks that were made.
#[tactic(auto, using(crate::proofs::Counted::pushed_item))]
fn copied(alloc: Global, made: &Listed<MadeBlock>) -> Result<Vec<MadeBlock>, NoMemory>
    ensures { IfOk result (λ copy. copy.items ≡ made.now) }
{
    let mut copy = Vec::with_capacity(alloc, made.len())?;
    for k in 0..made.len() {
        copy.push(*made.at(k))?;
    }
    Ok(copy)
}

/// The blocks that were made, with so many of the file from the first on, made now.
///
/// # Errors
/// Want of memory.
#[tactic(auto, using(zc_num::proofs::Each::each_none, zc_num::proofs::Each::each_more, crate::proofs::Counted::added_none, crate::proofs::Counted::added_push))]
pub fn with_blocks_of(
    alloc: Global,
    tally: &Tally,
    dataset: u64,
    file: u64,
    first: u64,
    count: u64,
) -> Result<Vec<MadeBlock>, NoMemory>
    requires { first + count < 2 ^ 64 }
    ensures { IfOk result (λ made. made.items ≡ with_each is_block tally.now.made (blocks_made tally.now dataset file first count)) }
{
    let mut made = copied(alloc, &tally.made)?;
    let seals = tally.sealed.len() as u64;
    for k in 0..count {
        add_one(
            &mut made,
            MadeBlock {
                seals,
                dataset,
                file,
                block: first + k,
            },
        )?;
    }
    Ok(made)
}

/// The group is sealed.
///
/// # Errors
/// Want of memory; nothing has changed.
pub fn seal(tally: &mut Tally, group: u64) -> Result<(), NoMemory>
    ensures ok { OnOk result (tally.new ≡ with_seal group tally.old) }
    ensures err { OnErr result (tally.new ≡ tally.old) }
{
    tally.sealed.push(group)
}

// The place of the group's seal.
fn seal_place(group: u64, sealed: &[u64]) -> Option<usize>
    ensures value { result ≡ found_from (λ (one : ℕ). one == group) 0 sealed.now }
    ensures within { IfSome result (λ place. place < length sealed.now) }
{
    sealed.iter().position(|one| *one == group)
}

// How many seals there were up to that of the group, none where it was never sealed.
#[tactic(auto, unfolding(crate::specs::Charge::seals_up_to))]
fn seals_up_to(group: u64, sealed: &[u64]) -> u64
    ensures { result ≡ seals_up_to group sealed.now }
{
    match seal_place(group, sealed) {
        None => 0,
        Some(place) => place as u64 + 1,
    }
}

// The blocks that were made after so many seals or more stay.
fn keep_after(made: &mut Vec<MadeBlock>, seals: u64)
    ensures { made.new.items ≡ filter (is_after seals) made.old.items }
{
    made.retain(|block| seals <= block.seals);
}

/// The group is finished, and holds so many blocks.
#[tactic(auto, unfolding(crate::specs::Charge::with_finish))]
pub fn finish(alloc: Global, tally: &mut Tally, group: u64, held: u64)
    ensures { tally.new ≡ with_finish group held tally.old }
{
    let seals = seals_up_to(group, tally.sealed.as_slice());
    let mut made = mem::replace(&mut tally.made, Listed::new(alloc)).into_vec();
    keep_after(&mut made, seals);
    tally.made = Listed::from_vec(made);
    tally.held = held;
}
