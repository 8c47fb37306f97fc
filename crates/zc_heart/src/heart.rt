ghost use Rattle.std.specs.Prelude.{◌≡◌, ◌<◌, ◌≤◌, ◌-◌, ◌^◌, true, IfOk, OnErr, IsTrue, nat_lt};
ghost use Rattle.std.specs.List.{list_all};
ghost use Rattle.zc_command.specs.Names.{AreConditions};
ghost use Rattle.zc_plain.specs.IsPlain.{AreNextUpTo};
ghost use Rattle.zc_heart.specs.Core.{pool_of, IsCore};
ghost use Rattle.zc_heart.specs.Meaning.{Stays, Replies, Commands, is_data, IsSealed, MayAbsorb, Absorbs, MayOpen, IsOpened, dataset_number};

use crate::changes::{GroupDone, Sealed};
use crate::opening::HeartBlock;
use crate::pool_core::{Core, HeartDataset};
use std::alloc::Global;
use std::marker::Model;
use zc_command::{Command, Reply};
use zc_num::{Limits, Listed, Name, NoMemory};
use zc_tree::Tree;

/// The files of an open pool in memory, with what its open group changed and what it is charged.
#[derive(Drop)]
pub struct Heart {
    alloc: Global,
    core: Core,
}

impl Model for Heart {
    ghost use Rattle.zc_heart.specs.declared.pool_core.Core.{Core};
    ghost use Rattle.zc_heart.specs.contracts.pool_core.Core as pool_core;

    ghost Value = { Core };

    ghost coded = { pool_core.the_row.coded };

    ghost use Rattle.zc_heart.specs.Core.{IsCore};

    ghost view = { λ heart. heart.core };

    ghost invariant = { λ heart. IsCore heart.core };
}

impl Heart {
    /// The files of a tree, with the blocks at its pointers. Takes time with the size of the pool.
    ///
    /// # Errors
    /// Want of memory.
    pub fn open(
        alloc: Global,
        limits: Limits,
        tree: &Tree,
        blocks: Vec<HeartBlock>,
    ) -> Result<Self, NoMemory>
        requires { MayOpen limits tree.now blocks.items }
        ensures { IfOk result (λ heart. IsOpened limits tree.now blocks.items heart) }
    {
        let core = crate::opening::open(alloc, limits, tree, blocks)?;
        Ok(Heart { alloc, core })
    }

    /// What the command answers, which is the entry with the number in the pool's history. Its time grows with the blocks that it
    /// touches, times a logarithm. A commit is answered as one that changes nothing. A reply with bytes leaves all as it was.
    ///
    /// # Errors
    /// Want of memory; nothing has changed.
    pub fn command(&mut self, number: u64, command: &Command) -> Result<Reply, NoMemory>
        requires conditions { AreConditions command.now }
        requires number { self.old.last < number }
        requires numbers { AreNextUpTo (2 ^ 64 - 2) (pool_of self.old) }
        ensures reply { Replies number command.now self.old self.new result }
        ensures kept { Commands self.old self.new }
        ensures last { self.new.last ≤ number }
        ensures bytes { IfOk result (λ reply. is_data reply ≡ true → self.new ≡ self.old) }
    {
        crate::commands::command(self.alloc, &mut self.core, number, command)
    }

    /// Hands out what the open group changed, and opens the next one. Its time grows with the changes.
    ///
    /// # Errors
    /// Want of memory; nothing has changed.
    pub fn seal(&mut self) -> Result<Sealed, NoMemory>
        requires { self.old.group < 2 ^ 64 - 1 }
        ensures ok { IfOk result (λ sealed. IsSealed self.old self.new sealed) }
        ensures err { OnErr result (Stays self.old self.new) }
    {
        crate::sealing::seal(self.alloc, &mut self.core)
    }

    /// Takes in where the blocks of a finished group are. Takes no memory, and no file changes.
    pub fn absorb(&mut self, done: &GroupDone)
        requires group { MayAbsorb done.now self.old }
        requires held { done.now.held ≤ 2 ^ 62 }
        ensures { Absorbs done.now self.old self.new }
    {
        crate::absorbing::absorb(&mut self.core, done);
    }

    /// The number of the dataset of the name, and whether it is mounted, as each one is.
    pub fn dataset(&self, name: &Name) -> Option<(u64, bool)>
        ensures { result ≡ dataset_number name.now (pool_of self.now) }
    {
        self.core.dataset(name)
    }

    /// The number of the last command that made a block; 0 where none did.
    pub fn last(&self) -> u64
        ensures { result ≡ self.now.last }
    {
        self.core.last
    }

    /// The number of the open group.
    pub fn group(&self) -> u64
        ensures value { result ≡ self.now.group }
        ensures core { IsCore self.now }
    {
        self.core.group
    }

    /// Whether each next number of the pool and of its datasets may still be given, and the open group may be sealed.
    pub fn has_numbers(&self) -> bool
        ensures numbers { IsTrue result → AreNextUpTo (2 ^ 64 - 2) (pool_of self.now) }
        ensures group { IsTrue result → self.now.group < 2 ^ 64 - 1 }
    {
        self.core.group < u64::MAX && has_next_numbers(&self.core)
    }

    /// Whether this is the first group that waits, with a pointer for each block that it put.
    pub fn may_absorb(&self, done: &GroupDone) -> bool
        ensures group { IsTrue result → MayAbsorb done.now self.now }
        ensures held { IsTrue result → done.now.held ≤ 2 ^ 62 }
    {
        done.held <= 1 << 62 && is_first(&self.core, done)
    }
}

// Whether each next number of the pool and of its datasets may still be given.
#[tactic(auto, using(crate::proofs::Asked::next_numbers))]
fn has_next_numbers(core: &Core) -> bool
    ensures { IsTrue result → AreNextUpTo (2 ^ 64 - 2) (pool_of core.now) }
{
    core.next_dataset < u64::MAX && has_next_files(core.datasets.as_slice())
}

// Whether each next number of the datasets may still be given.
fn has_next_files(datasets: &[HeartDataset]) -> bool
    ensures { result ≡ list_all (λ dataset. nat_lt dataset.next_file (2 ^ 64 - 1)) datasets.now }
{
    datasets.iter().all(|dataset| dataset.next_file < u64::MAX)
}

// Whether this is the first group that waits, with a pointer for each block that it put.
#[tactic(auto, using(crate::proofs::Asked::first_waits))]
fn is_first(core: &Core, done: &GroupDone) -> bool
    ensures { IsTrue result → MayAbsorb done.now core.now }
{
    match core.waiting.first() {
        None => false,
        Some(waits) => {
            done.group == waits.group
                && done.held == waits.held
                && done.placed.len() == waits.stamps.len()
        }
    }
}
