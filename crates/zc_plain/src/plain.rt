ghost use Rattle.std.specs.Prelude.{◌≡◌, ◌^◌, ◌<◌, ◌≤◌, IfOk, IfSome};
ghost use Rattle.std.specs.Option.{option_copied};
ghost use Rattle.zc_plain.specs.PlainPool.{new_pool};
ghost use Rattle.zc_plain.specs.IsPlain.{IsPlain, IsPlainFile, AreNextUpTo};
ghost use Rattle.zc_plain.specs.Answer.{file_of};

use crate::answering::entry_reply;
use crate::finding::{file_at, path_of};
use crate::held::held_by;
use crate::tally::Tally;
use crate::{Entry, PlainFile, PlainPool};
use std::alloc::Global;
use std::marker::Model;
use zc_command::Reply;
use zc_num::{Limits, Listed, Name, NoMemory};

/// A plain pool after the entries of a history.
#[derive(Debug, Drop)]
pub struct Plain {
    alloc: Global,
    pool: PlainPool,
    tally: Tally,
    // The number of the last entry.
    entries: u64,
}

impl Model for Plain {
    ghost use Rattle.zc_plain.specs.History.{PlainState};
    ghost use Rattle.zc_plain.specs.IsPlain.{IsState};

    ghost Value = { PlainState };

    ghost view = { λ plain. record { pool = plain.pool; tally = plain.tally; entries = plain.entries } };

    ghost invariant = { λ plain. IsState (record { pool = plain.pool; tally = plain.tally; entries = plain.entries }) };
}

impl Plain {
    ghost use Rattle.zc_plain.specs.History.{begun, Steps, MeetsConditions};
    ghost use Rattle.zc_plain.specs.IsPlain.{IsState};
    ghost use Rattle.zc_plain.specs.Promises.{Promises};

    /// An empty pool before any entry.
    #[tactic(auto, using(crate::proofs::HistoryLaws::state_at_start, crate::proofs::HistoryLaws::held_at_start))]
    pub fn start(alloc: Global, limits: Limits) -> Self
        ensures { result ≡ begun (new_pool limits) }
    {
        let pool = PlainPool {
            limits,
            next_dataset: 1,
            datasets: Listed::new(alloc),
        };
        Plain {
            alloc,
            pool,
            tally: Tally {
                sealed: Listed::new(alloc),
                held: 0,
                made: Listed::new(alloc),
            },
            entries: 0,
        }
    }

    /// A pool that is there before any entry, as it was found.
    ///
    /// # Errors
    /// Want of memory.
    pub fn found(alloc: Global, pool: PlainPool) -> Result<Self, NoMemory>
        requires plain { IsPlain pool }
        requires numbers { AreNextUpTo (2 ^ 62) pool }
        ensures { IfOk result (λ plain. plain ≡ begun pool) }
    {
        let held = held_by(alloc, &pool)?;
        Ok(Plain {
            alloc,
            pool,
            tally: Tally {
                sealed: Listed::new(alloc),
                held,
                made: Listed::new(alloc),
            },
            entries: 0,
        })
    }

    /// How many entries there were. The next one has the number after theirs.
    pub fn entries(&self) -> u64
        ensures { result ≡ self.now.entries }
    {
        self.entries
    }

    /// The pool.
    pub fn pool(&self) -> &PlainPool
        ensures value { result.now ≡ self.now.pool }
        ensures state { IsState self.now }
    {
        &self.pool
    }

    /// The reply that plain files give to an Ask, and the pool that comes of it: `None` for a command that waits for the disks, and for
    /// every other entry.
    ///
    /// # Errors
    /// Want of memory; nothing has changed.
    #[tactic(auto, unfolding(crate::specs::History::step, crate::specs::History::reply_of), using(crate::proofs::HistoryLaws::state_after_step))]
    pub fn apply(&mut self, entry: &Entry) -> Result<Option<Reply>, NoMemory>
        requires conditions { MeetsConditions entry.now }
        requires few { self.old.entries < 2 ^ 63 }
        ensures steps { Steps self.old self.new result entry.now }
        ensures promises { IfOk result (λ reply. Promises self.old self.new reply entry.now) }
    {
        let reply = entry_reply(
            self.alloc,
            &mut self.pool,
            &mut self.tally,
            self.entries + 1,
            entry,
        )?;
        self.entries += 1;
        Ok(reply)
    }

    /// The file of the name in the dataset of the name, if there is one.
    #[tactic(auto, unfolding(crate::specs::Answer::file_of))]
    pub fn file(&self, dataset: &Name, file: &Name) -> Option<&PlainFile>
        ensures found { option_copied result ≡ file_of dataset.now file.now self.now.pool }
        ensures plain { IfSome result (λ file. IsPlainFile file.now) }
    {
        match path_of(&self.pool, dataset, file) {
            Err(_) => None,
            Ok(path) => Some(file_at(&self.pool, path)),
        }
    }
}
