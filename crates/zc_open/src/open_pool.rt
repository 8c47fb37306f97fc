// What a pool keeps in memory beside its root.
ghost use Rattle.std.specs.Prelude.{◌≡◌, ◌↔◌, [], false, IsTrue};
ghost use Rattle.zc_open.specs.Events.{begun_pool};

use crate::ack::{Ack, Waiting};
use std::alloc::Global;
use zc_heart::{Heart, Sealed};
use zc_num::{Listed, Queue};
use zc_plain::Entry;

/// A pool in memory.
///
/// Each call's clause says exactly what it adds, or that nothing has changed where memory is wanting: `Asks`, `AsksCommit`, `Settles`,
/// `Notes`, `FinishesNoted`, `failed_after` (specs/Events.antt). What stays true over any run of calls is proved by the public laws in
/// proofs/, one for each kind of call:
///
/// - What is kept in memory is what the history says, and the history is legal (`IsHeard`, HeardLaws). So each command is answered as
///   plain files answer it, a commit is answered Done only after the finish of its group, a group is finished only once and after its
///   seal, and `EIO call N` is told only where the N-th call failed.
/// - The pool of the root stands in the history, each job leads from there to the next such pool, and the open group to what the files
///   are now; each commit that was acknowledged was asked before the root's (`IsLined`, PointLaws).
/// - Who waits, and which commits were acknowledged in which order, is what the history alone says; no session waits twice (`AreAcks`,
///   AckLaws).
/// - The conditions of the calls hold as long as the history has fewer than 2^62 entries and the claim group is at most 2^62
///   (`heard_numbers`, `heard_group`, `heard_calls`).
#[derive(Drop)]
pub struct OpenPool {
    /// The files.
    pub heart: Heart,
    /// All that was asked, answered, sealed and finished, in order.
    pub history: Listed<Entry>,
    /// The commits that were answered Done, in order.
    pub acks: Listed<Ack>,
    /// The sealed groups that aren't written, in order.
    pub jobs: Queue<Sealed>,
    /// The sessions that wait, in the order in which they asked.
    pub waits: Listed<Waiting>,
    /// Whether a change was answered without refusal since the last seal.
    pub changed: bool,
    /// The group of the root that stands.
    pub group: u64,
    /// The writes and syncs since the import began.
    pub calls: u128,
    /// The first of them that failed, counted from 1.
    pub failed: Option<u128>,
}

impl OpenPool {
    /// A pool after an import that made so many calls, whose claim group is this one.
    pub fn begin(alloc: Global, heart: Heart, group: u64, calls: u128) -> Self
        ensures { result ≡ begun_pool heart group calls }
    {
        OpenPool {
            heart,
            history: Listed::new(alloc),
            acks: Listed::new(alloc),
            jobs: Queue::new(alloc),
            waits: Listed::new(alloc),
            changed: false,
            group,
            calls,
            failed: None,
        }
    }

    /// Whether all is written: no job waits, and nothing was changed since the last seal.
    pub fn settled(&self) -> bool
        ensures { IsTrue result ↔ (self.now.jobs ≡ []) × (self.now.changed ≡ false) }
    {
        self.jobs.is_empty() && !self.changed
    }
}
