// What is asked.
//
// All that an ask adds is pushed first, with placeholders, and set in its place once the files gave the answer. A push may need memory,
// a set needs none. A reply is copied into the history. Only one with bytes needs memory for that, and it leaves the files as they
// were.
ghost use Rattle.std.specs.Prelude.{◌≡◌, ◌+◌, ◌-◌, ◌^◌, ◌<◌, ◌≤◌, [], ◌∷◌, ◌++◌, false, Some, IfOk, OnOk, OnErr, length};
ghost use Rattle.zc_command.specs.Names.{AreConditions};
ghost use Rattle.zc_command.specs.declared.command.Command.TheVariants as command;
ghost use Rattle.zc_plain.specs.declared.entry.Entry.TheVariants as entry;
ghost use Rattle.zc_plain.specs.History.{is_waiting};
ghost use Rattle.zc_plain.specs.IsPlain.{AreNextUpTo};
ghost use Rattle.zc_heart.specs.Core.{pool_of};
ghost use Rattle.zc_open.specs.Events.{IsAsked, IsAsBefore, Asks, AsksCommit};

use crate::OpenPool;
use crate::ack::Waiting;
use crate::copying::answer_twice;
use crate::entries::{push_two, set_two};
use crate::kinds::{is_changed, is_waiting};
use std::alloc::Global;
use zc_command::{Command, Reply};
use zc_heart::Sealed;
use zc_num::{Listed, NoMemory, Queue};
use zc_plain::Entry;

/// What an ask came to.
#[derive(Debug, Drop)]
pub enum Asked {
    /// The command is answered.
    Answered { reply: Reply },
    /// The session waits for the disks.
    Waiting,
}

impl OpenPool {
    /// A session asks a command. It is answered, but for a commit: the open group is sealed, and the session waits for it.
    ///
    /// # Errors
    /// Want of memory; nothing has changed.
    pub fn ask(&mut self, alloc: Global, session: u32, command: Command) -> Result<Asked, NoMemory>
        requires conditions { AreConditions command }
        requires few { length self.old.history < 2 ^ 62 }
        requires last { self.old.heart.last ≤ length self.old.history }
        requires numbers { AreNextUpTo (2 ^ 64 - 2) (pool_of self.old.heart) }
        requires group { self.old.heart.group < 2 ^ 64 - 1 }
        ensures ok { IfOk result (λ asked. IsAsked self.old self.new session command asked) }
        ensures err { OnErr result (IsAsBefore self.old self.new) }
    {
        if is_waiting(&command) {
            ask_commit(self, alloc, session)?;
            Ok(Asked::Waiting)
        } else {
            let reply = ask_now(self, session, command)?;
            Ok(Asked::Answered { reply })
        }
    }
}

// The command is answered, and both stand in the history.
fn ask_now(pool: &mut OpenPool, session: u32, command: Command) -> Result<Reply, NoMemory>
    requires at_once { is_waiting command ≡ false }
    requires conditions { AreConditions command }
    requires few { length pool.old.history < 2 ^ 62 }
    requires last { pool.old.heart.last ≤ length pool.old.history }
    requires numbers { AreNextUpTo (2 ^ 64 - 2) (pool_of pool.old.heart) }
    ensures ok { IfOk result (λ reply. Asks pool.old pool.new session command reply) }
    ensures err { OnErr result (IsAsBefore pool.old pool.new) }
{
    let before = pool.history.len();
    push_two(
        &mut pool.history,
        Entry::Seal { group: 0 },
        Entry::Seal { group: 0 },
    )?;
    match answer_twice(&mut pool.heart, before as u64 + 1, &command) {
        Err(fault) => {
            pool.history.truncate(before);
            Err(fault)
        }
        Ok((reply, copy)) => {
            pool.changed = is_changed(pool.changed, &command, &reply);
            let ask = Entry::Ask { session, command };
            let answer = Entry::Answer {
                session,
                reply: copy,
            };
            set_two(&mut pool.history, before, ask, answer);
            Ok(reply)
        }
    }
}

// The open group is sealed, and the session waits for it.
fn ask_commit(pool: &mut OpenPool, alloc: Global, session: u32) -> Result<(), NoMemory>
    requires few { length pool.old.history < 2 ^ 62 }
    requires group { pool.old.heart.group < 2 ^ 64 - 1 }
    ensures ok { OnOk result (AsksCommit pool.old pool.new session) }
    ensures err { OnErr result (IsAsBefore pool.old pool.new) }
{
    let group = pool.heart.group();
    let entries = pool.history.len();
    let waiting = Waiting {
        session,
        ask: entries as u64 + 1,
        group,
    };
    let waits = pool.waits.len();
    let jobs = pool.jobs.len();
    push_commit(pool, alloc, waiting)?;
    match pool.heart.seal() {
        Err(fault) => {
            pool.history.truncate(entries);
            pool.waits.truncate(waits);
            pool.jobs.truncate(jobs);
            Err(fault)
        }
        Ok(sealed) => {
            pool.jobs.set(jobs, sealed);
            pool.changed = false;
            Ok(())
        }
    }
}

// The entries of a commit, its wait, and a place for its job.
fn push_commit(pool: &mut OpenPool, alloc: Global, waiting: Waiting) -> Result<(), NoMemory>
    ensures ok { OnOk result (pool.new ≡ record pool.old {
      history = pool.old.history ++ entry.Ask waiting.session command.Commit ∷ entry.Seal waiting.group ∷ [];
      jobs = pool.old.jobs ++ record { group = waiting.group; held = 0; changes = [] } ∷ [];
      waits = pool.old.waits ++ waiting ∷ [];
    }) }
    ensures err { OnErr result (pool.new ≡ pool.old) }
{
    let before = pool.history.len();
    let ask = Entry::Ask {
        session: waiting.session,
        command: Command::Commit,
    };
    let seal = Entry::Seal {
        group: waiting.group,
    };
    push_two(&mut pool.history, ask, seal)?;
    match push_wait(alloc, &mut pool.waits, &mut pool.jobs, waiting) {
        Err(fault) => {
            pool.history.truncate(before);
            Err(fault)
        }
        Ok(()) => Ok(()),
    }
}

// A wait, and a place for the job that it waits for.
fn push_wait(
    alloc: Global,
    waits: &mut Listed<Waiting>,
    jobs: &mut Queue<Sealed>,
    waiting: Waiting,
) -> Result<(), NoMemory>
    ensures waits { OnOk result (waits.new ≡ waits.old ++ waiting ∷ []) }
    ensures jobs { OnOk result (jobs.new ≡ jobs.old ++ record { group = waiting.group; held = 0; changes = [] } ∷ []) }
    ensures err_waits { OnErr result (waits.new ≡ waits.old) }
    ensures err_jobs { OnErr result (jobs.new ≡ jobs.old) }
{
    let before = waits.len();
    waits.push(waiting)?;
    let place = Sealed {
        group: waiting.group,
        held: 0,
        changes: Listed::new(alloc),
    };
    match jobs.push(place) {
        Err(fault) => {
            waits.truncate(before);
            Err(fault)
        }
        Ok(()) => Ok(()),
    }
}
