// How a wait ends.
ghost use Rattle.std.specs.Prelude.{◌≡◌, ◌==◌, ◌≤◌, Some, None, IfOk, OnErr, IsSome, is_some, position};
ghost use Rattle.std.specs.Option.{option_copied};
ghost use Rattle.zc_command.specs.declared.refusal.Refusal.TheVariants as refusal;
ghost use Rattle.zc_command.specs.declared.reply.Reply.TheVariants as reply;
ghost use Rattle.zc_open.specs.Events.{waiting_of, without_waiting, EndsWait, Settles};

use crate::OpenPool;
use crate::ack::{Ack, Waiting};
use zc_command::{Refusal, Reply};
use zc_num::{Listed, NoMemory};
use zc_plain::Entry;

impl OpenPool {
    /// Whether the session waits.
    pub fn waits(&self, session: u32) -> bool
        ensures { result ≡ is_some (waiting_of session self.now.waits) }
    {
        wait_of(self.waits.as_slice(), session).is_some()
    }

    /// The answer to a session that waits: the number of the call that failed, if one did; Done, once the group is finished that it
    /// sealed; else none yet.
    ///
    /// # Errors
    /// Want of memory; nothing has changed.
    pub fn settle(&mut self, session: u32) -> Result<Option<Reply>, NoMemory>
        requires waits { IsSome (waiting_of session self.old.waits) }
        ensures ok { IfOk result (λ ended. Settles self.old self.new session ended) }
        ensures err { OnErr result (self.new ≡ self.old) }
    {
        let waiting = match wait_of(self.waits.as_slice(), session) {
            Some(waiting) => *waiting,
            None => unreachable!(),
        };
        match self.failed {
            Some(call) => {
                let reply = end_failed(self, waiting, call)?;
                Ok(Some(reply))
            }
            None if self.group < waiting.group => Ok(None),
            None => {
                let reply = end_done(self, waiting)?;
                Ok(Some(reply))
            }
        }
    }
}

// What the session waits for.
fn wait_of(waits: &[Waiting], session: u32) -> Option<&Waiting>
    ensures { option_copied result ≡ waiting_of session waits.now }
{
    waits.iter().find(|waiting| waiting.session == session)
}

// The place of its wait among them.
fn wait_index(waits: &Listed<Waiting>, session: u32) -> Option<usize>
    ensures { result ≡ position (λ waiting. waiting.session == session) waits.now }
{
    waits
        .as_slice()
        .iter()
        .position(|waiting| waiting.session == session)
}

// The session waits no more.
fn leave(waits: &mut Listed<Waiting>, session: u32)
    ensures { waits.new ≡ without_waiting session waits.old }
{
    while let Some(place) = wait_index(waits, session) {
        waits.remove(place);
    }
}

// The reply that tells which call failed.
fn failed_at(call: u128) -> Reply
    ensures { result ≡ reply.No (refusal.Eio call) }
{
    Reply::No {
        refusal: Refusal::Eio { call },
    }
}

// The wait ends in the number of the call that failed.
fn end_failed(pool: &mut OpenPool, waiting: Waiting, call: u128) -> Result<Reply, NoMemory>
    ensures ok { IfOk result (λ ended. EndsWait pool.old pool.new waiting ended (Some call)) }
    ensures err { OnErr result (pool.new ≡ pool.old) }
{
    let answer = Entry::Answer {
        session: waiting.session,
        reply: failed_at(call),
    };
    pool.history.push(answer)?;
    leave(&mut pool.waits, waiting.session);
    Ok(failed_at(call))
}

// The wait ends in Done, and that is an acknowledgement.
fn end_done(pool: &mut OpenPool, waiting: Waiting) -> Result<Reply, NoMemory>
    requires { waiting.group ≤ pool.old.group }
    ensures ok { IfOk result (λ ended. EndsWait pool.old pool.new waiting ended None) }
    ensures err { OnErr result (pool.new ≡ pool.old) }
{
    let before = pool.history.len();
    let answer = Entry::Answer {
        session: waiting.session,
        reply: Reply::Done,
    };
    pool.history.push(answer)?;
    let ack = Ack {
        session: waiting.session,
        ask: waiting.ask,
        dataset: None,
        calls: pool.calls,
    };
    match pool.acks.push(ack) {
        Err(fault) => {
            pool.history.truncate(before);
            Err(fault)
        }
        Ok(()) => {
            leave(&mut pool.waits, waiting.session);
            Ok(Reply::Done)
        }
    }
}
