// What an entry of a history comes to: the reply, where there is one at once, and the pool after the entry.
ghost use Rattle.std.specs.Prelude.{◌≡◌, ◌-◌, ◌^◌, IfOk, OnErr};
ghost use Rattle.zc_command.specs.Names.{AreConditions};
ghost use Rattle.zc_plain.specs.IsPlain.{IsPlain, AreNextUpTo, IsTally};
ghost use Rattle.zc_plain.specs.Answer.{Answers, Counts, answer, named_answer, blocks_of_command, counted};
ghost use Rattle.zc_plain.specs.History.{MeetsConditions, is_waiting, reply_to, pool_after_command, tally_after, reply_at, next_pool, next_tally};

use crate::commands::{
    create, fill, mkds, mount, read, refused, remove, rmds, stat, truncate, write,
};
use crate::finding::refuse_long;
use crate::tally::{Tally, finish, seal};
use crate::{Entry, PlainPool};
use std::alloc::Global;
use zc_command::{Command, Reply};
use zc_num::NoMemory;

/// What the entry with the number comes to.
///
/// # Errors
/// Want of memory; nothing has changed.
pub fn entry_reply(
    alloc: Global,
    pool: &mut PlainPool,
    tally: &mut Tally,
    number: u64,
    entry: &Entry,
) -> Result<Option<Reply>, NoMemory>
    requires plain { IsPlain pool.old }
    requires counts { IsTally tally.old }
    requires numbers { AreNextUpTo (2 ^ 64 - 2) pool.old }
    requires conditions { MeetsConditions entry.now }
    ensures ok { IfOk result (λ reply. (reply ≡ reply_at number tally.old pool.old entry.now) × (pool.new ≡ next_pool number tally.old pool.old entry.now) × (tally.new ≡ next_tally number tally.old pool.old entry.now)) }
    ensures err { OnErr result ((pool.new ≡ pool.old) × (tally.new ≡ tally.old)) }
{
    match entry {
        Entry::Ask { command, .. } => command_reply(alloc, pool, tally, number, command),
        Entry::Answer { .. } => Ok(None),
        Entry::Seal { group } => {
            seal(tally, *group)?;
            Ok(None)
        }
        Entry::Finish { group, held } => {
            finish(alloc, tally, *group, *held);
            Ok(None)
        }
    }
}

// What the command with the number comes to.
#[tactic(auto, using(crate::proofs::HistoryLaws::waiting_changes_nothing, crate::proofs::HistoryLaws::waiting_counts_nothing))]
fn command_reply(
    alloc: Global,
    pool: &mut PlainPool,
    tally: &mut Tally,
    number: u64,
    command: &Command,
) -> Result<Option<Reply>, NoMemory>
    requires plain { IsPlain pool.old }
    requires counts { IsTally tally.old }
    requires numbers { AreNextUpTo (2 ^ 64 - 2) pool.old }
    requires conditions { AreConditions command.now }
    ensures ok { IfOk result (λ reply. (reply ≡ reply_to number tally.old pool.old command.now) × (pool.new ≡ pool_after_command number tally.old pool.old command.now) × (tally.new ≡ tally_after number tally.old pool.old command.now)) }
    ensures err { OnErr result ((pool.new ≡ pool.old) × (tally.new ≡ tally.old)) }
{
    if is_waiting(command) {
        return Ok(None);
    }
    let reply = answer(alloc, pool, tally, number, command)?;
    Ok(Some(reply))
}

// Whether the command is answered in an entry of its own.
fn is_waiting(command: &Command) -> bool
    ensures { result ≡ is_waiting command.now }
{
    match command {
        Command::Mkds { .. }
        | Command::Rmds { .. }
        | Command::Mount { .. }
        | Command::Create { .. }
        | Command::Remove { .. }
        | Command::Write { .. }
        | Command::Fill { .. }
        | Command::Truncate { .. }
        | Command::Read { .. }
        | Command::Stat { .. } => false,
        Command::Commit => true,
    }
}

// The answer to a command: names first.
#[tactic(auto, unfolding(crate::specs::Answer::answer), using(crate::proofs::ChargeLaws::nothing_counted))]
fn answer(
    alloc: Global,
    pool: &mut PlainPool,
    tally: &mut Tally,
    number: u64,
    command: &Command,
) -> Result<Reply, NoMemory>
    requires plain { IsPlain pool.old }
    requires counts { IsTally tally.old }
    requires numbers { AreNextUpTo (2 ^ 64 - 2) pool.old }
    requires conditions { AreConditions command.now }
    ensures pool { Answers pool.old pool.new result (answer number tally.old pool.old command.now) }
    ensures tally { Counts tally.old tally.new result (counted tally.old (blocks_of_command tally.old pool.old command.now) (answer number tally.old pool.old command.now)) }
{
    match refuse_long(command) {
        Err(refusal) => Ok(refused(refusal)),
        Ok(()) => named_answer(alloc, pool, tally, number, command),
    }
}

// The answer to a command whose names are short enough.
#[tactic(auto, unfolding(crate::specs::Answer::blocks_of_command), using(crate::proofs::ChargeLaws::nothing_counted))]
fn named_answer(
    alloc: Global,
    pool: &mut PlainPool,
    tally: &mut Tally,
    number: u64,
    command: &Command,
) -> Result<Reply, NoMemory>
    requires plain { IsPlain pool.old }
    requires counts { IsTally tally.old }
    requires numbers { AreNextUpTo (2 ^ 64 - 2) pool.old }
    requires conditions { AreConditions command.now }
    ensures pool { Answers pool.old pool.new result (named_answer number tally.old pool.old command.now) }
    ensures tally { Counts tally.old tally.new result (counted tally.old (blocks_of_command tally.old pool.old command.now) (named_answer number tally.old pool.old command.now)) }
{
    match command {
        Command::Mkds { dataset } => mkds(alloc, pool, dataset),
        Command::Rmds { dataset } => rmds(pool, dataset),
        Command::Mount { dataset } => mount(pool, dataset),
        Command::Create { dataset, file } => create(alloc, pool, dataset, file),
        Command::Remove { dataset, file } => remove(pool, dataset, file),
        Command::Write {
            dataset,
            file,
            offset,
            bytes,
        } => write(
            alloc,
            pool,
            tally,
            number,
            dataset,
            file,
            *offset,
            bytes.bytes(),
        ),
        Command::Fill {
            dataset,
            file,
            offset,
            length,
            byte,
        } => fill(
            alloc, pool, tally, number, dataset, file, *offset, *length, *byte,
        ),
        Command::Truncate {
            dataset,
            file,
            size,
        } => truncate(alloc, pool, tally, number, dataset, file, *size),
        Command::Read {
            dataset,
            file,
            offset,
            length,
        } => read(alloc, pool, dataset, file, *offset, *length),
        Command::Stat { dataset, file } => stat(pool, dataset, file),
        Command::Commit => Ok(Reply::Done),
    }
}
