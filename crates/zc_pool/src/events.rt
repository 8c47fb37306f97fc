// How events are made.
//
// An ask and a settle make no call. A step writes the first job: its finish stands in the history before the first call, so that nothing
// takes memory after the last one, and is taken out again where the job isn't written.
ghost use Rattle.std.specs.Prelude.{◌≡◌, ◌↔◌, ◌+◌, ◌<◌, ◌≤◌, ◌^◌, length, None, IfOk, OnErr, IsTrue};
ghost use Rattle.zc_tape.specs.Cause.{Rose};
ghost use Rattle.zc_tape.specs.Tape.{Shape, Tape};
ghost use Rattle.zc_tape.proofs.Extends.{Extends};
ghost use Rattle.zc_command.specs.Names.{HasNameBytes, AreConditions};
ghost use Rattle.zc_heart.specs.Core.{IsCore};
ghost use Rattle.zc_heart.specs.Meaning.{MayAbsorb};
ghost use Rattle.zc_group.specs.declared.root.Root.{Root};
ghost use Rattle.zc_open.specs.Acked.{AreAcks};
ghost use Rattle.zc_open.specs.Events.{waiting_of, IsAsBefore, forgotten, failed_after, FinishesNoted};
ghost use Rattle.zc_pool.specs.EventAnswers.{MayAsk, AnswersEvent, IsStep};
ghost use Rattle.zc_pool.specs.Carried.{Carries, IsSomePool, IsLeftAlone, IsSuspended, progress_of_ask, progress_of_settle};
ghost use Rattle.zc_pool.specs.Ran.{RanTo};
ghost use Rattle.zc_pool.specs.Running.{Run, IsPool, IsRunning};

use crate::event::{Event, Progress};
use crate::pool::Pool;
use std::alloc::Global;
use zc_command::{Command, Reply, has_name_bytes};
use zc_group::{CommitFault, Root};
use zc_heart::GroupDone;
use zc_lane::write_job;
use zc_num::{Listed, Name, NoMemory};
use zc_open::{Asked, OpenPool};
use zc_tape::DiskSet;

/// What a run of events came to.
#[derive(Clone, Copy, PartialEq, Eq, Debug)]
pub enum Ran {
    /// All of them were made.
    Whole,
    /// Those before this one were made, counted from 0, and this one may not be made after them.
    Stopped { at: usize },
}

impl<D: DiskSet> Pool<D> {
    /// Makes one event. An ask is answered at once, but for a commit: its session waits, and the open group is sealed. A step writes
    /// the first sealed group, and it alone makes calls of the disks; once one has failed, no step makes any. A settle is the answer to
    /// a session that waits: the number of the call that failed, or that the commit is done, or that it still waits.
    ///
    /// # Errors
    /// Want of memory; the pool and its history are as before. So it is where the history would have more than 2^62 entries.
    pub fn event(&mut self, alloc: Global, event: Event) -> Result<Progress, NoMemory>
        requires pool { IsPool (D.shape self.old.disks) self.old.root self.old.kept }
        requires may { MayAsk self.old.kept event }
        ensures answers { IfOk result (λ progress. AnswersEvent self.old.kept self.new.kept event progress) }

        // Whatever run it is of, it is of it still: its history is legal, and wherever its calls are cut short a crash leaves the files
        // after some of the first entries, among which are the commits that were acknowledged.
        ensures goes_on { (run : Run) → IsRunning (D.shape self.old.disks) (D.tape self.old.disks) run self.old.root self.old.kept
            → IsRunning (D.shape self.old.disks) (D.tape self.new.disks) run self.new.root self.new.kept }
        ensures pool { IsPool (D.shape self.new.disks) self.new.root self.new.kept }

        // Where the acknowledgements were those of the history, they are so still.
        ensures acks { AreAcks self.old.kept → AreAcks self.new.kept }
        ensures memory { OnErr result (IsLeftAlone (D.tape self.old.disks) (D.tape self.new.disks) self.old.root self.new.root self.old.kept self.new.kept) }
        ensures still { (IsStep event → ⊥) → D.tape self.new.disks ≡ D.tape self.old.disks }
        ensures shape { D.shape self.new.disks ≡ D.shape self.old.disks }
        ensures told { (D.tape self.new.disks).told ≡ (D.tape self.old.disks).told }
        ensures extends { IsTrue (D.tape self.old.disks).told → Extends (D.tape self.old.disks) (D.tape self.new.disks) }
        ensures later { D.faults self.old.disks ≤ D.faults self.new.disks }

        // Where a call is told to have failed that was none before, one has failed.
        ensures cause { IfOk result (λ progress. IsSuspended progress → self.old.kept.failed ≡ None → Rose (D.faults self.old.disks) (D.faults self.new.disks)) }
    {
        match event {
            Event::Ask { session, command } => ask(alloc, &mut self.kept, session, command),
            Event::Step => step(alloc, &mut self.disks, &mut self.root, &mut self.kept),
            Event::Settle { session } => settle(&mut self.kept, session),
        }
    }

    /// Makes the events in their order, up to the first that may not be made: a command that doesn't meet its conditions, an ask of a
    /// session that waits, a settle of one that doesn't.
    ///
    /// # Errors
    /// Want of memory; the events before the one that wanted it were made.
    pub fn run(&mut self, alloc: Global, events: Listed<Event>) -> Result<Ran, NoMemory>
        requires pool { IsPool (D.shape self.old.disks) self.old.root self.old.kept }
        ensures ran { IfOk result (λ ran. RanTo self.old.kept self.new.kept events ran) }
        ensures goes_on { (run : Run) → IsRunning (D.shape self.old.disks) (D.tape self.old.disks) run self.old.root self.old.kept
            → IsRunning (D.shape self.old.disks) (D.tape self.new.disks) run self.new.root self.new.kept }
        ensures pool { IsPool (D.shape self.new.disks) self.new.root self.new.kept }
        ensures acks { AreAcks self.old.kept → AreAcks self.new.kept }
        ensures shape { D.shape self.new.disks ≡ D.shape self.old.disks }
        ensures told { (D.tape self.new.disks).told ≡ (D.tape self.old.disks).told }
        ensures extends { IsTrue (D.tape self.old.disks).told → Extends (D.tape self.old.disks) (D.tape self.new.disks) }
        ensures later { D.faults self.old.disks ≤ D.faults self.new.disks }
    {
        let mut at = 0;
        for event in events.into_vec() {
            if !may_ask(&self.kept, &event) {
                return Ok(Ran::Stopped { at });
            }
            self.event(alloc, event)?;
            at += 1;
        }
        Ok(Ran::Whole)
    }
}

// Whether two entries more leave the history with at most 2^62. No memory holds so many.
fn has_room(kept: &OpenPool) -> bool
    ensures room { IsTrue result → length kept.now.history + 2 ≤ 2 ^ 62 }
    ensures core { IsCore kept.now.heart }
{
    let _group = kept.heart.group();
    kept.history.len() <= (1 << 62) - 2
}

// A session asks.
#[tactic(auto, using(crate::proofs::RunningLaws::carries_same, crate::proofs::EventLaws::as_before_same))]
fn ask(
    alloc: Global,
    kept: &mut OpenPool,
    session: u32,
    command: Command,
) -> Result<Progress, NoMemory>
    requires pool { IsSomePool kept.old }
    requires may { MayAsk kept.old (Event.Ask session command) }
    ensures answers { IfOk result (λ progress. AnswersEvent kept.old kept.new (Event.Ask session command) progress) }
    ensures carries { (shape : Shape) (t : Tape) (root : Root) → Carries shape t t root root kept.old kept.new }
    ensures memory { OnErr result (IsAsBefore kept.old kept.new) }
    ensures no_failure { IfOk result (λ progress. IsSuspended progress → ⊥) }
{
    if has_room(kept) {
        ask_within(alloc, kept, session, command)
    } else {
        Err(NoMemory)
    }
}

// A session asks, and there is room for two entries more.
fn ask_within(
    alloc: Global,
    kept: &mut OpenPool,
    session: u32,
    command: Command,
) -> Result<Progress, NoMemory>
    requires pool { IsSomePool kept.old }
    requires may { MayAsk kept.old (Event.Ask session command) }
    requires room { length kept.old.history + 2 ≤ 2 ^ 62 }
    requires core { IsCore kept.old.heart }
    ensures answers { IfOk result (λ progress. AnswersEvent kept.old kept.new (Event.Ask session command) progress) }
    ensures carries { (shape : Shape) (t : Tape) (root : Root) → Carries shape t t root root kept.old kept.new }
    ensures memory { OnErr result (IsAsBefore kept.old kept.new) }
    ensures no_failure { IfOk result (λ progress. IsSuspended progress → ⊥) }
{
    match kept.ask(alloc, session, command) {
        Ok(asked) => Ok(progress_of_ask(asked)),
        Err(NoMemory) => Err(NoMemory),
    }
}

// What an ask came to, as an event tells it.
fn progress_of_ask(asked: Asked) -> Progress
    ensures { result ≡ progress_of_ask asked }
{
    match asked {
        Asked::Answered { reply } => Progress::Answered { reply },
        Asked::Waiting => Progress::Waiting,
    }
}

// A session that waits asks for its answer.
fn settle(kept: &mut OpenPool, session: u32) -> Result<Progress, NoMemory>
    requires may { MayAsk kept.old (Event.Settle session) }
    ensures answers { IfOk result (λ progress. AnswersEvent kept.old kept.new (Event.Settle session) progress) }
    ensures carries { (shape : Shape) (t : Tape) (root : Root) → Carries shape t t root root kept.old kept.new }
    ensures memory { OnErr result (IsAsBefore kept.old kept.new) }
    ensures no_failure { IfOk result (λ progress. IsSuspended progress → ⊥) }
{
    match kept.settle(session) {
        Ok(ended) => Ok(progress_of_settle(ended)),
        Err(NoMemory) => Err(NoMemory),
    }
}

// What a settle came to, as an event tells it.
fn progress_of_settle(ended: Option<Reply>) -> Progress
    ensures { result ≡ progress_of_settle ended }
{
    match ended {
        Some(reply) => Progress::Answered { reply },
        None => Progress::NotYet,
    }
}

// The first job is written, unless a call has failed.
#[tactic(auto, using(crate::proofs::RunningLaws::carries_same, crate::proofs::EventLaws::left_alone_same, zc_tape::proofs::Extends::extends_refl))]
fn step<D: DiskSet>(
    alloc: Global,
    disks: &mut D,
    root: &mut Root,
    kept: &mut OpenPool,
) -> Result<Progress, NoMemory>
    requires pool { IsPool (D.shape disks.old) root.old kept.old }
    ensures answers { IfOk result (λ progress. AnswersEvent kept.old kept.new Event.Step progress) }
    ensures carries { Carries (D.shape disks.old) (D.tape disks.old) (D.tape disks.new) root.old root.new kept.old kept.new }
    ensures memory { OnErr result (IsLeftAlone (D.tape disks.old) (D.tape disks.new) root.old root.new kept.old kept.new) }
    ensures shape { D.shape disks.new ≡ D.shape disks.old }
    ensures told { (D.tape disks.new).told ≡ (D.tape disks.old).told }
    ensures extends { IsTrue (D.tape disks.old).told → Extends (D.tape disks.old) (D.tape disks.new) }
    ensures later { D.faults disks.old ≤ D.faults disks.new }
    ensures cause { IfOk result (λ progress. IsSuspended progress → kept.old.failed ≡ None → Rose (D.faults disks.old) (D.faults disks.new)) }
{
    match kept.failed {
        Some(call) => Ok(Progress::Suspended { call }),
        None if kept.jobs.is_empty() => Ok(Progress::Idle),
        None if has_room(kept) => write_first(alloc, disks, root, kept),
        None => Err(NoMemory),
    }
}

// The first job is written.
#[tactic(auto, using(zc_tape::proofs::Extends::extends_refl))]
fn write_first<D: DiskSet>(
    alloc: Global,
    disks: &mut D,
    root: &mut Root,
    kept: &mut OpenPool,
) -> Result<Progress, NoMemory>
    requires pool { IsPool (D.shape disks.old) root.old kept.old }
    requires some { 0 < length kept.old.jobs }
    requires failed { kept.old.failed ≡ None }
    requires room { length kept.old.history + 2 ≤ 2 ^ 62 }
    ensures answers { IfOk result (λ progress. AnswersEvent kept.old kept.new Event.Step progress) }
    ensures carries { Carries (D.shape disks.old) (D.tape disks.old) (D.tape disks.new) root.old root.new kept.old kept.new }
    ensures memory { OnErr result (IsLeftAlone (D.tape disks.old) (D.tape disks.new) root.old root.new kept.old kept.new) }
    ensures shape { D.shape disks.new ≡ D.shape disks.old }
    ensures told { (D.tape disks.new).told ≡ (D.tape disks.old).told }
    ensures extends { IsTrue (D.tape disks.old).told → Extends (D.tape disks.old) (D.tape disks.new) }
    ensures later { D.faults disks.old ≤ D.faults disks.new }
    ensures cause { IfOk result (λ progress. IsSuspended progress → Rose (D.faults disks.old) (D.faults disks.new)) }
{
    kept.note_finish()?;
    match write_job(alloc, disks, root, kept.jobs.at(0)) {
        Ok((made, done)) => Ok(finish_first(kept, made, &done)),
        Err(CommitFault::NoMemory) => {
            kept.forget_finish();
            Err(NoMemory)
        }
        Err(CommitFault::Failed { made }) => Ok(cut_short(kept, made)),
    }
}

// The first job, whose finish was noted, is done: so many calls were made for it.
fn finish_first(pool: &mut OpenPool, made: u64, done: &GroupDone) -> Progress
    requires some { 0 < length pool.old.jobs }
    requires may { MayAbsorb done.now pool.old.heart }
    requires held { done.now.held ≤ 2 ^ 62 }
    requires width { pool.old.calls + 2 ^ 64 ≤ 2 ^ 128 }
    ensures finishes { FinishesNoted pool.old pool.new made done.now }
    ensures few { made < 2 ^ 64 }
    ensures told { result ≡ Progress.Stepped }
{
    pool.finish(made, done);
    Progress::Stepped
}

// So many calls were made for the job whose finish was noted, and the last of them failed.
fn cut_short(pool: &mut OpenPool, made: u64) -> Progress
    requires some { 0 < length pool.old.history }
    requires width { pool.old.calls + 2 ^ 64 ≤ 2 ^ 128 }
    ensures failed { pool.new ≡ failed_after (forgotten pool.old) made }
    ensures few { made < 2 ^ 64 }
    ensures told { result ≡ Progress.Suspended (pool.old.calls + made) }
{
    pool.forget_finish();
    pool.fail(made);
    Progress::Suspended { call: pool.calls }
}

// Whether the event may be made.
fn may_ask(kept: &OpenPool, event: &Event) -> bool
    ensures { IsTrue result ↔ MayAsk kept.now event.now }
{
    match event {
        Event::Ask { session, command } => meets(command) && is_free(kept, *session),
        Event::Step => true,
        Event::Settle { session } => kept.waits(*session),
    }
}

// Whether the session doesn't wait.
#[tactic(auto, using(crate::proofs::EventLaws::none_is))]
fn is_free(kept: &OpenPool, session: u32) -> bool
    ensures { IsTrue result ↔ (waiting_of session kept.now.waits ≡ None) }
{
    !kept.waits(session)
}

// Whether the command meets its conditions.
fn meets(command: &Command) -> bool
    ensures { IsTrue result ↔ AreConditions command.now }
{
    match command {
        Command::Mkds { dataset } | Command::Rmds { dataset } | Command::Mount { dataset } =>
            is_named(dataset),
        Command::Create { dataset, file }
        | Command::Remove { dataset, file }
        | Command::Stat { dataset, file } => is_named(dataset) && is_named(file),
        Command::Write {
            dataset,
            file,
            offset,
            ..
        } => is_named(dataset) && is_named(file) && is_small(*offset),
        Command::Fill {
            dataset,
            file,
            offset,
            length,
            ..
        }
        | Command::Read {
            dataset,
            file,
            offset,
            length,
        } => { is_named(dataset) && is_named(file) && is_small(*offset) && is_small(*length) }
        Command::Truncate {
            dataset,
            file,
            size,
        } => is_named(dataset) && is_named(file) && is_small(*size),
        Command::Commit => true,
    }
}

// Whether there is at least one byte, and only name bytes.
fn is_named(name: &Name) -> bool
    ensures { IsTrue result ↔ HasNameBytes name.now }
{
    has_name_bytes(name.bytes())
}

// Whether the number is at most 2^62.
fn is_small(number: u64) -> bool
    ensures { IsTrue result ↔ (number ≤ 2 ^ 62) }
{
    number <= 1 << 62
}
