// The lines of a script, asked one after the other.
//
// Between two lines no session waits, and no group is to be written, unless a call has failed. So a commit takes three events: it is
// asked, the one group that waits is written, and the wait is ended.
ghost use Rattle.std.specs.Prelude.{◌≡◌, ◌∷◌, [], ◌++◌, List, codes, None, IfOk, OnOk, OnErr};
ghost use Rattle.std.specs.List.{AllByRecursion};
ghost use Rattle.std.specs.Fmt.{decimal};
ghost use Rattle.zc_command.specs.Names.{AreConditions};
ghost use Rattle.zc_command.specs.Texts.{reply_text};
ghost use Rattle.zc_command.specs.declared.command.Command.TheVariants.{Commit};
ghost use Rattle.zc_script.specs.declared.act.Line.{Line as LineOf};
ghost use Rattle.zc_plain.specs.History.{is_waiting};
ghost use Rattle.zc_open.specs.declared.ack.Waiting.{Waiting as WaitingOf};
ghost use Rattle.zc_open.specs.Events.{IsAsBefore};
ghost use Rattle.zc_pool.specs.EventAnswers.{MayAsk, AnswersEvent};
ghost use Rattle.zc_pool.specs.Opened.{IsNew};
ghost use Rattle.zc_pool.specs.Running.{IsPool};
ghost use Rattle.zc_prog.specs.Played.{Asking, askings_in, askings_before, run_of, AddsLines, last_session, is_done, end_of, end_line, with_asking};
ghost use Rattle.zc_prog.specs.Session.{AreActs, IsFront};
ghost use Rattle.zc_prog.specs.Midway.{Goes, IsQuiet, HasSealed, HasWritten, Waits, MayBeAnswered, EndsLast, IsAnswered, EndsBy, AddsReply, AddsEnd, AddsWhole, AddsLine, first_mark, asking, AsksSome, MeetsAct, AddsEndLine, HasEnded};

use crate::session::Played;
use std::alloc::Global;
use zc_command::{Command, Reply};
use zc_num::{Listed, NoMemory};
use zc_pool::{Event, Pool, Progress};
use zc_script::{Act, Line, print_no_pool, print_reply};
use zc_tape::DiskSet;

// The session of the commit that ends a run.
const LAST_SESSION: u32 = 16;

// ---- events

// Makes an event.
fn make<D: DiskSet>(alloc: Global, pool: &mut Pool<D>, event: Event) -> Result<Progress, NoMemory>
    requires pool { IsPool (D.shape pool.old.disks) pool.old.root pool.old.kept }
    requires may { MayAsk pool.old.kept event }
    requires exact { EndsLast pool.old.kept event }
    ensures goes { Goes D.shape D.tape D.faults pool.old pool.new }
    ensures pool { IsPool (D.shape pool.new.disks) pool.new.root pool.new.kept }
    ensures answers { IfOk result (λ progress. AnswersEvent pool.old.kept pool.new.kept event progress) }
    ensures memory { OnErr result (IsAsBefore pool.old.kept pool.new.kept) }
{
    pool.event(alloc, event)
}

// The reply of an event that answered.
fn reply_of(progress: Progress) -> Reply
    requires { IsAnswered progress }
    ensures { progress ≡ Progress.Answered result }
{
    match progress {
        Progress::Answered { reply } => reply,
        _ => unreachable!(),
    }
}

// Ends the session's wait.
fn settle<D: DiskSet>(alloc: Global, pool: &mut Pool<D>, session: u32) -> Result<Reply, NoMemory>
    requires pool { IsPool (D.shape pool.old.disks) pool.old.root pool.old.kept }
    requires may { MayBeAnswered pool.old.kept session }
    ensures goes { Goes D.shape D.tape D.faults pool.old pool.new }
    ensures pool { IsPool (D.shape pool.new.disks) pool.new.root pool.new.kept }
    ensures quiet { OnOk result (IsQuiet pool.new.kept) }
    ensures ends { IfOk result (λ reply. EndsBy pool.new.kept.failed reply) }
    ensures adds { (waiting : WaitingOf) → HasWritten pool.old.kept session waiting → IfOk result (λ reply. AddsReply pool.old.kept pool.new.kept waiting reply) }
    ensures asked { askings_in pool.new.kept.history ≡ askings_in pool.old.kept.history }
{
    match make(alloc, pool, Event::Settle { session }) {
        Ok(progress) => Ok(reply_of(progress)),
        Err(NoMemory) => Err(NoMemory),
    }
}

// Writes the group that the session sealed, and ends its wait.
fn wait<D: DiskSet>(alloc: Global, pool: &mut Pool<D>, session: u32) -> Result<Reply, NoMemory>
    requires pool { IsPool (D.shape pool.old.disks) pool.old.root pool.old.kept }
    requires waits { Waits pool.old.kept session }
    ensures goes { Goes D.shape D.tape D.faults pool.old pool.new }
    ensures pool { IsPool (D.shape pool.new.disks) pool.new.root pool.new.kept }
    ensures quiet { OnOk result (IsQuiet pool.new.kept) }
    ensures ends { IfOk result (λ reply. EndsBy pool.new.kept.failed reply) }
    ensures adds { (waiting : WaitingOf) → HasSealed pool.old.kept session waiting
        → IfOk result (λ reply. AddsEnd pool.old.kept pool.new.kept waiting reply) }
    ensures asked { askings_in pool.new.kept.history ≡ askings_in pool.old.kept.history }
{
    make(alloc, pool, Event::Step)?;
    settle(alloc, pool, session)
}

// Asks a command, and gives its reply: at once, or once its group is written.
fn ask<D: DiskSet>(
    alloc: Global,
    pool: &mut Pool<D>,
    session: u32,
    command: Command,
) -> Result<Reply, NoMemory>
    requires pool { IsPool (D.shape pool.old.disks) pool.old.root pool.old.kept }
    requires quiet { IsQuiet pool.old.kept }
    requires conditions { AreConditions command }
    ensures goes { Goes D.shape D.tape D.faults pool.old pool.new }
    ensures pool { IsPool (D.shape pool.new.disks) pool.new.root pool.new.kept }
    ensures quiet { OnOk result (IsQuiet pool.new.kept) }
    ensures ends { IfOk result (λ reply. command ≡ Commit → EndsBy pool.new.kept.failed reply) }
    ensures adds { IfOk result (λ reply. AddsWhole pool.old.kept pool.new.kept session command reply) }
    ensures asked { AsksSome pool.old.kept.history pool.new.kept.history (asking session command ∷ []) }
{
    match make(alloc, pool, Event::Ask { session, command }) {
        Ok(Progress::Answered { reply }) => Ok(reply),
        Ok(Progress::Waiting) => wait(alloc, pool, session),
        Ok(_) => unreachable!(),
        Err(NoMemory) => Err(NoMemory),
    }
}

// ---- lines

// Asks the command of a line, and adds its reply.
fn play_command<D: DiskSet>(
    alloc: Global,
    pool: &mut Pool<D>,
    session: u32,
    command: Command,
    out: &mut Vec<u8>,
) -> Result<(), NoMemory>
    requires pool { IsPool (D.shape pool.old.disks) pool.old.root pool.old.kept }
    requires quiet { IsQuiet pool.old.kept }
    requires conditions { AreConditions command }
    ensures goes { Goes D.shape D.tape D.faults pool.old pool.new }
    ensures pool { IsPool (D.shape pool.new.disks) pool.new.root pool.new.kept }
    ensures quiet { OnOk result (IsQuiet pool.new.kept) }
    ensures adds { OnOk result ((reply : Reply) × AddsWhole pool.old.kept pool.new.kept session command reply
        × (out.new.items ≡ out.old.items ++ (reply_text reply ++ codes "\n"))) }
    ensures asked { AsksSome pool.old.kept.history pool.new.kept.history (asking session command ∷ []) }
{
    match ask(alloc, pool, session, command) {
        Ok(reply) => print_reply(alloc, &reply, out),
        Err(NoMemory) => Err(NoMemory),
    }
}

// Does what a line asks for, and adds the reply.
fn play_line<D: DiskSet>(
    alloc: Global,
    pool: &mut Pool<D>,
    line: Line,
    out: &mut Vec<u8>,
) -> Result<(), NoMemory>
    requires pool { IsPool (D.shape pool.old.disks) pool.old.root pool.old.kept }
    requires quiet { IsQuiet pool.old.kept }
    requires conditions { MeetsAct line.act }
    ensures goes { Goes D.shape D.tape D.faults pool.old pool.new }
    ensures pool { IsPool (D.shape pool.new.disks) pool.new.root pool.new.kept }
    ensures quiet { OnOk result (IsQuiet pool.new.kept) }
    ensures adds { OnOk result (AddsLine line pool.old.kept pool.new.kept out.old.items out.new.items) }
    ensures asked { AsksSome pool.old.kept.history pool.new.kept.history (with_asking line.session line.act []) }
{
    let Line { session, act, .. } = line;
    match act {
        Act::Pool { command, .. } => play_command(alloc, pool, session, command, out),
        Act::NoSuchPool => print_no_pool(out),
    }
}

// Does what the lines ask for in their order, and adds the replies.
fn play_lines<D: DiskSet>(
    alloc: Global,
    pool: &mut Pool<D>,
    lines: Vec<Line>,
    out: &mut Vec<u8>,
) -> Result<(), NoMemory>
    requires pool { IsPool (D.shape pool.old.disks) pool.old.root pool.old.kept }
    requires quiet { IsQuiet pool.old.kept }
    requires conditions { AllByRecursion (λ (line : LineOf). MeetsAct line.act) lines.items }
    requires no_entry { pool.old.kept.history ≡ [] }
    requires no_ack { pool.old.kept.acks ≡ [] }
    requires no_text { out.old.items ≡ [] }
    ensures goes { Goes D.shape D.tape D.faults pool.old pool.new }
    ensures pool { IsPool (D.shape pool.new.disks) pool.new.root pool.new.kept }
    ensures quiet { OnOk result (IsQuiet pool.new.kept) }
    ensures adds { OnOk result (AddsLines lines.items (first_mark pool.old.kept.calls) pool.new.kept.history out.new.items pool.new.kept.acks pool.new.kept.calls) }
    ensures asked { OnErr result ((last : List Asking) → IsFront (askings_in pool.new.kept.history) (askings_before lines.items last)) }
{
    for line in lines {
        match play_line(alloc, pool, line, out) {
            Ok(()) => {}
            Err(NoMemory) => return Err(NoMemory),
        }
    }
    Ok(())
}

// ---- the end

// Adds a number in decimal digits.
fn push_number(alloc: Global, out: &mut Vec<u8>, number: u64) -> Result<(), NoMemory>
    ensures { OnOk result (out.new.items ≡ out.old.items ++ decimal number) }
{
    let digits = number.to_string(alloc)?;
    out.extend_from_slice(digits.as_bytes())
}

// Adds how the last commit came out.
fn push_outcome(alloc: Global, out: &mut Vec<u8>, reply: &Reply, group: u64) -> Result<(), NoMemory>
    ensures { OnOk result (out.new.items ≡ out.old.items ++ end_of reply.now group) }
{
    match reply {
        Reply::Done => {
            out.extend_from_slice(b"group ")?;
            push_number(alloc, out, group)
        }
        other => other.push_text(alloc, out),
    }
}

// Adds the line that ends the text of a pool.
fn push_end(
    alloc: Global,
    out: &mut Vec<u8>,
    name: &[u8],
    reply: &Reply,
    group: u64,
) -> Result<(), NoMemory>
    ensures { OnOk result (out.new.items ≡ out.old.items ++ end_line name.now reply.now group) }
{
    out.extend_from_slice(b"end ")?;
    out.extend_from_slice(name)?;
    out.extend_from_slice(b" ")?;
    push_outcome(alloc, out, reply, group)?;
    out.extend_from_slice(b"\n")
}

// Whether the commit was done.
fn is_done(reply: &Reply) -> bool
    ensures { result ≡ is_done reply.now }
{
    match reply {
        Reply::Done => true,
        _ => false,
    }
}

// The text with the line that ends it.
fn ended(
    alloc: Global,
    out: Vec<u8>,
    name: &[u8],
    reply: &Reply,
    group: u64,
) -> Result<Played, NoMemory>
    ensures text { IfOk result (λ played. played.text.items ≡ out.items ++ end_line name.now reply.now group) }
    ensures good { IfOk result (λ played. played.good ≡ is_done reply.now) }
{
    let mut text = out;
    match push_end(alloc, &mut text, name, reply, group) {
        Ok(()) => Ok(Played {
            text,
            good: is_done(reply),
        }),
        Err(NoMemory) => Err(NoMemory),
    }
}

// Makes the commit that ends a run, and ends its text.
fn play_end<D: DiskSet>(
    alloc: Global,
    pool: &mut Pool<D>,
    name: &[u8],
    out: Vec<u8>,
) -> Result<Played, NoMemory>
    requires pool { IsPool (D.shape pool.old.disks) pool.old.root pool.old.kept }
    requires quiet { IsQuiet pool.old.kept }
    ensures goes { Goes D.shape D.tape D.faults pool.old pool.new }
    ensures pool { IsPool (D.shape pool.new.disks) pool.new.root pool.new.kept }
    ensures quiet { OnOk result (IsQuiet pool.new.kept) }
    ensures adds { IfOk result (λ played. AddsEndLine name.now pool.new.root.tree.group pool.old.kept pool.new.kept
        out.items played.text.items played.good) }
    ensures asked { AsksSome pool.old.kept.history pool.new.kept.history (asking last_session Commit ∷ []) }
{
    match ask(alloc, pool, LAST_SESSION, Command::Commit) {
        Ok(reply) => ended(alloc, out, name, &reply, pool.root_group()),
        Err(NoMemory) => Err(NoMemory),
    }
}

/// Asks what the lines ask for in their order, ends with the last commit, and gives the text of the run.
///
/// # Errors
/// Want of memory.
pub(crate) fn play_run<D: DiskSet>(
    alloc: Global,
    pool: &mut Pool<D>,
    name: &[u8],
    lines: Listed<Line>,
) -> Result<Played, NoMemory>
    requires pool { IsPool (D.shape pool.old.disks) pool.old.root pool.old.kept }
    requires begins { IsNew pool.old.kept }
    requires acts { AreActs lines }
    ensures goes { Goes D.shape D.tape D.faults pool.old pool.new }
    ensures pool { IsPool (D.shape pool.new.disks) pool.new.root pool.new.kept }
    ensures ended { IfOk result (λ played. HasEnded name.now lines pool.new.root.tree.group pool.old.kept.calls pool.new.kept played.text.items played.good) }
    ensures asked { IsFront (askings_in pool.new.kept.history) (run_of lines) }
{
    let mut out = Vec::new(alloc);
    match play_lines(alloc, pool, lines.into_vec(), &mut out) {
        Ok(()) => play_end(alloc, pool, name, out),
        Err(NoMemory) => Err(NoMemory),
    }
}
