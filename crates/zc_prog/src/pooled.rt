// A script's lines, played on the pool of a name: taken, played on, and given back.
ghost use Rattle.std.specs.Prelude.{◌≡◌, ◌≤◌, IfOk};
ghost use Rattle.zc_tape.specs.Cause.{Rose};
ghost use Rattle.zc_io.specs.Stock.{IsUncalled};
ghost use Rattle.zc_prog.specs.Session.{AreActs};
ghost use Rattle.zc_prog.specs.Ended.{EndsAs};
ghost use Rattle.zc_prog.specs.Pooled.{IsAllBack, GivesBack, HoldsOfGiven, IsPlayedAs, IsPooled, WasStopped};

use crate::ended::Ended;
use crate::{Played, SessionFault, play_on};
use std::alloc::{AllocError, Global};
use zc_io::{Shelf, ShelfFault};
use zc_num::{Bytes, Listed, Name, NoMemory};
use zc_script::Line;

// What a run came to, once its disk set was handed back.
fn ended_of(played: Result<Played, SessionFault>, given: bool) -> Result<Ended, NoMemory>
    ensures { EndsAs played given result }
{
    match played {
        Ok(Played { text, good }) => Ok(Ended::Played {
            text: Bytes::from_vec(text),
            good: good && given,
        }),
        Err(SessionFault::NoPool) => Ok(Ended::NoPool),
        Err(SessionFault::Damaged { damage }) => Ok(Ended::Damaged { damage }),
        Err(SessionFault::Failed) => Ok(Ended::DiskFault),
        Err(SessionFault::NoMemory) => Err(AllocError),
    }
}

// Plays lines on a disk set that was handed out, and hands it back.
#[tactic(auto, using(crate::proofs::Outcome::played_as, crate::proofs::Outcome::stopped_as))]
fn play_taken<H: Shelf>(
    alloc: Global,
    shelf: &mut H,
    disks: H::Disk,
    name: &Name,
    lines: Listed<Line>,
) -> Result<Ended, NoMemory>
    requires acts { AreActs lines }
    requires fresh { IsUncalled (H.Disk.tape disks) (H.Disk.faults disks) }
    ensures told { (H.stock shelf.new).told ≡ (H.stock shelf.old).told }
    ensures played { IfOk result (λ ended. GivesBack (IsPlayedAs (H.faults shelf.old) (H.faults shelf.new) name.now lines ended)
        (H.stock shelf.old) (H.stock shelf.new) name.now) }
    ensures failed { IfOk result (λ ended. ended ≡ Ended.DiskFault → Rose (H.faults shelf.old) (H.faults shelf.new)) }
    ensures stopped { GivesBack (WasStopped lines) (H.stock shelf.old) (H.stock shelf.new) name.now }
    ensures later { H.faults shelf.old ≤ H.faults shelf.new }
{
    let (disks, played) = play_on(alloc, disks, name.bytes(), lines);
    let given = shelf.give(name, disks).is_ok();
    ended_of(played, given)
}

/// Plays lines on the pool of a name. Whatever it comes to, the disk set is handed back.
///
/// # Errors
/// Want of memory.
#[tactic(auto, using(crate::proofs::Outcome::pooled, crate::proofs::Outcome::not_taken, crate::proofs::Outcome::all_back, crate::proofs::Outcome::holds_of_given, crate::proofs::Outcome::none_given, crate::proofs::Outcome::none_out))]
pub fn play_pool<H: Shelf>(
    alloc: Global,
    shelf: &mut H,
    name: &Name,
    lines: Listed<Line>,
) -> Result<Ended, NoMemory>
    requires acts { AreActs lines }
    ensures told { (H.stock shelf.new).told ≡ (H.stock shelf.old).told }
    ensures pooled { IfOk result (IsPooled (H.stock shelf.old) (H.stock shelf.new) (H.faults shelf.old) (H.faults shelf.new) name.now lines) }
    ensures given_back { IsAllBack (H.stock shelf.old) (H.stock shelf.new) }
    ensures stopped { HoldsOfGiven (WasStopped lines) (H.stock shelf.old) (H.stock shelf.new) name.now }
    ensures later { H.faults shelf.old ≤ H.faults shelf.new }
{
    match shelf.take(name) {
        Ok(disks) => play_taken(alloc, shelf, disks, name, lines),
        Err(ShelfFault::Missing) => Ok(Ended::Missing),
        Err(ShelfFault::Failed) => Ok(Ended::DiskFault),
        Err(ShelfFault::NoMemory) => Err(AllocError),
        Err(ShelfFault::Present) => unreachable!(),
    }
}
