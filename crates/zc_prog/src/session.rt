// A run on a disk set.
ghost use Rattle.std.specs.Prelude.{◌≡◌, ◌≤◌, [], false, IfOk, IfErr, IsErrOf, IsTrue};
ghost use Rattle.zc_tape.specs.Cause.{Rose};
ghost use Rattle.zc_tape.specs.Crash.{reads};
ghost use Rattle.zc_state.specs.State.{State, StandsFor, IsFresh};
ghost use Rattle.zc_pool.specs.Opened.{IsNew};
ghost use Rattle.zc_pool.specs.Running.{IsPool};
ghost use Rattle.zc_prog.specs.Session.{AreActs, CameTo, IsNoAnswer, fault_of};
ghost use Rattle.zc_prog.specs.Ending.{RunsTo};

use crate::SessionFault;
use crate::playing::play_run;
use std::alloc::Global;
use zc_num::{Listed, NoMemory};
use zc_pool::{ImportFault, Pool};
use zc_script::Line;
use zc_tape::DiskSet;

/// What a run came to.
#[derive(Drop)]
pub struct Played {
    /// All replies, and the line that ends them.
    pub text: Vec<u8>,
    /// Whether the last commit was done.
    pub good: bool,
}

// Why a pool wasn't taken up, as a run tells it.
fn fault_of(fault: ImportFault) -> SessionFault
    ensures { result ≡ fault_of fault }
{
    match fault {
        ImportFault::NoMemory => SessionFault::NoMemory,
        ImportFault::NoPool => SessionFault::NoPool,
        ImportFault::DiskFault => SessionFault::Failed,
        ImportFault::Damaged { damage } => SessionFault::Damaged { damage },
    }
}

// Plays lines on a pool that was taken up, and gives its disk set back.
fn play_pool<D: DiskSet>(
    alloc: Global,
    pool: Pool<D>,
    name: &[u8],
    lines: Listed<Line>,
) -> (D, Result<Played, SessionFault>)
    requires pool { IsPool (D.shape pool.disks) pool.root pool.kept }
    requires begins { IsNew pool.kept }
    requires acts { AreActs lines }
    ensures { RunsTo D.shape D.tape D.faults pool name.now lines result.0 result.1 }
{
    let mut pool = pool;
    match play_run(alloc, &mut pool, name, lines) {
        Ok(played) => (pool.into_disks(), Ok(played)),
        Err(NoMemory) => (pool.into_disks(), Err(SessionFault::NoMemory)),
    }
}

/// Takes up the pool of a disk set that has no call on its tape, asks what the lines say in their order, ends with a commit of session
/// 16, and gives the text of the run. A line that waits is written and answered before the next one is asked. The disk set is given back
/// in any case.
///
/// # Errors
/// `NoPool` and `Damaged` where the pool isn't taken up, and then nothing was written; `Failed` where a call of the disks failed as it was
/// taken up; want of memory. A call that fails later is told in the text.
pub fn play_on<D: DiskSet>(
    alloc: Global,
    disks: D,
    name: &[u8],
    lines: Listed<Line>,
) -> (D, Result<Played, SessionFault>)
    requires fresh { (D.tape disks).calls ≡ [] }
    requires acts { AreActs lines }
    ensures shape { D.shape result.0 ≡ D.shape disks }
    ensures told { (D.tape result.0).told ≡ (D.tape disks).told }
    ensures began { IsTrue (D.tape disks).told → (D.tape result.0).start ≡ (D.tape disks).start }

    // One execution, whatever it came to: of all lines and the last commit, or of some first ones of these where memory was wanting; and
    // the text, the disks at the end, and what a crash leaves at any moment are all of it.
    ensures came { CameTo (D.shape disks) (D.tape result.0) name.now lines result.1 }

    // A sound pool with low numbers is taken up.
    ensures only { (s : State) → IsTrue (D.tape disks).told → StandsFor (D.shape disks) (reads (D.tape disks)) s → IsFresh s → IfErr result.1 IsNoAnswer }
    ensures later { D.faults disks ≤ D.faults result.0 }
    ensures failed { IfOk result.1 (λ played. played.good ≡ false → Rose (D.faults disks) (D.faults result.0)) }
    ensures cause { IsErrOf result.1 SessionFault.Failed → Rose (D.faults disks) (D.faults result.0) }
{
    match Pool::import(alloc, disks) {
        Ok(pool) => play_pool(alloc, pool, name, lines),
        Err((fault, disks)) => (disks, Err(fault_of(fault))),
    }
}
