// How a pool is taken up again.
ghost use Rattle.std.specs.Prelude.{◌≡◌, ◌+◌, ◌≤◌, length, drop, IfOk, IfErr, OnOk, IsErrOf, IsTrue};
ghost use Rattle.zc_num.specs.Limits.{AreLimits};
ghost use Rattle.zc_tape.specs.Cause.{Rose};
ghost use Rattle.zc_tape.specs.Crash.{AtRest, reads};
ghost use Rattle.zc_tape.proofs.Extends.{Extends};
ghost use Rattle.zc_tree.specs.Reach.{pointers_of_tree};
ghost use Rattle.zc_layout.specs.Standing.{HasNoRoot};
ghost use Rattle.zc_plan.specs.Counted.{AllMade};
ghost use Rattle.zc_state.specs.State.{State, StandsFor, IsFresh};
ghost use Rattle.zc_image.specs.ReadAnswers.{IsWhole};
ghost use Rattle.zc_group.specs.Kept.{HasSize, HasPlaces};
ghost use Rattle.zc_group.specs.Committed.{LeavesEither};
ghost use Rattle.zc_group.specs.Imported.{claimed_state, taken_back, fault_of, IsTakenUp, IsNoAnswer, IsBeforeWrites, IsDamageOf, IsDamage, WritesClaim, StopsAtFailure, IsFoundOn, IsImport, IsTaken};

use crate::Root;
use crate::committing::{CommitFault, NextRoot, lead};
use std::alloc::Global;
use thiserror::Error;
use zc_blkptr::Ptr;
use zc_image::{Damage, Found, FoundBlock, ImageFault, read_pool};
use zc_num::{Limits, Listed, NoMemory};
use zc_tape::DiskSet;

/// Why a pool was not taken up.
#[derive(Debug, Drop, Error)]
pub enum ImportFault {
    /// Memory was wanting.
    #[error("memory was wanting")]
    NoMemory,
    /// The disk set holds no pool.
    #[error("the disks hold no pool")]
    NoPool,
    /// A call of the disks failed.
    #[error("a call of the disks failed")]
    DiskFault,
    /// The pool is damaged.
    #[error("the pool is damaged")]
    Damaged { damage: Damage },
}

/// A pool that was taken up.
#[derive(Debug, Drop)]
pub struct Imported {
    /// The root of its claim group.
    pub root: Root,
    /// Each block that a pointer is to, once, ascending by place.
    pub blocks: Listed<FoundBlock>,
    /// How many calls its claim group made.
    pub calls: u64,
}

/// Takes up the pool that the disk set holds: reads it, and commits its claim group, which has the same tree under the next number.
/// The disk set is given back in any case.
///
/// # Errors
/// `NoPool` where no pool has the size of the disk set or no root is open; `Damaged` with the first damage; and then nothing was
/// written. `DiskFault` where a call of the disks failed; want of memory.
pub fn import_pool<D: DiskSet>(alloc: Global, disks: D) -> Result<(D, Imported), (ImportFault, D)>
    ensures shape { D.shape (taken_back result) ≡ D.shape disks }
    ensures told { (D.tape (taken_back result)).told ≡ (D.tape disks).told }
    ensures extends { IsTrue (D.tape disks).told → Extends (D.tape disks) (D.tape (taken_back result)) }
    ensures limits { IfOk result (λ taken. AreLimits (D.shape disks).devices (D.shape disks).places) }
    ensures size { IfOk result (λ taken. HasSize (D.shape disks) taken.1.root) }
    ensures places { IfOk result (λ taken. HasPlaces taken.1.root) }
    ensures tree { IfOk result (λ taken. IsTaken taken.1.root.limits taken.1.root.tree taken.1.blocks) }
    ensures body { IfOk result (λ taken. taken.1.root.body.group ≡ taken.1.root.tree.group) }

    // Wherever it is cut short, the state stands that stood there, or that of the claim group.
    ensures any_moment { (s : State) → IsTrue (D.tape disks).told → AtRest (D.tape disks) → StandsFor (D.shape disks) (reads (D.tape disks)) s
        → LeavesEither (D.shape disks) s (claimed_state (D.shape disks) s) (D.tape disks) (D.tape (taken_back result)) }

    // Once it is Ok, a pool stood there, and the state of the claim group alone stands, which the root keeps.
    ensures made { IfOk result (λ taken. (s : State) → IsTrue (D.tape disks).told → AtRest (D.tape disks) → StandsFor (D.shape disks) (reads (D.tape disks)) s
        → IsTakenUp (D.shape disks) (D.tape taken.0) s taken.1) }
    ensures stood { IfOk result (λ taken. IsTrue (D.tape disks).told → AtRest (D.tape disks) → (s : State) × StandsFor (D.shape disks) (reads (D.tape disks)) s) }

    // A sound pool whose numbers are low is taken up, unless memory is wanting or a call fails.
    ensures only { (s : State) → IsWhole (D.tape disks) → StandsFor (D.shape disks) (reads (D.tape disks)) s → IsFresh s
        → IfErr result (λ refused. IsNoAnswer refused.0) }
    ensures damaged { IfErr result (λ refused. IsWhole (D.tape disks) → IsDamageOf (D.shape disks) (reads (D.tape disks)) refused.0) }
    ensures none { IfErr result (λ refused. refused.0 ≡ ImportFault.NoPool → IsWhole (D.tape disks)
        → AreLimits (D.shape disks).devices (D.shape disks).places → HasNoRoot (reads (D.tape disks))) }
    ensures sized { IfErr result (λ refused. IsDamage refused.0 → AreLimits (D.shape disks).devices (D.shape disks).places) }
    ensures kept { IfErr result (λ refused. IsBeforeWrites refused.0 → D.tape refused.1 ≡ D.tape disks) }
    ensures later { D.faults disks ≤ D.faults (taken_back result) }
    ensures cause { IfErr result (λ refused. refused.0 ≡ ImportFault.DiskFault → Rose (D.faults disks) (D.faults refused.1)) }

    // What was written is a front of the calls of one claim group; where a call failed, it is the last of them.
    ensures writes { IsTrue (D.tape disks).told → AtRest (D.tape disks) → WritesClaim (D.shape disks) (D.tape disks) (D.tape (taken_back result)) }
    ensures stops { IfErr result (λ refused. refused.0 ≡ ImportFault.DiskFault → IsTrue (D.tape disks).told
        → StopsAtFailure (D.tape disks) (D.tape refused.1)) }

    // So many calls were made, and all of them were Ok.
    ensures counted { IfOk result (λ taken. IsTrue (D.tape disks).told
        → length (D.tape taken.0).calls ≡ length (D.tape disks).calls + taken.1.calls) }
    ensures all_made { IfOk result (λ taken. IsTrue (D.tape disks).told
        → AllMade (drop (length (D.tape disks).calls) (D.tape taken.0).calls)) }
{
    let mut disks = disks;
    match take_up(alloc, &mut disks) {
        Ok(imported) => Ok((disks, imported)),
        Err(fault) => Err((fault, disks)),
    }
}

// Takes up the pool of a disk set that is lent.
#[tactic(auto, using(zc_tape::proofs::Extends::extends_refl))]
fn take_up<D: DiskSet>(alloc: Global, disks: &mut D) -> Result<Imported, ImportFault>
    ensures shape { D.shape disks.new ≡ D.shape disks.old }
    ensures told { (D.tape disks.new).told ≡ (D.tape disks.old).told }
    ensures extends { IsTrue (D.tape disks.old).told → Extends (D.tape disks.old) (D.tape disks.new) }
    ensures limits { IfOk result (λ imported. AreLimits (D.shape disks.old).devices (D.shape disks.old).places) }
    ensures size { IfOk result (λ imported. HasSize (D.shape disks.old) imported.root) }
    ensures places { IfOk result (λ imported. HasPlaces imported.root) }
    ensures tree { IfOk result (λ imported. IsTaken imported.root.limits imported.root.tree imported.blocks) }
    ensures body { IfOk result (λ imported. imported.root.body.group ≡ imported.root.tree.group) }
    ensures answers { IsImport (D.shape disks.old) (D.tape disks.old) (D.tape disks.new) result }
    ensures kept { IfErr result (λ fault. IsBeforeWrites fault → D.tape disks.new ≡ D.tape disks.old) }
    ensures later { D.faults disks.old ≤ D.faults disks.new }
    ensures cause { IsErrOf result ImportFault.DiskFault → Rose (D.faults disks.old) (D.faults disks.new) }
    ensures counted { IfOk result (λ imported. IsTrue (D.tape disks.old).told
        → length (D.tape disks.new).calls ≡ length (D.tape disks.old).calls + imported.calls) }
    ensures all_made { OnOk result (IsTrue (D.tape disks.old).told
        → AllMade (drop (length (D.tape disks.old).calls) (D.tape disks.new).calls)) }
{
    match read_pool(alloc, disks) {
        Ok(found) => claim(alloc, disks, found),
        Err(fault) => Err(fault_of(fault)),
    }
}

// A reader's fault, as an import tells it.
fn fault_of(fault: ImageFault) -> ImportFault
    ensures { result ≡ fault_of fault }
{
    match fault {
        ImageFault::NoMemory => ImportFault::NoMemory,
        ImageFault::NoPool => ImportFault::NoPool,
        ImageFault::DiskFault => ImportFault::DiskFault,
        ImageFault::Damaged { damage } => ImportFault::Damaged { damage },
    }
}

// Commits the claim group of what was found.
#[tactic(auto, using(zc_tape::proofs::Extends::extends_refl))]
fn claim<D: DiskSet>(alloc: Global, disks: &mut D, found: Found) -> Result<Imported, ImportFault>
    requires found { IsFoundOn (D.shape disks.old) (D.tape disks.old) found }
    ensures shape { D.shape disks.new ≡ D.shape disks.old }
    ensures told { (D.tape disks.new).told ≡ (D.tape disks.old).told }
    ensures extends { IsTrue (D.tape disks.old).told → Extends (D.tape disks.old) (D.tape disks.new) }
    ensures size { IfOk result (λ imported. HasSize (D.shape disks.old) imported.root) }
    ensures places { IfOk result (λ imported. HasPlaces imported.root) }
    ensures tree { IfOk result (λ imported. IsTaken imported.root.limits imported.root.tree imported.blocks) }
    ensures body { IfOk result (λ imported. imported.root.body.group ≡ imported.root.tree.group) }
    ensures answers { IsImport (D.shape disks.old) (D.tape disks.old) (D.tape disks.new) result }
    ensures kept { IfErr result (λ fault. IsBeforeWrites fault → D.tape disks.new ≡ D.tape disks.old) }
    ensures later { D.faults disks.old ≤ D.faults disks.new }
    ensures cause { IsErrOf result ImportFault.DiskFault → Rose (D.faults disks.old) (D.faults disks.new) }
    ensures counted { IfOk result (λ imported. IsTrue (D.tape disks.old).told
        → length (D.tape disks.new).calls ≡ length (D.tape disks.old).calls + imported.calls) }
    ensures all_made { OnOk result (IsTrue (D.tape disks.old).told
        → AllMade (drop (length (D.tape disks.old).calls) (D.tape disks.new).calls)) }
{
    let limits = size_of(disks);
    match found.parts.tree.walk(alloc) {
        Ok(reach) => claim_over(alloc, disks, limits, found, reach),
        Err(NoMemory) => Err(ImportFault::NoMemory),
    }
}

// The same over the tree's pointers. The numbers of what was found are low.
fn claim_over<D: DiskSet>(
    alloc: Global,
    disks: &mut D,
    limits: Limits,
    found: Found,
    reach: Vec<Ptr>,
) -> Result<Imported, ImportFault>
    requires devices { limits.devices ≡ (D.shape disks.old).devices }
    requires places { limits.places ≡ (D.shape disks.old).places }
    requires found { IsFoundOn (D.shape disks.old) (D.tape disks.old) found }
    requires reach { reach.items ≡ pointers_of_tree found.parts.tree }
    ensures shape { D.shape disks.new ≡ D.shape disks.old }
    ensures told { (D.tape disks.new).told ≡ (D.tape disks.old).told }
    ensures extends { IsTrue (D.tape disks.old).told → Extends (D.tape disks.old) (D.tape disks.new) }
    ensures size { IfOk result (λ imported. HasSize (D.shape disks.old) imported.root) }
    ensures places { IfOk result (λ imported. HasPlaces imported.root) }
    ensures tree { IfOk result (λ imported. IsTaken imported.root.limits imported.root.tree imported.blocks) }
    ensures body { IfOk result (λ imported. imported.root.body.group ≡ imported.root.tree.group) }
    ensures answers { IsImport (D.shape disks.old) (D.tape disks.old) (D.tape disks.new) result }
    ensures kept { IfErr result (λ fault. IsBeforeWrites fault → D.tape disks.new ≡ D.tape disks.old) }
    ensures later { D.faults disks.old ≤ D.faults disks.new }
    ensures cause { IsErrOf result ImportFault.DiskFault → Rose (D.faults disks.old) (D.faults disks.new) }
    ensures counted { IfOk result (λ imported. IsTrue (D.tape disks.old).told
        → length (D.tape disks.new).calls ≡ length (D.tape disks.old).calls + imported.calls) }
    ensures all_made { OnOk result (IsTrue (D.tape disks.old).told
        → AllMade (drop (length (D.tape disks.old).calls) (D.tape disks.new).calls)) }
{
    let Found {
        body,
        gates,
        parts,
        catalogue,
        blocks,
    } = found;
    let mut tree = parts.tree;
    tree.group = body.group + 1;
    match lead(
        alloc,
        disks,
        &limits,
        &body,
        gates,
        catalogue.as_slice(),
        reach.as_slice(),
        &tree,
        Listed::new(alloc),
    ) {
        Ok(NextRoot { body, chain, made }) => Ok(Imported {
            root: Root {
                limits,
                body,
                gates: [true, true],
                tree,
                chain,
            },
            blocks,
            calls: made,
        }),
        Err(CommitFault::NoMemory) => Err(ImportFault::NoMemory),
        Err(CommitFault::Failed { .. }) => Err(ImportFault::DiskFault),
    }
}

// The size of a disk set that a pool may have.
fn size_of<D: DiskSet>(disks: &D) -> Limits
    requires { AreLimits (D.shape disks.now).devices (D.shape disks.now).places }
    ensures devices { result.devices ≡ (D.shape disks.now).devices }
    ensures places { result.places ≡ (D.shape disks.now).places }
{
    match Limits::of(disks.devices(), disks.places()) {
        Some(limits) => limits,
        None => unreachable!(),
    }
}
