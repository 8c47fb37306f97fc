// How a pool is made, and how it is taken up.
ghost use Rattle.std.specs.Prelude.{◌≡◌, ◌≤◌, ◌⊎◌, [], length, map, IfOk, IfErr, OnOk, IsTrue};
ghost use Rattle.zc_num.specs.Limits.{AreLimits};
ghost use Rattle.zc_num.specs.declared.limits.Limits.{Limits as LimitsOf};
ghost use Rattle.zc_tape.specs.Cause.{Rose};
ghost use Rattle.zc_tape.specs.Crash.{May, AtRest, reads};
ghost use Rattle.zc_tape.proofs.Extends.{Extends};
ghost use Rattle.zc_root.specs.Root.{IsOpenRoot, HasWholeRoots};
ghost use Rattle.zc_root.specs.declared.body.Body.{Body as BodyOf};
ghost use Rattle.zc_layout.specs.Standing.{HasNoRoot};
ghost use Rattle.zc_state.specs.State.{State, StandsFor, IsFresh};
ghost use Rattle.zc_image.specs.ReadAnswers.{IsWhole};
ghost use Rattle.zc_group.specs.Created.{HoldsNothing, LeavesFirst, IsFirst, IsCreationWhole, WritesCreation, given_back, FailsBy};
ghost use Rattle.zc_group.specs.Imported.{IsTaken, IsNoAnswer, IsDamageOf, IsDamage, WritesClaim, StopsAtFailure};
ghost use Rattle.zc_lane.specs.Found.{found_in};
ghost use Rattle.zc_open.specs.Acked.{AreAcks};
ghost use Rattle.zc_pool.specs.Importing.{disks_of, heart_block, IsHeld};
ghost use Rattle.zc_pool.specs.Opened.{IsNew, IsOpenedFrom, IsBeforeClaim};
ghost use Rattle.zc_pool.specs.Running.{IsPool, Survives};

use crate::Pool;
use std::alloc::Global;
use zc_damage::FoundBlock;
use zc_group::{CreateFault, ImportFault, Imported, Root, create_pool, import_pool};
use zc_heart::{Heart, HeartBlock};
use zc_num::{Listed, Name, NoMemory};
use zc_open::OpenPool;
use zc_tape::DiskSet;

impl<D: DiskSet> Pool<D> {
    /// Takes up the pool that the disk set holds: reads it, commits its claim group, and holds its files in memory. Where that fails,
    /// the disk set is given back.
    ///
    /// # Errors
    /// `NoPool` where no pool has the size of the disk set or no root is open; `Damaged` with the first damage; and then nothing was
    /// written. `DiskFault` where a call of the disks failed. Want of memory, which may come after the claim group too.
    pub fn import(alloc: Global, disks: D) -> Result<Pool<D>, (ImportFault, D)>
        ensures shape { D.shape (disks_of result) ≡ D.shape disks }
        ensures told { (D.tape (disks_of result)).told ≡ (D.tape disks).told }
        ensures extends { IsTrue (D.tape disks).told → Extends (D.tape disks) (D.tape (disks_of result)) }

        // What is kept in memory fits together, whatever the disks tell, and nothing was asked yet.
        ensures pool { IfOk result (λ pool. IsPool (D.shape pool.disks) pool.root pool.kept) }
        ensures new { IfOk result (λ pool. IsNew pool.kept) }
        ensures acks { IfOk result (λ pool. AreAcks pool.kept) }

        // Once it is Ok, a pool stood there, and it runs from its files on.
        ensures opened { IfOk result (λ pool. IsTrue (D.tape disks).told → AtRest (D.tape disks)
            → IsOpenedFrom (D.shape disks) (D.tape disks) (D.tape pool.disks) pool.root pool.kept) }

        // Wherever it is cut short, the files are left that stood there.
        ensures survives { (s : State) (limits : LimitsOf) → IsTrue (D.tape disks).told → AtRest (D.tape disks) → StandsFor (D.shape disks) (reads (D.tape disks)) s
            → Survives May (D.shape disks) (D.tape (disks_of result)) (length (D.tape disks).calls) limits (found_in limits s) [] [] }

        // A sound pool whose numbers are low is taken up, unless memory is wanting or a call fails.
        ensures only { (s : State) → IsWhole (D.tape disks) → StandsFor (D.shape disks) (reads (D.tape disks)) s → IsFresh s
            → IfErr result (λ refused. IsNoAnswer refused.0) }
        ensures damaged { IfErr result (λ refused. IsWhole (D.tape disks) → IsDamageOf (D.shape disks) (reads (D.tape disks)) refused.0) }
        ensures none { IfErr result (λ refused. refused.0 ≡ ImportFault.NoPool → IsWhole (D.tape disks)
            → AreLimits (D.shape disks).devices (D.shape disks).places → HasNoRoot (reads (D.tape disks))) }
        ensures sized { IfErr result (λ refused. IsDamage refused.0 → AreLimits (D.shape disks).devices (D.shape disks).places) }
        ensures kept { IfErr result (λ refused. IsBeforeClaim refused.0 → D.tape refused.1 ≡ D.tape disks) }
        ensures later { D.faults disks ≤ D.faults (disks_of result) }
        ensures cause { IfErr result (λ refused. refused.0 ≡ ImportFault.DiskFault → Rose (D.faults disks) (D.faults refused.1)) }

        // What was written is a front of the calls of one claim group; where a call failed, it is the last of them.
        ensures writes { IsTrue (D.tape disks).told → AtRest (D.tape disks) → WritesClaim (D.shape disks) (D.tape disks) (D.tape (disks_of result)) }
        ensures stops { IfErr result (λ refused. refused.0 ≡ ImportFault.DiskFault → IsTrue (D.tape disks).told
            → StopsAtFailure (D.tape disks) (D.tape refused.1)) }
    {
        match import_pool(alloc, disks) {
            Ok((disks, imported)) => match hold(alloc, imported) {
                Ok((root, kept)) => Ok(Pool { disks, root, kept }),
                Err(_) => Err((ImportFault::NoMemory, disks)),
            },
            Err(refused) => Err(refused),
        }
    }

    /// Makes a pool of this name on a disk set that holds none, without any dataset, in group 1. The disk set is given back in any
    /// case.
    ///
    /// # Errors
    /// `PoolExists` where a root is open, and then nothing was written; `Failed` where a call of the disks failed; want of memory.
    pub fn create(alloc: Global, disks: D, name: &Name) -> Result<D, (CreateFault, D)>
        requires limits { AreLimits (D.shape disks).devices (D.shape disks).places }
        ensures shape { D.shape (given_back result) ≡ D.shape disks }
        ensures told { (D.tape (given_back result)).told ≡ (D.tape disks).told }
        ensures extends { IsTrue (D.tape disks).told → Extends (D.tape disks) (D.tape (given_back result)) }

        // Wherever it is cut short, there is no root or the first one.
        ensures any_moment { HoldsNothing (D.tape disks) → LeavesFirst (D.shape disks) name.now (D.tape disks) (D.tape (given_back result)) }

        // Once it is Ok, the pool is there.
        ensures made { OnOk result (HoldsNothing (D.tape disks) → IsFirst (D.shape disks) name.now (D.tape (given_back result))) }

        // It answers that there is a pool exactly where a root is open, and then it writes nothing.
        ensures exists { FailsBy result CreateFault.PoolExists → IsTrue (D.tape disks).told → HasWholeRoots (D.tape disks)
            → (body : BodyOf) × IsOpenRoot (reads (D.tape disks)) body }
        ensures kept { FailsBy result CreateFault.PoolExists → D.tape (given_back result) ≡ D.tape disks }
        ensures rooted { (body : BodyOf) → IsTrue (D.tape disks).told → HasWholeRoots (D.tape disks) → IsOpenRoot (reads (D.tape disks)) body
            → (FailsBy result CreateFault.PoolExists ⊎ FailsBy result CreateFault.Failed) × (D.tape (given_back result) ≡ D.tape disks) }
        ensures memory { FailsBy result CreateFault.NoMemory → D.tape (given_back result) ≡ D.tape disks }
        ensures later { D.faults disks ≤ D.faults (given_back result) }
        ensures cause { FailsBy result CreateFault.Failed → Rose (D.faults disks) (D.faults (given_back result)) }

        // All of its calls were made, in order and each once; or a front of them, where it isn't Ok, and only the last of them failed.
        ensures written { OnOk result (HoldsNothing (D.tape disks) → IsCreationWhole (D.shape disks) name.now (D.tape disks) (D.tape (given_back result))) }
        ensures begun { HoldsNothing (D.tape disks) → WritesCreation (D.shape disks) name.now (D.tape disks) (D.tape (given_back result)) }
        ensures stops { FailsBy result CreateFault.Failed → IsTrue (D.tape disks).told → StopsAtFailure (D.tape disks) (D.tape (given_back result)) }
    {
        create_pool(alloc, disks, name)
    }
}

// Holds the files of a pool that was taken up.
fn hold(alloc: Global, imported: Imported) -> Result<(Root, OpenPool), NoMemory>
    requires { IsTaken imported.root.limits imported.root.tree imported.blocks }
    ensures root { IfOk result (λ held. held.0 ≡ imported.root) }
    ensures kept { IfOk result (λ held. IsHeld imported.root imported.blocks imported.calls held.1) }
{
    let Imported {
        root,
        blocks,
        calls,
    } = imported;
    let kept = hold_root(alloc, &root, blocks, calls)?;
    Ok((root, kept))
}

// Holds the files of the root's tree, over these blocks, after so many calls.
fn hold_root(
    alloc: Global,
    root: &Root,
    blocks: Listed<FoundBlock>,
    calls: u64,
) -> Result<OpenPool, NoMemory>
    requires { IsTaken root.now.limits root.now.tree blocks }
    ensures { IfOk result (λ kept. IsHeld root.now blocks calls kept) }
{
    let blocks = heart_blocks(alloc, blocks)?;
    let heart = Heart::open(alloc, root.limits, &root.tree, blocks)?;
    let _group = heart.group();
    Ok(OpenPool::begin(alloc, heart, root.tree.group, u128::from(calls)))
}

// The blocks as they are held. Their bytes move.
fn heart_blocks(alloc: Global, blocks: Listed<FoundBlock>) -> Result<Vec<HeartBlock>, NoMemory>
    ensures { IfOk result (λ held. held.items ≡ map heart_block blocks) }
{
    let mut held = Vec::new(alloc);
    for block in blocks.into_vec() {
        held.push(heart_block(block))?;
    }
    Ok(held)
}

fn heart_block(block: FoundBlock) -> HeartBlock
    ensures { result ≡ heart_block block }
{
    let FoundBlock {
        device,
        place,
        bytes,
    } = block;
    HeartBlock {
        device,
        place,
        bytes,
    }
}
