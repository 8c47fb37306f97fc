// How a sealed group is written.
ghost use Rattle.std.specs.Prelude.{◌≡◌, ◌+◌, ◌^◌, ◌<◌, ◌≤◌, length, map, drop, count_by, IfOk, IfErr, OnOk, OnErr, IsErrOf, IsTrue};
ghost use Rattle.zc_tape.specs.Cause.{Rose};
ghost use Rattle.zc_tape.proofs.Extends.{Extends};
ghost use Rattle.zc_plan.specs.Counted.{AllMade, AllButLast};
ghost use Rattle.zc_state.specs.State.{State};
ghost use Rattle.zc_heart.specs.Changes.{is_made};
ghost use Rattle.zc_heart.specs.Core.{Base};
ghost use Rattle.zc_group.specs.Committed.{found_of};
ghost use Rattle.zc_group.specs.Counted.{IsFailed, made_before};
ghost use Rattle.zc_group.specs.Kept.{HasSize, HasPlaces};
ghost use Rattle.zc_apply.specs.Jobs.{IsJob, IsBase};
ghost use Rattle.zc_lane.specs.Jobs.{HasTreeOf, MayWrite, IsRooted, LeavesJob, IsJobDone};
ghost use Rattle.zc_lane.specs.Placed.{next_tree, IsReady};

use crate::placing::{placed_blocks, pointers_to};
use std::alloc::Global;
use zc_apply::next_tree;
use zc_blkptr::Ptr;
use zc_group::{CommitFault, Root, commit};
use zc_heart::{GroupDone, Sealed};
use zc_num::{Listed, NoMemory};
use zc_plan::PlacedBlock;
use zc_tape::DiskSet;
use zc_tree::Tree;

/// Writes a sealed group: puts the blocks that it made at the first free places, makes its changes in the root's tree with pointers to
/// them, and commits that tree. Tells how many calls that took, and where the blocks were put.
///
/// # Errors
/// `Failed` where a call of the disks failed, with how many were made, that one too. Want of memory, before any call: also where too
/// few places are free, and where the tree's pointers are to more places than the pool has for data. The root is then what it was.
pub fn write_job<D: DiskSet>(
    alloc: Global,
    disks: &mut D,
    root: &mut Root,
    job: &Sealed,
) -> Result<(u64, GroupDone), CommitFault>
    requires size { HasSize (D.shape disks.old) root.old }
    requires places { HasPlaces root.old }
    requires next { job.now.group ≡ root.old.body.group + 1 }
    requires may { MayWrite root.old job.now }
    ensures shape { D.shape disks.new ≡ D.shape disks.old }
    ensures told { (D.tape disks.new).told ≡ (D.tape disks.old).told }
    ensures extends { IsTrue (D.tape disks.old).told → Extends (D.tape disks.old) (D.tape disks.new) }

    // At each moment the state stands that stood before, or one of the next group that holds the pool that the job leads to.
    ensures any_moment { (s : State) (from to : Base) → IsRooted (D.shape disks.old) (D.tape disks.old) s root.old from → IsBase root.old.limits to → IsJob from to job.now
        → LeavesJob (D.shape disks.old) s to (D.tape disks.old) (D.tape disks.new) }

    // Once it is Ok, only that one, and the root keeps it.
    ensures done { OnOk result ((s : State) (from to : Base) → IsRooted (D.shape disks.old) (D.tape disks.old) s root.old from → IsBase root.old.limits to → IsJob from to job.now
        → (next : State) × IsJobDone (D.shape disks.old) (D.tape disks.new) s next root.new to) }

    // Whatever the disks held, the root then has the tree of that pool, with the pointers that are told.
    ensures tree { OnOk result ((from to : Base) → IsBase root.old.limits to → HasTreeOf from root.old → IsJob from to job.now → HasTreeOf to root.new) }
    ensures tree_is { IfOk result (λ written. root.new.tree ≡ next_tree job.now written.1.placed root.old.tree) }
    ensures body_group { OnOk result (root.new.body.group ≡ job.now.group) }
    ensures tree_group { OnOk result (root.new.tree.group ≡ job.now.group) }
    ensures told_group { IfOk result (λ written. written.1.group ≡ job.now.group) }
    ensures told_held { IfOk result (λ written. written.1.held ≡ job.now.held) }
    ensures told_placed { IfOk result (λ written. length written.1.placed ≡ count_by is_made job.now.changes) }
    ensures limits { root.new.limits ≡ root.old.limits }
    ensures has_places { HasPlaces root.new }
    ensures kept { OnErr result (root.new ≡ root.old) }
    ensures memory { IsErrOf result CommitFault.NoMemory → D.tape disks.new ≡ D.tape disks.old }
    ensures no_fault { IsErrOf result CommitFault.NoMemory → D.faults disks.new ≡ D.faults disks.old }
    ensures later { D.faults disks.old ≤ D.faults disks.new }
    ensures cause { IfErr result (λ fault. IsFailed fault → Rose (D.faults disks.old) (D.faults disks.new)) }

    // So many calls were made, and all of them were Ok, or all but the last.
    ensures counted { IfOk result (λ written. IsTrue (D.tape disks.old).told
        → length (D.tape disks.new).calls ≡ length (D.tape disks.old).calls + written.0) }
    ensures counted_failed { IfErr result (λ fault. IsTrue (D.tape disks.old).told
        → length (D.tape disks.new).calls ≡ length (D.tape disks.old).calls + made_before fault) }
    ensures all_made { OnOk result (IsTrue (D.tape disks.old).told
        → AllMade (drop (length (D.tape disks.old).calls) (D.tape disks.new).calls)) }
    ensures first_failed { IfErr result (λ fault. IsFailed fault → IsTrue (D.tape disks.old).told
        → AllButLast (drop (length (D.tape disks.old).calls) (D.tape disks.new).calls)) }
{
    match ready_for(alloc, root, job) {
        Ok(Ready { tree, new, placed }) => match commit(alloc, disks, root, tree, new) {
            Ok(made) => Ok((
                made,
                GroupDone {
                    group: job.group,
                    held: job.held,
                    placed,
                },
            )),
            Err(fault) => Err(fault),
        },
        Err(NoMemory) => Err(CommitFault::NoMemory),
    }
}

// What a group writes.
#[derive(Drop)]
struct Ready {
    // The tree that it commits.
    tree: Tree,
    // The blocks that it made, at their places.
    new: Listed<PlacedBlock>,
    // The pointers to them.
    placed: Listed<Ptr>,
}

// What the job writes after the root.
#[tactic(auto, using(crate::proofs::PlacedLaws::made_counted))]
fn ready_for(alloc: Global, root: &Root, job: &Sealed) -> Result<Ready, NoMemory>
    requires { HasPlaces root.now }
    ensures ready { IfOk result (λ ready. IsReady root.now job.now ready.tree (map found_of ready.new) ready.placed) }
    ensures width { OnOk result (job.now.group < 2 ^ 64) }
{
    let changes = job.changes.as_slice();
    let new = placed_blocks(alloc, root, changes)?;
    let placed = pointers_to(alloc, job.group, new.as_slice())?;
    let tree = next_tree(alloc, &root.tree, job.group, changes, placed.as_slice())?;
    Ok(Ready { tree, new, placed })
}
