// How a pool is made.
ghost use Rattle.std.specs.Prelude.{◌≡◌, ◌≤◌, ◌⊎◌, map, IfOk, OnOk, IsErrOf, IsTrue};
ghost use Rattle.zc_num.specs.Limits.{AreLimits};
ghost use Rattle.zc_tape.specs.Cause.{Rose};
ghost use Rattle.zc_tape.proofs.Extends.{Extends};
ghost use Rattle.zc_tape.specs.Crash.{reads};
ghost use Rattle.zc_tape.specs.DiskCall.{call_of};
ghost use Rattle.zc_root.specs.Root.{IsOpenRoot, AreGates, HasWholeRoots};
ghost use Rattle.zc_root.specs.declared.body.Body.{Body as BodyOf};
ghost use Rattle.zc_group.specs.Created.{first_tree, pool_number, first_chain, HoldsNothing, LeavesFirst, IsFirst, IsPlanned, IsCreationWhole, WritesCreation, given_back, FailsBy};
ghost use Rattle.zc_group.specs.Imported.{StopsAtFailure};
ghost use Rattle.zc_group.specs.Spelled.{Spells};

use crate::catalogue::{Written, whole_digest, write_catalogue};
use std::alloc::Global;
use zc_damage::Census;
use zc_num::{Limits, Listed, Name, NoMemory};
use zc_plan::{CreationPlan, WriteFault, plan_creation, write_creation};
use zc_root::{RootFault, read_gates, read_slots};
use zc_tape::{DiskSet, Failed, Plan};
use zc_tree::Tree;
use zc_wire::Cursor;

/// Why a pool was not made.
#[derive(Clone, Copy, Debug, PartialEq, Eq)]
pub enum CreateFault {
    /// Memory was wanting.
    NoMemory,
    /// The disk set holds a pool.
    PoolExists,
    /// A call of the disks failed.
    Failed,
}

/// Makes a pool of this name on a disk set that holds none: the empty tree in group 1, over logs of zeros. The disk set is given
/// back in any case.
///
/// It reads the two slots. Then it writes zeros to each gate that is open, and a sync; zeros to both bodies and to all logs, and a
/// sync; and then the first group.
///
/// # Errors
/// `PoolExists` where a root is open, and then nothing was written; `Failed` where a call of the disks failed; want of memory.
pub fn create_pool<D: DiskSet>(alloc: Global, disks: D, name: &Name) -> Result<D, (CreateFault, D)>
    requires limits { AreLimits (D.shape disks).devices (D.shape disks).places }
    ensures shape { D.shape (given_back result) ≡ D.shape disks }
    ensures told { (D.tape (given_back result)).told ≡ (D.tape disks).told }
    ensures extends { IsTrue (D.tape disks).told → Extends (D.tape disks) (D.tape (given_back result)) }

    // Wherever it is cut short, there is no root or the first one.
    ensures any_moment { HoldsNothing (D.tape disks) → LeavesFirst (D.shape disks) name.now (D.tape disks) (D.tape (given_back result)) }

    // Once it is Ok, the pool is there.
    ensures made { OnOk result (HoldsNothing (D.tape disks) → IsFirst (D.shape disks) name.now (D.tape (given_back result))) }

    // It answers that there is a pool exactly where a root is open, and then it writes nothing.
    ensures exists { FailsBy result CreateFault.PoolExists → IsTrue (D.tape disks).told → HasWholeRoots (D.tape disks)
        → (body : BodyOf) × IsOpenRoot (reads (D.tape disks)) body }
    ensures kept { FailsBy result CreateFault.PoolExists → D.tape (given_back result) ≡ D.tape disks }
    ensures rooted { (body : BodyOf) → IsTrue (D.tape disks).told → HasWholeRoots (D.tape disks) → IsOpenRoot (reads (D.tape disks)) body
        → (FailsBy result CreateFault.PoolExists ⊎ FailsBy result CreateFault.Failed) × (D.tape (given_back result) ≡ D.tape disks) }
    ensures memory { FailsBy result CreateFault.NoMemory → D.tape (given_back result) ≡ D.tape disks }
    ensures later { D.faults disks ≤ D.faults (given_back result) }
    ensures cause { FailsBy result CreateFault.Failed → Rose (D.faults disks) (D.faults (given_back result)) }

    // All of its calls were made, in order and each once; or a front of them, where it isn't Ok, and only the last of them failed.
    ensures written { OnOk result (HoldsNothing (D.tape disks) → IsCreationWhole (D.shape disks) name.now (D.tape disks) (D.tape (given_back result))) }
    ensures begun { HoldsNothing (D.tape disks) → WritesCreation (D.shape disks) name.now (D.tape disks) (D.tape (given_back result)) }
    ensures stops { FailsBy result CreateFault.Failed → IsTrue (D.tape disks).told → StopsAtFailure (D.tape disks) (D.tape (given_back result)) }
{
    let mut disks = disks;
    match make_pool(alloc, &mut disks, name) {
        Ok(()) => Ok(disks),
        Err(fault) => Err((fault, disks)),
    }
}

// Makes the pool on a disk set that is lent.
#[tactic(auto, using(crate::proofs::TapeLaws::extends_same))]
fn make_pool<D: DiskSet>(alloc: Global, disks: &mut D, name: &Name) -> Result<(), CreateFault>
    requires limits { AreLimits (D.shape disks.old).devices (D.shape disks.old).places }
    ensures shape { D.shape disks.new ≡ D.shape disks.old }
    ensures told { (D.tape disks.new).told ≡ (D.tape disks.old).told }
    ensures extends { IsTrue (D.tape disks.old).told → Extends (D.tape disks.old) (D.tape disks.new) }
    ensures any_moment { HoldsNothing (D.tape disks.old) → LeavesFirst (D.shape disks.old) name.now (D.tape disks.old) (D.tape disks.new) }
    ensures made { OnOk result (HoldsNothing (D.tape disks.old) → IsFirst (D.shape disks.old) name.now (D.tape disks.new)) }
    ensures exists { IsErrOf result CreateFault.PoolExists → IsTrue (D.tape disks.old).told → HasWholeRoots (D.tape disks.old)
        → (body : BodyOf) × IsOpenRoot (reads (D.tape disks.old)) body }
    ensures kept { IsErrOf result CreateFault.PoolExists → D.tape disks.new ≡ D.tape disks.old }
    ensures rooted { (body : BodyOf) → IsTrue (D.tape disks.old).told → HasWholeRoots (D.tape disks.old) → IsOpenRoot (reads (D.tape disks.old)) body
        → (IsErrOf result CreateFault.PoolExists ⊎ IsErrOf result CreateFault.Failed) × (D.tape disks.new ≡ D.tape disks.old) }
    ensures memory { IsErrOf result CreateFault.NoMemory → D.tape disks.new ≡ D.tape disks.old }
    ensures later { D.faults disks.old ≤ D.faults disks.new }
    ensures cause { IsErrOf result CreateFault.Failed → Rose (D.faults disks.old) (D.faults disks.new) }
    ensures written { OnOk result (HoldsNothing (D.tape disks.old) → IsCreationWhole (D.shape disks.old) name.now (D.tape disks.old) (D.tape disks.new)) }
    ensures begun { HoldsNothing (D.tape disks.old) → WritesCreation (D.shape disks.old) name.now (D.tape disks.old) (D.tape disks.new) }
    ensures stops { IsErrOf result CreateFault.Failed → IsTrue (D.tape disks.old).told → StopsAtFailure (D.tape disks.old) (D.tape disks.new) }
{
    match read_slots(disks) {
        Ok(_) => Err(CreateFault::PoolExists),
        Err(RootFault::Failed) => Err(CreateFault::Failed),
        Err(RootFault::NoPool) => make_over(alloc, disks, name),
    }
}

// Makes the pool where there is no root.
#[tactic(auto, using(crate::proofs::CreateLaws::leaves_over_gates, crate::proofs::CreateLaws::made_over_gates, crate::proofs::CreateLaws::whole_over_gates, crate::proofs::CreateLaws::begun_over_gates, crate::proofs::CreateLaws::stops_over_gates, crate::proofs::TapeLaws::extends_same, crate::proofs::TapeLaws::extends_after))]
fn make_over<D: DiskSet>(alloc: Global, disks: &mut D, name: &Name) -> Result<(), CreateFault>
    requires limits { AreLimits (D.shape disks.old).devices (D.shape disks.old).places }
    ensures shape { D.shape disks.new ≡ D.shape disks.old }
    ensures told { (D.tape disks.new).told ≡ (D.tape disks.old).told }
    ensures extends { IsTrue (D.tape disks.old).told → Extends (D.tape disks.old) (D.tape disks.new) }
    ensures any_moment { HoldsNothing (D.tape disks.old) → LeavesFirst (D.shape disks.old) name.now (D.tape disks.old) (D.tape disks.new) }
    ensures made { OnOk result (HoldsNothing (D.tape disks.old) → IsFirst (D.shape disks.old) name.now (D.tape disks.new)) }
    ensures other { IsErrOf result CreateFault.PoolExists → ⊥ }
    ensures memory { IsErrOf result CreateFault.NoMemory → D.tape disks.new ≡ D.tape disks.old }
    ensures later { D.faults disks.old ≤ D.faults disks.new }
    ensures cause { IsErrOf result CreateFault.Failed → Rose (D.faults disks.old) (D.faults disks.new) }
    ensures written { OnOk result (HoldsNothing (D.tape disks.old) → IsCreationWhole (D.shape disks.old) name.now (D.tape disks.old) (D.tape disks.new)) }
    ensures begun { HoldsNothing (D.tape disks.old) → WritesCreation (D.shape disks.old) name.now (D.tape disks.old) (D.tape disks.new) }
    ensures stops { IsErrOf result CreateFault.Failed → IsTrue (D.tape disks.old).told → StopsAtFailure (D.tape disks.old) (D.tape disks.new) }
{
    match read_gates(disks) {
        Ok(gates) => write_first(alloc, disks, name, gates),
        Err(Failed) => Err(CreateFault::Failed),
    }
}

// Plans and makes the calls of the creation, where these flags say which gates are open.
#[tactic(auto, using(crate::proofs::TapeLaws::extends_same, crate::proofs::TapeLaws::extends_planned))]
fn write_first<D: DiskSet>(
    alloc: Global,
    disks: &mut D,
    name: &Name,
    gates: [bool; 2],
) -> Result<(), CreateFault>
    requires limits { AreLimits (D.shape disks.old).devices (D.shape disks.old).places }
    ensures shape { D.shape disks.new ≡ D.shape disks.old }
    ensures told { (D.tape disks.new).told ≡ (D.tape disks.old).told }
    ensures extends { IsTrue (D.tape disks.old).told → Extends (D.tape disks.old) (D.tape disks.new) }
    ensures any_moment { HoldsNothing (D.tape disks.old) → AreGates (reads (D.tape disks.old)) gates
        → LeavesFirst (D.shape disks.old) name.now (D.tape disks.old) (D.tape disks.new) }
    ensures made { OnOk result (HoldsNothing (D.tape disks.old) → AreGates (reads (D.tape disks.old)) gates
        → IsFirst (D.shape disks.old) name.now (D.tape disks.new)) }
    ensures other { IsErrOf result CreateFault.PoolExists → ⊥ }
    ensures memory { IsErrOf result CreateFault.NoMemory → D.tape disks.new ≡ D.tape disks.old }
    ensures later { D.faults disks.old ≤ D.faults disks.new }
    ensures cause { IsErrOf result CreateFault.Failed → Rose (D.faults disks.old) (D.faults disks.new) }
    ensures written { OnOk result (HoldsNothing (D.tape disks.old) → AreGates (reads (D.tape disks.old)) gates
        → IsCreationWhole (D.shape disks.old) name.now (D.tape disks.old) (D.tape disks.new)) }
    ensures begun { HoldsNothing (D.tape disks.old) → AreGates (reads (D.tape disks.old)) gates
        → WritesCreation (D.shape disks.old) name.now (D.tape disks.old) (D.tape disks.new) }
    ensures stops { IsErrOf result CreateFault.Failed → IsTrue (D.tape disks.old).told → StopsAtFailure (D.tape disks.old) (D.tape disks.new) }
{
    match creation_on(alloc, disks, name, gates) {
        Ok(plan) => match write_creation(disks, &plan) {
            Ok(_) => Ok(()),
            Err(WriteFault::NoMemory) => Err(CreateFault::NoMemory),
            Err(WriteFault::Failed { .. }) => Err(CreateFault::Failed),
        },
        Err(NoMemory) => Err(CreateFault::NoMemory),
    }
}

// The size of a disk set that a pool may have.
fn size_of<D: DiskSet>(disks: &D) -> Limits
    requires { AreLimits (D.shape disks.now).devices (D.shape disks.now).places }
    ensures devices { result.devices ≡ (D.shape disks.now).devices }
    ensures places { result.places ≡ (D.shape disks.now).places }
{
    match Limits::of(disks.devices(), disks.places()) {
        Some(limits) => limits,
        None => unreachable!(),
    }
}

// The calls that make the pool on a disk set.
#[tactic(auto, using(crate::proofs::CreateLaws::planned_at))]
fn creation_on<D: DiskSet>(
    alloc: Global,
    disks: &D,
    name: &Name,
    gates: [bool; 2],
) -> Result<Plan, NoMemory>
    requires limits { AreLimits (D.shape disks.now).devices (D.shape disks.now).places }
    ensures { IfOk result (λ plan. IsPlanned (D.shape disks.now) name.now gates (map call_of plan.calls.items)) }
{
    let limits = size_of(disks);
    creation_of(alloc, &limits, name, gates)
}

// The calls that make the pool on a disk set of this size.
fn creation_of(
    alloc: Global,
    limits: &Limits,
    name: &Name,
    gates: [bool; 2],
) -> Result<Plan, NoMemory>
    ensures { IfOk result (λ plan. IsPlanned (record { devices = limits.now.devices; places = limits.now.places }) name.now gates (map call_of plan.calls.items)) }
{
    let written = first_catalogue(alloc, limits, name)?;
    let input = CreationPlan {
        body: written.body,
        chain: written.blocks,
        first_open: gates[0],
        second_open: gates[1],
        logs: 8 * limits.log_places(),
    };
    plan_creation(alloc, &input)
}

// The catalogue of the empty tree, over the first places that aren't fixed.
fn first_catalogue(alloc: Global, limits: &Limits, name: &Name) -> Result<Written, NoMemory>
    ensures { IfOk result (λ written. Spells (record { devices = limits.now.devices; places = limits.now.places }) (pool_number name.now)
        (first_chain (record { devices = limits.now.devices; places = limits.now.places })) first_tree written) }
{
    let fixed = Census::of(alloc, limits, &[], &[])?;
    let tree = empty_tree(alloc);
    write_catalogue(alloc, limits, number_of_pool(name), &tree, &fixed)
}

// The tree of a pool that was just made.
fn empty_tree(alloc: Global) -> Tree
    ensures { result ≡ first_tree }
{
    Tree {
        group: 1,
        next_dataset: 1,
        datasets: Listed::new(alloc),
    }
}

// The number of a pool with this name.
fn number_of_pool(name: &Name) -> u64
    ensures { result ≡ pool_number name.now }
{
    let digest = whole_digest(name.bytes());
    match Cursor::new(digest.as_slice()).u64() {
        Ok(number) => number,
        Err(_) => unreachable!(),
    }
}
