// How a group is committed.
ghost use Rattle.std.specs.Prelude.{◌≡◌, ◌+◌, ◌≤◌, [], ◌++◌, length, map, drop, slice_index_or, false, None, IfOk, IfErr, OnOk, OnErr, IsErrOf, IsTrue};
ghost use Rattle.zc_tape.specs.Cause.{Rose};
ghost use Rattle.zc_tape.specs.Plays.{Begun};
ghost use Rattle.zc_tape.proofs.Extends.{Extends};
ghost use Rattle.zc_root.specs.Root.{slot_of};
ghost use Rattle.zc_layout.specs.Standing.{group_calls};
ghost use Rattle.zc_tree.specs.Catalogue.{AreDatasets};
ghost use Rattle.zc_tree.specs.Reach.{pointers_of_tree};
ghost use Rattle.zc_plan.specs.Counted.{AllMade, AllButLast};
ghost use Rattle.zc_plan.specs.Puts.{puts_of, HasRoom};
ghost use Rattle.zc_damage.specs.Checks.{charge_hit};
ghost use Rattle.zc_damage.specs.Places.{ReachPlaces, ChainPlaces};
ghost use Rattle.zc_state.specs.State.{State, place_of_block};
ghost use Rattle.zc_group.specs.Chosen.{chain_for};
ghost use Rattle.zc_group.specs.Counted.{IsFailed, made_before};
ghost use Rattle.zc_group.specs.Kept.{HasSize, HasPlaces};
ghost use Rattle.zc_group.specs.Spelled.{Spells};
ghost use Rattle.zc_group.specs.Committed.{found_of, taken_by, state_after, MayCommit, MayLead, LeavesEither, IsCommitted, IsLed, IsGroupBegun, LeavesGroup, MakesGroup};

use crate::Root;
use crate::catalogue::{Written, write_catalogue};
use std::alloc::Global;
use zc_blkptr::Ptr;
use zc_damage::Census;
use zc_num::{Limits, Listed, NoMemory, PlaceAt};
use zc_plan::{GroupPlan, PlacedBlock, WriteFault, plan_group, write_group};
use zc_root::{Body, slot_of};
use zc_tape::DiskSet;
use zc_tree::Tree;

/// Why a group was not committed.
#[derive(Clone, Copy, Debug, PartialEq, Eq)]
pub enum CommitFault {
    /// Memory was wanting, and nothing was written.
    NoMemory,
    /// A call of the disks failed. The root that stands may be the old one or the new one.
    Failed {
        /// How many calls were made, the failed one too.
        made: u64,
    },
}

/// The root that a group leads to, beside its tree.
#[derive(Debug, Drop)]
pub struct NextRoot {
    /// Its body.
    pub body: Body,
    /// The places of its catalogue.
    pub chain: Listed<PlaceAt>,
    /// How many calls were made.
    pub made: u64,
}

/// Commits a group with this tree and these new blocks, and tells how many calls it made. Its catalogue takes the first places that
/// neither the old root nor the new blocks own.
///
/// # Errors
/// `Failed` where a call of the disks failed, with how many were made, that one too. Want of memory, before any call: also where too
/// few places are free, and where the tree's pointers are to more places than the pool has for data. The root is then what it was.
#[tactic(auto, using(crate::proofs::CommitLaws::committed, crate::proofs::SpellLaws::reach_there))]
pub fn commit<D: DiskSet>(
    alloc: Global,
    disks: &mut D,
    root: &mut Root,
    tree: Tree,
    new: Listed<PlacedBlock>,
) -> Result<u64, CommitFault>
    requires size { HasSize (D.shape disks.old) root.old }
    requires places { HasPlaces root.old }
    requires few { length tree.datasets ≤ 8 }
    requires datasets { AreDatasets root.old.limits.devices root.old.limits.places tree.group tree.next_dataset [] tree.datasets }
    requires there { ChainPlaces root.old.limits.devices root.old.limits.places (map place_of_block (map found_of new)) }
    ensures shape { D.shape disks.new ≡ D.shape disks.old }
    ensures told { (D.tape disks.new).told ≡ (D.tape disks.old).told }
    ensures extends { IsTrue (D.tape disks.old).told → Extends (D.tape disks.old) (D.tape disks.new) }

    // At each moment the old state stands, or the next one.
    ensures any_moment { (s : State) → MayCommit (D.shape disks.old) (D.tape disks.old) s root.old tree (map found_of new)
        → LeavesEither (D.shape disks.old) s (state_after (D.shape disks.old) s tree (map found_of new)) (D.tape disks.old) (D.tape disks.new) }

    // Once it is Ok, only the next one, and the root keeps it.
    ensures made { OnOk result ((s : State) → MayCommit (D.shape disks.old) (D.tape disks.old) s root.old tree (map found_of new)
        → IsCommitted (D.shape disks.old) (D.tape disks.new) (state_after (D.shape disks.old) s tree (map found_of new)) root.new) }

    // Whatever the disks held, the root is then of this group and has this tree.
    ensures tree { OnOk result (root.new.tree ≡ tree) }
    ensures body { OnOk result (root.new.body.group ≡ tree.group) }
    ensures keeps_body { OnOk result (root.new.body.pool ≡ root.old.body.pool) }
    ensures charge { OnOk result (charge_hit root.old.limits.devices root.old.limits.places tree.group (pointers_of_tree tree) ≡ None) }
    ensures places { HasPlaces root.new }
    ensures limits { root.new.limits ≡ root.old.limits }
    ensures kept { OnErr result (root.new ≡ root.old) }
    ensures memory { IsErrOf result CommitFault.NoMemory → D.tape disks.new ≡ D.tape disks.old }
    ensures no_fault { IsErrOf result CommitFault.NoMemory → D.faults disks.new ≡ D.faults disks.old }
    ensures later { D.faults disks.old ≤ D.faults disks.new }
    ensures cause { IfErr result (λ fault. IsFailed fault → Rose (D.faults disks.old) (D.faults disks.new)) }

    // So many calls were made, and all of them were Ok, or all but the last.
    ensures counted { IfOk result (λ made. IsTrue (D.tape disks.old).told
        → length (D.tape disks.new).calls ≡ length (D.tape disks.old).calls + made) }
    ensures counted_failed { IfErr result (λ fault. IsTrue (D.tape disks.old).told
        → length (D.tape disks.new).calls ≡ length (D.tape disks.old).calls + made_before fault) }
    ensures all_made { OnOk result (IsTrue (D.tape disks.old).told
        → AllMade (drop (length (D.tape disks.old).calls) (D.tape disks.new).calls)) }
    ensures first_failed { IfErr result (λ fault. IsFailed fault → IsTrue (D.tape disks.old).told
        → AllButLast (drop (length (D.tape disks.old).calls) (D.tape disks.new).calls)) }
{
    match lead_from(alloc, disks, root, &tree, new) {
        Ok(NextRoot { body, chain, made }) => {
            root.body = body;
            root.gates = [true, true];
            root.tree = tree;
            root.chain = chain;
            Ok(made)
        }
        Err(fault) => Err(fault),
    }
}

// The calls of the group after the root; the body and the places of its catalogue.
#[tactic(auto, using(crate::proofs::CommitLaws::reach_of_root, zc_tape::proofs::Extends::extends_refl))]
fn lead_from<D: DiskSet>(
    alloc: Global,
    disks: &mut D,
    root: &Root,
    tree: &Tree,
    new: Listed<PlacedBlock>,
) -> Result<NextRoot, CommitFault>
    requires size { HasSize (D.shape disks.old) root.now }
    requires places { HasPlaces root.now }
    requires few { length tree.now.datasets ≤ 8 }
    requires datasets { AreDatasets root.now.limits.devices root.now.limits.places tree.now.group tree.now.next_dataset [] tree.now.datasets }
    requires there { ChainPlaces root.now.limits.devices root.now.limits.places (map place_of_block (map found_of new)) }
    ensures shape { D.shape disks.new ≡ D.shape disks.old }
    ensures told { (D.tape disks.new).told ≡ (D.tape disks.old).told }
    ensures extends { IsTrue (D.tape disks.old).told → Extends (D.tape disks.old) (D.tape disks.new) }
    ensures any_moment { (s : State) → MayCommit (D.shape disks.old) (D.tape disks.old) s root.now tree.now (map found_of new)
        → LeavesEither (D.shape disks.old) s (state_after (D.shape disks.old) s tree.now (map found_of new)) (D.tape disks.old) (D.tape disks.new) }
    ensures made { IfOk result (λ next. (s : State) → MayCommit (D.shape disks.old) (D.tape disks.old) s root.now tree.now (map found_of new)
        → IsLed (D.shape disks.old) (D.tape disks.new) (state_after (D.shape disks.old) s tree.now (map found_of new)) next.body next.chain) }
    ensures group { IfOk result (λ next. next.body.group ≡ tree.now.group) }
    ensures pool { IfOk result (λ next. next.body.pool ≡ root.now.body.pool) }
    ensures charge { OnOk result (charge_hit root.now.limits.devices root.now.limits.places tree.now.group (pointers_of_tree tree.now) ≡ None) }
    ensures chain_there { IfOk result (λ next. ChainPlaces root.now.limits.devices root.now.limits.places next.chain) }
    ensures memory { IsErrOf result CommitFault.NoMemory → D.tape disks.new ≡ D.tape disks.old }
    ensures no_fault { IsErrOf result CommitFault.NoMemory → D.faults disks.new ≡ D.faults disks.old }
    ensures later { D.faults disks.old ≤ D.faults disks.new }
    ensures cause { IfErr result (λ fault. IsFailed fault → Rose (D.faults disks.old) (D.faults disks.new)) }
    ensures counted { IfOk result (λ next. IsTrue (D.tape disks.old).told
        → length (D.tape disks.new).calls ≡ length (D.tape disks.old).calls + next.made) }
    ensures counted_failed { IfErr result (λ fault. IsTrue (D.tape disks.old).told
        → length (D.tape disks.new).calls ≡ length (D.tape disks.old).calls + made_before fault) }
    ensures all_made { OnOk result (IsTrue (D.tape disks.old).told
        → AllMade (drop (length (D.tape disks.old).calls) (D.tape disks.new).calls)) }
    ensures first_failed { IfErr result (λ fault. IsFailed fault → IsTrue (D.tape disks.old).told
        → AllButLast (drop (length (D.tape disks.old).calls) (D.tape disks.new).calls)) }
{
    match root.tree.walk(alloc) {
        Ok(reach) => lead(
            alloc,
            disks,
            &root.limits,
            &root.body,
            root.gates,
            root.chain.as_slice(),
            reach.as_slice(),
            tree,
            new,
        ),
        Err(NoMemory) => Err(CommitFault::NoMemory),
    }
}

/// The calls of the group after a root with this body, these flags, this chain and these pointers; the body and the places of its
/// catalogue.
///
/// # Errors
/// As `commit`.
#[tactic(auto, using(zc_tape::proofs::Extends::extends_refl))]
pub(crate) fn lead<D: DiskSet>(
    alloc: Global,
    disks: &mut D,
    limits: &Limits,
    body: &Body,
    gates: [bool; 2],
    chain: &[PlaceAt],
    reach: &[Ptr],
    tree: &Tree,
    new: Listed<PlacedBlock>,
) -> Result<NextRoot, CommitFault>
    requires devices { limits.now.devices ≡ (D.shape disks.old).devices }
    requires places { limits.now.places ≡ (D.shape disks.old).places }
    requires chain_there { ChainPlaces limits.now.devices limits.now.places chain.now }
    requires reach_there { ReachPlaces limits.now.devices limits.now.places reach.now }
    requires few { length tree.now.datasets ≤ 8 }
    requires datasets { AreDatasets limits.now.devices limits.now.places tree.now.group tree.now.next_dataset [] tree.now.datasets }
    requires there { ChainPlaces limits.now.devices limits.now.places (map place_of_block (map found_of new)) }
    ensures shape { D.shape disks.new ≡ D.shape disks.old }
    ensures told { (D.tape disks.new).told ≡ (D.tape disks.old).told }
    ensures extends { IsTrue (D.tape disks.old).told → Extends (D.tape disks.old) (D.tape disks.new) }
    ensures any_moment { (s : State) → MayLead (D.shape disks.old) (D.tape disks.old) s body.now gates chain.now reach.now tree.now (map found_of new)
        → LeavesEither (D.shape disks.old) s (state_after (D.shape disks.old) s tree.now (map found_of new)) (D.tape disks.old) (D.tape disks.new) }
    ensures made { IfOk result (λ next. (s : State) → MayLead (D.shape disks.old) (D.tape disks.old) s body.now gates chain.now reach.now tree.now (map found_of new)
        → IsLed (D.shape disks.old) (D.tape disks.new) (state_after (D.shape disks.old) s tree.now (map found_of new)) next.body next.chain) }
    ensures begun { (s : State) → MayLead (D.shape disks.old) (D.tape disks.old) s body.now gates chain.now reach.now tree.now (map found_of new)
        → IsGroupBegun (D.shape disks.old) (D.tape disks.old) (D.tape disks.new) s tree.now (map found_of new) }
    ensures group { IfOk result (λ next. next.body.group ≡ tree.now.group) }
    ensures pool { IfOk result (λ next. next.body.pool ≡ body.now.pool) }
    ensures charge { OnOk result (charge_hit limits.now.devices limits.now.places tree.now.group (pointers_of_tree tree.now) ≡ None) }
    ensures chain_there { IfOk result (λ next. ChainPlaces limits.now.devices limits.now.places next.chain) }
    ensures memory { IsErrOf result CommitFault.NoMemory → D.tape disks.new ≡ D.tape disks.old }
    ensures no_fault { IsErrOf result CommitFault.NoMemory → D.faults disks.new ≡ D.faults disks.old }
    ensures later { D.faults disks.old ≤ D.faults disks.new }
    ensures cause { IfErr result (λ fault. IsFailed fault → Rose (D.faults disks.old) (D.faults disks.new)) }
    ensures counted { IfOk result (λ next. IsTrue (D.tape disks.old).told
        → length (D.tape disks.new).calls ≡ length (D.tape disks.old).calls + next.made) }
    ensures counted_failed { IfErr result (λ fault. IsTrue (D.tape disks.old).told
        → length (D.tape disks.new).calls ≡ length (D.tape disks.old).calls + made_before fault) }
    ensures all_made { OnOk result (IsTrue (D.tape disks.old).told
        → AllMade (drop (length (D.tape disks.old).calls) (D.tape disks.new).calls)) }
    ensures first_failed { IfErr result (λ fault. IsFailed fault → IsTrue (D.tape disks.old).told
        → AllButLast (drop (length (D.tape disks.old).calls) (D.tape disks.new).calls)) }
{
    match next_of(alloc, limits, body.pool, chain, reach, tree, &new) {
        Ok(written) => {
            let gate_open = flag_of(gates, tree.group);
            write_led(alloc, disks, new, written, gate_open)
        }
        Err(NoMemory) => Err(CommitFault::NoMemory),
    }
}

// Whether the gate of a group's slot is open.
#[tactic(auto, using(zc_root::proofs::RootLaws::slot_below))]
fn flag_of(gates: [bool; 2], group: u64) -> bool
    ensures { result ≡ slice_index_or gates (slot_of group) false }
{
    gates[slot_of(group) as usize]
}

// What the group writes of its tree.
#[tactic(auto, using(crate::proofs::WidthLaws::tree_widths, crate::proofs::CommitLaws::taken_there))]
fn next_of(
    alloc: Global,
    limits: &Limits,
    pool: u64,
    chain: &[PlaceAt],
    reach: &[Ptr],
    tree: &Tree,
    new: &Listed<PlacedBlock>,
) -> Result<Written, NoMemory>
    requires chain_there { ChainPlaces limits.now.devices limits.now.places chain.now }
    requires reach_there { ReachPlaces limits.now.devices limits.now.places reach.now }
    requires few { length tree.now.datasets ≤ 8 }
    requires datasets { AreDatasets limits.now.devices limits.now.places tree.now.group tree.now.next_dataset [] tree.now.datasets }
    requires there { ChainPlaces limits.now.devices limits.now.places (map place_of_block (map found_of new.now)) }
    ensures spells { IfOk result (λ written. Spells (record { devices = limits.now.devices; places = limits.now.places }) pool
        (chain_for (record { devices = limits.now.devices; places = limits.now.places }) (taken_by chain.now (map found_of new.now)) reach.now tree.now) tree.now written) }
    ensures charge { OnOk result (charge_hit limits.now.devices limits.now.places tree.now.group (pointers_of_tree tree.now) ≡ None) }
{
    let taken = taken_by(alloc, chain, new.as_slice())?;
    let census = Census::of(alloc, limits, reach, taken.as_slice())?;
    write_catalogue(alloc, limits, pool, tree, &census)
}

// The places of a catalogue, and of blocks after them.
fn taken_by(alloc: Global, chain: &[PlaceAt], new: &[PlacedBlock]) -> Result<Vec<PlaceAt>, NoMemory>
    ensures { IfOk result (λ taken. taken.items ≡ taken_by chain.now (map found_of new.now)) }
{
    let mut taken = Vec::new(alloc);
    for at in chain {
        taken.push(*at)?;
    }
    for block in new {
        taken.push(PlaceAt {
            device: block.device,
            place: block.place,
        })?;
    }
    Ok(taken)
}

// Writes the new blocks and what was spelled; the body and the places of the catalogue.
fn write_led<D: DiskSet>(
    alloc: Global,
    disks: &mut D,
    new: Listed<PlacedBlock>,
    written: Written,
    gate_open: bool,
) -> Result<NextRoot, CommitFault>
    requires room { HasRoom (D.shape disks.old) 0 (puts_of new ++ puts_of written.blocks) }
    ensures shape { D.shape disks.new ≡ D.shape disks.old }
    ensures told { (D.tape disks.new).told ≡ (D.tape disks.old).told }
    ensures extends { IsTrue (D.tape disks.old).told → Extends (D.tape disks.old) (D.tape disks.new) }
    ensures any_moment { LeavesGroup (puts_of new ++ puts_of written.blocks) written.body gate_open (D.tape disks.old) (D.tape disks.new) }
    ensures made { OnOk result (MakesGroup (puts_of new ++ puts_of written.blocks) written.body gate_open (D.tape disks.old) (D.tape disks.new)) }
    ensures begun { IsTrue (D.tape disks.old).told
        → Begun (D.tape disks.old) (group_calls (puts_of new ++ puts_of written.blocks) written.body gate_open) (D.tape disks.new) }
    ensures body { IfOk result (λ next. next.body ≡ written.body) }
    ensures chain { IfOk result (λ next. next.chain ≡ written.chain) }
    ensures memory { IsErrOf result CommitFault.NoMemory → D.tape disks.new ≡ D.tape disks.old }
    ensures no_fault { IsErrOf result CommitFault.NoMemory → D.faults disks.new ≡ D.faults disks.old }
    ensures later { D.faults disks.old ≤ D.faults disks.new }
    ensures cause { IfErr result (λ fault. IsFailed fault → Rose (D.faults disks.old) (D.faults disks.new)) }
    ensures counted { IfOk result (λ next. IsTrue (D.tape disks.old).told
        → length (D.tape disks.new).calls ≡ length (D.tape disks.old).calls + next.made) }
    ensures counted_failed { IfErr result (λ fault. IsTrue (D.tape disks.old).told
        → length (D.tape disks.new).calls ≡ length (D.tape disks.old).calls + made_before fault) }
    ensures all_made { OnOk result (IsTrue (D.tape disks.old).told
        → AllMade (drop (length (D.tape disks.old).calls) (D.tape disks.new).calls)) }
    ensures first_failed { IfErr result (λ fault. IsFailed fault → IsTrue (D.tape disks.old).told
        → AllButLast (drop (length (D.tape disks.old).calls) (D.tape disks.new).calls)) }
{
    let Written {
        body,
        chain,
        blocks,
    } = written;
    match write_next(alloc, disks, body, new, blocks, gate_open) {
        Ok(made) => Ok(NextRoot { body, chain, made }),
        Err(fault) => Err(fault),
    }
}

// Plans and makes the calls of a group with this body, these blocks, and these of its catalogue.
#[tactic(auto, using(crate::proofs::CommitLaws::leaves_unbegun, crate::proofs::CommitLaws::leaves_planned, crate::proofs::CommitLaws::makes_planned, crate::proofs::TapeLaws::begun_same, crate::proofs::TapeLaws::begun_planned, crate::proofs::TapeLaws::extends_same, crate::proofs::TapeLaws::extends_planned))]
fn write_next<D: DiskSet>(
    alloc: Global,
    disks: &mut D,
    body: Body,
    blocks: Listed<PlacedBlock>,
    chain: Listed<PlacedBlock>,
    gate_open: bool,
) -> Result<u64, CommitFault>
    requires room { HasRoom (D.shape disks.old) 0 (puts_of blocks ++ puts_of chain) }
    ensures shape { D.shape disks.new ≡ D.shape disks.old }
    ensures told { (D.tape disks.new).told ≡ (D.tape disks.old).told }
    ensures extends { IsTrue (D.tape disks.old).told → Extends (D.tape disks.old) (D.tape disks.new) }
    ensures any_moment { LeavesGroup (puts_of blocks ++ puts_of chain) body gate_open (D.tape disks.old) (D.tape disks.new) }
    ensures made { OnOk result (MakesGroup (puts_of blocks ++ puts_of chain) body gate_open (D.tape disks.old) (D.tape disks.new)) }
    ensures begun { IsTrue (D.tape disks.old).told
        → Begun (D.tape disks.old) (group_calls (puts_of blocks ++ puts_of chain) body gate_open) (D.tape disks.new) }
    ensures memory { IsErrOf result CommitFault.NoMemory → D.tape disks.new ≡ D.tape disks.old }
    ensures no_fault { IsErrOf result CommitFault.NoMemory → D.faults disks.new ≡ D.faults disks.old }
    ensures later { D.faults disks.old ≤ D.faults disks.new }
    ensures cause { IfErr result (λ fault. IsFailed fault → Rose (D.faults disks.old) (D.faults disks.new)) }
    ensures counted { IfOk result (λ made. IsTrue (D.tape disks.old).told
        → length (D.tape disks.new).calls ≡ length (D.tape disks.old).calls + made) }
    ensures counted_failed { IfErr result (λ fault. IsTrue (D.tape disks.old).told
        → length (D.tape disks.new).calls ≡ length (D.tape disks.old).calls + made_before fault) }
    ensures all_made { OnOk result (IsTrue (D.tape disks.old).told
        → AllMade (drop (length (D.tape disks.old).calls) (D.tape disks.new).calls)) }
    ensures first_failed { IfErr result (λ fault. IsFailed fault → IsTrue (D.tape disks.old).told
        → AllButLast (drop (length (D.tape disks.old).calls) (D.tape disks.new).calls)) }
{
    let input = GroupPlan {
        body,
        blocks,
        chain,
        gate_open,
    };
    match plan_group(alloc, &input) {
        Ok(plan) => match write_group(disks, &plan) {
            Ok(made) => Ok(made),
            Err(WriteFault::NoMemory) => Err(CommitFault::NoMemory),
            Err(WriteFault::Failed { made }) => Err(CommitFault::Failed { made }),
        },
        Err(NoMemory) => Err(CommitFault::NoMemory),
    }
}
