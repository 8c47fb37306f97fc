// The pool of a name, made: its disk set is taken, or made where the name isn't there; then the pool is made on it, and it is given
// back.
ghost use Rattle.std.specs.Prelude.{◌≡◌, ◌≢◌, ◌≤◌, false, IfOk, OnOk, IsErrOf, IsTrue};
ghost use Rattle.zc_num.specs.Limits.{AreLimits};
ghost use Rattle.zc_tape.specs.Tape.{Shape};
ghost use Rattle.zc_tape.specs.Cause.{Rose};
ghost use Rattle.zc_tape.specs.Crash.{reads};
ghost use Rattle.zc_io.specs.Stock.{IsUncalled, IsHere};
ghost use Rattle.zc_root.specs.Root.{IsOpenRoot, HasWholeRoots};
ghost use Rattle.zc_root.specs.declared.body.Body.{Body as BodyOf};
ghost use Rattle.zc_layout.specs.Standing.{HasNoRoot};
ghost use Rattle.zc_group.specs.Created.{HoldsNothing, LeavesFirst, IsFirst, IsCreationWhole, WritesCreation};
ghost use Rattle.zc_group.specs.Imported.{StopsAtFailure};
ghost use Rattle.zc_prog.specs.Ended.{MakesAs, LooksAs};
ghost use Rattle.zc_prog.specs.Pooled.{IsAllBack, GivesBack, HoldsOfGiven, IsMadeAs, IsCreated, CreatesWhole};

use crate::ended::Ended;
use std::alloc::{AllocError, Global};
use zc_group::{CreateFault, create_pool, has_root};
use zc_io::{Shelf, ShelfFault};
use zc_num::{Name, NoMemory};
use zc_tape::{DiskSet, Failed};

// Makes the pool on a disk set; the set, and what came of it.
#[tactic(auto, using(crate::proofs::CreatedLaws::no_root_before))]
fn create_on<D: DiskSet>(alloc: Global, disks: D, name: &Name) -> (D, Result<(), CreateFault>)
    requires limits { AreLimits (D.shape disks).devices (D.shape disks).places }
    ensures shape { D.shape result.0 ≡ D.shape disks }
    ensures told { (D.tape result.0).told ≡ (D.tape disks).told }
    ensures began { IsTrue (D.tape disks).told → (D.tape result.0).start ≡ (D.tape disks).start }
    ensures any_moment { HoldsNothing (D.tape disks) → LeavesFirst (D.shape disks) name.now (D.tape disks) (D.tape result.0) }
    ensures made { OnOk result.1 (HoldsNothing (D.tape disks) → IsFirst (D.shape disks) name.now (D.tape result.0)) }
    ensures none { OnOk result.1 (IsTrue (D.tape disks).told → HasWholeRoots (D.tape disks) → HasNoRoot (reads (D.tape disks))) }
    ensures exists { IsErrOf result.1 CreateFault.PoolExists → IsTrue (D.tape disks).told → HasWholeRoots (D.tape disks)
        → (body : BodyOf) × IsOpenRoot (reads (D.tape disks)) body }
    ensures kept { IsErrOf result.1 CreateFault.PoolExists → D.tape result.0 ≡ D.tape disks }
    ensures rooted { (body : BodyOf) → IsTrue (D.tape disks).told → HasWholeRoots (D.tape disks) → IsOpenRoot (reads (D.tape disks)) body
        → D.tape result.0 ≡ D.tape disks }
    ensures written { OnOk result.1 (HoldsNothing (D.tape disks) → IsCreationWhole (D.shape disks) name.now (D.tape disks) (D.tape result.0)) }
    ensures begun { HoldsNothing (D.tape disks) → WritesCreation (D.shape disks) name.now (D.tape disks) (D.tape result.0) }
    ensures stops { IsErrOf result.1 CreateFault.Failed → IsTrue (D.tape disks).told → StopsAtFailure (D.tape disks) (D.tape result.0) }
    ensures later { D.faults disks ≤ D.faults result.0 }
    ensures cause { IsErrOf result.1 CreateFault.Failed → Rose (D.faults disks) (D.faults result.0) }
{
    match create_pool(alloc, disks, name) {
        Ok(disks) => (disks, Ok(())),
        Err((fault, disks)) => (disks, Err(fault)),
    }
}

// What a creation came to, once its disk set was handed back.
fn ended_of(created: Result<(), CreateFault>, given: bool) -> Result<Ended, NoMemory>
    ensures { MakesAs created given result }
{
    match created {
        Ok(()) => Ok(Ended::Created { given }),
        Err(CreateFault::PoolExists) => Ok(Ended::PoolExists),
        Err(CreateFault::Failed) => Ok(Ended::DiskFault),
        Err(CreateFault::NoMemory) => Err(AllocError),
    }
}

// Makes the pool on a disk set that was handed out, and hands it back.
#[tactic(auto, using(crate::proofs::CreatedLaws::made_as))]
fn make_on<H: Shelf>(
    alloc: Global,
    shelf: &mut H,
    disks: H::Disk,
    name: &Name,
) -> Result<Ended, NoMemory>
    requires limits { AreLimits (H.Disk.shape disks).devices (H.Disk.shape disks).places }
    requires fresh { IsUncalled (H.Disk.tape disks) (H.Disk.faults disks) }
    ensures told { (H.stock shelf.new).told ≡ (H.stock shelf.old).told }
    ensures made { IfOk result (λ ended. GivesBack (IsMadeAs (H.faults shelf.old) (H.faults shelf.new) name.now (H.Disk.shape disks) ended)
        (H.stock shelf.old) (H.stock shelf.new) name.now) }
    ensures failed { IfOk result (λ ended. ended ≡ Ended.DiskFault → Rose (H.faults shelf.old) (H.faults shelf.new)) }
    ensures whole { GivesBack (CreatesWhole name.now) (H.stock shelf.old) (H.stock shelf.new) name.now }
    ensures later { H.faults shelf.old ≤ H.faults shelf.new }
{
    let (disks, created) = create_on(alloc, disks, name);
    let given = shelf.give(name, disks).is_ok();
    ended_of(created, given)
}

// What a look at a disk set came to, once it was handed back.
fn ended_by_look(found: Result<bool, Failed>) -> Ended
    ensures { LooksAs found result }
{
    match found {
        Ok(true) => Ended::PoolExists,
        Ok(false) => Ended::OtherSize,
        Err(Failed) => Ended::DiskFault,
    }
}

// Whether a disk set of another size holds a pool; it is handed back as it was.
#[tactic(auto, using(crate::proofs::CreatedLaws::looked_as, crate::proofs::CreatedLaws::look_failed, crate::proofs::CreatedLaws::untouched_as))]
fn look_at<H: Shelf>(shelf: &mut H, disks: H::Disk, name: &Name) -> Ended
    requires fresh { IsUncalled (H.Disk.tape disks) (H.Disk.faults disks) }
    ensures told { (H.stock shelf.new).told ≡ (H.stock shelf.old).told }
    ensures made { (shape : Shape) → (H.Disk.shape disks ≢ shape) → GivesBack (IsMadeAs (H.faults shelf.old) (H.faults shelf.new) name.now shape result)
        (H.stock shelf.old) (H.stock shelf.new) name.now }
    ensures failed { result ≡ Ended.DiskFault → Rose (H.faults shelf.old) (H.faults shelf.new) }
    ensures whole { GivesBack (CreatesWhole name.now) (H.stock shelf.old) (H.stock shelf.new) name.now }
    ensures later { H.faults shelf.old ≤ H.faults shelf.new }
{
    let mut disks = disks;
    let found = has_root(&mut disks);
    let _ = shelf.give(name, disks);
    ended_by_look(found)
}

// Makes the pool on a disk set that was there.
#[tactic(auto, using(crate::proofs::CreatedLaws::same_shape, crate::proofs::CreatedLaws::other_devices, crate::proofs::CreatedLaws::other_places))]
fn make_on_taken<H: Shelf>(
    alloc: Global,
    shelf: &mut H,
    disks: H::Disk,
    name: &Name,
    devices: u32,
    places: u32,
) -> Result<Ended, NoMemory>
    requires limits { AreLimits devices places }
    requires fresh { IsUncalled (H.Disk.tape disks) (H.Disk.faults disks) }
    ensures told { (H.stock shelf.new).told ≡ (H.stock shelf.old).told }
    ensures made { IfOk result (λ ended. GivesBack (IsMadeAs (H.faults shelf.old) (H.faults shelf.new) name.now (record { devices = devices; places = places }) ended)
        (H.stock shelf.old) (H.stock shelf.new) name.now) }
    ensures failed { IfOk result (λ ended. ended ≡ Ended.DiskFault → Rose (H.faults shelf.old) (H.faults shelf.new)) }
    ensures whole { GivesBack (CreatesWhole name.now) (H.stock shelf.old) (H.stock shelf.new) name.now }
    ensures later { H.faults shelf.old ≤ H.faults shelf.new }
{
    if disks.devices() != devices {
        return Ok(look_at(shelf, disks, name));
    }
    if disks.places() != places {
        return Ok(look_at(shelf, disks, name));
    }
    make_on(alloc, shelf, disks, name)
}

// Makes the disk set of a name that isn't there, and the pool on it.
#[tactic(auto, using(crate::proofs::CreatedLaws::created, crate::proofs::CreatedLaws::not_made, crate::proofs::Outcome::all_back, crate::proofs::Outcome::holds_of_given, crate::proofs::Outcome::none_given, crate::proofs::Outcome::none_out))]
fn make_anew<H: Shelf>(
    alloc: Global,
    shelf: &mut H,
    name: &Name,
    devices: u32,
    places: u32,
) -> Result<Ended, NoMemory>
    requires limits { AreLimits devices places }
    requires absent { IsHere (H.stock shelf.old) name.now false }
    ensures told { (H.stock shelf.new).told ≡ (H.stock shelf.old).told }
    ensures created { IfOk result (IsCreated (H.stock shelf.old) (H.stock shelf.new) (H.faults shelf.old) (H.faults shelf.new) name.now
        (record { devices = devices; places = places })) }
    ensures given_back { IsAllBack (H.stock shelf.old) (H.stock shelf.new) }
    ensures whole { HoldsOfGiven (CreatesWhole name.now) (H.stock shelf.old) (H.stock shelf.new) name.now }
    ensures later { H.faults shelf.old ≤ H.faults shelf.new }
{
    match shelf.make(name, devices, places) {
        Ok(disks) => make_on(alloc, shelf, disks, name),
        Err(ShelfFault::Failed) => Ok(Ended::DiskFault),
        Err(ShelfFault::NoMemory) => Err(AllocError),
        Err(ShelfFault::Missing) => unreachable!(),
        Err(ShelfFault::Present) => unreachable!(),
    }
}

/// Makes an empty pool of this size under a name. Whatever it comes to, the disk set is handed back.
///
/// # Errors
/// Want of memory.
#[tactic(auto, using(crate::proofs::CreatedLaws::created, crate::proofs::CreatedLaws::not_made, crate::proofs::CreatedLaws::created_same, crate::proofs::CreatedLaws::back_same, crate::proofs::CreatedLaws::holds_same, crate::proofs::Outcome::all_back, crate::proofs::Outcome::holds_of_given, crate::proofs::Outcome::none_given, crate::proofs::Outcome::none_out))]
pub fn make_pool<H: Shelf>(
    alloc: Global,
    shelf: &mut H,
    name: &Name,
    devices: u32,
    places: u32,
) -> Result<Ended, NoMemory>
    requires limits { AreLimits devices places }
    ensures told { (H.stock shelf.new).told ≡ (H.stock shelf.old).told }
    ensures created { IfOk result (IsCreated (H.stock shelf.old) (H.stock shelf.new) (H.faults shelf.old) (H.faults shelf.new) name.now
        (record { devices = devices; places = places })) }
    ensures given_back { IsAllBack (H.stock shelf.old) (H.stock shelf.new) }
    ensures whole { HoldsOfGiven (CreatesWhole name.now) (H.stock shelf.old) (H.stock shelf.new) name.now }
    ensures later { H.faults shelf.old ≤ H.faults shelf.new }
{
    match shelf.take(name) {
        Ok(disks) => make_on_taken(alloc, shelf, disks, name, devices, places),
        Err(ShelfFault::Missing) => make_anew(alloc, shelf, name, devices, places),
        Err(ShelfFault::Failed) => Ok(Ended::DiskFault),
        Err(ShelfFault::NoMemory) => Err(AllocError),
        Err(ShelfFault::Present) => unreachable!(),
    }
}
