// All of it: what stands after the root, or the first damage.
ghost use Rattle.std.specs.Prelude.{◌≡◌, ◌≤◌, IfOk, IfErr, IsErrOf, None};
ghost use Rattle.zc_num.specs.Limits.{AreLimits};
ghost use Rattle.zc_tape.specs.Cause.{Rose};
ghost use Rattle.zc_tape.specs.Crash.{reads};
ghost use Rattle.zc_root.specs.Body.{IsBody};
ghost use Rattle.zc_root.specs.Root.{IsRoot, AreGates};
ghost use Rattle.zc_layout.specs.Standing.{HasNoRoot};
ghost use Rattle.zc_tree.specs.Catalogue.{AreParts};
ghost use Rattle.zc_damage.specs.Places.{ChainPlaces};
ghost use Rattle.zc_damage.specs.Checks.{worn_hit};
ghost use Rattle.zc_state.specs.State.{State, StandsFor, IsFresh};
ghost use Rattle.zc_image.specs.ReadAnswers.{IsWhole, ReadAnswers, IsDamage};
ghost use Rattle.zc_image.specs.Blocks.{AreBlocksAt};
ghost use Rattle.zc_image.specs.Checked.{IsChecked};
ghost use Rattle.zc_image.specs.Found.{state_of, IsAnswer, Finds};
ghost use Rattle.zc_image.specs.Steps.{catalogue_in, state_in};

use crate::catalogue::{check_digest, read_parts};
use crate::chain::read_chain;
use crate::geometry::geometry_hit;
use crate::hits::pass;
use crate::reach::read_reach;
use crate::{Found, ImageFault};
use std::alloc::Global;
use zc_num::{Limits, Listed, PlaceAt};
use zc_root::{Body, RootFault, read_slots};
use zc_tape::DiskSet;
use zc_tree::Parts;

/// The pool that the disk set holds: what stands after its root.
///
/// It reads the roots, the places of the catalogue's chain, and each place to which a pointer is, and each of them once.
///
/// # Errors
/// `NoPool` where no pool has the size of the disk set or neither slot has an open root; `Damaged` with the first damage; `DiskFault`
/// where a read failed; want of memory.
pub fn read_pool<D: DiskSet>(alloc: Global, disks: &mut D) -> Result<Found, ImageFault>
    ensures limits { IfOk result (λ _. AreLimits (D.shape disks.old).devices (D.shape disks.old).places) }
    ensures body { IfOk result (λ found. IsBody found.body) }
    ensures root { IfOk result (λ found. IsWhole (D.tape disks.old)
        → IsRoot (reads (D.tape disks.old)) found.body × AreGates (reads (D.tape disks.old)) found.gates) }

    // What is answered is what the image holds after its root. So what is found stands there, and what stands there is found.
    ensures exact { IsWhole (D.tape disks.old) → IsAnswer (D.shape disks.old) (reads (D.tape disks.old)) result }
    ensures sound { IfOk result (λ found. IsWhole (D.tape disks.old)
        → StandsFor (D.shape disks.old) (reads (D.tape disks.old)) (state_of found) × IsFresh (state_of found)) }
    ensures only { IsWhole (D.tape disks.old) → (s : State) → StandsFor (D.shape disks.old) (reads (D.tape disks.old)) s → IsFresh s → Finds s result }
    ensures none { IsErrOf result ImageFault.NoPool → IsWhole (D.tape disks.old)
        → AreLimits (D.shape disks.old).devices (D.shape disks.old).places → HasNoRoot (reads (D.tape disks.old)) }

    // A damage is told only of a disk set whose size a pool may have.
    ensures sized { IfErr result (λ fault. IsDamage fault → AreLimits (D.shape disks.old).devices (D.shape disks.old).places) }

    // Whatever the reads gave, these fit a pool of the disks' size, the numbers are low, and the checks of what was found hit nothing.
    ensures places { IfOk result (λ found. ChainPlaces (D.shape disks.old).devices (D.shape disks.old).places found.catalogue) }
    ensures parts { IfOk result (λ found. AreParts (D.shape disks.old).devices (D.shape disks.old).places found.body.group found.body.next_dataset found.parts) }
    ensures fresh { IfOk result (λ found. worn_hit found.parts.tree ≡ None) }
    ensures checked { IfOk result (λ found. IsChecked (D.shape disks.old).devices (D.shape disks.old).places found.parts found.catalogue found.blocks) }

    ensures tape { D.tape disks.new ≡ D.tape disks.old }
    ensures shape { D.shape disks.new ≡ D.shape disks.old }
    ensures spare { D.spare disks.new ≡ D.spare disks.old }
    ensures later { D.faults disks.old ≤ D.faults disks.new }
    ensures cause { IsErrOf result ImageFault.DiskFault → Rose (D.faults disks.old) (D.faults disks.new) }
{
    match read_slots(disks) {
        Ok(root) => {
            let body = root.0;
            let gates = root.1;
            let limits = size_of(disks);
            read_after(alloc, disks, &limits, body, gates)
        }
        Err(RootFault::NoPool) => Err(ImageFault::NoPool),
        Err(RootFault::Failed) => Err(ImageFault::DiskFault),
    }
}

// The size of a disk set that a pool may have.
fn size_of<D: DiskSet>(disks: &D) -> Limits
    requires { AreLimits (D.shape disks.now).devices (D.shape disks.now).places }
    ensures devices { result.devices ≡ (D.shape disks.now).devices }
    ensures places { result.places ≡ (D.shape disks.now).places }
{
    match Limits::of(disks.devices(), disks.places()) {
        Some(limits) => limits,
        None => unreachable!(),
    }
}

// What stands after the root with this body.
#[tactic(auto, unfolding(crate::specs::Steps::state_in))]
fn read_after<D: DiskSet>(
    alloc: Global,
    disks: &mut D,
    limits: &Limits,
    body: Body,
    gates: [bool; 2],
) -> Result<Found, ImageFault>
    requires body { IsBody body }
    requires devices { limits.now.devices ≡ (D.shape disks.old).devices }
    requires places { limits.now.places ≡ (D.shape disks.old).places }
    ensures exact { IsWhole (D.tape disks.old) → ReadAnswers state_of result (state_in (D.shape disks.old) (reads (D.tape disks.old)) body) }
    ensures body { IfOk result (λ found. found.body ≡ body) }
    ensures gates { IfOk result (λ found. found.gates ≡ gates) }
    ensures whole { IfOk result (λ found. IsWhole (D.tape disks.old) → AreBlocksAt (reads (D.tape disks.old)) found.catalogue) }
    ensures there { IfOk result (λ found. ChainPlaces limits.now.devices limits.now.places found.catalogue) }
    ensures parts { IfOk result (λ found. AreParts limits.now.devices limits.now.places body.group body.next_dataset found.parts) }
    ensures fresh { IfOk result (λ found. worn_hit found.parts.tree ≡ None) }
    ensures checked { IfOk result (λ found. IsChecked limits.now.devices limits.now.places found.parts found.catalogue found.blocks) }
    ensures tape { D.tape disks.new ≡ D.tape disks.old }
    ensures shape { D.shape disks.new ≡ D.shape disks.old }
    ensures spare { D.spare disks.new ≡ D.spare disks.old }
    ensures later { D.faults disks.old ≤ D.faults disks.new }
    ensures cause { IsErrOf result ImageFault.DiskFault → Rose (D.faults disks.old) (D.faults disks.new) }
{
    pass(alloc, geometry_hit(limits, &body))?;
    let (catalogue, parts) = read_catalogue(alloc, disks, limits, &body)?;
    let blocks = read_reach(
        alloc,
        disks,
        limits,
        &parts,
        catalogue.as_slice(),
        body.group,
        body.next_dataset,
    )?;
    Ok(Found {
        body,
        gates,
        parts,
        catalogue,
        blocks,
    })
}

// The places of the catalogue, and what its bytes say.
#[tactic(auto, unfolding(crate::specs::Steps::catalogue_in))]
fn read_catalogue<D: DiskSet>(
    alloc: Global,
    disks: &mut D,
    limits: &Limits,
    body: &Body,
) -> Result<(Listed<PlaceAt>, Parts), ImageFault>
    requires body { IsBody body.now }
    requires devices { limits.now.devices ≡ (D.shape disks.old).devices }
    requires places { limits.now.places ≡ (D.shape disks.old).places }
    ensures exact { IsWhole (D.tape disks.old) → ReadAnswers (λ found. (found.0, found.1)) result
        (catalogue_in limits.now.devices limits.now.places (reads (D.tape disks.old)) body.now) }
    ensures whole { IfOk result (λ found. IsWhole (D.tape disks.old) → AreBlocksAt (reads (D.tape disks.old)) found.0) }
    ensures there { IfOk result (λ found. ChainPlaces limits.now.devices limits.now.places found.0) }
    ensures parts { IfOk result (λ found. AreParts limits.now.devices limits.now.places body.now.group body.now.next_dataset found.1) }
    ensures tape { D.tape disks.new ≡ D.tape disks.old }
    ensures shape { D.shape disks.new ≡ D.shape disks.old }
    ensures spare { D.spare disks.new ≡ D.spare disks.old }
    ensures later { D.faults disks.old ≤ D.faults disks.new }
    ensures cause { IsErrOf result ImageFault.DiskFault → Rose (D.faults disks.old) (D.faults disks.new) }
{
    let trail = read_chain(alloc, disks, limits, body)?;
    check_digest(alloc, body, trail.bytes.as_slice())?;
    let parts = read_parts(alloc, limits, body, trail.bytes.as_slice())?;
    Ok((trail.into_places(), parts))
}
