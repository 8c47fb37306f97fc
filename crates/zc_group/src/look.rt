// Whether a disk set of any size has an open root.
ghost use Rattle.std.specs.Prelude.{◌≡◌, ◌<◌, ◌≤◌, ◌↔◌, IfOk, IsTrue};
ghost use Rattle.zc_tape.specs.Cause.{HasCause};
ghost use Rattle.zc_tape.specs.Crash.{reads};
ghost use Rattle.zc_root.specs.Root.{HasWholeRoots, IsOpenGate, gate_place, body_place};
ghost use Rattle.zc_group.specs.Rooted.{HasRootThere, TellsRoot, TellsBody};

use zc_root::{gate_bytes, read_body};
use zc_tape::{DiskSet, Failed};

/// Whether a disk set has an open root. It may have any size: a gate whose place isn't there is not open.
///
/// # Errors
/// A read failed.
#[tactic(auto, using(crate::proofs::RootedLaws::either_is, crate::proofs::RootedLaws::either_only))]
pub fn has_root<D: DiskSet>(disks: &mut D) -> Result<bool, Failed>
    ensures is { IfOk result (λ found. IsTrue found → IsTrue (D.tape disks.old).told → HasWholeRoots (D.tape disks.old)
        → HasRootThere (D.shape disks.old) (reads (D.tape disks.old))) }
    ensures only { IfOk result (λ found. IsTrue (D.tape disks.old).told → HasWholeRoots (D.tape disks.old)
        → HasRootThere (D.shape disks.old) (reads (D.tape disks.old)) → IsTrue found) }
    ensures tape { D.tape disks.new ≡ D.tape disks.old }
    ensures shape { D.shape disks.new ≡ D.shape disks.old }
    ensures cause { HasCause (D.faults disks.old) (D.faults disks.new) result }
{
    match slot_has_root(disks, 0) {
        Ok(first) => match slot_has_root(disks, 1) {
            Ok(second) => Ok(first || second),
            Err(Failed) => Err(Failed),
        },
        Err(Failed) => Err(Failed),
    }
}

// Whether the slot has an open root.
#[tactic(auto, using(crate::proofs::RootedLaws::no_device, crate::proofs::RootedLaws::no_place, crate::proofs::RootedLaws::gate_closed, crate::proofs::RootedLaws::gate_open))]
fn slot_has_root<D: DiskSet>(disks: &mut D, slot: u32) -> Result<bool, Failed>
    requires slot { slot < 2 }
    ensures tells { IfOk result (TellsRoot (D.shape disks.old) (D.tape disks.old) slot) }
    ensures tape { D.tape disks.new ≡ D.tape disks.old }
    ensures shape { D.shape disks.new ≡ D.shape disks.old }
    ensures cause { HasCause (D.faults disks.old) (D.faults disks.new) result }
{
    if disks.devices() < 1 {
        return Ok(false);
    }
    if disks.places() <= 2 * slot + 1 {
        return Ok(false);
    }
    match is_gate_open(disks, slot) {
        Ok(true) => has_body(disks, slot),
        Ok(false) => Ok(false),
        Err(Failed) => Err(Failed),
    }
}

// Whether the slot's gate is open.
fn is_gate_open<D: DiskSet>(disks: &mut D, slot: u32) -> Result<bool, Failed>
    requires slot { slot < 2 }
    requires device { 1 ≤ (D.shape disks.old).devices }
    requires there { gate_place slot < (D.shape disks.old).places }
    ensures gate { IfOk result (λ gate_open. IsTrue (D.tape disks.old).told → HasWholeRoots (D.tape disks.old)
        → IsTrue gate_open ↔ IsOpenGate (reads (D.tape disks.old)) slot) }
    ensures tape { D.tape disks.new ≡ D.tape disks.old }
    ensures shape { D.shape disks.new ≡ D.shape disks.old }
    ensures cause { HasCause (D.faults disks.old) (D.faults disks.new) result }
{
    let mut block = gate_bytes(false);
    disks.read(0, 2 * slot + 1, &mut block)?;
    Ok(is_same(&block, &gate_bytes(true)))
}

// Whether two blocks have the same bytes.
fn is_same(left: &[u8; 4096], right: &[u8; 4096]) -> bool
    ensures { IsTrue result ↔ (left.now ≡ right.now) }
{
    left == right
}

// Whether the slot holds the body of one of its groups.
fn has_body<D: DiskSet>(disks: &mut D, slot: u32) -> Result<bool, Failed>
    requires slot { slot < 2 }
    requires device { 1 ≤ (D.shape disks.old).devices }
    requires there { gate_place slot < (D.shape disks.old).places }
    ensures tells { IfOk result (λ found. IsTrue (D.tape disks.old).told → HasWholeRoots (D.tape disks.old)
        → TellsBody slot (reads (D.tape disks.old) 0 (body_place slot)) found) }
    ensures tape { D.tape disks.new ≡ D.tape disks.old }
    ensures shape { D.shape disks.new ≡ D.shape disks.old }
    ensures cause { HasCause (D.faults disks.old) (D.faults disks.new) result }
{
    let mut block = gate_bytes(false);
    disks.read(0, 2 * slot, &mut block)?;
    Ok(is_body(&block, slot))
}

// Whether the bytes are the body of a group of the slot.
#[tactic(auto, using(crate::proofs::RootedLaws::body_read))]
fn is_body(block: &[u8; 4096], slot: u32) -> bool
    ensures { TellsBody slot block.now result }
{
    read_body(block, slot).is_some()
}
