// The choice of the root.
ghost use Rattle.std.specs.Prelude.{◌≡◌, ◌<◌, ◌≤◌, ◌∷◌, [], ◌↔◌, IfOk, IfSome, IsErrOf, IsTrue};
ghost use Rattle.zc_num.specs.Limits.{AreLimits};
ghost use Rattle.zc_tape.specs.Cause.{HasCause, Rose};
ghost use Rattle.zc_tape.specs.Crash.{reads};
ghost use Rattle.zc_tape.specs.Tape.{Image};
ghost use Rattle.zc_root.specs.Body.{IsBody};
ghost use Rattle.zc_root.specs.Root.{body_place, IsOpenGate, IsOpenRoot, IsRoot, AreGates, HasWholeRoots};
ghost use Rattle.zc_root.specs.Slot.{IsBodyFor, IsSlot, higher};
ghost use Rattle.zc_root.specs.declared.body.Body.{Body as BodyOf};

use crate::Body;
use crate::gate::{closed_gate, is_opened};
use crate::reading::read_body;
use zc_num::Limits;
use zc_tape::{DiskSet, Failed};

/// Why no root was found.
#[derive(Clone, Copy, Debug, PartialEq, Eq)]
pub enum RootFault {
    /// The disk set holds no pool.
    NoPool,
    /// A read failed.
    Failed,
}

// What was read of a slot.
#[derive(Clone, Copy)]
struct Slot {
    gate_open: bool,
    // The body behind its gate, where that is open.
    root: Option<Body>,
}

/// The root of the pool that a disk set holds, and which slots' gates are open.
///
/// It reads both gates, and the bodies behind open gates; of a disk set whose size no pool has it reads nothing.
///
/// # Errors
/// `NoPool` exactly where no pool has the size of the disk set or neither slot has an open root, `Failed` where a read failed.
pub fn read_slots<D: DiskSet>(disks: &mut D) -> Result<(Body, [bool; 2]), RootFault>
    ensures limits { IfOk result (λ found. AreLimits (D.shape disks.old).devices (D.shape disks.old).places) }
    ensures body { IfOk result (λ found. IsBody found.0) }
    ensures found { IfOk result (λ found. IsTrue (D.tape disks.old).told → HasWholeRoots (D.tape disks.old)
        → IsRoot (reads (D.tape disks.old)) found.0 × AreGates (reads (D.tape disks.old)) found.1) }
    ensures none { IsErrOf result RootFault.NoPool → IsTrue (D.tape disks.old).told → HasWholeRoots (D.tape disks.old)
        → AreLimits (D.shape disks.old).devices (D.shape disks.old).places
        → (body : BodyOf) → IsOpenRoot (reads (D.tape disks.old)) body → ⊥ }
    ensures tape { D.tape disks.new ≡ D.tape disks.old }
    ensures shape { D.shape disks.new ≡ D.shape disks.old }
    ensures spare { D.spare disks.new ≡ D.spare disks.old }
    ensures later { D.faults disks.old ≤ D.faults disks.new }
    ensures cause { IsErrOf result RootFault.Failed → Rose (D.faults disks.old) (D.faults disks.new) }
{
    if Limits::of(disks.devices(), disks.places()).is_none() {
        return Err(RootFault::NoPool);
    }
    match read_slot(disks, 0) {
        Ok(first) => match read_slot(disks, 1) {
            Ok(second) => choose(first, second),
            Err(Failed) => Err(RootFault::Failed),
        },
        Err(Failed) => Err(RootFault::Failed),
    }
}

/// Which slots' gates are open, of a disk set whose size a pool has.
///
/// # Errors
/// A read failed.
#[tactic(auto, using(crate::proofs::SlotLaws::gates_of_both, crate::proofs::SlotLaws::gate_of_same_tape))]
pub fn read_gates<D: DiskSet>(disks: &mut D) -> Result<[bool; 2], Failed>
    requires limits { AreLimits (D.shape disks.old).devices (D.shape disks.old).places }
    ensures gates { IfOk result (λ flags. IsTrue (D.tape disks.old).told → HasWholeRoots (D.tape disks.old)
        → AreGates (reads (D.tape disks.old)) flags) }
    ensures tape { D.tape disks.new ≡ D.tape disks.old }
    ensures shape { D.shape disks.new ≡ D.shape disks.old }
    ensures spare { D.spare disks.new ≡ D.spare disks.old }
    ensures cause { HasCause (D.faults disks.old) (D.faults disks.new) result }
{
    match read_gate(disks, 0) {
        Ok(first) => match read_gate(disks, 1) {
            Ok(second) => Ok([first, second]),
            Err(Failed) => Err(Failed),
        },
        Err(Failed) => Err(Failed),
    }
}

// Reads a slot: its gate, and its body where the gate is open.
fn read_slot<D: DiskSet>(disks: &mut D, slot: u32) -> Result<Slot, Failed>
    requires slot { slot < 2 }
    requires limits { AreLimits (D.shape disks.old).devices (D.shape disks.old).places }
    ensures slot { IfOk result (λ read. IsTrue (D.tape disks.old).told → HasWholeRoots (D.tape disks.old)
        → IsSlot (reads (D.tape disks.old)) slot read.gate_open read.root) }
    ensures fits { IfOk result (λ read. IfSome read.root (λ body. IsBody body)) }
    ensures tape { D.tape disks.new ≡ D.tape disks.old }
    ensures shape { D.shape disks.new ≡ D.shape disks.old }
    ensures spare { D.spare disks.new ≡ D.spare disks.old }
    ensures cause { HasCause (D.faults disks.old) (D.faults disks.new) result }
{
    match read_gate(disks, slot) {
        Ok(true) => match read_root(disks, slot) {
            Ok(root) => Ok(Slot {
                gate_open: true,
                root,
            }),
            Err(Failed) => Err(Failed),
        },
        Ok(false) => Ok(Slot {
            gate_open: false,
            root: None,
        }),
        Err(Failed) => Err(Failed),
    }
}

// Whether the gate of a slot is open.
fn read_gate<D: DiskSet>(disks: &mut D, slot: u32) -> Result<bool, Failed>
    requires slot { slot < 2 }
    requires limits { AreLimits (D.shape disks.old).devices (D.shape disks.old).places }
    ensures gate { IfOk result (λ gate_open. IsTrue (D.tape disks.old).told → HasWholeRoots (D.tape disks.old)
        → IsTrue gate_open ↔ IsOpenGate (reads (D.tape disks.old)) slot) }
    ensures tape { D.tape disks.new ≡ D.tape disks.old }
    ensures shape { D.shape disks.new ≡ D.shape disks.old }
    ensures spare { D.spare disks.new ≡ D.spare disks.old }
    ensures cause { HasCause (D.faults disks.old) (D.faults disks.new) result }
{
    let mut block = closed_gate();
    disks.read(0, 2 * slot + 1, &mut block)?;
    Ok(is_opened(&block))
}

// The body in a slot, where its group has that slot.
fn read_root<D: DiskSet>(disks: &mut D, slot: u32) -> Result<Option<Body>, Failed>
    requires slot { slot < 2 }
    requires limits { AreLimits (D.shape disks.old).devices (D.shape disks.old).places }
    ensures body { IfOk result (λ root. IsTrue (D.tape disks.old).told → HasWholeRoots (D.tape disks.old)
        → IsBodyFor slot (reads (D.tape disks.old) 0 (body_place slot)) root) }
    ensures fits { IfOk result (λ root. IfSome root (λ body. IsBody body)) }
    ensures tape { D.tape disks.new ≡ D.tape disks.old }
    ensures shape { D.shape disks.new ≡ D.shape disks.old }
    ensures spare { D.spare disks.new ≡ D.spare disks.old }
    ensures cause { HasCause (D.faults disks.old) (D.faults disks.new) result }
{
    let mut block = closed_gate();
    disks.read(0, 2 * slot, &mut block)?;
    Ok(body_for(&block, slot))
}

// The body that a slot's bytes spell, as what stands in the slot.
fn body_for(block: &[u8; 4096], slot: u32) -> Option<Body>
    ensures slot { IsBodyFor slot block.now result }
    ensures fits { IfSome result (λ body. IsBody body) }
{
    read_body(block, slot)
}

// The body of the higher group.
fn higher(first: Option<Body>, second: Option<Body>) -> Option<Body>
    requires first_fits { IfSome first (λ body. IsBody body) }
    requires second_fits { IfSome second (λ body. IsBody body) }
    ensures higher { result ≡ higher first second }
    ensures fits { IfSome result (λ body. IsBody body) }
{
    match (first, second) {
        (None, second) => second,
        (first, None) => first,
        (Some(first), Some(second)) => {
            if second.group <= first.group {
                Some(first)
            } else {
                Some(second)
            }
        }
    }
}

// The root that two slots have.
fn choose(first: Slot, second: Slot) -> Result<(Body, [bool; 2]), RootFault>
    requires first_fits { IfSome first.root (λ body. IsBody body) }
    requires second_fits { IfSome second.root (λ body. IsBody body) }
    ensures body { IfOk result (λ found. IsBody found.0) }
    ensures found { IfOk result (λ found. (image : Image) → IsSlot image 0 first.gate_open first.root → IsSlot image 1 second.gate_open second.root
        → IsRoot image found.0 × AreGates image found.1) }
    ensures none { IsErrOf result RootFault.NoPool → (image : Image) → IsSlot image 0 first.gate_open first.root → IsSlot image 1 second.gate_open second.root
        → (body : BodyOf) → IsOpenRoot image body → ⊥ }
    ensures failed { IsErrOf result RootFault.Failed → ⊥ }
{
    match higher(first.root, second.root) {
        Some(body) => Ok((body, [first.gate_open, second.gate_open])),
        None => Err(RootFault::NoPool),
    }
}
