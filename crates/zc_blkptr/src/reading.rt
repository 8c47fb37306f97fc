// The slot that bytes spell.
ghost use Rattle.std.specs.Prelude.{◌≡◌, ◌↔◌, length, IfOk, IsOk, IsErr, IsTrue};
ghost use Rattle.zc_blkptr.specs.declared.ptr.Slot.{Slot};
ghost use Rattle.zc_wire.specs.Fields.{FieldGives};
ghost use Rattle.zc_blkptr.specs.Ptr.{ptr_bytes, hole_bytes, slot_bytes, HasWidths, IsPtr, IsSlot};
ghost use Rattle.zc_blkptr.specs.PtrField.{ptr_in, is_ptr, ptr_field};

use crate::writing::hole;
use crate::{Ptr, Slot};
use zc_num::Limits;
use zc_wire::{Cursor, FieldFault, WireFault, bytes_field, rule};

/// The bytes are in no spelling of a slot.
#[derive(Clone, Copy, Debug, PartialEq, Eq)]
pub struct BadPtr;

/// The slot that the bytes spell; `BadPtr` exactly where they spell none that a pool of this size may have.
pub fn decode(bytes: &[u8; 40], limits: &Limits) -> Result<Slot, BadPtr>
    ensures found { IfOk result (λ slot. IsSlot limits.now.devices limits.now.places slot × (bytes.now ≡ slot_bytes slot)) }
    ensures only { IsErr result → (slot : Slot) → IsSlot limits.now.devices limits.now.places slot → bytes.now ≡ slot_bytes slot → ⊥ }
{
    if is_hole(bytes) {
        return Ok(Slot::Hole);
    }
    let Ok(ptr) = ptr_in(bytes) else {
        return Err(BadPtr);
    };
    if is_ptr(&ptr, limits) {
        Ok(Slot::At(ptr))
    } else {
        Err(BadPtr)
    }
}

/// A pointer that a pool of this size may have, which is no hole, and the bytes after it. All its bytes are one field.
#[tactic(auto, unfolding(crate::specs::PtrField::ptr_field))]
pub fn ptr_field<'a>(bytes: &'a [u8], limits: &Limits) -> Result<(Ptr, &'a [u8]), FieldFault>
    ensures { FieldGives (λ x. (x.0, x.1.now)) result (ptr_field limits.now.devices limits.now.places bytes.now) }
{
    let (whole, rest) = bytes_field(bytes, 40)?;
    let ptr = raw_ptr(whole);
    rule(is_ptr(&ptr, limits), bytes)?;
    Ok((ptr, rest))
}

// The pointer whose fields stand in these bytes, which may be one that no pool has.
fn raw_ptr(bytes: &[u8]) -> Ptr
    requires { length bytes.now ≡ 40 }
    ensures fields { result ≡ ptr_in bytes.now }
    ensures widths { HasWidths result }
{
    let mut array = [0u8; 40];
    array.copy_from_slice(bytes);
    match ptr_in(&array) {
        Ok(ptr) => ptr,
        Err(_) => unreachable!(),
    }
}

// Whether the bytes are those of a hole.
fn is_hole(bytes: &[u8; 40]) -> bool
    ensures { IsTrue result ↔ (bytes.now ≡ hole_bytes) }
{
    is_same(bytes, &hole())
}

// Whether two spellings have the same bytes.
fn is_same(left: &[u8; 40], right: &[u8; 40]) -> bool
    ensures { IsTrue result ↔ (left.now ≡ right.now) }
{
    left == right
}

// The pointer of these bytes, which may be one that no pool has. Never fails.
fn ptr_in(bytes: &[u8; 40]) -> Result<Ptr, WireFault>
    ensures found { IfOk result (λ ptr. HasWidths ptr × (bytes.now ≡ ptr_bytes ptr)) }
    ensures always { IsOk result }
{
    let mut cursor = Cursor::new(bytes);
    let device = cursor.u32()?;
    let place = cursor.u32()?;
    let logical = cursor.u64()?;
    let physical = cursor.u64()?;
    let digest = digest_in(cursor.take(16)?);
    Ok(Ptr {
        device,
        place,
        logical,
        physical,
        digest,
    })
}

// The sixteen bytes of a digest.
fn digest_in(bytes: &[u8]) -> [u8; 16]
    requires { length bytes.now ≡ 16 }
    ensures { result ≡ bytes.now }
{
    let mut digest = [0u8; 16];
    digest.copy_from_slice(bytes);
    digest
}

// Whether a pool of this size may have the pointer.
fn is_ptr(ptr: &Ptr, limits: &Limits) -> bool
    requires { HasWidths ptr.now }
    ensures pool { IsTrue result ↔ IsPtr limits.now.devices limits.now.places ptr.now }
    ensures test { result ≡ is_ptr limits.now.devices limits.now.places ptr.now }
{
    ptr.device < limits.devices()
        && ptr.place < limits.places()
        && !limits.is_fixed(ptr.device, ptr.place)
        && 1 <= ptr.physical
        && ptr.physical <= ptr.logical
}
