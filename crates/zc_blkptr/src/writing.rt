// The bytes of a slot.
ghost use Rattle.std.specs.Prelude.{◌≡◌, ◌+◌, ◌≤◌, ◌++◌, length, take};
ghost use Rattle.zc_blkptr.specs.Ptr.{ptr_bytes, hole_bytes, slot_bytes};

use crate::{Ptr, Slot};
use zc_wire::{bytes_of_u32, bytes_of_u64};

/// Writes the 40 bytes of a slot.
pub fn encode(slot: &Slot, out: &mut [u8; 40])
    ensures { out.new ≡ slot_bytes slot.now }
{
    match slot {
        Slot::Hole => *out = hole(),
        Slot::At(ptr) => encode_ptr(ptr, out),
    }
}

/// The bytes of a hole.
#[tactic(auto, unfolding(crate::specs::Ptr::hole_bytes))]
pub(crate) fn hole() -> [u8; 40]
    ensures { result ≡ hole_bytes }
{
    [0u8; 40]
}

// Writes the bytes of a pointer.
fn encode_ptr(ptr: &Ptr, out: &mut [u8; 40])
    ensures { out.new ≡ ptr_bytes ptr.now }
{
    put(out, 0, &bytes_of_u32(ptr.device));
    put(out, 4, &bytes_of_u32(ptr.place));
    put(out, 8, &bytes_of_u64(ptr.logical));
    put(out, 16, &bytes_of_u64(ptr.physical));
    put_digest(out, &ptr.digest);
}

// Writes bytes after the first `from` of `out`. What stands after them is not said.
fn put(out: &mut [u8; 40], from: usize, bytes: &[u8])
    requires { from + length bytes.now ≤ 40 }
    ensures { take (from + length bytes.now) out.new ≡ take from out.old ++ bytes.now }
{
    out[from..from + bytes.len()].copy_from_slice(bytes);
}

// Writes a digest after the first 24 bytes.
fn put_digest(out: &mut [u8; 40], digest: &[u8; 16])
    ensures { out.new ≡ take 24 out.old ++ digest.now }
{
    out[24..].copy_from_slice(digest);
}
