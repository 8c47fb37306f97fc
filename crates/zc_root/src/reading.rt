// The body that bytes spell.
ghost use Rattle.std.specs.Prelude.{◌≡◌, ◌≤◌, ◌↔◌, take, drop, IfSome, IfNone, IsTrue};
ghost use Rattle.zc_wire.specs.Numbers.{u32_of, u64_of, IsBytes};
ghost use Rattle.zc_root.specs.Body.{body_bytes, HasWidths, IsBody};
ghost use Rattle.zc_root.specs.Reading.{fields_in};
ghost use Rattle.zc_root.specs.Root.{slot_of};
ghost use Rattle.zc_root.specs.Slot.{IsBodyIn};
ghost use Rattle.zc_root.specs.declared.body.Body.{Body as BodyOf};

use crate::Body;
use crate::body::slot_of;
use crate::gate::{closed_gate, is_same};
use crate::writing::body_bytes;
use byteorder::{BigEndian, ByteOrder};

/// The body that a slot's bytes spell; `None` exactly where they spell none whose group has that slot.
pub fn read_body(bytes: &[u8; 4096], slot: u32) -> Option<Body>
    ensures found { IfSome result (λ body. IsBody body × (slot_of body.group ≡ slot) × (bytes.now ≡ body_bytes body)) }
    ensures none { IfNone result ((body : BodyOf) → IsBody body → slot_of body.group ≡ slot → bytes.now ≡ body_bytes body → ⊥) }
{
    let body = fields_in(bytes);
    if is_body_in(&body, bytes, slot) {
        Some(body)
    } else {
        None
    }
}

// Whether the bytes are those of the body, and its group has the slot.
fn is_body_in(body: &Body, bytes: &[u8; 4096], slot: u32) -> bool
    requires { HasWidths body.now }
    ensures { IsTrue result ↔ IsBodyIn slot bytes.now body.now }
{
    is_body(body) && slot_of(body.group) == slot && is_spelled(body, bytes)
}

// The fields of the bytes, which may be those of no body.
#[tactic(auto, unfolding(crate::specs::Reading::fields_in))]
fn fields_in(bytes: &[u8; 4096]) -> Body
    ensures fields { result ≡ fields_in bytes.now }
    ensures widths { HasWidths result }
{
    Body {
        pool: u64_at(bytes, 12),
        group: u64_at(bytes, 20),
        devices: u32_at(bytes, 28),
        places: u32_at(bytes, 32),
        next_dataset: u64_at(bytes, 36),
        first_device: u32_at(bytes, 44),
        first_place: u32_at(bytes, 48),
        chain: u32_at(bytes, 52),
        length: u64_at(bytes, 56),
        digest: digest_at(bytes, 64),
    }
}

// The number in the four bytes from there on.
#[tactic(auto, unfolding(zc_wire::specs::Numbers::u32_of))]
fn u32_at(bytes: &[u8; 4096], from: usize) -> u32
    requires { from ≤ 4092 }
    ensures { result ≡ u32_of (drop from bytes.now) }
{
    BigEndian::read_u32(&bytes[from..])
}

// The number in the eight bytes from there on.
#[tactic(auto, unfolding(zc_wire::specs::Numbers::u64_of))]
fn u64_at(bytes: &[u8; 4096], from: usize) -> u64
    requires { from ≤ 4088 }
    ensures { result ≡ u64_of (drop from bytes.now) }
{
    BigEndian::read_u64(&bytes[from..])
}

// The 32 bytes of a digest from there on.
fn digest_at(bytes: &[u8; 4096], from: usize) -> [u8; 32]
    requires { from ≤ 4064 }
    ensures read { result ≡ take 32 (drop from bytes.now) }
    ensures fits { IsBytes result }
{
    let mut digest = [0u8; 32];
    digest.copy_from_slice(&bytes[from..from + 32]);
    digest
}

// Whether the numbers are those of a body.
fn is_body(body: &Body) -> bool
    requires { HasWidths body.now }
    ensures { IsTrue result ↔ IsBody body.now }
{
    1 <= body.group && 1 <= body.next_dataset && 1 <= body.chain && 1 <= body.length
}

// Whether the bytes are those of the body.
fn is_spelled(body: &Body, bytes: &[u8; 4096]) -> bool
    ensures { IsTrue result ↔ (bytes.now ≡ body_bytes body.now) }
{
    let mut spelled = closed_gate();
    body_bytes(body, &mut spelled);
    is_same(bytes, &spelled)
}
