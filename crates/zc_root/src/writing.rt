// The bytes of a body.
ghost use Rattle.std.specs.Prelude.{◌≡◌, ◌+◌, ◌≤◌, ◌++◌, length, take};
ghost use Rattle.sha2.specs.Sha256.{sha256};
ghost use Rattle.zc_wire.specs.Numbers.{u32_bytes, u64_bytes};
ghost use Rattle.zc_root.specs.Body.{title, head_bytes, padding, body_bytes};

use crate::Body;
use sha2::{Digest, Sha256};
use zc_wire::{bytes_of_u32, bytes_of_u64};

// The name of the format, and its version.
const TITLE: [u8; 12] = *b"ZCROOT01\0\0\0\x01";

/// Writes the 4,096 bytes of a body.
#[tactic(auto, unfolding(crate::specs::Body::body_bytes))]
pub fn body_bytes(body: &Body, out: &mut [u8; 4096])
    ensures { out.new ≡ body_bytes body.now }
{
    let front = front_of(&head_of(body));
    join(out, &front, &Sha256::digest(&front));
}

// The fields of a body after the title.
fn head_of(body: &Body) -> [u8; 96]
    ensures { result ≡ head_bytes body.now }
{
    let mut head = [0u8; 96];
    put(&mut head, 0, &title());
    put_u64(&mut head, 12, body.pool);
    put_u64(&mut head, 20, body.group);
    put_u32(&mut head, 28, body.devices);
    put_u32(&mut head, 32, body.places);
    put_u64(&mut head, 36, body.next_dataset);
    put_u32(&mut head, 44, body.first_device);
    put_u32(&mut head, 48, body.first_place);
    put_u32(&mut head, 52, body.chain);
    put_u64(&mut head, 56, body.length);
    put_digest(&mut head, &body.digest);
    head
}

// The bytes that the title of a body has.
#[tactic(auto, unfolding(crate::specs::Body::title, zc_wire::specs::Numbers::u32_bytes))]
fn title() -> [u8; 12]
    ensures { result ≡ title }
{
    TITLE
}

// Writes bytes after the first `from` of `out`. What stands after them is not said.
fn put(out: &mut [u8; 96], from: usize, bytes: &[u8])
    requires { from + length bytes.now ≤ 96 }
    ensures { take (from + length bytes.now) out.new ≡ take from out.old ++ bytes.now }
{
    out[from..from + bytes.len()].copy_from_slice(bytes);
}

// The same with the four bytes of a number.
fn put_u32(out: &mut [u8; 96], from: usize, value: u32)
    requires { from + 4 ≤ 96 }
    ensures { take (from + 4) out.new ≡ take from out.old ++ u32_bytes value }
{
    put(out, from, &bytes_of_u32(value));
}

// The same with the eight bytes of a number.
fn put_u64(out: &mut [u8; 96], from: usize, value: u64)
    requires { from + 8 ≤ 96 }
    ensures { take (from + 8) out.new ≡ take from out.old ++ u64_bytes value }
{
    put(out, from, &bytes_of_u64(value));
}

// Writes a digest after the first 64 bytes.
fn put_digest(out: &mut [u8; 96], digest: &[u8; 32])
    ensures { out.new ≡ take 64 out.old ++ digest.now }
{
    out[64..].copy_from_slice(digest);
}

// The bytes with zeros up to the last before a body's digest.
#[tactic(auto, unfolding(crate::specs::Body::padding))]
fn front_of(head: &[u8; 96]) -> [u8; 4064]
    ensures { result ≡ head.now ++ padding }
{
    let mut front = [0u8; 4064];
    front[..96].copy_from_slice(head);
    front
}

// Writes two texts, the one after the other.
fn join(out: &mut [u8; 4096], front: &[u8; 4064], back: &[u8; 32])
    ensures { out.new ≡ front.now ++ back.now }
{
    out[..4064].copy_from_slice(front);
    out[4064..].copy_from_slice(back);
}
