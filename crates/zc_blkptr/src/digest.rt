// Digests of blocks.
ghost use Rattle.std.specs.Prelude.{◌≡◌, ◌↔◌, IsTrue, take};
ghost use Rattle.zc_blkptr.specs.Digest.{digest_bytes};

use crate::Ptr;
use sha2::{Digest, Sha256};

/// The first 16 bytes of the SHA-256 of these bytes.
pub fn digest_of(bytes: &[u8]) -> [u8; 16]
    ensures { result ≡ digest_bytes bytes.now }
{
    front_of(&Sha256::digest(bytes))
}

/// Whether the block has the digest that the pointer carries.
pub fn matches(ptr: &Ptr, block: &[u8; 4096]) -> bool
    ensures { IsTrue result ↔ (ptr.now.digest ≡ digest_bytes block.now) }
{
    is_same(&ptr.digest, &digest_of(block))
}

// The first 16 bytes of a hash.
fn front_of(hash: &[u8; 32]) -> [u8; 16]
    ensures { result ≡ take 16 hash.now }
{
    let mut front = [0u8; 16];
    front.copy_from_slice(&hash[..16]);
    front
}

// Whether two digests have the same bytes.
fn is_same(left: &[u8; 16], right: &[u8; 16]) -> bool
    ensures { IsTrue result ↔ (left.now ≡ right.now) }
{
    left == right
}
