// Bytes and numbers after those of a vector.
ghost use Rattle.std.specs.Prelude.{◌≡◌, ◌++◌, OnOk, OnErr};
ghost use Rattle.zc_wire.specs.Numbers.{u32_bytes, u64_bytes};

use byteorder::{BigEndian, ByteOrder};
use zc_num::NoMemory;

/// The four bytes of a number.
#[tactic(auto, unfolding(crate::specs::Numbers::u32_bytes))]
pub fn bytes_of_u32(value: u32) -> [u8; 4]
    ensures { result ≡ u32_bytes value }
{
    let mut bytes = [0u8; 4];
    BigEndian::write_u32(&mut bytes, value);
    bytes
}

/// The eight bytes of a number.
#[tactic(auto, unfolding(crate::specs::Numbers::u64_bytes))]
pub fn bytes_of_u64(value: u64) -> [u8; 8]
    ensures { result ≡ u64_bytes value }
{
    let mut bytes = [0u8; 8];
    BigEndian::write_u64(&mut bytes, value);
    bytes
}

/// Puts bytes after those of `out`.
pub fn put_bytes(out: &mut Vec<u8>, bytes: &[u8]) -> Result<(), NoMemory>
    ensures put { OnOk result (out.new.items ≡ out.old.items ++ bytes.now) }
    ensures unchanged { OnErr result (out.new.items ≡ out.old.items) }
{
    out.extend_from_slice(bytes)
}

/// Puts the four bytes of a number after those of `out`.
pub fn put_u32(out: &mut Vec<u8>, value: u32) -> Result<(), NoMemory>
    ensures put { OnOk result (out.new.items ≡ out.old.items ++ u32_bytes value) }
    ensures unchanged { OnErr result (out.new.items ≡ out.old.items) }
{
    put_bytes(out, &bytes_of_u32(value))
}

/// Puts the eight bytes of a number after those of `out`.
pub fn put_u64(out: &mut Vec<u8>, value: u64) -> Result<(), NoMemory>
    ensures put { OnOk result (out.new.items ≡ out.old.items ++ u64_bytes value) }
    ensures unchanged { OnErr result (out.new.items ≡ out.old.items) }
{
    put_bytes(out, &bytes_of_u64(value))
}
