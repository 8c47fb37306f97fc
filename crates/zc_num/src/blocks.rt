// Ranges of bytes, and the blocks that they touch.
ghost use Rattle.std.specs.Prelude.{◌≡◌, ◌+◌, ◌-◌, ◌/◌, ◌^◌, ◌<◌, ◌≤◌, ◌↔◌, IsTrue, length};
ghost use Rattle.zc_num.specs.Blocks.{ShareByte, log_blocks_of, edited};

/// The bytes of a block.
pub const BLOCK: usize = 4096;

/// The first block of 4,096 bytes that the range of `length` bytes from `offset` touches, and how many it touches.
pub fn blocks_of(offset: u64, length: u64) -> (u64, u64)
    requires some { 0 < length }
    requires fits { offset + length < 2 ^ 63 }

    ensures first { result.0 ≡ offset / 4096 }
    // The block after the last one is the one after that of the last byte.
    ensures last { result.0 + result.1 ≡ (offset + length - 1) / 4096 + 1 }
{
    let first = offset / 4096;
    let last = (offset + length - 1) / 4096;
    (first, last - first + 1)
}

/// Writes `bytes` over those of the block from the byte `from` on.
pub fn edit_block(block: &mut [u8; 4096], from: usize, bytes: &[u8])
    requires { from + length bytes.now ≤ 4096 }
    ensures { block.new ≡ edited block.old from bytes.now }
{
    block[from..from + bytes.len()].copy_from_slice(bytes);
}

/// Whether some byte is in both ranges of `length` bytes, the one from `a` and the other from `b`.
#[tactic(auto, using(crate::proofs::Ranges::shared_byte_test))]
pub fn overlaps(a: u64, b: u64, length: u64) -> bool
    requires a_fits { a + length < 2 ^ 63 }
    requires b_fits { b + length < 2 ^ 63 }
    ensures { IsTrue result ↔ ShareByte a b length }
{
    a < b + length && b < a + length
}

/// How many blocks of a log so many bytes take, at 4,024 bytes in each.
pub fn blocks_for(bytes: u64) -> u64
    ensures { result ≡ log_blocks_of bytes }
{
    bytes.div_ceil(4024)
}
