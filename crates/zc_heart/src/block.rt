ghost use Rattle.std.specs.Prelude.{◌≡◌, length, IfOk};
ghost use Rattle.std.specs.Arc.{arc_value};

use std::alloc::Global;
use std::marker::Model;
use std::sync::Arc;
use zc_num::{BLOCK, NoMemory};

/// 4,096 bytes that stand in memory once, however many hold them. Contracts see them as the list of the bytes.
#[derive(Drop)]
pub struct Block {
    shared: Arc<[u8; BLOCK], Global>,
}

impl Model for Block {
    ghost use Rattle.std.specs.Prelude.{List, ℕ};
    ghost use Rattle.std.specs.Arc.{arc_value};

    ghost Value = { List ℕ };

    ghost view = { λ block. arc_value block.shared };
}

impl Block {
    /// A block with these bytes.
    ///
    /// # Errors
    /// Want of memory.
    pub fn new(alloc: Global, bytes: [u8; BLOCK]) -> Result<Self, NoMemory>
        ensures { IfOk result (λ block. block ≡ bytes) }
    {
        match Arc::new(alloc, bytes) {
            Ok(shared) => Ok(Block { shared }),
            Err(_) => Err(NoMemory),
        }
    }

    /// The same block once more. Copies no byte.
    ///
    /// # Errors
    /// Want of memory, where 2^63 hold it.
    pub fn share(&self) -> Result<Self, NoMemory>
        ensures { IfOk result (λ block. block ≡ self.now) }
    {
        let shared = Arc::try_clone(&self.shared)?;
        Ok(Block { shared })
    }

    /// The bytes.
    pub fn bytes(&self) -> &[u8; BLOCK]
        ensures bytes { result.now ≡ self.now }
        ensures whole { length self.now ≡ 4096 }
    {
        whole(&self.shared)
    }
}

// The length of an array is known of a parameter, and of nothing after a field.
fn whole(block: &[u8; BLOCK]) -> &[u8; BLOCK]
    ensures bytes { result.now ≡ block.now }
    ensures whole { length block.now ≡ 4096 }
{
    block
}
