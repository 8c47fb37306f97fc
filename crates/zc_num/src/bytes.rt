ghost use Rattle.std.specs.Prelude.{◌≡◌, length, IfOk, ◌↔◌, [], IsTrue};
ghost use Rattle.std.specs.Str.{bytes_eq};
ghost use Rattle.std.specs.Cmp.{partial_equiv_from_equiv};
ghost use Rattle.std.specs.Cmp.Lexicographic.{nat_list_eq_equiv};

use crate::NoMemory;
use std::alloc::Global;
use std::marker::Model;

/// Bytes of one's own, as those that a command writes or a reply gives back.
#[derive(Debug, Drop)]
pub struct Bytes {
    vec: Vec<u8>,
}

impl Model for Bytes {
    ghost use Rattle.std.specs.Prelude.{List, ℕ};

    ghost Value = { List ℕ };

    ghost view = { λ owned. owned.vec.items };
}

impl Bytes {
    /// A copy of these bytes.
    pub fn of(alloc: Global, bytes: &[u8]) -> Result<Self, NoMemory>
        ensures { IfOk result (λ owned. owned ≡ bytes.now) }
    {
        let vec = Vec::from_slice(alloc, bytes)?;
        Ok(Bytes { vec })
    }

    /// The bytes of `vec`. Takes no memory.
    pub fn from_vec(vec: Vec<u8>) -> Self
        ensures { result ≡ vec.items }
    {
        Bytes { vec }
    }

    /// The bytes as a vector. Takes no memory.
    pub fn into_vec(self) -> Vec<u8>
        ensures { result.items ≡ self }
    {
        self.vec
    }

    /// The bytes as a slice.
    pub fn bytes(&self) -> &[u8]
        ensures { result.now ≡ self.now }
    {
        self.vec.as_slice()
    }

    /// The number of bytes.
    pub fn len(&self) -> usize
        ensures { result ≡ length self.now }
    {
        self.vec.len()
    }

    /// Whether there is no byte.
    pub fn is_empty(&self) -> bool
        ensures { IsTrue result ↔ (self.now ≡ []) }
    {
        self.vec.is_empty()
    }
}

impl Clone for Bytes {
    ghost is_clone = { λ bytes clone. clone ≡ bytes };

    fn clone(&self) -> Result<Self, NoMemory>
        ensures { IfOk result (λ clone. clone ≡ self.now) }
    {
        let vec = Vec::from_slice(*self.vec.allocator(), self.vec.as_slice())?;
        Ok(Bytes { vec })
    }
}

impl PartialEq for Bytes {
    ghost eq = { bytes_eq };

    ghost laws = { partial_equiv_from_equiv nat_list_eq_equiv };

    fn eq(&self, other: &Self) -> bool {
        self.bytes() == other.bytes()
    }
}

impl Eq for Bytes {
    ghost laws = { nat_list_eq_equiv };
}
