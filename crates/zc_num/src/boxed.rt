ghost use Rattle.std.specs.Prelude.{◌≡◌, length, IfOk};
ghost use Rattle.std.specs.Borrow.{sem};

use crate::{BLOCK, NoMemory};
use std::alloc::Global;
use std::marker::Model;

/// One value on the heap, which contracts see as that value.
#[derive(Debug, Drop)]
pub struct Boxed<T> {
    held: Box<T>,
}

impl<T> Model for Boxed<T> {
    ghost use Rattle.std.specs.Prelude.{◌≡◌};

    ghost Value = { T };

    ghost view = { λ boxed. boxed.held.value };
}

impl<T: Drop> Boxed<T> {
    /// Puts `value` on the heap. Where memory is wanting, it is dropped.
    pub fn new(alloc: Global, value: T) -> Result<Self, NoMemory>
        ensures { IfOk result (λ boxed. boxed ≡ value) }
    {
        let held = Box::new(alloc, value)?;
        Ok(Boxed { held })
    }
}

impl<T> Boxed<T> {
    ghost use Rattle.zc_num.specs.Lending.{LendsValue};

    /// The value.
    pub fn get(&self) -> &T
        ensures { result.now ≡ self.now }
    {
        &self.held
    }

    /// The value, to be changed in place.
    pub fn get_mut(&mut self) -> &mut T
        ensures* writes_back { sem 𝓛 (LendsValue T.row self.entry result) }
        ensures value { result.now ≡ self.old }
    {
        &mut self.held
    }

    /// The value, off the heap.
    pub fn into_inner(self) -> T
        ensures { result ≡ self }
    {
        Box::into_inner(self.held)
    }
}

impl Boxed<[u8; BLOCK]> {
    /// The bytes of a block, which are as many as a block has.
    pub fn block(&self) -> &[u8; BLOCK]
        ensures bytes { result.now ≡ self.now }
        ensures whole { length self.now ≡ 4096 }
    {
        whole(self.get())
    }
}

// The length of an array is known of a parameter, and of nothing after a field.
fn whole(block: &[u8; BLOCK]) -> &[u8; BLOCK]
    ensures bytes { result.now ≡ block.now }
    ensures whole { length block.now ≡ 4096 }
{
    block
}

impl<T: Clone> Clone for Boxed<T> {
    ghost is_clone = { T.is_clone };

    fn clone(&self) -> Result<Self, NoMemory> {
        let value = self.held.clone()?;
        Ok(Boxed { held: value })
    }
}

impl<T: PartialEq> PartialEq for Boxed<T> {
    ghost eq = { T.eq };

    ghost laws = { T.laws };

    fn eq(&self, other: &Self) -> bool {
        *self.get() == *other.get()
    }
}

impl<T: Eq> Eq for Boxed<T> {
    ghost laws = { T.Eq.laws };
}
