ghost use Rattle.std.specs.Prelude.{◌≡◌, ◌-◌, ◌<◌, ◌↔◌, [], ◌∷◌, ◌++◌, length, take, slice_get, slice_set, IsTrue, OnOk, OnErr};
ghost use Rattle.std.specs.Borrow.{sem};
ghost use Rattle.std.specs.Option.{option_copied};
ghost use Rattle.std.specs.List.{AllZip, remove};
ghost use Rattle.std.specs.Cmp.Lexicographic.{pointwise, lists_per, lists_equiv};

use crate::NoMemory;
use std::alloc::Global;
use std::marker::Model;

/// Items in a row, which contracts see as the list of them.
#[derive(Debug, Drop)]
pub struct Listed<T> {
    vec: Vec<T>,
}

impl<T> Model for Listed<T> {
    ghost use Rattle.std.specs.Prelude.{List};

    ghost Value = { List T };

    ghost view = { λ listed. listed.vec.items };
}

impl<T> Listed<T> {
    ghost use Rattle.zc_num.specs.Lending.{LendsItem};

    /// No item. Takes no memory.
    pub fn new(alloc: Global) -> Self
        ensures { result ≡ [] }
    {
        Listed {
            vec: Vec::new(alloc),
        }
    }

    /// The items of `vec`. Takes no memory.
    pub fn from_vec(vec: Vec<T>) -> Self
        ensures { result ≡ vec.items }
    {
        Listed { vec }
    }

    /// The items as a vector. Takes no memory.
    pub fn into_vec(self) -> Vec<T>
        ensures { result.items ≡ self }
    {
        self.vec
    }

    /// The items as a slice.
    pub fn as_slice(&self) -> &[T]
        ensures { result.now ≡ self.now }
    {
        self.vec.as_slice()
    }

    /// The number of items.
    pub fn len(&self) -> usize
        ensures { result ≡ length self.now }
    {
        self.vec.len()
    }

    /// Whether there is no item.
    pub fn is_empty(&self) -> bool
        ensures { IsTrue result ↔ (self.now ≡ []) }
    {
        self.vec.is_empty()
    }

    /// The item at `index`, if there is one.
    pub fn get(&self, index: usize) -> Option<&T>
        ensures { option_copied result ≡ slice_get self.now index }
    {
        self.vec.as_slice().get(index)
    }

    /// The item at `index`, which is there.
    pub fn at(&self, index: usize) -> &T
        requires { index < length self.now }
        ensures { slice_get self.now index ≡ Some result.now }
    {
        &self.vec[index]
    }

    /// The item at `index`, which is there, to be changed in place.
    pub fn at_mut(&mut self, index: usize) -> &mut T
        requires { index < length self.old }
        ensures* writes_back { sem 𝓛 (LendsItem T.row self.entry index result) }
        ensures item { slice_get self.old index ≡ Some result.now }
    {
        &mut self.vec[index]
    }
}

impl<T: Drop> Listed<T> {
    /// Adds `item` after the last. Where memory is wanting, it is dropped.
    pub fn push(&mut self, item: T) -> Result<(), NoMemory>
        ensures ok { OnOk result (self.new ≡ self.old ++ item ∷ []) }
        ensures err { OnErr result (self.new ≡ self.old) }
    {
        self.vec.push(item)?;
        Ok(())
    }

    /// Puts `item` in the place of the one at `index`, which is dropped.
    pub fn set(&mut self, index: usize, item: T)
        requires { index < length self.old }
        ensures { self.new ≡ slice_set self.old index item }
    {
        self.vec[index] = item;
    }

    /// Drops all items.
    pub fn clear(&mut self)
        ensures { self.new ≡ [] }
    {
        self.vec.clear();
    }

    /// Drops all items but the first `length`.
    pub fn truncate(&mut self, length: usize)
        ensures { self.new ≡ take length self.old }
    {
        self.vec.truncate(length);
    }
}

impl<T> Listed<T> {
    /// Takes the last item off, if there is one.
    pub fn pop(&mut self) -> Option<T>
        ensures last { result ≡ slice_get self.old (length self.old - 1) }
        ensures rest { self.new ≡ take (length self.old - 1) self.old }
    {
        self.vec.pop()
    }

    /// Takes the item at `index` out. Moves all after it, so its time grows with their number.
    pub fn remove(&mut self, index: usize) -> T
        requires { index < length self.old }
        ensures item { slice_get self.old index ≡ Some result }
        ensures rest { self.new ≡ remove self.old index }
    {
        self.vec.remove(index)
    }
}

impl<T: Clone> Clone for Listed<T> {
    ghost is_clone = { AllZip T.is_clone };

    fn clone(&self) -> Result<Self, NoMemory> {
        let vec = self.vec.clone()?;
        Ok(Listed { vec })
    }
}

impl<T: PartialEq> PartialEq for Listed<T> {
    ghost eq = { pointwise T.eq };

    ghost laws = { lists_per T.laws };

    fn eq(&self, other: &Self) -> bool {
        self.vec == other.vec
    }
}

impl<T: Eq> Eq for Listed<T> {
    ghost laws = { lists_equiv T.Eq.laws };
}
