ghost use Rattle.std.specs.Prelude.{◌≡◌, ◌^◌, ◌<◌, ◌↔◌, [], length, IsTrue, OnOk, OnErr, IfOk, is_some, IsSome, ℕ, ◌==◌, ◌&&◌};
ghost use Rattle.std.specs.Option.{option_copied};
ghost use Rattle.std.specs.List.{All, AllZip};
ghost use Rattle.std.specs.Cmp.{and_equiv, and_per, nat_eq_equiv, on_equiv, on_per, partial_equiv_from_equiv};
ghost use Rattle.std.specs.Cmp.Lexicographic.{pointwise, lists_per, lists_equiv};
ghost use Rattle.std.specs.Map.Iter.{ShowsInOrder, ShowsValuesInOrder, deref_pair};
ghost use Rattle.zc_num.specs.Ordered.{Ascends, value_at, insert_entry, remove_entry};

use crate::NoMemory;
use std::alloc::Global;
use std::collections::BTreeMap;
use std::collections::btree_map::Iter;
use std::marker::Model;

/// A map from numbers, which contracts see as the list of its entries in ascending order of keys.
#[derive(Debug, Drop)]
pub struct Ordered<V> {
    map: BTreeMap<u32, V>,
}

impl<V> Model for Ordered<V> {
    ghost use Rattle.std.specs.Prelude.{List, ℕ};

    ghost Value = { List (ℕ × V) };

    ghost view = { λ ordered. ordered.map.entries };
}

impl<V> Ordered<V> {
    /// No entry. Takes no memory.
    pub fn new(alloc: Global) -> Self
        ensures { result ≡ [] }
    {
        Ordered {
            map: BTreeMap::new(alloc),
        }
    }

    /// The number of entries.
    pub fn len(&self) -> usize
        ensures len { result ≡ length self.now }
        ensures ascending { Ascends self.now }
    {
        self.map.len()
    }

    /// Whether there is no entry.
    pub fn is_empty(&self) -> bool
        ensures { IsTrue result ↔ (self.now ≡ []) }
    {
        self.map.is_empty()
    }

    /// The value at `key`, if there is one.
    pub fn get(&self, key: u32) -> Option<&V>
        ensures { option_copied result ≡ value_at key self.now }
    {
        self.map.get(&key)
    }

    /// Whether there is a value at `key`.
    pub fn contains(&self, key: u32) -> bool
        ensures { result ≡ is_some (value_at key self.now) }
    {
        self.map.contains_key(&key)
    }

    /// The entries in ascending order of keys.
    pub fn iter(&self) -> Iter<'_, u32, V>
        ensures rest { result ≡ self.now }
        ensures runs { ShowsInOrder (deref_pair {K = ℕ} {X = V}) }
        ensures values_run { ShowsValuesInOrder (deref_pair {K = ℕ} {X = V}) }
        ensures ascending { Ascends self.now }
        ensures fits { length self.now < 2 ^ 63 }
        ensures found { All (λ entry. value_at entry.0 self.now ≡ Some entry.1) self.now }
    {
        self.map.iter()
    }

    /// Takes the value at `key` out, if there is one.
    pub fn remove(&mut self, key: u32) -> Option<V>
        ensures value { result ≡ value_at key self.old }
        ensures entries { self.new ≡ remove_entry key self.old }
        ensures ascending { Ascends self.new }
    {
        self.map.remove(&key)
    }
}

impl<V: Drop> Ordered<V> {
    /// Puts `value` in the place of the one at `key`, which is there, and gives that back. Takes no memory.
    pub fn replace(&mut self, key: u32, value: V) -> V
        requires { IsSome (value_at key self.old) }
        ensures value { value_at key self.old ≡ Some result }
        ensures entries { self.new ≡ insert_entry key value self.old }
        ensures ascending { Ascends self.new }
    {
        match self.map.insert(key, value) {
            Ok(Some(before)) => before,
            _ => unreachable!(),
        }
    }

    /// Puts `value` at `key`, and gives back what was there. Where memory is wanting, `value` is dropped; at a key that has a
    /// value it never is.
    pub fn insert(&mut self, key: u32, value: V) -> Result<Option<V>, NoMemory>
        ensures value { IfOk result (λ before. before ≡ value_at key self.old) }
        ensures entries { OnOk result (self.new ≡ insert_entry key value self.old) }
        ensures absent { OnErr result (value_at key self.old ≡ None) }
        ensures err { OnErr result (self.new ≡ self.old) }
        ensures ascending { Ascends self.new }
        ensures was_ascending { Ascends self.old }
    {
        Ok(self.map.insert(key, value)?)
    }
}

impl<V: Clone> Clone for Ordered<V> {
    ghost is_clone = { AllZip (λ entry clone. (clone.0 ≡ entry.0) × V.is_clone entry.1 clone.1) };

    fn clone(&self) -> Result<Self, NoMemory> {
        let map = self.map.clone()?;
        Ok(Ordered { map })
    }
}

impl<V: PartialEq> PartialEq for Ordered<V> {
    ghost eq = { pointwise (λ a b. (a.0 == b.0) && V.eq a.1 b.1) };

    ghost laws = { lists_per (and_per (on_per (λ entry. entry.0) (partial_equiv_from_equiv nat_eq_equiv)) (on_per (λ entry. entry.1) V.laws)) };

    fn eq(&self, other: &Self) -> bool {
        self.map == other.map
    }
}

impl<V: Eq> Eq for Ordered<V> {
    ghost laws = { lists_equiv (and_equiv (on_equiv (λ entry. entry.0) nat_eq_equiv) (on_equiv (λ entry. entry.1) V.Eq.laws)) };
}
