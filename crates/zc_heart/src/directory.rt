// Things that have a number and a name, found by either.
ghost use Rattle.std.specs.Prelude.{◌≡◌, ◌∷◌, ◌++◌, [], drop, length, slice_get, find, option_map, None, Some, IfSome, IsSome, OnOk, OnErr};
ghost use Rattle.std.specs.Borrow.{sem};
ghost use Rattle.std.specs.Option.{option_copied};
ghost use Rattle.zc_heart.specs.Changes.{without};

use std::alloc::Global;
use std::collections::BTreeMap;
use std::marker::Model;
use zc_num::{Name, NoMemory};

/// A value with a number and a name.
#[derive(Drop)]
pub struct Named<V> {
    pub id: u64,
    pub name: Name,
    pub value: V,
}

/// Values with numbers that ascend and names of which none is there twice. Contracts see them as the list, ascending by number.
#[derive(Drop)]
pub struct Directory<V> {
    items: BTreeMap<u64, Named<V>>,
    ids: BTreeMap<Name, u64>,
}

impl<V> Model for Directory<V> {
    ghost use Rattle.std.specs.Prelude.{List};
    ghost use Rattle.zc_heart.specs.declared.directory.Named.{Named};
    ghost use Rattle.zc_heart.specs.Directory.{items_of, IsDirectory};

    ghost Value = { List (Named V) };

    ghost view = { λ directory. items_of directory.items.entries };

    ghost invariant = { λ directory. IsDirectory directory.items.entries directory.ids.entries };
}

impl<V> Directory<V> {
    ghost use Rattle.zc_heart.specs.Directory.{id_called, is_called, is_numbered, value_of};
    ghost use Rattle.zc_heart.specs.DirectoryLending.{LendsValueOf};

    /// No value. Takes no memory.
    pub fn new(alloc: Global) -> Self
        ensures { result ≡ [] }
    {
        Directory {
            items: BTreeMap::new(alloc),
            ids: BTreeMap::new(alloc),
        }
    }

    /// The number of values.
    pub fn len(&self) -> usize
        ensures { result ≡ length self.now }
    {
        self.items.len()
    }

    /// The number of the value of this name, if there is one.
    pub fn find(&self, name: &Name) -> Option<u64>
        ensures id { result ≡ id_called name.now self.now }
        ensures item { IfSome result (λ id. find (is_numbered id) self.now ≡ find (is_called name.now) self.now) }
    {
        self.ids.get(name).copied()
    }

    /// The value of this number, which is there, to be changed in place.
    pub fn value_mut(&mut self, id: u64) -> &mut V
        requires { IsSome (find (is_numbered id) self.old) }
        ensures* writes_back { sem 𝓛 (LendsValueOf V.row self.entry id result) }
        ensures value { option_map value_of (find (is_numbered id) self.old) ≡ Some result.now }
    {
        match self.items.get_mut(&id) {
            Some(named) => &mut named.value,
            None => unreachable!(),
        }
    }

    /// The value of this number, if there is one.
    pub fn get(&self, id: u64) -> Option<&Named<V>>
        ensures { option_copied result ≡ find (is_numbered id) self.now }
    {
        self.items.get(&id)
    }
}

impl<V: Drop> Directory<V> {
    ghost use Rattle.zc_heart.specs.Directory.{AreBelow, id_called, id_of, is_numbered};

    /// Puts a value after the others. Its number is above theirs, and none has its name.
    ///
    /// # Errors
    /// Want of memory; nothing has changed.
    pub fn push(&mut self, id: u64, name: Name, value: V) -> Result<(), NoMemory>
        requires above { AreBelow id self.old }
        requires unlike { id_called name self.old ≡ None }
        ensures ok { OnOk result (self.new ≡ self.old ++ record { id = id; name = name; value = value } ∷ []) }
        ensures err { OnErr result (self.new ≡ self.old) }
    {
        let key = name.clone()?;
        self.ids.insert(key, id)?;
        match self.items.insert(id, Named { id, name, value }) {
            Ok(_) => Ok(()),
            Err(refused) => {
                let (_, named) = refused.value;
                self.ids.remove(&named.name);
                Err(NoMemory)
            }
        }
    }

    /// Takes the value of this number out. Takes no memory.
    pub fn remove(&mut self, id: u64) -> Named<V>
        requires { IsSome (find (is_numbered id) self.old) }
        ensures item { find (is_numbered id) self.old ≡ Some result }
        ensures rest { self.new ≡ without id_of id self.old }
    {
        match self.items.remove(&id) {
            Some(named) => {
                self.ids.remove(&named.name);
                named
            }
            None => unreachable!(),
        }
    }

    /// Takes the value of the least number out, if there is one. Takes no memory.
    pub fn take_first(&mut self) -> Option<Named<V>>
        ensures first { result ≡ slice_get self.old 0 }
        ensures rest { self.new ≡ drop 1 self.old }
    {
        match self.items.pop_first() {
            Some((_, named)) => {
                self.ids.remove(&named.name);
                Some(named)
            }
            None => None,
        }
    }
}
