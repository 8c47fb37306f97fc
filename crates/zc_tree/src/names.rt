// The names that were read so far.
ghost use Rattle.std.specs.Prelude.{◌≡◌, [], ◌∷◌, OnOk, ℕ, List};
ghost use Rattle.zc_tree.specs.Names.{is_among};

use std::alloc::Global;
use std::collections::BTreeSet;
use zc_num::{Name, NoMemory};

// Names, each once.
#[derive(Drop)]
pub struct NameSet {
    set: BTreeSet<Name>,
}

impl NameSet {
    ghost use Rattle.zc_tree.specs.NameSet.{Knows};

    // No name.
    pub fn new(alloc: Global) -> Self
        ensures { Knows result [] }
    {
        NameSet {
            set: BTreeSet::new(alloc),
        }
    }

    // Whether the name is one of these.
    pub fn contains(&self, name: &Name) -> bool
        ensures { (names : List (List ℕ)) → Knows self.now names → result ≡ is_among name.now names }
    {
        self.set.contains(name)
    }

    // Adds the name. It may be one that is there.
    pub fn add(&mut self, name: &Name) -> Result<(), NoMemory>
        ensures ok { OnOk result ((names : List (List ℕ)) → Knows self.old names → Knows self.new (name.now ∷ names)) }
    {
        self.set.insert(name.clone()?)?;
        Ok(())
    }
}
