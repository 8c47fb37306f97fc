// The blocks that stand, by their stamps: how many blocks of files share each, and where it is on the disks.
ghost use Rattle.std.specs.Prelude.{◌≡◌, ◌+◌, ◌<◌, ◌==◌, ◌^◌, ◌||◌, ◌&&◌, ◌∷◌, ◌↔◌, ℕ, List, length, not, false, OnOk, OnErr, IsOk, IsTrue, if◌then◌else◌, [], None, Some};
ghost use Rattle.std.specs.List.{All};
ghost use Rattle.std.specs.List.Sorted.{IsStrictlySortedBy};
ghost use Rattle.std.specs.Map.Iter.{ShowsInOrder, deref};
ghost use Rattle.std.specs.Ordering.{nat_cmp};
ghost use Rattle.zc_plain.specs.Charge.{is_stamp, with_each};
ghost use Rattle.zc_heart.specs.Standing.{stands, standing};

use std::alloc::Global;
use std::collections::btree_set::Iter;
use std::collections::{BTreeMap, BTreeSet};
use std::marker::Model;
use zc_blkptr::Ptr;
use zc_num::NoMemory;

/// What names the bytes of a block: the command that made them, and its number there.
#[derive(Clone, Copy, PartialEq, Eq, PartialOrd, Ord, Debug)]
pub struct Stamp {
    pub entry: u64,
    pub index: u64,
}

/// What is kept of a block.
#[derive(Clone, Copy, Drop)]
pub struct Count {
    /// How many blocks of files have the stamp; 0 where there is room for one alone.
    pub files: u64,
    /// Where the block is on the disks, where that is known.
    pub placed: Option<Ptr>,
}

// 1 for a block that some file has, and 0 for room alone.
fn stands(count: &Count) -> u64
    ensures { result ≡ stands count.now }
{
    if count.files == 0 {
        return 0;
    }
    1
}

/// What is kept of each block. Contracts see it as the list of that, in the order of the stamps.
#[derive(Drop)]
pub struct Stamps {
    counts: BTreeMap<Stamp, Count>,
    // How many stamps some file has.
    distinct: u64,
    ghost counted: { distinct ≡ standing counts.entries },
}

impl Model for Stamps {
    ghost use Rattle.std.specs.Prelude.{List};
    ghost use Rattle.zc_heart.specs.declared.stamps.Stamp.{Stamp};
    ghost use Rattle.zc_heart.specs.declared.stamps.Count.{Count};

    ghost Value = { List (Stamp × Count) };

    ghost view = { λ stamps. stamps.counts.entries };
}

impl Stamps {
    ghost use Rattle.zc_heart.specs.Stamps.{AreCounted, Keeps, KeepsRoom, Learns, LearnsNothing, Moves, count_at, files_at, has_room, pair_of, ptr_at};
    ghost use Rattle.zc_heart.specs.File.{StaysCounted};

    /// No block. Takes no memory.
    pub fn new(alloc: Global) -> Self
        ensures files { (stamp : ℕ × ℕ) → files_at result stamp ≡ 0 }
        ensures placed { (stamp : ℕ × ℕ) → ptr_at result stamp ≡ None }
    {
        Stamps {
            counts: BTreeMap::new(alloc),
            distinct: 0,
        }
    }

    /// How many stamps some block of a file has.
    pub fn distinct(&self) -> u64
        ensures { (list : List (ℕ × ℕ)) → AreCounted self.now list → result ≡ length (with_each is_stamp [] list) }
    {
        // The keys of a map differ.
        let _ = self.counts.len();
        self.distinct
    }

    // What is kept of the stamp.
    fn count(&self, stamp: Stamp) -> Option<Count>
        ensures { result ≡ count_at self.now (pair_of stamp) }
    {
        self.counts.get(&stamp).copied()
    }

    // Keeps this of a stamp that has room. Takes no memory.
    fn set(&mut self, stamp: Stamp, count: Count)
        requires { IsTrue (has_room self.old (pair_of stamp)) }
        ensures { Keeps self.old self.new (pair_of stamp) (Some count) }
    {
        // A map has fewer than 2^63 entries, so the sum fits.
        let _ = self.counts.len();
        match self.counts.insert(stamp, count) {
            Ok(Some(before)) => {
                self.distinct = self.distinct + stands(&count) - stands(&before);
            }
            _ => unreachable!(),
        }
    }

    // Keeps nothing of the stamp.
    fn forget(&mut self, stamp: Stamp)
        ensures { Keeps self.old self.new (pair_of stamp) None }
    {
        if let Some(before) = self.counts.remove(&stamp) {
            self.distinct -= stands(&before);
        }
    }

    /// Makes room for the stamp, so that a block can have it without taking memory.
    ///
    /// # Errors
    /// Want of memory.
    pub fn room(&mut self, stamp: Stamp) -> Result<(), NoMemory>
        ensures stays { StaysCounted self.old self.new }
        ensures room { OnOk result (IsTrue (has_room self.new (pair_of stamp))) }
        ensures others { KeepsRoom self.old self.new }
    {
        if self.counts.contains_key(&stamp) {
            return Ok(());
        }
        let count = Count {
            files: 0,
            placed: None,
        };
        self.counts.insert(stamp, count)?;
        Ok(())
    }

    /// One more block of a file has the stamp, which has room. Takes no memory.
    pub fn join(&mut self, stamp: Stamp)
        requires room { IsTrue (has_room self.old (pair_of stamp)) }
        requires fits { files_at self.old (pair_of stamp) < 2 ^ 62 }
        ensures moves { Moves self.old self.new [] (pair_of stamp ∷ []) }
        ensures placed { (other : ℕ × ℕ) → ptr_at self.new other ≡ ptr_at self.old other }
        ensures learns { LearnsNothing self.old self.new }
        ensures others { KeepsRoom self.old self.new }
    {
        match self.count(stamp) {
            Some(count) => self.set(
                stamp,
                Count {
                    files: count.files + 1,
                    placed: count.placed,
                },
            ),
            None => unreachable!(),
        }
    }

    /// One block of a file fewer has the stamp. What is kept of it goes with the last.
    pub fn leave(&mut self, stamp: Stamp)
        requires { 0 < files_at self.old (pair_of stamp) }
        ensures moves { Moves self.old self.new (pair_of stamp ∷ []) [] }
        ensures gone { files_at self.old (pair_of stamp) ≡ 1 → has_room self.new (pair_of stamp) ≡ false }
        ensures placed { (other : ℕ × ℕ) → 0 < files_at self.new other → ptr_at self.new other ≡ ptr_at self.old other }
        ensures learns { LearnsNothing self.old self.new }
        ensures others { (other : ℕ × ℕ) → IsTrue (has_room self.old other) → is_stamp other (pair_of stamp) ≡ false → IsTrue (has_room self.new other) }
    {
        match self.count(stamp) {
            Some(count) if count.files > 1 => self.set(
                stamp,
                Count {
                    files: count.files - 1,
                    placed: count.placed,
                },
            ),
            _ => self.forget(stamp),
        }
    }

    /// Lets the room for the stamp go, where no file has it.
    pub fn forget_room(&mut self, stamp: Stamp)
        ensures files { (other : ℕ × ℕ) → files_at self.new other ≡ files_at self.old other }
        ensures gone { files_at self.old (pair_of stamp) ≡ 0 → has_room self.new (pair_of stamp) ≡ false }
        ensures placed { (other : ℕ × ℕ) → 0 < files_at self.new other → ptr_at self.new other ≡ ptr_at self.old other }
        ensures learns { LearnsNothing self.old self.new }
        ensures others { (other : ℕ × ℕ) → IsTrue (has_room self.old other) → is_stamp other (pair_of stamp) ≡ false → IsTrue (has_room self.new other) }
    {
        match self.count(stamp) {
            Some(count) if count.files == 0 => self.forget(stamp),
            _ => {}
        }
    }

    /// The block with the stamp is here on the disks, if some file has it. Takes no memory.
    pub fn place(&mut self, stamp: Stamp, ptr: Ptr)
        ensures files { (other : ℕ × ℕ) → files_at self.new other ≡ files_at self.old other }
        ensures placed { 0 < files_at self.old (pair_of stamp) → ptr_at self.new (pair_of stamp) ≡ Some ptr }
        ensures kept { (other : ℕ × ℕ) → is_stamp (pair_of stamp) other ≡ false → ptr_at self.new other ≡ ptr_at self.old other }
        ensures learns { Learns self.old self.new (pair_of stamp) ptr }
        ensures others { KeepsRoom self.old self.new }
    {
        match self.count(stamp) {
            Some(count) if count.files > 0 => self.set(
                stamp,
                Count {
                    files: count.files,
                    placed: Some(ptr),
                },
            ),
            _ => {}
        }
    }

    /// One more block of a file has the stamp, and its block is here on the disks.
    ///
    /// # Errors
    /// Want of memory, or 2^64 blocks of files; no file's block is counted.
    pub fn insert(&mut self, stamp: Stamp, ptr: Ptr) -> Result<(), NoMemory>
        ensures moves { OnOk result (Moves self.old self.new [] (pair_of stamp ∷ [])) }
        ensures placed { OnOk result ((other : ℕ × ℕ) → ptr_at self.new other ≡ (if is_stamp (pair_of stamp) other then Some ptr else ptr_at self.old other)) }
        ensures err { OnErr result (StaysCounted self.old self.new) }
    {
        self.room(stamp)?;
        let files = match self.count(stamp) {
            Some(count) => count.files,
            None => unreachable!(),
        };
        if files == u64::MAX {
            return Err(NoMemory);
        }
        self.set(
            stamp,
            Count {
                files: files + 1,
                placed: Some(ptr),
            },
        );
        Ok(())
    }
}

/// Numbers, each once. Contracts see them as the list of them, ascending.
#[derive(Drop)]
pub struct Numbers {
    set: BTreeSet<u64>,
}

impl Model for Numbers {
    ghost use Rattle.std.specs.Prelude.{List, ℕ};

    ghost Value = { List ℕ };

    ghost view = { λ numbers. numbers.set.keys };
}

impl Numbers {
    ghost use Rattle.zc_heart.specs.Stamps.{holds_number};

    /// No number. Takes no memory.
    pub fn new(alloc: Global) -> Self
        ensures { result ≡ [] }
    {
        Numbers {
            set: BTreeSet::new(alloc),
        }
    }

    /// Whether there is no number.
    pub fn is_empty(&self) -> bool
        ensures { IsTrue result ↔ (self.now ≡ []) }
    {
        self.set.is_empty()
    }

    /// Whether the number is one of these.
    pub fn contains(&self, number: u64) -> bool
        ensures { result ≡ holds_number number self.now }
    {
        self.set.contains(&number)
    }

    /// The numbers, ascending.
    pub fn iter(&self) -> Iter<'_, u64>
        ensures rest { result ≡ self.now }
        ensures runs { ShowsInOrder (deref {X = ℕ}) }
        ensures ascending { IsStrictlySortedBy nat_cmp self.now }
        ensures fits { length self.now < 2 ^ 63 }
        ensures held { All (λ number. IsTrue (holds_number number self.now)) self.now }
    {
        self.set.iter()
    }

    /// Adds the number. It may be one that is there, and then no memory is taken.
    ///
    /// # Errors
    /// Want of memory; nothing has changed.
    pub fn insert(&mut self, number: u64) -> Result<(), NoMemory>
        ensures ok { OnOk result ((other : ℕ) → holds_number other self.new ≡ (holds_number other self.old || (other == number))) }
        ensures err { OnErr result (self.new ≡ self.old) }
        ensures there { IsTrue (holds_number number self.old) → IsOk result }
    {
        self.set.insert(number)?;
        Ok(())
    }

    /// Takes the number out, if it is there.
    pub fn remove(&mut self, number: u64)
        ensures { (other : ℕ) → holds_number other self.new ≡ (holds_number other self.old && not (other == number)) }
    {
        self.set.remove(&number);
    }

    /// Takes all numbers out.
    pub fn clear(&mut self)
        ensures { self.new ≡ [] }
    {
        self.set.clear();
    }
}
