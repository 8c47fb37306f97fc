// What stands under each name of a shelf in memory.
ghost use Rattle.std.specs.Prelude.{◌≡◌, ℕ, List, IfOk, OnOk, OnErr, IsTrue, true, false, length, Some, None, MatchOption, position};
ghost use Rattle.std.specs.Option.{option_copied, option_map};
ghost use Rattle.std.specs.Str.{bytes_eq};
ghost use Rattle.zc_io.specs.Slots.{nothing, slot_in, under, has_slot, with_held, disks_in, taken_out, brought_back};
ghost use Rattle.zc_io.specs.HandOut.{IsHandedOut};
ghost use Rattle.zc_tape.specs.Memory.{tape_of};

use crate::unused::Unused;
use std::alloc::Global;
use std::mem;
use zc_num::{Name, NoMemory};
use zc_tape::MemoryDisks;

/// What stands under a name: a set that was laid there, or one that was given back; and whether the name is
/// handed out.
#[derive(Drop)]
pub struct Stored {
    laid: Option<Unused>,
    given: Option<MemoryDisks>,
    out: bool,
}

#[derive(Drop)]
pub struct Slot {
    name: Name,
    held: Stored,
}

/// The names of a shelf. What stands under a name that no slot has is nothing.
#[derive(Drop)]
pub struct Slots {
    slots: Vec<Slot>,
}

// The first slot of a name.
fn slot_of<'a>(slots: &'a [Slot], name: &Name) -> Option<&'a Slot>
    ensures { option_copied result ≡ slot_in slots.now name.now }
{
    slots.iter().find(|slot| slot.name == *name)
}

// Its index.
fn index_of(slots: &[Slot], name: &Name) -> Option<usize>
    ensures { result ≡ position (λ slot. bytes_eq slot.name name.now) slots.now }
{
    slots.iter().position(|slot| slot.name == *name)
}

// The disk set that lies there.
fn disks_of(held: &Stored) -> Option<&MemoryDisks>
    ensures { option_copied result ≡ disks_in held.now }
{
    match &held.laid {
        Some(unused) => Some(&unused.disks),
        None => held.given.as_ref(),
    }
}

// Ends a handing out.
fn end_out(held: &mut Stored, disks: Option<MemoryDisks>)
    ensures { held.new ≡ brought_back held.old disks }
{
    held.out = false;
    if disks.is_some() {
        held.laid = None;
        held.given = disks;
    }
}

impl Stored {
    /// Under a name that is handed out.
    pub(crate) fn out() -> Stored
        ensures { result ≡ taken_out }
    {
        Stored {
            laid: None,
            given: None,
            out: true,
        }
    }

    /// Under a name where a set with no call on its tape was laid.
    pub(crate) fn laid(disks: MemoryDisks) -> Stored
        requires { length (tape_of disks).calls ≡ 0 }
        ensures laid { option_map (λ unused. unused.disks) result.laid ≡ Some disks }
        ensures out { result.out ≡ false }
    {
        Stored {
            laid: Some(Unused::of(disks)),
            given: None,
            out: false,
        }
    }

    /// The set that lies there, as it is handed out.
    pub(crate) fn hand_out(self) -> Option<MemoryDisks>
        ensures { MatchOption result (disks_in self ≡ None) (IsHandedOut self) }
    {
        let Stored {
            laid,
            given,
            out: _,
        } = self;
        match laid {
            Some(unused) => Some(unused.disks.forget_faults()),
            None => given.map(MemoryDisks::fresh),
        }
    }
}

impl Slots {
    pub(crate) fn new(alloc: Global) -> Slots
        ensures { (name : List ℕ) → under result name ≡ nothing }
    {
        Slots {
            slots: Vec::new(alloc),
        }
    }

    /// Gives a name a slot, where it has none.
    pub(crate) fn reserve(&mut self, name: &Name) -> Result<(), NoMemory>
        ensures same { under self.new ≡ under self.old }
        ensures room { OnOk result (has_slot self.new name.now ≡ true) }
    {
        if slot_of(&self.slots, name).is_none() {
            let slot = Slot {
                name: name.clone()?,
                held: Stored {
                    laid: None,
                    given: None,
                    out: false,
                },
            };
            self.slots.push(slot)?;
        }
        Ok(())
    }

    /// Puts something else under a name, and answers what stood there.
    pub(crate) fn exchange(&mut self, name: &Name, held: Stored) -> Stored
        requires { has_slot self.old name.now ≡ true }
        ensures before { result ≡ under self.old name.now }
        ensures after { under self.new ≡ with_held (under self.old) name.now held }
    {
        match index_of(&self.slots, name) {
            Some(index) => mem::replace(&mut self.slots[index].held, held),
            None => held,
        }
    }

    /// The disk set that lies under a name.
    pub(crate) fn disks(&self, name: &Name) -> Option<&MemoryDisks>
        ensures { option_copied result ≡ disks_in (under self.now name.now) }
    {
        match slot_of(&self.slots, name) {
            Some(slot) => disks_of(&slot.held),
            None => None,
        }
    }

    /// Whether a name is handed out.
    pub(crate) fn is_out(&self, name: &Name) -> bool
        ensures { result ≡ (under self.now name.now).out }
    {
        match slot_of(&self.slots, name) {
            Some(slot) => slot.held.out,
            None => false,
        }
    }

    /// Ends the handing out of a name, and lays a set there, if there is one.
    pub(crate) fn bring_back(&mut self, name: &Name, disks: Option<MemoryDisks>)
        requires { (under self.old name.now).out ≡ true }
        ensures { under self.new ≡ with_held (under self.old) name.now (brought_back (under self.old name.now) disks) }
    {
        if let Some(index) = index_of(&self.slots, name) {
            end_out(&mut self.slots[index].held, disks);
        }
    }
}
