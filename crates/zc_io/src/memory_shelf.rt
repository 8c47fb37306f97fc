// A shelf of disk sets in memory, for tests.
ghost use Rattle.std.specs.Prelude.{◌≡◌, ℕ, List, ◌+◌, ◌≤◌, ◌↔◌, ◌⊎◌, [], IfOk, IfErr, OnOk, OnErr, IsErrOf, IsTrue, true, false, not, is_ok, is_err, is_some, IsSome, Some, None, if◌then◌else◌};
ghost use Rattle.std.specs.Option.{option_copied};
ghost use Rattle.zc_io.specs.Calls.{fails_next, after_call, IsFirst};
ghost use Rattle.zc_io.specs.GivenBack.{faults_given};
ghost use Rattle.zc_io.specs.HandOut.{IsHandedOut};
ghost use Rattle.zc_io.specs.MemoryShelf.{stands, lying, stock_of, shelf_faults};
ghost use Rattle.zc_io.specs.Slots.{nothing, with_held, taken_out, brought_back, IsLaid};
ghost use Rattle.zc_io.specs.Stock.{HandsOut, HandsBack, KeepsStock, IsHere, IsUncalled, IsBlank, with_answer};
ghost use Rattle.zc_tape.specs.Cause.{Rose, HasCause};
ghost use Rattle.zc_tape.specs.Memory.{shape_of, faults_of, tape_of, failing_of};

use crate::calls::Calls;
use crate::gives::GivenBack;
use crate::shelf::{Shelf, ShelfFault};
use crate::slots::{Slots, Stored};
use crate::unused::Unused;
use std::alloc::Global;
use zc_num::{Name, NoMemory};
use zc_tape::{Failed, MemoryDisks};

/// Disk sets by name. Its calls `take`, `make` and `give` are numbered together, from 1.
#[derive(Drop)]
pub struct MemoryShelf {
    alloc: Global,
    slots: Slots,
    calls: Calls,
    gives: GivenBack,
}

impl MemoryShelf {
    /// An empty shelf, of which the calls of the listed numbers fail.
    pub fn new(alloc: Global, failing: &[u64]) -> Result<MemoryShelf, NoMemory>
        ensures empty { IfOk result (λ shelf. (name : List ℕ) → stands shelf name ≡ nothing) }
        ensures stock { IfOk result (λ shelf. stock_of shelf ≡ record {
          told = true;
          here = λ _. false;
          out = λ _. false;
          gives = [];
        }) }
        ensures calls { IfOk result (λ shelf. IsFirst shelf.calls failing.now) }
        ensures faults { IfOk result (λ shelf. shelf_faults shelf ≡ 0) }
    {
        let calls = Calls::new(alloc, failing)?;
        Ok(MemoryShelf {
            alloc,
            slots: Slots::new(alloc),
            calls,
            gives: GivenBack::new(),
        })
    }

    /// The disk set that lies under a name.
    pub fn disk(&self, name: &Name) -> Option<&MemoryDisks>
        ensures set { option_copied result ≡ lying self.now name.now }
        ensures here { IsSome result ↔ IsTrue ((stock_of self.now).here name.now) }
    {
        self.slots.disks(name)
    }

    /// Lays a set under a name, with the numbers of its calls that are to fail. On want of memory it comes back.
    pub fn put(&mut self, name: &Name, disk: MemoryDisks) -> Result<(), (NoMemory, MemoryDisks)>
        requires absent { (stock_of self.old).here name.now ≡ false }
        requires kept_in { (stock_of self.old).out name.now ≡ false }
        requires unused { (tape_of disk).calls ≡ [] }
        ensures stock { OnOk result (stock_of self.new ≡ record (stock_of self.old) {
          here = with_answer (stock_of self.old).here name.now true;
        }) }
        ensures laid { OnOk result (IsLaid (stands self.old) (stands self.new) name.now disk) }
        ensures kept { OnErr result (stands self.new ≡ stands self.old) }
        ensures same { OnErr result (stock_of self.new ≡ stock_of self.old) }
        ensures back { IfErr result (λ e. e.1 ≡ disk) }
        ensures calls { self.new.calls ≡ self.old.calls }
        ensures faults { shelf_faults self.new ≡ shelf_faults self.old }
    {
        match self.slots.reserve(name) {
            Ok(()) => {
                let _ = self.slots.exchange(name, Stored::laid(disk));
                Ok(())
            }
            Err(fault) => Err((fault, disk)),
        }
    }

    // Hands out a new set under a name where none lies.
    fn make_set(&mut self, name: &Name, devices: u32, places: u32) -> Result<MemoryDisks, NoMemory>
        ensures fresh { IfOk result (λ disk. IsUncalled (tape_of disk) (faults_of disk)) }
        ensures shape { IfOk result (λ disk. shape_of disk ≡ record { devices = devices; places = places }) }
        ensures blank { IfOk result (λ disk. IsBlank (shape_of disk) (tape_of disk)) }
        ensures failing { IfOk result (λ disk. failing_of disk ≡ []) }
        ensures handed { OnOk result (stands self.new ≡ with_held (stands self.old) name.now taken_out) }
        ensures kept { OnErr result (stands self.new ≡ stands self.old) }
        ensures calls { self.new.calls ≡ self.old.calls }
        ensures gives { self.new.gives ≡ self.old.gives }
    {
        let disks = MemoryDisks::new(self.alloc, devices, places, &[])?;
        self.slots.reserve(name)?;
        let _ = self.slots.exchange(name, Stored::out());
        Ok(disks)
    }
}

impl Shelf for MemoryShelf {
    type Disk = MemoryDisks;

    ghost stock = { stock_of };

    ghost faults = { shelf_faults };

    fn take(&mut self, name: &Name) -> Result<MemoryDisks, ShelfFault>
        ensures exact { IsTrue (fails_next self.old.calls) ↔ IsErrOf result ShelfFault.Failed }
        ensures calls { self.new.calls ≡ after_call self.old.calls }
        ensures absent { fails_next self.old.calls ≡ false → (stock_of self.old).here name.now ≡ false → IsErrOf result ShelfFault.Missing }
        ensures no_memory { IsErrOf result ShelfFault.NoMemory → ⊥ }
        ensures set { IfOk result (IsHandedOut (stands self.old name.now)) }
        ensures others { OnOk result (stands self.new ≡ with_held (stands self.old) name.now taken_out) }
        ensures same { OnErr result (stands self.new ≡ stands self.old) }
        ensures told { (stock_of self.new).told ≡ (stock_of self.old).told }
        ensures handed { OnOk result (HandsOut (stock_of self.old) (stock_of self.new) name.now) }
        ensures there { OnOk result (IsHere (stock_of self.old) name.now true) }
        ensures fresh { IfOk result (λ disk. IsUncalled (tape_of disk) (faults_of disk)) }
        ensures kept { OnErr result (KeepsStock (stock_of self.old) (stock_of self.new)) }
        ensures missing { IsErrOf result ShelfFault.Missing → IsHere (stock_of self.old) name.now false }
        ensures never_present { IsErrOf result ShelfFault.Present → ⊥ }
        ensures later { shelf_faults self.old ≤ shelf_faults self.new }
        ensures cause { IsErrOf result ShelfFault.Failed → Rose (shelf_faults self.old) (shelf_faults self.new) }
    {
        if self.calls.next_fails() {
            return Err(ShelfFault::Failed);
        }
        if self.slots.disks(name).is_none() {
            return Err(ShelfFault::Missing);
        }
        match self.slots.exchange(name, Stored::out()).hand_out() {
            Some(disks) => Ok(disks),
            None => Err(ShelfFault::Missing),
        }
    }

    fn make(&mut self, name: &Name, devices: u32, places: u32) -> Result<MemoryDisks, ShelfFault>
        ensures exact { IsTrue (fails_next self.old.calls) ↔ IsErrOf result ShelfFault.Failed }
        ensures calls { self.new.calls ≡ after_call self.old.calls }
        ensures taken { fails_next self.old.calls ≡ false → (stock_of self.old).here name.now ≡ true → IsErrOf result ShelfFault.Present }
        ensures failing { IfOk result (λ disk. failing_of disk ≡ []) }
        ensures others { OnOk result (stands self.new ≡ with_held (stands self.old) name.now taken_out) }
        ensures same { OnErr result (stands self.new ≡ stands self.old) }
        ensures told { (stock_of self.new).told ≡ (stock_of self.old).told }
        ensures handed { OnOk result (HandsOut (stock_of self.old) (stock_of self.new) name.now) }
        ensures absent { OnOk result (IsHere (stock_of self.old) name.now false) }
        ensures fresh { IfOk result (λ disk. IsUncalled (tape_of disk) (faults_of disk)) }
        ensures shape { IfOk result (λ disk. shape_of disk ≡ record { devices = devices; places = places }) }
        ensures blank { IfOk result (λ disk. IsBlank (shape_of disk) (tape_of disk)) }
        ensures kept { OnErr result (KeepsStock (stock_of self.old) (stock_of self.new)) }
        ensures present { IsErrOf result ShelfFault.Present → IsTrue (stock_of self.old).told × ((stock_of self.old).here name.now ≡ true) }
        ensures never_missing { IsErrOf result ShelfFault.Missing → ⊥ }
        ensures later { shelf_faults self.old ≤ shelf_faults self.new }
        ensures cause { IsErrOf result ShelfFault.Failed → Rose (shelf_faults self.old) (shelf_faults self.new) }
    {
        if self.calls.next_fails() {
            return Err(ShelfFault::Failed);
        }
        if self.slots.disks(name).is_some() {
            return Err(ShelfFault::Present);
        }
        match self.make_set(name, devices, places) {
            Ok(disks) => Ok(disks),
            Err(_) => Err(ShelfFault::NoMemory),
        }
    }

    fn give(&mut self, name: &Name, disk: MemoryDisks) -> Result<(), Failed>
        ensures exact { is_err result ≡ fails_next self.old.calls }
        ensures calls { self.new.calls ≡ after_call self.old.calls }
        ensures laid { OnOk result (IsTrue ((stock_of self.old).out name.now)
            → stands self.new ≡ with_held (stands self.old) name.now (brought_back (stands self.old name.now) (Some disk))) }
        ensures dropped { OnErr result (IsTrue ((stock_of self.old).out name.now)
            → stands self.new ≡ with_held (stands self.old) name.now (brought_back (stands self.old name.now) None)) }
        ensures strange { (stock_of self.old).out name.now ≡ false → stands self.new ≡ stands self.old }
        ensures faults { shelf_faults self.new ≡ (after_call self.old.calls).faults + (faults_given self.old.gives + faults_of disk) }
        ensures told { (stock_of self.new).told ≡ (stock_of self.old).told }
        ensures handed { HandsBack (stock_of self.old) (stock_of self.new) (record {
          name = name.now;
          shape = shape_of disk;
          tape = tape_of disk;
          ok = is_ok result;
        }) }
        ensures cause { HasCause (shelf_faults self.old) (shelf_faults self.new) result }
        ensures disk_faults { (faults_of disk ≡ 0) ⊎ Rose (shelf_faults self.old) (shelf_faults self.new) }
    {
        let fails = self.calls.next_fails();
        self.gives.record(name, &disk, !fails);
        if !self.slots.is_out(name) {
            return answer(fails);
        }
        self.slots.bring_back(name, unless(fails, disk));
        answer(fails)
    }
}

// The set that lies there after a call that fails, or doesn't.
fn unless(fails: bool, disk: MemoryDisks) -> Option<MemoryDisks>
    ensures set { result ≡ (if fails then None else Some disk) }
    ensures some { is_some result ≡ not fails }
{
    if fails { None } else { Some(disk) }
}

// The answer of a call that fails, or doesn't.
fn answer(fails: bool) -> Result<(), Failed>
    ensures err { is_err result ≡ fails }
    ensures ok { is_ok result ≡ not fails }
{
    if fails { Err(Failed) } else { Ok(()) }
}
