// Where disk sets lie between two runs.
ghost use Rattle.std.specs.Prelude.{◌≡◌, ℕ, ◌≤◌, true, false, IfOk, OnOk, OnErr, IsErrOf, IsTrue, is_ok, ◌⊎◌};
ghost use Rattle.zc_tape.specs.Cause.{Rose, HasCause};
ghost use Rattle.zc_io.specs.Stock.{Stock, Gave, HandsOut, HandsBack, KeepsStock, IsHere, IsUncalled, IsBlank};

use zc_num::Name;
use zc_tape::{DiskSet, Failed};

/// Why a shelf handed nothing out.
#[derive(Clone, Copy, Debug, PartialEq, Eq)]
pub enum ShelfFault {
    Missing,
    Present,
    Failed,
    NoMemory,
}

/// Disk sets by name. A name is there, or handed out, or neither.
pub trait Shelf {
    /// What is handed out.
    type Disk: DiskSet + Drop + Send;

    /// What lies there, what is handed out and what was handed back, where the shelf tells them.
    ghost stock: { Self → Stock };

    /// How often a call of the shelf, or of a set that was handed back, has failed. It never falls.
    ghost faults: { Self → ℕ };

    /// Hands out the disk set of a name. It has no call on its tape and no faults.
    ///
    /// # Errors
    /// `Missing` where the name isn't there, `Failed` where the count of faults rose, and want of memory.
    /// Nothing is handed out then, and nothing changes.
    fn take(&mut self, name: &Name) -> Result<Self::Disk, ShelfFault>
        ensures told { (stock self.new).told ≡ (stock self.old).told }
        ensures handed { OnOk result (HandsOut (stock self.old) (stock self.new) name.now) }
        ensures there { OnOk result (IsHere (stock self.old) name.now true) }
        ensures fresh { IfOk result (λ disk. IsUncalled (Self.Disk.tape disk) (Self.Disk.faults disk)) }
        ensures kept { OnErr result (KeepsStock (stock self.old) (stock self.new)) }
        ensures missing { IsErrOf result ShelfFault.Missing → IsHere (stock self.old) name.now false }
        ensures never_present { IsErrOf result ShelfFault.Present → ⊥ }
        ensures later { faults self.old ≤ faults self.new }
        ensures cause { IsErrOf result ShelfFault.Failed → Rose (faults self.old) (faults self.new) };

    /// Makes a disk set of zero bytes under a name, and hands it out.
    ///
    /// # Errors
    /// `Present` where the name is there and the shelf tells its names, `Failed` where the count of faults rose,
    /// and want of memory. Nothing is handed out then, and nothing changes.
    fn make(&mut self, name: &Name, devices: u32, places: u32) -> Result<Self::Disk, ShelfFault>
        ensures told { (stock self.new).told ≡ (stock self.old).told }
        ensures handed { OnOk result (HandsOut (stock self.old) (stock self.new) name.now) }
        ensures absent { OnOk result (IsHere (stock self.old) name.now false) }
        ensures fresh { IfOk result (λ disk. IsUncalled (Self.Disk.tape disk) (Self.Disk.faults disk)) }
        ensures shape { IfOk result (λ disk. Self.Disk.shape disk ≡ record { devices = devices; places = places }) }
        ensures blank { IfOk result (λ disk. IsBlank (Self.Disk.shape disk) (Self.Disk.tape disk)) }
        ensures kept { OnErr result (KeepsStock (stock self.old) (stock self.new)) }
        ensures present { IsErrOf result ShelfFault.Present → IsTrue (stock self.old).told × ((stock self.old).here name.now ≡ true) }
        ensures never_missing { IsErrOf result ShelfFault.Missing → ⊥ }
        ensures later { faults self.old ≤ faults self.new }
        ensures cause { IsErrOf result ShelfFault.Failed → Rose (faults self.old) (faults self.new) };

    /// Takes a disk set back. Whatever it answers, the name isn't handed out any more; where that is Ok, the set
    /// lies there. A set that has failed makes the shelf's own count of faults rise.
    ///
    /// # Errors
    /// `Failed`, where the count of faults rose.
    fn give(&mut self, name: &Name, disk: Self::Disk) -> Result<(), Failed>
        ensures told { (stock self.new).told ≡ (stock self.old).told }
        ensures handed { HandsBack (stock self.old) (stock self.new) (record {
          name = name.now;
          shape = Self.Disk.shape disk;
          tape = Self.Disk.tape disk;
          ok = is_ok result;
        }) }
        ensures cause { HasCause (faults self.old) (faults self.new) result }
        ensures disk_faults { (Self.Disk.faults disk ≡ 0) ⊎ Rose (faults self.old) (faults self.new) };
}
