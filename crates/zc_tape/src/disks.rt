// What the store asks of its disks: reads, writes and syncs of places of 4,096 bytes, on one tape.
ghost use Rattle.std.specs.Prelude.{◌≡◌, ℕ, ◌+◌, ◌<◌, ◌≤◌, false, IsTrue, OnOk, OnErr, is_ok};
ghost use Rattle.zc_tape.specs.Cause.{HasCause};
ghost use Rattle.zc_tape.specs.Tape.{Shape, Tape, Write, Sync, Appends};
ghost use Rattle.zc_tape.specs.Crash.{reads, is_spoilt};

use zc_num::NoMemory;

/// An object of the outside failed.
#[derive(Clone, Copy, Debug, PartialEq, Eq)]
pub struct Failed;

/// Devices of one size, each with places of 4,096 bytes. Nobody else writes them.
pub trait DiskSet {
    /// How many devices there are, and how many places each has. No call changes it.
    ghost shape: { Self → Shape };

    /// How often a call has failed. It never falls.
    ghost faults: { Self → ℕ };

    /// How many more writes and syncs have their room.
    ghost spare: { Self → ℕ };

    /// The bytes at the start and the writes and syncs since, where the set tells them.
    ghost tape: { Self → Tape };

    /// The number of devices.
    fn devices(&self) -> u32
        ensures { result ≡ (shape self.now).devices };

    /// The number of places of each device.
    fn places(&self) -> u32
        ensures { result ≡ (shape self.now).places };

    /// Reads a place. A place to which a write has failed may give any bytes. A read isn't on the tape.
    fn read(&mut self, device: u32, place: u32, out: &mut [u8; 4096]) -> Result<(), Failed>
        requires device_there { device < (shape self.old).devices }
        requires place_there { place < (shape self.old).places }
        ensures bytes { OnOk result (IsTrue (tape self.old).told
            → is_spoilt (tape self.old) device place ≡ false
            → out.new ≡ reads (tape self.old) device place) }
        ensures tape { tape self.new ≡ tape self.old }
        ensures shape { shape self.new ≡ shape self.old }
        ensures spare { spare self.new ≡ spare self.old }
        ensures cause { HasCause (faults self.old) (faults self.new) result };

    /// Writes a place. A crash may leave any bytes there until a later sync is Ok. It takes no memory.
    fn write(&mut self, device: u32, place: u32, bytes: &[u8; 4096]) -> Result<(), Failed>
        requires device_there { device < (shape self.old).devices }
        requires place_there { place < (shape self.old).places }
        requires room { 0 < spare self.old }
        ensures told { (tape self.new).told ≡ (tape self.old).told }
        ensures tape { Appends (tape self.old) (tape self.new) (Write device place bytes.now) (is_ok result) }
        ensures shape { shape self.new ≡ shape self.old }
        ensures spare { OnOk result (spare self.old ≤ spare self.new + 1) }
        ensures cause { HasCause (faults self.old) (faults self.new) result };

    /// Makes all writes so far durable, on every device. It takes no memory.
    fn sync(&mut self) -> Result<(), Failed>
        requires room { 0 < spare self.old }
        ensures told { (tape self.new).told ≡ (tape self.old).told }
        ensures tape { Appends (tape self.old) (tape self.new) Sync (is_ok result) }
        ensures shape { shape self.new ≡ shape self.old }
        ensures spare { OnOk result (spare self.old ≤ spare self.new + 1) }
        ensures cause { HasCause (faults self.old) (faults self.new) result };

    /// Makes room for that many writes and syncs.
    ///
    /// # Errors
    /// Want of memory; the room is then what it was, or more.
    fn ready(&mut self, calls: u64) -> Result<(), NoMemory>
        ensures spare { OnOk result (calls ≤ spare self.new) }
        ensures never_falls { spare self.old ≤ spare self.new }
        ensures tape { tape self.new ≡ tape self.old }
        ensures shape { shape self.new ≡ shape self.old }
        ensures faults { faults self.new ≡ faults self.old };
}
