// The calls of a disk set in memory.
ghost use Rattle.std.specs.Prelude.{◌≡◌, ◌+◌, ◌-◌, ◌^◌, ◌<◌, ◌≤◌, ◌↔◌, true, false, min, IsTrue, IsErr, OnOk, OnErr, is_ok};
ghost use Rattle.std.specs.List.{Contains};
ghost use Rattle.zc_tape.specs.Blocks.{made_of, is_there};
ghost use Rattle.zc_tape.specs.Cause.{HasCause};
ghost use Rattle.zc_tape.specs.Crash.{reads, is_spoilt};
ghost use Rattle.zc_tape.specs.Memory.{shape_of, faults_of, spare_of, tape_of, failing_of, asked_of};
ghost use Rattle.zc_tape.specs.Tape.{Write, Sync, Appends, push};

use super::MemoryDisks;
use crate::blocks::{get_block, replay_entry};
use crate::disks::{DiskSet, Failed};
use crate::entry::Entry;
use zc_num::NoMemory;

impl MemoryDisks {
    /// Puts an entry at the end of the tape, and its bytes into their place where it is Ok.
    #[tactic(auto, using(crate::proofs::Replay::now_push, crate::proofs::Replay::there_push))]
    fn append(&mut self, entry: Entry)
        requires there { is_there (shape_of self.old).devices (shape_of self.old).places entry ≡ true }
        requires room { 0 < spare_of self.old }
        ensures tape { tape_of self.new ≡ push (tape_of self.old) (made_of entry).call (made_of entry).ok }
        ensures shape { shape_of self.new ≡ shape_of self.old }
        ensures spare { spare_of self.old ≡ spare_of self.new + 1 }
        ensures faults { faults_of self.new ≡ faults_of self.old }
        ensures asked { asked_of self.new ≡ asked_of self.old }
        ensures failing { failing_of self.new ≡ failing_of self.old }
    {
        replay_entry(&mut self.current, self.devices, self.places, &entry);
        self.entries.push_reserved(entry);
    }
}

impl DiskSet for MemoryDisks {
    ghost shape = { shape_of };

    ghost faults = { faults_of };

    ghost spare = { spare_of };

    ghost tape = { tape_of };

    fn devices(&self) -> u32 {
        self.devices
    }

    fn places(&self) -> u32 {
        self.places
    }

    fn read(&mut self, device: u32, place: u32, out: &mut [u8; 4096]) -> Result<(), Failed>
        requires device_there { device < (shape_of self.old).devices }
        requires place_there { place < (shape_of self.old).places }
        ensures exact { IsErr result ↔ Contains (failing_of self.old) (asked_of self.old + 1) }
        ensures asked { asked_of self.new ≡ min (asked_of self.old + 1) (2 ^ 64 - 1) }
        ensures failing { failing_of self.new ≡ failing_of self.old }
        ensures there { OnOk result (out.new ≡ reads (tape_of self.old) device place) }
        ensures bytes { OnOk result (IsTrue (tape_of self.old).told
            → is_spoilt (tape_of self.old) device place ≡ false
            → out.new ≡ reads (tape_of self.old) device place) }
        ensures tape { tape_of self.new ≡ tape_of self.old }
        ensures shape { shape_of self.new ≡ shape_of self.old }
        ensures spare { spare_of self.new ≡ spare_of self.old }
        ensures cause { HasCause (faults_of self.old) (faults_of self.new) result }
    {
        match self.count() {
            Ok(()) => {
                *out = *get_block(&self.current, self.devices, self.places, device, place);
                Ok(())
            }
            Err(Failed) => Err(Failed),
        }
    }

    fn write(&mut self, device: u32, place: u32, bytes: &[u8; 4096]) -> Result<(), Failed>
        requires device_there { device < (shape_of self.old).devices }
        requires place_there { place < (shape_of self.old).places }
        requires room_left { 0 < spare_of self.old }
        ensures exact { IsErr result ↔ Contains (failing_of self.old) (asked_of self.old + 1) }
        ensures asked { asked_of self.new ≡ min (asked_of self.old + 1) (2 ^ 64 - 1) }
        ensures failing { failing_of self.new ≡ failing_of self.old }
        ensures told { (tape_of self.new).told ≡ (tape_of self.old).told }
        ensures tape { Appends (tape_of self.old) (tape_of self.new) (Write device place bytes.now) (is_ok result) }
        ensures shape { shape_of self.new ≡ shape_of self.old }
        ensures room { spare_of self.old ≡ spare_of self.new + 1 }
        ensures spare { OnOk result (spare_of self.old ≤ spare_of self.new + 1) }
        ensures cause { HasCause (faults_of self.old) (faults_of self.new) result }
    {
        let result = self.count();
        self.append(Entry::Wrote {
            device,
            place,
            bytes: *bytes,
            ok: result.is_ok(),
        });
        result
    }

    fn sync(&mut self) -> Result<(), Failed>
        requires room_left { 0 < spare_of self.old }
        ensures exact { IsErr result ↔ Contains (failing_of self.old) (asked_of self.old + 1) }
        ensures asked { asked_of self.new ≡ min (asked_of self.old + 1) (2 ^ 64 - 1) }
        ensures failing { failing_of self.new ≡ failing_of self.old }
        ensures told { (tape_of self.new).told ≡ (tape_of self.old).told }
        ensures tape { Appends (tape_of self.old) (tape_of self.new) Sync (is_ok result) }
        ensures shape { shape_of self.new ≡ shape_of self.old }
        ensures room { spare_of self.old ≡ spare_of self.new + 1 }
        ensures spare { OnOk result (spare_of self.old ≤ spare_of self.new + 1) }
        ensures cause { HasCause (faults_of self.old) (faults_of self.new) result }
    {
        let result = self.count();
        self.append(Entry::Synced { ok: result.is_ok() });
        result
    }

    fn ready(&mut self, calls: u64) -> Result<(), NoMemory>
        ensures asked { asked_of self.new ≡ asked_of self.old }
        ensures failing { failing_of self.new ≡ failing_of self.old }
        ensures spare { OnOk result (calls ≤ spare_of self.new) }
        ensures never_falls { spare_of self.old ≤ spare_of self.new }
        ensures tape { tape_of self.new ≡ tape_of self.old }
        ensures shape { shape_of self.new ≡ shape_of self.old }
        ensures faults { faults_of self.new ≡ faults_of self.old }
    {
        self.entries.reserve(calls as usize)
    }
}
