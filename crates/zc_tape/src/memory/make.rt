// How a disk set in memory is made, and made anew.
ghost use Rattle.std.specs.Prelude.{◌≡◌, ◌<◌, ◌≤◌, true, [], length, IfOk};
ghost use Rattle.zc_tape.specs.Blocks.{zeros};
ghost use Rattle.zc_tape.specs.Crash.{reads};
ghost use Rattle.zc_tape.specs.Memory.{shape_of, faults_of, spare_of, tape_of, failing_of, asked_of};
ghost use Rattle.zc_tape.specs.Tape.{filled_with, with_bytes};

use super::MemoryDisks;
use crate::blocks::{replay, set_block, zero_blocks};
use std::alloc::Global;
use zc_num::NoMemory;

impl MemoryDisks {
    /// A set of devices with zero bytes everywhere.
    ///
    /// `failing` numbers the calls that are to fail: reads, writes and syncs together, counted from 1.
    ///
    /// # Errors
    /// Want of memory.
    #[tactic(auto, using(crate::proofs::Images::image_zeros))]
    pub fn new(
        alloc: Global,
        devices: u32,
        places: u32,
        failing: &[u64],
    ) -> Result<MemoryDisks, NoMemory>
        ensures shape { IfOk result (λ m. shape_of m ≡ record { devices = devices; places = places }) }
        ensures tape { IfOk result (λ m. tape_of m ≡ record { told = true; start = filled_with zeros; calls = [] }) }
        ensures faults { IfOk result (λ m. faults_of m ≡ 0) }
        ensures asked { IfOk result (λ m. asked_of m ≡ 0) }
        ensures failing { IfOk result (λ m. failing_of m ≡ failing.now) }
    {
        let count = devices as usize * places as usize;
        Ok(MemoryDisks {
            devices,
            places,
            start: zero_blocks(alloc, count)?,
            current: zero_blocks(alloc, count)?,
            entries: Vec::new(alloc),
            failing: Vec::from_slice(alloc, failing)?,
            asked: 0,
            faults: 0,
        })
    }

    /// Sets the bytes of a place before the first write or sync.
    pub fn put(&mut self, device: u32, place: u32, bytes: &[u8; 4096])
        requires device_there { device < (shape_of self.old).devices }
        requires place_there { place < (shape_of self.old).places }
        requires empty { (tape_of self.old).calls ≡ [] }
        ensures tape { tape_of self.new ≡ record (tape_of self.old) { start = with_bytes (tape_of self.old).start device place bytes.now } }
        ensures shape { shape_of self.new ≡ shape_of self.old }
        ensures faults { faults_of self.new ≡ faults_of self.old }
        ensures spare { spare_of self.new ≡ spare_of self.old }
        ensures asked { asked_of self.new ≡ asked_of self.old }
        ensures failing { failing_of self.new ≡ failing_of self.old }
    {
        set_block(
            &mut self.start,
            self.devices,
            self.places,
            device,
            place,
            bytes,
        );
        set_block(
            &mut self.current,
            self.devices,
            self.places,
            device,
            place,
            bytes,
        );
    }

    /// How many writes and syncs there have been.
    pub fn calls(&self) -> u64
        ensures { result ≡ length (tape_of self.now).calls }
    {
        self.entries.len() as u64
    }

    /// The set with its bytes as they read, an empty tape, no failing calls, and no faults. It takes no memory.
    pub fn fresh(self) -> MemoryDisks
        ensures tape { tape_of result ≡ record { told = true; start = reads (tape_of self); calls = [] } }
        ensures shape { shape_of result ≡ shape_of self }
        ensures faults { faults_of result ≡ 0 }
        ensures spare { spare_of self ≤ spare_of result }
        ensures asked { asked_of result ≡ 0 }
        ensures failing { failing_of result ≡ [] }
    {
        let MemoryDisks {
            devices,
            places,
            mut start,
            current,
            mut entries,
            mut failing,
            ..
        } = self;
        replay(&mut start, devices, places, &entries);
        entries.clear();
        failing.clear();
        MemoryDisks {
            devices,
            places,
            start,
            current,
            entries,
            failing,
            asked: 0,
            faults: 0,
        }
    }

    /// The set with its count of faults at 0.
    pub fn forget_faults(mut self) -> MemoryDisks
        ensures faults { faults_of result ≡ 0 }
        ensures tape { tape_of result ≡ tape_of self }
        ensures shape { shape_of result ≡ shape_of self }
        ensures spare { spare_of result ≡ spare_of self }
        ensures asked { asked_of result ≡ asked_of self }
        ensures failing { failing_of result ≡ failing_of self }
    {
        self.faults = 0;
        self
    }
}
