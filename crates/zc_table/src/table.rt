// What the store asks of the reference table of a device.
ghost use Rattle.std.specs.Prelude.{◌≡◌, ◌≢◌, ℕ, List, ◌+◌, ◌^◌, ◌<◌, length, slice_index, slice_set, OnOk, OnErr};
ghost use Rattle.zc_table.specs.Counts.{region_at, region_sum, used_of, saved_of};

use crate::Steps;
use std::sync::ledger::Ledger;
use zc_num::NoMemory;

/// The reference table of one device.
pub trait RefTable {
    /// The count of each place, 0 where there is no entry.
    ghost counts: { Self → List ℕ };

    /// Adds `n` to the count of a place.
    ///
    /// # Errors
    /// Want of memory.
    fn add(&mut self, place: u32, n: u32) -> Result<(), NoMemory>
        requires there { place < length (counts self.old) }
        requires some { 0 < n }
        requires fits { region_sum (counts self.old) place + n < 2 ^ 32 }
        ensures added { OnOk result (counts self.new ≡ slice_set (counts self.old) place (slice_index (counts self.old) place + n)) }
        ensures err { OnErr result (counts self.new ≡ counts self.old) };

    /// The count of a place, 0 where it has no entry. One step.
    fn count<L: Ledger>(&self, place: u32, steps: &mut Steps<L>) -> u32
        requires { place < length (counts self.now) }
        ensures value { result ≡ slice_index (counts self.now) place }
        ensures tick { steps.new ≡ steps.old + 1 };

    /// The sum of the counts of the region that a place lies in. No step.
    fn region(&self, place: u32) -> u32
        requires { place < length (counts self.now) }
        ensures { result ≡ region_sum (counts self.now) place };

    /// The number of entries.
    fn used(&self) -> u64
        ensures { result ≡ used_of (counts self.now) };

    /// The sum of all counts.
    fn saved(&self) -> u64
        ensures { result ≡ saved_of (counts self.now) };

    /// The sum of each region is a number of 32 bits.
    ghost regions_fit: { (table : Self) (region : ℕ) → region_at (counts table) region < 2 ^ 32 };
}
