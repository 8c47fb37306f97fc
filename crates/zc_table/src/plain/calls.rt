// The calls of a plain table.
ghost use Rattle.std.specs.Prelude.{◌≡◌, ◌+◌, ◌^◌, ◌<◌, length, replicate, slice_index, slice_set, IfOk};
ghost use Rattle.zc_table.specs.Plain.{counts_of, entries_made};

use super::PlainTable;
use crate::{RefTable, Steps};
use std::alloc::Global;
use std::sync::ledger::Ledger;
use zc_num::NoMemory;

impl PlainTable {
    /// A table of a device of so many places, without an entry.
    ///
    /// # Errors
    /// Want of memory.
    #[tactic(auto, using(crate::proofs::RegionLaws::zeros))]
    pub fn new(alloc: Global, places: u32) -> Result<PlainTable, NoMemory>
        ensures { IfOk result (λ table. counts_of table ≡ replicate places 0) }
    {
        Ok(PlainTable {
            counts: zeros(alloc, places as usize)?,
            regions: zeros(alloc, (places as usize).div_ceil(64))?,
            used: 0,
            saved: 0,
        })
    }

    /// The number of places of its device.
    pub fn places(&self) -> u32
        ensures { result ≡ length (counts_of self.now) }
    {
        self.counts.len() as u32
    }
}

// That many zeros.
fn zeros(alloc: Global, count: usize) -> Result<Vec<u32>, NoMemory>
    ensures { IfOk result (λ numbers. numbers.items ≡ replicate count 0) }
{
    let mut numbers = Vec::with_capacity(alloc, count)?;
    let zero: u32 = 0;
    for _ in 0..count {
        numbers.push(zero)?;
    }
    Ok(numbers)
}

// Adds `n` to a number.
fn raise(numbers: &mut Vec<u32>, index: usize, n: u32)
    requires there { index < length numbers.old.items }
    requires fits { slice_index numbers.old.items index + n < 2 ^ 32 }
    ensures { numbers.new.items ≡ slice_set numbers.old.items index (slice_index numbers.old.items index + n) }
{
    let number = numbers[index];
    numbers[index] = number + n;
}

// How many entries an addition to this count makes: one where there was none.
fn new_entries(count: u32) -> u64
    ensures { result ≡ entries_made count }
{
    if count == 0 { 1 } else { 0 }
}

impl RefTable for PlainTable {
    ghost counts = { counts_of };

    #[tactic(auto, using(crate::proofs::RegionLaws::changes))]
    fn add(&mut self, place: u32, n: u32) -> Result<(), NoMemory> {
        let PlainTable {
            counts,
            regions,
            used,
            saved,
        } = self;
        let place = place as usize;
        *used += new_entries(counts[place]);
        raise(counts, place, n);
        raise(regions, place / 64, n);
        *saved += u64::from(n);
        Ok(())
    }

    fn count<L: Ledger>(&self, place: u32, steps: &mut Steps<L>) -> u32 {
        steps.tick();
        self.counts[place as usize]
    }

    #[tactic(auto, using(crate::proofs::RegionLaws::place_in_region, crate::proofs::RegionLaws::region_of_place))]
    fn region(&self, place: u32) -> u32 {
        self.regions[place as usize / 64]
    }

    fn used(&self) -> u64 {
        self.used
    }

    fn saved(&self) -> u64 {
        self.saved
    }

    ghost regions_fit = { λ table region. table.fit region };
}
