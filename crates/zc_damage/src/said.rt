// What the tables and the maps of a catalogue say of places.
ghost use Rattle.std.specs.Prelude.{◌≡◌, ◌+◌, ◌<◌, length, replicate, slice_get, IfOk};
ghost use Rattle.zc_num.specs.Limits.{total_of};
ghost use Rattle.zc_num.specs.Words.{each};
ghost use Rattle.zc_damage.specs.Places.{is_allocated, is_allocated_in, stored_count, stored_counter, counter_of};
ghost use Rattle.zc_damage.specs.Spread.{with_entry, with_entries, with_table, with_tables};

use crate::numbering::{number_of, place_of};
use std::alloc::Global;
use zc_num::{Limits, NoMemory};
use zc_spacemap::StoredMap;
use zc_table::{StoredCount, StoredTable};

// Whether the maps say that the place is allocated.
pub fn is_allocated(limits: &Limits, maps: &[StoredMap], number: u32) -> bool
    ensures { result ≡ is_allocated limits.now.places maps.now number }
{
    let at = place_of(limits, number);
    match maps.get(at.device as usize) {
        None => false,
        Some(stored) => match stored.allocated.get(at.place as usize) {
            None => false,
            Some(bit) => *bit,
        },
    }
}

// The counter that the tables have for the region that begins with the place.
pub fn stored_counter(limits: &Limits, tables: &[StoredTable], number: u32) -> u64
    ensures { result ≡ stored_counter limits.now.places tables.now number }
{
    let at = place_of(limits, number);
    match tables.get(at.device as usize) {
        None => 0,
        Some(table) => match table.regions.get(at.place as usize / 64) {
            None => 0,
            Some(counter) => *counter,
        },
    }
}

// For each place the count that the tables have for it.
#[tactic(auto, using(crate::proofs::SpreadLaws::all_tables, crate::proofs::PlaceNumbers::some_places))]
pub fn stored_counts(
    alloc: Global,
    limits: &Limits,
    tables: &[StoredTable],
) -> Result<Vec<u64>, NoMemory>
    ensures { IfOk result (λ counts. counts.items ≡ each (total_of limits.now.devices limits.now.places) (stored_count limits.now.places tables.now)) }
{
    let mut counts = zeros(alloc, limits.total())?;
    spread_tables(limits, tables, &mut counts);
    Ok(counts)
}

// So many zeros.
fn zeros(alloc: Global, count: u32) -> Result<Vec<u64>, NoMemory>
    ensures { IfOk result (λ numbers. numbers.items ≡ replicate count 0) }
{
    let mut numbers = Vec::with_capacity(alloc, count as usize)?;
    for _ in 0..count {
        numbers.push(0)?;
    }
    Ok(numbers)
}

// Puts the counts of the tables at their places.
#[tactic(auto, using(crate::proofs::SpreadLaws::no_tables, crate::proofs::SpreadLaws::more_tables, crate::proofs::SpreadLaws::table_length, crate::proofs::SpreadLaws::tables_length))]
fn spread_tables(limits: &Limits, tables: &[StoredTable], counts: &mut [u64])
    requires { length counts.old ≡ total_of limits.now.devices limits.now.places }
    ensures { counts.new ≡ with_tables limits.now.places tables.now limits.now.devices counts.old }
{
    for device in 0..limits.devices() {
        spread_table(limits, device, tables, counts);
    }
}

// Puts the counts of a device's table at their places.
fn spread_table(limits: &Limits, device: u32, tables: &[StoredTable], counts: &mut [u64])
    requires there { device < limits.now.devices }
    requires whole { length counts.old ≡ total_of limits.now.devices limits.now.places }
    ensures { counts.new ≡ with_table limits.now.places device (slice_get tables.now device) counts.old }
{
    if let Some(table) = tables.get(device as usize) {
        spread_entries(limits, device, table.entries.as_slice(), counts);
    }
}

// Puts the counts of entries at their places, the last entry first.
fn spread_entries(limits: &Limits, device: u32, entries: &[StoredCount], counts: &mut [u64])
    requires there { device < limits.now.devices }
    requires whole { length counts.old ≡ total_of limits.now.devices limits.now.places }
    ensures { counts.new ≡ with_entries limits.now.places device entries.now counts.old }
{
    let last = entries.len();
    for done in 0..last {
        put_entry(limits, device, &entries[last - 1 - done], counts);
    }
}

// Puts the count of an entry at its place, where the device has it.
fn put_entry(limits: &Limits, device: u32, entry: &StoredCount, counts: &mut [u64])
    requires there { device < limits.now.devices }
    requires whole { length counts.old ≡ total_of limits.now.devices limits.now.places }
    ensures { counts.new ≡ with_entry limits.now.places device entry.now counts.old }
{
    if entry.place < limits.places() {
        counts[number_of(limits, device, entry.place)] = entry.count;
    }
}
