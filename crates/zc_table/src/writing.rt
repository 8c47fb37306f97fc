// The bytes of a table.
ghost use Rattle.std.specs.Prelude.{◌≡◌, ◌≤◌, ◌*◌, ◌-◌, ◌<◌, ◌++◌, length, take, drop, OnOk, OnErr};
ghost use Rattle.std.specs.List.{flat_map};
ghost use Rattle.zc_wire.specs.Numbers.{u32_bytes};
ghost use Rattle.zc_table.specs.Counts.{region_count, regions_of, entries_from, entries_in, stored_of};
ghost use Rattle.zc_table.specs.Growing.{Extends};
ghost use Rattle.zc_table.specs.TableBytes.{entry_bytes, table_bytes};

use crate::{RefTable, Steps};
use std::marker::Brand;
use std::sync::ledger::{Blank, Ledger};
use zc_num::NoMemory;
use zc_wire::put_u32;

/// Puts the bytes of the table of a device of so many places after those of `out`.
///
/// A region without an entry costs no look-up.
///
/// # Errors
/// Want of memory.
pub fn put_table<T: RefTable>(table: &T, places: u32, out: &mut Vec<u8>) -> Result<(), NoMemory>
    requires { places ≡ length (T.counts table.now) }
    ensures put { OnOk result (out.new.items ≡ out.old.items ++ table_bytes (stored_of (T.counts table.now))) }
    ensures unchanged { OnErr result (out.new.items ≡ out.old.items) }
{
    let before = out.len();
    let put = put_parts::<T, Brand>(table, places, Blank::new(1), out);
    if put.is_err() {
        out.truncate(before);
    }
    put
}

// Puts the number of entries, the entries and the counters, with a counter of steps of its own.
#[tactic(auto, unfolding(crate::specs::TableBytes::table_bytes))]
fn put_parts<T: RefTable, L: Ledger>(
    table: &T,
    places: u32,
    blank: Blank,
    out: &mut Vec<u8>,
) -> Result<(), NoMemory>
    requires places { places ≡ length (T.counts table.now) }
    requires name { blank.name ≡ L.name }
    requires parts { blank.parts ≡ L.parts }
    requires some { 0 < blank.parts }
    ensures put { OnOk result (out.new.items ≡ out.old.items ++ table_bytes (stored_of (T.counts table.now))) }
    ensures kept { OnErr result (Extends out.old.items out.new.items) }
{
    let mut steps = Steps::<L>::new(blank);
    put_u32(out, table.used() as u32)?;
    put_entries(table, places, &mut steps, out)?;
    put_counters(table, places, out)
}

// Puts the entries, region by region.
fn put_entries<T: RefTable, L: Ledger>(
    table: &T,
    places: u32,
    steps: &mut Steps<L>,
    out: &mut Vec<u8>,
) -> Result<(), NoMemory>
    requires { places ≡ length (T.counts table.now) }
    ensures put { OnOk result (out.new.items ≡ out.old.items ++ flat_map entry_bytes (entries_from 0 (T.counts table.now))) }
    ensures kept { OnErr result (Extends out.old.items out.new.items) }
{
    for region in 0..places.div_ceil(64) {
        put_region(table, places, region, steps, out)?;
    }
    Ok(())
}

// Puts the entries of a region.
fn put_region<T: RefTable, L: Ledger>(
    table: &T,
    places: u32,
    region: u32,
    steps: &mut Steps<L>,
    out: &mut Vec<u8>,
) -> Result<(), NoMemory>
    requires places { places ≡ length (T.counts table.now) }
    requires there { region < region_count places }
    ensures put { OnOk result (out.new.items ≡ out.old.items ++ flat_map entry_bytes (entries_in (T.counts table.now) (64 * region) 64)) }
    ensures kept { OnErr result (Extends out.old.items out.new.items) }
{
    let first = 64 * region;
    if table.region(first) == 0 {
        return Ok(());
    }
    let last = first + (places - first).min(64);
    for place in first..last {
        put_entry(table, place, steps, out)?;
    }
    Ok(())
}

// Puts the entry of a place, where it has one.
#[tactic(auto, unfolding(crate::specs::TableBytes::entry_bytes, crate::specs::Counts::entries_from))]
fn put_entry<T: RefTable, L: Ledger>(
    table: &T,
    place: u32,
    steps: &mut Steps<L>,
    out: &mut Vec<u8>,
) -> Result<(), NoMemory>
    requires { place < length (T.counts table.now) }
    ensures put { OnOk result (out.new.items ≡ out.old.items ++ flat_map entry_bytes (entries_in (T.counts table.now) place 1)) }
    ensures kept { OnErr result (Extends out.old.items out.new.items) }
{
    let count = table.count(place, steps);
    if count == 0 {
        return Ok(());
    }
    put_u32(out, place)?;
    put_u32(out, count)
}

// Puts the counter of each region.
fn put_counters<T: RefTable>(table: &T, places: u32, out: &mut Vec<u8>) -> Result<(), NoMemory>
    requires { places ≡ length (T.counts table.now) }
    ensures put { OnOk result (out.new.items ≡ out.old.items ++ flat_map u32_bytes (regions_of (T.counts table.now))) }
    ensures kept { OnErr result (Extends out.old.items out.new.items) }
{
    for region in 0..places.div_ceil(64) {
        put_u32(out, table.region(64 * region))?;
    }
    Ok(())
}
