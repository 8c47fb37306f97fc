// The table that bytes spell.
ghost use Rattle.std.specs.Prelude.{◌≡◌, ℕ, List, ◌<◌, ◌/◌, ◌++◌, length, drop, Ok, IfOk};
ghost use Rattle.zc_wire.specs.Fields.{FieldGives, FieldAnswers};
ghost use Rattle.zc_table.specs.declared.stored.StoredTable.{StoredTable};
ghost use Rattle.zc_table.specs.TableBytes.{IsTable, table_bytes, table_field, entry_field, entries_field, counters_field};

use crate::{StoredCount, StoredTable};
use std::alloc::Global;
use zc_num::{Limits, Listed};
use zc_wire::{CatalogFault, FieldFault, rule, u32_field};

/// The table of the device at the front of the bytes, and how many bytes it takes.
///
/// # Errors
/// Want of memory; or no table that a pool of this size may have stands there, with the place of the first field that isn't there
/// whole or breaks a rule.
pub fn read_table(
    alloc: Global,
    bytes: &[u8],
    limits: &Limits,
    device: u32,
) -> Result<(StoredTable, usize), CatalogFault>
    ensures found { IfOk result (λ x. IsTable limits.now.devices limits.now.places device x.0
        × (x.1 ≡ length (table_bytes x.0)) × (bytes.now ≡ table_bytes x.0 ++ drop x.1 bytes.now)) }
    ensures only { (table : StoredTable) (rest : List ℕ) → IsTable limits.now.devices limits.now.places device table
        → bytes.now ≡ table_bytes table ++ rest → FieldAnswers (length bytes.now) result (Ok (table, rest)) }
    ensures exact { FieldAnswers (length bytes.now) result (table_field limits.now.devices limits.now.places device bytes.now) }
{
    table_at_front(alloc, bytes, limits, device)
}

// The same by the read alone.
fn table_at_front(
    alloc: Global,
    bytes: &[u8],
    limits: &Limits,
    device: u32,
) -> Result<(StoredTable, usize), CatalogFault>
    ensures { FieldAnswers (length bytes.now) result (table_field limits.now.devices limits.now.places device bytes.now) }
{
    match table_field(alloc, bytes, limits, device) {
        Ok((table, rest)) => Ok((table, bytes.len() - rest.len())),
        Err(fault) => Err(fault.within(bytes)),
    }
}

/// The table of the device at the front of the bytes, and the bytes after it.
///
/// # Errors
/// Want of memory; or `Bad` at the first field that isn't there whole or breaks a rule.
#[tactic(auto, unfolding(crate::specs::TableBytes::table_field))]
pub fn table_field<'a>(
    alloc: Global,
    bytes: &'a [u8],
    limits: &Limits,
    device: u32,
) -> Result<(StoredTable, &'a [u8]), FieldFault>
    ensures { FieldGives (λ x. (x.0, x.1.now)) result (table_field limits.now.devices limits.now.places device bytes.now) }
{
    let (number, rest) = u32_field(bytes)?;
    let (entries, rest) = entries_of(alloc, limits, device, number, rest)?;
    let (regions, rest) = counters_of(alloc, limits.places() / 64, rest)?;
    Ok((StoredTable { entries, regions }, rest))
}

// So many entries, and the bytes after them.
fn entries_of<'a>(
    alloc: Global,
    limits: &Limits,
    device: u32,
    number: u32,
    bytes: &'a [u8],
) -> Result<(Listed<StoredCount>, &'a [u8]), FieldFault>
    ensures { FieldGives (λ x. (x.0, x.1.now)) result (entries_field limits.now.devices limits.now.places device number 0 bytes.now) }
{
    let mut entries = Listed::new(alloc);
    let mut least = 0;
    let mut rest = bytes;
    for _ in 0..number {
        let (entry, after) = entry_of(limits, device, least, rest)?;
        least = entry.place + 1;
        entries.push(entry)?;
        rest = after;
    }
    Ok((entries, rest))
}

// An entry of a place from `least` on, and the bytes after it.
#[tactic(auto, unfolding(crate::specs::TableBytes::entry_field))]
fn entry_of<'a>(
    limits: &Limits,
    device: u32,
    least: u32,
    bytes: &'a [u8],
) -> Result<(StoredCount, &'a [u8]), FieldFault>
    ensures gives { FieldGives (λ x. (x.0, x.1.now)) result (entry_field limits.now.devices limits.now.places device least bytes.now) }
    ensures below { IfOk result (λ x. x.0.place < limits.now.places) }
{
    let (place, behind) = u32_field(bytes)?;
    let is_next = least <= place && place < limits.places() && !limits.is_fixed(device, place);
    rule(is_next, bytes)?;
    let (count, rest) = u32_field(behind)?;
    rule(0 < count, behind)?;
    let count = u64::from(count);
    Ok((StoredCount { place, count }, rest))
}

// So many counters, and the bytes after them.
fn counters_of<'a>(
    alloc: Global,
    number: u32,
    bytes: &'a [u8],
) -> Result<(Listed<u64>, &'a [u8]), FieldFault>
    ensures { FieldGives (λ x. (x.0, x.1.now)) result (counters_field number bytes.now) }
{
    let mut counters = Listed::new(alloc);
    let mut rest = bytes;
    for _ in 0..number {
        let (counter, after) = u32_field(rest)?;
        counters.push(u64::from(counter))?;
        rest = after;
    }
    Ok((counters, rest))
}
