// The catalogue that bytes spell.
ghost use Rattle.std.specs.Prelude.{◌≡◌, [], length};
ghost use Rattle.zc_wire.specs.Fields.{FieldGives};
ghost use Rattle.zc_tree.specs.Catalogue.{catalogue_bytes, AreParts};
ghost use Rattle.zc_tree.specs.CatalogueReading.{datasets_field, device_field, devices_field, catalogue_field, AnswersWhole, ReadsWhole};

use std::alloc::Global;
use zc_num::{Limits, Listed};
use zc_spacemap::{StoredMap, map_field};
use zc_table::{StoredTable, table_field};
use zc_tree::{Dataset, Parts, Tree, dataset_field};
use zc_wire::{CatalogFault, FieldFault, rule, u32_field};

// The catalogue that is all of the bytes, by the read alone.
pub fn read_whole(
    alloc: Global,
    bytes: &[u8],
    limits: &Limits,
    group: u64,
    next_dataset: u64,
) -> Result<Parts, CatalogFault>
    ensures { AnswersWhole (length bytes.now) result (catalogue_field limits.now.devices limits.now.places group next_dataset bytes.now) }
{
    match catalogue_field(alloc, bytes, limits, group, next_dataset) {
        Ok(parts) => Ok(parts),
        Err(fault) => Err(fault.within(bytes)),
    }
}

// The catalogue, after which there is nothing.
#[tactic(auto, unfolding(zc_tree::specs::CatalogueReading::catalogue_field))]
fn catalogue_field(
    alloc: Global,
    bytes: &[u8],
    limits: &Limits,
    group: u64,
    next_dataset: u64,
) -> Result<Parts, FieldFault>
    ensures { FieldGives (λ parts. (parts, [])) result (catalogue_field limits.now.devices limits.now.places group next_dataset bytes.now) }
{
    let (number, at_datasets) = u32_field(bytes)?;
    rule(number <= 8, bytes)?;
    let (datasets, at_devices) = datasets_field(
        alloc,
        at_datasets,
        limits,
        group,
        next_dataset,
        number,
    )?;
    let ((tables, maps), rest) = devices_field(alloc, at_devices, limits)?;
    rule(rest.is_empty(), rest)?;
    let tree = Tree {
        group,
        next_dataset,
        datasets,
    };
    Ok(Parts { tree, tables, maps })
}

// So many datasets, each after those before it.
fn datasets_field<'a>(
    alloc: Global,
    bytes: &'a [u8],
    limits: &Limits,
    group: u64,
    next_dataset: u64,
    number: u32,
) -> Result<(Listed<Dataset>, &'a [u8]), FieldFault>
    ensures { FieldGives (λ x. (x.0, x.1.now)) result (datasets_field limits.now.devices limits.now.places group next_dataset number [] bytes.now) }
{
    let mut datasets = Listed::new(alloc);
    let mut rest = bytes;
    for _ in 0..number {
        let (dataset, after) = dataset_field(
            alloc,
            rest,
            limits,
            group,
            next_dataset,
            datasets.as_slice(),
        )?;
        datasets.push(dataset)?;
        rest = after;
    }
    Ok((datasets, rest))
}

// The tables and the maps of all devices.
fn devices_field<'a>(
    alloc: Global,
    bytes: &'a [u8],
    limits: &Limits,
) -> Result<((Listed<StoredTable>, Listed<StoredMap>), &'a [u8]), FieldFault>
    ensures { FieldGives (λ x. ((x.0.0, x.0.1), x.1.now)) result (devices_field limits.now.devices limits.now.places limits.now.devices 0 bytes.now) }
{
    let mut tables = Listed::new(alloc);
    let mut maps = Listed::new(alloc);
    let mut rest = bytes;
    for device in 0..limits.devices() {
        let ((table, map), after) = device_field(alloc, rest, limits, device)?;
        tables.push(table)?;
        maps.push(map)?;
        rest = after;
    }
    Ok(((tables, maps), rest))
}

// The table and the map of a device.
#[tactic(auto, unfolding(zc_tree::specs::CatalogueReading::device_field))]
fn device_field<'a>(
    alloc: Global,
    bytes: &'a [u8],
    limits: &Limits,
    device: u32,
) -> Result<((StoredTable, StoredMap), &'a [u8]), FieldFault>
    ensures { FieldGives (λ x. ((x.0.0, x.0.1), x.1.now)) result (device_field limits.now.devices limits.now.places device bytes.now) }
{
    let (table, at_map) = table_field(alloc, bytes, limits, device)?;
    let (map, rest) = map_field(alloc, at_map, limits.places())?;
    Ok(((table, map), rest))
}
