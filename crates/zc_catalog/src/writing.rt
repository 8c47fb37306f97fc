// The bytes of a catalogue.
ghost use Rattle.std.specs.Prelude.{◌≡◌, ◌++◌, ◌<◌, ◌^◌, length, map, OnOk};
ghost use Rattle.std.specs.List.{flat_map, AllByRecursion};
ghost use Rattle.zc_wire.specs.Numbers.{u32_bytes};
ghost use Rattle.zc_table.specs.Counts.{stored_of};
ghost use Rattle.zc_table.specs.Plain.{counts_of};
ghost use Rattle.zc_table.specs.TableBytes.{table_bytes};
ghost use Rattle.zc_spacemap.specs.MapStates.{states_of};
ghost use Rattle.zc_spacemap.specs.MapBytes.{map_bytes, kept_places};
ghost use Rattle.zc_tree.specs.Spelling.{dataset_bytes, HasDatasetWidths};
ghost use Rattle.zc_tree.specs.Catalogue.{devices_bytes, catalogue_bytes, stored_map, parts_of, HasTreeWidths};

use zc_num::NoMemory;
use zc_spacemap::{BitMap, put_map};
use zc_table::{PlainTable, put_table};
use zc_tree::{Dataset, Tree, put_dataset};
use zc_wire::put_u32;

// Puts the bytes of a catalogue after those of `out`.
#[tactic(auto, unfolding(zc_tree::specs::Catalogue::catalogue_bytes))]
pub fn put_catalogue(
    tree: &Tree,
    tables: &[PlainTable],
    maps: &[BitMap],
    out: &mut Vec<u8>,
) -> Result<(), NoMemory>
    requires tree { HasTreeWidths tree.now }
    requires devices { length tables.now ≡ length maps.now }
    ensures { OnOk result (out.new.items ≡ out.old.items ++ catalogue_bytes (parts_of tree.now (map counts_of tables.now) (map states_of maps.now))) }
{
    put_datasets(tree.datasets.as_slice(), out)?;
    put_devices(tables, maps, out)
}

// Puts the datasets with their number in front.
fn put_datasets(datasets: &[Dataset], out: &mut Vec<u8>) -> Result<(), NoMemory>
    requires few { length datasets.now < 2 ^ 32 }
    requires each { AllByRecursion HasDatasetWidths datasets.now }
    ensures { OnOk result (out.new.items ≡ out.old.items ++ (u32_bytes (length datasets.now) ++ flat_map dataset_bytes datasets.now)) }
{
    put_u32(out, datasets.len() as u32)?;
    for dataset in datasets {
        put_dataset(dataset, out)?;
    }
    Ok(())
}

// Puts for each device its table and its map.
fn put_devices(tables: &[PlainTable], maps: &[BitMap], out: &mut Vec<u8>) -> Result<(), NoMemory>
    requires { length tables.now ≡ length maps.now }
    ensures { OnOk result (out.new.items ≡ out.old.items ++ devices_bytes (map stored_of (map counts_of tables.now)) (map stored_map (map states_of maps.now))) }
{
    for device in 0..tables.len() {
        put_device(&tables[device], &maps[device], out)?;
    }
    Ok(())
}

// Puts the table and the map of a device.
fn put_device(table: &PlainTable, map: &BitMap, out: &mut Vec<u8>) -> Result<(), NoMemory>
    ensures { OnOk result (out.new.items ≡ out.old.items ++ (table_bytes (stored_of (counts_of table.now)) ++ map_bytes (kept_places (states_of map.now)))) }
{
    put_table(table, table.places(), out)?;
    put_map(map, map.places(), out)
}
