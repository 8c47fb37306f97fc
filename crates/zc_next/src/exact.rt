// The tables and the maps that a census wants.
ghost use Rattle.std.specs.Prelude.{◌≡◌, ◌+◌, ◌*◌, ◌^◌, ◌<◌, length, map, slice_index, slice_set, OnOk, IfOk};
ghost use Rattle.zc_num.specs.Words.{each};
ghost use Rattle.zc_table.specs.Plain.{counts_of};
ghost use Rattle.zc_table.specs.Counts.{region_sum};
ghost use Rattle.zc_spacemap.specs.MapStates.{states_of};
ghost use Rattle.zc_spacemap.specs.States.{state_of};
ghost use Rattle.zc_damage.specs.Places.{extra_at, is_owned};
ghost use Rattle.zc_next.specs.Exact.{exact_counts, exact_states};

use std::alloc::Global;
use zc_damage::Census;
use zc_num::{Listed, NoMemory};
use zc_spacemap::{BitMap, StoredMap};
use zc_table::{PlainTable, RefTable};

/// For each device the table that has for each place the number of pointers to it less one.
///
/// # Errors
/// Want of memory. For 2^32 pointers or more, whose numbers would not fit, there is never enough.
#[tactic(auto, using(crate::proofs::EachItem::map_none, crate::proofs::EachItem::map_pushed))]
pub fn exact_tables(alloc: Global, census: &Census) -> Result<Listed<PlainTable>, NoMemory>
    ensures { IfOk result (λ tables. map counts_of tables ≡ exact_counts census.now.devices census.now.places census.now.reach) }
{
    if census.reach().len() > u32::MAX as usize {
        return Err(NoMemory);
    }
    let mut tables = Listed::new(alloc);
    for device in 0..census.limits().devices() {
        tables.push(exact_table(alloc, census, device)?)?;
    }
    Ok(tables)
}

/// For each device the map in which a place is allocated where it is owned, and else free.
///
/// # Errors
/// Want of memory.
#[tactic(auto, using(crate::proofs::EachItem::map_none, crate::proofs::EachItem::map_pushed))]
pub fn exact_maps(alloc: Global, census: &Census) -> Result<Listed<BitMap>, NoMemory>
    ensures { IfOk result (λ maps. map states_of maps ≡ exact_states census.now.devices census.now.places census.now.chain census.now.reach) }
{
    let mut maps = Listed::new(alloc);
    for device in 0..census.limits().devices() {
        maps.push(exact_map(alloc, census, device)?)?;
    }
    Ok(maps)
}

// The table of one device.
#[tactic(auto, using(crate::proofs::CountingLaws::none_counted, crate::proofs::CountingLaws::all_counted, crate::proofs::CountingLaws::count_there, crate::proofs::CountingLaws::one_counted, crate::proofs::CountingLaws::room_for))]
fn exact_table(alloc: Global, census: &Census, device: u32) -> Result<PlainTable, NoMemory>
    requires there { device < census.now.devices }
    requires few { length census.now.reach < 2 ^ 32 }
    ensures { IfOk result (λ table. counts_of table ≡ each census.now.places (λ place. extra_at census.now.places census.now.reach (device * census.now.places + place))) }
{
    let places = census.limits().places();
    let mut table = PlainTable::new(alloc, places)?;
    for place in 0..places {
        count_place(census, device, place, &mut table)?;
    }
    Ok(table)
}

// Adds the extra pointers to a place to its count.
fn count_place(
    census: &Census,
    device: u32,
    place: u32,
    table: &mut PlainTable,
) -> Result<(), NoMemory>
    requires device { device < census.now.devices }
    requires place { place < census.now.places }
    requires there { place < length (counts_of table.old) }
    requires fits { region_sum (counts_of table.old) place + extra_at census.now.places census.now.reach (device * census.now.places + place) < 2 ^ 32 }
    ensures { OnOk result (counts_of table.new ≡ slice_set (counts_of table.old) place (slice_index (counts_of table.old) place + extra_at census.now.places census.now.reach (device * census.now.places + place))) }
{
    let number = device * census.limits().places() + place;
    let extra = census.extra(number);
    if extra == 0 {
        return Ok(());
    }
    table.add(place, extra as u32)
}

// The map of one device.
fn exact_map(alloc: Global, census: &Census, device: u32) -> Result<BitMap, NoMemory>
    requires { device < census.now.devices }
    ensures { IfOk result (λ made. states_of made ≡ each census.now.places (λ place. state_of (is_owned census.now.devices census.now.places census.now.chain census.now.reach (device * census.now.places + place)))) }
{
    let owned = owned_places(alloc, census, device)?;
    BitMap::of(alloc, &owned)
}

// For each place of a device whether it is owned.
#[tactic(auto, using(zc_num::proofs::Each::each_none, zc_num::proofs::Each::each_more))]
fn owned_places(alloc: Global, census: &Census, device: u32) -> Result<StoredMap, NoMemory>
    requires { device < census.now.devices }
    ensures { IfOk result (λ stored. stored.allocated ≡ each census.now.places (λ place. is_owned census.now.devices census.now.places census.now.chain census.now.reach (device * census.now.places + place))) }
{
    let places = census.limits().places();
    let mut allocated = Vec::with_capacity(alloc, places as usize)?;
    for place in 0..places {
        let number = device * places + place;
        allocated.push(census.is_owned(number))?;
    }
    Ok(StoredMap {
        allocated: Listed::from_vec(allocated),
    })
}
