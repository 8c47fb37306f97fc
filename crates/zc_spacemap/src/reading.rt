// The map that bytes spell.
ghost use Rattle.std.specs.Prelude.{◌≡◌, ℕ, ◌*◌, ◌/◌, ◌%◌, ◌<◌, ◌≤◌, List, Bool, ◌++◌, length, IfOk};
ghost use Rattle.zc_wire.specs.Fields.{FieldGives, FieldAnswers};
ghost use Rattle.zc_spacemap.specs.declared.stored.StoredMap.{StoredMap};
ghost use Rattle.zc_spacemap.specs.MapBytes.{map_bytes, map_of, map_field, is_marked, IsRead};

use crate::StoredMap;
use std::alloc::Global;
use zc_num::{Listed, NoMemory};
use zc_wire::{CatalogFault, FieldFault, bytes_field};

/// The map of so many places that stands at the front of the bytes, and how many bytes it takes.
///
/// # Errors
/// `BadCatalog` at 0 exactly where there are fewer bytes than an eighth of the places; want of memory.
pub fn read_map(
    alloc: Global,
    bytes: &[u8],
    places: u32,
) -> Result<(StoredMap, usize), CatalogFault>
    requires { places % 128 ≡ 0 }
    ensures answers { FieldAnswers (length bytes.now) result (map_field places bytes.now) }
    ensures found { IfOk result (λ read. (length read.0.allocated ≡ places) × (read.1 ≡ places / 8)
        × ((rest : List ℕ) × (bytes.now ≡ map_bytes read.0.allocated ++ rest))) }
    ensures only { (stored : StoredMap) → (rest : List ℕ) → length stored.allocated ≡ places
        → bytes.now ≡ map_bytes stored.allocated ++ rest → IsRead (stored, places / 8) result }
{
    match map_field(alloc, bytes, places) {
        Ok((stored, rest)) => Ok((stored, bytes.len() - rest.len())),
        Err(fault) => Err(fault.within(bytes)),
    }
}

/// The map of so many places at the front of the bytes, and the bytes after it.
///
/// # Errors
/// Want of memory; or `Bad` at the front where there are fewer bytes than an eighth of the places.
#[tactic(auto, unfolding(crate::specs::MapBytes::map_field))]
pub fn map_field<'a>(
    alloc: Global,
    bytes: &'a [u8],
    places: u32,
) -> Result<(StoredMap, &'a [u8]), FieldFault>
    requires { places % 128 ≡ 0 }
    ensures { FieldGives (λ x. (x.0, x.1.now)) result (map_field places bytes.now) }
{
    let (front, rest) = bytes_field(bytes, places as usize / 8)?;
    let stored = map_of(alloc, front, places)?;
    Ok((stored, rest))
}

// The map of so many places whose bytes these are.
#[tactic(auto, using(zc_num::proofs::Each::each_none, zc_num::proofs::Each::each_more), unfolding(crate::specs::MapBytes::map_of))]
fn map_of(alloc: Global, bytes: &[u8], places: u32) -> Result<StoredMap, NoMemory>
    requires { places ≤ 8 * length bytes.now }
    ensures { IfOk result (λ stored. stored ≡ map_of places bytes.now) }
{
    let mut allocated = Vec::with_capacity(alloc, places as usize)?;
    for place in 0..places {
        allocated.push(is_marked(bytes, place))?;
    }
    Ok(StoredMap {
        allocated: Listed::from_vec(allocated),
    })
}

// Whether the bytes say that the place is allocated.
fn is_marked(bytes: &[u8], place: u32) -> bool
    requires { place / 8 < length bytes.now }
    ensures { result ≡ is_marked bytes.now place }
{
    bytes[place as usize / 8] >> (place % 8) & 1 == 1
}
