// The bytes of a map.
ghost use Rattle.std.specs.Prelude.{◌≡◌, ◌+◌, ◌^◌, ◌<◌, ◌≤◌, ◌++◌, false, length, take, drop, slice_index_or, OnOk, OnErr};
ghost use Rattle.zc_spacemap.specs.MapBytes.{number_of, map_bytes, kept_places};

use crate::SpaceMap;
use zc_num::NoMemory;

/// Puts the bytes of a map of so many places after those of `out`, as the map will be once it is settled: one bit a place.
///
/// # Errors
/// Want of memory; `out` is then as it was.
#[tactic(auto, unfolding(crate::specs::MapBytes::map_bytes))]
pub fn put_map<M: SpaceMap>(map: &M, places: u32, out: &mut Vec<u8>) -> Result<(), NoMemory>
    requires { places ≡ length (M.states map.now) }
    ensures put { OnOk result (out.new.items ≡ out.old.items ++ map_bytes (kept_places (M.states map.now))) }
    ensures unchanged { OnErr result (out.new.items ≡ out.old.items) }
{
    out.reserve(places as usize / 8)?;
    for index in 0..places / 8 {
        out.push_reserved(byte_at(map, 8 * index));
    }
    Ok(())
}

// The byte of the eight places from `from` on.
fn byte_at<M: SpaceMap>(map: &M, from: u32) -> u8
    requires there { from + 8 ≤ length (M.states map.now) }
    requires fits { from + 8 < 2 ^ 32 }
    ensures { result ≡ number_of (take 8 (drop from (kept_places (M.states map.now)))) }
{
    let mut byte = 0;
    for bit in 0..8 {
        if is_kept(map, from + bit) {
            byte += 1 << bit;
        }
    }
    byte
}

// Whether a place stays allocated once the map is settled.
fn is_kept<M: SpaceMap>(map: &M, place: u32) -> bool
    requires { place < length (M.states map.now) }
    ensures { result ≡ slice_index_or (kept_places (M.states map.now)) place false }
{
    map.is_allocated(place) && !map.is_given(place)
}
