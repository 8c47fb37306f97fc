// The checks that come once all blocks are read.
ghost use Rattle.std.specs.Prelude.{◌≡◌, ◌+◌, ◌*◌, ◌^◌, ◌<◌, ◌≤◌, IfOk};
ghost use Rattle.std.specs.List.Sorted.{IsStrictlyIncreasing};
ghost use Rattle.zc_num.specs.Limits.{total_of};
ghost use Rattle.zc_tree.specs.Reach.{pointers_of_tree};
ghost use Rattle.zc_damage.specs.Census.{IsCensus};
ghost use Rattle.zc_damage.specs.Places.{numbers_of, bytes_in, extra_at};
ghost use Rattle.zc_damage.specs.Checks.{late_hit, count_hit, count_hit_with, region_hit, region_hit_at, region_extra, map_hit, map_hit_at, reached_places, charge_hit};

use crate::damage::{hit_at, hit_at_root};
use crate::said::{is_allocated, stored_counter, stored_counts};
use crate::tails::tail_hit;
use crate::{Census, DamageKind, FoundBlock, Hit};
use std::alloc::Global;
use zc_num::{Limits, NoMemory, PlaceAt};
use zc_spacemap::StoredMap;
use zc_table::StoredTable;
use zc_tree::Parts;

/// The first hit among the checks that come once all blocks are read and have their digests: of bytes after the size of a file,
/// of counts, of the counters of regions, of maps, of the number of places with blocks. The census is that of the tree's pointers
/// and of the catalogue's places; the blocks ascend by the numbers of their places.
///
/// # Errors
/// Want of memory.
pub fn late_hit(
    alloc: Global,
    limits: &Limits,
    parts: &Parts,
    chain: &[PlaceAt],
    blocks: &[FoundBlock],
    census: &Census,
) -> Result<Option<Hit>, NoMemory>
    requires ascending { IsStrictlyIncreasing (numbers_of limits.now.places blocks.now) }
    requires census { IsCensus limits.now.devices limits.now.places (pointers_of_tree parts.now.tree) chain.now census.now }
    ensures { IfOk result (λ hit. hit ≡ late_hit limits.now.devices limits.now.places parts.now chain.now (bytes_in blocks.now)) }
{
    if let Some(hit) = tail_hit(limits, parts.tree.datasets.as_slice(), blocks) {
        return Ok(Some(hit));
    }
    if let Some(hit) = count_hit(alloc, parts.tables.as_slice(), census)? {
        return Ok(Some(hit));
    }
    if let Some(hit) = region_hit(parts.tables.as_slice(), census) {
        return Ok(Some(hit));
    }
    if let Some(hit) = map_hit(parts.maps.as_slice(), census) {
        return Ok(Some(hit));
    }
    Ok(charge_hit(parts.tree.group, census))
}

/// The first place whose count isn't the number of pointers to it less one.
///
/// # Errors
/// Want of memory.
pub fn count_hit(
    alloc: Global,
    tables: &[StoredTable],
    census: &Census,
) -> Result<Option<Hit>, NoMemory>
    ensures { IfOk result (λ hit. hit ≡ count_hit census.now.devices census.now.places tables.now census.now.reach) }
{
    let limits = census.limits();
    let counts = stored_counts(alloc, &limits, tables)?;
    for number in 0..limits.total() {
        if let Some(hit) = count_hit_with(census, number, counts[number as usize]) {
            return Ok(Some(hit));
        }
    }
    Ok(None)
}

// Whether a count isn't that of the place.
fn count_hit_with(census: &Census, number: u32, kept: u64) -> Option<Hit>
    requires { number < total_of census.now.devices census.now.places }
    ensures { result ≡ count_hit_with census.now.places number kept (extra_at census.now.places census.now.reach number) }
{
    let found = census.extra(number);
    if kept == found {
        return None;
    }
    Some(hit_at(DamageKind::Count, &census.limits(), number, kept, found))
}

/// The first region whose counter isn't the sum over its places of the pointers to each less one.
pub fn region_hit(tables: &[StoredTable], census: &Census) -> Option<Hit>
    ensures { result ≡ region_hit census.now.devices census.now.places tables.now census.now.reach }
{
    for region in 0..census.limits().total() / 64 {
        if let Some(hit) = region_hit_at(tables, census, region) {
            return Some(hit);
        }
    }
    None
}

// Whether a region's counter isn't the sum.
fn region_hit_at(tables: &[StoredTable], census: &Census, region: u32) -> Option<Hit>
    requires { 64 * region + 64 ≤ total_of census.now.devices census.now.places }
    ensures { result ≡ region_hit_at census.now.places tables.now census.now.reach region }
{
    let limits = census.limits();
    let kept = stored_counter(&limits, tables, 64 * region);
    let found = region_extra(census, region);
    if kept == found {
        return None;
    }
    Some(hit_at(DamageKind::Region, &limits, 64 * region, kept, found))
}

// The sum over a region's places of the pointers to each less one.
#[tactic(auto, using(crate::proofs::SumLaws::sum_none, crate::proofs::SumLaws::sum_more))]
fn region_extra(census: &Census, region: u32) -> u64
    requires there { 64 * region + 64 ≤ total_of census.now.devices census.now.places }
    requires fits { 64 * region + 64 < 2 ^ 32 }
    ensures { result ≡ region_extra census.now.places census.now.reach region }
{
    let mut sum = 0;
    for k in 0..64 {
        sum += census.extra(64 * region + k);
    }
    sum
}

/// The first place that is allocated and not owned, or owned and not allocated.
pub fn map_hit(maps: &[StoredMap], census: &Census) -> Option<Hit>
    ensures { result ≡ map_hit census.now.devices census.now.places maps.now census.now.chain census.now.reach }
{
    for number in 0..census.limits().total() {
        if let Some(hit) = map_hit_at(maps, census, number) {
            return Some(hit);
        }
    }
    None
}

// Whether a place is allocated and not owned, or owned and not allocated.
fn map_hit_at(maps: &[StoredMap], census: &Census, number: u32) -> Option<Hit>
    requires { number < total_of census.now.devices census.now.places }
    ensures { result ≡ map_hit_at census.now.devices census.now.places maps.now census.now.chain census.now.reach number }
{
    let limits = census.limits();
    let kept = u64::from(is_allocated(&limits, maps, number));
    let found = u64::from(census.is_owned(number));
    if kept == found {
        return None;
    }
    Some(hit_at(DamageKind::Map, &limits, number, kept, found))
}

/// Whether more places have blocks than the pool has for data.
pub fn charge_hit(group: u64, census: &Census) -> Option<Hit>
    ensures { result ≡ charge_hit census.now.devices census.now.places group census.now.reach }
{
    let kept = u64::from(census.limits().data_places());
    let found = u64::from(reached_places(census));
    if found <= kept {
        return None;
    }
    Some(hit_at_root(DamageKind::Charge, group, kept, found))
}

// How many places there are pointers to.
#[tactic(auto, using(crate::proofs::SumLaws::count_more))]
fn reached_places(census: &Census) -> u32
    ensures { result ≡ reached_places census.now.devices census.now.places census.now.reach }
{
    let mut reached = 0;
    for number in 0..census.limits().total() {
        if census.is_reached(number) {
            reached += 1;
        }
    }
    reached
}
