// The checks that come before any block is read.
ghost use Rattle.std.specs.Prelude.{◌≡◌, ◌<◌};
ghost use Rattle.zc_num.specs.Limits.{total_of};
ghost use Rattle.zc_tree.specs.Reach.{pointers_of_tree};
ghost use Rattle.zc_damage.specs.Census.{IsCensus};
ghost use Rattle.zc_damage.specs.Checks.{early_hit, worn_hit, worn_hit_at, birth_hit, birth_hit_at, log_hit, log_hit_of, HaveAreas, owner_hit, owner_hit_at};
ghost use Rattle.zc_damage.specs.Words.{first_of};

use crate::damage::{hit_at, hit_at_root};
use crate::{Census, DamageKind, Hit};
use zc_blkptr::Ptr;
use zc_num::{Limits, PlaceAt};
use zc_tree::{Dataset, LogState, Parts, Tree};

// The highest number of a group, a dataset or a file that an import takes.
const HIGHEST_NUMBER: u64 = 1 << 62;

/// The first hit among the checks that come before any block is read: of numbers that are too high, of pointers that are too
/// young, of logs, of places with two owners. The census is that of the tree's pointers and of the catalogue's places.
pub fn early_hit(limits: &Limits, parts: &Parts, chain: &[PlaceAt], census: &Census) -> Option<Hit>
    requires areas { HaveAreas parts.now.tree.datasets }
    requires census { IsCensus limits.now.devices limits.now.places (pointers_of_tree parts.now.tree) chain.now census.now }
    ensures { result ≡ early_hit limits.now.devices limits.now.places parts.now chain.now }
{
    if let Some(hit) = worn_hit(&parts.tree) {
        return Some(hit);
    }
    if let Some(hit) = birth_hit(parts.tree.group, census.reach()) {
        return Some(hit);
    }
    if let Some(hit) = log_hit(limits, parts.tree.datasets.as_slice()) {
        return Some(hit);
    }
    owner_hit(census)
}

/// The first number of a tree that goes on rising, its group, its next dataset number or a next file number, above the highest
/// that an import takes.
#[tactic(auto, using(crate::proofs::FirstLaws::first_of_map))]
pub fn worn_hit(tree: &Tree) -> Option<Hit>
    ensures { result ≡ worn_hit tree.now }
{
    if let Some(hit) = worn_hit_at(tree.group, tree.group) {
        return Some(hit);
    }
    if let Some(hit) = worn_hit_at(tree.group, tree.next_dataset) {
        return Some(hit);
    }
    worn_file_hit(tree.group, tree.datasets.as_slice())
}

// The first next file number that is too high.
fn worn_file_hit(group: u64, datasets: &[Dataset]) -> Option<Hit>
    ensures { result ≡ first_of (λ dataset. worn_hit_at group dataset.next_file) datasets.now }
{
    for dataset in datasets {
        if let Some(hit) = worn_hit_at(group, dataset.next_file) {
            return Some(hit);
        }
    }
    None
}

// Whether a number is too high.
fn worn_hit_at(group: u64, number: u64) -> Option<Hit>
    ensures { result ≡ worn_hit_at group number }
{
    if number <= HIGHEST_NUMBER {
        return None;
    }
    Some(hit_at_root(DamageKind::Worn, group, HIGHEST_NUMBER, number))
}

/// The first pointer that came into its file after the root's group.
pub fn birth_hit(group: u64, reach: &[Ptr]) -> Option<Hit>
    ensures { result ≡ birth_hit group reach.now }
{
    for ptr in reach {
        if let Some(hit) = birth_hit_at(group, ptr) {
            return Some(hit);
        }
    }
    None
}

// Whether a pointer came into its file after the root's group.
fn birth_hit_at(group: u64, ptr: &Ptr) -> Option<Hit>
    ensures { result ≡ birth_hit_at group ptr.now }
{
    if ptr.logical <= group {
        return None;
    }
    Some(Hit {
        kind: DamageKind::Birth,
        device: ptr.device,
        place: ptr.place,
        kept: group,
        found: ptr.logical,
    })
}

/// The first dataset with a claimed log, as long as none is read. Each has one of the eight log areas.
pub fn log_hit(limits: &Limits, datasets: &[Dataset]) -> Option<Hit>
    requires { HaveAreas datasets.now }
    ensures { result ≡ log_hit limits.now.devices limits.now.places datasets.now }
{
    for dataset in datasets {
        if let Some(hit) = log_hit_of(limits, dataset) {
            return Some(hit);
        }
    }
    None
}

// Whether a dataset has a claimed log.
fn log_hit_of(limits: &Limits, dataset: &Dataset) -> Option<Hit>
    requires { dataset.now.slot < 8 }
    ensures { result ≡ log_hit_of limits.now.devices limits.now.places dataset.now }
{
    match dataset.log {
        LogState::Normal => None,
        LogState::Claimed { blocks, .. } => Some(Hit {
            kind: DamageKind::Log,
            device: 0,
            place: 4 + dataset.slot * limits.log_places(),
            kept: u64::from(blocks),
            found: 0,
        }),
    }
}

/// The first place with two owners that don't agree: the catalogue and a pointer, or pointers of two blocks.
pub fn owner_hit(census: &Census) -> Option<Hit>
    ensures { result ≡ owner_hit census.now.devices census.now.places census.now.chain census.now.reach }
{
    for number in 0..census.limits().total() {
        if let Some(hit) = owner_hit_at(census, number) {
            return Some(hit);
        }
    }
    None
}

// Whether a place has two owners.
fn owner_hit_at(census: &Census, number: u32) -> Option<Hit>
    requires { number < total_of census.now.devices census.now.places }
    ensures { result ≡ owner_hit_at census.now.places census.now.chain census.now.reach number }
{
    match census.owners(number) {
        None => None,
        Some((kept, found)) => Some(hit_at(
            DamageKind::Owner,
            &census.limits(),
            number,
            kept,
            found,
        )),
    }
}
