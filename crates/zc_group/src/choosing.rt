// Which places a catalogue takes.
ghost use Rattle.std.specs.Prelude.{◌≡◌, ◌+◌, ◌<◌, ◌∷◌, ◌++◌, ◌&&◌, [], length, map, nat_lt, if◌then◌else◌, IfOk, OnOk};
ghost use Rattle.zc_num.specs.Limits.{total_of};
ghost use Rattle.zc_state.specs.State.{place_at};
ghost use Rattle.zc_group.specs.Chosen.{is_free, free_below, free_places};

use std::alloc::Global;
use zc_damage::Census;
use zc_num::{Listed, NoMemory, PlaceAt};

/// The first places, so many, that the census says nobody owns.
///
/// # Errors
/// Want of memory, and where there are not so many.
pub fn free_places(
    alloc: Global,
    census: &Census,
    count: usize,
) -> Result<Listed<PlaceAt>, NoMemory>
    ensures first { IfOk result (λ chain. chain ≡ free_places census.now.devices census.now.places census.now.chain census.now.reach count) }
    ensures all { IfOk result (λ chain. length chain ≡ count) }
{
    let chosen = choose(alloc, census, count)?;
    if chosen.len() == count {
        Ok(chosen)
    } else {
        Err(NoMemory)
    }
}

// The first places that nobody owns, at most so many.
#[tactic(auto, using(crate::proofs::ChosenLaws::none_chosen))]
fn choose(alloc: Global, census: &Census, count: usize) -> Result<Listed<PlaceAt>, NoMemory>
    ensures { IfOk result (λ chain. chain ≡ free_places census.now.devices census.now.places census.now.chain census.now.reach count) }
{
    let mut chosen = Listed::new(alloc);
    for number in 0..census.limits().total() {
        choose_next(census, count, number, &mut chosen)?;
    }
    Ok(chosen)
}

// Takes the place with this number too, if nobody owns it and too few are chosen.
#[tactic(auto, using(crate::proofs::ChosenLaws::one_chosen, crate::proofs::ChosenLaws::enough_chosen, crate::proofs::ChosenLaws::owned_left))]
fn choose_next(
    census: &Census,
    count: usize,
    number: u32,
    chosen: &mut Listed<PlaceAt>,
) -> Result<(), NoMemory>
    requires there { number < total_of census.now.devices census.now.places }
    requires so_far { chosen.old ≡ map (place_at census.now.places) (free_below census.now.devices census.now.places census.now.chain census.now.reach count number) }
    ensures { OnOk result (chosen.new ≡ map (place_at census.now.places) (free_below census.now.devices census.now.places census.now.chain census.now.reach count (number + 1))) }
{
    if chosen.len() == count || census.is_owned(number) {
        return Ok(());
    }
    let places = census.limits().places();
    chosen.push(PlaceAt {
        device: number / places,
        place: number % places,
    })
}
