// A map that keeps one state a place.
ghost use Rattle.std.specs.Prelude.{◌≡◌, true, length, nat_lt, position};
ghost use Rattle.std.specs.List.{list_all};
ghost use Rattle.zc_spacemap.specs.Sound.{IsSound, freed};
ghost use Rattle.zc_spacemap.specs.States.{is_free};

use crate::{PlaceState, SpaceMap, StoredMap};
use std::alloc::Global;
use zc_num::NoMemory;

/// A map that keeps one state a place.
#[derive(Debug, Drop)]
pub struct BitMap {
    states: Vec<PlaceState>,
    /// How many places are free.
    free: u32,
    /// The places that are given, each once.
    given: Vec<u32>,
    ghost sound: { IsSound states.items free given.items },
}

impl BitMap {
    ghost use Rattle.std.specs.Prelude.{◌≡◌, ◌↔◌, map, count_by, replicate, slice_get, IfOk, IfSome, IsNone};
    ghost use Rattle.zc_spacemap.specs.declared.state.PlaceState.TheVariants.{Free};
    ghost use Rattle.zc_spacemap.specs.States.{is_free, state_of};
    ghost use Rattle.zc_spacemap.specs.MapStates.{states_of};

    /// A map of so many places, all free.
    #[tactic(auto, using(crate::proofs::SoundLaws::free_sound))]
    pub fn new(alloc: Global, places: u32) -> Result<BitMap, NoMemory>
        ensures { IfOk result (λ made. states_of made ≡ replicate places Free) }
    {
        let mut states = Vec::with_capacity(alloc, places as usize)?;
        for _ in 0..places {
            states.push(PlaceState::Free)?;
        }
        Ok(BitMap {
            states,
            free: places,
            given: Vec::new(alloc),
        })
    }

    /// The map of which a stored map says what is allocated.
    ///
    /// # Errors
    /// Want of memory. For 2^32 places or more, whose numbers would not fit, there is never enough.
    #[tactic(auto, using(crate::proofs::StateLaws::free_so_far))]
    pub fn of(alloc: Global, stored: &StoredMap) -> Result<BitMap, NoMemory>
        ensures { IfOk result (λ made. states_of made ≡ map state_of stored.now.allocated) }
    {
        let allocated = stored.allocated.as_slice();
        if allocated.len() > u32::MAX as usize {
            return Err(NoMemory);
        }
        let mut states = Vec::with_capacity(alloc, allocated.len())?;
        let mut free = 0;
        for is_allocated in allocated {
            states.push(PlaceState::stored(*is_allocated))?;
            if !*is_allocated {
                free += 1;
            }
        }
        Ok(BitMap {
            states,
            free,
            given: Vec::new(alloc),
        })
    }

    /// The number of places of its device.
    pub fn places(&self) -> u32
        ensures { result ≡ length (states_of self.now) }
    {
        self.states.len() as u32
    }

    // The first free place from `rotor` on, or else the first of all.
    #[tactic(auto, using(crate::proofs::StateLaws::found_after, crate::proofs::StateLaws::found_before, crate::proofs::StateLaws::found_nowhere))]
    fn next_free(&self, rotor: u32) -> Option<u32>
        ensures found { IfSome result (λ place. slice_get (states_of self.now) place ≡ Some Free) }
        ensures none { IsNone result ↔ (count_by is_free (states_of self.now) ≡ 0) }
    {
        if self.free == 0 {
            return None;
        }
        let from = (rotor as usize).min(self.states.len());
        let (front, back) = self.states.as_slice().split_at(from);
        match first_free(back) {
            Some(place) => Some((from + place) as u32),
            None => match first_free(front) {
                Some(place) => Some(place as u32),
                None => None,
            },
        }
    }
}

impl SpaceMap for BitMap {
    ghost use Rattle.zc_spacemap.specs.MapStates.{states_of, spare_of};

    ghost states = { states_of };

    ghost spare = { spare_of };

    #[tactic(auto, using(crate::proofs::SoundLaws::free_some))]
    fn take(&mut self, rotor: u32) -> Option<u32> {
        match self.next_free(rotor) {
            Some(place) => {
                self.states[place as usize] = PlaceState::Allocated;
                self.free -= 1;
                Some(place)
            }
            None => None,
        }
    }

    fn give_later(&mut self, place: u32) -> Result<(), NoMemory> {
        self.given.push(place)?;
        self.states[place as usize] = PlaceState::Given;
        Ok(())
    }

    #[tactic(auto, using(crate::proofs::SoundLaws::sound_fits))]
    fn settle(&mut self) {
        free_each(&mut self.states, &self.given);
        self.free += self.given.len() as u32;
        self.given.clear();
    }

    fn free_count(&self) -> u32 {
        self.free
    }

    fn is_allocated(&self, place: u32) -> bool {
        !self.states[place as usize].is_free()
    }

    fn is_given(&self, place: u32) -> bool {
        self.states[place as usize].is_given()
    }

    fn reserve(&mut self, places: u32) -> Result<(), NoMemory> {
        self.given.reserve(places as usize)
    }
}

// The first free place among these.
fn first_free(states: &[PlaceState]) -> Option<usize>
    ensures { result ≡ position is_free states.now }
{
    states.iter().position(|state| state.is_free())
}

// Frees each of these places, which are there.
fn free_each(states: &mut [PlaceState], places: &[u32])
    requires { list_all (λ place. nat_lt place (length states.old)) places.now ≡ true }
    ensures { states.new ≡ freed places.now states.old }
{
    for place in places {
        states[*place as usize] = PlaceState::Free;
    }
}
