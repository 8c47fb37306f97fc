// The places of a chain so far, and the bytes that they hold.
ghost use Rattle.std.specs.Prelude.{◌≡◌, ◌<◌, ◌+◌, ◌*◌, [], ◌∷◌, ◌++◌, ◌||◌, not, reverse, IfOk, OnOk};
ghost use Rattle.zc_num.specs.Limits.{is_fixed, total_of};
ghost use Rattle.zc_damage.specs.Places.{chain_has, IsPlace};
ghost use Rattle.zc_state.specs.Reading.{may_follow};
ghost use Rattle.zc_image.specs.Seen.{Knows};

use std::alloc::Global;
use zc_num::{Limits, Listed, NoMemory, PlaceAt};

// The places of a chain so far, and the bytes that they hold. A flag for each place of the pool says whether it is one of them.
#[derive(Drop)]
pub struct Trail {
    pub limits: Limits,
    pub places: Listed<PlaceAt>,
    pub bytes: Vec<u8>,
    seen: Vec<bool>,
    ghost known: { Knows limits.devices limits.places seen.items (reverse places) },
}

impl Trail {
    // No place.
    pub fn new(alloc: Global, limits: &Limits) -> Result<Trail, NoMemory>
        ensures limits { IfOk result (λ trail. trail.limits ≡ limits.now) }
        ensures places { IfOk result (λ trail. trail.places ≡ []) }
        ensures bytes { IfOk result (λ trail. trail.bytes.items ≡ []) }
    {
        let seen = no_flags(alloc, limits)?;
        Ok(Trail {
            limits: *limits,
            places: Listed::new(alloc),
            bytes: Vec::new(alloc),
            seen,
        })
    }

    // Whether the chain may go on at the place.
    pub fn may_go_to(&self, at: &PlaceAt) -> bool
        ensures { result ≡ may_follow self.now.limits.devices self.now.limits.places (reverse self.now.places) at.now }
    {
        at.device < self.limits.devices && at.place < self.limits.places && self.is_free(at)
    }

    // Whether a place that is there is neither fixed nor one of the trail.
    fn is_free(&self, at: &PlaceAt) -> bool
        requires { IsPlace self.now.limits.devices self.now.limits.places at.now.device at.now.place }
        ensures { result ≡ not (is_fixed self.now.limits.devices self.now.limits.places at.now.device at.now.place
            || chain_has self.now.limits.places (reverse self.now.places) (at.now.device * self.now.limits.places + at.now.place)) }
    {
        !(self.limits.is_fixed(at.device, at.place) || self.seen[self.number_of(at)])
    }

    // The number of a place that is there.
    fn number_of(&self, at: &PlaceAt) -> usize
        requires { IsPlace self.now.limits.devices self.now.limits.places at.now.device at.now.place }
        ensures number { result ≡ at.now.device * self.now.limits.places + at.now.place }
        ensures there { result < total_of self.now.limits.devices self.now.limits.places }
    {
        at.device as usize * self.limits.places as usize + at.place as usize
    }

    // Goes on at the place, which holds these bytes of the chain.
    pub fn push(&mut self, at: &PlaceAt, bytes: &[u8]) -> Result<(), NoMemory>
        requires { IsPlace self.old.limits.devices self.old.limits.places at.now.device at.now.place }
        ensures limits { self.new.limits ≡ self.old.limits }
        ensures places { OnOk result (self.new.places ≡ self.old.places ++ at.now ∷ []) }
        ensures bytes { OnOk result (self.new.bytes.items ≡ self.old.bytes.items ++ bytes.now) }
    {
        let number = self.number_of(at);
        self.bytes.extend_from_slice(bytes)?;
        self.places.push(*at)?;
        self.seen[number] = true;
        Ok(())
    }
}

impl Trail {
    // The places.
    pub fn into_places(self) -> Listed<PlaceAt>
        ensures { result ≡ self.places }
    {
        self.places
    }
}

// A flag for each place, none of them set.
#[tactic(auto, using(crate::proofs::SeenLaws::one_more_flag, crate::proofs::SeenLaws::knows_none))]
fn no_flags(alloc: Global, limits: &Limits) -> Result<Vec<bool>, NoMemory>
    ensures { IfOk result (λ flags. Knows limits.now.devices limits.now.places flags.items []) }
{
    let total = limits.total() as usize;
    let mut flags = Vec::with_capacity(alloc, total)?;
    for _ in 0..total {
        flags.push(false)?;
    }
    Ok(flags)
}
