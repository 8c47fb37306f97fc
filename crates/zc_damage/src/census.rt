// What points to each place of a pool, and which places its catalogue has.
ghost use Rattle.std.specs.Prelude.{◌≡◌, ◌+◌, ◌*◌, ◌-◌, ◌^◌, ◌<◌, [], List, length, IfOk};
ghost use Rattle.std.specs.Option.{option_copied};
ghost use Rattle.zc_num.specs.Limits.{total_of};
ghost use Rattle.zc_num.specs.Words.{each};
ghost use Rattle.zc_blkptr.specs.declared.ptr.Ptr.{Ptr};
ghost use Rattle.zc_damage.specs.Places.{pointers_to, is_reached, extra_at, is_owned, ReachPlaces, ChainPlaces};
ghost use Rattle.zc_damage.specs.Checks.{owners_at};
ghost use Rattle.zc_damage.specs.Census.{IsCensus, first_in, use_of, uses_of};

use crate::numbering::{number_of, place_of};
use crate::place_use::{PlaceUse, with_pointer};
use std::alloc::Global;
use std::marker::Model;
use zc_blkptr::Ptr;
use zc_num::{Limits, NoMemory, PlaceAt};

/// What points to each place of a pool, and which places its catalogue has.
///
/// It is made in one pass over the pointers and the places of the catalogue, and each question to it takes constant time. Places
/// have their numbers, device by device: place p of device d is number d * places + p.
#[derive(Drop)]
pub struct Census<'a> {
    limits: Limits,
    reach: &'a [Ptr],
    chain: &'a [PlaceAt],
    // For each place of the pool.
    uses: Vec<PlaceUse>,
}

impl<'a> Model for Census<'a> {
    ghost use Rattle.std.specs.Prelude.{◌≡◌};
    ghost use Rattle.zc_damage.specs.Census.{Counted, uses_of};

    ghost Value = { Counted };

    ghost view = { λ census. record { devices = census.limits.devices; places = census.limits.places; reach = census.reach.now; chain = census.chain.now } };

    ghost invariant = { λ census. census.uses.items ≡ uses_of census.limits.devices census.limits.places census.reach.now census.chain.now };
}

impl<'a> Census<'a> {
    /// The census of these pointers and of these places of the catalogue, each of which is a place of the pool.
    ///
    /// # Errors
    /// Want of memory. For 2^32 pointers or more, whose numbers would not fit, there is never enough.
    pub fn of(
        alloc: Global,
        limits: &Limits,
        reach: &'a [Ptr],
        chain: &'a [PlaceAt],
    ) -> Result<Census<'a>, NoMemory>
        requires reach_places { ReachPlaces limits.now.devices limits.now.places reach.now }
        requires chain_places { ChainPlaces limits.now.devices limits.now.places chain.now }
        ensures { IfOk result (λ census. IsCensus limits.now.devices limits.now.places reach.now chain.now census) }
    {
        if reach.len() > u32::MAX as usize {
            return Err(NoMemory);
        }
        let mut uses = unused(alloc, limits)?;
        count_pointers(limits, reach, &mut uses);
        mark_catalogue(limits, chain, &mut uses);
        Ok(Census {
            limits: *limits,
            reach,
            chain,
            uses,
        })
    }

    /// The size of the pool.
    pub fn limits(&self) -> Limits
        ensures devices { result.devices ≡ self.now.devices }
        ensures places { result.places ≡ self.now.places }
    {
        self.limits
    }

    /// The pointers that it was made of.
    pub fn reach(&self) -> &'a [Ptr]
        ensures { result.now ≡ self.now.reach }
    {
        self.reach
    }

    /// The places of the catalogue that it was made of.
    pub fn chain(&self) -> &'a [PlaceAt]
        ensures { result.now ≡ self.now.chain }
    {
        self.chain
    }

    /// The first pointer to the place, if there is one.
    pub fn first_to(&self, number: u32) -> Option<&Ptr>
        requires { number < total_of self.now.devices self.now.places }
        ensures { option_copied result ≡ first_in (pointers_to self.now.places self.now.reach number) }
    {
        self.use_at(number).first.as_ref()
    }

    /// How many pointers to the place there are besides the first.
    pub fn extra(&self, number: u32) -> u64
        requires { number < total_of self.now.devices self.now.places }
        ensures extra { result ≡ extra_at self.now.places self.now.reach number }
        ensures fits { result < 2 ^ 32 }
    {
        u64::from(self.use_at(number).pointers.saturating_sub(1))
    }

    /// Whether there is a pointer to the place.
    #[tactic(auto, using(crate::proofs::CensusLaws::reached_as))]
    pub fn is_reached(&self, number: u32) -> bool
        requires { number < total_of self.now.devices self.now.places }
        ensures { result ≡ is_reached self.now.places self.now.reach number }
    {
        self.use_at(number).first.is_some()
    }

    /// Whether the place is owned: there is a pointer to it, or the catalogue has it, or it is a fixed place.
    pub fn is_owned(&self, number: u32) -> bool
        requires { number < total_of self.now.devices self.now.places }
        ensures { result ≡ is_owned self.now.devices self.now.places self.now.chain self.now.reach number }
    {
        let at = place_of(&self.limits, number);
        self.is_reached(number)
            || self.use_at(number).in_catalogue
            || self.limits.is_fixed(at.device, at.place)
    }

    /// The physical births of two owners of the place that don't agree, 0 for the catalogue.
    pub fn owners(&self, number: u32) -> Option<(u64, u64)>
        requires { number < total_of self.now.devices self.now.places }
        ensures { result ≡ owners_at self.now.places self.now.chain self.now.reach number }
    {
        let used = self.use_at(number);
        let Some(first) = &used.first else {
            return None;
        };
        if used.in_catalogue {
            return Some((0, first.physical));
        }
        match used.other {
            None => None,
            Some(birth) => Some((first.physical, birth)),
        }
    }

    // What is known of the place.
    #[tactic(auto, using(crate::proofs::CensusLaws::uses_length, crate::proofs::CensusLaws::use_is))]
    fn use_at(&self, number: u32) -> &PlaceUse
        requires { number < total_of self.now.devices self.now.places }
        ensures { result.now ≡ use_of self.now.places self.now.reach self.now.chain number }
    {
        &self.uses[number as usize]
    }
}

// For each place that nothing points to it, nor the catalogue has it.
#[tactic(auto, using(zc_num::proofs::Each::each_more))]
fn unused(alloc: Global, limits: &Limits) -> Result<Vec<PlaceUse>, NoMemory>
    ensures { IfOk result (λ uses. uses.items ≡ uses_of limits.now.devices limits.now.places [] []) }
{
    let total = limits.total();
    let mut uses = Vec::with_capacity(alloc, total as usize)?;
    for _ in 0..total {
        uses.push(PlaceUse {
            first: None,
            pointers: 0,
            other: None,
            in_catalogue: false,
        })?;
    }
    Ok(uses)
}

// Counts each pointer at its place.
fn count_pointers(limits: &Limits, reach: &[Ptr], uses: &mut [PlaceUse])
    requires places { ReachPlaces limits.now.devices limits.now.places reach.now }
    requires few { length reach.now < 2 ^ 32 }
    requires unused { uses.old ≡ uses_of limits.now.devices limits.now.places [] [] }
    ensures { uses.new ≡ uses_of limits.now.devices limits.now.places reach.now [] }
{
    for ptr in reach {
        let number = number_of(limits, ptr.device, ptr.place);
        uses[number] = with_pointer(&uses[number], ptr);
    }
}

// Marks each place of the catalogue.
fn mark_catalogue(limits: &Limits, chain: &[PlaceAt], uses: &mut [PlaceUse])
    requires places { ChainPlaces limits.now.devices limits.now.places chain.now }
    requires whole { length uses.old ≡ total_of limits.now.devices limits.now.places }
    ensures { (reach : List Ptr) → uses.old ≡ uses_of limits.now.devices limits.now.places reach [] → uses.new ≡ uses_of limits.now.devices limits.now.places reach chain.now }
{
    for at in chain {
        let number = number_of(limits, at.device, at.place);
        uses[number].in_catalogue = true;
    }
}
