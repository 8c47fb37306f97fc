// The places of a pool by their numbers, device by device.
ghost use Rattle.std.specs.Prelude.{◌≡◌, ◌/◌, ◌%◌, ◌<◌};
ghost use Rattle.zc_num.specs.Limits.{total_of};
ghost use Rattle.zc_damage.specs.Places.{number_of, IsPlace};

use zc_num::{Limits, PlaceAt};

// The number of a place of the pool.
#[tactic(auto, using(crate::proofs::PlaceNumbers::number_below))]
pub fn number_of(limits: &Limits, device: u32, place: u32) -> usize
    requires { IsPlace limits.now.devices limits.now.places device place }
    ensures number { result ≡ number_of limits.now.places device place }
    ensures there { result < total_of limits.now.devices limits.now.places }
{
    device as usize * limits.places as usize + place as usize
}

// The place with this number.
#[tactic(auto, using(crate::proofs::PlaceNumbers::some_places))]
pub fn place_of(limits: &Limits, number: u32) -> PlaceAt
    ensures { result ≡ record { device = number / limits.now.places; place = number % limits.now.places } }
{
    PlaceAt {
        device: number / limits.places,
        place: number % limits.places,
    }
}
