// The size of the pool beside that of the disks.
ghost use Rattle.std.specs.Prelude.{◌≡◌};
ghost use Rattle.zc_state.specs.Reading.{geometry_hit, size_number};

use zc_damage::{DamageKind, Hit};
use zc_num::Limits;
use zc_root::{Body, slot_of};

// Whether the body has another size than the disks.
pub fn geometry_hit(limits: &Limits, body: &Body) -> Option<Hit>
    ensures { result ≡ geometry_hit (record { devices = limits.now.devices; places = limits.now.places }) body.now }
{
    if body.devices == limits.devices() && body.places == limits.places() {
        return None;
    }
    Some(Hit {
        kind: DamageKind::Geometry,
        device: 0,
        place: 2 * slot_of(body.group),
        kept: size_number(body.devices, body.places),
        found: size_number(limits.devices(), limits.places()),
    })
}

// A size in one number.
fn size_number(devices: u32, places: u32) -> u64
    ensures { result ≡ size_number devices places }
{
    u64::from(devices) * (1 << 32) + u64::from(places)
}
