// What the body of a root says.
ghost use Rattle.std.specs.Prelude.{◌≡◌};
ghost use Rattle.zc_root.specs.Root.{slot_of};

/// The body of a root.
#[derive(Clone, Copy, PartialEq, Eq, Debug)]
pub struct Body {
    /// The number of the pool, by its name at its creation.
    pub pool: u64,
    /// The group that wrote the body.
    pub group: u64,
    /// How many devices the pool has.
    pub devices: u32,
    /// How many places each device has.
    pub places: u32,
    /// The number that the next dataset gets.
    pub next_dataset: u64,
    /// The device of the first place of the catalogue.
    pub first_device: u32,
    /// The first place of the catalogue.
    pub first_place: u32,
    /// How many places the catalogue has.
    pub chain: u32,
    /// How many bytes the catalogue has.
    pub length: u64,
    /// The SHA-256 of the catalogue.
    pub digest: [u8; 32],
}

/// The root slot of a group, 0 or 1.
pub fn slot_of(group: u64) -> u32
    ensures { result ≡ slot_of group }
{
    (group % 2) as u32
}
