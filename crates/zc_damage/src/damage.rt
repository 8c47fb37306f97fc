// What is wrong with an image.
ghost use Rattle.std.specs.Prelude.{◌≡◌, IfOk};
ghost use Rattle.zc_wire.specs.Numbers.{u64_bytes};
ghost use Rattle.zc_damage.specs.Checks.{damage_of, hit_at, hit_at_root};

use crate::numbering::place_of;
use std::alloc::Global;
use zc_num::{Bytes, Limits, NoMemory};
use zc_wire::bytes_of_u64;

/// What is wrong with an image.
#[derive(Clone, Copy, Debug, PartialEq, Eq)]
pub enum DamageKind {
    /// The root is that of a pool of another size.
    Geometry,
    /// The places of the catalogue are no chain.
    Chain,
    /// The catalogue has another digest than the root says.
    Digest,
    /// The bytes of the catalogue spell nothing that the root may have.
    Catalogue,
    /// A number that only rises is above the highest that an import takes.
    Worn,
    /// A pointer came into its file after the root's group.
    Birth,
    /// A log block was written after the root's group.
    Epoch,
    /// A claimed log isn't there as the root says.
    Log,
    /// A log holds what is no record, or one that doesn't apply.
    Record,
    /// A log's pointer names a block that nothing holds.
    Reach,
    /// Two owners of one place.
    Owner,
    /// A block has another digest than its pointer.
    Block,
    /// A file has a byte past its size that isn't 0.
    Tail,
    /// A count isn't the number of pointers less one.
    Count,
    /// A region's counter isn't its sum.
    Region,
    /// A place is allocated and not owned, or owned and not allocated.
    Map,
    /// More places have blocks than a pool has for them.
    Charge,
}

/// A hit of a check whose two values are numbers.
#[derive(Clone, Copy, Debug, PartialEq, Eq)]
pub struct Hit {
    pub kind: DamageKind,
    pub device: u32,
    pub place: u32,
    /// What is kept.
    pub kept: u64,
    /// What was found.
    pub found: u64,
}

/// What is wrong with an image, and where.
#[derive(Clone, Debug, PartialEq, Eq, Drop)]
pub struct Damage {
    pub kind: DamageKind,
    pub device: u32,
    pub place: u32,
    /// The bytes of what is kept: a number in eight bytes, the highest first, or a digest.
    pub kept: Bytes,
    /// The bytes of what was found.
    pub found: Bytes,
}

impl Damage {
    /// The damage that a hit is: each of its two numbers in eight bytes.
    ///
    /// # Errors
    /// Want of memory.
    pub fn of(alloc: Global, hit: &Hit) -> Result<Damage, NoMemory>
        ensures { IfOk result (λ damage. damage ≡ damage_of hit.now) }
    {
        let kept = number_bytes(alloc, hit.kept)?;
        let found = number_bytes(alloc, hit.found)?;
        Ok(Damage {
            kind: hit.kind,
            device: hit.device,
            place: hit.place,
            kept,
            found,
        })
    }
}

// A number in eight bytes, the highest first.
fn number_bytes(alloc: Global, number: u64) -> Result<Bytes, NoMemory>
    ensures { IfOk result (λ bytes. bytes ≡ u64_bytes number) }
{
    Bytes::of(alloc, &bytes_of_u64(number))
}

// A hit at the place with this number.
pub(crate) fn hit_at(kind: DamageKind, limits: &Limits, number: u32, kept: u64, found: u64) -> Hit
    ensures { result ≡ hit_at kind limits.now.places number kept found }
{
    let at = place_of(limits, number);
    Hit {
        kind,
        device: at.device,
        place: at.place,
        kept,
        found,
    }
}

// A hit at the body of the root of this group.
pub(crate) fn hit_at_root(kind: DamageKind, group: u64, kept: u64, found: u64) -> Hit
    ensures { result ≡ hit_at_root kind group kept found }
{
    Hit {
        kind,
        device: 0,
        place: 2 * (group % 2) as u32,
        kept,
        found,
    }
}
