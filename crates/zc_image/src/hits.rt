// Hits of checks as faults.
ghost use Rattle.std.specs.Prelude.{◌≡◌, None, IfOk, OnOk, IsErrOf};
ghost use Rattle.zc_damage.specs.Checks.{damage_of};
ghost use Rattle.zc_state.specs.Reading.{clear_hit};
ghost use Rattle.zc_image.specs.ReadAnswers.{ReadAnswers, Tells};

use crate::ImageFault;
use std::alloc::Global;
use zc_damage::{Damage, DamageKind, Hit};
use zc_num::{Bytes, NoMemory};

// The damage that a hit is.
pub fn damaged(alloc: Global, hit: &Hit) -> ImageFault
    ensures { Tells result (damage_of hit.now) }
{
    match Damage::of(alloc, hit) {
        Ok(damage) => ImageFault::Damaged { damage },
        Err(NoMemory) => ImageFault::NoMemory,
    }
}

// The damage of bytes that were found in place of others.
pub fn damaged_bytes(
    alloc: Global,
    kind: DamageKind,
    device: u32,
    place: u32,
    kept: &[u8],
    found: &[u8],
) -> ImageFault
    ensures { Tells result (record { kind = kind; device = device; place = place; kept = kept.now; found = found.now }) }
{
    match both(alloc, kept, found) {
        Ok((kept, found)) => ImageFault::Damaged {
            damage: Damage {
                kind,
                device,
                place,
                kept,
                found,
            },
        },
        Err(NoMemory) => ImageFault::NoMemory,
    }
}

// Copies of both.
fn both(alloc: Global, kept: &[u8], found: &[u8]) -> Result<(Bytes, Bytes), NoMemory>
    ensures kept { IfOk result (λ copies. copies.0 ≡ kept.now) }
    ensures found { IfOk result (λ copies. copies.1 ≡ found.now) }
{
    let kept = Bytes::of(alloc, kept)?;
    let found = Bytes::of(alloc, found)?;
    Ok((kept, found))
}

// Goes on where a check hit nothing.
pub fn pass(alloc: Global, hit: Option<Hit>) -> Result<(), ImageFault>
    ensures answer { ReadAnswers (λ _. tt) result (clear_hit hit) }
    ensures none { OnOk result (hit ≡ None) }
    ensures no_read { IsErrOf result ImageFault.DiskFault → ⊥ }
{
    match hit {
        None => Ok(()),
        Some(hit) => Err(damaged(alloc, &hit)),
    }
}
