// The catalogue's digest, and what its bytes say.
ghost use Rattle.std.specs.Prelude.{◌≡◌, IfOk, IsErrOf};
ghost use Rattle.std.specs.Str.{bytes_eq};
ghost use Rattle.zc_tree.specs.Catalogue.{AreParts};
ghost use Rattle.zc_state.specs.Reading.{clear, digest_damage, parts_in};
ghost use Rattle.zc_image.specs.ReadAnswers.{ReadAnswers};

use crate::ImageFault;
use crate::hits::{damaged, damaged_bytes};
use sha2::{Digest, Sha256};
use std::alloc::Global;
use zc_catalog::Chain;
use zc_damage::{DamageKind, Hit};
use zc_num::Limits;
use zc_root::Body;
use zc_tree::{Catalogue, Parts};
use zc_wire::CatalogFault;

// Goes on where the bytes have the digest that the body says.
pub fn check_digest(alloc: Global, body: &Body, bytes: &[u8]) -> Result<(), ImageFault>
    ensures answer { ReadAnswers (λ _. tt) result (clear (digest_damage body.now bytes.now)) }
    ensures no_read { IsErrOf result ImageFault.DiskFault → ⊥ }
{
    let digest = Sha256::digest(bytes);
    if is_same(&digest, &body.digest) {
        return Ok(());
    }
    Err(damaged_bytes(
        alloc,
        DamageKind::Digest,
        body.first_device,
        body.first_place,
        &body.digest,
        &digest,
    ))
}

// Whether two digests have the same bytes.
fn is_same(left: &[u8; 32], right: &[u8; 32]) -> bool
    ensures { result ≡ bytes_eq left.now right.now }
{
    left.as_slice() == right.as_slice()
}

// What the bytes say, if it is what the root may have.
#[tactic(auto, unfolding(zc_state::specs::Reading::parts_in))]
pub fn read_parts(
    alloc: Global,
    limits: &Limits,
    body: &Body,
    bytes: &[u8],
) -> Result<Parts, ImageFault>
    ensures answer { ReadAnswers (λ parts. parts) result (parts_in limits.now.devices limits.now.places body.now bytes.now) }
    ensures parts { IfOk result (AreParts limits.now.devices limits.now.places body.now.group body.now.next_dataset) }
    ensures no_read { IsErrOf result ImageFault.DiskFault → ⊥ }
{
    match Chain::decode(alloc, bytes, limits, body.group, body.next_dataset) {
        Ok(parts) => Ok(parts),
        Err(CatalogFault::NoMemory) => Err(ImageFault::NoMemory),
        Err(CatalogFault::BadCatalog { at }) => {
            let hit = Hit {
                kind: DamageKind::Catalogue,
                device: body.first_device,
                place: body.first_place,
                kept: body.length,
                found: at,
            };
            Err(damaged(alloc, &hit))
        }
    }
}
