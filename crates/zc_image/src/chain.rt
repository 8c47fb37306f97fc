// The chain of the catalogue's places.
ghost use Rattle.std.specs.Prelude.{◌≡◌, ◌+◌, ◌*◌, ◌-◌, ◌<◌, ◌≤◌, ◌==◌, [], ◌∷◌, ◌++◌, reverse, take, drop, IfOk, OnOk, IsErrOf, MatchOption, Ok, Err};
ghost use Rattle.std.specs.List.{list_all};
ghost use Rattle.zc_tape.specs.Cause.{Rose};
ghost use Rattle.zc_tape.specs.Crash.{reads};
ghost use Rattle.zc_catalog.specs.Chain.{chain_length};
ghost use Rattle.zc_damage.specs.Places.{IsPlace, ChainPlaces};
ghost use Rattle.zc_state.specs.Reading.{chain_damage, chain_of, first_place, is_last};
ghost use Rattle.zc_image.specs.ReadAnswers.{IsWhole, ReadAnswers, Tells};
ghost use Rattle.zc_image.specs.Blocks.{IsBlock, AreBlocksAt};
ghost use Rattle.zc_image.specs.Following.{next_after, last_bytes, or_broken};

use crate::ImageFault;
use crate::block::{read_place, zeros};
use crate::hits::damaged;
use crate::trail::Trail;
use std::alloc::Global;
use zc_catalog::next_of;
use zc_damage::{DamageKind, Hit};
use zc_num::{Limits, PlaceAt};
use zc_root::Body;
use zc_tape::DiskSet;

// The damage of the chain at the place with this number in it.
fn broken(alloc: Global, body: &Body, at: &PlaceAt, index: u32) -> ImageFault
    ensures { Tells result (chain_damage body.now at.now index) }
{
    let hit = Hit {
        kind: DamageKind::Chain,
        device: at.device,
        place: at.place,
        kept: u64::from(body.chain),
        found: u64::from(index),
    };
    damaged(alloc, &hit)
}

// Follows the chain of the catalogue from its first place to its end mark.
#[tactic(auto, using(crate::proofs::ChainSteps::chain_too_short))]
pub fn read_chain<D: DiskSet>(
    alloc: Global,
    disks: &mut D,
    limits: &Limits,
    body: &Body,
) -> Result<Trail, ImageFault>
    requires some { 1 ≤ body.now.chain }
    requires devices { limits.now.devices ≡ (D.shape disks.old).devices }
    requires places { limits.now.places ≡ (D.shape disks.old).places }
    ensures exact { IsWhole (D.tape disks.old) → ReadAnswers (λ trail. (trail.places, trail.bytes.items)) result
        (chain_of limits.now.devices limits.now.places (reads (D.tape disks.old)) body.now) }
    ensures whole { IfOk result (λ trail. IsWhole (D.tape disks.old) → AreBlocksAt (reads (D.tape disks.old)) trail.places) }
    ensures there { IfOk result (λ trail. ChainPlaces limits.now.devices limits.now.places trail.places) }
    ensures tape { D.tape disks.new ≡ D.tape disks.old }
    ensures shape { D.shape disks.new ≡ D.shape disks.old }
    ensures spare { D.spare disks.new ≡ D.spare disks.old }
    ensures later { D.faults disks.old ≤ D.faults disks.new }
    ensures cause { IsErrOf result ImageFault.DiskFault → Rose (D.faults disks.old) (D.faults disks.new) }
{
    if u64::from(body.chain) != body.length.div_ceil(4088) {
        return Err(broken(alloc, body, &first_place(body), 0));
    }
    follow_chain(alloc, disks, limits, body)
}

// Follows the chain of a body that has as many places as its length takes.
fn follow_chain<D: DiskSet>(
    alloc: Global,
    disks: &mut D,
    limits: &Limits,
    body: &Body,
) -> Result<Trail, ImageFault>
    requires some { 1 ≤ body.now.chain }
    requires long { body.now.chain ≡ chain_length body.now.length }
    requires devices { limits.now.devices ≡ (D.shape disks.old).devices }
    requires places { limits.now.places ≡ (D.shape disks.old).places }
    ensures exact { IsWhole (D.tape disks.old) → ReadAnswers (λ trail. (trail.places, trail.bytes.items)) result
        (chain_of limits.now.devices limits.now.places (reads (D.tape disks.old)) body.now) }
    ensures whole { IfOk result (λ trail. IsWhole (D.tape disks.old) → AreBlocksAt (reads (D.tape disks.old)) trail.places) }
    ensures there { IfOk result (λ trail. ChainPlaces limits.now.devices limits.now.places trail.places) }
    ensures tape { D.tape disks.new ≡ D.tape disks.old }
    ensures shape { D.shape disks.new ≡ D.shape disks.old }
    ensures spare { D.spare disks.new ≡ D.spare disks.old }
    ensures later { D.faults disks.old ≤ D.faults disks.new }
    ensures cause { IsErrOf result ImageFault.DiskFault → Rose (D.faults disks.old) (D.faults disks.new) }
{
    let mut trail = Trail::new(alloc, limits)?;
    let mut at = first_place(body);
    for index in 0..body.chain - 1 {
        at = follow_inner(alloc, disks, body, index, &at, &mut trail)?;
    }
    follow_last(alloc, disks, body, last_count(body), &at, &mut trail)?;
    Ok(trail)
}

// The first place of the catalogue.
fn first_place(body: &Body) -> PlaceAt
    ensures { result ≡ first_place body.now }
{
    PlaceAt {
        device: body.first_device,
        place: body.first_place,
    }
}

// How many bytes the last place of such a chain holds.
fn last_count(body: &Body) -> usize
    requires some { 1 ≤ body.now.chain }
    requires long { body.now.chain ≡ chain_length body.now.length }
    ensures count { result ≡ body.now.length - 4088 * (body.now.chain - 1) }
    ensures few { result ≤ 4088 }
{
    (body.length - 4088 * u64::from(body.chain - 1)) as usize
}

// Goes on from a place that others follow: the place after it.
fn follow_inner<D: DiskSet>(
    alloc: Global,
    disks: &mut D,
    body: &Body,
    index: u32,
    at: &PlaceAt,
    trail: &mut Trail,
) -> Result<PlaceAt, ImageFault>
    requires devices { trail.old.limits.devices ≡ (D.shape disks.old).devices }
    requires places { trail.old.limits.places ≡ (D.shape disks.old).places }
    ensures next { IsWhole (D.tape disks.old) → ReadAnswers (λ next. next) result
        (or_broken body.now at.now index (next_after trail.old.limits.devices trail.old.limits.places (reads (D.tape disks.old)) (reverse trail.old.places) at.now)) }
    ensures limits { trail.new.limits ≡ trail.old.limits }
    ensures place { OnOk result (trail.new.places ≡ trail.old.places ++ at.now ∷ []) }
    ensures bytes { OnOk result (IsWhole (D.tape disks.old)
        → trail.new.bytes.items ≡ trail.old.bytes.items ++ drop 8 (reads (D.tape disks.old) at.now.device at.now.place)) }
    ensures whole { OnOk result (IsWhole (D.tape disks.old) → IsBlock (reads (D.tape disks.old) at.now.device at.now.place)) }
    ensures there { OnOk result (IsPlace trail.old.limits.devices trail.old.limits.places at.now.device at.now.place) }
    ensures tape { D.tape disks.new ≡ D.tape disks.old }
    ensures shape { D.shape disks.new ≡ D.shape disks.old }
    ensures spare { D.spare disks.new ≡ D.spare disks.old }
    ensures later { D.faults disks.old ≤ D.faults disks.new }
    ensures cause { IsErrOf result ImageFault.DiskFault → Rose (D.faults disks.old) (D.faults disks.new) }
{
    if !trail.may_go_to(at) {
        return Err(broken(alloc, body, at, index));
    }
    let mut block = zeros();
    read_place(disks, at, &mut block)?;
    match next_of(&block) {
        Some(next) => {
            trail.push(at, after_mark(&block))?;
            Ok(next)
        }
        None => Err(broken(alloc, body, at, index)),
    }
}

// Ends at a place at which the chain holds so many more bytes.
fn follow_last<D: DiskSet>(
    alloc: Global,
    disks: &mut D,
    body: &Body,
    count: usize,
    at: &PlaceAt,
    trail: &mut Trail,
) -> Result<(), ImageFault>
    requires some { 1 ≤ body.now.chain }
    requires few { count ≤ 4088 }
    requires devices { trail.old.limits.devices ≡ (D.shape disks.old).devices }
    requires places { trail.old.limits.places ≡ (D.shape disks.old).places }
    ensures last { IsWhole (D.tape disks.old) → ReadAnswers (λ _. take count (drop 8 (reads (D.tape disks.old) at.now.device at.now.place))) result
        (or_broken body.now at.now (body.now.chain - 1) (last_bytes trail.old.limits.devices trail.old.limits.places (reads (D.tape disks.old)) (reverse trail.old.places) count at.now)) }
    ensures limits { trail.new.limits ≡ trail.old.limits }
    ensures place { OnOk result (trail.new.places ≡ trail.old.places ++ at.now ∷ []) }
    ensures bytes { OnOk result (IsWhole (D.tape disks.old)
        → trail.new.bytes.items ≡ trail.old.bytes.items ++ take count (drop 8 (reads (D.tape disks.old) at.now.device at.now.place))) }
    ensures whole { OnOk result (IsWhole (D.tape disks.old) → IsBlock (reads (D.tape disks.old) at.now.device at.now.place)) }
    ensures there { OnOk result (IsPlace trail.old.limits.devices trail.old.limits.places at.now.device at.now.place) }
    ensures tape { D.tape disks.new ≡ D.tape disks.old }
    ensures shape { D.shape disks.new ≡ D.shape disks.old }
    ensures spare { D.spare disks.new ≡ D.spare disks.old }
    ensures later { D.faults disks.old ≤ D.faults disks.new }
    ensures cause { IsErrOf result ImageFault.DiskFault → Rose (D.faults disks.old) (D.faults disks.new) }
{
    if !trail.may_go_to(at) {
        return Err(broken(alloc, body, at, body.chain - 1));
    }
    let mut block = zeros();
    read_place(disks, at, &mut block)?;
    if !is_last(&block, count) {
        return Err(broken(alloc, body, at, body.chain - 1));
    }
    trail.push(at, front_of(&block, count))?;
    Ok(())
}

// Whether a block is the last of a chain, of which it holds so many bytes.
fn is_last(block: &[u8; 4096], count: usize) -> bool
    requires { count ≤ 4088 }
    ensures { result ≡ is_last count block.now }
{
    match next_of(block) {
        None => is_zero(&block[8 + count..]),
        Some(_) => false,
    }
}

// Whether all bytes are zeros.
fn is_zero(bytes: &[u8]) -> bool
    ensures { result ≡ list_all (λ byte. byte == 0) bytes.now }
{
    bytes.iter().all(|byte| *byte == 0)
}

// The bytes of the chain that a block holds.
fn after_mark(block: &[u8; 4096]) -> &[u8]
    ensures bytes { result.now ≡ drop 8 block.now }
    ensures whole { IsBlock block.now }
{
    block.as_slice().split_at(8).1
}

// So many of them.
fn front_of(block: &[u8; 4096], count: usize) -> &[u8]
    requires { count ≤ 4088 }
    ensures bytes { result.now ≡ take count (drop 8 block.now) }
    ensures whole { IsBlock block.now }
{
    after_mark(block).split_at(count).0
}
