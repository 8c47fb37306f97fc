// Changes of a set's bytes.
use crate::row::Change;
use crate::sets::{Block, block_of, set_block};
use sha2::{Digest, Sha256};
use std::alloc::Global;
use zc_blkptr::digest_of;
use zc_catalog::next_of;
use zc_num::{NoMemory, PlaceAt};
use zc_root::{Body, body_bytes, read_slots, slot_of};
use zc_tape::MemoryDisks;

// The bytes of the catalogue's string in a place of its chain.
const PIECE: usize = 4088;

// The bytes of a body before its digest.
const FRONT: usize = 4064;

/// What came of a change.
#[derive(Clone, Copy, Debug, PartialEq, Eq)]
pub enum Changed {
    Done,
    NoSet,
    NoPlace,
    NoRoot,
    NoMoment,
}

/// The text of it.
pub fn changed_text(changed: Changed) -> &'static str {
    match changed {
        Changed::Done => "done",
        Changed::NoSet => "no set",
        Changed::NoPlace => "no such place",
        Changed::NoRoot => "no root",
        Changed::NoMoment => "no such moment",
    }
}

// Puts bytes over those of a block, as far as it goes.
fn put_over(block: &mut [u8], from: usize, bytes: &[u8]) {
    let mut at = from;
    for byte in bytes {
        if let Some(old) = block.get_mut(at) {
            *old = *byte;
        }
        at = at.saturating_add(1);
    }
}

// Puts bytes into a place.
fn put_bytes(set: &mut MemoryDisks, at: &PlaceAt, from: usize, bytes: &[u8]) -> Changed {
    let Some(mut block) = block_of(set, at) else {
        return Changed::NoPlace;
    };
    put_over(&mut block, from, bytes);
    if set_block(set, at, &block) {
        Changed::Done
    } else {
        Changed::NoPlace
    }
}

// Makes the digest of a body right.
fn mend(set: &mut MemoryDisks, slot: u32) -> Changed {
    let place = if slot == 0 { 0 } else { 2 };
    let at = PlaceAt { device: 0, place };
    let Some(mut block) = block_of(set, &at) else {
        return Changed::NoPlace;
    };
    let digest = front_digest(&block);
    put_over(&mut block, FRONT, &digest);
    if set_block(set, &at, &block) {
        Changed::Done
    } else {
        Changed::NoPlace
    }
}

// The digest of a body's front.
fn front_digest(block: &Block) -> [u8; 32] {
    let (front, _) = block.as_slice().split_at(FRONT);
    Sha256::digest(front)
}

// Puts a body into its slot.
fn put_body(set: &mut MemoryDisks, body: &Body) -> Changed {
    let place = if slot_of(body.group) == 0 { 0 } else { 2 };
    let mut block = [0; 4096];
    body_bytes(body, &mut block);
    if set_block(set, &PlaceAt { device: 0, place }, &block) {
        Changed::Done
    } else {
        Changed::NoPlace
    }
}

// A place of a chain, with its bytes.
#[derive(Drop)]
struct Link {
    at: PlaceAt,
    block: Block,
}

// The places of a chain, as many as the body says.
fn chain_of(alloc: Global, set: &mut MemoryDisks, body: &Body) -> Result<Vec<Link>, NoMemory> {
    let mut links = Vec::new(alloc);
    let mut at = PlaceAt {
        device: body.first_device,
        place: body.first_place,
    };
    for _ in 0..body.chain {
        let Some(block) = block_of(set, &at) else {
            return Ok(links);
        };
        links.push(Link { at, block })?;
        match next_of(&block) {
            Some(next) => at = next,
            None => return Ok(links),
        }
    }
    Ok(links)
}

// The bytes of a place of a chain after its link.
fn piece_of(block: &Block) -> &[u8] {
    block.as_slice().split_at(8).1
}

// The string of a chain, of so many bytes.
fn string_of(alloc: Global, links: &[Link], length: u64) -> Result<Vec<u8>, NoMemory> {
    let mut string = Vec::new(alloc);
    for link in links {
        string.extend_from_slice(piece_of(&link.block))?;
    }
    string.truncate(length as usize);
    Ok(string)
}

// Puts a string into the places of a chain.
fn put_string(set: &mut MemoryDisks, links: &mut [Link], string: &[u8]) -> Changed {
    let mut rest = string;
    for link in links.iter_mut() {
        let (piece, after) = rest.split_at(rest.len().min(PIECE));
        put_over(&mut link.block, 8, piece);
        if !set_block(set, &link.at, &link.block) {
            return Changed::NoPlace;
        }
        rest = after;
    }
    Changed::Done
}

// Puts bytes into the string of the catalogue, and mends what is above it.
fn put_catalogue(
    alloc: Global,
    set: &mut MemoryDisks,
    from: usize,
    bytes: &[u8],
) -> Result<Changed, NoMemory> {
    let Ok((mut body, _)) = read_slots(set) else {
        return Ok(Changed::NoRoot);
    };
    let mut links = chain_of(alloc, set, &body)?;
    let mut string = string_of(alloc, &links, body.length)?;
    if string.len() < from || string.len() - from < bytes.len() {
        return Ok(Changed::NoPlace);
    }
    put_over(&mut string, from, bytes);
    if put_string(set, &mut links, &string) != Changed::Done {
        return Ok(Changed::NoPlace);
    }
    body.digest = Sha256::digest(&string);
    Ok(put_body(set, &body))
}

// Puts the digest of a block into the string of the catalogue.
fn put_digest(
    alloc: Global,
    set: &mut MemoryDisks,
    at: &PlaceAt,
    from: usize,
) -> Result<Changed, NoMemory> {
    match block_of(set, at) {
        Some(block) => put_catalogue(alloc, set, from, &digest_of(&block)),
        None => Ok(Changed::NoPlace),
    }
}

/// Changes the bytes of a set.
pub fn change_bytes(
    alloc: Global,
    set: &mut MemoryDisks,
    change: &Change,
) -> Result<Changed, NoMemory> {
    match change {
        Change::Crash { .. } => Ok(Changed::Done),
        Change::Bytes { at, from, bytes } => Ok(put_bytes(set, at, *from, bytes)),
        Change::Catalogue { from, bytes } => put_catalogue(alloc, set, *from, bytes),
        Change::Digest { at, from } => put_digest(alloc, set, at, *from),
        Change::Mend { slot } => Ok(mend(set, *slot)),
    }
}
