// The catalogue of a group: its places, its bytes, and the blocks that hold them.
ghost use Rattle.std.specs.Prelude.{◌≡◌, ℕ, ◌+◌, ◌<◌, ◌≤◌, ◌^◌, [], ◌∷◌, ◌++◌, List, length, map, take, None, IfOk, OnOk};
ghost use Rattle.sha2.specs.Sha256.{sha256};
ghost use Rattle.zc_table.specs.Plain.{counts_of};
ghost use Rattle.zc_tree.specs.Catalogue.{catalogue_bytes, AreDatasets, HasTreeWidths};
ghost use Rattle.zc_tree.specs.Reach.{pointers_of_tree};
ghost use Rattle.zc_catalog.specs.Chain.{chain_length, links};
ghost use Rattle.zc_layout.specs.Layout.{at_places};
ghost use Rattle.zc_plan.specs.Puts.{puts_of};
ghost use Rattle.zc_damage.specs.Checks.{charge_hit};
ghost use Rattle.zc_damage.specs.Places.{ReachPlaces, ChainPlaces};
ghost use Rattle.zc_next.specs.Exact.{exact_counts, exact_parts, body_for, first_of_chain};
ghost use Rattle.zc_next.specs.Next.{next_bytes};
ghost use Rattle.zc_group.specs.Chosen.{chain_for};
ghost use Rattle.zc_group.specs.Spelled.{IsChainFor, Spells};

use crate::choosing::free_places;
use crate::measuring::catalogue_bytes_of;
use sha2::{Digest, Sha256};
use std::alloc::Global;
use zc_blkptr::Ptr;
use zc_catalog::{Chain, link};
use zc_damage::{Census, charge_hit};
use zc_next::{exact_maps, exact_tables};
use zc_num::{Boxed, Limits, Listed, NoMemory, PlaceAt};
use zc_plan::PlacedBlock;
use zc_root::Body;
use zc_table::PlainTable;
use zc_tree::{Catalogue, Tree};

/// What a group writes of its tree.
#[derive(Debug, Drop)]
pub struct Written {
    /// The body of its root.
    pub body: Body,
    /// The places of its catalogue.
    pub chain: Listed<PlaceAt>,
    /// The block for each of them.
    pub blocks: Listed<PlacedBlock>,
}

/// The catalogue of a tree with exact tables and maps, over the first places that the census says nobody owns.
///
/// # Errors
/// Want of memory, and where too few places are free, or more have blocks than the pool has for data.
#[tactic(auto, using(crate::proofs::SpellLaws::reach_there, crate::proofs::SpellLaws::fits_of_tree, crate::proofs::SpellLaws::spelled))]
pub fn write_catalogue(
    alloc: Global,
    limits: &Limits,
    pool: u64,
    tree: &Tree,
    taken: &Census,
) -> Result<Written, NoMemory>
    requires widths { HasTreeWidths tree.now }
    requires few { length tree.now.datasets ≤ 8 }
    requires datasets { AreDatasets limits.now.devices limits.now.places tree.now.group tree.now.next_dataset [] tree.now.datasets }
    requires devices { taken.now.devices ≡ limits.now.devices }
    requires places { taken.now.places ≡ limits.now.places }
    ensures spells { IfOk result (λ written. Spells (record { devices = limits.now.devices; places = limits.now.places }) pool
        (chain_for (record { devices = limits.now.devices; places = limits.now.places }) taken.now.chain taken.now.reach tree.now) tree.now written) }
    ensures charge { OnOk result (charge_hit limits.now.devices limits.now.places tree.now.group (pointers_of_tree tree.now) ≡ None) }
{
    let reach = tree.walk(alloc)?;
    let tables = tables_for(alloc, limits, tree.group, reach.as_slice())?;
    let chain = choose_chain(alloc, limits, tree, &tables, taken)?;
    let bytes = encode_over(
        alloc,
        limits,
        tree,
        reach.as_slice(),
        &tables,
        chain.as_slice(),
    )?;
    spell(alloc, limits, pool, tree, chain, bytes.as_slice())
}

// The places of the catalogue. How many it takes follows from the tree and its tables.
#[tactic(auto, using(crate::proofs::SpellLaws::chosen_chain))]
fn choose_chain(
    alloc: Global,
    limits: &Limits,
    tree: &Tree,
    tables: &Listed<PlainTable>,
    taken: &Census,
) -> Result<Listed<PlaceAt>, NoMemory>
    requires datasets { AreDatasets limits.now.devices limits.now.places tree.now.group tree.now.next_dataset [] tree.now.datasets }
    requires tables { map counts_of tables.now ≡ exact_counts limits.now.devices limits.now.places (pointers_of_tree tree.now) }
    requires devices { taken.now.devices ≡ limits.now.devices }
    requires places { taken.now.places ≡ limits.now.places }
    ensures { IfOk result (λ chain. IsChainFor (record { devices = limits.now.devices; places = limits.now.places }) taken.now.chain taken.now.reach tree.now chain) }
{
    let size = catalogue_bytes_of(limits, tree, tables)?;
    free_places(alloc, taken, places_for(size))
}

// How many places so many bytes take.
fn places_for(bytes: usize) -> usize
    ensures { result ≡ chain_length bytes }
{
    let full = bytes / 4088;
    if bytes % 4088 == 0 { full } else { full + 1 }
}

// The tables that the pointers of a group want, where the pool has as many places for data as they are to.
#[tactic(auto, using(crate::proofs::SpellLaws::fits_counted))]
fn tables_for(
    alloc: Global,
    limits: &Limits,
    group: u64,
    reach: &[Ptr],
) -> Result<Listed<PlainTable>, NoMemory>
    requires { ReachPlaces limits.now.devices limits.now.places reach.now }
    ensures tables { IfOk result (λ tables. map counts_of tables ≡ exact_counts limits.now.devices limits.now.places reach.now) }
    ensures charge { OnOk result (charge_hit limits.now.devices limits.now.places group reach.now ≡ None) }
{
    let census = Census::of(alloc, limits, reach, &[])?;
    match charge_hit(group, &census) {
        Some(_) => Err(NoMemory),
        None => exact_tables(alloc, &census),
    }
}

// The bytes of the catalogue over these places.
fn encode_over(
    alloc: Global,
    limits: &Limits,
    tree: &Tree,
    reach: &[Ptr],
    tables: &Listed<PlainTable>,
    chain: &[PlaceAt],
) -> Result<Vec<u8>, NoMemory>
    requires widths { HasTreeWidths tree.now }
    requires reach_is { reach.now ≡ pointers_of_tree tree.now }
    requires reach_places { ReachPlaces limits.now.devices limits.now.places reach.now }
    requires chain_places { ChainPlaces limits.now.devices limits.now.places chain.now }
    requires tables { map counts_of tables.now ≡ exact_counts limits.now.devices limits.now.places reach.now }
    ensures { IfOk result (λ bytes. bytes.items ≡ catalogue_bytes (exact_parts limits.now.devices limits.now.places chain.now tree.now)) }
{
    let census = Census::of(alloc, limits, reach, chain)?;
    encode_by(alloc, tree, tables, &census)
}

// The bytes of the catalogue, with the maps that a census wants.
#[tactic(auto, using(zc_num::proofs::Each::length_each, crate::proofs::SpellLaws::same_count))]
fn encode_by(
    alloc: Global,
    tree: &Tree,
    tables: &Listed<PlainTable>,
    census: &Census,
) -> Result<Vec<u8>, NoMemory>
    requires widths { HasTreeWidths tree.now }
    requires reach_is { census.now.reach ≡ pointers_of_tree tree.now }
    requires tables { map counts_of tables.now ≡ exact_counts census.now.devices census.now.places census.now.reach }
    ensures { IfOk result (λ bytes. bytes.items ≡ catalogue_bytes (exact_parts census.now.devices census.now.places census.now.chain tree.now)) }
{
    let maps = exact_maps(alloc, census)?;
    Chain::encode(alloc, tree, tables, &maps)
}

// The body and the blocks of a catalogue with these bytes over these places.
fn spell(
    alloc: Global,
    limits: &Limits,
    pool: u64,
    tree: &Tree,
    chain: Listed<PlaceAt>,
    bytes: &[u8],
) -> Result<Written, NoMemory>
    requires few { length chain < 2 ^ 32 }
    requires long_enough { length chain ≡ chain_length (length bytes.now) }
    ensures chain { IfOk result (λ written. written.chain ≡ chain) }
    ensures body { IfOk result (λ written. written.body
        ≡ body_for pool (record { devices = limits.now.devices; places = limits.now.places }) tree.now chain bytes.now) }
    ensures blocks { IfOk result (λ written. puts_of written.blocks ≡ at_places chain (links chain bytes.now)) }
{
    let body = body_of(limits, pool, tree, chain.as_slice(), bytes);
    let blocks = blocks_of(alloc, chain.as_slice(), bytes)?;
    Ok(Written {
        body,
        chain,
        blocks,
    })
}

// The body of the root of a tree whose catalogue has these bytes over these places.
fn body_of(limits: &Limits, pool: u64, tree: &Tree, chain: &[PlaceAt], bytes: &[u8]) -> Body
    requires few { length chain.now < 2 ^ 32 }
    ensures { result ≡ body_for pool (record { devices = limits.now.devices; places = limits.now.places }) tree.now chain.now bytes.now }
{
    let first = first_of(chain);
    Body {
        pool,
        group: tree.group,
        devices: limits.devices(),
        places: limits.places(),
        next_dataset: tree.next_dataset,
        first_device: first.device,
        first_place: first.place,
        chain: chain.len() as u32,
        length: bytes.len() as u64,
        digest: whole_digest(bytes),
    }
}

// The first of the places, if there is one.
fn first_of(chain: &[PlaceAt]) -> PlaceAt
    ensures { result ≡ first_of_chain chain.now }
{
    match chain.first() {
        Some(at) => *at,
        None => PlaceAt {
            device: 0,
            place: 0,
        },
    }
}

// The SHA-256 of these bytes.
pub fn whole_digest(bytes: &[u8]) -> [u8; 32]
    ensures { result ≡ sha256 bytes.now }
{
    Sha256::digest(bytes)
}

// The blocks of a catalogue with these bytes, each at its place.
#[tactic(auto, using(crate::proofs::SpellLaws::length_links))]
fn blocks_of(
    alloc: Global,
    chain: &[PlaceAt],
    bytes: &[u8],
) -> Result<Listed<PlacedBlock>, NoMemory>
    requires { length chain.now ≡ chain_length (length bytes.now) }
    ensures { IfOk result (λ blocks. puts_of blocks ≡ at_places chain.now (links chain.now bytes.now)) }
{
    let linked = link(alloc, bytes, chain)?;
    put_each(alloc, chain, linked)
}

// The blocks, each at the place of its number.
fn put_each(
    alloc: Global,
    chain: &[PlaceAt],
    linked: Vec<Boxed<[u8; 4096]>>,
) -> Result<Listed<PlacedBlock>, NoMemory>
    requires { length chain.now ≡ length linked.items }
    ensures { IfOk result (λ blocks. puts_of blocks ≡ at_places chain.now linked.items) }
{
    let mut blocks = Listed::new(alloc);
    let mut index = 0usize;
    for bytes in linked {
        put_one(chain, index, bytes, &mut blocks)?;
        index += 1;
    }
    Ok(blocks)
}

// One block more, at the place of this number.
fn put_one(
    chain: &[PlaceAt],
    index: usize,
    bytes: Boxed<[u8; 4096]>,
    blocks: &mut Listed<PlacedBlock>,
) -> Result<(), NoMemory>
    requires { index < length chain.now }
    ensures { OnOk result ((done : List (List ℕ)) → index ≡ length done → puts_of blocks.old ≡ at_places (take index chain.now) done
        → puts_of blocks.new ≡ at_places (take (index + 1) chain.now) (done ++ bytes ∷ [])) }
{
    let at = chain[index];
    blocks.push(PlacedBlock {
        device: at.device,
        place: at.place,
        bytes,
    })
}
