// Calls that no run of the program makes, and values that come from outside.
ghost use Rattle.std.specs.Prelude.{◌≡◌, ◌+◌, ◌<◌, length, slice_index};

use std::alloc::Global;
use std::marker::Brand;
use std::sync::ledger::{Blank, Ledger};
use std::test::Fail;
use zc_blkptr::{Ptr, Slot, digest_of, encode, matches};
use zc_command::{Bad, Command, Part, Refusal, Reply, What, Why};
use zc_num::{Bytes, Limits, Listed, Name, NoMemory};
use zc_plain::{Plain, PlainPool};
use zc_script::{print_line, print_reply, print_session};
use zc_spacemap::{BitMap, SpaceMap, read_map};
use zc_table::{PlainTable, RefTable, Steps, read_table};
use zc_tape::{Keep, MemoryDisks};
use zc_tree::read_dataset;
use zc_wire::{CatalogFault, Cursor, WireFault, put_u32, put_u64};

// The first 16 bytes of the SHA-256 of `abc`.
const ABC: [u8; 16] = [
    0xba, 0x78, 0x16, 0xbf, 0x8f, 0x01, 0xcf, 0xea, 0x41, 0x41, 0x40, 0xde, 0x5d, 0xae, 0x22, 0x23,
];

// The pointer to place 68 of device 0 that came into its file in group 3; group 2 wrote the block `abc`.
const PTR: Ptr = Ptr {
    device: 0,
    place: 68,
    logical: 3,
    physical: 2,
    digest: ABC,
};

const BYTES: [u8; 40] = [
    0, 0, 0, 0, 0, 0, 0, 0x44, 0, 0, 0, 0, 0, 0, 0, 3, 0, 0, 0, 0, 0, 0, 0, 2, 0xba, 0x78, 0x16,
    0xbf, 0x8f, 0x01, 0xcf, 0xea, 0x41, 0x41, 0x40, 0xde, 0x5d, 0xae, 0x22, 0x23,
];

#[test]
fn a_pointer_has_its_worked_bytes(rt: HostRuntime) {
    let mut bytes = [1u8; 40];
    encode(&Slot::At(PTR), &mut bytes);
    assert!(rt; bytes == BYTES);
    encode(&Slot::Hole, &mut bytes);
    assert!(rt; bytes == [0; 40]);
}

#[test]
fn a_block_matches_its_digest_alone(rt: HostRuntime) {
    assert!(rt; digest_of(b"abc") == ABC);
    let block = [7u8; 4096];
    let mut ptr = PTR;
    assert!(rt; !matches(&ptr, &block));
    ptr.digest = digest_of(&block);
    assert!(rt; matches(&ptr, &block));
    ptr.digest[15] ^= 1;
    assert!(rt; !matches(&ptr, &block));
}

#[test]
fn numbers_are_put_and_read_highest_byte_first(rt: HostRuntime) -> Result<(), Fail> {
    let mut out = Vec::new(rt.alloc());
    put_u32(&mut out, 0x102)?;
    put_u64(&mut out, 0x304_0506)?;
    assert!(rt; out.as_slice() == [0, 0, 1, 2, 0, 0, 0, 0, 3, 4, 5, 6].as_slice());
    let mut cursor = Cursor::new(&out);
    assert_eq!(rt; cursor.u32(), Ok(0x102));
    assert_eq!(rt; cursor.end(), Err(WireFault::Trailing { at: 4 }));
    assert_eq!(rt; cursor.u64(), Ok(0x304_0506));
    assert_eq!(rt; cursor.u32(), Err(WireFault::Short { at: 12 }));
    assert_eq!(rt; (cursor.at(), cursor.end()), (12, Ok(())));
    let fault = CatalogFault::from(WireFault::Short { at: 9 });
    assert_eq!(rt; fault, CatalogFault::BadCatalog { at: 9 });
    Ok(())
}

#[test]
fn each_refusal_has_the_number_of_its_name(rt: HostRuntime) {
    let part = Part::File;
    assert_eq!(rt; Refusal::Enoent { part }.number(), 2);
    assert_eq!(rt; Refusal::Eio { call: 12 }.number(), 5);
    assert_eq!(rt; Refusal::Enxio.number(), 6);
    let why = Why::Unmounted;
    assert_eq!(rt; Refusal::Ebusy { why }.number(), 16);
    assert_eq!(rt; Refusal::Eexist.number(), 17);
    let bad = Bad::Length;
    assert_eq!(rt; Refusal::Einval { bad }.number(), 22);
    assert_eq!(rt; Refusal::Efbig { end: 2, most: 1 }.number(), 27);
    let full = Refusal::Enospc {
        what: What::Files,
        need: 9,
        most: 8,
    };
    assert_eq!(rt; full.number(), 28);
    assert_eq!(rt; Refusal::Enametoolong { length: 65 }.number(), 36);
}

#[test]
fn refusals_that_no_command_answers_have_their_texts(rt: HostRuntime) -> Result<(), Fail> {
    let alloc = rt.alloc();
    let mut out = Vec::new(alloc);
    let refusal = Refusal::Enxio;
    print_reply(alloc, &Reply::No { refusal }, &mut out)?;
    let why = Why::Unmounted;
    let refusal = Refusal::Ebusy { why };
    print_reply(alloc, &Reply::No { refusal }, &mut out)?;
    let refusal = Refusal::Eio { call: u128::MAX };
    print_reply(alloc, &Reply::No { refusal }, &mut out)?;
    let text =
        b"ENXIO unmounted\nEBUSY unmounted\nEIO call 340282366920938463463374607431768211455\n";
    assert!(rt; out.as_slice() == text.as_slice());
    Ok(())
}

#[test]
fn lines_and_sessions_are_printed(rt: HostRuntime) -> Result<(), Fail> {
    let alloc = rt.alloc();
    let pool = Name::of(alloc, b"tank")?;
    let write = Command::Write {
        dataset: Name::of(alloc, b"d")?,
        file: Name::of(alloc, b"f")?,
        offset: 10,
        bytes: Bytes::of(alloc, &[0, 10, 171, 255])?,
    };
    let mut out = Vec::new(alloc);
    print_session(alloc, 15, &mut out)?;
    print_line(alloc, &pool, &write, &mut out)?;
    print_line(alloc, &pool, &Command::Commit, &mut out)?;
    let text = b"session 15\nwrite tank/d/f 10 000aabff\ncommit tank\n";
    assert!(rt; out.as_slice() == text.as_slice());
    Ok(())
}

#[test]
fn a_line_of_each_other_kind_is_printed(rt: HostRuntime) -> Result<(), Fail> {
    let alloc = rt.alloc();
    let pool = Name::of(alloc, b"tank")?;
    let d = Name::of(alloc, b"d")?;
    let f = Name::of(alloc, b"f")?;
    let mut out = Vec::new(alloc);
    let dataset = d.clone()?;
    print_line(alloc, &pool, &Command::Mkds { dataset }, &mut out)?;
    let dataset = d.clone()?;
    print_line(alloc, &pool, &Command::Rmds { dataset }, &mut out)?;
    let dataset = d.clone()?;
    print_line(alloc, &pool, &Command::Mount { dataset }, &mut out)?;
    let (dataset, file) = (d.clone()?, f.clone()?);
    print_line(alloc, &pool, &Command::Create { dataset, file }, &mut out)?;
    let (dataset, file) = (d.clone()?, f.clone()?);
    print_line(alloc, &pool, &Command::Remove { dataset, file }, &mut out)?;
    let (dataset, file) = (d.clone()?, f.clone()?);
    print_line(alloc, &pool, &Command::Stat { dataset, file }, &mut out)?;
    let fill = Command::Fill {
        dataset: d.clone()?,
        file: f.clone()?,
        offset: 4096,
        length: 1 << 62,
        byte: 255,
    };
    print_line(alloc, &pool, &fill, &mut out)?;
    let truncate = Command::Truncate {
        dataset: d.clone()?,
        file: f.clone()?,
        size: 5000,
    };
    print_line(alloc, &pool, &truncate, &mut out)?;
    let read = Command::Read {
        dataset: d,
        file: f,
        offset: 0,
        length: 4000,
    };
    print_line(alloc, &pool, &read, &mut out)?;
    let text =
        b"mkds tank/d\nrmds tank/d\nmount tank/d\ncreate tank/d/f\nremove tank/d/f\nstat tank/d/f\n\
        fill tank/d/f 4096 4611686018427387904 255\ntruncate tank/d/f 5000\nread tank/d/f 0 4000\n";
    assert!(rt; out.as_slice() == text.as_slice());
    Ok(())
}

#[test]
fn commands_and_replies_are_compared_by_value(rt: HostRuntime) -> Result<(), Fail> {
    let alloc = rt.alloc();
    let name = Name::of(alloc, b"ab")?;
    let next = Name::of(alloc, b"ac")?;
    assert!(rt; name != next && name < next);
    let command = Command::Mkds { dataset: name };
    let other = Command::Mkds { dataset: next };
    assert!(rt; command == command.clone()? && command != other);
    let bytes = Bytes::of(alloc, b"x")?;
    let reply = Reply::Data { bytes };
    assert!(rt; reply == reply.clone()? && reply != Reply::Done);
    Ok(())
}

#[test]
fn refusals_are_compared_by_their_fields(rt: HostRuntime) {
    let file = Refusal::Enoent { part: Part::File };
    let dataset = Refusal::Enoent {
        part: Part::Dataset,
    };
    assert!(rt; file == file && file != dataset && file != Refusal::Eexist);
}

#[test]
fn a_plain_pool_begins_without_files(rt: HostRuntime) -> Result<(), Fail> {
    let alloc = rt.alloc();
    let limits = Limits::of(1, 1024).ok_or("limits")?;
    let plain = Plain::start(alloc, limits);
    let name = Name::of(alloc, b"d")?;
    assert!(rt; plain.file(&name, &name).is_none());
    assert_eq!(rt; (plain.entries(), plain.pool().datasets.len()), (0, 0));
    Ok(())
}

// A pool without datasets, as it was found.
#[tactic(auto, using(zc_plain::proofs::HistoryLaws::state_at_start))]
fn found_pool(alloc: Global) -> Result<Plain, Fail> {
    let limits = Limits::of(1, 1024).ok_or("limits")?;
    let pool = PlainPool {
        limits,
        next_dataset: 1,
        datasets: Listed::new(alloc),
    };
    Ok(Plain::found(alloc, pool)?)
}

#[test]
fn a_pool_that_was_found_begins_before_any_entry(rt: HostRuntime) -> Result<(), Fail> {
    let plain = found_pool(rt.alloc())?;
    assert_eq!(rt; plain.entries(), 0);
    assert_eq!(rt;
        (plain.pool().next_dataset, plain.pool().datasets.len()),
        (1, 0)
    );
    Ok(())
}

// Dataset 1 in slot 7, named `d`, with next file 1 and no file, and a byte behind it.
const DATASET: [u8; 34] = [
    0, 0, 0, 0, 0, 0, 0, 1, 0, 0, 0, 7, 0, 0, 0, 1, 0x64, 0, 0, 0, 0, 0, 0, 0, 1, 0, 0, 0, 0, 0, 0,
    0, 0, 9,
];

#[test]
fn each_part_of_a_catalogue_is_read_by_itself(rt: HostRuntime) -> Result<(), Fail> {
    let alloc = rt.alloc();
    let limits = Limits::of(1, 1024).ok_or("limits")?;
    let (dataset, read) = read_dataset(alloc, &DATASET, &limits, 3, 2)?;
    assert_eq!(rt;
        (dataset.id, dataset.slot, dataset.next_file, read),
        (1, 7, 1, 33)
    );
    // One entry and sixteen counters.
    let mut bytes = Vec::new(alloc);
    for number in [1, 68, 2] {
        put_u32(&mut bytes, number)?;
    }
    for counter in 0..16 {
        put_u32(&mut bytes, counter)?;
    }
    let (table, read) = read_table(alloc, &bytes, &limits, 0)?;
    assert_eq!(rt;
        (table.entries.len(), table.regions.len(), read),
        (1, 16, 76)
    );
    assert!(rt; table.regions.get(15) == Some(&15));
    let (map, read) = read_map(alloc, &[0x0f; 16], 128)?;
    assert_eq!(rt; (map.allocated.len(), read), (128, 16));
    assert!(rt; map.allocated.get(3) == Some(&true) && map.allocated.get(4) == Some(&false));
    Ok(())
}

// A count by two look-ups, which are two steps.
fn look_twice<T: RefTable, L: Ledger>(table: &T, place: u32, steps: &mut Steps<L>) -> u32
    requires { place < length (T.counts table.now) }
    ensures value { result ≡ slice_index (T.counts table.now) place }
    ensures ticks { steps.new ≡ steps.old + 2 }
{
    table.count(place, steps);
    table.count(place, steps)
}

// The same with a counter of its own.
fn look_up<T: RefTable, L: Ledger>(table: &T, place: u32, blank: Blank) -> u32
    requires there { place < length (T.counts table.now) }
    requires name { blank.name ≡ L.name }
    requires parts { blank.parts ≡ L.parts }
    requires some { 0 < blank.parts }
    ensures { result ≡ slice_index (T.counts table.now) place }
{
    let mut steps = Steps::<L>::new(blank);
    look_twice(table, place, &mut steps)
}

// The count of a place, by look-ups that nobody counts.
fn count_of(table: &PlainTable, place: u32) -> Option<u32> {
    if table.places() <= place {
        return None;
    }
    Some(look_up::<PlainTable, Brand>(table, place, Blank::new(1)))
}

#[test]
fn a_look_up_of_a_count_is_a_step(rt: HostRuntime) -> Result<(), Fail> {
    let mut table = PlainTable::new(rt.alloc(), 128)?;
    assert_eq!(rt; count_of(&table, 69), Some(0));
    assert_eq!(rt; count_of(&table, 128), None);
    if 69 < table.places() && table.region(69) == 0 {
        table.add(69, 3)?;
    }
    assert_eq!(rt; count_of(&table, 69), Some(3));
    assert_eq!(rt; (table.used(), table.saved()), (1, 3));
    Ok(())
}

// Makes room for one place, and takes it.
fn take_one<M: SpaceMap>(map: &mut M, rotor: u32) -> Result<Option<u32>, NoMemory>
    ensures { length (M.states map.new) ≡ length (M.states map.old) }
{
    map.reserve(1)?;
    Ok(map.take(rotor))
}

// Gives a place that may be given, and says whether it was.
#[tactic(auto, using(zc_spacemap::proofs::StateLaws::allocated_only))]
fn give<M: SpaceMap>(map: &mut M, places: u32, place: u32) -> Result<bool, NoMemory>
    requires { places ≡ length (M.states map.old) }
    ensures { length (M.states map.new) ≡ length (M.states map.old) }
{
    if place >= places || !map.is_allocated(place) || map.is_given(place) {
        return Ok(false);
    }
    map.give_later(place)?;
    Ok(true)
}

#[test]
fn a_given_place_is_taken_once_the_map_is_settled(rt: HostRuntime) -> Result<(), Fail> {
    let mut map = BitMap::new(rt.alloc(), 128)?;
    assert_eq!(rt; take_one(&mut map, 127)?, Some(127));
    assert_eq!(rt; take_one(&mut map, 127)?, Some(0));
    assert!(rt; give(&mut map, 128, 127)? && !give(&mut map, 128, 127)?);
    assert!(rt; !give(&mut map, 128, 5)?);
    assert_eq!(rt;
        (map.free_count(), take_one(&mut map, 127)?),
        (126, Some(1))
    );
    map.settle();
    assert_eq!(rt;
        (map.free_count(), take_one(&mut map, 127)?),
        (126, Some(127))
    );
    Ok(())
}

#[test]
fn a_set_laid_by_hand_is_left_as_it_was(rt: HostRuntime) -> Result<(), Fail> {
    let mut disks = MemoryDisks::new(rt.alloc(), 1, 3, &[])?;
    disks.put(0, 2, &[7; 4096]);
    assert_eq!(rt; disks.calls(), 0);
    let left = disks.leave(0, &[Keep::Half])?;
    assert_eq!(rt; left.calls(), 0);
    Ok(())
}
