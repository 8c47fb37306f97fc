// What a command that isn't refused makes of a heart.
ghost use Rattle.std.specs.Prelude.{◌≡◌, ◌∷◌, ◌++◌, [], ◌+◌, ◌-◌, ◌*◌, ◌/◌, ◌^◌, ◌<◌, ◌≤◌, ◌==◌, Ok, Some, None, IfOk, OnOk, OnErr, IsSome, IsTrue, ℕ, false, count_by, find, is_some, length, slice_get};
ghost use Rattle.zc_plain.specs.Answer.{most_bytes, most_charge, most_datasets, most_files};
ghost use Rattle.zc_plain.specs.IsPlain.{AreNextUpTo};
ghost use Rattle.zc_plain.specs.Putting.{first_touched, touched_count};
ghost use Rattle.zc_heart.specs.Core.{plain_block, pool_of, charge, areas_of, IsCore, IsHeartFile, IsDatasetOfCore};
ghost use Rattle.zc_heart.specs.Deeds.{files_in, file_on, dataset_index, unmade_on, trimmed_on, with_dataset, with_file, IsFreshIn, IsChangeable, stamps_in_files, CountsAll, TakesFile, ChangesFile, ChangesFileAt, IsNoted, Puts, Cuts, Keeps, Becomes, IsLeft};
ghost use Rattle.zc_heart.specs.Deeds as deeds;
ghost use Rattle.zc_heart.specs.Directory.{id_called, is_numbered};
ghost use Rattle.zc_heart.specs.File.{stamps_in, Counts, IsNew};
ghost use Rattle.zc_heart.specs.Input.{input_bytes};
ghost use Rattle.zc_heart.specs.Stamps.{files_at, Moves, LearnsNothing, holds_number};
ghost use Rattle.std.specs.List.{AllByRecursion, list_any};
ghost use Rattle.zc_num.specs.Words.{change_at};
ghost use Rattle.zc_plain.specs.Charge.{is_stamp, stamp_of};

use crate::changes::Change;
use crate::dataset::{Spot, dataset_at};
use crate::directory::Directory;
use crate::file::{HeartFile, HeldBlock};
use crate::pool_core::{Core, HeartDataset};
use crate::room::{unmade_touched, unmade_trimmed};
use crate::stamps::{Numbers, Stamp, Stamps};
use crate::truncating::truncate_into;
use crate::writing::{Input, write_into};
use std::alloc::Global;
use zc_num::{Listed, Name, NoMemory, Ordered};

// ---- datasets

/// A new dataset, under a name that none has. It takes the lowest log area that is free.
///
/// # Errors
/// Want of memory; nothing has changed.
pub fn add_dataset(alloc: Global, core: &mut Core, name: &Name) -> Result<(), NoMemory>
    requires core { IsCore core.old }
    requires missing { is_some (dataset_index name.now core.old) ≡ false }
    requires few { length core.old.datasets + 1 ≤ most_datasets }
    requires number { core.old.next_dataset < 2 ^ 64 - 1 }
    ensures ok { OnOk result (Becomes (deeds.AddDataset name.now) core.old core.new) }
    ensures err { OnErr result (IsLeft core.old core.new) }
    ensures last { core.new.last ≡ core.old.last }
{
    let area = free_area(core);
    push_dataset(alloc, core, area, name)
}

// Whether a dataset has the log area.
fn has_area(core: &Core, area: u32) -> bool
    ensures { result ≡ list_any (λ (other : ℕ). other == area) (areas_of core.now) }
{
    is_taken(core.datasets.as_slice(), area)
}

// Whether one of the datasets has the log area.
fn is_taken(datasets: &[HeartDataset], area: u32) -> bool
    ensures { result ≡ list_any (λ dataset. dataset.area == area) datasets.now }
{
    datasets.iter().any(|dataset| dataset.area == area)
}

// The lowest log area that is free.
fn free_area(core: &Core) -> u32
    requires { length core.now.datasets < 8 }
    ensures few { result < 8 }
    ensures free { list_any (λ (other : ℕ). other == result) (areas_of core.now) ≡ false }
{
    for area in 0..8 {
        if !has_area(core, area) {
            return area;
        }
    }
    unreachable!()
}

// Adds the dataset.
#[tactic(auto, using(crate::proofs::Ready::without_last))]
fn push_dataset(alloc: Global, core: &mut Core, area: u32, name: &Name) -> Result<(), NoMemory>
    requires { core.old.next_dataset < 2 ^ 64 - 1 }
    ensures ok { OnOk result (core.new ≡ with_dataset area name.now core.old) }
    ensures err { OnErr result (core.new ≡ core.old) }
{
    let dataset = HeartDataset {
        id: core.next_dataset,
        area,
        name: name.clone()?,
        next_file: 1,
        pointers: 0,
        files: Directory::new(alloc),
        changed: Numbers::new(alloc),
    };
    let change = Change::MakeDataset {
        id: core.next_dataset,
        slot: area,
        name: name.clone()?,
    };
    core.log.push(change)?;
    if core.datasets.push(dataset).is_err() {
        drop(core.log.pop());
        return Err(NoMemory);
    }
    core.next_dataset += 1;
    Ok(())
}

/// The dataset at the place goes, with its files.
///
/// # Errors
/// Want of memory; nothing has changed.
pub fn drop_dataset(core: &mut Core, place: usize) -> Result<(), NoMemory>
    requires core { IsCore core.old }
    requires within { place < length core.old.datasets }
    ensures ok { OnOk result (Becomes (deeds.DropDataset place) core.old core.new) }
    ensures err { OnErr result (IsLeft core.old core.new) }
    ensures last { core.new.last ≡ core.old.last }
{
    let id = dataset_at(core, place).id;
    core.log.push(Change::DropDataset { id })?;
    let mut dataset = core.datasets.remove(place);
    drop_files(&mut dataset.files, &mut core.stamps);
    Ok(())
}

// The blocks of the files are no longer counted.
fn drop_files(files: &mut Directory<HeartFile>, stamps: &mut Stamps)
    requires counted { CountsAll stamps.old files.old }
    requires hearts { AllByRecursion (λ named. IsHeartFile named.value) files.old }
    ensures moves { Moves stamps.old stamps.new (stamps_in_files files.old) [] }
    ensures learns { LearnsNothing stamps.old stamps.new }
{
    for _ in 0..files.len() {
        if let Some(named) = files.take_first() {
            leave_file(&named.value, stamps);
        }
    }
}

// The blocks of the file are no longer counted.
fn leave_file(file: &HeartFile, stamps: &mut Stamps)
    requires heart { IsHeartFile file.now }
    requires counted { Counts stamps.old file.now }
    ensures moves { Moves stamps.old stamps.new (stamps_in file.now) [] }
    ensures learns { LearnsNothing stamps.old stamps.new }
{
    for (_, held) in file.blocks.iter() {
        leave_block(held, stamps);
    }
}

// The block is no longer counted, where there is one.
fn leave_block(held: &Option<HeldBlock>, stamps: &mut Stamps)
    requires { (stamp : ℕ × ℕ) → count_by (is_stamp stamp) (stamp_of (plain_block (Some held.now))) ≤ files_at stamps.old stamp }
    ensures moves { Moves stamps.old stamps.new (stamp_of (plain_block (Some held.now))) [] }
    ensures learns { LearnsNothing stamps.old stamps.new }
{
    if let Some(block) = held {
        stamps.leave(Stamp {
            entry: block.entry,
            index: block.index,
        });
    }
}

// ---- files

/// A new file of the dataset at the place, under a name that none of its files has.
///
/// # Errors
/// Want of memory; nothing has changed.
pub fn add_file(alloc: Global, core: &mut Core, place: usize, name: &Name) -> Result<(), NoMemory>
    requires core { IsCore core.old }
    requires within { place < length core.old.datasets }
    requires missing { is_some (id_called name.now (files_in place core.old)) ≡ false }
    requires few { length (files_in place core.old) + 1 ≤ most_files (pool_of core.old) }
    requires numbers { AreNextUpTo (2 ^ 64 - 2) (pool_of core.old) }
    ensures ok { OnOk result (Becomes (deeds.AddFile place name.now) core.old core.new) }
    ensures err { OnErr result (IsLeft core.old core.new) }
    ensures last { core.new.last ≡ core.old.last }
{
    let dataset = dataset_at(core, place);
    let change = Change::MakeFile {
        dataset: dataset.id,
        file: dataset.next_file,
        name: name.clone()?,
    };
    core.log.push(change)?;
    if push_file_at(alloc, core, place, name).is_err() {
        drop(core.log.pop());
        return Err(NoMemory);
    }
    Ok(())
}

// Adds the file to the dataset at the place.
fn push_file_at(alloc: Global, core: &mut Core, place: usize, name: &Name) -> Result<(), NoMemory>
    requires within { place < length core.old.datasets }
    requires fresh { (dataset : HeartDataset) → slice_get core.old.datasets place ≡ Some dataset → IsFreshIn name.now dataset }
    ensures ok { OnOk result (core.new ≡ record core.old { datasets = change_at (with_file name.now) place core.old.datasets }) }
    ensures err { OnErr result (core.new ≡ core.old) }
{
    push_file(alloc, core.datasets.at_mut(place), name)
}

// Adds the file to the dataset.
fn push_file(alloc: Global, dataset: &mut HeartDataset, name: &Name) -> Result<(), NoMemory>
    requires { IsFreshIn name.now dataset.old }
    ensures ok { OnOk result (dataset.new ≡ with_file name.now dataset.old) }
    ensures err { OnErr result (dataset.new ≡ dataset.old) }
{
    let file = HeartFile {
        size: 0,
        blocks: Ordered::new(alloc),
        marks: Ordered::new(alloc),
        pointers: 0,
        sized: false,
    };
    dataset.files.push(dataset.next_file, name.clone()?, file)?;
    dataset.next_file += 1;
    Ok(())
}

/// The file goes.
///
/// # Errors
/// Want of memory; nothing has changed.
pub fn drop_file(core: &mut Core, spot: Spot) -> Result<(), NoMemory>
    requires core { IsCore core.old }
    requires within { spot.place < length core.old.datasets }
    requires there { IsSome (file_on spot core.old) }
    ensures ok { OnOk result (Becomes (deeds.DropFile spot) core.old core.new) }
    ensures err { OnErr result (IsLeft core.old core.new) }
    ensures last { core.new.last ≡ core.old.last }
{
    let id = dataset_at(core, spot.place).id;
    core.log.push(Change::DropFile {
        dataset: id,
        file: spot.id,
    })?;
    take_file(core.datasets.at_mut(spot.place), &mut core.stamps, spot.id);
    Ok(())
}

// Takes the file out of the dataset.
fn take_file(dataset: &mut HeartDataset, stamps: &mut Stamps, id: u64)
    requires there { IsSome (find (is_numbered id) dataset.old.files) }
    requires dataset { IsDatasetOfCore dataset.old }
    requires counted { CountsAll stamps.old dataset.old.files }
    ensures { TakesFile id dataset.old dataset.new stamps.old stamps.new }
{
    let named = dataset.files.remove(id);
    dataset.pointers -= named.value.pointers;
    leave_file(&named.value, stamps);
}

// ---- the bytes and the size of a file

/// The bytes, of which there are some, stand in the file from the offset on, by the command with the number.
///
/// # Errors
/// Want of memory; no file has changed.
pub fn put_bytes(
    alloc: Global,
    core: &mut Core,
    spot: Spot,
    number: u64,
    offset: u64,
    input: &Input,
) -> Result<(), NoMemory>
    requires core { IsCore core.old }
    requires number { core.old.last < number }
    requires within { spot.place < length core.old.datasets }
    requires there { IsSome (file_on spot core.old) }
    requires some { 0 < length (input_bytes input.now) }
    requires ends { offset + length (input_bytes input.now) ≤ most_bytes (pool_of core.old) }
    requires charge { charge core.old + unmade_on (first_touched offset) (touched_count offset (length (input_bytes input.now))) spot core.old ≤ most_charge (pool_of core.old) }
    ensures ok { OnOk result (Becomes (deeds.PutBytes number spot offset (input_bytes input.now)) core.old core.new) }
    ensures err { OnErr result (IsLeft core.old core.new) }
    ensures last { core.new.last ≤ number }
{
    let made = unmade_touched(core, spot, offset, input.len());
    write_in(
        alloc,
        &mut core.datasets,
        &mut core.stamps,
        spot,
        number,
        offset,
        input,
    )?;
    core.made += made;
    core.last = number;
    Ok(())
}

// Writes the bytes into the file that stands there.
fn write_in(
    alloc: Global,
    datasets: &mut Listed<HeartDataset>,
    stamps: &mut Stamps,
    spot: Spot,
    number: u64,
    offset: u64,
    input: &Input,
) -> Result<(), NoMemory>
    requires within { spot.place < length datasets.old }
    requires fits { (dataset : HeartDataset) → slice_get datasets.old spot.place ≡ Some dataset → IsChangeable spot.id number dataset stamps.old }
    requires some { 0 < length (input_bytes input.now) }
    requires ends { offset + length (input_bytes input.now) ≤ 2 ^ 28 }
    ensures ok { OnOk result (ChangesFileAt spot (Puts number offset (input_bytes input.now) stamps.old stamps.new) datasets.old datasets.new) }
    ensures noted { OnOk result (IsNoted spot datasets.new) }
    ensures err { OnErr result (ChangesFileAt spot (Keeps stamps.old stamps.new) datasets.old datasets.new) }
{
    let dataset = datasets.at_mut(spot.place);
    write_in_dataset(alloc, dataset, stamps, spot.id, number, offset, input)
}

// Writes the bytes into the file of the dataset.
fn write_in_dataset(
    alloc: Global,
    dataset: &mut HeartDataset,
    stamps: &mut Stamps,
    id: u64,
    number: u64,
    offset: u64,
    input: &Input,
) -> Result<(), NoMemory>
    requires fits { IsChangeable id number dataset.old stamps.old }
    requires some { 0 < length (input_bytes input.now) }
    requires ends { offset + length (input_bytes input.now) ≤ 2 ^ 28 }
    ensures ok { OnOk result (ChangesFile id (Puts number offset (input_bytes input.now) stamps.old stamps.new) dataset.old dataset.new) }
    ensures noted { OnOk result (IsTrue (holds_number id dataset.new.changed)) }
    ensures err { OnErr result (ChangesFile id (Keeps stamps.old stamps.new) dataset.old dataset.new) }
{
    dataset.changed.insert(id)?;
    let file = dataset.files.value_mut(id);
    let before = file.pointers;
    let result = write_into(alloc, file, stamps, number, offset, input);
    let behind = file.pointers;
    dataset.pointers = dataset.pointers + behind - before;
    result
}

/// The file gets the size, by the command with the number.
///
/// # Errors
/// Want of memory; no file has changed.
pub fn set_size(
    alloc: Global,
    core: &mut Core,
    spot: Spot,
    number: u64,
    size: u64,
) -> Result<(), NoMemory>
    requires core { IsCore core.old }
    requires number { core.old.last < number }
    requires within { spot.place < length core.old.datasets }
    requires there { IsSome (file_on spot core.old) }
    requires ends { size ≤ most_bytes (pool_of core.old) }
    requires charge { charge core.old + unmade_on (size / 4096) (trimmed_on size spot core.old) spot core.old ≤ most_charge (pool_of core.old) }
    ensures ok { OnOk result (Becomes (deeds.SetSize number spot size) core.old core.new) }
    ensures err { OnErr result (IsLeft core.old core.new) }
    ensures last { core.new.last ≤ number }
{
    let made = unmade_trimmed(core, spot, size);
    truncate_in(
        alloc,
        &mut core.datasets,
        &mut core.stamps,
        spot,
        number,
        size,
    )?;
    core.made += made;
    core.last = number;
    Ok(())
}

// Gives the file that stands there the size.
fn truncate_in(
    alloc: Global,
    datasets: &mut Listed<HeartDataset>,
    stamps: &mut Stamps,
    spot: Spot,
    number: u64,
    size: u64,
) -> Result<(), NoMemory>
    requires within { spot.place < length datasets.old }
    requires fits { (dataset : HeartDataset) → slice_get datasets.old spot.place ≡ Some dataset → IsChangeable spot.id number dataset stamps.old }
    requires ends { size ≤ 2 ^ 28 }
    ensures ok { OnOk result (ChangesFileAt spot (Cuts number size stamps.old stamps.new) datasets.old datasets.new) }
    ensures noted { OnOk result (IsNoted spot datasets.new) }
    ensures err { OnErr result (ChangesFileAt spot (Keeps stamps.old stamps.new) datasets.old datasets.new) }
{
    let dataset = datasets.at_mut(spot.place);
    truncate_in_dataset(alloc, dataset, stamps, spot.id, number, size)
}

// Gives the file of the dataset the size.
fn truncate_in_dataset(
    alloc: Global,
    dataset: &mut HeartDataset,
    stamps: &mut Stamps,
    id: u64,
    number: u64,
    size: u64,
) -> Result<(), NoMemory>
    requires fits { IsChangeable id number dataset.old stamps.old }
    requires ends { size ≤ 2 ^ 28 }
    ensures ok { OnOk result (ChangesFile id (Cuts number size stamps.old stamps.new) dataset.old dataset.new) }
    ensures noted { OnOk result (IsTrue (holds_number id dataset.new.changed)) }
    ensures err { OnErr result (ChangesFile id (Keeps stamps.old stamps.new) dataset.old dataset.new) }
{
    dataset.changed.insert(id)?;
    let file = dataset.files.value_mut(id);
    let before = file.pointers;
    let result = truncate_into(alloc, file, stamps, number, size);
    let behind = file.pointers;
    dataset.pointers = dataset.pointers + behind - before;
    result
}
