// What each command does, once its names are known to be short enough.
ghost use Rattle.std.specs.Prelude.{◌≡◌, ◌+◌, ◌-◌, ◌^◌, ◌<◌, ◌≤◌, Ok, length, replicate, slice_get, IfOk, OnOk, OnErr};
ghost use Rattle.zc_num.specs.Words.{change_at};
ghost use Rattle.zc_plain.specs.declared.plain_pool.PlainFile.{PlainFile};
ghost use Rattle.zc_plain.specs.PlainPool.{dataset_at, file_at, with_new_dataset, with_new_file, without_file, in_dataset, in_file};
ghost use Rattle.zc_plain.specs.Written.{written};
ghost use Rattle.zc_plain.specs.Truncated.{truncated};
ghost use Rattle.zc_plain.specs.IsPlain.{IsPlain, IsPlainFile, AreNextUpTo, IsTally};
ghost use Rattle.zc_plain.specs.Charge.{is_block, with_each, blocks_made};
ghost use Rattle.zc_plain.specs.Answer.{path_of, mkds, rmds, mount, create, remove, write, fill, truncate, put_some, room_in_file, read, stat, blocks_put, blocks_touched, blocks_on, blocks_trimmed, counted, Answers, Counts};

use crate::finding::{Path, dataset_at, dataset_of, dataset_place, file_at, file_place, path_of};
use crate::reading::{bytes_from, made_count};
use crate::room::{refuse_charge, refuse_end, room_in_file};
use crate::tally::{MadeBlock, Tally, with_blocks_of};
use crate::truncating::{is_trimmed, truncate_file};
use crate::writing::write_into;
use crate::{PlainDataset, PlainFile, PlainPool};
use std::alloc::Global;
use zc_command::{Bad, Refusal, Reply, What, Why};
use zc_num::{Listed, Name, NoMemory};

// The most datasets that a pool holds.
const MOST_DATASETS: u64 = 8;

// The most bytes that are read at once.
const MOST_READ: u64 = 65536;

/// A new dataset.
#[tactic(auto, unfolding(crate::specs::Answer::mkds))]
pub fn mkds(alloc: Global, pool: &mut PlainPool, dataset: &Name) -> Result<Reply, NoMemory>
    requires plain { IsPlain pool.old }
    requires number { pool.old.next_dataset < 2 ^ 64 - 1 }
    ensures { Answers pool.old pool.new result (mkds dataset.now pool.old) }
{
    if dataset_place(pool, dataset).is_some() {
        return Ok(refused(Refusal::Eexist));
    }
    let need = pool.datasets.len() as u64 + 1;
    if MOST_DATASETS < need {
        return Ok(refused(Refusal::Enospc {
            what: What::Datasets,
            need,
            most: MOST_DATASETS,
        }));
    }
    add_dataset(alloc, pool, dataset)?;
    Ok(Reply::Done)
}

/// A dataset and its files go.
#[tactic(auto, unfolding(crate::specs::Answer::rmds))]
pub fn rmds(pool: &mut PlainPool, dataset: &Name) -> Result<Reply, NoMemory>
    ensures { Answers pool.old pool.new result (rmds dataset.now pool.old) }
{
    let place = match dataset_of(pool, dataset) {
        Err(refusal) => return Ok(refused(refusal)),
        Ok(place) => place,
    };
    drop(pool.datasets.remove(place));
    Ok(Reply::Done)
}

/// Each dataset is mounted, so this is refused.
#[tactic(auto, unfolding(crate::specs::Answer::mount))]
pub fn mount(pool: &PlainPool, dataset: &Name) -> Result<Reply, NoMemory>
    ensures { Answers pool.now pool.now result (mount dataset.now pool.now) }
{
    Ok(refused(match dataset_of(pool, dataset) {
        Err(refusal) => refusal,
        Ok(_) => Refusal::Ebusy { why: Why::Mounted },
    }))
}

/// A new file.
#[tactic(auto, unfolding(crate::specs::Answer::create))]
pub fn create(
    alloc: Global,
    pool: &mut PlainPool,
    dataset: &Name,
    file: &Name,
) -> Result<Reply, NoMemory>
    requires plain { IsPlain pool.old }
    requires numbers { AreNextUpTo (2 ^ 64 - 2) pool.old }
    ensures { Answers pool.old pool.new result (create dataset.now file.now pool.old) }
{
    let place = match dataset_of(pool, dataset) {
        Err(refusal) => return Ok(refused(refusal)),
        Ok(place) => place,
    };
    if file_place(dataset_at(pool, place), file).is_some() {
        return Ok(refused(Refusal::Eexist));
    }
    let need = dataset_at(pool, place).files.len() as u64 + 1;
    let most = u64::from(pool.limits.files());
    if most < need {
        return Ok(refused(Refusal::Enospc {
            what: What::Files,
            need,
            most,
        }));
    }
    add_file_at(alloc, pool, place, file)?;
    Ok(Reply::Done)
}

/// A file goes.
#[tactic(auto, unfolding(crate::specs::Answer::remove))]
pub fn remove(pool: &mut PlainPool, dataset: &Name, file: &Name) -> Result<Reply, NoMemory>
    ensures { Answers pool.old pool.new result (remove dataset.now file.now pool.old) }
{
    let path = match path_of(pool, dataset, file) {
        Err(refusal) => return Ok(refused(refusal)),
        Ok(path) => path,
    };
    remove_at(pool, path);
    Ok(Reply::Done)
}

/// Bytes stand at the offset, by the command with the number.
#[tactic(auto, unfolding(crate::specs::Answer::write, crate::specs::Answer::put, crate::specs::Answer::put_some), using(crate::proofs::ChargeLaws::nothing_counted))]
pub fn write(
    alloc: Global,
    pool: &mut PlainPool,
    tally: &mut Tally,
    number: u64,
    dataset: &Name,
    file: &Name,
    offset: u64,
    bytes: &[u8],
) -> Result<Reply, NoMemory>
    requires plain { IsPlain pool.old }
    requires counts { IsTally tally.old }
    requires fits { offset ≤ 2 ^ 62 }
    ensures pool { Answers pool.old pool.new result (write number dataset.now file.now offset bytes.now tally.old pool.old) }
    ensures tally { Counts tally.old tally.new result (counted tally.old (blocks_put tally.old offset (length bytes.now) dataset.now file.now pool.old) (write number dataset.now file.now offset bytes.now tally.old pool.old)) }
{
    let path = match path_of(pool, dataset, file) {
        Err(refusal) => return Ok(refused(refusal)),
        Ok(path) => path,
    };
    if bytes.is_empty() {
        return Ok(Reply::Count { bytes: 0 });
    }
    if let Err(refusal) = room_in_file(pool, path, offset, bytes.len() as u64) {
        return Ok(refused(refusal));
    }
    put_some(alloc, pool, tally, path, number, offset, bytes)
}

/// So many times the byte stands at the offset, by the command with the number. The bytes are put together first.
#[tactic(auto, unfolding(crate::specs::Answer::fill, crate::specs::Answer::write, crate::specs::Answer::put, crate::specs::Answer::put_some), using(crate::proofs::ChargeLaws::nothing_counted))]
pub fn fill(
    alloc: Global,
    pool: &mut PlainPool,
    tally: &mut Tally,
    number: u64,
    dataset: &Name,
    file: &Name,
    offset: u64,
    length: u64,
    byte: u8,
) -> Result<Reply, NoMemory>
    requires plain { IsPlain pool.old }
    requires counts { IsTally tally.old }
    requires fits { (offset ≤ 2 ^ 62) × (length ≤ 2 ^ 62) }
    ensures pool { Answers pool.old pool.new result (fill number dataset.now file.now offset length byte tally.old pool.old) }
    ensures tally { Counts tally.old tally.new result (counted tally.old (blocks_put tally.old offset length dataset.now file.now pool.old) (fill number dataset.now file.now offset length byte tally.old pool.old)) }
{
    let path = match path_of(pool, dataset, file) {
        Err(refusal) => return Ok(refused(refusal)),
        Ok(path) => path,
    };
    if length == 0 {
        return Ok(Reply::Count { bytes: 0 });
    }
    if let Err(refusal) = room_in_file(pool, path, offset, length) {
        return Ok(refused(refusal));
    }
    let bytes = repeated(alloc, byte, length)?;
    put_some(alloc, pool, tally, path, number, offset, bytes.as_slice())
}

// So many times the byte.
fn repeated(alloc: Global, byte: u8, length: u64) -> Result<Vec<u8>, NoMemory>
    ensures { IfOk result (λ bytes. bytes.items ≡ replicate length byte) }
{
    let mut bytes = Vec::with_capacity(alloc, length as usize)?;
    for _ in 0..length {
        bytes.push(byte)?;
    }
    Ok(bytes)
}

// The bytes, of which there are some, stand in the file at the path, which has room for them, where the pool isn't charged too much.
#[tactic(auto, unfolding(crate::specs::Answer::put_some))]
fn put_some(
    alloc: Global,
    pool: &mut PlainPool,
    tally: &mut Tally,
    path: Path,
    number: u64,
    offset: u64,
    bytes: &[u8],
) -> Result<Reply, NoMemory>
    requires plain { IsPlain pool.old }
    requires counts { IsTally tally.old }
    requires dataset { path.dataset < length pool.old.datasets }
    requires file { path.file < length (dataset_at path.dataset pool.old).files }
    requires some { 0 < length bytes.now }
    requires fits { offset + length bytes.now < 2 ^ 64 }
    requires room { room_in_file offset (length bytes.now) path pool.old ≡ Ok tt }
    ensures pool { Answers pool.old pool.new result (put_some number path offset bytes.now tally.old pool.old) }
    ensures tally { Counts tally.old tally.new result (counted tally.old (blocks_touched tally.old offset (length bytes.now) path pool.old) (put_some number path offset bytes.now tally.old pool.old)) }
{
    let first = offset / 4096;
    let count = (offset + bytes.len() as u64).div_ceil(4096) - first;
    let made = with_path_blocks(alloc, pool, tally, path, first, count)?;
    if let Err(refusal) = refuse_charge(pool, tally.held, made.as_slice()) {
        return Ok(refused(refusal));
    }
    write_at(alloc, pool, path, number, offset, bytes)?;
    tally.made = Listed::from_vec(made);
    Ok(Reply::Count {
        bytes: bytes.len() as u64,
    })
}

// The blocks that were made, with so many of the file at the path from the first on.
fn with_path_blocks(
    alloc: Global,
    pool: &PlainPool,
    tally: &Tally,
    path: Path,
    first: u64,
    count: u64,
) -> Result<Vec<MadeBlock>, NoMemory>
    requires dataset { path.dataset < length pool.now.datasets }
    requires file { path.file < length (dataset_at path.dataset pool.now).files }
    requires fits { first + count < 2 ^ 64 }
    ensures { IfOk result (λ made. made.items ≡ with_each is_block tally.now.made (blocks_made tally.now (dataset_at path.dataset pool.now).id (file_at path pool.now).id first count)) }
{
    let dataset = dataset_at(pool, path.dataset).id;
    let file = file_at(pool, path).id;
    with_blocks_of(alloc, tally, dataset, file, first, count)
}

/// The size of a file is set, by the command with the number.
#[tactic(auto, unfolding(crate::specs::Answer::truncate))]
pub fn truncate(
    alloc: Global,
    pool: &mut PlainPool,
    tally: &mut Tally,
    number: u64,
    dataset: &Name,
    file: &Name,
    size: u64,
) -> Result<Reply, NoMemory>
    requires plain { IsPlain pool.old }
    requires counts { IsTally tally.old }
    requires fits { size ≤ 2 ^ 62 }
    ensures pool { Answers pool.old pool.new result (truncate number dataset.now file.now size tally.old pool.old) }
    ensures tally { Counts tally.old tally.new result (counted tally.old (blocks_on (path_of dataset.now file.now pool.old) (λ path. blocks_trimmed tally.old size path pool.old)) (truncate number dataset.now file.now size tally.old pool.old)) }
{
    let path = match path_of(pool, dataset, file) {
        Err(refusal) => return Ok(refused(refusal)),
        Ok(path) => path,
    };
    if let Err(refusal) = refuse_end(pool, size) {
        return Ok(refused(refusal));
    }
    let made = with_trimmed_block(alloc, pool, tally, path, size)?;
    if let Err(refusal) = refuse_charge(pool, tally.held, made.as_slice()) {
        return Ok(refused(refusal));
    }
    truncate_at(alloc, pool, path, number, size)?;
    tally.made = Listed::from_vec(made);
    Ok(Reply::Done)
}

// The blocks that were made, with the one in which the file at the path is trimmed.
#[tactic(auto, using(zc_num::proofs::Each::each_none))]
fn with_trimmed_block(
    alloc: Global,
    pool: &PlainPool,
    tally: &Tally,
    path: Path,
    size: u64,
) -> Result<Vec<MadeBlock>, NoMemory>
    requires dataset { path.dataset < length pool.now.datasets }
    requires file { path.file < length (dataset_at path.dataset pool.now).files }
    ensures { IfOk result (λ made. made.items ≡ with_each is_block tally.now.made (blocks_trimmed tally.now size path pool.now)) }
{
    if is_trimmed(file_at(pool, path), size) {
        return with_path_blocks(alloc, pool, tally, path, size / 4096, 1);
    }
    with_path_blocks(alloc, pool, tally, path, 0, 0)
}

/// The bytes from the offset on. Nothing changes.
#[tactic(auto, unfolding(crate::specs::Answer::read))]
pub fn read(
    alloc: Global,
    pool: &PlainPool,
    dataset: &Name,
    file: &Name,
    offset: u64,
    length: u64,
) -> Result<Reply, NoMemory>
    ensures { Answers pool.now pool.now result (read dataset.now file.now offset length pool.now) }
{
    let path = match path_of(pool, dataset, file) {
        Err(refusal) => return Ok(refused(refusal)),
        Ok(path) => path,
    };
    if MOST_READ < length {
        return Ok(refused(Refusal::Einval { bad: Bad::Length }));
    }
    let bytes = bytes_from(alloc, file_at(pool, path), offset, length)?;
    Ok(Reply::Data { bytes })
}

/// The size of a file, and how many of its blocks are no holes. Nothing changes.
#[tactic(auto, unfolding(crate::specs::Answer::stat))]
pub fn stat(pool: &PlainPool, dataset: &Name, file: &Name) -> Result<Reply, NoMemory>
    ensures { Answers pool.now pool.now result (stat dataset.now file.now pool.now) }
{
    let path = match path_of(pool, dataset, file) {
        Err(refusal) => return Ok(refused(refusal)),
        Ok(path) => path,
    };
    let file = file_at(pool, path);
    Ok(Reply::Size {
        size: file.size,
        blocks: made_count(&file.blocks),
    })
}

/// The reply of a refusal.
pub fn refused(refusal: Refusal) -> Reply
    ensures { result ≡ Reply.No refusal }
{
    Reply::No { refusal }
}

// Adds a dataset without files.
fn add_dataset(alloc: Global, pool: &mut PlainPool, name: &Name) -> Result<(), NoMemory>
    requires { pool.old.next_dataset < 2 ^ 64 - 1 }
    ensures ok { OnOk result (pool.new ≡ with_new_dataset name.now pool.old) }
    ensures err { OnErr result (pool.new ≡ pool.old) }
{
    pool.datasets.push(PlainDataset {
        id: pool.next_dataset,
        name: name.clone()?,
        next_file: 1,
        files: Listed::new(alloc),
    })?;
    pool.next_dataset += 1;
    Ok(())
}

// Adds a file without bytes.
fn add_file(alloc: Global, dataset: &mut PlainDataset, name: &Name) -> Result<(), NoMemory>
    requires { dataset.old.next_file < 2 ^ 64 - 1 }
    ensures ok { OnOk result (dataset.new ≡ with_new_file name.now dataset.old) }
    ensures err { OnErr result (dataset.new ≡ dataset.old) }
{
    dataset.files.push(PlainFile {
        id: dataset.next_file,
        name: name.clone()?,
        size: 0,
        blocks: Listed::new(alloc),
    })?;
    dataset.next_file += 1;
    Ok(())
}

// Adds a file without bytes to the dataset at the place.
fn add_file_at(
    alloc: Global,
    pool: &mut PlainPool,
    place: usize,
    name: &Name,
) -> Result<(), NoMemory>
    requires there { place < length pool.old.datasets }
    requires numbers { AreNextUpTo (2 ^ 64 - 2) pool.old }
    ensures ok { OnOk result (pool.new ≡ in_dataset place (with_new_file name.now) pool.old) }
    ensures err { OnErr result (pool.new ≡ pool.old) }
{
    add_file(alloc, pool.datasets.at_mut(place), name)
}

// Takes the file at the path out.
fn remove_at(pool: &mut PlainPool, path: Path)
    requires dataset { path.dataset < length pool.old.datasets }
    requires file { path.file < length (dataset_at path.dataset pool.old).files }
    ensures { pool.new ≡ in_dataset path.dataset (without_file path.file) pool.old }
{
    remove_file(pool.datasets.at_mut(path.dataset), path.file);
}

// Takes the file at the place out of the dataset.
fn remove_file(dataset: &mut PlainDataset, place: usize)
    requires { place < length dataset.old.files }
    ensures { dataset.new ≡ without_file place dataset.old }
{
    drop(dataset.files.remove(place));
}

// Gives the file at the path the size.
fn truncate_at(
    alloc: Global,
    pool: &mut PlainPool,
    path: Path,
    number: u64,
    size: u64,
) -> Result<(), NoMemory>
    requires plain { IsPlain pool.old }
    requires dataset { path.dataset < length pool.old.datasets }
    requires file { path.file < length (dataset_at path.dataset pool.old).files }
    requires fits { size ≤ 2 ^ 62 }
    ensures ok { OnOk result (pool.new ≡ in_file path (truncated number size) pool.old) }
    ensures err { OnErr result (pool.new ≡ pool.old) }
{
    let dataset = pool.datasets.at_mut(path.dataset);
    truncate_in_files(alloc, &mut dataset.files, path.file, number, size)
}

// Gives the file at the place the size.
fn truncate_in_files(
    alloc: Global,
    files: &mut Listed<PlainFile>,
    place: usize,
    number: u64,
    size: u64,
) -> Result<(), NoMemory>
    requires there { place < length files.old }
    requires plain { (file : PlainFile) → slice_get files.old place ≡ Some file → IsPlainFile file }
    requires fits { size ≤ 2 ^ 62 }
    ensures ok { OnOk result (files.new ≡ change_at (truncated number size) place files.old) }
    ensures err { OnErr result (files.new ≡ files.old) }
{
    truncate_file(alloc, files.at_mut(place), number, size)
}

// Writes the bytes, of which there are some, into the file at the path.
fn write_at(
    alloc: Global,
    pool: &mut PlainPool,
    path: Path,
    number: u64,
    offset: u64,
    bytes: &[u8],
) -> Result<(), NoMemory>
    requires plain { IsPlain pool.old }
    requires dataset { path.dataset < length pool.old.datasets }
    requires file { path.file < length (dataset_at path.dataset pool.old).files }
    requires some { 0 < length bytes.now }
    requires fits { offset + length bytes.now < 2 ^ 64 }
    ensures ok { OnOk result (pool.new ≡ in_file path (written number offset bytes.now) pool.old) }
    ensures err { OnErr result (pool.new ≡ pool.old) }
{
    let dataset = pool.datasets.at_mut(path.dataset);
    write_in_files(alloc, &mut dataset.files, path.file, number, offset, bytes)
}

// Writes the bytes, of which there are some, into the file at the place.
fn write_in_files(
    alloc: Global,
    files: &mut Listed<PlainFile>,
    place: usize,
    number: u64,
    offset: u64,
    bytes: &[u8],
) -> Result<(), NoMemory>
    requires there { place < length files.old }
    requires plain { (file : PlainFile) → slice_get files.old place ≡ Some file → IsPlainFile file }
    requires some { 0 < length bytes.now }
    requires fits { offset + length bytes.now < 2 ^ 64 }
    ensures ok { OnOk result (files.new ≡ change_at (written number offset bytes.now) place files.old) }
    ensures err { OnErr result (files.new ≡ files.old) }
{
    write_into(alloc, files.at_mut(place), number, offset, bytes)
}
