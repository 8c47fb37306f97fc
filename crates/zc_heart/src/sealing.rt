// How a group is sealed.
ghost use Rattle.std.specs.Prelude.{◌≡◌, ◌^◌, ◌<◌, ◌+◌, ◌-◌, ◌++◌, ◌∷◌, [], ℕ, List, map, length, Some, IfOk, OnOk, OnErr};
ghost use Rattle.std.specs.List.{AllByRecursion};
ghost use Rattle.std.specs.List.Sorted.{IsStrictlySortedBy};
ghost use Rattle.std.specs.Option.{option_copied};
ghost use Rattle.std.specs.Ordering.{nat_cmp};
ghost use Rattle.zc_num.specs.Ordered.{Ascends};
ghost use Rattle.zc_plain.specs.Charge.{is_stamp, with_each};
ghost use Rattle.zc_heart.specs.Core.{IsCore, is_touched_by};
ghost use Rattle.zc_heart.specs.Meaning.{Stays, IsSealed};
ghost use Rattle.zc_heart.specs.Noted.{now_of, stamp_of_held, put_of, stamp_put, puts_of, stamps_put, sizes_of, noted_in_file, stamps_in_file, noted_in_files, stamps_in_files, noted_in_dataset, stamps_in_dataset, noted_in, stamps_in_all, sealed_of, settled_file, settled_at, settled_files, settled_dataset, sealed_core, HasMarks, AreMarked, IsMarked};
ghost use Rattle.zc_heart.specs.Stamps.{AreCounted};

use crate::changes::{Change, Now, Sealed};
use crate::directory::{Directory, Named};
use crate::file::{HeartFile, HeldBlock, Mark};
use crate::pool_core::{Core, HeartDataset, WaitingGroup};
use crate::stamps::{Numbers, Stamp};
use std::alloc::Global;
use std::mem;
use zc_num::{Listed, NoMemory, Ordered};

/// Hands out what the open group changed, and opens the next one.
///
/// # Errors
/// Want of memory; nothing has changed.
pub fn seal(alloc: Global, core: &mut Core) -> Result<Sealed, NoMemory>
    requires core { IsCore core.old }
    requires group { core.old.group < 2 ^ 64 - 1 }
    ensures core { IsCore core.new }
    ensures ok { IfOk result (λ sealed. IsSealed core.old core.new sealed) }
    ensures err { OnErr result (Stays core.old core.new) }
{
    hand_out(alloc, core)
}

// ---- what is handed out

// The group's changes, and the heart in its next group.
fn hand_out(alloc: Global, core: &mut Core) -> Result<Sealed, NoMemory>
    requires group { core.old.group < 2 ^ 64 - 1 }
    ensures handed { IfOk result (λ sealed. sealed ≡ sealed_of sealed.held core.old) }
    ensures next { IfOk result (λ sealed. core.new ≡ sealed_core sealed.held core.old) }
    ensures marked { IfOk result (λ _. AllByRecursion IsMarked core.old.datasets) }
    ensures held { (list : List (ℕ × ℕ)) → AreCounted core.old.stamps list → IfOk result (λ sealed. sealed.held ≡ length (with_each is_stamp [] list)) }
    ensures err { OnErr result (core.new ≡ core.old) }
{
    let mut changes = Listed::new(alloc);
    let mut stamps = Listed::new(alloc);
    note_datasets(core.datasets.as_slice(), &mut changes, &mut stamps)?;
    let held = core.stamps.distinct();
    let waiting = core.waiting.len();
    wait_for(core, held, stamps)?;
    match take_log(alloc, &mut core.log, changes) {
        Ok(changes) => {
            let group = core.group;
            settle_datasets(alloc, &mut core.datasets);
            core.made = 0;
            core.group = group + 1;
            Ok(Sealed {
                group,
                held,
                changes,
            })
        }
        Err(fault) => {
            core.waiting.truncate(waiting);
            Err(fault)
        }
    }
}

// The open group waits, as it stands.
fn wait_for(core: &mut Core, held: u64, stamps: Listed<Stamp>) -> Result<(), NoMemory>
    ensures ok { OnOk result (core.new ≡ record core.old { waiting = core.old.waiting ++ record { group = core.old.group; held = held; made = core.old.made; stamps = stamps } ∷ [] }) }
    ensures err { OnErr result (core.new ≡ core.old) }
{
    let waits = WaitingGroup {
        group: core.group,
        held,
        made: core.made,
        stamps,
    };
    core.waiting.push(waits)
}

// The log with more changes after it, and none in its place.
fn take_log(
    alloc: Global,
    log: &mut Listed<Change>,
    more: Listed<Change>,
) -> Result<Listed<Change>, NoMemory>
    ensures ok { IfOk result (λ all. all ≡ log.old ++ more) }
    ensures taken { OnOk result (log.new ≡ []) }
    ensures err { OnErr result (log.new ≡ log.old) }
{
    let mut all = mem::replace(log, Listed::new(alloc)).into_vec();
    let mut more = more.into_vec();
    match all.append(&mut more) {
        Ok(()) => Ok(Listed::from_vec(all)),
        Err(_) => {
            *log = Listed::from_vec(all);
            Err(NoMemory)
        }
    }
}

// Adds what the open group changed in the datasets, in order.
fn note_datasets(
    datasets: &[HeartDataset],
    changes: &mut Listed<Change>,
    stamps: &mut Listed<Stamp>,
) -> Result<(), NoMemory>
    ensures changes { OnOk result (changes.new ≡ changes.old ++ noted_in datasets.now) }
    ensures stamps { OnOk result (stamps.new ≡ stamps.old ++ stamps_in_all datasets.now) }
    ensures marked { OnOk result (AllByRecursion IsMarked datasets.now) }
{
    for dataset in datasets {
        note_files(
            dataset.id,
            &dataset.files,
            &dataset.changed,
            changes,
            stamps,
        )?;
    }
    Ok(())
}

// Adds what it changed in the files with these numbers.
fn note_files(
    dataset: u64,
    files: &Directory<HeartFile>,
    changed: &Numbers,
    changes: &mut Listed<Change>,
    stamps: &mut Listed<Stamp>,
) -> Result<(), NoMemory>
    ensures changes { OnOk result (changes.new ≡ changes.old ++ noted_in_files dataset files.now changed.now) }
    ensures stamps { OnOk result (stamps.new ≡ stamps.old ++ stamps_in_files files.now changed.now) }
    ensures marked { OnOk result (AreMarked files.now changed.now) }
    ensures ascending { OnOk result (IsStrictlySortedBy nat_cmp changed.now) }
{
    for number in changed.iter() {
        note_found(dataset, files.get(*number), changes, stamps)?;
    }
    Ok(())
}

// Adds what it changed in a file that stands or not.
fn note_found(
    dataset: u64,
    found: Option<&Named<HeartFile>>,
    changes: &mut Listed<Change>,
    stamps: &mut Listed<Stamp>,
) -> Result<(), NoMemory>
    ensures changes { OnOk result (changes.new ≡ changes.old ++ noted_in_file dataset (option_copied found.entry)) }
    ensures stamps { OnOk result (stamps.new ≡ stamps.old ++ stamps_in_file (option_copied found.entry)) }
    ensures marked { OnOk result (HasMarks (option_copied found.entry)) }
{
    match found {
        None => Ok(()),
        Some(named) => {
            note_size(dataset, named.id, &named.value, changes)?;
            note_blocks(dataset, named.id, &named.value, changes, stamps)
        }
    }
}

// Adds the size of a file, where the group set it.
fn note_size(
    dataset: u64,
    file: u64,
    held: &HeartFile,
    changes: &mut Listed<Change>,
) -> Result<(), NoMemory>
    ensures { OnOk result (changes.new ≡ changes.old ++ sizes_of dataset file held.now) }
{
    if !held.sized {
        return Ok(());
    }
    changes.push(Change::Size {
        dataset,
        file,
        size: held.size,
    })
}

// Adds what stands at the blocks that the group touched.
fn note_blocks(
    dataset: u64,
    file: u64,
    held: &HeartFile,
    changes: &mut Listed<Change>,
    stamps: &mut Listed<Stamp>,
) -> Result<(), NoMemory>
    ensures changes { OnOk result (changes.new ≡ changes.old ++ puts_of dataset file held.now held.now.marks) }
    ensures stamps { OnOk result (stamps.new ≡ stamps.old ++ stamps_put held.now held.now.marks) }
    ensures marked { Ascends held.now.marks }
{
    for (block, mark) in held.marks.iter() {
        note_marked(dataset, file, held, *block, *mark, changes, stamps)?;
    }
    Ok(())
}

// The open group touched a block with the mark.
fn is_touched(mark: Mark) -> bool
    ensures { result ≡ is_touched_by (Some mark) }
{
    match mark {
        Mark::Room => false,
        Mark::Holed => true,
        Mark::Made => true,
    }
}

// Adds what stands at a block with the mark.
fn note_marked(
    dataset: u64,
    file: u64,
    held: &HeartFile,
    block: u32,
    mark: Mark,
    changes: &mut Listed<Change>,
    stamps: &mut Listed<Stamp>,
) -> Result<(), NoMemory>
    ensures changes { OnOk result (changes.new ≡ changes.old ++ put_of dataset file held.now (block, mark)) }
    ensures stamps { OnOk result (stamps.new ≡ stamps.old ++ stamp_put held.now (block, mark)) }
{
    if !is_touched(mark) {
        return Ok(());
    }
    note_stamp(held.blocks.get(block), stamps)?;
    let now = now_at(held.blocks.get(block))?;
    changes.push(Change::Put {
        dataset,
        file,
        block,
        now,
    })
}

// What stands at a block. Its bytes are shared.
fn now_at(found: Option<&Option<HeldBlock>>) -> Result<Now, NoMemory>
    ensures { IfOk result (λ now. now ≡ now_of (option_copied found.entry)) }
{
    match found {
        Some(Some(held)) => Ok(Now::Made {
            bytes: held.bytes.share()?,
        }),
        Some(None) => Ok(Now::Hole),
        None => Ok(Now::Hole),
    }
}

// Adds the stamp of what stands at a block.
fn note_stamp(found: Option<&Option<HeldBlock>>, stamps: &mut Listed<Stamp>) -> Result<(), NoMemory>
    ensures { OnOk result (stamps.new ≡ stamps.old ++ stamp_of_held (option_copied found.entry)) }
{
    match found {
        Some(Some(held)) => stamps.push(Stamp {
            entry: held.entry,
            index: held.index,
        }),
        Some(None) => Ok(()),
        None => Ok(()),
    }
}

// ---- how the next group begins

// No file of the datasets is touched any more.
fn settle_datasets(alloc: Global, datasets: &mut Listed<HeartDataset>)
    ensures { datasets.new ≡ map settled_dataset datasets.old }
{
    for place in 0..datasets.len() {
        settle_dataset(alloc, datasets.at_mut(place));
    }
}

// No file of the dataset is.
fn settle_dataset(alloc: Global, dataset: &mut HeartDataset)
    ensures { dataset.new ≡ settled_dataset dataset.old }
{
    let changed = mem::replace(&mut dataset.changed, Numbers::new(alloc));
    settle_files(alloc, &mut dataset.files, &changed);
}

// None of the files with these numbers is.
fn settle_files(alloc: Global, files: &mut Directory<HeartFile>, changed: &Numbers)
    ensures { files.new ≡ settled_files changed.now files.old }
{
    for number in changed.iter() {
        settle_found(alloc, files, *number);
    }
}

// The file with the number isn't, where it stands.
fn settle_found(alloc: Global, files: &mut Directory<HeartFile>, number: u64)
    ensures { files.new ≡ settled_at number files.old }
{
    if files.get(number).is_none() {
        return;
    }
    settle_file(alloc, files.value_mut(number));
}

// The file isn't.
fn settle_file(alloc: Global, file: &mut HeartFile)
    ensures { file.new ≡ settled_file file.old }
{
    file.marks = Ordered::new(alloc);
    file.sized = false;
}
