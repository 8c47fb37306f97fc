// The dataset that bytes spell.
ghost use Rattle.std.specs.Prelude.{◌≡◌, ◌==◌, ◌++◌, ◌<◌, ◌^◌, ◌+◌, length, IfOk, Ok, List, ℕ, [], not, nat_lt};
ghost use Rattle.zc_tree.specs.NameSet.{Knows};
ghost use Rattle.std.specs.List.{list_all, list_any};
ghost use Rattle.std.specs.Str.{bytes_eq};
ghost use Rattle.zc_wire.specs.Fields.{FieldGives, FieldAnswers, Reads, StandsInFront};
ghost use Rattle.zc_tree.specs.declared.tree.Dataset.{Dataset};
ghost use Rattle.zc_tree.specs.Spelling.{dataset_bytes, IsDataset, IsAfter};
ghost use Rattle.zc_tree.specs.Reading.{name_length_field, name_field, entry_field, entries_field, file_field, files_field, claimed_field, log_field, head_field, dataset_field};

use crate::names::NameSet;
use crate::{Dataset, File, LogState};
use std::alloc::Global;
use zc_blkptr::{Ptr, ptr_field};
use zc_command::are_name_bytes;
use zc_num::{Limits, Listed, Name, Ordered};
use zc_wire::{CatalogFault, FieldFault, bytes_field, rule, u32_field, u64_field};

/// The dataset whose part stands at the front of the bytes, and how many bytes it takes. The root's group and next dataset number
/// are those of the catalogue. `BadCatalog` exactly where no such part stands there, with the place of the first field that isn't
/// there whole or breaks a rule.
pub fn read_dataset(
    alloc: Global,
    bytes: &[u8],
    limits: &Limits,
    group: u64,
    next_dataset: u64,
) -> Result<(Dataset, usize), CatalogFault>
    // What is read is a dataset that the root may have, and its part takes so many bytes.
    ensures found { IfOk result (λ x. IsDataset limits.now.devices limits.now.places group next_dataset x.0 × StandsInFront (dataset_bytes x.0) x.1 bytes.now) }
    // A part that stands there is read, unless memory is wanting.
    ensures only { (dataset : Dataset) (rest : List ℕ) → IsDataset limits.now.devices limits.now.places group next_dataset dataset → bytes.now ≡ dataset_bytes dataset ++ rest
        → Reads result dataset (length (dataset_bytes dataset)) }
    // Which field is refused.
    ensures exact { FieldAnswers (length bytes.now) result (dataset_field limits.now.devices limits.now.places group next_dataset [] bytes.now) }
{
    read_next_dataset(alloc, bytes, limits, group, next_dataset, &[])
}

/// The same for a dataset after others of its catalogue: its number is greater than theirs, and its slot and its name are none of
/// theirs.
pub fn read_next_dataset(
    alloc: Global,
    bytes: &[u8],
    limits: &Limits,
    group: u64,
    next_dataset: u64,
    others: &[Dataset],
) -> Result<(Dataset, usize), CatalogFault>
    ensures found { IfOk result (λ x. IsDataset limits.now.devices limits.now.places group next_dataset x.0 × IsAfter others.now x.0 × StandsInFront (dataset_bytes x.0) x.1 bytes.now) }
    ensures only { (dataset : Dataset) (rest : List ℕ) → IsDataset limits.now.devices limits.now.places group next_dataset dataset → IsAfter others.now dataset → bytes.now ≡ dataset_bytes dataset ++ rest
        → Reads result dataset (length (dataset_bytes dataset)) }
    ensures exact { FieldAnswers (length bytes.now) result (dataset_field limits.now.devices limits.now.places group next_dataset others.now bytes.now) }
{
    match dataset_field(alloc, bytes, limits, group, next_dataset, others) {
        Ok((dataset, rest)) => Ok((dataset, bytes.len().saturating_sub(rest.len()))),
        Err(fault) => Err(fault.within(bytes)),
    }
}

/// A dataset after others at the front of the bytes, and the bytes after it. The root's group and next dataset number are those
/// of the catalogue.
///
/// # Errors
/// Want of memory; or `Bad` at the first field that isn't there whole or breaks a rule.
#[tactic(auto, unfolding(crate::specs::Reading::dataset_field))]
pub fn dataset_field<'a>(
    alloc: Global,
    bytes: &'a [u8],
    limits: &Limits,
    group: u64,
    next_dataset: u64,
    others: &[Dataset],
) -> Result<(Dataset, &'a [u8]), FieldFault>
    ensures { FieldGives (λ x. (x.0, x.1.now)) result (dataset_field limits.now.devices limits.now.places group next_dataset others.now bytes.now) }
{
    let ((id, slot, name), at_next) = head_field(alloc, bytes, next_dataset, others)?;
    let (next_file, at_log) = u64_field(at_next)?;
    rule(1 <= next_file, at_next)?;
    let (log, at_count) = log_field(at_log, limits, group)?;
    let (count, at_files) = u32_field(at_count)?;
    rule(count <= limits.files(), at_count)?;
    let (files, rest) = files_field(alloc, at_files, limits, next_file, count)?;
    Ok((
        Dataset {
            id,
            slot,
            name,
            next_file,
            log,
            files,
        },
        rest,
    ))
}

// The number, the slot and the name of a dataset after others.
#[tactic(auto, unfolding(crate::specs::Reading::head_field))]
fn head_field<'a>(
    alloc: Global,
    bytes: &'a [u8],
    next_dataset: u64,
    others: &[Dataset],
) -> Result<((u64, u32, Name), &'a [u8]), FieldFault>
    ensures { FieldGives (λ x. ((x.0.0, x.0.1, x.0.2), x.1.now)) result (head_field next_dataset others.now bytes.now) }
{
    let (id, at_slot) = u64_field(bytes)?;
    rule(1 <= id && id < next_dataset && is_above(others, id), bytes)?;
    let (slot, at_length) = u32_field(at_slot)?;
    rule(slot < 8 && !has_slot(others, slot), at_slot)?;
    let (count, at_name) = name_length_field(at_length)?;
    let (name, rest) = name_field(alloc, at_name, count)?;
    rule(!has_name(others, &name), at_name)?;
    Ok(((id, slot, name), rest))
}

// Whether the number is above those of all others.
fn is_above(others: &[Dataset], id: u64) -> bool
    ensures { result ≡ list_all (λ other. nat_lt other.id id) others.now }
{
    others.iter().all(|other| other.id < id)
}

// Whether one of the others has the slot.
fn has_slot(others: &[Dataset], slot: u32) -> bool
    ensures { result ≡ list_any (λ other. other.slot == slot) others.now }
{
    others.iter().any(|other| other.slot == slot)
}

// Whether one of the others has the name.
fn has_name(others: &[Dataset], name: &Name) -> bool
    ensures { result ≡ list_any (λ other. bytes_eq other.name name.now) others.now }
{
    others.iter().any(|other| other.name == *name)
}

// The length of a name.
#[tactic(auto, unfolding(crate::specs::Reading::name_length_field))]
fn name_length_field(bytes: &[u8]) -> Result<(u32, &[u8]), FieldFault>
    ensures { FieldGives (λ x. (x.0, x.1.now)) result (name_length_field bytes.now) }
{
    let (count, rest) = u32_field(bytes)?;
    rule(1 <= count && count <= 64, bytes)?;
    Ok((count, rest))
}

// The bytes of a name.
#[tactic(auto, unfolding(crate::specs::Reading::name_field))]
fn name_field(alloc: Global, bytes: &[u8], count: u32) -> Result<(Name, &[u8]), FieldFault>
    ensures { FieldGives (λ x. (x.0, x.1.now)) result (name_field count bytes.now) }
{
    let (name, rest) = bytes_field(bytes, count as usize)?;
    rule(are_name_bytes(name), bytes)?;
    Ok((Name::of(alloc, name)?, rest))
}

// The state of a log.
#[tactic(auto, unfolding(crate::specs::Reading::log_field))]
fn log_field<'a>(
    bytes: &'a [u8],
    limits: &Limits,
    group: u64,
) -> Result<(LogState, &'a [u8]), FieldFault>
    ensures { FieldGives (λ x. (x.0, x.1.now)) result (log_field limits.now.devices limits.now.places group bytes.now) }
{
    let (state, rest) = u32_field(bytes)?;
    rule(state <= 1, bytes)?;
    if state == 0 {
        Ok((LogState::Normal, rest))
    } else {
        claimed_field(rest, limits, group)
    }
}

// The epoch and the number of blocks of a claimed log.
#[tactic(auto, unfolding(crate::specs::Reading::claimed_field))]
fn claimed_field<'a>(
    bytes: &'a [u8],
    limits: &Limits,
    group: u64,
) -> Result<(LogState, &'a [u8]), FieldFault>
    ensures { FieldGives (λ x. (x.0, x.1.now)) result (claimed_field limits.now.devices limits.now.places group bytes.now) }
{
    let (epoch, at_blocks) = u64_field(bytes)?;
    rule(1 <= epoch && epoch < group, bytes)?;
    let (blocks, rest) = u32_field(at_blocks)?;
    rule(1 <= blocks && blocks <= limits.log_places(), at_blocks)?;
    Ok((LogState::Claimed { epoch, blocks }, rest))
}

// So many files of a dataset.
fn files_field<'a>(
    alloc: Global,
    bytes: &'a [u8],
    limits: &Limits,
    next_file: u64,
    count: u32,
) -> Result<(Listed<File>, &'a [u8]), FieldFault>
    ensures { FieldGives (λ x. (x.0, x.1.now)) result (files_field limits.now.devices limits.now.places next_file count 1 0 [] bytes.now) }
{
    let mut files = Listed::new(alloc);
    let mut names = NameSet::new(alloc);
    let mut least = 1;
    let mut used = 0;
    let mut rest = bytes;
    for _ in 0..count {
        let (file, after) = file_field(alloc, rest, limits, next_file, least, used, &names)?;
        names.add(&file.name)?;
        least = file.id + 1;
        used += file.slots.len() as u64;
        files.push(file)?;
        rest = after;
    }
    Ok((files, rest))
}

// A file whose number is at least `least`, after files of these names that have `used` pointers.
#[tactic(auto, unfolding(crate::specs::Reading::file_field))]
fn file_field<'a>(
    alloc: Global,
    bytes: &'a [u8],
    limits: &Limits,
    next_file: u64,
    least: u64,
    used: u64,
    names: &NameSet,
) -> Result<(File, &'a [u8]), FieldFault>
    requires { used < 2 ^ 32 }
    ensures { (known : List (List ℕ)) → Knows names.now known → FieldGives (λ x. (x.0, x.1.now)) result (file_field limits.now.devices limits.now.places next_file least used known bytes.now) }
{
    let (id, at_length) = u64_field(bytes)?;
    rule(least <= id && id < next_file, bytes)?;
    let (count, at_name) = name_length_field(at_length)?;
    let (name, at_size) = name_field(alloc, at_name, count)?;
    rule(!names.contains(&name), at_name)?;
    let (size, at_count) = u64_field(at_size)?;
    rule(size <= limits.file_bytes(), at_size)?;
    let (count, at_entries) = u32_field(at_count)?;
    rule(
        used + u64::from(count) <= u64::from(limits.pointers()),
        at_count,
    )?;
    let (slots, rest) = entries_field(alloc, at_entries, limits, size, count)?;
    Ok((
        File {
            id,
            name,
            size,
            slots,
        },
        rest,
    ))
}

// So many entries of a file.
fn entries_field<'a>(
    alloc: Global,
    bytes: &'a [u8],
    limits: &Limits,
    size: u64,
    count: u32,
) -> Result<(Ordered<Ptr>, &'a [u8]), FieldFault>
    ensures { FieldGives (λ x. (x.0, x.1.now)) result (entries_field limits.now.devices limits.now.places size count 0 bytes.now) }
{
    let mut slots = Ordered::new(alloc);
    let mut least = 0;
    let mut rest = bytes;
    for _ in 0..count {
        let (block, ptr, after) = entry_field(rest, limits, size, least)?;
        slots.insert(block, ptr)?;
        least = u64::from(block) + 1;
        rest = after;
    }
    Ok((slots, rest))
}

// An entry of a file of this size, whose block is at least `least`.
#[tactic(auto, unfolding(crate::specs::Reading::entry_field))]
fn entry_field<'a>(
    bytes: &'a [u8],
    limits: &Limits,
    size: u64,
    least: u64,
) -> Result<(u32, Ptr, &'a [u8]), FieldFault>
    ensures { FieldGives (λ x. ((x.0, x.1), x.2.now)) result (entry_field limits.now.devices limits.now.places size least bytes.now) }
{
    let (block, at_ptr) = u32_field(bytes)?;
    rule(
        least <= u64::from(block) && u64::from(block) * 4096 < size,
        bytes,
    )?;
    let (ptr, rest) = ptr_field(at_ptr, limits)?;
    Ok((block, ptr, rest))
}
