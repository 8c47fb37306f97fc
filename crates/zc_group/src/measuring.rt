// How many bytes a catalogue has, without spelling it.
ghost use Rattle.std.specs.Prelude.{◌≡◌, ◌+◌, ◌*◌, ◌/◌, ◌≤◌, length, map, sum, IfOk};
ghost use Rattle.zc_table.specs.Plain.{counts_of};
ghost use Rattle.zc_tree.specs.Reach.{pointers_of_tree};
ghost use Rattle.zc_next.specs.Exact.{exact_counts, file_size, log_size, dataset_size, device_size, catalogue_size};

use zc_num::{Limits, Listed, NoMemory};
use zc_table::{PlainTable, RefTable};
use zc_tree::{Dataset, File, LogState, Tree};

/// The number of bytes of the catalogue of a tree with these tables, which are exact.
///
/// # Errors
/// Want of memory, where the number has more than 64 bits.
#[tactic(auto, using(crate::proofs::MeasureLaws::catalogue_measured))]
pub fn catalogue_bytes_of(
    limits: &Limits,
    tree: &Tree,
    tables: &Listed<PlainTable>,
) -> Result<usize, NoMemory>
    requires tables { map counts_of tables.now ≡ exact_counts limits.now.devices limits.now.places (pointers_of_tree tree.now) }
    ensures { IfOk result (λ size. size ≡ catalogue_size limits.now.devices limits.now.places tree.now) }
{
    let datasets = datasets_size(tree.datasets.as_slice())?;
    let devices = devices_size(limits.places(), tables.as_slice())?;
    let front = sum_of(4, datasets)?;
    sum_of(front, devices)
}

// The sum, where it has at most 64 bits.
fn sum_of(left: usize, right: usize) -> Result<usize, NoMemory>
    ensures { IfOk result (λ sum. sum ≡ left + right) }
{
    match left.checked_add(right) {
        Some(sum) => Ok(sum),
        None => Err(NoMemory),
    }
}

// So many times a width, where it has at most 64 bits.
fn times(width: usize, count: usize) -> Result<usize, NoMemory>
    ensures { IfOk result (λ size. size ≡ width * count) }
{
    match width.checked_mul(count) {
        Some(size) => Ok(size),
        None => Err(NoMemory),
    }
}

// The bytes of the datasets.
fn datasets_size(datasets: &[Dataset]) -> Result<usize, NoMemory>
    ensures { IfOk result (λ size. size ≡ sum (map dataset_size datasets.now)) }
{
    let mut total = 0usize;
    for dataset in datasets {
        let size = dataset_size(dataset)?;
        total = sum_of(total, size)?;
    }
    Ok(total)
}

// The bytes of a dataset.
fn dataset_size(dataset: &Dataset) -> Result<usize, NoMemory>
    ensures { IfOk result (λ size. size ≡ dataset_size dataset.now) }
{
    let files = files_size(dataset.files.as_slice())?;
    let named = sum_of(28 + log_size(dataset.log), dataset.name.len())?;
    sum_of(named, files)
}

// The bytes of the state of a log.
fn log_size(log: LogState) -> usize
    ensures size { result ≡ log_size log }
    ensures few { result ≤ 16 }
{
    match log {
        LogState::Normal => 4,
        LogState::Claimed { .. } => 16,
    }
}

// The bytes of the files.
fn files_size(files: &[File]) -> Result<usize, NoMemory>
    ensures { IfOk result (λ size. size ≡ sum (map file_size files.now)) }
{
    let mut total = 0usize;
    for file in files {
        let size = file_size(file)?;
        total = sum_of(total, size)?;
    }
    Ok(total)
}

// The bytes of a file.
fn file_size(file: &File) -> Result<usize, NoMemory>
    ensures { IfOk result (λ size. size ≡ file_size file.now) }
{
    let entries = times(44, file.slots.len())?;
    let named = sum_of(24, file.name.len())?;
    sum_of(named, entries)
}

// The bytes of the devices.
fn devices_size(places: u32, tables: &[PlainTable]) -> Result<usize, NoMemory>
    ensures { IfOk result (λ size. size ≡ sum (map (device_size places) (map counts_of tables.now))) }
{
    let mut total = 0usize;
    for table in tables {
        let size = device_size(places, table)?;
        total = sum_of(total, size)?;
    }
    Ok(total)
}

// The bytes of a device.
fn device_size(places: u32, table: &PlainTable) -> Result<usize, NoMemory>
    ensures { IfOk result (λ size. size ≡ device_size places (counts_of table.now)) }
{
    let entries = times(8, table.used() as usize)?;
    let places = places as usize;
    sum_of(4 + 4 * (places / 64) + places / 8, entries)
}
