// Files whose numbers rise, as in every real tree, and where one with a number can stand.
ghost use Rattle.std.specs.Prelude.{◌≡◌, ◌<◌, ◌≤◌, IsTrue, All, length};
ghost use Rattle.zc_tree.specs.declared.tree.File.{File};
ghost use Rattle.zc_apply.specs.InParts.{Rises, AreRising, IsAbove, IsNewAfter, AreWithin};

use zc_heart::Change;
use zc_tree::{Dataset, File};

/// Whether the numbers of each dataset's files rise.
pub(crate) fn are_rising(datasets: &[Dataset]) -> bool
    ensures { IsTrue result → AreRising datasets.now }
{
    for k in 0..datasets.len() {
        if !is_rising(datasets[k].files.as_slice()) {
            return false;
        }
    }
    true
}

// Whether the numbers of the files rise.
fn is_rising(files: &[File]) -> bool
    ensures { IsTrue result → Rises files.now }
{
    for k in 0..files.len() {
        if !is_after(&files[..k], files[k].id) {
            return false;
        }
    }
    true
}

// Whether the number is above that of the last file, and so above each where they rise.
fn is_after(files: &[File], id: u64) -> bool
    ensures { IsTrue result → Rises files.now → All (λ (file : File). file.id < id) files.now }
{
    match files.last() {
        None => true,
        Some(file) => file.id < id,
    }
}

/// Whether the numbers are known to rise still once the change is made: a new file has one above those of its dataset's files.
pub(crate) fn still_rise(rising: bool, change: &Change, datasets: &[Dataset]) -> bool
    ensures was { IsTrue result → IsTrue rising }
    ensures new_after { IsTrue result → AreRising datasets.now → IsNewAfter change.now datasets.now }
{
    match change {
        Change::MakeFile { dataset, file, .. } => rising && are_after(datasets, *dataset, *file),
        _ => rising,
    }
}

// Whether the file's number is above those of the files of each dataset with the number.
fn are_after(datasets: &[Dataset], id: u64, file: u64) -> bool
    ensures { IsTrue result → AreRising datasets.now → All (IsAbove id file) datasets.now }
{
    for k in 0..datasets.len() {
        if !is_above(id, file, &datasets[k]) {
            return false;
        }
    }
    true
}

// The same of one dataset.
fn is_above(id: u64, file: u64, dataset: &Dataset) -> bool
    ensures { IsTrue result → Rises dataset.now.files → IsAbove id file dataset.now }
{
    if dataset.id != id {
        return true;
    }
    is_after(dataset.files.as_slice(), file)
}

/// From which place on, and before which, files with the number stand. Where the numbers rise, that is one place at most.
pub(crate) fn places_of(files: &[File], rising: bool, id: u64) -> (usize, usize)
    requires { IsTrue rising → Rises files.now }
    ensures { AreWithin files.now id result.0 result.1 }
{
    if rising {
        place_by_halves(files, id)
    } else {
        (0, files.len())
    }
}

// The same where the numbers rise.
fn place_by_halves(files: &[File], id: u64) -> (usize, usize)
    requires { Rises files.now }
    ensures { AreWithin files.now id result.0 result.1 }
{
    let mut low = 0;
    let mut high = files.len();
    while low < high {
        let middle = low + (high - low) / 2;
        let found = files[middle].id;
        if found == id {
            return (middle, middle + 1);
        }
        if found < id {
            low = middle + 1;
        } else {
            high = middle;
        }
    }
    (low, high)
}
