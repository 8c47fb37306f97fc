// Where datasets and files of a name stand, and the refusals where none does.
ghost use Rattle.std.specs.Prelude.{◌≡◌, ◌<◌, IfOk, IfSome, IsTrue, Ok, length, slice_get};
ghost use Rattle.zc_plain.specs.PlainPool.{dataset_at, file_at};
ghost use Rattle.zc_plain.specs.Answer.{refuse_if, refuse_long, dataset_place, file_place, dataset_of, path_of};

use crate::{PlainDataset, PlainFile, PlainPool};
use zc_command::{Command, Part, Refusal};
use zc_num::Name;

/// The places of a dataset in its pool and of a file in the dataset.
#[derive(Clone, Copy, PartialEq, Eq, Debug)]
pub struct Path {
    pub dataset: usize,
    pub file: usize,
}

// Refused where the test holds.
pub fn refuse_if(test: bool, refusal: Refusal) -> Result<(), Refusal>
    ensures { result ≡ refuse_if test refusal }
{
    if test { Err(refusal) } else { Ok(()) }
}

// Refused where a name is too long.
pub fn refuse_long(command: &Command) -> Result<(), Refusal>
    ensures { result ≡ refuse_long command.now }
{
    match command.long_name() {
        None => Ok(()),
        Some(length) => Err(Refusal::Enametoolong { length }),
    }
}

// The place of the dataset of the name.
#[tactic(auto, unfolding(crate::specs::Answer::dataset_place))]
pub fn dataset_place(pool: &PlainPool, name: &Name) -> Option<usize>
    ensures value { result ≡ dataset_place name.now pool.now }
    ensures within { IfSome result (λ place. place < length pool.now.datasets) }
{
    let datasets = pool.datasets.as_slice();
    datasets.iter().position(|dataset| dataset.name == *name)
}

// The place of the file of the name.
#[tactic(auto, unfolding(crate::specs::Answer::file_place))]
pub fn file_place(dataset: &PlainDataset, name: &Name) -> Option<usize>
    ensures value { result ≡ file_place name.now dataset.now }
    ensures within { IfSome result (λ place. place < length dataset.now.files) }
{
    let files = dataset.files.as_slice();
    files.iter().position(|file| file.name == *name)
}

// The place of a dataset that has to be there.
#[tactic(auto, unfolding(crate::specs::Answer::dataset_of))]
pub fn dataset_of(pool: &PlainPool, dataset: &Name) -> Result<usize, Refusal>
    ensures value { result ≡ dataset_of dataset.now pool.now }
    ensures within { IfOk result (λ place. place < length pool.now.datasets) }
{
    match dataset_place(pool, dataset) {
        None => Err(Refusal::Enoent {
            part: Part::Dataset,
        }),
        Some(place) => Ok(place),
    }
}

// The dataset at a place.
#[tactic(auto, unfolding(crate::specs::PlainPool::dataset_at))]
pub fn dataset_at(pool: &PlainPool, place: usize) -> &PlainDataset
    requires { place < length pool.now.datasets }
    ensures value { result.now ≡ dataset_at place pool.now }
    ensures stands { slice_get pool.now.datasets place ≡ Some result.now }
{
    pool.datasets.at(place)
}

// The file at the path.
#[tactic(auto, unfolding(crate::specs::PlainPool::file_at))]
pub fn file_at(pool: &PlainPool, path: Path) -> &PlainFile
    requires dataset { path.dataset < length pool.now.datasets }
    requires file { path.file < length (dataset_at path.dataset pool.now).files }
    ensures { result.now ≡ file_at path pool.now }
{
    dataset_at(pool, path.dataset).files.at(path.file)
}

// The path of a file that has to be there.
#[tactic(auto, unfolding(crate::specs::Answer::path_of))]
pub fn path_of(pool: &PlainPool, dataset: &Name, file: &Name) -> Result<Path, Refusal>
    ensures value { result ≡ path_of dataset.now file.now pool.now }
    ensures dataset { IfOk result (λ path. path.dataset < length pool.now.datasets) }
    ensures file { IfOk result (λ path. path.file < length (dataset_at path.dataset pool.now).files) }
{
    let place = dataset_of(pool, dataset)?;
    match file_place(dataset_at(pool, place), file) {
        None => Err(Refusal::Enoent { part: Part::File }),
        Some(file) => Ok(Path {
            dataset: place,
            file,
        }),
    }
}
