// Where the datasets and files of a name stand in a heart, and the refusals where none does.
ghost use Rattle.std.specs.Prelude.{◌≡◌, ◌<◌, IfOk, IfSome, IsSome, Some, length, slice_get};
ghost use Rattle.zc_plain.specs.Answer.{refuse_if, refuse_long};
ghost use Rattle.zc_heart.specs.Deeds.{dataset_index, dataset_of, files_in, spot_of, file_on};

use crate::directory::Named;
use crate::file::HeartFile;
use crate::pool_core::{Core, HeartDataset};
use zc_command::{Command, Part, Refusal};
use zc_num::Name;

/// The place of a dataset, and the number of a file of it.
#[derive(Clone, Copy, PartialEq, Eq, Debug)]
pub struct Spot {
    pub place: usize,
    pub id: u64,
}

/// Refused where the test holds.
pub fn refuse_if(test: bool, refusal: Refusal) -> Result<(), Refusal>
    ensures { result ≡ refuse_if test refusal }
{
    if test { Err(refusal) } else { Ok(()) }
}

/// Refused where a name is too long.
pub fn refuse_long(command: &Command) -> Result<(), Refusal>
    ensures { result ≡ refuse_long command.now }
{
    match command.long_name() {
        None => Ok(()),
        Some(length) => Err(Refusal::Enametoolong { length }),
    }
}

/// The place of the dataset of the name.
#[tactic(auto, unfolding(crate::specs::Deeds::dataset_index))]
pub fn dataset_index(core: &Core, name: &Name) -> Option<usize>
    ensures value { result ≡ dataset_index name.now core.now }
    ensures within { IfSome result (λ place. place < length core.now.datasets) }
{
    let datasets = core.datasets.as_slice();
    datasets.iter().position(|dataset| dataset.name == *name)
}

/// The place of a dataset that has to be there.
#[tactic(auto, unfolding(crate::specs::Deeds::dataset_of))]
pub fn dataset_of(core: &Core, dataset: &Name) -> Result<usize, Refusal>
    ensures value { result ≡ dataset_of dataset.now core.now }
    ensures within { IfOk result (λ place. place < length core.now.datasets) }
{
    match dataset_index(core, dataset) {
        None => Err(Refusal::Enoent {
            part: Part::Dataset,
        }),
        Some(place) => Ok(place),
    }
}

/// The dataset at the place.
#[tactic(auto, unfolding(crate::specs::Deeds::files_in))]
pub fn dataset_at(core: &Core, place: usize) -> &HeartDataset
    requires { place < length core.now.datasets }
    ensures stands { slice_get core.now.datasets place ≡ Some result.now }
    ensures files { files_in place core.now ≡ result.now.files }
{
    core.datasets.at(place)
}

/// The place of a dataset and the number of a file of it, which have to be there.
#[tactic(auto, unfolding(crate::specs::Deeds::spot_of, crate::specs::Deeds::file_on), using(crate::proofs::Spots::called_is_numbered))]
pub fn spot_of(core: &Core, dataset: &Name, file: &Name) -> Result<Spot, Refusal>
    ensures value { result ≡ spot_of dataset.now file.now core.now }
    ensures within { IfOk result (λ spot. spot.place < length core.now.datasets) }
    ensures there { IfOk result (λ spot. IsSome (file_on spot core.now)) }
{
    let place = dataset_of(core, dataset)?;
    match dataset_at(core, place).files.find(file) {
        None => Err(Refusal::Enoent { part: Part::File }),
        Some(id) => Ok(Spot { place, id }),
    }
}

/// The file that stands there.
#[tactic(auto, unfolding(crate::specs::Deeds::file_on))]
pub fn file_on(core: &Core, spot: Spot) -> &Named<HeartFile>
    requires within { spot.place < length core.now.datasets }
    requires there { IsSome (file_on spot core.now) }
    ensures { file_on spot core.now ≡ Some result.now }
{
    match dataset_at(core, spot.place).files.get(spot.id) {
        Some(named) => named,
        None => unreachable!(),
    }
}
