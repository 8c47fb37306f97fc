// Paths: `P/D` and `P/D/F`.
ghost use Rattle.std.specs.Prelude.{◌≡◌};
ghost use Rattle.std.specs.Option.{option_map};
ghost use Rattle.zc_script.specs.Words.{dataset_path, file_path};

use crate::pieces::{three_pieces, two_pieces};
use crate::pools::is_pool_name;
use crate::words::is_name_word;

// The names of the pool and the dataset of `P/D`.
#[tactic(auto, unfolding(crate::specs::Words::dataset_path))]
pub fn dataset_path(text: &[u8]) -> Option<(&[u8], &[u8])>
    ensures { option_map (λ path. (path.0.now, path.1.now)) result ≡ dataset_path text.now }
{
    let Some((pool, dataset)) = two_pieces(b'/', text) else {
        return None;
    };
    if is_pool_name(pool) && is_name_word(dataset) {
        Some((pool, dataset))
    } else {
        None
    }
}

// The names of the pool, the dataset and the file of `P/D/F`.
#[tactic(auto, unfolding(crate::specs::Words::file_path))]
pub fn file_path(text: &[u8]) -> Option<(&[u8], &[u8], &[u8])>
    ensures { option_map (λ path. (path.0.now, path.1.now, path.2.now)) result ≡ file_path text.now }
{
    let Some((pool, dataset, file)) = three_pieces(b'/', text) else {
        return None;
    };
    if is_pool_name(pool) && is_name_word(dataset) && is_name_word(file) {
        Some((pool, dataset, file))
    } else {
        None
    }
}
