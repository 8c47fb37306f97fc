// A map as its bytes say it.
use zc_num::Listed;

/// Which places of a device are allocated, as the bytes of a map say.
#[derive(Clone, PartialEq, Eq, Debug, Drop)]
pub struct StoredMap {
    /// For each place whether it is allocated.
    pub allocated: Listed<bool>,
}
