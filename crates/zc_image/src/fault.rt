// Why an image was not read.
ghost use Rattle.std.specs.Prelude.{◌≡◌};
ghost use Rattle.zc_image.specs.declared.fault.ImageFault.TheVariants.{NoMemory as no_memory, DiskFault as disk_fault};

use std::alloc::{AllocError, AllocFailed};
use thiserror::Error;
use zc_damage::Damage;
use zc_tape::Failed;

/// Why an image was not read.
#[derive(Debug, Drop, Error)]
pub enum ImageFault {
    /// Memory was wanting.
    #[error("memory was wanting")]
    NoMemory,
    /// The disk set holds no pool.
    #[error("the disks hold no pool")]
    NoPool,
    /// A read failed.
    #[error("a read of the disks failed")]
    DiskFault,
    /// The pool is damaged.
    #[error("the pool is damaged")]
    Damaged { damage: Damage },
}

impl From<AllocError> for ImageFault {
    ghost from_gives = { λ _ error. error ≡ no_memory };

    fn from(_error: AllocError) -> ImageFault {
        ImageFault::NoMemory
    }
}

impl<T: Drop> From<AllocFailed<T>> for ImageFault {
    ghost from_gives = { λ _ error. error ≡ no_memory };

    fn from(_error: AllocFailed<T>) -> ImageFault {
        ImageFault::NoMemory
    }
}

impl From<Failed> for ImageFault {
    ghost from_gives = { λ _ error. error ≡ disk_fault };

    fn from(_error: Failed) -> ImageFault {
        ImageFault::DiskFault
    }
}
