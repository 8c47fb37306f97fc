// Why bytes are not what they should be.
ghost use Rattle.std.specs.Prelude.{◌≡◌};
ghost use Rattle.zc_wire.specs.Fault.{fault_place};
ghost use Rattle.zc_wire.specs.declared.fault.CatalogFault.TheVariants.{NoMemory as no_memory, BadCatalog};

use std::alloc::{AllocError, AllocFailed};

/// Why a cursor did not read. `at` counts bytes from the front of the cursor's bytes.
#[derive(Debug, Clone, Copy, PartialEq, Eq)]
pub enum WireFault {
    /// Fewer bytes are left at this place than were asked for.
    Short { at: u64 },
    /// Bytes are left at this place, where the end should be.
    Trailing { at: u64 },
}

/// Why a catalogue was not read. `at` counts bytes from the front of the catalogue.
#[derive(Debug, Clone, Copy, PartialEq, Eq)]
pub enum CatalogFault {
    /// Memory was wanting.
    NoMemory,
    /// The bytes at this place are in no spelling.
    BadCatalog { at: u64 },
}

impl From<WireFault> for CatalogFault {
    ghost from_gives = { λ fault error. error ≡ BadCatalog (fault_place fault) };

    fn from(fault: WireFault) -> CatalogFault {
        match fault {
            WireFault::Short { at } => CatalogFault::BadCatalog { at },
            WireFault::Trailing { at } => CatalogFault::BadCatalog { at },
        }
    }
}

impl From<AllocError> for CatalogFault {
    ghost from_gives = { λ _ error. error ≡ no_memory };

    fn from(_error: AllocError) -> CatalogFault {
        CatalogFault::NoMemory
    }
}

impl<T: Drop> From<AllocFailed<T>> for CatalogFault {
    ghost from_gives = { λ _ error. error ≡ no_memory };

    fn from(_error: AllocFailed<T>) -> CatalogFault {
        CatalogFault::NoMemory
    }
}
