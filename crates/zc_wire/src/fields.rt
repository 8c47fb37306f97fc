// Fields, read one after the other from the front of bytes.
ghost use Rattle.std.specs.Prelude.{◌≡◌, ◌<◌, ◌≤◌, length, IfOk};
ghost use Rattle.zc_wire.specs.Fields.{u32_field, u64_field, bytes_field, rule, FieldGives, placed_in};
ghost use Rattle.zc_wire.specs.declared.fields.FieldFault.TheVariants.{NoMemory as no_memory};

use crate::CatalogFault;
use crate::cursor::{u32_in, u64_in};
use std::alloc::{AllocError, AllocFailed};

/// Why a field was not read.
#[derive(Debug, Clone, Copy, PartialEq, Eq)]
pub enum FieldFault {
    /// Memory was wanting.
    NoMemory,
    /// The field isn't there whole, or breaks a rule. So many bytes are left from its first byte on.
    Bad { left: usize },
}

impl FieldFault {
    /// The fault with its place counted from the front of all of the bytes.
    pub fn within(self, bytes: &[u8]) -> CatalogFault
        ensures { result ≡ placed_in (length bytes.now) self }
    {
        match self {
            FieldFault::NoMemory => CatalogFault::NoMemory,
            FieldFault::Bad { left } => CatalogFault::BadCatalog {
                at: bytes.len().saturating_sub(left) as u64,
            },
        }
    }
}

impl From<AllocError> for FieldFault {
    ghost from_gives = { λ _ error. error ≡ no_memory };

    fn from(_error: AllocError) -> FieldFault {
        FieldFault::NoMemory
    }
}

impl<T: Drop> From<AllocFailed<T>> for FieldFault {
    ghost from_gives = { λ _ error. error ≡ no_memory };

    fn from(_error: AllocFailed<T>) -> FieldFault {
        FieldFault::NoMemory
    }
}

/// A number in four bytes, and the bytes after it.
pub fn u32_field(bytes: &[u8]) -> Result<(u32, &[u8]), FieldFault>
    ensures { FieldGives (λ x. (x.0, x.1.now)) result (u32_field bytes.now) }
{
    if bytes.len() < 4 {
        return Err(FieldFault::Bad { left: bytes.len() });
    }
    let (front, rest) = bytes.split_at(4);
    Ok((u32_in(front), rest))
}

/// A number in eight bytes, and the bytes after it.
pub fn u64_field(bytes: &[u8]) -> Result<(u64, &[u8]), FieldFault>
    ensures { FieldGives (λ x. (x.0, x.1.now)) result (u64_field bytes.now) }
{
    if bytes.len() < 8 {
        return Err(FieldFault::Bad { left: bytes.len() });
    }
    let (front, rest) = bytes.split_at(8);
    Ok((u64_in(front), rest))
}

/// So many bytes, and the bytes after them.
pub fn bytes_field(bytes: &[u8], n: usize) -> Result<(&[u8], &[u8]), FieldFault>
    ensures gives { FieldGives (λ x. (x.0.now, x.1.now)) result (bytes_field n bytes.now) }
    ensures width { IfOk result (λ x. length x.0.now ≡ n) }
{
    if bytes.len() < n {
        return Err(FieldFault::Bad { left: bytes.len() });
    }
    Ok(bytes.split_at(n))
}

/// Whether the field at the front of the bytes keeps its rules.
pub fn rule(holds: bool, bytes: &[u8]) -> Result<(), FieldFault>
    ensures { FieldGives (λ _. tt) result (rule holds bytes.now) }
{
    if holds {
        Ok(())
    } else {
        Err(FieldFault::Bad { left: bytes.len() })
    }
}
