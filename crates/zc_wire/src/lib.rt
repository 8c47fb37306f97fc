// Numbers and bytes on the wire: what the formats of the store are spelled with.
//
// Each number is spelled in 4 or 8 bytes, the highest byte first. A cursor goes over bytes from the front: each read takes what
// it reads from the bytes that are left, and one that asks for more than is left fails, says where it stood, and takes nothing.
// The laws of the spelling stand in proofs/, in public modules: what is spelled is read, and what is read is spelled so.
#![tactic(auto)]

mod cursor;
mod fault;
mod fields;
mod put;

pub use cursor::Cursor;
pub use fault::{CatalogFault, WireFault};
pub use fields::{FieldFault, bytes_field, rule, u32_field, u64_field};
pub use put::{bytes_of_u32, bytes_of_u64, put_bytes, put_u32, put_u64};
