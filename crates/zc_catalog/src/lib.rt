// The catalogue as one string of bytes, in a chain of places.
//
// A group's datasets, tables and maps are spelled one after the other, and the whole is read back in one pass. What is read is
// spelled so, and bytes are refused exactly where they are the catalogue of no root of that group: the answer names the first
// field that is cut short or breaks a rule, and bytes after the end are such a field.
//
// The string is cut into parts of 4,088 bytes, each in a place of its own after the number of the next place. `link` makes the
// blocks of these places, and `next_of` says where the one after a block stands. What a reader that follows the places joins is
// the string again, with zeros after it: the law is in proofs/, in a public module.
#![tactic(auto)]

mod chain;
mod linking;
mod reading;
mod writing;

pub use chain::Chain;
pub use linking::{link, next_of};
