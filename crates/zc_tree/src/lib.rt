// What a group of a pool has committed: its datasets, their files, and which block stands at each place of a file.
//
// A tree is a value: a commit writes the whole of it as a catalogue, and an import reads it back. This crate has the tree's
// types, the list of all its pointers, the change of one slot, and the part of the catalogue that spells one dataset. A part that
// is read is spelled so, and what is refused is the spelling of no dataset: the answer names the first field that is cut short
// or breaks a rule.
#![tactic(auto)]

mod catalogue;
mod names;
mod reading;
mod slots;
mod tree;
mod walking;
mod writing;

pub use catalogue::{Catalogue, Parts};
pub use reading::{dataset_field, read_dataset, read_next_dataset};
pub use tree::{Dataset, File, LogState, Tree};
pub use writing::put_dataset;
