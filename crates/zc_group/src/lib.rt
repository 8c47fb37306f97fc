// A pool over a disk set: how it is made, how it is taken up again, and how a group is committed to it.
//
// What stands of a pool is said by its image alone: the root's body, the catalogue that the body names, and the blocks that the
// catalogue's pointers name. Each change of it is a group. A group takes places that nobody owns, counts the pointers of its tree
// anew, and spells all of that in its catalogue; then it makes the calls of its plan in their order. So at every moment, within a
// call too, a crash leaves what stood before the group or what stands after it.
//
// Nothing here knows of scripts, nor of where the disks come from.
#![tactic(auto)]

mod catalogue;
mod choosing;
mod committing;
mod create;
mod import;
mod look;
mod measuring;
mod root;

pub use choosing::free_places;
pub use committing::{CommitFault, commit};
pub use create::{CreateFault, create_pool};
pub use import::{ImportFault, Imported, import_pool};
pub use look::has_root;
pub use root::Root;
