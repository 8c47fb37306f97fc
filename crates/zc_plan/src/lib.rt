// The device calls of a transaction group and of the creation of a pool, and how they are made.
//
// A group writes its blocks and its catalogue to places that the old root doesn't own, then the body of its root, and last the gate
// over that body, with a sync behind each of the three. The gate of its slot may still be open, over the body of the root before
// the last; then it is closed with the first writes, and is known to be closed before the body is written. A gate that isn't open
// is never written before its body is rewritten and synced, so a body that an interrupted commit left is never opened.
//
// A creation closes what gates are open, zeros both bodies and the logs behind a sync, and then writes the first group.
//
// A plan is made of values alone, and takes all its memory before the first call. `write_group` and `write_creation` make the calls
// of a plan in a row; on what they leave, whatever fails and whenever a crash comes, the store stands. docs/CRASHES.md has both
// call by call.
#![tactic(auto)]

mod calls;
mod creation;
mod group;
mod input;
mod write;

pub use creation::plan_creation;
pub use group::plan_group;
pub use input::{CreationPlan, GroupPlan, PlacedBlock};
pub use write::{WriteFault, write_creation, write_group};
