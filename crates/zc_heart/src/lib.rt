// The files of an open pool in memory: what its commands answer, what its open group changed, and what it is charged.
//
// The heart answers as plain files do (zc_plain), and holds its blocks in another way. A block's bytes stand in memory once, however
// many files share them; a file has an ordered map from the number of a block to the block, and none for a hole; a dataset finds its
// files by their names. Beside each file stands which of its blocks the open group touched, so that a seal hands out what the group
// changed and walks nothing else. How many files share a block is counted by its stamp, and the charge is a sum of four numbers.
//
// A command makes room for all that it will put first, in ways that change no file, and then puts it without taking memory. So where
// memory is wanting nothing has changed.
#![tactic(auto)]

mod absorbing;
mod block;
mod changes;
mod commands;
mod dataset;
mod directory;
mod file;
mod heart;
mod making;
mod opening;
mod pool_core;
mod reading;
mod room;
mod sealing;
mod stamps;
mod truncating;
mod writing;

pub use block::Block;
pub use changes::{Change, GroupDone, Now, Sealed};
pub use dataset::Spot;
pub use directory::{Directory, Named};
pub use file::{HeartFile, HeldBlock, Mark};
pub use heart::Heart;
pub use opening::HeartBlock;
pub use pool_core::{Core, HeartDataset, WaitingGroup};
pub use stamps::{Count, Numbers, Stamp, Stamps};
pub use writing::Input;
