// A pool over a disk set: it is made, taken up, asked, and given back.
//
// What is asked changes the files in memory and stands in the history (zc_open). A step writes the first group that waits (zc_lane). The
// theorem over all events stands here: whatever a pool is asked, and wherever its calls are cut short, its history is legal, and a crash
// leaves the files after some of the first entries of it, among them every commit that was answered by then.
#![tactic(auto)]

mod event;
mod events;
mod opening;
mod pool;

pub use event::{Event, Progress};
pub use pool::Pool;
pub use zc_group::{CreateFault, ImportFault};
pub use zc_open::Ack;
