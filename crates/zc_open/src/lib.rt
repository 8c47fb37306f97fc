// A pool in memory: its files, its history, the groups that wait to be written, and the sessions that wait for them.
//
// What is asked adds to the history and changes the files; what is written is taken in. No disk is known here. An entry is pushed
// before anything changes and taken out again where memory is wanting after it, so that want of memory leaves all as it was.
#![tactic(auto)]

mod ack;
mod asking;
mod copying;
mod entries;
mod finishing;
mod kinds;
mod open_pool;
mod settling;

pub use ack::{Ack, Waiting};
pub use asking::Asked;
pub use open_pool::OpenPool;
