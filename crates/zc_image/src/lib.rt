// Reading a whole pool: what stands after its root, or the first damage of it.
//
// The root is chosen first. Then the checks come in one order, and the first that hits is the answer: the size, the chain of the
// catalogue's places, the digest of the catalogue, its bytes, the checks of what it says, each block's digest, and the checks
// that need the blocks or the counts of all places. What is read is a function of the image, so an answer has its cause in the
// bytes: an image that holds a pool is read as that pool, and a damage is what that function says.
//
// A place is read once, and only if the root owns it: the chain is followed with a flag for each place, and the blocks are read
// ascending by place, by a census of the pointers that is made once.
#![tactic(auto)]

mod block;
mod blocks;
mod catalogue;
mod chain;
mod fault;
mod found;
mod geometry;
mod hits;
mod reach;
mod reading;
mod trail;

pub use fault::ImageFault;
pub use found::Found;
pub use reading::read_pool;
pub use zc_damage::{Damage, DamageKind, FoundBlock};
