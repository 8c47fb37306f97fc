// The two root slots of a pool: where a pool begins to be read, and what a commit changes last.
//
// A slot is two places of device 0, a body and a gate. The body says which pool this is, in which group it was written, and where
// the catalogue of that group stands; it ends with the SHA-256 of all of it. The gate is open where each of its bytes is 0xA5, so
// that one write opens it or closes it. A group writes the slot of its number modulo 2, and leaves the other one alone: until the
// new gate is open, the pool is what the other slot says. The root is the open one of the highest group.
//
// Each body has one spelling, and `read_body` takes no other bytes. The laws on which a commit stands are in proofs/, in public
// modules: what a change of one slot leaves of the root, and that an image has one root at most.
#![tactic(auto)]

mod body;
mod gate;
mod reading;
mod slots;
mod writing;

pub use body::{Body, slot_of};
pub use gate::gate_bytes;
pub use reading::read_body;
pub use slots::{RootFault, read_gates, read_slots};
pub use writing::body_bytes;
