// What a group leads to: the state after another.
//
// A group's tree, the places of its catalogue and its new blocks are chosen; the rest follows. The tables count the pointers of the
// tree, the maps have just what is owned, the catalogue spells both, and the body names the catalogue. The laws are in proofs/, in
// public modules: what is exact in this sense is a state of a pool, and a group that takes only places that nobody owns leads to it.
#![tactic(auto)]

mod exact;

pub use exact::{exact_maps, exact_tables};
