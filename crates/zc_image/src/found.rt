use zc_damage::FoundBlock;
use zc_num::{Listed, PlaceAt};
use zc_root::Body;
use zc_tree::Parts;

/// What was found after the root of a pool.
#[derive(Debug, Drop)]
pub struct Found {
    /// The body of the root.
    pub body: Body,
    /// Which of the two root slots' gates are open.
    pub gates: [bool; 2],
    /// What the catalogue says.
    pub parts: Parts,
    /// The places of the catalogue, in the order of the chain.
    pub catalogue: Listed<PlaceAt>,
    /// Each block that a pointer is to, once, ascending by place.
    pub blocks: Listed<FoundBlock>,
}
