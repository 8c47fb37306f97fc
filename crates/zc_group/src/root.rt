// What is kept in memory of the root that stands.
use zc_num::{Limits, Listed, PlaceAt};
use zc_root::Body;
use zc_tree::Tree;

/// The root that stands: what the next group needs of it. No block is kept.
#[derive(Debug, Drop)]
pub struct Root {
    /// The size of the pool.
    pub limits: Limits,
    /// The body of the root.
    pub body: Body,
    /// Which of the two slots' gates are open.
    pub gates: [bool; 2],
    /// What the root's group committed.
    pub tree: Tree,
    /// The places of its catalogue, in the order of the chain.
    pub chain: Listed<PlaceAt>,
}
