// What a plan is made of.
use zc_num::{Boxed, Listed};
use zc_root::Body;

/// A block that is to stand at a place.
#[derive(Debug, Drop)]
pub struct PlacedBlock {
    pub device: u32,
    pub place: u32,
    pub bytes: Boxed<[u8; 4096]>,
}

/// What a transaction group writes.
#[derive(Debug, Drop)]
pub struct GroupPlan {
    /// The body of its root.
    pub body: Body,
    /// The blocks of its files.
    pub blocks: Listed<PlacedBlock>,
    /// The blocks of its catalogue.
    pub chain: Listed<PlacedBlock>,
    /// Whether the gate of its slot is open.
    pub gate_open: bool,
}

/// What the creation of a pool writes.
#[derive(Debug, Drop)]
pub struct CreationPlan {
    /// The body of the first root.
    pub body: Body,
    /// The blocks of its catalogue.
    pub chain: Listed<PlacedBlock>,
    /// Whether the gate of slot 0 is open.
    pub first_open: bool,
    /// Whether the gate of slot 1 is open.
    pub second_open: bool,
    /// How many places the logs have, after the roots.
    pub logs: u32,
}
