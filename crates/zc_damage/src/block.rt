// Blocks that were read.
use zc_num::Boxed;

/// A block that was read at its place.
#[derive(Debug, Drop)]
pub struct FoundBlock {
    pub device: u32,
    pub place: u32,
    pub bytes: Boxed<[u8; 4096]>,
}
