// Calls of a disk set that are made later, in order.
use zc_num::Boxed;

/// A write or a sync of a disk set, to be made.
#[derive(Debug, Drop)]
pub enum DiskCall {
    /// Writes 4,096 bytes to a place of a device.
    Write {
        device: u32,
        place: u32,
        bytes: Boxed<[u8; 4096]>,
    },
    /// Makes all writes so far durable.
    Sync,
}

/// Calls to be made in this order, up to the first that fails.
#[derive(Debug, Drop)]
pub struct Plan {
    pub calls: Vec<DiskCall>,
}
