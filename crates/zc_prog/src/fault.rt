use zc_image::Damage;

/// Why a run came to no text.
#[derive(Debug, Drop)]
pub enum SessionFault {
    /// Memory was wanting.
    NoMemory,
    /// The disk set holds no pool.
    NoPool,
    /// A call of the disk set failed as the pool was taken up.
    Failed,
    /// The pool is damaged.
    Damaged { damage: Damage },
}
