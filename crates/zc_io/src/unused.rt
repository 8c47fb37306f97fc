// A disk set that was never written.
ghost use Rattle.std.specs.Prelude.{◌≡◌, length};
ghost use Rattle.zc_tape.specs.Memory.{tape_of};

use zc_tape::MemoryDisks;

/// A disk set with no call on its tape.
#[derive(Drop)]
pub struct Unused {
    pub(crate) disks: MemoryDisks,
    ghost unused: { length (tape_of disks).calls ≡ 0 },
}

impl Unused {
    pub(crate) fn of(disks: MemoryDisks) -> Unused
        requires { length (tape_of disks).calls ≡ 0 }
        ensures { result.disks ≡ disks }
    {
        Unused { disks }
    }
}
