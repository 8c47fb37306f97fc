// A place that is read.
ghost use Rattle.std.specs.Prelude.{◌≡◌, ◌<◌, ◌≤◌, OnOk, OnErr, IsErrOf};
ghost use Rattle.zc_tape.specs.Cause.{Rose};
ghost use Rattle.zc_tape.specs.Crash.{reads};
ghost use Rattle.zc_image.specs.ReadAnswers.{IsWhole};

use crate::ImageFault;
use zc_num::PlaceAt;
use zc_tape::DiskSet;

// A block to read into.
pub fn zeros() -> [u8; 4096] {
    [0u8; 4096]
}

// Reads the place.
pub fn read_place<D: DiskSet>(
    disks: &mut D,
    at: &PlaceAt,
    block: &mut [u8; 4096],
) -> Result<(), ImageFault>
    requires device_there { at.now.device < (D.shape disks.old).devices }
    requires place_there { at.now.place < (D.shape disks.old).places }
    ensures bytes { OnOk result (IsWhole (D.tape disks.old) → block.new ≡ reads (D.tape disks.old) at.now.device at.now.place) }
    ensures fault { OnErr result (result ≡ Err ImageFault.DiskFault) }
    ensures tape { D.tape disks.new ≡ D.tape disks.old }
    ensures shape { D.shape disks.new ≡ D.shape disks.old }
    ensures spare { D.spare disks.new ≡ D.spare disks.old }
    ensures later { D.faults disks.old ≤ D.faults disks.new }
    ensures cause { IsErrOf result ImageFault.DiskFault → Rose (D.faults disks.old) (D.faults disks.new) }
{
    disks.read(at.device, at.place, block)?;
    Ok(())
}
