// How calls of a disk set are made.
ghost use Rattle.std.specs.Prelude.{◌≡◌, ◌+◌, ◌<◌, ◌≤◌, length, map, OnOk, is_ok};
ghost use Rattle.zc_tape.specs.Cause.{HasCause};
ghost use Rattle.zc_tape.specs.DiskCall.{call_of, IsThere, AreThere};
ghost use Rattle.zc_tape.specs.Plays.{Played};
ghost use Rattle.zc_tape.specs.Tape.{Appends};

use crate::call::DiskCall;
use crate::disks::{DiskSet, Failed};

/// Makes one call.
///
/// # Errors
/// The call failed.
pub fn perform_one<D: DiskSet>(disks: &mut D, call: &DiskCall) -> Result<(), Failed>
    requires there { IsThere (D.shape disks.old) (call_of call.now) }
    requires room { 0 < D.spare disks.old }
    ensures told { (D.tape disks.new).told ≡ (D.tape disks.old).told }
    ensures tape { Appends (D.tape disks.old) (D.tape disks.new) (call_of call.now) (is_ok result) }
    ensures shape { D.shape disks.new ≡ D.shape disks.old }
    ensures spare { OnOk result (D.spare disks.old ≤ D.spare disks.new + 1) }
    ensures cause { HasCause (D.faults disks.old) (D.faults disks.new) result }
{
    match call {
        DiskCall::Write {
            device,
            place,
            bytes,
        } => disks.write(*device, *place, bytes.get()),
        DiskCall::Sync => disks.sync(),
    }
}

/// Makes the calls in order, up to the first that fails.
///
/// # Errors
/// A call failed, and none after it was made.
#[tactic(auto, using(crate::proofs::Performed::performed_more, crate::proofs::Performed::performed_stopped))]
pub fn perform<D: DiskSet>(disks: &mut D, calls: &[DiskCall]) -> Result<(), Failed>
    requires there { AreThere (D.shape disks.old) (map call_of calls.now) }
    requires room { length calls.now ≤ D.spare disks.old }
    ensures told { (D.tape disks.new).told ≡ (D.tape disks.old).told }
    ensures played { Played (D.tape disks.old) (map call_of calls.now) (D.tape disks.new) (is_ok result) }
    ensures shape { D.shape disks.new ≡ D.shape disks.old }
    ensures spare { OnOk result (D.spare disks.old ≤ D.spare disks.new + length calls.now) }
    ensures cause { HasCause (D.faults disks.old) (D.faults disks.new) result }
{
    for call in calls {
        perform_one(disks, call)?;
    }
    Ok(())
}
