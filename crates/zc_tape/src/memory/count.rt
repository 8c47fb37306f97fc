// How a disk set in memory counts its calls, and which of them fail.
ghost use Rattle.std.specs.Prelude.{◌≡◌, ◌+◌, ◌-◌, ◌^◌, ◌↔◌, min, IsTrue, IsErr};
ghost use Rattle.std.specs.List.{Contains};
ghost use Rattle.zc_tape.specs.Cause.{HasCause};
ghost use Rattle.zc_tape.specs.Memory.{shape_of, faults_of, spare_of, tape_of, failing_of, asked_of};

use super::MemoryDisks;
use crate::disks::Failed;

/// The number after `asked` is listed.
fn is_next_listed(failing: &[u64], asked: u64) -> bool
    ensures { IsTrue result ↔ Contains failing.now (asked + 1) }
{
    failing
        .iter()
        .any(|number| *number > asked && *number - asked == 1)
}

impl MemoryDisks {
    /// Counts one more call.
    ///
    /// # Errors
    /// The call's number is listed.
    pub(super) fn count(&mut self) -> Result<(), Failed>
        ensures exact { IsErr result ↔ Contains (failing_of self.old) (asked_of self.old + 1) }
        ensures asked { asked_of self.new ≡ min (asked_of self.old + 1) (2 ^ 64 - 1) }
        ensures failing { failing_of self.new ≡ failing_of self.old }
        ensures tape { tape_of self.new ≡ tape_of self.old }
        ensures shape { shape_of self.new ≡ shape_of self.old }
        ensures spare { spare_of self.new ≡ spare_of self.old }
        ensures cause { HasCause (faults_of self.old) (faults_of self.new) result }
    {
        let fails = is_next_listed(&self.failing, self.asked);
        self.asked = self.asked.saturating_add(1);
        if fails {
            self.faults = self.faults.saturating_add(1);
            Err(Failed)
        } else {
            Ok(())
        }
    }
}
