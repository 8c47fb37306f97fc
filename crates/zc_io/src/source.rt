// Where a script comes from.
ghost use Rattle.std.specs.Prelude.{◌≡◌, ℕ, ◌<◌, ◌≤◌, length, take, [], IfOk, OnErr, IsTrue};
ghost use Rattle.zc_tape.specs.Cause.{HasCause};
ghost use Rattle.zc_io.specs.Stream.{Stream, GivesFront, Keeps};

use zc_tape::Failed;

/// Bytes that are read once, from the front.
pub trait Source {
    /// The bytes that are left, where the source tells them.
    ghost left: { Self → Stream };

    /// How often a read has failed. It never falls.
    ghost faults: { Self → ℕ };

    /// Reads bytes into the front of a piece, and answers how many. Into a piece that isn't empty it
    /// gives 0 only at the end of the input.
    ///
    /// # Errors
    /// `Failed`, where the count of faults rose; no byte is lost.
    fn read(&mut self, out: &mut [u8]) -> Result<usize, Failed>
        ensures count { IfOk result (λ n. n ≤ length out.old) }
        ensures told { (left self.new).told ≡ (left self.old).told }
        ensures given { IfOk result (λ n. GivesFront (left self.old) (left self.new) (take n out.new)) }
        ensures end { 0 < length out.old → IfOk result (λ n. n ≡ 0 → IsTrue (left self.old).told → (left self.old).bytes ≡ []) }
        ensures kept { OnErr result (Keeps (left self.old) (left self.new)) }
        ensures cause { HasCause (faults self.old) (faults self.new) result };
}
