// Where replies go.
ghost use Rattle.std.specs.Prelude.{◌≡◌, ℕ, ◌<◌, ◌≤◌, length, take, IfOk, OnErr, IsErrOf};
ghost use Rattle.zc_tape.specs.Cause.{Rose};
ghost use Rattle.zc_io.specs.Stream.{Stream, Takes, Keeps};

/// Why a sink took nothing.
#[derive(Clone, Copy, Debug, PartialEq, Eq)]
pub enum SinkFault {
    Failed,
    NoMemory,
}

/// Takes bytes, one after the other.
pub trait Sink {
    /// The bytes that were taken, where the sink tells them.
    ghost taken: { Self → Stream };

    /// How often a write has failed. It never falls.
    ghost faults: { Self → ℕ };

    /// Takes the front of a piece, and answers how many bytes. Of a piece that isn't empty it takes one at least.
    ///
    /// # Errors
    /// `Failed`, where the count of faults rose, and want of memory; nothing was taken then.
    fn write(&mut self, bytes: &[u8]) -> Result<usize, SinkFault>
        ensures count { IfOk result (λ n. n ≤ length bytes.now) }
        ensures some { 0 < length bytes.now → IfOk result (λ n. 0 < n) }
        ensures told { (taken self.new).told ≡ (taken self.old).told }
        ensures taken { IfOk result (λ n. Takes (taken self.old) (taken self.new) (take n bytes.now)) }
        ensures kept { OnErr result (Keeps (taken self.old) (taken self.new)) }
        ensures later { faults self.old ≤ faults self.new }
        ensures cause { IsErrOf result SinkFault.Failed → Rose (faults self.old) (faults self.new) };
}
