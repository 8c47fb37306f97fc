// A sink in memory, for tests.
ghost use Rattle.std.specs.Prelude.{◌≡◌, ℕ, ◌<◌, ◌≤◌, ◌++◌, ◌↔◌, length, min, take, [], IfOk, OnErr, OnOk, IsErrOf, IsTrue, true};
ghost use Rattle.zc_tape.specs.Cause.{Rose};
ghost use Rattle.zc_io.specs.Stream.{Takes, Keeps};
ghost use Rattle.zc_io.specs.Calls.{fails_next, after_call, IsFirst};

use crate::calls::Calls;
use crate::sink::{Sink, SinkFault};
use std::alloc::Global;
use zc_num::NoMemory;

/// Keeps the bytes that it takes, in pieces of at most a given length.
#[derive(Debug, Drop)]
pub struct MemorySink {
    held: Vec<u8>,
    most: usize,
    calls: Calls,
    ghost some: { 0 < most },
}

impl MemorySink {
    ghost use Rattle.zc_io.specs.Memory.{taken_by};

    /// An empty sink. A write takes at most `most` bytes, and the writes of the listed numbers, counted from 1,
    /// fail.
    pub fn new(alloc: Global, most: usize, failing: &[u64]) -> Result<MemorySink, NoMemory>
        requires { 0 < most }
        ensures taken { IfOk result (λ sink. taken_by sink ≡ []) }
        ensures most { IfOk result (λ sink. sink.most ≡ most) }
        ensures calls { IfOk result (λ sink. IsFirst sink.calls failing.now) }
    {
        let calls = Calls::new(alloc, failing)?;
        Ok(MemorySink {
            held: Vec::new(alloc),
            most,
            calls,
        })
    }

    /// What was taken, the first first.
    pub fn bytes(&self) -> &[u8]
        ensures { result.now ≡ taken_by self.now }
    {
        self.held.as_slice()
    }
}

impl Sink for MemorySink {
    ghost use Rattle.zc_io.specs.Memory.{stream_taken};

    ghost taken = { stream_taken };

    ghost faults = { λ sink. sink.calls.faults };

    fn write(&mut self, bytes: &[u8]) -> Result<usize, SinkFault>
        ensures exact { IsTrue (fails_next self.old.calls) ↔ IsErrOf result SinkFault.Failed }
        ensures calls { self.new.calls ≡ after_call self.old.calls }
        ensures most { self.new.most ≡ self.old.most }
        ensures amount { IfOk result (λ n. n ≡ min self.old.most (length bytes.now)) }
        ensures count { IfOk result (λ n. n ≤ length bytes.now) }
        ensures some { 0 < length bytes.now → IfOk result (λ n. 0 < n) }
        ensures told { (stream_taken self.new).told ≡ (stream_taken self.old).told }
        ensures taken { IfOk result (λ n. Takes (stream_taken self.old) (stream_taken self.new) (take n bytes.now)) }
        ensures kept { OnErr result (Keeps (stream_taken self.old) (stream_taken self.new)) }
        ensures later { self.old.calls.faults ≤ self.new.calls.faults }
        ensures cause { IsErrOf result SinkFault.Failed → Rose self.old.calls.faults self.new.calls.faults }
    {
        if self.calls.next_fails() {
            return Err(SinkFault::Failed);
        }
        let n = self.most.min(bytes.len());
        match self.held.extend_from_slice(&bytes[..n]) {
            Ok(()) => Ok(n),
            Err(_) => Err(SinkFault::NoMemory),
        }
    }
}
