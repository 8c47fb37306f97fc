// A source in memory, for tests.
ghost use Rattle.std.specs.Prelude.{◌≡◌, ℕ, ◌<◌, ◌≤◌, length, min, take, drop, [], IfOk, OnErr, IsTrue, is_err, true};
ghost use Rattle.zc_tape.specs.Cause.{HasCause};
ghost use Rattle.zc_io.specs.Stream.{GivesFront, Keeps};
ghost use Rattle.zc_io.specs.Calls.{fails_next, after_call, IsFirst};

use crate::calls::Calls;
use crate::source::Source;
use std::alloc::Global;
use zc_num::NoMemory;
use zc_tape::Failed;

/// Bytes that are read in pieces of at most a given length.
#[derive(Debug, Drop)]
pub struct MemorySource {
    bytes: Vec<u8>,
    at: usize,
    most: usize,
    calls: Calls,
    ghost within: { at ≤ length bytes.items },
    ghost some: { 0 < most },
}

impl MemorySource {
    ghost use Rattle.zc_io.specs.Memory.{left_of};

    /// A source of these bytes. A read gives at most `most` of them, and the reads of the listed numbers, counted
    /// from 1, fail.
    pub fn new(
        alloc: Global,
        bytes: &[u8],
        most: usize,
        failing: &[u64],
    ) -> Result<MemorySource, NoMemory>
        requires { 0 < most }
        ensures left { IfOk result (λ source. left_of source ≡ bytes.now) }
        ensures most { IfOk result (λ source. source.most ≡ most) }
        ensures calls { IfOk result (λ source. IsFirst source.calls failing.now) }
    {
        let bytes = Vec::from_slice(alloc, bytes)?;
        let calls = Calls::new(alloc, failing)?;
        Ok(MemorySource {
            bytes,
            at: 0,
            most,
            calls,
        })
    }

    // The next bytes, as many as are left, fit and may be given in one read.
    fn give(&mut self, out: &mut [u8]) -> usize
        ensures count { result ≡ min self.old.most (min (length out.old) (length (left_of self.old))) }
        ensures given { take result out.new ≡ take result (left_of self.old) }
        ensures left { left_of self.new ≡ drop result (left_of self.old) }
        ensures most { self.new.most ≡ self.old.most }
        ensures calls { self.new.calls ≡ self.old.calls }
    {
        let left = &self.bytes[self.at..];
        let n = self.most.min(out.len().min(left.len()));
        copy_front(out, left, n);
        self.at += n;
        n
    }
}

// Copies the first n bytes.
fn copy_front(out: &mut [u8], from: &[u8], n: usize)
    requires fits { n ≤ length out.old }
    requires there { n ≤ length from.now }
    ensures { take n out.new ≡ take n from.now }
{
    out[..n].copy_from_slice(&from[..n]);
}

impl Source for MemorySource {
    ghost use Rattle.zc_io.specs.Memory.{left_of, stream_left};

    ghost left = { stream_left };

    ghost faults = { λ source. source.calls.faults };

    fn read(&mut self, out: &mut [u8]) -> Result<usize, Failed>
        ensures exact { is_err result ≡ fails_next self.old.calls }
        ensures calls { self.new.calls ≡ after_call self.old.calls }
        ensures most { self.new.most ≡ self.old.most }
        ensures amount { IfOk result (λ n. n ≡ min self.old.most (min (length out.old) (length (left_of self.old)))) }
        ensures count { IfOk result (λ n. n ≤ length out.old) }
        ensures told { (stream_left self.new).told ≡ (stream_left self.old).told }
        ensures given { IfOk result (λ n. GivesFront (stream_left self.old) (stream_left self.new) (take n out.new)) }
        ensures end { 0 < length out.old → IfOk result (λ n. n ≡ 0 → IsTrue (stream_left self.old).told → (stream_left self.old).bytes ≡ []) }
        ensures kept { OnErr result (Keeps (stream_left self.old) (stream_left self.new)) }
        ensures cause { HasCause self.old.calls.faults self.new.calls.faults result }
    {
        if self.calls.next_fails() {
            return Err(Failed);
        }
        Ok(self.give(out))
    }
}
