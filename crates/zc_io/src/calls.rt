// The calls of an object in memory: how many were made, how many failed, and which are to fail.
ghost use Rattle.std.specs.Prelude.{◌≡◌, ◌≤◌, IfOk};
ghost use Rattle.zc_io.specs.Calls.{fails_next, after_call, IsFirst};

use std::alloc::Global;
use zc_num::NoMemory;

/// Counts calls from 1, and knows which of them are to fail.
#[derive(Debug, Drop)]
pub struct Calls {
    failing: Vec<u64>,
    asked: u64,
    faults: u64,
}

impl Calls {
    /// No call so far; those of the listed numbers are to fail.
    pub(crate) fn new(alloc: Global, failing: &[u64]) -> Result<Calls, NoMemory>
        ensures { IfOk result (λ calls. IsFirst calls failing.now) }
    {
        let failing = Vec::from_slice(alloc, failing)?;
        Ok(Calls {
            failing,
            asked: 0,
            faults: 0,
        })
    }

    /// Counts one more call, and answers whether it is to fail.
    pub(crate) fn next_fails(&mut self) -> bool
        ensures answer { result ≡ fails_next self.old }
        ensures counted { self.new ≡ after_call self.old }
        ensures later { self.old.faults ≤ self.new.faults }
    {
        let fails = self.is_next_listed();
        self.asked = self.asked.saturating_add(1);
        if fails {
            self.faults = self.faults.saturating_add(1);
        }
        fails
    }

    fn is_next_listed(&self) -> bool
        ensures { result ≡ fails_next self.now }
    {
        let number = u128::from(self.asked) + 1;
        self.failing
            .iter()
            .any(|listed| u128::from(*listed) == number)
    }
}
