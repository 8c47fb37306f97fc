// Standard input as a source, and standard output as a sink. What passes is known to nobody here.
ghost use Rattle.std.specs.Prelude.{◌≡◌, ◌<◌, ◌≤◌, false, [], length, IfOk, IsErrOf};
ghost use Rattle.zc_tape.specs.Cause.{Rose};
ghost use Rattle.zc_io.specs.Stream.{Stream};

use crate::sink::{Sink, SinkFault};
use crate::source::Source;
use std::io::{Read, Write};
use zc_tape::Failed;

/// Standard input, or another reader. It tells nothing of what is left.
#[derive(Drop)]
pub struct StandardInput<R> {
    reader: R,
    faults: u64,
}

impl<R: Read + Drop> StandardInput<R> {
    /// Reads from this reader, as `rt.reader()` gives it.
    pub fn new(reader: R) -> StandardInput<R>
        ensures { result ≡ record { reader = reader; faults = 0 } }
    {
        StandardInput { reader, faults: 0 }
    }
}

impl<R: Read + Drop> Source for StandardInput<R> {
    ghost left = { λ _. record { told = false; bytes = [] } };

    ghost faults = { λ input. input.faults };

    fn read(&mut self, out: &mut [u8]) -> Result<usize, Failed> {
        match self.reader.read(out) {
            Ok(n) => Ok(n),
            Err(_) => {
                self.faults = self.faults.saturating_add(1);
                Err(Failed)
            }
        }
    }
}

/// Standard output, or another writer. It tells nothing of what it took.
#[derive(Drop)]
pub struct StandardOutput<W> {
    writer: W,
    faults: u64,
}

impl<W: Write + Drop> StandardOutput<W> {
    /// Writes to this writer, as `io::writer(&rt)` gives it.
    pub fn new(writer: W) -> StandardOutput<W>
        ensures { result ≡ record { writer = writer; faults = 0 } }
    {
        StandardOutput { writer, faults: 0 }
    }
}

impl<W: Write + Drop> Sink for StandardOutput<W> {
    ghost taken = { λ _. record { told = false; bytes = [] } };

    ghost faults = { λ output. output.faults };

    fn write(&mut self, bytes: &[u8]) -> Result<usize, SinkFault>
        ensures no_memory { IsErrOf result SinkFault.NoMemory → ⊥ }
        ensures count { IfOk result (λ n. n ≤ length bytes.now) }
        ensures some { 0 < length bytes.now → IfOk result (λ n. 0 < n) }
        ensures later { self.old.faults ≤ self.new.faults }
        ensures cause { IsErrOf result SinkFault.Failed → Rose self.old.faults self.new.faults }
    {
        match self.writer.write(bytes) {
            Ok(n) if n > 0 || bytes.is_empty() => Ok(n),
            _ => {
                self.faults = self.faults.saturating_add(1);
                Err(SinkFault::Failed)
            }
        }
    }
}
