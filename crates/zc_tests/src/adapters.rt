// The adapters of a reader and a writer, where these are interrupted or take nothing.
use std::io;
use zc_io::{Sink, SinkFault, Source, StandardInput, StandardOutput};
use zc_tape::Failed;

// A reader of which each call is interrupted, and a writer that takes nothing.
#[derive(Drop)]
struct Broken;

impl io::Read for Broken {
    fn read(&mut self, _buf: &mut [u8]) -> io::Result<usize> {
        Err(io::Error::from(io::ErrorKind::Interrupted))
    }
}

#[derive(Drop)]
struct Full;

impl io::Write for Full {
    fn write(&mut self, _buf: &[u8]) -> io::Result<usize> {
        Ok(0)
    }

    fn flush(&mut self) -> io::Result<()> {
        Ok(())
    }
}

#[test]
fn an_interrupted_read_and_a_write_that_takes_nothing_fail(rt: HostRuntime) {
    let mut input = StandardInput::new(Broken);
    assert_eq!(rt; input.read(&mut [0u8; 8]), Err(Failed));
    let mut output = StandardOutput::new(Full);
    assert_eq!(rt; output.write(b"a"), Err(SinkFault::Failed));
    assert_eq!(rt; output.write(b""), Ok(0));
}
