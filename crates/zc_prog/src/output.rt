// The text of a run, written to its sink.
ghost use Rattle.std.specs.Prelude.{◌≡◌, ℕ, ◌≤◌, length, take, OnOk, OnErr, IsErrOf};
ghost use Rattle.zc_tape.specs.Cause.{Rose};
ghost use Rattle.zc_io.specs.Stream.{Takes};
ghost use Rattle.zc_prog.specs.Output.{TakesFront};

use zc_io::{Sink, SinkFault};

/// Writes a text whole.
///
/// # Errors
/// Those of the sink; a front of the text was taken then.
pub fn write_all<K: Sink>(sink: &mut K, text: &[u8]) -> Result<(), SinkFault>
    ensures ok { OnOk result (Takes (K.taken sink.old) (K.taken sink.new) text.now) }
    ensures err { OnErr result (TakesFront (K.taken sink.old) (K.taken sink.new) text.now) }
    ensures later { K.faults sink.old ≤ K.faults sink.new }
    ensures cause { IsErrOf result SinkFault.Failed → Rose (K.faults sink.old) (K.faults sink.new) }
{
    let mut done = 0;
    while done < text.len() {
        match sink.write(&text[done..]) {
            Ok(n) => done += n,
            Err(fault) => return Err(fault),
        }
    }
    Ok(())
}
