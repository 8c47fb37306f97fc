// The script, read from its source.
ghost use Rattle.std.specs.Prelude.{◌≡◌, ◌+◌, ◌-◌, ◌≤◌, ◌<◌, ◌++◌, [], length, take, vec_len, IfOk, IfErr, OnOk, OnErr, IsErrOf, IsTrue};
ghost use Rattle.zc_tape.specs.Cause.{Rose};
ghost use Rattle.zc_io.specs.Stream.{GivesFront};
ghost use Rattle.zc_prog.specs.Input.{WasRead, most_bytes};

use std::alloc::{AllocError, Global};
use zc_io::Source;

/// The most bytes that a script has.
const MOST_BYTES: usize = 67_108_864;

// How many bytes are asked of the source at once.
const PIECE: usize = 65_536;

/// Why there is no script.
#[derive(Clone, Copy, Debug, PartialEq, Eq)]
pub enum InputFault {
    NoMemory,
    /// A read failed.
    Failed,
    /// The source has more bytes than a script may have.
    TooLarge,
}

// Reads a piece, and adds it to the script. Of a source that has too much, one byte past the most is read.
fn read_piece<S: Source>(
    source: &mut S,
    piece: &mut [u8],
    script: &mut Vec<u8>,
) -> Result<usize, InputFault>
    requires piece { 0 < length piece.old }
    requires room { vec_len script.old ≤ most_bytes }
    ensures count { IfOk result (λ n. n ≤ length piece.new) }
    ensures few { OnOk result (vec_len script.new ≤ most_bytes + 1) }
    ensures grows { IfOk result (λ n. vec_len script.new ≡ vec_len script.old + n) }
    ensures told { (S.left source.new).told ≡ (S.left source.old).told }
    ensures given { IfOk result (λ n. GivesFront (S.left source.old) (S.left source.new) (take n piece.new)) }
    ensures added { IfOk result (λ n. script.new.items ≡ script.old.items ++ take n piece.new) }
    ensures end { IfOk result (λ n. n ≡ 0 → IsTrue (S.left source.old).told → (S.left source.old).bytes ≡ []) }
    ensures later { S.faults source.old ≤ S.faults source.new }
    ensures cause { IsErrOf result InputFault.Failed → Rose (S.faults source.old) (S.faults source.new) }
    ensures never_large { IsErrOf result InputFault.TooLarge → ⊥ }
{
    let want = piece.len().min(MOST_BYTES + 1 - script.len());
    let n = match source.read(&mut piece[..want]) {
        Ok(n) => n,
        Err(_) => return Err(InputFault::Failed),
    };
    match script.extend_from_slice(&piece[..n]) {
        Ok(()) => Ok(n),
        Err(_) => Err(InputFault::NoMemory),
    }
}

// Room for one piece.
fn new_piece(alloc: Global) -> Result<Vec<u8>, InputFault>
    ensures ok { IfOk result (λ piece. vec_len piece ≡ 65536) }
    ensures err { IfErr result (λ fault. fault ≡ InputFault.NoMemory) }
{
    match vec![in alloc; 0u8; PIECE] {
        Ok(piece) => Ok(piece),
        Err(_) => Err(InputFault::NoMemory),
    }
}

/// Reads a source to its end.
///
/// # Errors
/// `Failed` where a read failed, `TooLarge` where byte 67,108,865 was read, and want of memory.
pub fn read_script<S: Source>(alloc: Global, source: &mut S) -> Result<Vec<u8>, InputFault>
    ensures ok { IfOk result (λ script. WasRead (S.left source.old) (S.left source.new) script.items) }
    ensures large { IsErrOf result InputFault.TooLarge → IsTrue (S.left source.old).told → most_bytes < length (S.left source.old).bytes }
    ensures later { S.faults source.old ≤ S.faults source.new }
    ensures cause { IsErrOf result InputFault.Failed → Rose (S.faults source.old) (S.faults source.new) }
{
    let mut script = Vec::new(alloc);
    let mut piece = new_piece(alloc)?;
    while script.len() <= MOST_BYTES {
        let n = read_piece(source, &mut piece, &mut script)?;
        if n == 0 {
            return Ok(script);
        }
    }
    Err(InputFault::TooLarge)
}
