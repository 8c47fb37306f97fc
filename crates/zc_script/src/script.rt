// A whole script: its lines, or the first that is bad.
ghost use Rattle.std.specs.Prelude.{◌≡◌, ◌<◌, ◌≤◌, ◌+◌, ◌∷◌, ◌++◌, [], ℕ, true, false, None, Some, length, ◌==◌, IfOk, IfErr, IfSome, OnOk, All, if◌then◌else◌};
ghost use Rattle.zc_num.specs.Words.{pieces_ended_by, found_from};
ghost use Rattle.zc_script.specs.Spelling.{IsActOf};
ghost use Rattle.zc_script.specs.Lines.{texts_of, is_ignored, said, is_bad, next_session, bad_from, first_bad, with_line, lines_of, IsLineFault, IsScriptFault};

use crate::act::{Line, Said};
use crate::forms::said_of;
use std::alloc::Global;
use std::fmt;
use zc_num::{Listed, Name, NoMemory};

/// A script that was read: the lines that ask for an act, in order.
#[derive(Debug, Drop)]
pub struct Script {
    pub lines: Listed<Line>,
}

// Why a line says nothing.
#[derive(Clone, Copy, Debug, PartialEq, Eq)]
pub enum LineFault {
    NoMemory,
    Bad,
}

/// Why a script was not read.
#[derive(Clone, Copy, Debug, PartialEq, Eq)]
pub enum ScriptFault {
    NoMemory,
    /// The first bad line: the session in which it stands, and its number, counted from 1 with the ignored lines.
    BadLine { session: u32, line: u64 },
}

// Whether a line is empty or begins with `#`.
fn is_ignored(text: &[u8]) -> bool
    ensures { result ≡ is_ignored text.now }
{
    match text {
        [] => true,
        [first, ..] => *first == b'#',
    }
}

// The place of the first end of a line.
fn place_of_end(bytes: &[u8]) -> Option<usize>
    ensures value { result ≡ found_from (λ byte. byte == 10) 0 bytes.now }
    ensures inside { IfSome result (λ at. at < length bytes.now) }
{
    bytes.iter().position(|byte| *byte == b'\n')
}

// The text of the first line of bytes that aren't none, and the bytes after its end.
fn first_text(bytes: &[u8]) -> (&[u8], &[u8])
    requires { 0 < length bytes.now }
    ensures texts { texts_of bytes.now ≡ result.0.now ∷ texts_of result.1.now }
    ensures shorter { length result.1.now < length bytes.now }
{
    match place_of_end(bytes) {
        Some(at) => (&bytes[..at], &bytes[at + 1..]),
        None => (bytes, &[]),
    }
}

// What a line says, if it isn't ignored.
fn said(alloc: Global, pools: &[Name], text: &[u8]) -> Result<Option<Said>, LineFault>
    ensures ok { IfOk result (λ said_now. said_now ≡ said pools.now text.now) }
    ensures good { OnOk result (is_bad pools.now text.now ≡ false) }
    ensures bad { IfErr result (λ fault. IsLineFault fault (is_bad pools.now text.now)) }
{
    if is_ignored(text) {
        return Ok(None);
    }
    match said_of(alloc, pools, text) {
        Ok(Some(said)) => Ok(Some(said)),
        Ok(None) => Err(LineFault::Bad),
        Err(_) => Err(LineFault::NoMemory),
    }
}

// Adds the line, if it asks for an act, and answers the session of the following line.
fn push_line(
    alloc: Global,
    pools: &[Name],
    session: u32,
    number: u64,
    text: &[u8],
    lines: &mut Vec<Line>,
) -> Result<u32, LineFault>
    ensures ok { OnOk result (lines.new.items ≡ lines.old.items ++ with_line session number (said pools.now text.now) []) }
    ensures session { IfOk result (λ next. next ≡ next_session session (said pools.now text.now)) }
    ensures good { OnOk result (is_bad pools.now text.now ≡ false) }
    ensures bad { IfErr result (λ fault. IsLineFault fault (is_bad pools.now text.now)) }
{
    match said(alloc, pools, text) {
        Ok(Some(Said::Does { act })) => {
            let line = Line {
                number,
                session,
                act,
            };
            match lines.push(line) {
                Ok(()) => Ok(session),
                Err(_) => Err(LineFault::NoMemory),
            }
        }
        Ok(Some(Said::Session { session })) => Ok(session),
        Ok(None) => Ok(session),
        Err(fault) => Err(fault),
    }
}

/// The lines of a script that ask for an act, in order. `pools` are those of the run.
///
/// # Errors
/// The first line outside the grammar, and want of memory.
pub fn read_script(alloc: Global, bytes: &[u8], pools: &[Name]) -> Result<Script, ScriptFault>
    ensures ok { IfOk result (λ script. script.lines ≡ lines_of pools.now (texts_of bytes.now)) }
    ensures acts { IfOk result (λ script. All (λ line. IsActOf pools.now line.act) script.lines) }
    ensures few { IfOk result (λ script. length script.lines ≤ length bytes.now) }
    ensures good { OnOk result (first_bad pools.now (texts_of bytes.now) ≡ None) }
    ensures bad { IfErr result (λ fault. IsScriptFault fault (first_bad pools.now (texts_of bytes.now))) }
{
    let mut lines = Vec::new(alloc);
    let mut rest = bytes;
    let mut session = 0u32;
    let mut count = 0u64;
    while !rest.is_empty() {
        let (text, next) = first_text(rest);
        match push_line(alloc, pools, session, count + 1, text, &mut lines) {
            Ok(next_session) => session = next_session,
            Err(LineFault::Bad) => {
                return Err(ScriptFault::BadLine {
                    session,
                    line: count + 1,
                });
            }
            Err(LineFault::NoMemory) => return Err(ScriptFault::NoMemory),
        }
        rest = next;
        count += 1;
    }
    Ok(Script {
        lines: Listed::from_vec(lines),
    })
}
