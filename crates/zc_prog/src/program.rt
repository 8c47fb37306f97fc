// The top call: a run of the program over any source, sink and shelf.
ghost use Rattle.std.specs.Prelude.{◌≡◌, ◌⊎◌, ◌∷◌, map, string_bytes, Some, None, [], All, IfOk, IfErr, OnOk};
ghost use Rattle.zc_io.specs.Stream.{Keeps};
ghost use Rattle.zc_script.specs.Spelling.{IsActOf};
ghost use Rattle.zc_script.specs.Lines.{texts_of, first_bad, IsScriptFault};
ghost use Rattle.zc_prog.specs.declared.words.Task.TheVariants.{Play as PlayTask};
ghost use Rattle.zc_prog.specs.Words.{task_of, pool_of, HasLimits};
ghost use Rattle.zc_prog.specs.Ended.{code_of, text_of};
ghost use Rattle.zc_prog.specs.Output.{IsReported};
ghost use Rattle.zc_prog.specs.Pooled.{IsAllBack};
ghost use Rattle.zc_prog.specs.Play.{Outside, lines_in, IsCause, IsEnded, IsStopped, IsRunOf, IsRun, IsComplete};

use crate::ended::{Ended, code_of, text_of};
use crate::input::{InputFault, read_script};
use crate::making::make_pool;
use crate::output::write_all;
use crate::pooled::play_pool;
use crate::words::{Task, pool_of, task_of};
use std::alloc::{AllocError, Global};
use zc_io::{Shelf, Sink, SinkFault, Source};
use zc_num::{Listed, Name, NoMemory};
use zc_script::{Line, ScriptFault};

/// How a run ended.
#[derive(Clone, Copy, Debug, PartialEq, Eq)]
pub struct Status {
    pub code: u8,
}

// The lines of a script of which each names the pool.
fn lines_of(alloc: Global, name: &Name, script: &[u8]) -> Result<Listed<Line>, ScriptFault>
    ensures ok { IfOk result (λ lines. lines ≡ lines_in name.now script.now) }
    ensures acts { IfOk result (λ lines. All (λ line. IsActOf (name.now ∷ []) line.act) lines) }
    ensures good { OnOk result (first_bad (name.now ∷ []) (texts_of script.now) ≡ None) }
    ensures bad { IfErr result (λ fault. IsScriptFault fault (first_bad (name.now ∷ []) (texts_of script.now))) }
{
    let pool = match name.clone() {
        Ok(pool) => pool,
        Err(_) => return Err(ScriptFault::NoMemory),
    };
    let read = zc_script::read_script(alloc, script, &[pool])?;
    Ok(read.lines)
}

// Reads a script and plays it on the pool of a name.
#[tactic(auto, using(crate::proofs::RunLaws::acts_are, crate::proofs::RunLaws::none_stopped, crate::proofs::RunLaws::script_stopped, crate::proofs::RunLaws::played_cause))]
fn play_script<S: Source, H: Shelf>(
    alloc: Global,
    name: &Name,
    source: &mut S,
    shelf: &mut H,
) -> Result<Ended, NoMemory>
    ensures cause { IfOk result (IsCause
        (record { left = S.left source.old; read_faults = S.faults source.old; stock = H.stock shelf.old; shelf_faults = H.faults shelf.old })
        (record { left = S.left source.new; read_faults = S.faults source.new; stock = H.stock shelf.new; shelf_faults = H.faults shelf.new })
        name.now) }
    ensures given_back { IsAllBack (H.stock shelf.old) (H.stock shelf.new) }
    ensures stopped { IsStopped
        (record { left = S.left source.old; read_faults = S.faults source.old; stock = H.stock shelf.old; shelf_faults = H.faults shelf.old })
        (record { left = S.left source.new; read_faults = S.faults source.new; stock = H.stock shelf.new; shelf_faults = H.faults shelf.new })
        (Some (PlayTask name.now)) }
{
    let script = match read_script(alloc, source) {
        Ok(script) => script,
        Err(InputFault::NoMemory) => return Err(AllocError),
        Err(InputFault::Failed) => return Ok(Ended::ReadFault),
        Err(InputFault::TooLarge) => return Ok(Ended::TooLarge),
    };
    let lines = match lines_of(alloc, name, &script) {
        Ok(lines) => lines,
        Err(ScriptFault::NoMemory) => return Err(AllocError),
        Err(ScriptFault::BadLine { session: _, line }) => return Ok(Ended::BadLine { line }),
    };
    drop(script);
    play_pool(alloc, shelf, name, lines)
}

// Does what the words ask.
fn run_task<S: Source, H: Shelf>(
    alloc: Global,
    task: &Task,
    source: &mut S,
    shelf: &mut H,
) -> Result<Ended, NoMemory>
    requires limits { HasLimits task.now }
    ensures ended { IfOk result (IsEnded
        (record { left = S.left source.old; read_faults = S.faults source.old; stock = H.stock shelf.old; shelf_faults = H.faults shelf.old })
        (record { left = S.left source.new; read_faults = S.faults source.new; stock = H.stock shelf.new; shelf_faults = H.faults shelf.new })
        (Some task.now)) }
    ensures given_back { IsAllBack (H.stock shelf.old) (H.stock shelf.new) }
    ensures stopped { IsStopped
        (record { left = S.left source.old; read_faults = S.faults source.old; stock = H.stock shelf.old; shelf_faults = H.faults shelf.old })
        (record { left = S.left source.new; read_faults = S.faults source.new; stock = H.stock shelf.new; shelf_faults = H.faults shelf.new })
        (Some task.now) }
{
    match task {
        Task::Play { pool } => play_script(alloc, pool, source, shelf),
        Task::Create {
            pool,
            devices,
            places,
        } => make_pool(alloc, shelf, pool, *devices, *places),
    }
}

// Writes the text of a run, and gives the status.
fn report<K: Sink>(sink: &mut K, text: &[u8], planned: u8) -> u8
    ensures { IsReported (K.taken sink.old) (K.taken sink.new) (K.faults sink.old) (K.faults sink.new) text.now planned result }
{
    match write_all(sink, text) {
        Ok(()) => planned,
        Err(SinkFault::Failed) => 5,
        Err(SinkFault::NoMemory) => 1,
    }
}

// Writes the text of what a run came to, and gives the status.
fn tell<K: Sink>(alloc: Global, name: &[u8], ended: Ended, sink: &mut K) -> u8
    ensures { (IsReported (K.taken sink.old) (K.taken sink.new) (K.faults sink.old) (K.faults sink.new) (text_of name.now ended) (code_of ended) result)
        ⊎ ((result ≡ 1) × Keeps (K.taken sink.old) (K.taken sink.new)) }
{
    let code = code_of(&ended);
    match text_of(alloc, name, ended) {
        Ok(text) => report(sink, &text, code),
        Err(_) => 1,
    }
}

// Runs a task, and tells what it came to.
#[tactic(auto, using(crate::proofs::RunLaws::told_or_stopped))]
fn run_and_tell<S: Source, K: Sink, H: Shelf>(
    alloc: Global,
    task: &Task,
    source: &mut S,
    sink: &mut K,
    shelf: &mut H,
) -> u8
    requires limits { HasLimits task.now }
    ensures run { IsRunOf (Some task.now)
        (record { left = S.left source.old; read_faults = S.faults source.old; stock = H.stock shelf.old; shelf_faults = H.faults shelf.old })
        (record { left = S.left source.new; read_faults = S.faults source.new; stock = H.stock shelf.new; shelf_faults = H.faults shelf.new })
        (K.taken sink.old) (K.taken sink.new) (K.faults sink.old) (K.faults sink.new) result }
    ensures given_back { IsAllBack (H.stock shelf.old) (H.stock shelf.new) }
{
    match run_task(alloc, task, source, shelf) {
        Ok(ended) => tell(alloc, pool_of(task).bytes(), ended, sink),
        Err(_) => 1,
    }
}

/// Runs the program: does what the words ask, and writes the text of that to a sink. The status says how it ended.
///
/// `play POOL` plays the script of the source on the pool. `create POOL DEVICES PLACES` makes an empty pool, and reads no source.
///
/// | Status | Comes |
/// |---|---|
/// | 0 | the script was played and its last commit done, or the pool was made, and the disk set was taken back |
/// | 1 | want of memory |
/// | 2 | exactly where the words are none of these |
/// | 3 | exactly where the script has a bad line |
/// | 4 | only where the source's count of faults rose |
/// | 5 | only where the sink's count of faults rose |
/// | 6 | only where the shelf's count of faults rose |
/// | 7 | exactly where the disk set holds no pool |
/// | 8 | exactly where the pool is damaged |
/// | 9 | exactly where a pool is to be made and the disk set holds one |
/// | 10 | exactly where byte 67,108,865 was read |
/// | 11 | exactly where a script is to be played and the name isn't there |
/// | 12 | exactly where a pool is to be made, and the disk set has another size and holds none |
#[tactic(auto, using(crate::proofs::RunLaws::orderly_run, crate::proofs::RunLaws::nothing_done))]
pub fn play<S: Source, K: Sink, H: Shelf>(
    alloc: Global,
    words: &[String],
    source: &mut S,
    sink: &mut K,
    shelf: &mut H,
) -> Status
    ensures run { IsRun (map string_bytes words.now)
        (record { left = S.left source.old; read_faults = S.faults source.old; stock = H.stock shelf.old; shelf_faults = H.faults shelf.old })
        (record { left = S.left source.new; read_faults = S.faults source.new; stock = H.stock shelf.new; shelf_faults = H.faults shelf.new })
        (K.taken sink.old) (K.taken sink.new) (K.faults sink.old) (K.faults sink.new) result.code }

    // Every disk set that was taken or made was handed back, whatever the status.
    ensures given_back { IsAllBack (H.stock shelf.old) (H.stock shelf.new) }

    // Where all is in order and nothing fails, the script is played, unless memory is wanting.
    ensures complete { IsComplete (map string_bytes words.now)
        (record { left = S.left source.old; read_faults = S.faults source.old; stock = H.stock shelf.old; shelf_faults = H.faults shelf.old })
        (record { left = S.left source.new; read_faults = S.faults source.new; stock = H.stock shelf.new; shelf_faults = H.faults shelf.new })
        (K.faults sink.old) (K.faults sink.new) result.code }
{
    match task_of(alloc, words) {
        Ok(Some(task)) => Status {
            code: run_and_tell(alloc, &task, source, sink, shelf),
        },
        Ok(None) => Status {
            code: tell(alloc, b"", Ended::Usage, sink),
        },
        Err(_) => Status { code: 1 },
    }
}
