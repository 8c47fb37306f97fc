// A reply that is given out and kept too.
ghost use Rattle.std.specs.Prelude.{◌≡◌, ◌-◌, ◌^◌, ◌<◌, ◌≤◌, Ok, true, IfOk, OnErr};
ghost use Rattle.zc_command.specs.Names.{AreConditions};
ghost use Rattle.zc_plain.specs.IsPlain.{AreNextUpTo};
ghost use Rattle.zc_heart.specs.Core.{pool_of};
ghost use Rattle.zc_heart.specs.Meaning.{Stays, Replies, Commands, is_data};

use zc_command::{Command, Reply};
use zc_heart::Heart;
use zc_num::NoMemory;

// A copy of the reply. Only one with bytes needs memory.
fn copy_of(reply: &Reply) -> Result<Reply, NoMemory>
    ensures ok { IfOk result (λ copy. copy ≡ reply.now) }
    ensures err { OnErr result (is_data reply.now ≡ true) }
{
    match reply {
        Reply::Done => Ok(Reply::Done),
        Reply::Count { bytes } => Ok(Reply::Count { bytes: *bytes }),
        Reply::Data { bytes } => {
            let bytes = bytes.clone()?;
            Ok(Reply::Data { bytes })
        }
        Reply::Size { size, blocks } => Ok(Reply::Size {
            size: *size,
            blocks: *blocks,
        }),
        Reply::No { refusal } => Ok(Reply::No { refusal: *refusal }),
    }
}

/// What the command answers, which is the entry with the number in the pool's history, and a copy of it.
///
/// # Errors
/// Want of memory; nothing has changed.
pub fn answer_twice(
    heart: &mut Heart,
    number: u64,
    command: &Command,
) -> Result<(Reply, Reply), NoMemory>
    requires conditions { AreConditions command.now }
    requires number { heart.old.last < number }
    requires numbers { AreNextUpTo (2 ^ 64 - 2) (pool_of heart.old) }
    ensures copy { IfOk result (λ both. both.1 ≡ both.0) }
    ensures replies { IfOk result (λ both. Replies number command.now heart.old heart.new (Ok both.0)) }
    ensures kept { IfOk result (λ _. Commands heart.old heart.new) }
    ensures last { IfOk result (λ _. heart.new.last ≤ number) }
    ensures err { OnErr result (Stays heart.old heart.new) }
{
    let reply = heart.command(number, command)?;
    let copy = copy_of(&reply)?;
    Ok((reply, copy))
}
