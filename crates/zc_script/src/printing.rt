// What is written: lines of a script, and replies.
ghost use Rattle.std.specs.Prelude.{◌≡◌, ◌≤◌, ◌++◌, ℕ, Some, List, OnOk, OnErr, IsTrue, codes};
ghost use Rattle.std.specs.Fmt.{decimal};
ghost use Rattle.hex.specs.Hex.{encode_lower};
ghost use Rattle.zc_command.specs.Texts.{reply_text};
ghost use Rattle.zc_script.specs.declared.act.Said.TheVariants.{Session, Does};
ghost use Rattle.zc_script.specs.Pools.{is_pool_name};
ghost use Rattle.zc_script.specs.Forms.{act_in, said_of};
ghost use Rattle.zc_script.specs.Spelling.{HasLine, dataset_text, file_text, command_line, session_line, no_pool_text};

use std::alloc::Global;
use zc_command::{Command, Reply};
use zc_num::{Name, NoMemory};

// Adds a number in decimal digits.
fn push_number(alloc: Global, out: &mut Vec<u8>, number: u64) -> Result<(), NoMemory>
    ensures { OnOk result (out.new.items ≡ out.old.items ++ decimal number) }
{
    let digits = number.to_string(alloc)?;
    out.extend_from_slice(digits.as_bytes())
}

// Adds bytes in lower-case hexadecimal digits.
fn push_digits(alloc: Global, out: &mut Vec<u8>, bytes: &[u8]) -> Result<(), NoMemory>
    ensures { OnOk result (out.new.items ≡ out.old.items ++ encode_lower bytes.now) }
{
    let digits = hex::encode(alloc, bytes)?;
    out.extend_from_slice(digits.as_bytes())
}

// Adds the path of a dataset.
fn push_dataset(out: &mut Vec<u8>, pool: &Name, dataset: &Name) -> Result<(), NoMemory>
    ensures { OnOk result (out.new.items ≡ out.old.items ++ dataset_text pool.now dataset.now) }
{
    out.extend_from_slice(pool.bytes())?;
    out.extend_from_slice(b"/")?;
    out.extend_from_slice(dataset.bytes())
}

// Adds the path of a file.
fn push_file(out: &mut Vec<u8>, pool: &Name, dataset: &Name, file: &Name) -> Result<(), NoMemory>
    ensures { OnOk result (out.new.items ≡ out.old.items ++ file_text pool.now dataset.now file.now) }
{
    out.extend_from_slice(pool.bytes())?;
    out.extend_from_slice(b"/")?;
    out.extend_from_slice(dataset.bytes())?;
    out.extend_from_slice(b"/")?;
    out.extend_from_slice(file.bytes())
}

// Adds a blank and a number.
fn push_count(alloc: Global, out: &mut Vec<u8>, number: u64) -> Result<(), NoMemory>
    ensures { OnOk result (out.new.items ≡ out.old.items ++ (codes " " ++ decimal number)) }
{
    out.extend_from_slice(b" ")?;
    push_number(alloc, out, number)
}

// Adds a pool's command.
fn push_command(
    alloc: Global,
    out: &mut Vec<u8>,
    pool: &Name,
    command: &Command,
) -> Result<(), NoMemory>
    ensures { OnOk result (out.new.items ≡ out.old.items ++ command_line pool.now command.now) }
{
    match command {
        Command::Mkds { dataset } => {
            out.extend_from_slice(b"mkds ")?;
            push_dataset(out, pool, dataset)
        }
        Command::Rmds { dataset } => {
            out.extend_from_slice(b"rmds ")?;
            push_dataset(out, pool, dataset)
        }
        Command::Mount { dataset } => {
            out.extend_from_slice(b"mount ")?;
            push_dataset(out, pool, dataset)
        }
        Command::Create { dataset, file } => {
            out.extend_from_slice(b"create ")?;
            push_file(out, pool, dataset, file)
        }
        Command::Remove { dataset, file } => {
            out.extend_from_slice(b"remove ")?;
            push_file(out, pool, dataset, file)
        }
        Command::Write {
            dataset,
            file,
            offset,
            bytes,
        } => {
            out.extend_from_slice(b"write ")?;
            push_file(out, pool, dataset, file)?;
            push_count(alloc, out, *offset)?;
            out.extend_from_slice(b" ")?;
            push_digits(alloc, out, bytes.bytes())
        }
        Command::Fill {
            dataset,
            file,
            offset,
            length,
            byte,
        } => {
            out.extend_from_slice(b"fill ")?;
            push_file(out, pool, dataset, file)?;
            push_count(alloc, out, *offset)?;
            push_count(alloc, out, *length)?;
            push_count(alloc, out, u64::from(*byte))
        }
        Command::Truncate {
            dataset,
            file,
            size,
        } => {
            out.extend_from_slice(b"truncate ")?;
            push_file(out, pool, dataset, file)?;
            push_count(alloc, out, *size)
        }
        Command::Read {
            dataset,
            file,
            offset,
            length,
        } => {
            out.extend_from_slice(b"read ")?;
            push_file(out, pool, dataset, file)?;
            push_count(alloc, out, *offset)?;
            push_count(alloc, out, *length)
        }
        Command::Stat { dataset, file } => {
            out.extend_from_slice(b"stat ")?;
            push_file(out, pool, dataset, file)
        }
        Command::Commit => {
            out.extend_from_slice(b"commit ")?;
            out.extend_from_slice(pool.bytes())
        }
    }
}

/// Adds the line of a pool's command and its end. Where the command has a line, it is read back as that command.
///
/// # Errors
/// Want of memory; `out` is then as it was.
pub fn print_line(
    alloc: Global,
    pool: &Name,
    command: &Command,
    out: &mut Vec<u8>,
) -> Result<(), NoMemory>
    ensures ok { OnOk result (out.new.items ≡ out.old.items ++ (command_line pool.now command.now ++ codes "\n")) }
    ensures read_back { (pools : List (List ℕ)) → IsTrue (is_pool_name pool.now) → HasLine command.now → said_of pools (command_line pool.now command.now) ≡ Some (Does (act_in pools pool.now command.now)) }
    ensures err { OnErr result (out.new.items ≡ out.old.items) }
{
    let mut text = Vec::new(alloc);
    push_command(alloc, &mut text, pool, command)?;
    text.push(b'\n')?;
    out.extend_from_slice(text.as_slice())
}

/// Adds the line that puts the following ones into this session, and its end. Where there is the session, the line is read
/// back as that.
///
/// # Errors
/// Want of memory; `out` is then as it was.
pub fn print_session(alloc: Global, session: u32, out: &mut Vec<u8>) -> Result<(), NoMemory>
    ensures ok { OnOk result (out.new.items ≡ out.old.items ++ (session_line session ++ codes "\n")) }
    ensures read_back { (pools : List (List ℕ)) → session ≤ 15 → said_of pools (session_line session) ≡ Some (Session session) }
    ensures err { OnErr result (out.new.items ≡ out.old.items) }
{
    let mut text = Vec::new(alloc);
    text.extend_from_slice(b"session ")?;
    push_number(alloc, &mut text, u64::from(session))?;
    text.push(b'\n')?;
    out.extend_from_slice(text.as_slice())
}

/// Adds the answer to a line whose pool isn't there, and the end of its line.
///
/// # Errors
/// Want of memory; `out` is then as it was.
pub fn print_no_pool(out: &mut Vec<u8>) -> Result<(), NoMemory>
    ensures ok { OnOk result (out.new.items ≡ out.old.items ++ (no_pool_text ++ codes "\n")) }
    ensures err { OnErr result (out.new.items ≡ out.old.items) }
{
    out.extend_from_slice(b"ENXIO pool\n")
}

/// Adds the reply's text and the end of its line.
///
/// # Errors
/// Want of memory; `out` is then as it was.
pub fn print_reply(alloc: Global, reply: &Reply, out: &mut Vec<u8>) -> Result<(), NoMemory>
    ensures ok { OnOk result (out.new.items ≡ out.old.items ++ (reply_text reply.now ++ codes "\n")) }
    ensures err { OnErr result (out.new.items ≡ out.old.items) }
{
    let mut text = Vec::new(alloc);
    reply.push_text(alloc, &mut text)?;
    text.push(b'\n')?;
    out.extend_from_slice(text.as_slice())
}
