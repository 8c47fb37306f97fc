// Commands in short.
ghost use Rattle.std.specs.Prelude.{IsTrue};
ghost use Rattle.zc_command.specs.Names.{HasNameBytes, AreConditions};

use std::alloc::Global;
use zc_command::{Command, has_name_bytes};
use zc_num::{Bytes, Name, NoMemory};

/// A command in short.
#[derive(Clone, Copy)]
pub enum Step<'a> {
    Mkds(&'a [u8]),
    Rmds(&'a [u8]),
    Create(&'a [u8], &'a [u8]),
    Remove(&'a [u8], &'a [u8]),
    Write(&'a [u8], &'a [u8], u64, &'a [u8]),
    Fill(&'a [u8], &'a [u8], u64, u64, u8),
    Truncate(&'a [u8], &'a [u8], u64),
    Read(&'a [u8], &'a [u8], u64, u64),
    Stat(&'a [u8], &'a [u8]),
    Commit,
}

/// The command.
pub fn command_of(alloc: Global, step: Step) -> Result<Command, NoMemory> {
    Ok(match step {
        Step::Mkds(dataset) => Command::Mkds {
            dataset: Name::of(alloc, dataset)?,
        },
        Step::Rmds(dataset) => Command::Rmds {
            dataset: Name::of(alloc, dataset)?,
        },
        Step::Create(dataset, file) => Command::Create {
            dataset: Name::of(alloc, dataset)?,
            file: Name::of(alloc, file)?,
        },
        Step::Remove(dataset, file) => Command::Remove {
            dataset: Name::of(alloc, dataset)?,
            file: Name::of(alloc, file)?,
        },
        Step::Write(dataset, file, offset, bytes) => Command::Write {
            dataset: Name::of(alloc, dataset)?,
            file: Name::of(alloc, file)?,
            offset,
            bytes: Bytes::of(alloc, bytes)?,
        },
        Step::Fill(dataset, file, offset, length, byte) => Command::Fill {
            dataset: Name::of(alloc, dataset)?,
            file: Name::of(alloc, file)?,
            offset,
            length,
            byte,
        },
        Step::Truncate(dataset, file, size) => Command::Truncate {
            dataset: Name::of(alloc, dataset)?,
            file: Name::of(alloc, file)?,
            size,
        },
        Step::Read(dataset, file, offset, length) => Command::Read {
            dataset: Name::of(alloc, dataset)?,
            file: Name::of(alloc, file)?,
            offset,
            length,
        },
        Step::Stat(dataset, file) => Command::Stat {
            dataset: Name::of(alloc, dataset)?,
            file: Name::of(alloc, file)?,
        },
        Step::Commit => Command::Commit,
    })
}

fn is_named(name: &Name) -> bool
    ensures { IsTrue result → HasNameBytes name.now }
{
    has_name_bytes(name.bytes())
}

/// Whether the command meets its conditions.
pub fn meets(command: &Command) -> bool
    ensures { IsTrue result → AreConditions command.now }
{
    match command {
        Command::Mkds { dataset } | Command::Rmds { dataset } | Command::Mount { dataset } => {
            is_named(dataset)
        }
        Command::Create { dataset, file }
        | Command::Remove { dataset, file }
        | Command::Stat { dataset, file } => is_named(dataset) && is_named(file),
        Command::Fill {
            dataset,
            file,
            offset,
            length,
            ..
        } => is_named(dataset) && is_named(file) && *offset <= 1 << 62 && *length <= 1 << 62,
        Command::Truncate {
            dataset,
            file,
            size,
        } => is_named(dataset) && is_named(file) && *size <= 1 << 62,
        Command::Write {
            dataset,
            file,
            offset,
            ..
        } => is_named(dataset) && is_named(file) && *offset <= 1 << 62,
        Command::Read {
            dataset,
            file,
            offset,
            length,
        } => is_named(dataset) && is_named(file) && *offset <= 1 << 62 && *length <= 1 << 62,
        Command::Commit => true,
    }
}
