ghost use Rattle.std.specs.Prelude.{◌≡◌, ◌++◌, OnOk};
ghost use Rattle.zc_command.specs.Texts.{refusal_number, part_text, why_text, bad_text, what_text, excess_text, refusal_text};

use crate::text::{push_call, push_number};
use std::alloc::Global;
use std::fmt;
use zc_num::NoMemory;

/// The part of a path that isn't there.
#[derive(Clone, Copy, PartialEq, Eq, Debug)]
pub enum Part {
    Dataset,
    File,
}

/// Why a dataset can't be had as it is.
#[derive(Clone, Copy, PartialEq, Eq, Debug)]
pub enum Why {
    /// It is mounted.
    Mounted,
    /// It isn't mounted.
    Unmounted,
}

/// Which number of a command is outside its range.
#[derive(Clone, Copy, PartialEq, Eq, Debug)]
pub enum Bad {
    /// The length.
    Length,
}

/// What there is no room for.
#[derive(Clone, Copy, PartialEq, Eq, Debug)]
pub enum What {
    /// Datasets of the pool.
    Datasets,
    /// Files of the dataset.
    Files,
    /// Pointers of the dataset to blocks.
    Pointers,
    /// Places of the pool for data.
    Charge,
}

/// Why a command was refused. Nothing was changed.
#[derive(Clone, Copy, PartialEq, Eq, Debug)]
pub enum Refusal {
    /// No dataset, or no file of the dataset, has the name.
    Enoent { part: Part },
    /// The device call with this number failed. The first write or sync has the number 1.
    Eio { call: u128 },
    /// The dataset isn't mounted.
    Enxio,
    /// The dataset can't be had so, for this reason.
    Ebusy { why: Why },
    /// What was to be made is already there.
    Eexist,
    /// A number of the command is outside its range.
    Einval { bad: Bad },
    /// The file would end at this byte, where at most `most` bytes may be.
    Efbig { end: u64, most: u64 },
    /// There would be `need` of them, where at most `most` may be.
    Enospc { what: What, need: u64, most: u64 },
    /// A name has this many bytes, more than 64.
    Enametoolong { length: u64 },
}

// Adds the word for the part.
fn push_part(out: &mut Vec<u8>, part: Part) -> Result<(), NoMemory>
    ensures { OnOk result (out.new.items ≡ out.old.items ++ part_text part) }
{
    match part {
        Part::Dataset => out.extend_from_slice(b"dataset"),
        Part::File => out.extend_from_slice(b"file"),
    }
}

// Adds the word for why a dataset can't be had.
fn push_why(out: &mut Vec<u8>, why: Why) -> Result<(), NoMemory>
    ensures { OnOk result (out.new.items ≡ out.old.items ++ why_text why) }
{
    match why {
        Why::Mounted => out.extend_from_slice(b"mounted"),
        Why::Unmounted => out.extend_from_slice(b"unmounted"),
    }
}

// Adds the word for a number outside its range.
fn push_bad(out: &mut Vec<u8>, bad: Bad) -> Result<(), NoMemory>
    ensures { OnOk result (out.new.items ≡ out.old.items ++ bad_text bad) }
{
    match bad {
        Bad::Length => out.extend_from_slice(b"length"),
    }
}

// Adds the word for what there is no room for.
fn push_what(out: &mut Vec<u8>, what: What) -> Result<(), NoMemory>
    ensures { OnOk result (out.new.items ≡ out.old.items ++ what_text what) }
{
    match what {
        What::Datasets => out.extend_from_slice(b"datasets"),
        What::Files => out.extend_from_slice(b"files"),
        What::Pointers => out.extend_from_slice(b"pointers"),
        What::Charge => out.extend_from_slice(b"charge"),
    }
}

// Adds a number and the limit that it exceeds.
fn push_excess(alloc: Global, out: &mut Vec<u8>, number: u64, most: u64) -> Result<(), NoMemory>
    ensures { OnOk result (out.new.items ≡ out.old.items ++ excess_text number most) }
{
    push_number(alloc, out, number)?;
    out.extend_from_slice(b" of ")?;
    push_number(alloc, out, most)
}

impl Refusal {
    /// The number of the system's error of this name: ENOENT 2, EIO 5, ENXIO 6, EBUSY 16, EEXIST 17, EINVAL 22, EFBIG 27,
    /// ENOSPC 28, ENAMETOOLONG 36.
    pub fn number(&self) -> u32
        ensures { result ≡ refusal_number self.now }
    {
        match self {
            Refusal::Enoent { .. } => 2,
            Refusal::Eio { .. } => 5,
            Refusal::Enxio => 6,
            Refusal::Ebusy { .. } => 16,
            Refusal::Eexist => 17,
            Refusal::Einval { .. } => 22,
            Refusal::Efbig { .. } => 27,
            Refusal::Enospc { .. } => 28,
            Refusal::Enametoolong { .. } => 36,
        }
    }

    /// Adds the refusal's text, without the end of a line.
    ///
    /// # Errors
    /// Want of memory.
    pub fn push_text(&self, alloc: Global, out: &mut Vec<u8>) -> Result<(), NoMemory>
        ensures { OnOk result (out.new.items ≡ out.old.items ++ refusal_text self.now) }
    {
        match self {
            Refusal::Enoent { part } => {
                out.extend_from_slice(b"ENOENT ")?;
                push_part(out, *part)
            }
            Refusal::Eio { call } => {
                out.extend_from_slice(b"EIO call ")?;
                push_call(alloc, out, *call)
            }
            Refusal::Enxio => out.extend_from_slice(b"ENXIO unmounted"),
            Refusal::Ebusy { why } => {
                out.extend_from_slice(b"EBUSY ")?;
                push_why(out, *why)
            }
            Refusal::Eexist => out.extend_from_slice(b"EEXIST"),
            Refusal::Einval { bad } => {
                out.extend_from_slice(b"EINVAL ")?;
                push_bad(out, *bad)
            }
            Refusal::Efbig { end, most } => {
                out.extend_from_slice(b"EFBIG ")?;
                push_excess(alloc, out, *end, *most)
            }
            Refusal::Enospc { what, need, most } => {
                out.extend_from_slice(b"ENOSPC ")?;
                push_what(out, *what)?;
                out.extend_from_slice(b" ")?;
                push_excess(alloc, out, *need, *most)
            }
            Refusal::Enametoolong { length } => {
                out.extend_from_slice(b"ENAMETOOLONG ")?;
                push_excess(alloc, out, *length, 64)
            }
        }
    }
}
