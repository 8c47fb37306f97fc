ghost use Rattle.std.specs.Prelude.{◌≡◌, ◌++◌, OnOk};
ghost use Rattle.zc_command.specs.Texts.{reply_text, size_text};

use crate::refusal::Refusal;
use crate::text::{push_bytes, push_number};
use std::alloc::Global;
use std::fmt;
use zc_num::{Bytes, NoMemory};

/// What answers a command.
#[derive(Clone, PartialEq, Eq, Debug, Drop)]
pub enum Reply {
    /// It was done.
    Done,
    /// So many bytes were written.
    Count { bytes: u64 },
    /// These bytes were read.
    Data { bytes: Bytes },
    /// The file has so many bytes, and so many blocks that are no holes.
    Size { size: u64, blocks: u64 },
    /// It was refused.
    No { refusal: Refusal },
}

// Adds the size of a file, and its number of blocks.
fn push_size(alloc: Global, out: &mut Vec<u8>, size: u64, blocks: u64) -> Result<(), NoMemory>
    ensures { OnOk result (out.new.items ≡ out.old.items ++ size_text size blocks) }
{
    out.extend_from_slice(b"size ")?;
    push_number(alloc, out, size)?;
    out.extend_from_slice(b" blocks ")?;
    push_number(alloc, out, blocks)
}

impl Reply {
    /// Adds the reply's text, without the end of a line.
    ///
    /// # Errors
    /// Want of memory.
    pub fn push_text(&self, alloc: Global, out: &mut Vec<u8>) -> Result<(), NoMemory>
        ensures { OnOk result (out.new.items ≡ out.old.items ++ reply_text self.now) }
    {
        match self {
            Reply::Done => out.extend_from_slice(b"ok"),
            Reply::Count { bytes } => {
                out.extend_from_slice(b"ok ")?;
                push_number(alloc, out, *bytes)
            }
            Reply::Data { bytes } => {
                out.extend_from_slice(b"data ")?;
                push_bytes(alloc, out, bytes.bytes())
            }
            Reply::Size { size, blocks } => push_size(alloc, out, *size, *blocks),
            Reply::No { refusal } => refusal.push_text(alloc, out),
        }
    }
}
