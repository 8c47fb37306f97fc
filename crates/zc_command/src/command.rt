ghost use Rattle.std.specs.Prelude.{◌≡◌};
ghost use Rattle.zc_command.specs.Names.{long_length, first_long};

use crate::name::MOST_NAME;
use std::fmt;
use zc_num::{Bytes, Name};

/// What a pool is asked. An offset, a length and a size count bytes.
#[derive(Clone, PartialEq, Eq, Debug, Drop)]
pub enum Command {
    /// A new dataset without files.
    Mkds {
        dataset: Name,
    },
    /// The dataset and its files go.
    Rmds {
        dataset: Name,
    },
    /// The dataset's log is replayed, and the dataset takes commands again.
    Mount {
        dataset: Name,
    },
    /// A new file without bytes.
    Create {
        dataset: Name,
        file: Name,
    },
    /// The file goes.
    Remove {
        dataset: Name,
        file: Name,
    },
    /// The bytes are to stand in the file from the offset on.
    Write {
        dataset: Name,
        file: Name,
        offset: u64,
        bytes: Bytes,
    },
    /// The byte is to stand in the file from the offset on, so many times.
    Fill {
        dataset: Name,
        file: Name,
        offset: u64,
        length: u64,
        byte: u8,
    },
    /// The file is to have this size. What is cut off is gone, and what is added is 0.
    Truncate {
        dataset: Name,
        file: Name,
        size: u64,
    },
    /// The file's bytes from the offset on, at most so many.
    Read {
        dataset: Name,
        file: Name,
        offset: u64,
        length: u64,
    },
    /// The file's size, and how many of its blocks are no holes.
    Stat {
        dataset: Name,
        file: Name,
    },
    /// All that was done is to be made durable.
    Commit,
}

// The length of a name that is too long.
fn long_length(name: &Name) -> Option<u64>
    ensures { result ≡ long_length name.now }
{
    if name.len() > MOST_NAME {
        Some(name.len() as u64)
    } else {
        None
    }
}

impl Command {
    /// The length in bytes of the first name that has more than 64, in the order of the fields. The refusal
    /// ENAMETOOLONG comes exactly where there is one.
    pub fn long_name(&self) -> Option<u64>
        ensures { result ≡ first_long self.now }
    {
        match self {
            Command::Mkds { dataset } | Command::Rmds { dataset } | Command::Mount { dataset } => {
                long_length(dataset)
            }
            Command::Create { dataset, file }
            | Command::Remove { dataset, file }
            | Command::Write { dataset, file, .. }
            | Command::Fill { dataset, file, .. }
            | Command::Truncate { dataset, file, .. }
            | Command::Read { dataset, file, .. }
            | Command::Stat { dataset, file } => long_length(dataset).or(long_length(file)),
            Command::Commit => None,
        }
    }
}
