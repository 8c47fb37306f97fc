use std::fmt;
use zc_command::{Command, Reply};

/// What happens to a pool. A history is a list of entries, which are counted from 1.
#[derive(Clone, PartialEq, Eq, Debug, Drop)]
pub enum Entry {
    /// A session asks the pool a command.
    Ask { session: u32, command: Command },
    /// A session's command is answered.
    Answer { session: u32, reply: Reply },
    /// The open group is sealed, and has this number.
    Seal { group: u64 },
    /// The group with this number is written. So many blocks, each once, stood in the pool as it was sealed.
    Finish { group: u64, held: u64 },
}
