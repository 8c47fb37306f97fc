// What is done to a pool, and what it answers.
use zc_command::{Command, Reply};

/// One event of a pool.
#[derive(Debug, Drop)]
pub enum Event {
    /// A session asks a command.
    Ask { session: u32, command: Command },
    /// The first sealed group that waits is written.
    Step,
    /// A session that waits asks for its answer.
    Settle { session: u32 },
}

/// What an event came to.
#[derive(Debug, Drop)]
pub enum Progress {
    /// The command is answered.
    Answered { reply: Reply },
    /// The command waits for the disks.
    Waiting,
    /// The session still waits.
    NotYet,
    /// A group was written.
    Stepped,
    /// No group waits.
    Idle,
    /// This call of the disks failed, in this step or before, and no group is written any more.
    Suspended { call: u128 },
}
