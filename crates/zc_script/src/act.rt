use std::fmt;
use zc_command::Command;

/// What a line asks for.
#[derive(Clone, PartialEq, Eq, Debug, Drop)]
pub enum Act {
    /// A command of the pool that has this index among the pools of the run.
    Pool { pool: u32, command: Command },
    /// A command of a pool that isn't among those of the run.
    NoSuchPool,
}

/// What a line says.
#[derive(Clone, PartialEq, Eq, Debug, Drop)]
pub enum Said {
    /// The following lines are those of this session.
    Session { session: u32 },
    /// The act is asked for.
    Does { act: Act },
}

/// A line that asks for an act.
#[derive(Clone, PartialEq, Eq, Debug, Drop)]
pub struct Line {
    /// Counted from 1, ignored lines included.
    pub number: u64,
    /// The session whose line it is.
    pub session: u32,
    pub act: Act,
}
