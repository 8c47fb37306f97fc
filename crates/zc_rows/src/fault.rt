// Why a line is bad.
use std::alloc::AllocFailed;
use std::fmt;
use zc_num::NoMemory;

/// What a bad line lacks.
#[derive(Clone, Copy, Debug, PartialEq, Eq)]
pub enum Reason {
    /// It stands before the first row.
    NoRow,
    /// Its words are those of no line.
    Words,
    /// It belongs to a run, and none was begun, or that run is past it.
    NoRun,
    /// The run before it has no status.
    NoStatus,
}

impl fmt::Display for Reason {
    fn fmt<W: fmt::Write>(&self, f: &mut fmt::Formatter<W>) -> fmt::Result {
        match self {
            Reason::NoRow => f.write_str("no row was begun"),
            Reason::Words => f.write_str("no line has these words"),
            Reason::NoRun => f.write_str("no run is open for it"),
            Reason::NoStatus => f.write_str("the run before it has no status"),
        }
    }
}

/// Why no rows were read.
#[derive(Clone, Copy, Debug, PartialEq, Eq)]
pub enum Fault {
    NoMemory,
    /// The number of the bad line, and the reason.
    Bad { line: u64, reason: Reason },
}

impl From<NoMemory> for Fault {
    fn from(_: NoMemory) -> Fault {
        Fault::NoMemory
    }
}

impl<T: Drop> From<AllocFailed<T>> for Fault {
    fn from(_: AllocFailed<T>) -> Fault {
        Fault::NoMemory
    }
}
