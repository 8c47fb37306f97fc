// A disk set in memory, which tells its tape and fails at the calls that it is told to fail at.
ghost use Rattle.std.specs.Prelude.{◌≡◌, ◌*◌, true, length, map};
ghost use Rattle.std.specs.List.{list_all};
ghost use Rattle.zc_tape.specs.Blocks.{image, made_of, is_there};
ghost use Rattle.zc_tape.specs.Crash.{held};

mod count;
mod disk_set;
mod leave;
mod make;

use crate::entry::Entry;

/// A disk set in memory. It tells its tape, and fails exactly at the calls whose numbers it was given.
#[derive(Drop)]
pub struct MemoryDisks {
    devices: u32,
    places: u32,
    /// The blocks as they were at the start.
    start: Vec<[u8; 4096]>,
    /// The blocks as the Ok writes left them.
    current: Vec<[u8; 4096]>,
    /// The writes and syncs so far.
    entries: Vec<Entry>,
    /// The numbers of the calls that fail, counted from 1.
    failing: Vec<u64>,
    /// The reads, writes and syncs so far.
    asked: u64,
    faults: u64,
    ghost whole_start: { length start.items ≡ devices * places },
    ghost whole_current: { length current.items ≡ devices * places },
    ghost there: { list_all (is_there devices places) entries.items ≡ true },
    ghost left: { image places current.items ≡ (held (image places start.items) (map made_of entries.items)).now },
}
