// The shelf of a row between its steps.
ghost use Rattle.std.specs.Prelude.{IfOk, OnOk};
ghost use Rattle.zc_rows.specs.Shelves.{IsAllIn, IsUnused};

use crate::asking::View;
use crate::row::{Next, Outcome, Run};
use crate::sets::{copied, lay, take_out, with_failing};
use std::alloc::Global;
use std::mem;
use zc_io::{MemoryShelf, MemorySink, MemorySource};
use zc_num::{Name, NoMemory};
use zc_prog::play;
use zc_script::is_pool_name;
use zc_tape::{Keep, MemoryDisks};

// How many bytes a read or a write moves, unless a row says less.
const MOST: usize = 65_536;

// A name under which a set may lie.
#[derive(Drop)]
struct Known {
    name: Name,
    // The writes and syncs on its set in the last run.
    calls: u64,
}

// Calls of a set that fail in the next run.
#[derive(Drop)]
struct SetFails {
    name: Name,
    calls: Vec<u64>,
}

// What holds for the next run alone.
#[derive(Drop)]
struct Knobs {
    shelf_fails: Vec<u64>,
    set_fails: Vec<SetFails>,
    source_fails: Vec<u64>,
    sink_fails: Vec<u64>,
    source_most: usize,
    sink_most: usize,
}

impl Knobs {
    fn new(alloc: Global) -> Knobs {
        Knobs {
            shelf_fails: Vec::new(alloc),
            set_fails: Vec::new(alloc),
            source_fails: Vec::new(alloc),
            sink_fails: Vec::new(alloc),
            source_most: MOST,
            sink_most: MOST,
        }
    }
}

/// The sets of a row, and what holds for its next run.
#[derive(Drop)]
pub struct Stage {
    alloc: Global,
    shelf: MemoryShelf,
    // How many calls of the shelf may still fail.
    failing: usize,
    known: Vec<Known>,
    // Whether calls of a set were to fail in the last run, so that its tape may have failed writes.
    torn: bool,
    next: Knobs,
    view: Option<View>,
}

// The set with its bytes as they read, of whose calls those fail that the last entry for its name lists.
fn prepared(
    alloc: Global,
    name: &Name,
    set: MemoryDisks,
    fails: &[SetFails],
) -> Result<MemoryDisks, NoMemory>
    ensures unused { IfOk result (λ set. IsUnused set) }
{
    match fails.iter().rev().find(|one| one.name == *name) {
        Some(one) => with_failing(alloc, set, &one.calls),
        None => Ok(set.fresh()),
    }
}

// Moves the sets of these names to another shelf, and makes calls of theirs fail.
fn move_sets(
    alloc: Global,
    from: &mut MemoryShelf,
    failing: usize,
    to: &mut MemoryShelf,
    known: &[Known],
    fails: &[SetFails],
) -> Result<(), NoMemory>
    requires all_in { IsAllIn to.old }
    ensures all_in { IsAllIn to.new }
{
    for one in known {
        if let Some(set) = take_out(from, &one.name, failing) {
            lay(to, &one.name, prepared(alloc, &one.name, set, fails)?)?;
        }
    }
    Ok(())
}

// A copy of a list of numbers.
fn numbers(alloc: Global, from: &[u64]) -> Result<Vec<u64>, NoMemory> {
    Vec::from_slice(alloc, from)
}

impl Stage {
    /// An empty shelf.
    pub fn new(alloc: Global) -> Result<Stage, NoMemory> {
        Ok(Stage {
            alloc,
            shelf: MemoryShelf::new(alloc, &[])?,
            failing: 0,
            known: Vec::new(alloc),
            torn: false,
            next: Knobs::new(alloc),
            view: None,
        })
    }

    // Moves all sets to a new shelf. No set has a tape then, and calls of the shelf and of sets fail as they are listed.
    fn renew(&mut self, shelf_fails: &[u64], set_fails: &[SetFails]) -> Result<(), NoMemory>
        ensures all_in { OnOk result (IsAllIn self.new.shelf) }
    {
        let mut shelf = MemoryShelf::new(self.alloc, shelf_fails)?;
        move_sets(
            self.alloc,
            &mut self.shelf,
            self.failing,
            &mut shelf,
            &self.known,
            set_fails,
        )?;
        self.shelf = shelf;
        self.failing = shelf_fails.len();
        self.torn = !set_fails.is_empty();
        self.view = None;
        Ok(())
    }

    /// Notes a name.
    fn note(&mut self, name: &Name) -> Result<(), NoMemory> {
        if !self.known.iter().any(|one| one.name == *name) {
            self.known.push(Known {
                name: name.clone()?,
                calls: 0,
            })?;
        }
        Ok(())
    }

    /// Whether a set lies under the name.
    pub fn has(&self, name: &Name) -> bool {
        self.shelf.disk(name).is_some()
    }

    /// Takes a set from the shelf; it has no tape.
    pub fn lift(&mut self, name: &Name) -> Option<MemoryDisks> {
        self.view = None;
        take_out(&mut self.shelf, name, self.failing)
    }

    /// Lays a set, with its bytes as they read, under a name where none lies.
    pub fn lay(&mut self, name: &Name, set: MemoryDisks) -> Result<(), NoMemory> {
        self.note(name)?;
        self.renew(&[], &[])?;
        lay(&mut self.shelf, name, set.fresh())
    }

    /// What a crash leaves of a set, in a moment of its last run; none where there is no such set or moment.
    pub fn crashed(
        &self,
        name: &Name,
        moment: u64,
        choice: &[Keep],
    ) -> Result<Option<MemoryDisks>, NoMemory> {
        match self.shelf.disk(name) {
            Some(set) if moment <= set.calls() => Ok(Some(set.leave(moment, choice)?)),
            _ => Ok(None),
        }
    }

    /// How many writes and syncs were made on a set in the last run.
    pub fn calls(&self, name: &Name) -> u64 {
        match self.known.iter().find(|one| one.name == *name) {
            Some(one) => one.calls,
            None => 0,
        }
    }

    /// A copy of a set as it reads.
    pub fn copy(&mut self, name: &Name) -> Result<Option<MemoryDisks>, NoMemory> {
        if self.torn {
            self.renew(&[], &[])?;
        }
        match self.shelf.disk(name) {
            Some(set) => Ok(Some(copied(self.alloc, set)?)),
            None => Ok(None),
        }
    }

    /// What was read of a set since its last change, or is read now.
    pub fn take_view(&mut self, name: &Name) -> Result<Option<View>, NoMemory> {
        match self.view.take() {
            Some(view) if view.pool == *name => Ok(Some(view)),
            _ => match self.copy(name)? {
                Some(set) => Ok(Some(View::new(self.alloc, name, set)?)),
                None => Ok(None),
            },
        }
    }

    /// Keeps what was read of a set.
    pub fn keep_view(&mut self, view: View) {
        self.view = Some(view);
    }

    /// Notes what holds for the next run.
    pub fn prepare(&mut self, next: &Next) -> Result<(), NoMemory> {
        match next {
            Next::ShelfFails(calls) => self.next.shelf_fails = numbers(self.alloc, calls)?,
            Next::SourceFails(calls) => self.next.source_fails = numbers(self.alloc, calls)?,
            Next::SinkFails(calls) => self.next.sink_fails = numbers(self.alloc, calls)?,
            Next::SourceMost(most) => self.next.source_most = *most,
            Next::SinkMost(most) => self.next.sink_most = *most,
            Next::SetFails { pool, calls } => {
                let name = pool.clone()?;
                let calls = numbers(self.alloc, calls)?;
                self.next.set_fails.push(SetFails { name, calls })?;
            }
        }
        Ok(())
    }

    // Notes the name of a run's pool, and how many calls were made on each set.
    fn note_run(&mut self, words: &[String]) -> Result<(), NoMemory> {
        if let [_, name, ..] = words
            && is_pool_name(name.as_bytes())
        {
            let name = Name::of(self.alloc, name.as_bytes())?;
            self.note(&name)?;
        }
        for one in self.known.iter_mut() {
            one.calls = match self.shelf.disk(&one.name) {
                Some(set) => set.calls(),
                None => 0,
            };
        }
        Ok(())
    }

    /// Runs the program.
    pub fn run(&mut self, run: &Run) -> Result<Outcome, NoMemory> {
        let alloc = self.alloc;
        let knobs = mem::replace(&mut self.next, Knobs::new(alloc));
        self.renew(&knobs.shelf_fails, &knobs.set_fails)?;
        let mut source = MemorySource::new(
            alloc,
            &run.script,
            knobs.source_most.max(1),
            &knobs.source_fails,
        )?;
        let mut sink = MemorySink::new(alloc, knobs.sink_most.max(1), &knobs.sink_fails)?;
        let status = play(alloc, &run.words, &mut source, &mut sink, &mut self.shelf);
        self.note_run(&run.words)?;
        Ok(Outcome {
            status: status.code,
            text: Vec::from_slice(alloc, sink.bytes())?,
        })
    }
}

/// What an empty script on the pool of a set comes to.
pub fn told_of(alloc: Global, name: &Name, set: MemoryDisks) -> Result<Outcome, NoMemory> {
    let mut stage = Stage::new(alloc)?;
    stage.lay(name, set)?;
    let mut words = Vec::new(alloc);
    words.push(String::from_str(alloc, "play")?)?;
    if let Ok(text) = str::from_utf8(name.bytes()) {
        words.push(String::from_str(alloc, text)?)?;
    }
    stage.run(&Run {
        words,
        script: Vec::new(alloc),
        wanted: Vec::new(alloc),
    })
}
