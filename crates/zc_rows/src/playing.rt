// A row, step by step.
use crate::changing::{Changed, change_bytes, changed_text};
use crate::row::{Act, Ask, Change, Next, Outcome, Question, Row, Run};
use crate::stage::{Stage, told_of};
use crate::telling::{Difference, bytes_of, number_text, outcome_difference};
use std::alloc::Global;
use zc_num::{Name, NoMemory, PlaceAt};
use zc_tape::{Keep, MemoryDisks};

/// Where a row differs.
#[derive(Drop)]
pub struct Differs {
    pub line: u64,
    pub difference: Difference,
}

// Lays a set of zeros.
fn lay_zeros(
    alloc: Global,
    stage: &mut Stage,
    pool: &Name,
    devices: u32,
    places: u32,
) -> Result<Option<Difference>, NoMemory> {
    if stage.has(pool) {
        return Ok(Some(Difference::told(alloc, b"no set of this name", b"a set")?));
    }
    let set = MemoryDisks::new(alloc, devices, places, &[])?;
    stage.lay(pool, set)?;
    Ok(None)
}

// Notes what holds for the next run.
fn prepare(alloc: Global, stage: &mut Stage, next: &Next) -> Result<Option<Difference>, NoMemory> {
    if let Next::SetFails { pool, .. } = next
        && !stage.has(pool)
    {
        return Ok(Some(Difference::told(alloc, b"a set of this name", b"no set")?));
    }
    stage.prepare(next)?;
    Ok(None)
}

// Whether an outcome is one of those that are wanted.
fn is_wanted(wanted: &[Outcome], found: &Outcome) -> bool {
    wanted.iter().any(|one| *one == *found)
}

// Runs the program, and compares what comes of it.
fn run(alloc: Global, stage: &mut Stage, run: &Run) -> Result<Option<Difference>, NoMemory> {
    let found = stage.run(run)?;
    if is_wanted(&run.wanted, &found) {
        return Ok(None);
    }
    match run.wanted.as_slice() {
        [first, ..] => Ok(Some(outcome_difference(alloc, first, &found)?)),
        [] => Ok(None),
    }
}

// What is kept of each write, for so many writes.
fn choice_of(alloc: Global, keeps: &[Keep], writes: u64) -> Result<Vec<Keep>, NoMemory> {
    let mut choice = Vec::new(alloc);
    let mut last = Keep::Old;
    let mut at = 0usize;
    for _ in 0..writes {
        if let Some(keep) = keeps.get(at) {
            last = *keep;
            at += 1;
        }
        choice.push(last)?;
    }
    Ok(choice)
}

// Leaves what a crash leaves.
fn crash(
    alloc: Global,
    stage: &mut Stage,
    pool: &Name,
    moment: u64,
    keeps: &[Keep],
) -> Result<Changed, NoMemory> {
    let choice = choice_of(alloc, keeps, moment.saturating_add(1))?;
    match stage.crashed(pool, moment, &choice)? {
        None => Ok(Changed::NoMoment),
        Some(left) => {
            drop(stage.lift(pool));
            stage.lay(pool, left)?;
            Ok(Changed::Done)
        }
    }
}

// Changes a set that is taken from the shelf for it.
fn change_set(
    alloc: Global,
    stage: &mut Stage,
    pool: &Name,
    change: &Change,
) -> Result<Changed, NoMemory> {
    match stage.lift(pool) {
        None => Ok(Changed::NoSet),
        Some(mut set) => {
            let done = change_bytes(alloc, &mut set, change)?;
            stage.lay(pool, set)?;
            Ok(done)
        }
    }
}

// Changes a set.
fn change(
    alloc: Global,
    stage: &mut Stage,
    pool: &Name,
    change: &Change,
) -> Result<Option<Difference>, NoMemory> {
    let done = match change {
        Change::Crash { moment, keeps } => crash(alloc, stage, pool, *moment, keeps)?,
        _ => change_set(alloc, stage, pool, change)?,
    };
    if done == Changed::Done {
        return Ok(None);
    }
    let wanted = changed_text(Changed::Done);
    let found = changed_text(done);
    Ok(Some(Difference::told(alloc, wanted.as_bytes(), found.as_bytes())?))
}

// The difference where there is no set.
fn no_set(alloc: Global) -> Result<Option<Difference>, NoMemory> {
    Ok(Some(Difference::told(alloc, b"a set of this name", b"no set")?))
}

// Whether so many calls were made on a set.
fn ask_calls(
    alloc: Global,
    stage: &Stage,
    pool: &Name,
    calls: u64,
) -> Result<Option<Difference>, NoMemory> {
    let wanted = number_text(alloc, calls)?;
    let found = number_text(alloc, stage.calls(pool))?;
    Ok(Difference::of(wanted, found))
}

// Whether an empty script on the pool comes to this.
fn ask_told(
    alloc: Global,
    stage: &mut Stage,
    pool: &Name,
    wanted: &Outcome,
) -> Result<Option<Difference>, NoMemory> {
    let Some(set) = stage.copy(pool)? else {
        return no_set(alloc);
    };
    let found = told_of(alloc, pool, set)?;
    if found == *wanted {
        Ok(None)
    } else {
        Ok(Some(outcome_difference(alloc, wanted, &found)?))
    }
}

// Whether the pool is damaged so.
fn ask_damage(
    alloc: Global,
    stage: &mut Stage,
    pool: &Name,
    line: &[u8],
) -> Result<Option<Difference>, NoMemory> {
    let mut text = Vec::from_slice(alloc, line)?;
    text.push(b'\n')?;
    ask_told(alloc, stage, pool, &Outcome { status: 8, text })
}

// Whether there is no pool.
fn ask_none(alloc: Global, stage: &mut Stage, pool: &Name) -> Result<Option<Difference>, NoMemory> {
    let mut text = bytes_of(alloc, "no pool ")?;
    text.extend_from_slice(pool.bytes())?;
    text.push(b'\n')?;
    ask_told(alloc, stage, pool, &Outcome { status: 7, text })
}

// Whether bytes stand in a place.
fn ask_holds(
    alloc: Global,
    stage: &mut Stage,
    pool: &Name,
    at: &PlaceAt,
    from: usize,
    bytes: &[u8],
) -> Result<Option<Difference>, NoMemory> {
    let Some(mut view) = stage.take_view(pool)? else {
        return no_set(alloc);
    };
    let difference = view.holds(alloc, at, from, bytes)?;
    stage.keep_view(view);
    Ok(difference)
}

// Asks what stands after the root.
fn ask_found(
    alloc: Global,
    stage: &mut Stage,
    pool: &Name,
    question: &Question,
) -> Result<Option<Difference>, NoMemory> {
    let Some(view) = stage.take_view(pool)? else {
        return no_set(alloc);
    };
    let difference = view.answer(alloc, question)?;
    stage.keep_view(view);
    Ok(difference)
}

// Asks a set.
fn ask(
    alloc: Global,
    stage: &mut Stage,
    pool: &Name,
    ask: &Ask,
) -> Result<Option<Difference>, NoMemory> {
    match ask {
        Ask::Calls { calls } => ask_calls(alloc, stage, pool, *calls),
        Ask::Damage { line } => ask_damage(alloc, stage, pool, line),
        Ask::NoPool => ask_none(alloc, stage, pool),
        Ask::Holds { at, from, bytes } => ask_holds(alloc, stage, pool, at, *from, bytes),
        Ask::Zeros { at } => ask_holds(alloc, stage, pool, at, 0, &[0; 4096]),
        Ask::Found(question) => ask_found(alloc, stage, pool, question),
    }
}

// Does a step.
fn step(alloc: Global, stage: &mut Stage, act: &Act) -> Result<Option<Difference>, NoMemory> {
    match act {
        Act::Set {
            pool,
            devices,
            places,
        } => lay_zeros(alloc, stage, pool, *devices, *places),
        Act::Next(next) => prepare(alloc, stage, next),
        Act::Run(wanted) => run(alloc, stage, wanted),
        Act::Change {
            pool,
            change: wanted,
        } => change(alloc, stage, pool, wanted),
        Act::Ask { pool, ask: wanted } => ask(alloc, stage, pool, wanted),
    }
}

/// Plays a row up to the first thing that isn't as it should be.
pub fn play_row(alloc: Global, row: &Row) -> Result<Option<Differs>, NoMemory> {
    let mut stage = Stage::new(alloc)?;
    for one in &row.steps {
        if let Some(difference) = step(alloc, &mut stage, &one.act)? {
            let line = one.line;
            return Ok(Some(Differs { line, difference }));
        }
    }
    Ok(None)
}
