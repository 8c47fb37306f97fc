// Plays rows: tests of the program in plain text.
//
// A row lays disk sets in memory, runs the program's words on them, and says what must be printed and what the disks must hold.
// docs/ROWS.md has the grammar. All files are read before anything is played, and the first line outside the grammar is told. Then
// each row has an empty shelf of its own, and is played up to the first thing that isn't as it should be.
#![tactic(auto)]

mod acts;
mod asking;
mod building;
mod changing;
mod fault;
mod playing;
mod reading;
mod row;
mod sets;
mod stage;
mod telling;
mod words;

use crate::fault::{Fault, Reason};
use crate::playing::{Differs, play_row};
use crate::reading::read_rows;
use crate::row::Row;
use std::alloc::Global;
use std::process::ExitCode;
use std::rt::{Env, Files};
use std::{env, fs, io};

// Why nothing was played to the end.
#[derive(Drop)]
enum Stop {
    NoMemory,
    /// The file isn't there, or can't be read as text.
    Unreadable {
        file: usize,
    },
    Bad {
        file: usize,
        line: u64,
        reason: Reason,
    },
    Output,
}

// How many rows were played, and how many of them differ.
#[derive(Clone, Copy)]
struct Count {
    played: u64,
    differ: u64,
}

// The words after the program's name.
fn words_of(rt: &(impl Env + Alloc<A = Global>)) -> io::Result<Vec<String>> {
    let mut words = env::args(rt)?;
    let _ = words.next();
    Ok(words.collect(rt.alloc())?)
}

// Adds the rows of a file.
fn read_file<R: Files + Alloc<A = Global>>(
    rt: &R,
    file: usize,
    name: &str,
    rows: &mut Vec<Row>,
) -> Result<(), Stop> {
    let Ok(text) = fs::read_to_string(rt, name) else {
        return Err(Stop::Unreadable { file });
    };
    match read_rows(rt.alloc(), file, text.as_bytes(), rows) {
        Ok(()) => Ok(()),
        Err(Fault::NoMemory) => Err(Stop::NoMemory),
        Err(Fault::Bad { line, reason }) => Err(Stop::Bad { file, line, reason }),
    }
}

// The rows of all files.
fn read_all<R: Files + Alloc<A = Global>>(rt: &R, names: &[String]) -> Result<Vec<Row>, Stop> {
    let mut rows = Vec::new(rt.alloc());
    let mut file = 0usize;
    for name in names {
        read_file(rt, file, name.as_str(), &mut rows)?;
        file = file.saturating_add(1);
    }
    Ok(rows)
}

// The name of a file.
fn name_of(names: &[String], file: usize) -> &str {
    match names.get(file) {
        Some(name) => name.as_str(),
        None => "",
    }
}

// The text of bytes that came from one, or were printed by the program.
fn text_of(bytes: &[u8]) -> &str {
    match str::from_utf8(bytes) {
        Ok(text) => text,
        Err(_) => "bytes that are no text",
    }
}

// Tells where a row differs.
fn tell(rt: &impl Print, names: &[String], row: &Row, differs: &Differs) -> io::Result<()> {
    let file = name_of(names, row.file);
    let line = differs.line;
    let name = text_of(&row.name);
    let wanted = text_of(&differs.difference.wanted);
    let found = text_of(&differs.difference.found);
    println!(rt; "differs {file}:{line}: {name}")?;
    println!(rt; "wanted: {wanted}")?;
    println!(rt; "found: {found}")
}

// Plays a row, and counts it.
fn play_one<R: Print + Alloc<A = Global>>(
    rt: &R,
    names: &[String],
    row: &Row,
    count: &mut Count,
) -> Result<(), Stop> {
    let Ok(answer) = play_row(rt.alloc(), row) else {
        return Err(Stop::NoMemory);
    };
    count.played = count.played.saturating_add(1);
    if let Some(differs) = &answer {
        count.differ = count.differ.saturating_add(1);
        if tell(rt, names, row, differs).is_err() {
            return Err(Stop::Output);
        }
    }
    Ok(())
}

// Plays all rows of these files.
fn play_all<R: Print + Files + Alloc<A = Global>>(rt: &R, names: &[String]) -> Result<Count, Stop> {
    let rows = read_all(rt, names)?;
    let mut count = Count {
        played: 0,
        differ: 0,
    };
    for row in &rows {
        play_one(rt, names, row, &mut count)?;
    }
    Ok(count)
}

// Tells how it ended, and gives the status.
fn report(rt: &impl Print, names: &[String], ended: Result<Count, Stop>) -> io::Result<u8> {
    match ended {
        Ok(Count { played, differ }) => {
            println!(rt; "rows {played} played, {differ} differ")?;
            Ok(if differ == 0 { 0 } else { 1 })
        }
        Err(Stop::Bad { file, line, reason }) => {
            let file = name_of(names, file);
            println!(rt; "bad row {file}:{line}: {reason}")?;
            Ok(2)
        }
        Err(Stop::Unreadable { file }) => {
            let file = name_of(names, file);
            println!(rt; "unreadable {file}")?;
            Ok(2)
        }
        Err(Stop::NoMemory) => {
            println!(rt; "want of memory")?;
            Ok(1)
        }
        Err(Stop::Output) => Ok(1),
    }
}

fn main(rt: HostRuntime) -> ExitCode {
    let Ok(names) = words_of(&rt) else {
        return ExitCode::from(2);
    };
    let ended = play_all(&rt, &names);
    match report(&rt, &names, ended) {
        Ok(status) => ExitCode::from(status),
        Err(_) => ExitCode::from(1),
    }
}
