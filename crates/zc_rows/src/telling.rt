// How what is wanted and what was found are told.
use crate::row::Outcome;
use std::alloc::Global;
use zc_num::{NoMemory, PlaceAt};

// The most bytes that are told of a line.
const MOST_TOLD: usize = 300;

/// The first thing of a row that isn't as it should be.
#[derive(Drop)]
pub struct Difference {
    pub wanted: Vec<u8>,
    pub found: Vec<u8>,
}

impl Difference {
    /// What was wanted, and what was found, where they aren't the same.
    pub fn of(wanted: Vec<u8>, found: Vec<u8>) -> Option<Difference> {
        if wanted.as_slice() == found.as_slice() {
            None
        } else {
            Some(Difference { wanted, found })
        }
    }

    /// What was wanted, and what was found in its place.
    pub fn told(alloc: Global, wanted: &[u8], found: &[u8]) -> Result<Difference, NoMemory> {
        Ok(Difference {
            wanted: Vec::from_slice(alloc, wanted)?,
            found: Vec::from_slice(alloc, found)?,
        })
    }
}

/// The bytes of a text.
pub fn bytes_of(alloc: Global, text: &str) -> Result<Vec<u8>, NoMemory> {
    Vec::from_slice(alloc, text.as_bytes())
}

/// A number.
pub fn number_text(alloc: Global, number: u64) -> Result<Vec<u8>, NoMemory> {
    let text = number.to_string(alloc)?;
    bytes_of(alloc, &text)
}

/// A place.
pub fn place_text(alloc: Global, at: &PlaceAt) -> Result<Vec<u8>, NoMemory> {
    let device = at.device;
    let place = at.place;
    let text = format!(in alloc; "{device}:{place}")?;
    bytes_of(alloc, &text)
}

/// Bytes.
pub fn hex_text(alloc: Global, bytes: &[u8]) -> Result<Vec<u8>, NoMemory> {
    let text = hex::encode(alloc, bytes)?;
    bytes_of(alloc, &text)
}

// The lines of a text, without the end of the last one.
fn lines_of<'a>(alloc: Global, text: &'a [u8]) -> Result<Vec<&'a [u8]>, NoMemory> {
    text.split(|byte| *byte == b'\n').collect(alloc)
}

// How many lines are the same at the front.
fn common(first: &[&[u8]], second: &[&[u8]]) -> usize {
    first
        .iter()
        .zip(second)
        .take_while(|pair| pair.0 == pair.1)
        .count()
}

// A status, and the line with this number, counted from 0.
fn line_text(alloc: Global, status: u8, lines: &[&[u8]], at: usize) -> Result<Vec<u8>, NoMemory> {
    let mut text = bytes_of(alloc, "status ")?;
    let number = u64::from(status).to_string(alloc)?;
    text.extend_from_slice(number.as_bytes())?;
    if let Some(line) = lines.get(at) {
        let told = at as u64;
        let place = told.saturating_add(1).to_string(alloc)?;
        text.extend_from_slice(b", line ")?;
        text.extend_from_slice(place.as_bytes())?;
        text.extend_from_slice(b": ")?;
        let shown = line.len().min(MOST_TOLD);
        let (front, _) = line.split_at(shown);
        text.extend_from_slice(front)?;
    }
    Ok(text)
}

/// The difference of an outcome from one that was wanted, from the first line that isn't the same.
pub fn outcome_difference(
    alloc: Global,
    wanted: &Outcome,
    found: &Outcome,
) -> Result<Difference, NoMemory> {
    let wanted_lines = lines_of(alloc, &wanted.text)?;
    let found_lines = lines_of(alloc, &found.text)?;
    let at = common(&wanted_lines, &found_lines);
    Ok(Difference {
        wanted: line_text(alloc, wanted.status, &wanted_lines, at)?,
        found: line_text(alloc, found.status, &found_lines, at)?,
    })
}
