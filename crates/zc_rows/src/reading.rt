// The rows of a file.
use crate::acts::joined;
use crate::building::Builder;
use crate::fault::{Fault, Reason};
use crate::row::Row;
use crate::words::words_of;
use std::alloc::Global;
use zc_num::NoMemory;
use zc_script::number_of;

// The most times that a row is played.
const MOST_TIMES: u64 = 10_000;

// A line of a file, with its number.
#[derive(Clone, Copy)]
struct Line<'a> {
    number: u64,
    text: &'a [u8],
}

// The lines of a file from the head of a row up to the next one.
#[derive(Drop)]
struct Part<'a> {
    head: Line<'a>,
    lines: Vec<Line<'a>>,
}

// The head of a row.
#[derive(Drop)]
struct Head {
    name: Vec<u8>,
    // The first and the last number, where it is played for each.
    range: Option<(u64, u64)>,
}

// Whether a line says nothing.
fn is_ignored(text: &[u8]) -> bool {
    match text {
        [] => true,
        [first, ..] => *first == b'#',
    }
}

// Whether a line is the head of a row.
fn is_head(text: &[u8]) -> bool {
    matches!(text, [b'r', b'o', b'w', b' ', _, ..])
}

// Adds a line to the parts.
fn push_line<'a>(alloc: Global, line: Line<'a>, parts: &mut Vec<Part<'a>>) -> Result<(), Fault> {
    if is_ignored(line.text) {
        return Ok(());
    }
    if is_head(line.text) {
        parts.push(Part {
            head: line,
            lines: Vec::new(alloc),
        })?;
        return Ok(());
    }
    match parts.last_mut() {
        Some(part) => {
            part.lines.push(line)?;
            Ok(())
        }
        None => Err(Fault::Bad {
            line: line.number,
            reason: Reason::NoRow,
        }),
    }
}

// The parts of a file.
fn parts_of<'a>(alloc: Global, bytes: &'a [u8]) -> Result<Vec<Part<'a>>, Fault> {
    let mut parts = Vec::new(alloc);
    let mut number = 0u64;
    for text in bytes.split(|byte| *byte == b'\n') {
        number = number.saturating_add(1);
        push_line(alloc, Line { number, text }, &mut parts)?;
    }
    Ok(parts)
}

// The first and the last number that words name.
fn range_of(first: &[u8], last: &[u8]) -> Option<(u64, u64)> {
    match (number_of(first), number_of(last)) {
        (Some(first), Some(last)) if first <= last && last - first < MOST_TIMES => {
            Some((first, last))
        }
        _ => None,
    }
}

// The numbers that the last six words of a head name; none where they are words of its name.
fn range_in(last: &[&[u8]]) -> Option<Option<(u64, u64)>> {
    match last {
        [b"for", b"N", b"from", first, b"to", last] => Some(range_of(first, last)),
        _ => None,
    }
}

// A head whose name has these words.
fn named(
    alloc: Global,
    words: &[&[u8]],
    range: Option<(u64, u64)>,
) -> Result<Option<Head>, NoMemory> {
    let name = joined(alloc, words)?;
    Ok(Some(Head { name, range }))
}

// The head that the words of its line make.
fn head_of(alloc: Global, text: &[u8]) -> Result<Option<Head>, NoMemory> {
    let words = words_of(alloc, text)?;
    let [_, name @ ..] = words.as_slice() else {
        return Ok(None);
    };
    let (front, last) = name.split_at(name.len().saturating_sub(6));
    match range_in(last) {
        None => named(alloc, name, None),
        Some(None) => Ok(None),
        Some(range) => named(alloc, front, range),
    }
}

/// A text with a number's digits in place of each `{N}`.
pub fn replaced(alloc: Global, text: &[u8], digits: &[u8]) -> Result<Vec<u8>, NoMemory> {
    let mut out = Vec::new(alloc);
    let mut rest = text;
    while let [first, after @ ..] = rest {
        if let [b'{', b'N', b'}', next @ ..] = rest {
            out.extend_from_slice(digits)?;
            rest = next;
        } else {
            out.push(*first)?;
            rest = after;
        }
    }
    Ok(out)
}

// Adds a line to the steps.
fn add_line(builder: &mut Builder, number: u64, text: &[u8]) -> Result<(), Fault> {
    match builder.add(number, text)? {
        None => Ok(()),
        Some(reason) => Err(Fault::Bad {
            line: number,
            reason,
        }),
    }
}

// The row of a part that is played once.
fn plain_row(alloc: Global, file: usize, part: &Part<'_>, name: Vec<u8>) -> Result<Row, Fault> {
    let mut builder = Builder::new(alloc);
    let mut last = part.head.number;
    for line in &part.lines {
        last = line.number;
        add_line(&mut builder, line.number, line.text)?;
    }
    let steps = builder.finish(last)?;
    Ok(Row { file, name, steps })
}

// The name of a row for a number.
fn numbered_name(alloc: Global, name: &[u8], digits: &[u8]) -> Result<Vec<u8>, NoMemory> {
    let mut text = replaced(alloc, name, digits)?;
    text.extend_from_slice(b" for N = ")?;
    text.extend_from_slice(digits)?;
    Ok(text)
}

// The row of a part for a number.
fn numbered_row(
    alloc: Global,
    file: usize,
    part: &Part<'_>,
    name: &[u8],
    number: u64,
) -> Result<Row, Fault> {
    let digits = number.to_string(alloc)?;
    let mut builder = Builder::new(alloc);
    let mut last = part.head.number;
    for line in &part.lines {
        let text = replaced(alloc, line.text, digits.as_bytes())?;
        last = line.number;
        add_line(&mut builder, line.number, &text)?;
    }
    let steps = builder.finish(last)?;
    let name = numbered_name(alloc, name, digits.as_bytes())?;
    Ok(Row { file, name, steps })
}

// Adds the rows of a part.
fn push_rows(
    alloc: Global,
    file: usize,
    part: &Part<'_>,
    rows: &mut Vec<Row>,
) -> Result<(), Fault> {
    let Some(head) = head_of(alloc, part.head.text)? else {
        return Err(Fault::Bad {
            line: part.head.number,
            reason: Reason::Words,
        });
    };
    match head.range {
        None => rows.push(plain_row(alloc, file, part, head.name)?)?,
        Some((first, last)) => {
            for number in first..=last {
                rows.push(numbered_row(alloc, file, part, &head.name, number)?)?;
            }
        }
    }
    Ok(())
}

/// Adds the rows of a file, which has this number among those that are played.
pub fn read_rows(
    alloc: Global,
    file: usize,
    bytes: &[u8],
    rows: &mut Vec<Row>,
) -> Result<(), Fault> {
    let parts = parts_of(alloc, bytes)?;
    for part in &parts {
        push_rows(alloc, file, part, rows)?;
    }
    Ok(())
}
