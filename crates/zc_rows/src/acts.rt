// What a line says that is neither of a run nor the head of a row.
use crate::row::{Act, Ask, Change, FileBlock, Next, Question};
use crate::words::{bytes_of, most_of, numbers_of, path_of, place_of, pool_of, small_of, start_of};
use std::alloc::Global;
use zc_num::{Name, NoMemory};
use zc_script::number_of;
use zc_tape::Keep;

// `set POOL DEVICES PLACES`.
fn set_of(alloc: Global, words: &[&[u8]]) -> Result<Option<Act>, NoMemory> {
    let [pool, devices, places] = words else {
        return Ok(None);
    };
    match (pool_of(alloc, pool)?, small_of(devices), small_of(places)) {
        (Some(pool), Some(devices), Some(places)) => Ok(Some(Act::Set {
            pool,
            devices,
            places,
        })),
        _ => Ok(None),
    }
}

// `fails POOL N ..`.
fn set_fails_of(alloc: Global, words: &[&[u8]]) -> Result<Option<Act>, NoMemory> {
    let [pool, numbers @ ..] = words else {
        return Ok(None);
    };
    match (pool_of(alloc, pool)?, numbers_of(alloc, numbers)?) {
        (Some(pool), Some(calls)) => Ok(Some(Act::Next(Next::SetFails { pool, calls }))),
        _ => Ok(None),
    }
}

// `shelf fails N ..`.
fn shelf_of(alloc: Global, words: &[&[u8]]) -> Result<Option<Act>, NoMemory> {
    let [b"fails", numbers @ ..] = words else {
        return Ok(None);
    };
    match numbers_of(alloc, numbers)? {
        Some(calls) => Ok(Some(Act::Next(Next::ShelfFails(calls)))),
        None => Ok(None),
    }
}

// `source fails N ..` and `source most N`.
fn source_of(alloc: Global, words: &[&[u8]]) -> Result<Option<Act>, NoMemory> {
    match words {
        [b"most", most] => match most_of(most) {
            Some(most) => Ok(Some(Act::Next(Next::SourceMost(most)))),
            None => Ok(None),
        },
        [b"fails", numbers @ ..] => match numbers_of(alloc, numbers)? {
            Some(calls) => Ok(Some(Act::Next(Next::SourceFails(calls)))),
            None => Ok(None),
        },
        _ => Ok(None),
    }
}

// `sink fails N ..` and `sink most N`.
fn sink_of(alloc: Global, words: &[&[u8]]) -> Result<Option<Act>, NoMemory> {
    match words {
        [b"most", most] => match most_of(most) {
            Some(most) => Ok(Some(Act::Next(Next::SinkMost(most)))),
            None => Ok(None),
        },
        [b"fails", numbers @ ..] => match numbers_of(alloc, numbers)? {
            Some(calls) => Ok(Some(Act::Next(Next::SinkFails(calls)))),
            None => Ok(None),
        },
        _ => Ok(None),
    }
}

// A change of the pool that a word names.
fn changing(alloc: Global, pool: &[u8], change: Change) -> Result<Option<Act>, NoMemory> {
    match pool_of(alloc, pool)? {
        Some(pool) => Ok(Some(Act::Change { pool, change })),
        None => Ok(None),
    }
}

// A question about the pool that a word names.
fn asking(alloc: Global, pool: &[u8], ask: Ask) -> Result<Option<Act>, NoMemory> {
    match pool_of(alloc, pool)? {
        Some(pool) => Ok(Some(Act::Ask { pool, ask })),
        None => Ok(None),
    }
}

// A question about what stands after the root.
fn asking_found(alloc: Global, pool: &[u8], question: Question) -> Result<Option<Act>, NoMemory> {
    asking(alloc, pool, Ask::Found(question))
}

// What is left of a write.
fn keep_of(word: &[u8]) -> Option<Keep> {
    match word {
        b"old" => Some(Keep::Old),
        b"new" => Some(Keep::New),
        b"half" => Some(Keep::Half),
        _ => None,
    }
}

// What is left of each write, at least of one.
fn keeps_of(alloc: Global, words: &[&[u8]]) -> Result<Option<Vec<Keep>>, NoMemory> {
    if words.is_empty() {
        return Ok(None);
    }
    let mut keeps = Vec::new(alloc);
    for word in words {
        match keep_of(word) {
            Some(keep) => keeps.push(keep)?,
            None => return Ok(None),
        }
    }
    Ok(Some(keeps))
}

// `crash POOL MOMENT KEEP ..`.
fn crash_of(alloc: Global, words: &[&[u8]]) -> Result<Option<Act>, NoMemory> {
    let [pool, moment, keeps @ ..] = words else {
        return Ok(None);
    };
    match (number_of(moment), keeps_of(alloc, keeps)?) {
        (Some(moment), Some(keeps)) => changing(alloc, pool, Change::Crash { moment, keeps }),
        _ => Ok(None),
    }
}

// `bytes POOL D:P FROM = HEX`.
fn put_of(alloc: Global, words: &[&[u8]]) -> Result<Option<Act>, NoMemory> {
    let [pool, at, from, b"=", digits] = words else {
        return Ok(None);
    };
    let Some(bytes) = bytes_of(alloc, digits)? else {
        return Ok(None);
    };
    match (place_of(at), start_of(from, bytes.len())) {
        (Some(at), Some(from)) => { changing(alloc, pool, Change::Bytes { at, from, bytes }) }
        _ => Ok(None),
    }
}

// `holds POOL D:P FROM = HEX`.
fn holds_of(alloc: Global, words: &[&[u8]]) -> Result<Option<Act>, NoMemory> {
    let [pool, at, from, b"=", digits] = words else {
        return Ok(None);
    };
    let Some(bytes) = bytes_of(alloc, digits)? else {
        return Ok(None);
    };
    match (place_of(at), start_of(from, bytes.len())) {
        (Some(at), Some(from)) => { asking(alloc, pool, Ask::Holds { at, from, bytes }) }
        _ => Ok(None),
    }
}

// `catalogue POOL FROM = HEX`.
fn catalogue_of(alloc: Global, words: &[&[u8]]) -> Result<Option<Act>, NoMemory> {
    let [pool, from, b"=", digits] = words else {
        return Ok(None);
    };
    match (number_of(from), bytes_of(alloc, digits)?) {
        (Some(from), Some(bytes)) => {
            let from = from as usize;
            changing(alloc, pool, Change::Catalogue { from, bytes })
        }
        _ => Ok(None),
    }
}

// `digest POOL D:P in catalogue FROM`.
fn digest_of(alloc: Global, words: &[&[u8]]) -> Result<Option<Act>, NoMemory> {
    let [pool, at, b"in", b"catalogue", from] = words else {
        return Ok(None);
    };
    match (place_of(at), number_of(from)) {
        (Some(at), Some(from)) => {
            let from = from as usize;
            changing(alloc, pool, Change::Digest { at, from })
        }
        _ => Ok(None),
    }
}

// `mend POOL SLOT`.
fn mend_of(alloc: Global, words: &[&[u8]]) -> Result<Option<Act>, NoMemory> {
    let [pool, slot] = words else {
        return Ok(None);
    };
    match small_of(slot) {
        Some(slot) if slot < 2 => changing(alloc, pool, Change::Mend { slot }),
        _ => Ok(None),
    }
}

// `calls POOL = N`.
fn calls_of(alloc: Global, words: &[&[u8]]) -> Result<Option<Act>, NoMemory> {
    let [pool, b"=", calls] = words else {
        return Ok(None);
    };
    match number_of(calls) {
        Some(calls) => asking(alloc, pool, Ask::Calls { calls }),
        _ => Ok(None),
    }
}

// `group POOL = G`.
fn group_of(alloc: Global, words: &[&[u8]]) -> Result<Option<Act>, NoMemory> {
    let [pool, b"=", group] = words else {
        return Ok(None);
    };
    match number_of(group) {
        Some(group) => asking_found(alloc, pool, Question::Group { group }),
        _ => Ok(None),
    }
}

// `none POOL`.
fn none_of(alloc: Global, words: &[&[u8]]) -> Result<Option<Act>, NoMemory> {
    let [pool] = words else {
        return Ok(None);
    };
    asking(alloc, pool, Ask::NoPool)
}

// `damage POOL = LINE`.
fn damage_of(alloc: Global, words: &[&[u8]]) -> Result<Option<Act>, NoMemory> {
    let [pool, b"=", line @ ..] = words else {
        return Ok(None);
    };
    let line = joined(alloc, line)?;
    asking(alloc, pool, Ask::Damage { line })
}

/// Words, with single spaces between them.
pub fn joined(alloc: Global, words: &[&[u8]]) -> Result<Vec<u8>, NoMemory> {
    let mut line = Vec::new(alloc);
    for word in words {
        if !line.is_empty() {
            line.push(b' ')?;
        }
        line.extend_from_slice(word)?;
    }
    Ok(line)
}

// `zeros POOL D:P`.
fn zeros_of(alloc: Global, words: &[&[u8]]) -> Result<Option<Act>, NoMemory> {
    let [pool, at] = words else {
        return Ok(None);
    };
    match place_of(at) {
        Some(at) => asking(alloc, pool, Ask::Zeros { at }),
        None => Ok(None),
    }
}

// `allocated POOL D:P` and `free POOL D:P`.
fn allocated_of(alloc: Global, words: &[&[u8]], allocated: bool) -> Result<Option<Act>, NoMemory> {
    let [pool, at] = words else {
        return Ok(None);
    };
    match place_of(at) {
        Some(at) => asking_found(alloc, pool, Question::Allocated { at, allocated }),
        None => Ok(None),
    }
}

// `count POOL D:P = N`.
fn count_of(alloc: Global, words: &[&[u8]]) -> Result<Option<Act>, NoMemory> {
    let [pool, at, b"=", count] = words else {
        return Ok(None);
    };
    match (place_of(at), number_of(count)) {
        (Some(at), Some(count)) => { asking_found(alloc, pool, Question::Count { at, count }) }
        _ => Ok(None),
    }
}

// `region POOL DEVICE REGION = N`.
fn region_of(alloc: Global, words: &[&[u8]]) -> Result<Option<Act>, NoMemory> {
    let [pool, device, region, b"=", sum] = words else {
        return Ok(None);
    };
    match (small_of(device), small_of(region), number_of(sum)) {
        (Some(device), Some(region), Some(sum)) => {
            let question = Question::Region {
                device,
                region,
                sum,
            };
            asking_found(alloc, pool, question)
        }
        _ => Ok(None),
    }
}

// `POOL/DATASET/FILE BLOCK`.
fn block_of(
    alloc: Global,
    path: &[u8],
    block: &[u8],
) -> Result<Option<(Name, FileBlock)>, NoMemory> {
    match (path_of(alloc, path)?, small_of(block)) {
        (Some((pool, dataset, file)), Some(block)) => Ok(Some((
            pool,
            FileBlock {
                dataset,
                file,
                block,
            },
        ))),
        _ => Ok(None),
    }
}

// Whether a word says that a block has no place.
fn is_hole(word: &[u8]) -> bool {
    matches!(word, b"hole")
}

// `place POOL/DATASET/FILE BLOCK = D:P`, `.. = hole`.
fn standing_of(alloc: Global, words: &[&[u8]]) -> Result<Option<Act>, NoMemory> {
    let [path, block, b"=", place] = words else {
        return Ok(None);
    };
    let Some((pool, block)) = block_of(alloc, path, block)? else {
        return Ok(None);
    };
    let at = place_of(place);
    if at.is_none() && !is_hole(place) {
        return Ok(None);
    }
    let ask = Ask::Found(Question::Place { block, at });
    Ok(Some(Act::Ask { pool, ask }))
}

// `same POOL/D/F BLOCK POOL/D/F BLOCK` and `apart ..`.
fn same_of(alloc: Global, words: &[&[u8]], same: bool) -> Result<Option<Act>, NoMemory> {
    let [path, block, other_path, other_block] = words else {
        return Ok(None);
    };
    let Some((pool, first)) = block_of(alloc, path, block)? else {
        return Ok(None);
    };
    let Some((other_pool, second)) = block_of(alloc, other_path, other_block)? else {
        return Ok(None);
    };
    if pool != other_pool {
        return Ok(None);
    }
    let ask = Ask::Found(Question::Same {
        first,
        second,
        same,
    });
    Ok(Some(Act::Ask { pool, ask }))
}

// The lines that prepare a run.
fn before_run(alloc: Global, first: &[u8], words: &[&[u8]]) -> Result<Option<Act>, NoMemory> {
    match first {
        b"set" => set_of(alloc, words),
        b"fails" => set_fails_of(alloc, words),
        b"shelf" => shelf_of(alloc, words),
        b"source" => source_of(alloc, words),
        b"sink" => sink_of(alloc, words),
        _ => Ok(None),
    }
}

// The lines that change a set.
fn change(alloc: Global, first: &[u8], words: &[&[u8]]) -> Result<Option<Act>, NoMemory> {
    match first {
        b"crash" => crash_of(alloc, words),
        b"bytes" => put_of(alloc, words),
        b"catalogue" => catalogue_of(alloc, words),
        b"digest" => digest_of(alloc, words),
        b"mend" => mend_of(alloc, words),
        _ => Ok(None),
    }
}

// The lines that ask for bytes, calls or damages.
fn ask_raw(alloc: Global, first: &[u8], words: &[&[u8]]) -> Result<Option<Act>, NoMemory> {
    match first {
        b"calls" => calls_of(alloc, words),
        b"damage" => damage_of(alloc, words),
        b"none" => none_of(alloc, words),
        b"holds" => holds_of(alloc, words),
        b"zeros" => zeros_of(alloc, words),
        _ => Ok(None),
    }
}

// The lines that ask what stands after the root.
fn ask_found(alloc: Global, first: &[u8], words: &[&[u8]]) -> Result<Option<Act>, NoMemory> {
    match first {
        b"group" => group_of(alloc, words),
        b"place" => standing_of(alloc, words),
        b"same" => same_of(alloc, words, true),
        b"apart" => same_of(alloc, words, false),
        b"count" => count_of(alloc, words),
        b"region" => region_of(alloc, words),
        b"allocated" => allocated_of(alloc, words, true),
        b"free" => allocated_of(alloc, words, false),
        _ => Ok(None),
    }
}

/// What the words of such a line say; none where they say nothing.
pub fn act_of(alloc: Global, words: &[&[u8]]) -> Result<Option<Act>, NoMemory> {
    let [first, rest @ ..] = words else {
        return Ok(None);
    };
    if let Some(act) = before_run(alloc, first, rest)? {
        return Ok(Some(act));
    }
    if let Some(act) = change(alloc, first, rest)? {
        return Ok(Some(act));
    }
    if let Some(act) = ask_raw(alloc, first, rest)? {
        return Ok(Some(act));
    }
    ask_found(alloc, first, rest)
}
