// What the words of a line say.
ghost use Rattle.std.specs.Prelude.{◌<◌, IfSome};

use std::alloc::Global;
use zc_num::{Name, NoMemory, PlaceAt};
use zc_script::{is_pool_name, number_of};

// The bytes of a place.
const BLOCK: usize = 4096;

/// The words of a line, which single spaces stand between.
pub fn words_of<'a>(alloc: Global, text: &'a [u8]) -> Result<Vec<&'a [u8]>, NoMemory> {
    text.split(|byte| *byte == b' ').collect(alloc)
}

/// A number of 32 bits.
pub fn small_of(word: &[u8]) -> Option<u32> {
    match number_of(word) {
        Some(number) => u32::try_from(number).ok(),
        None => None,
    }
}

/// A number of 8 bits.
pub fn status_of(word: &[u8]) -> Option<u8> {
    match number_of(word) {
        Some(number) => u8::try_from(number).ok(),
        None => None,
    }
}

/// A number of bytes that isn't zero.
pub fn most_of(word: &[u8]) -> Option<usize> {
    match number_of(word) {
        Some(0) => None,
        Some(number) => Some(number as usize),
        None => None,
    }
}

/// The numbers that each of the words is; none where one isn't, or there is no word.
pub fn numbers_of(alloc: Global, words: &[&[u8]]) -> Result<Option<Vec<u64>>, NoMemory> {
    if words.is_empty() {
        return Ok(None);
    }
    let mut numbers = Vec::new(alloc);
    for word in words {
        match number_of(word) {
            Some(number) => numbers.push(number)?,
            None => return Ok(None),
        }
    }
    Ok(Some(numbers))
}

// What stands before and after the first such byte.
fn cut(separator: u8, text: &[u8]) -> Option<(&[u8], &[u8])> {
    match text.iter().position(|byte| *byte == separator) {
        Some(at) => {
            let (before, rest) = text.split_at(at);
            match rest {
                [_, after @ ..] => Some((before, after)),
                [] => None,
            }
        }
        None => None,
    }
}

/// A place, DEVICE:PLACE.
pub fn place_of(word: &[u8]) -> Option<PlaceAt> {
    let Some((before, after)) = cut(b':', word) else {
        return None;
    };
    let Some(device) = small_of(before) else {
        return None;
    };
    match small_of(after) {
        Some(place) => Some(PlaceAt { device, place }),
        None => None,
    }
}

/// The name of a pool.
pub fn pool_of(alloc: Global, word: &[u8]) -> Result<Option<Name>, NoMemory> {
    if is_pool_name(word) {
        Ok(Some(Name::of(alloc, word)?))
    } else {
        Ok(None)
    }
}

// The names of POOL/DATASET/FILE, as they stand in the word.
fn parts_of(word: &[u8]) -> Option<(&[u8], &[u8], &[u8])> {
    let Some((pool, rest)) = cut(b'/', word) else {
        return None;
    };
    match cut(b'/', rest) {
        Some((dataset, file)) => Some((pool, dataset, file)),
        None => None,
    }
}

/// The names of POOL/DATASET/FILE.
pub fn path_of(alloc: Global, word: &[u8]) -> Result<Option<(Name, Name, Name)>, NoMemory> {
    match parts_of(word) {
        Some((pool, dataset, file)) if is_pool_name(pool) => Ok(Some((
            Name::of(alloc, pool)?,
            Name::of(alloc, dataset)?,
            Name::of(alloc, file)?,
        ))),
        _ => Ok(None),
    }
}

// The number that a hexadecimal digit is.
fn digit_of(digit: u8) -> Option<u8>
    ensures bound { IfSome result (λ number. number < 16) }
{
    match digit {
        b'0'..=b'9' => Some(digit - b'0'),
        b'a'..=b'f' => Some(digit - b'a' + 10),
        b'A'..=b'F' => Some(digit - b'A' + 10),
        _ => None,
    }
}

// The byte that two hexadecimal digits are.
fn byte_of(high: u8, low: u8) -> Option<u8> {
    match (digit_of(high), digit_of(low)) {
        (Some(high), Some(low)) => Some(high * 16 + low),
        _ => None,
    }
}

/// The bytes that hexadecimal digits spell, at least one.
pub fn bytes_of(alloc: Global, word: &[u8]) -> Result<Option<Vec<u8>>, NoMemory> {
    let mut bytes = Vec::new(alloc);
    let mut rest = word;
    while let [high, low, after @ ..] = rest {
        match byte_of(*high, *low) {
            Some(byte) => bytes.push(byte)?,
            None => return Ok(None),
        }
        rest = after;
    }
    if rest.is_empty() && !bytes.is_empty() {
        Ok(Some(bytes))
    } else {
        Ok(None)
    }
}

/// Where bytes begin in a block that holds them all.
pub fn start_of(word: &[u8], count: usize) -> Option<usize> {
    match number_of(word) {
        Some(number) => {
            if number <= BLOCK as u64 && count <= BLOCK - number as usize {
                Some(number as usize)
            } else {
                None
            }
        }
        None => None,
    }
}
