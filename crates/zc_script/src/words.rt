// What single words say.
ghost use Rattle.std.specs.Prelude.{◌≡◌, IfOk};
ghost use Rattle.zc_script.specs.Words.{number_of, session_of, byte_of, bytes_of, is_name_word};

use hex::FromHexError;
use std::alloc::{AllocError, Global};
use zc_command::are_name_bytes;
use zc_num::{Bytes, NoMemory};

// The most digits of a number: those of 2^62.
const MOST_DIGITS: usize = 19;

// The most that a number of a line may be: 2^62.
const MOST_NUMBER: u64 = 4611686018427387904;

/// The number of 1 to 19 decimal digits, which is at most 2^62; `None` for any other word.
#[tactic(auto, unfolding(crate::specs::Words::number_of))]
pub fn number_of(text: &[u8]) -> Option<u64>
    ensures { result ≡ number_of text.now }
{
    if text.len() < 1 || text.len() > MOST_DIGITS {
        return None;
    }
    let mut number = 0u64;
    for digit in text {
        if !digit.is_ascii_digit() {
            return None;
        }
        number = number * 10 + u64::from(*digit - b'0');
    }
    if number <= MOST_NUMBER {
        Some(number)
    } else {
        None
    }
}

// The session that a word names: a number of at most 15.
#[tactic(auto, unfolding(crate::specs::Words::session_of))]
pub fn session_of(text: &[u8]) -> Option<u32>
    ensures { result ≡ session_of text.now }
{
    match number_of(text) {
        Some(number) => {
            if number <= 15 {
                Some(number as u32)
            } else {
                None
            }
        }
        None => None,
    }
}

// The byte that a word spells: a number of at most 255.
#[tactic(auto, unfolding(crate::specs::Words::byte_of))]
pub fn byte_of(text: &[u8]) -> Option<u8>
    ensures { result ≡ byte_of text.now }
{
    match number_of(text) {
        Some(number) => {
            if number <= 255 {
                Some(number as u8)
            } else {
                None
            }
        }
        None => None,
    }
}

// The bytes that hexadecimal digits spell, at least one.
#[tactic(auto, unfolding(crate::specs::Words::bytes_of))]
pub fn bytes_of(alloc: Global, digits: &[u8]) -> Result<Option<Bytes>, NoMemory>
    ensures { IfOk result (λ bytes. bytes ≡ bytes_of digits.now) }
{
    if digits.len() < 1 {
        return Ok(None);
    }
    match hex::decode(alloc, digits) {
        Ok(vec) => Ok(Some(Bytes::from_vec(vec))),
        Err(FromHexError::OutOfMemory) => Err(AllocError),
        Err(_) => Ok(None),
    }
}

// Whether a word is a name of at least one byte.
pub fn is_name_word(text: &[u8]) -> bool
    ensures { result ≡ is_name_word text.now }
{
    1 <= text.len() && are_name_bytes(text)
}
