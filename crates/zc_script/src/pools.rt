// The pools of a run, as lines name them.
ghost use Rattle.std.specs.Prelude.{◌≡◌, ◌<◌, length, position, IfSome};
ghost use Rattle.std.specs.List.{list_all};
ghost use Rattle.std.specs.Str.{bytes_eq};
ghost use Rattle.zc_script.specs.Pools.{is_pool_byte, is_pool_name, pool_at};

use zc_num::Name;

fn is_pool_byte(byte: u8) -> bool
    ensures { result ≡ is_pool_byte byte }
{
    byte.is_ascii_lowercase() || byte.is_ascii_digit() || byte == b'_'
}

fn are_pool_bytes(bytes: &[u8]) -> bool
    ensures { result ≡ list_all is_pool_byte bytes.now }
{
    bytes.iter().all(|byte| is_pool_byte(*byte))
}

/// Whether the bytes are a pool's name: 1 to 32 of them, a lower-case letter first, then lower-case
/// letters, digits or `_`.
pub fn is_pool_name(name: &[u8]) -> bool
    ensures { result ≡ is_pool_name name.now }
{
    match name {
        [] => false,
        [first, rest @ ..] => first.is_ascii_lowercase()
            && rest.len() <= 31
            && are_pool_bytes(rest),
    }
}

// The index of the first pool of this name.
fn place_of_pool(pools: &[Name], name: &[u8]) -> Option<usize>
    ensures { result ≡ position (λ pool. bytes_eq pool name.now) pools.now }
{
    pools.iter().position(|pool| pool.bytes() == name)
}

/// The index of the first pool of this name, where the name is a pool's.
#[tactic(auto, unfolding(crate::specs::Pools::pool_at))]
pub fn pool_at(pools: &[Name], name: &[u8]) -> Option<u32>
    ensures { result ≡ pool_at pools.now name.now }
{
    if !is_pool_name(name) {
        return None;
    }
    match place_of_pool(pools, name) {
        Some(at) => {
            if at < 0x1_0000_0000 {
                Some(at as u32)
            } else {
                None
            }
        }
        None => None,
    }
}
