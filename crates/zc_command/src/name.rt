// What names are made of.
ghost use Rattle.std.specs.Prelude.{◌≡◌, ◌↔◌, IsTrue};
ghost use Rattle.std.specs.List.{list_all};
ghost use Rattle.zc_command.specs.Names.{is_name_byte, HasNameBytes, IsName};

/// The most bytes that a name has: 64.
pub const MOST_NAME: usize = 64;

/// Whether the byte may stand in a name: `A` to `Z`, `a` to `z`, `0` to `9`, `_`, `-` or `.`.
pub fn is_name_byte(byte: u8) -> bool
    ensures { result ≡ is_name_byte byte }
{
    byte.is_ascii_uppercase()
        || byte.is_ascii_lowercase()
        || byte.is_ascii_digit()
        || byte == b'_'
        || byte == b'-'
        || byte == b'.'
}

/// Whether all of the bytes may stand in a name.
pub fn are_name_bytes(bytes: &[u8]) -> bool
    ensures { result ≡ list_all is_name_byte bytes.now }
{
    bytes.iter().all(|byte| is_name_byte(*byte))
}

/// Whether there is at least one byte, and only name bytes: what a command may give as a name.
pub fn has_name_bytes(bytes: &[u8]) -> bool
    ensures { IsTrue result ↔ HasNameBytes bytes.now }
{
    !bytes.is_empty() && are_name_bytes(bytes)
}

/// Whether the bytes are the name of a dataset or a file: 1 to 64 name bytes.
pub fn is_name(bytes: &[u8]) -> bool
    ensures { IsTrue result ↔ IsName bytes.now }
{
    bytes.len() <= MOST_NAME && has_name_bytes(bytes)
}
