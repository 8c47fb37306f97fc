// What a run came to, with its status and its text.
ghost use Rattle.std.specs.Prelude.{◌≡◌, ◌++◌, IfOk, OnOk, codes};
ghost use Rattle.std.specs.Fmt.{decimal};
ghost use Rattle.hex.specs.Hex.{encode_lower};
ghost use Rattle.zc_prog.specs.Ended.{given_code, code_of, kind_text, place_text, values_text, damage_text, line_of, text_of};

use std::alloc::Global;
use zc_damage::{Damage, DamageKind};
use zc_num::{Bytes, NoMemory};

/// What a run came to, before its text was written. Want of memory is none of these.
#[derive(Debug, Drop)]
pub enum Ended {
    /// The words are none that the program knows.
    Usage,
    /// The source failed.
    ReadFault,
    /// The source has more than a script may have.
    TooLarge,
    /// This line of the script is the first that is outside the grammar.
    BadLine { line: u64 },
    /// No disk set has the name.
    Missing,
    /// A call of the shelf or of the disk set failed.
    DiskFault,
    /// The disk set holds no pool.
    NoPool,
    /// The pool is damaged.
    Damaged { damage: Damage },
    /// The disk set holds a pool already.
    PoolExists,
    /// The disk set has another size, and holds no pool.
    OtherSize,
    /// The script was played; and whether its last commit was done and the disk set was taken back with Ok.
    Played { text: Bytes, good: bool },
    /// The pool was made; and whether the disk set was taken back with Ok.
    Created { given: bool },
}

// The status of what was done to its end.
fn given_code(given: bool) -> u8
    ensures { result ≡ given_code given }
{
    if given { 0 } else { 6 }
}

/// The status of a run.
pub fn code_of(ended: &Ended) -> u8
    ensures { result ≡ code_of ended.now }
{
    match ended {
        Ended::Usage => 2,
        Ended::BadLine { line: _ } => 3,
        Ended::ReadFault => 4,
        Ended::DiskFault => 6,
        Ended::NoPool => 7,
        Ended::Damaged { damage: _ } => 8,
        Ended::PoolExists => 9,
        Ended::TooLarge => 10,
        Ended::Missing => 11,
        Ended::OtherSize => 12,
        Ended::Played { text: _, good } => given_code(*good),
        Ended::Created { given } => given_code(*given),
    }
}

// Adds a number in decimal digits.
fn push_number(alloc: Global, out: &mut Vec<u8>, number: u64) -> Result<(), NoMemory>
    ensures { OnOk result (out.new.items ≡ out.old.items ++ decimal number) }
{
    let digits = number.to_string(alloc)?;
    out.extend_from_slice(digits.as_bytes())
}

// Adds bytes in lower-case hexadecimal digits.
fn push_hex(alloc: Global, out: &mut Vec<u8>, bytes: &[u8]) -> Result<(), NoMemory>
    ensures { OnOk result (out.new.items ≡ out.old.items ++ encode_lower bytes.now) }
{
    let digits = hex::encode(alloc, bytes)?;
    out.extend_from_slice(digits.as_bytes())
}

// Adds the word of a kind of damage.
fn push_kind(out: &mut Vec<u8>, kind: DamageKind) -> Result<(), NoMemory>
    ensures { OnOk result (out.new.items ≡ out.old.items ++ kind_text kind) }
{
    match kind {
        DamageKind::Geometry => out.extend_from_slice(b"geometry"),
        DamageKind::Chain => out.extend_from_slice(b"chain"),
        DamageKind::Digest => out.extend_from_slice(b"digest"),
        DamageKind::Catalogue => out.extend_from_slice(b"catalogue"),
        DamageKind::Worn => out.extend_from_slice(b"worn"),
        DamageKind::Birth => out.extend_from_slice(b"birth"),
        DamageKind::Epoch => out.extend_from_slice(b"epoch"),
        DamageKind::Log => out.extend_from_slice(b"log"),
        DamageKind::Record => out.extend_from_slice(b"record"),
        DamageKind::Reach => out.extend_from_slice(b"reach"),
        DamageKind::Owner => out.extend_from_slice(b"owner"),
        DamageKind::Block => out.extend_from_slice(b"block"),
        DamageKind::Tail => out.extend_from_slice(b"tail"),
        DamageKind::Count => out.extend_from_slice(b"count"),
        DamageKind::Region => out.extend_from_slice(b"region"),
        DamageKind::Map => out.extend_from_slice(b"map"),
        DamageKind::Charge => out.extend_from_slice(b"charge"),
    }
}

// Adds the place of a damage.
fn push_place(alloc: Global, out: &mut Vec<u8>, damage: &Damage) -> Result<(), NoMemory>
    ensures { OnOk result (out.new.items ≡ out.old.items ++ place_text damage.now) }
{
    push_number(alloc, out, u64::from(damage.device))?;
    out.extend_from_slice(b":")?;
    push_number(alloc, out, u64::from(damage.place))
}

// Adds the two values of a damage.
fn push_values(alloc: Global, out: &mut Vec<u8>, damage: &Damage) -> Result<(), NoMemory>
    ensures { OnOk result (out.new.items ≡ out.old.items ++ values_text damage.now) }
{
    out.extend_from_slice(b" kept ")?;
    push_hex(alloc, out, damage.kept.bytes())?;
    out.extend_from_slice(b" found ")?;
    push_hex(alloc, out, damage.found.bytes())
}

// The line that tells a damage.
fn damage_line(alloc: Global, damage: &Damage) -> Result<Vec<u8>, NoMemory>
    ensures { IfOk result (λ line. line.items ≡ line_of (damage_text damage.now)) }
{
    let mut line = Vec::new(alloc);
    line.extend_from_slice(b"damaged ")?;
    push_kind(&mut line, damage.kind)?;
    line.extend_from_slice(b" ")?;
    push_place(alloc, &mut line, damage)?;
    push_values(alloc, &mut line, damage)?;
    line.extend_from_slice(b"\n")?;
    Ok(line)
}

// A text, the pool's name, and the end of the line.
fn line_with_name(alloc: Global, text: &[u8], name: &[u8]) -> Result<Vec<u8>, NoMemory>
    ensures { IfOk result (λ line. line.items ≡ line_of (text.now ++ name.now)) }
{
    let mut line = Vec::new(alloc);
    line.extend_from_slice(text)?;
    line.extend_from_slice(name)?;
    line.extend_from_slice(b"\n")?;
    Ok(line)
}

// The line that names a bad line.
fn bad_line(alloc: Global, number: u64) -> Result<Vec<u8>, NoMemory>
    ensures { IfOk result (λ line. line.items ≡ line_of (codes "bad line " ++ decimal number)) }
{
    let mut line = Vec::new(alloc);
    line.extend_from_slice(b"bad line ")?;
    push_number(alloc, &mut line, number)?;
    line.extend_from_slice(b"\n")?;
    Ok(line)
}

/// The text of a run on a pool.
///
/// # Errors
/// Want of memory.
pub fn text_of(alloc: Global, name: &[u8], ended: Ended) -> Result<Vec<u8>, NoMemory>
    ensures { IfOk result (λ text. text.items ≡ text_of name.now ended) }
{
    match ended {
        Ended::Usage => line_with_name(alloc, b"usage", b""),
        Ended::BadLine { line } => bad_line(alloc, line),
        Ended::ReadFault => line_with_name(alloc, b"read fault", b""),
        Ended::DiskFault => line_with_name(alloc, b"disk fault ", name),
        Ended::NoPool => line_with_name(alloc, b"no pool ", name),
        Ended::Damaged { damage } => damage_line(alloc, &damage),
        Ended::PoolExists => line_with_name(alloc, b"pool exists ", name),
        Ended::TooLarge => line_with_name(alloc, b"script too large", b""),
        Ended::Missing => line_with_name(alloc, b"missing ", name),
        Ended::OtherSize => line_with_name(alloc, b"other size ", name),
        Ended::Played { text, good: _ } => Ok(text.into_vec()),
        Ended::Created { given: _ } => Ok(Vec::new(alloc)),
    }
}
