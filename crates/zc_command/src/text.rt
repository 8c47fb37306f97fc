// The parts of which texts are made.
ghost use Rattle.std.specs.Prelude.{◌≡◌, ◌++◌, OnOk};
ghost use Rattle.std.specs.Fmt.{decimal};
ghost use Rattle.zc_command.specs.Texts.{bytes_text};

use std::alloc::Global;
use zc_num::NoMemory;

// Adds a number in decimal digits.
pub fn push_number(alloc: Global, out: &mut Vec<u8>, number: u64) -> Result<(), NoMemory>
    ensures { OnOk result (out.new.items ≡ out.old.items ++ decimal number) }
{
    let digits = number.to_string(alloc)?;
    out.extend_from_slice(digits.as_bytes())
}

// Adds the number of a device call in decimal digits. There are more of them than 64 bits count.
pub fn push_call(alloc: Global, out: &mut Vec<u8>, call: u128) -> Result<(), NoMemory>
    ensures { OnOk result (out.new.items ≡ out.old.items ++ decimal call) }
{
    let digits = call.to_string(alloc)?;
    out.extend_from_slice(digits.as_bytes())
}

// Adds bytes in lower-case hexadecimal digits, or `-` where there are none.
pub fn push_bytes(alloc: Global, out: &mut Vec<u8>, bytes: &[u8]) -> Result<(), NoMemory>
    ensures { OnOk result (out.new.items ≡ out.old.items ++ bytes_text bytes.now) }
{
    if bytes.is_empty() {
        return out.extend_from_slice(b"-");
    }
    let digits = hex::encode(alloc, bytes)?;
    out.extend_from_slice(digits.as_bytes())
}
