// What a census keeps of one place.
ghost use Rattle.std.specs.Prelude.{◌≡◌, ◌+◌, ◌^◌, ◌<◌};
ghost use Rattle.std.specs.Str.{bytes_eq};
ghost use Rattle.zc_damage.specs.Words.{when};
ghost use Rattle.zc_damage.specs.Checks.{differ};
ghost use Rattle.zc_damage.specs.Census.{first_with, other_with, with_pointer};

use zc_blkptr::Ptr;

// Which pointers are to a place, and whether the catalogue has it.
#[derive(Clone, Copy, Debug)]
pub struct PlaceUse {
    pub first: Option<Ptr>,
    // How many there are.
    pub pointers: u32,
    // The physical birth of the first that is of another block than the first of all.
    pub other: Option<u64>,
    pub in_catalogue: bool,
}

// The use of a place with one more pointer to it.
pub fn with_pointer(used: &PlaceUse, ptr: &Ptr) -> PlaceUse
    requires { used.now.pointers + 1 < 2 ^ 32 }
    ensures { result ≡ with_pointer used.now ptr.now }
{
    PlaceUse {
        first: first_with(&used.first, ptr),
        pointers: used.pointers + 1,
        other: other_with(&used.first, used.other, ptr),
        in_catalogue: used.in_catalogue,
    }
}

// The first pointer, which is this one where there was none.
fn first_with(first: &Option<Ptr>, ptr: &Ptr) -> Option<Ptr>
    ensures { result ≡ first_with first.now ptr.now }
{
    match first {
        None => Some(*ptr),
        Some(first) => Some(*first),
    }
}

// The birth that is known of another block, or this pointer's, if it is of another block than the first.
fn other_with(first: &Option<Ptr>, other: Option<u64>, ptr: &Ptr) -> Option<u64>
    ensures { result ≡ other_with first.now other ptr.now }
{
    match first {
        None => None,
        Some(first) => match other {
            None => other_birth(first, ptr),
            Some(birth) => Some(birth),
        },
    }
}

// The physical birth of a pointer that is of another block than the first.
fn other_birth(first: &Ptr, ptr: &Ptr) -> Option<u64>
    ensures { result ≡ when (differ first.now ptr.now) ptr.now.physical }
{
    if differ(first, ptr) {
        Some(ptr.physical)
    } else {
        None
    }
}

// Whether two pointers to one place are not of one block.
fn differ(first: &Ptr, ptr: &Ptr) -> bool
    ensures { result ≡ differ first.now ptr.now }
{
    let same = first.physical == ptr.physical && is_same(&first.digest, &ptr.digest);
    !same
}

// Whether two digests have the same bytes.
fn is_same(left: &[u8; 16], right: &[u8; 16]) -> bool
    ensures { result ≡ bytes_eq left.now right.now }
{
    left.as_slice() == right.as_slice()
}
