// Entries that are pushed two at a time.
ghost use Rattle.std.specs.Prelude.{◌≡◌, ◌+◌, ◌^◌, ◌<◌, [], ◌∷◌, ◌++◌, length, take, OnOk, OnErr};

use zc_num::{Listed, NoMemory};
use zc_plain::Entry;

/// Adds the two after the last.
///
/// # Errors
/// Want of memory; nothing has changed.
#[tactic(auto, using(crate::proofs::EntryLaws::two_after, crate::proofs::EntryLaws::front_of_more))]
pub fn push_two(history: &mut Listed<Entry>, first: Entry, second: Entry) -> Result<(), NoMemory>
    ensures ok { OnOk result (history.new ≡ history.old ++ first ∷ second ∷ []) }
    ensures err { OnErr result (history.new ≡ history.old) }
{
    let before = history.len();
    history.push(first)?;
    match history.push(second) {
        Err(fault) => {
            history.truncate(before);
            Err(fault)
        }
        Ok(()) => Ok(()),
    }
}

/// Puts the two in the places of the last two.
#[tactic(auto, using(crate::proofs::EntryLaws::two_set))]
pub fn set_two(history: &mut Listed<Entry>, place: usize, first: Entry, second: Entry)
    requires two { length history.old ≡ place + 2 }
    requires few { place < 2 ^ 62 }
    ensures { history.new ≡ take place history.old ++ first ∷ second ∷ [] }
{
    history.set(place, first);
    history.set(place + 1, second);
}
