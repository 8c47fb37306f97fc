// How a finished group is taken in.
ghost use Rattle.std.specs.Prelude.{◌≡◌, ◌^◌, ◌≤◌, ◌<◌, ℕ, drop, length, slice_get};
ghost use Rattle.zc_heart.specs.Changes.{Where};
ghost use Rattle.zc_heart.specs.Core.{IsCore};
ghost use Rattle.zc_heart.specs.Meaning.{placed_at, MayAbsorb, Absorbs};
ghost use Rattle.zc_heart.specs.Noted.{AreWhere, first_stamps};
ghost use Rattle.zc_heart.specs.Stamps.{files_at, AreKnown, StaysKnown};

use crate::changes::GroupDone;
use crate::pool_core::{Core, WaitingGroup};
use crate::stamps::{Stamp, Stamps};
use zc_blkptr::Ptr;
use zc_num::{Listed, Queue};

/// Takes in where the blocks of a finished group are. Takes no memory, and no file changes.
pub fn absorb(core: &mut Core, done: &GroupDone)
    requires core { IsCore core.old }
    requires group { MayAbsorb done.now core.old }
    requires held { done.now.held ≤ 2 ^ 62 }
    ensures core { IsCore core.new }
    ensures absorbs { Absorbs done.now core.old core.new }
{
    take_in(core, done);
}

// The first group that waits is taken off, and its blocks are where they were put.
fn take_in(core: &mut Core, done: &GroupDone)
    requires some { 0 < length core.old.waiting }
    requires placed { length done.now.placed ≡ length (first_stamps core.old.waiting) }
    ensures rest { core.new ≡ record core.old { waiting = drop 1 core.old.waiting; held = done.now.held; stamps = core.new.stamps } }
    ensures files { (stamp : ℕ × ℕ) → files_at core.new.stamps stamp ≡ files_at core.old.stamps stamp }
    ensures places { (placing : Where) → AreWhere placing core.old.stamps → placed_at placing (first_stamps core.old.waiting) ≡ done.now.placed → AreWhere placing core.new.stamps }
    ensures known { AreKnown core.old.stamps core.new.stamps (first_stamps core.old.waiting) }
    ensures stays_known { StaysKnown core.old.stamps core.new.stamps }
{
    let first = take_first(&mut core.waiting);
    place_all(&mut core.stamps, first.as_slice(), done.placed.as_slice());
    core.held = done.held;
}

// The stamps of the first group that waits, which is taken off.
fn take_first(waiting: &mut Queue<WaitingGroup>) -> Listed<Stamp>
    requires { 0 < length waiting.old }
    ensures first { result ≡ first_stamps waiting.old }
    ensures rest { waiting.new ≡ drop 1 waiting.old }
{
    match waiting.take_first() {
        Some(waits) => waits.stamps,
        None => unreachable!(),
    }
}

// The blocks with these stamps are where the pointers say.
fn place_all(stamps: &mut Stamps, list: &[Stamp], placed: &[Ptr])
    requires { length placed.now ≡ length list.now }
    ensures files { (stamp : ℕ × ℕ) → files_at stamps.new stamp ≡ files_at stamps.old stamp }
    ensures places { (placing : Where) → AreWhere placing stamps.old → placed_at placing list.now ≡ placed.now → AreWhere placing stamps.new }
    ensures known { AreKnown stamps.old stamps.new list.now }
    ensures stays_known { StaysKnown stamps.old stamps.new }
{
    for k in 0..list.len() {
        stamps.place(list[k], placed[k]);
    }
}
