// A heart and a plain pool that are asked the same.
ghost use Rattle.std.specs.Prelude.{◌≡◌, [], IsTrue};
ghost use Rattle.zc_plain.specs.History.{MeetsConditions};

use super::asking::{Step, command_of, meets};
use super::same::count_pool;
use std::alloc::Global;
use std::process::Abort;
use std::test::Fail;
use zc_apply::{count_made, next_tree};
use zc_blkptr::Ptr;
use zc_command::{Command, Reply};
use zc_heart::{Change, GroupDone, Heart};
use zc_num::{Limits, Listed, NoMemory, Queue};
use zc_plain::{Entry, Plain};
use zc_tree::Tree;

/// A heart and a plain pool, and the tree of the heart's last seal.
#[derive(Drop)]
pub struct Both {
    pub heart: Heart,
    pub plain: Plain,
    pub tree: Tree,
    /// The sealed groups that the heart didn't take in, in order.
    pub waiting: Queue<GroupDone>,
    /// The place that the last block took.
    place: u32,
}

// A tree without datasets.
fn empty_tree(alloc: Global) -> Tree
    ensures { result ≡ record { group = 6; next_dataset = 1; datasets = [] } }
{
    Tree {
        group: 6,
        next_dataset: 1,
        datasets: Listed::new(alloc),
    }
}

// The heart of that tree.
#[tactic(auto, using(zc_heart::proofs::OpenableTrees::bare_may_open))]
fn empty_heart(alloc: Global, limits: Limits) -> Result<Heart, NoMemory> {
    let tree = empty_tree(alloc);
    Heart::open(alloc, limits, &tree, Vec::new(alloc))
}

/// An empty pool of 1,024 places.
pub fn empty(alloc: Global) -> Result<Both, Fail> {
    let limits = Limits::of(1, 1024).ok_or("limits")?;
    Ok(Both {
        heart: empty_heart(alloc, limits)?,
        plain: Plain::start(alloc, limits),
        tree: empty_tree(alloc),
        waiting: Queue::new(alloc),
        place: 67,
    })
}

// The heart's reply, where the command may be given.
fn reply_of(heart: &mut Heart, number: u64, command: &Command) -> Option<Reply> {
    if meets(command) && heart.has_numbers() && heart.last() < number {
        heart.command(number, command).ok()
    } else {
        None
    }
}

// Whether the entry meets its conditions.
fn is_allowed(entry: &Entry) -> bool
    ensures { IsTrue result → MeetsConditions entry.now }
{
    match entry {
        Entry::Ask { command, .. } => meets(command),
        Entry::Answer { .. } | Entry::Seal { .. } => true,
        Entry::Finish { held, .. } => *held <= 1 << 62,
    }
}

// One more entry of the plain pool, and its reply if it has one.
fn enter(plain: &mut Plain, entry: &Entry) -> Result<Option<Reply>, NoMemory> {
    if is_allowed(entry) && plain.entries() < 1 << 62 {
        plain.apply(entry)
    } else {
        Err(NoMemory)
    }
}

/// Asks both, and compares what they reply. The heart says of a commit that it was done.
pub fn ask(rt: &(impl Abort + AllocGlobal), both: &mut Both, step: Step) -> Result<(), Fail> {
    let command = command_of(rt.alloc(), step)?;
    let number = both.plain.entries().saturating_add(1);
    let reply = reply_of(&mut both.heart, number, &command).ok_or("no reply of the heart")?;
    let entry = Entry::Ask {
        session: 3,
        command,
    };
    let wanted = enter(&mut both.plain, &entry)?.unwrap_or(Reply::Done);
    assert!(rt; reply == wanted);
    Ok(())
}

// Pointers to the next places, so many.
fn place_next(
    alloc: Global,
    place: &mut u32,
    group: u64,
    count: usize,
) -> Result<Listed<Ptr>, NoMemory> {
    let mut placed = Listed::new(alloc);
    for _ in 0..count {
        *place = *place % 1_000_000 + 1;
        placed.push(Ptr {
            device: 0,
            place: *place,
            logical: group,
            physical: group,
            digest: [0; 16],
        })?;
    }
    Ok(placed)
}

// The tree with the changes made, where there are pointers for all blocks.
fn behind(
    alloc: Global,
    tree: &Tree,
    group: u64,
    changes: &[Change],
    placed: &[Ptr],
) -> Option<Tree> {
    if placed.len() < count_made(changes) {
        return None;
    }
    next_tree(alloc, tree, group, changes, placed).ok()
}

/// Seals the open group, makes its changes in the tree of the last seal, and compares the tree with the plain pool.
pub fn seal(rt: &(impl Abort + AllocGlobal), both: &mut Both) -> Result<(), Fail> {
    if !both.heart.has_numbers() {
        return Err("no number is left")?;
    }
    let sealed = both.heart.seal()?;
    let count = count_made(sealed.changes.as_slice());
    let placed = place_next(rt.alloc(), &mut both.place, sealed.group, count)?;
    let changes = sealed.changes.as_slice();
    both.tree = behind(
        rt.alloc(),
        &both.tree,
        sealed.group,
        changes,
        placed.as_slice(),
    )
    .ok_or("no next tree")?;
    enter(
        &mut both.plain,
        &Entry::Seal {
            group: sealed.group,
        },
    )?;
    assert!(rt; count_pool(both.plain.pool(), &both.tree) == Some(sealed.held));
    both.waiting.push(GroupDone {
        group: sealed.group,
        held: sealed.held,
        placed,
    })?;
    Ok(())
}

/// Takes the first group in that waits, if there is one.
pub fn absorb(rt: &impl Abort, both: &mut Both) -> Result<(), NoMemory> {
    match both.waiting.take_first() {
        None => Ok(()),
        Some(done) => {
            assert!(rt; both.heart.may_absorb(&done));
            both.heart.absorb(&done);
            let entry = Entry::Finish {
                group: done.group,
                held: done.held,
            };
            enter(&mut both.plain, &entry)?;
            Ok(())
        }
    }
}
