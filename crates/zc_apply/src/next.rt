// The changes of a group, made in a copy of the tree before.
ghost use Rattle.std.specs.Prelude.{◌≡◌, ◌<◌, ◌≤◌, true, IsTrue, IfOk, OnOk, length, count_by};
ghost use Rattle.zc_heart.specs.Changes.{is_made, left_after, first_of, changed, made_in};
ghost use Rattle.zc_apply.specs.InParts.{AreRising};

use crate::copying::copy_tree;
use crate::making::make_change;
use crate::rising::{are_rising, still_rise};
use std::alloc::Global;
use zc_blkptr::Ptr;
use zc_heart::{Change, Now};
use zc_num::NoMemory;
use zc_tree::Tree;

/// The tree of a group: the tree before, with the changes made in their order, each block that the group made at the next of the
/// pointers, under the group's number. `count_made` says how many pointers that takes.
///
/// # Errors
/// Want of memory, and a dataset or a file that is made under the last number of all, after which there is no next one.
pub fn next_tree(
    alloc: Global,
    tree: &Tree,
    group: u64,
    changes: &[Change],
    placed: &[Ptr],
) -> Result<Tree, NoMemory>
    requires { count_by is_made changes.now ≤ length placed.now }
    ensures { IfOk result (λ next. next ≡ record (made_in changes.now placed.now tree.now) { group = group }) }
{
    let mut next = copy_tree(alloc, tree)?;
    make_changes(alloc, &mut next, changes, placed)?;
    next.group = group;
    Ok(next)
}

/// How many blocks the changes make.
pub fn count_made(changes: &[Change]) -> usize
    ensures { result ≡ count_by is_made changes.now }
{
    changes.iter().filter(|change| is_made(change)).count()
}

// Whether the change puts bytes that the group made.
fn is_made(change: &Change) -> bool
    ensures { result ≡ is_made change.now }
{
    match change {
        Change::Put {
            now: Now::Made { .. },
            ..
        } => true,
        _ => false,
    }
}

// Makes the changes in their order.
fn make_changes(
    alloc: Global,
    tree: &mut Tree,
    changes: &[Change],
    placed: &[Ptr],
) -> Result<(), NoMemory>
    requires { count_by is_made changes.now ≤ length placed.now }
    ensures { OnOk result (tree.new ≡ made_in changes.now placed.now tree.old) }
{
    let mut rising = are_rising(tree.datasets.as_slice());
    let mut ptrs = placed;
    for change in changes {
        rising = make_next(alloc, tree, rising, change, ptrs)?;
        ptrs = left_after(change, ptrs);
    }
    Ok(())
}

// Makes the next change, and says whether the numbers of the files are known to rise now.
fn make_next(
    alloc: Global,
    tree: &mut Tree,
    rising: bool,
    change: &Change,
    ptrs: &[Ptr],
) -> Result<bool, NoMemory>
    requires known { IsTrue rising → AreRising tree.old.datasets }
    requires enough { is_made change.now ≡ true → 0 < length ptrs.now }
    ensures made { OnOk result (tree.new ≡ changed change.now (first_of ptrs.now) tree.old) }
    ensures still { IfOk result (λ rise. IsTrue rise → AreRising tree.new.datasets) }
{
    let rise = still_rise(rising, change, tree.datasets.as_slice());
    make_change(alloc, tree, rising, change, first_of(ptrs))?;
    Ok(rise)
}

// The first of the pointers. Where there is none it is one of nowhere, which no change takes.
fn first_of(ptrs: &[Ptr]) -> Ptr
    ensures { 0 < length ptrs.now → result ≡ first_of ptrs.now }
{
    match ptrs.first() {
        Some(ptr) => *ptr,
        None => Ptr {
            device: 0,
            place: 0,
            logical: 0,
            physical: 0,
            digest: [0; 16],
        },
    }
}

// The pointers that are left after the change.
fn left_after<'a>(change: &Change, ptrs: &'a [Ptr]) -> &'a [Ptr]
    ensures { result.now ≡ left_after change.now ptrs.now }
{
    if is_made(change) && !ptrs.is_empty() {
        &ptrs[1..]
    } else {
        ptrs
    }
}
