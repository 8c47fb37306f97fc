// Every pointer of a tree.
ghost use Rattle.std.specs.Prelude.{◌≡◌, ◌++◌, OnOk, IfOk};
ghost use Rattle.zc_tree.specs.Reach.{pointers_of_file, pointers_of_files, pointers_of_tree};

use crate::{File, Tree};
use std::alloc::Global;
use zc_blkptr::Ptr;
use zc_num::NoMemory;

impl Tree {
    /// Every pointer, with repeats: by dataset, then by file, then by block, each ascending.
    pub fn walk(&self, alloc: Global) -> Result<Vec<Ptr>, NoMemory>
        ensures { IfOk result (λ found. found.items ≡ pointers_of_tree self.now) }
    {
        let mut found = Vec::new(alloc);
        for dataset in self.datasets.as_slice() {
            walk_files(dataset.files.as_slice(), &mut found)?;
        }
        Ok(found)
    }
}

// Adds the pointers of the files.
fn walk_files(files: &[File], found: &mut Vec<Ptr>) -> Result<(), NoMemory>
    ensures { OnOk result (found.new.items ≡ found.old.items ++ pointers_of_files files.now) }
{
    for file in files {
        walk_file(file, found)?;
    }
    Ok(())
}

// Adds the pointers of a file.
fn walk_file(file: &File, found: &mut Vec<Ptr>) -> Result<(), NoMemory>
    ensures { OnOk result (found.new.items ≡ found.old.items ++ pointers_of_file file.now) }
{
    for (_, ptr) in file.slots.iter() {
        found.push(*ptr)?;
    }
    Ok(())
}
