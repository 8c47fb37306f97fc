// The tree of a group: the tree before with the group's changes made in it.
//
// The changes are made one by one in a copy of the tree. Most are of one file. It is found by halves as long as the numbers of each
// dataset's files rise, as they do in every real tree; in any other tree all files of the dataset are looked at.
#![tactic(auto)]

mod copying;
mod making;
mod next;
mod rising;

pub use next::{count_made, next_tree};
