// A group that was sealed goes to the disks.
//
// The heart seals a group and hands out its changes, with the bytes of the blocks that it made. Whoever writes it puts these blocks at
// places that nobody owns, makes the changes in the tree of the root with pointers to them, and commits that tree. So at each moment
// the disks hold what they held before the group, or what the group leads to, and once all calls were Ok that alone.
//
// Contracts speak of the plain pools that the disks hold before and after the group, and never of the files one by one.
#![tactic(auto)]

mod placing;
mod writing;

pub use writing::write_job;
