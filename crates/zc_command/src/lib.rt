// What a pool is asked, and what answers it.
//
// A command names a dataset and mostly a file; a reply says what was done, or why it was refused. These types are the
// ones that definitions speak of: a clause sees a name and written bytes as lists of bytes, so that a whole command
// or reply is compared at once. A reply has one text, and a refusal one number, that of the system's errors.
//
// Each command has conditions, which whoever makes it meets: its names consist of name bytes, and its numbers are
// at most 2^62. The length of a name is no condition but a cause of a refusal, so a name here has any length.
#![tactic(auto)]

mod command;
mod name;
mod refusal;
mod reply;
mod text;

pub use command::Command;
pub use name::{MOST_NAME, are_name_bytes, has_name_bytes, is_name, is_name_byte};
pub use refusal::{Bad, Part, Refusal, What, Why};
pub use reply::Reply;
