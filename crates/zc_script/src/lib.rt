// The script: the grammar of its lines both ways, and the texts of what answers it.
//
// A script is read whole before anything of it is done: each line is ignored, or asks for one act, or says whose the following
// lines are, or is bad, and the first bad line refuses the script by its number. A line's first word says its form, and the form
// says of what kinds the words after it are; the forms are one table, in specs/Forms.antt and in forms.rt, and a line more is a
// row more in both. Whether a line is in the grammar doesn't depend on the pools of the run: a line of a pool that isn't there is
// read as that.
//
// The grammar is stated twice: as a function on a line's words, which the code follows, and as the spellings of what a line says
// (`Spells`), and laws in proofs/ join the two. So each line has one meaning, and what is printed is read back.
#![tactic(auto)]

mod act;
mod forms;
mod paths;
mod pieces;
mod pools;
mod printing;
mod script;
mod words;

pub use act::{Act, Line, Said};
pub use forms::said_of;
pub use pools::{is_pool_name, pool_at};
pub use printing::{print_line, print_no_pool, print_reply, print_session};
pub use script::{Script, ScriptFault, read_script};
pub use words::number_of;
