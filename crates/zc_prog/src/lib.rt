// The top calls: a run of the program over any source, sink and shelf.
//
// A run of `play` goes in this order. The words are read. The source is read to its end; all that it held is the script, and the
// script is checked whole. The pool's disk set is taken from the shelf, and the pool is opened. The lines are played, a last commit
// ends the run, the disk set is handed back, and only then is the text written. Each of these steps is a module, generic over the
// outside; a program gives it standard input, standard output and files (zc_main), or all in memory (zc_rows).
#![tactic(auto)]

mod ended;
mod fault;
mod input;
mod making;
mod output;
mod playing;
mod pooled;
mod program;
mod session;
mod words;

pub use ended::Ended;
pub use fault::SessionFault;
pub use program::{Status, play};
pub use session::{Played, play_on};
pub use words::Task;
