// The program: makes a pool, or plays a script on one, over standard input, standard output and the files of the current folder.
#![tactic(auto)]

use std::alloc::Global;
use std::process::ExitCode;
use std::rt::Env;
use std::{env, io};
use zc_io::{FileShelf, StandardInput, StandardOutput};
use zc_prog::play;

// The words after the program's name.
fn words_of(rt: &(impl Env + Alloc<A = Global>)) -> io::Result<Vec<String>> {
    let mut words = env::args(rt)?;
    let _ = words.next();
    Ok(words.collect(rt.alloc())?)
}

fn main(rt: HostRuntime) -> ExitCode {
    let alloc = rt.alloc();
    let mut source = StandardInput::new(rt.reader());
    let mut sink = StandardOutput::new(io::writer(&rt));
    let mut shelf = FileShelf::new(alloc, rt);
    let words = match words_of(&rt) {
        Ok(words) => words,
        // Words that aren't text are none that the program knows.
        Err(error) if error.kind() == io::ErrorKind::InvalidData => Vec::new(alloc),
        Err(_) => return ExitCode::from(1),
    };
    ExitCode::from(play(alloc, &words, &mut source, &mut sink, &mut shelf).code)
}
