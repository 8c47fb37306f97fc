// Long scripts by a rule of arithmetic, played on a heart and on a plain pool.

use super::asking::Step;
use super::both::{Both, absorb, ask, empty, seal};
use super::dice::Dice;
use std::process::Abort;
use std::test::Fail;

// A write of some bytes.
fn write(
    rt: &(impl Abort + AllocGlobal),
    both: &mut Both,
    dice: &mut Dice,
    reach: u64,
) -> Result<(), Fail> {
    let dataset = dice.name();
    let file = dice.name();
    let offset = dice.place(reach);
    let most = dice.place(reach / 3) % 20000 + 1;
    let count = dice.below(most);
    let bytes = dice.bytes(rt.alloc(), count)?;
    ask(rt, both, Step::Write(dataset, file, offset, &bytes))
}

// One step of the script.
fn play_step(
    rt: &(impl Abort + AllocGlobal),
    both: &mut Both,
    dice: &mut Dice,
    reach: u64,
) -> Result<(), Fail> {
    match dice.below(64) {
        kind if kind < 42 => ask(rt, both, dice.step(kind, reach)),
        42 => seal(rt, both),
        43 => Ok(absorb(rt, both)?),
        _ => write(rt, both, dice, reach),
    }
}

// The size and the first bytes of the file, if there is one.
fn look_at(
    rt: &(impl Abort + AllocGlobal),
    both: &mut Both,
    dataset: &[u8],
    file: &[u8],
) -> Result<(), Fail> {
    ask(rt, both, Step::Stat(dataset, file))?;
    ask(rt, both, Step::Read(dataset, file, 0, 65536))?;
    ask(rt, both, Step::Read(dataset, file, 65536, 65536))
}

// The same of each file that there may be.
fn look(rt: &(impl Abort + AllocGlobal), both: &mut Both) -> Result<(), Fail> {
    let names: [&[u8]; 3] = [b"a", b"b", b"c.0"];
    for dataset in &names {
        for file in &names {
            look_at(rt, both, dataset, file)?;
        }
    }
    Ok(())
}

// Sixty steps, and a look at all files.
fn play_round(
    rt: &(impl Abort + AllocGlobal),
    both: &mut Both,
    dice: &mut Dice,
    reach: u64,
) -> Result<(), Fail> {
    for _ in 0..60 {
        play_step(rt, both, dice, reach)?;
    }
    look(rt, both)
}

// Three datasets of two files.
fn make_files(rt: &(impl Abort + AllocGlobal), both: &mut Both) -> Result<(), Fail> {
    for name in [b"a".as_slice(), b"b".as_slice(), b"c.0".as_slice()] {
        ask(rt, both, Step::Mkds(name))?;
        ask(rt, both, Step::Create(name, b"a"))?;
        ask(rt, both, Step::Create(name, b"b"))?;
    }
    Ok(())
}

// A script of so many rounds, in files of about so many blocks.
fn play_script(
    rt: &(impl Abort + AllocGlobal),
    seed: u64,
    rounds: u64,
    reach: u64,
) -> Result<(), Fail> {
    let mut both = empty(rt.alloc())?;
    let mut dice = Dice { state: seed };
    make_files(rt, &mut both)?;
    for _ in 0..rounds {
        play_round(rt, &mut both, &mut dice, reach)?;
    }
    seal(rt, &mut both)?;
    look(rt, &mut both)
}

#[test]
fn files_of_a_few_blocks(rt: HostRuntime) -> Result<(), Fail> {
    play_script(&rt, 77, 15, 17)
}

#[test]
fn files_at_the_limits(rt: HostRuntime) -> Result<(), Fail> {
    play_script(&rt, 4242, 8, 514)
}
