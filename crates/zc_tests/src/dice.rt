// Commands that look random, by a rule of arithmetic.
ghost use Rattle.std.specs.Prelude.{◌<◌, ◌^◌};

use super::asking::Step;
use std::alloc::Global;
use zc_num::NoMemory;

/// Numbers that look random.
#[derive(Drop)]
pub struct Dice {
    pub state: u64,
}

impl Dice {
    /// The next number, below so many.
    pub fn below(&mut self, count: u64) -> u64
        ensures below { 0 < count → result < count }
        ensures few { result < 2 ^ 23 }
    {
        self.state = (self.state % 2147483648 * 1103515245 + 12345) % 2147483648;
        if count == 0 {
            return 0;
        }
        self.state / 256 % count
    }

    /// One of three names, or now and then one that is too long.
    pub fn name(&mut self) -> &'static [u8] {
        match self.below(120) {
            0 => b"a-name-of-sixty-five-bytes-a-name-of-sixty-five-bytes-a-name-of-6",
            n if n < 40 => b"a",
            n if n < 80 => b"b",
            _ => b"c.0",
        }
    }

    /// A place in a file: most often in its first blocks, and often at the border of a block.
    pub fn place(&mut self, reach: u64) -> u64 {
        let near = self.below(reach % 1000 + 1) * 4096;
        match self.below(3) {
            0 => near,
            1 => near + self.below(4096),
            _ => near + self.below(3),
        }
    }

    /// So many bytes.
    pub fn bytes(&mut self, alloc: Global, count: u64) -> Result<Vec<u8>, NoMemory> {
        let mut bytes = Vec::new(alloc);
        let mut byte = self.below(251) as u8;
        for _ in 0..count {
            byte = byte % 251 + 1;
            bytes.push(byte)?;
        }
        Ok(bytes)
    }

    /// A command of the kind with the number.
    pub fn step(&mut self, kind: u64, reach: u64) -> Step<'static> {
        let dataset = self.name();
        let file = self.name();
        let offset = self.place(reach);
        let length = self.place(reach / 3);
        let byte = self.below(256) as u8;
        match kind {
            0 | 1 => Step::Mkds(dataset),
            2 => Step::Rmds(dataset),
            3..=6 => Step::Create(dataset, file),
            7 => Step::Remove(dataset, file),
            8..=14 => Step::Fill(dataset, file, offset, length, byte),
            15..=24 => Step::Truncate(dataset, file, offset),
            25..=36 => Step::Read(dataset, file, offset, length),
            37..=40 => Step::Stat(dataset, file),
            _ => Step::Commit,
        }
    }
}
