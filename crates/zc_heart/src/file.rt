// A file: its blocks by their numbers, and what the open group did to it.
ghost use Rattle.std.specs.Prelude.{◌≡◌, ◌≢◌, ◌+◌, ◌<◌, ◌≤◌, ◌^◌, ◌==◌, Some, None, IsSome, IsTrue, OnOk, false, true, ℕ, Bool};
ghost use Rattle.zc_num.specs.Ordered.{Ascends, value_at, insert_entry, remove_entry};
ghost use Rattle.zc_plain.specs.declared.plain_pool.PlainBlock.TheVariants.{Hole, Made as MadeBlock};
ghost use Rattle.zc_plain.specs.PlainPool.{is_made as is_held, blocks_of_size, zeros, bytes_of_block};
ghost use Rattle.zc_heart.specs.Core.{plain_block, is_made, IsHeartFile};
ghost use Rattle.zc_heart.specs.File.{Marks, CountsChange, Counts};
ghost use Rattle.zc_heart.specs.Stamps.{files_at, has_room};
ghost use Rattle.zc_heart.specs.Steps.{held_at, HasRoom, HasMarkRoom, KeepsAll, Sets, AreUnused, with_size, hole_mark};

use crate::block::Block;
use crate::stamps::{Stamp, Stamps};
use zc_num::{BLOCK, NoMemory, Ordered};

/// A block that a file holds, with the stamp of the command that made it.
#[derive(Drop)]
pub struct HeldBlock {
    pub entry: u64,
    pub index: u64,
    pub bytes: Block,
}

/// What the open group did to a block of a file.
#[derive(Clone, Copy, PartialEq, Eq, Debug)]
pub enum Mark {
    /// Nothing: there is room for a mark.
    Room,
    /// It made a hole of it, and never made its bytes.
    Holed,
    /// It made its bytes, which may be gone again.
    Made,
}

/// A file's blocks, and what the open group did to them.
#[derive(Drop)]
pub struct HeartFile {
    /// In bytes.
    pub size: u64,
    /// The blocks by their numbers. A number without an entry is a hole, and one with `None` is a hole that has room for a block.
    pub blocks: Ordered<Option<HeldBlock>>,
    /// The blocks that the open group touched, by their numbers.
    pub marks: Ordered<Mark>,
    /// How many of the blocks are no holes.
    pub pointers: u64,
    /// The open group set the size.
    pub sized: bool,
}

/// 4,096 bytes 0.
#[tactic(auto, unfolding(zc_plain::specs::PlainPool::zeros))]
pub fn zeros() -> [u8; BLOCK]
    ensures { result ≡ zeros }
{
    [0; BLOCK]
}

impl HeartFile {
    /// Whether there is a block with the number that is no hole.
    pub fn is_held(&self, index: u32) -> bool
        ensures { result ≡ is_held (held_at index self.now) }
    {
        matches!(self.blocks.get(index), Some(Some(_)))
    }

    /// Whether the open group made the block with the number.
    pub fn is_made(&self, index: u32) -> bool
        ensures { result ≡ is_made index self.now }
    {
        matches!(self.marks.get(index), Some(Mark::Made))
    }

    /// The bytes of the block with the number.
    pub fn block_bytes(&self, index: u32) -> [u8; BLOCK]
        ensures { result ≡ bytes_of_block (held_at index self.now) }
    {
        match self.blocks.get(index) {
            Some(Some(held)) => *held.bytes.bytes(),
            _ => zeros(),
        }
    }

    /// Makes room for the block with the number and its mark.
    ///
    /// # Errors
    /// Want of memory.
    pub fn make_room(&mut self, index: u32) -> Result<(), NoMemory>
        ensures kept { KeepsAll self.old self.new }
        ensures room { OnOk result (HasRoom index self.new) }
    {
        self.make_block_room(index)?;
        self.make_mark_room(index)
    }

    // Makes room for the block with the number.
    fn make_block_room(&mut self, index: u32) -> Result<(), NoMemory>
        ensures kept { KeepsAll self.old self.new }
        ensures room { OnOk result (IsSome (value_at index self.new.blocks)) }
    {
        if self.blocks.contains(index) {
            return Ok(());
        }
        self.blocks.insert(index, None)?;
        Ok(())
    }

    /// Makes room for the mark of the block with the number.
    ///
    /// # Errors
    /// Want of memory.
    pub fn make_mark_room(&mut self, index: u32) -> Result<(), NoMemory>
        ensures kept { KeepsAll self.old self.new }
        ensures room { OnOk result (IsSome (value_at index self.new.marks)) }
    {
        if self.marks.contains(index) {
            return Ok(());
        }
        self.marks.insert(index, Mark::Room)?;
        Ok(())
    }

    /// Makes room for the mark of the block with the number, where that is no hole.
    ///
    /// # Errors
    /// Want of memory.
    pub fn make_held_room(&mut self, index: u32) -> Result<(), NoMemory>
        ensures kept { KeepsAll self.old self.new }
        ensures room { OnOk result (HasMarkRoom index self.new) }
    {
        if self.is_held(index) {
            self.make_mark_room(index)?;
        }
        Ok(())
    }

    /// Puts the bytes at the block with the number, as those of the command, which makes them now. Takes no memory.
    pub fn put_block(&mut self, stamps: &mut Stamps, number: u64, index: u32, bytes: Block)
        requires heart { IsHeartFile self.old }
        requires short { self.old.size < 2 ^ 64 }
        requires within { index < blocks_of_size self.old.size }
        requires room { HasRoom index self.old }
        requires stamp { IsTrue (has_room stamps.old (number, index)) }
        requires counted { Counts stamps.old self.old }
        requires fresh { AreUnused number (index + 1) stamps.old }
        ensures heart { IsHeartFile self.new }
        ensures block { Sets index (MadeBlock number index bytes) self.old self.new }
        ensures marks { Marks (λ k. k == index) self.old self.new }
        ensures counts { CountsChange stamps.old stamps.new self.old self.new }
        ensures fresh { AreUnused number index stamps.new }
        ensures rooms { (k : ℕ) → k < index → IsTrue (has_room stamps.old (number, k)) → IsTrue (has_room stamps.new (number, k)) }
    {
        let at = u64::from(index);
        let held = HeldBlock {
            entry: number,
            index: at,
            bytes,
        };
        stamps.join(Stamp {
            entry: number,
            index: at,
        });
        match self.replace_block(index, held) {
            Some(before) => stamps.leave(Stamp {
                entry: before.entry,
                index: before.index,
            }),
            None => self.pointers += 1,
        }
    }

    // Puts the block in the place of the one with the number, and marks it as made.
    fn replace_block(&mut self, index: u32, held: HeldBlock) -> Option<HeldBlock>
        requires { HasRoom index self.old }
        ensures before { value_at index self.old.blocks ≡ Some result }
        ensures file { self.new ≡ record self.old { blocks = insert_entry index (Some held) self.old.blocks; marks = insert_entry index Mark.Made self.old.marks } }
    {
        self.marks.replace(index, Mark::Made);
        self.blocks.replace(index, Some(held))
    }

    /// Makes the block with the number a hole. Takes no memory.
    pub fn drop_block(&mut self, stamps: &mut Stamps, index: u32)
        requires heart { IsHeartFile self.old }
        requires within { index < blocks_of_size self.old.size }
        requires room { HasMarkRoom index self.old }
        requires counted { Counts stamps.old self.old }
        ensures heart { IsHeartFile self.new }
        ensures block { Sets index Hole self.old self.new }
        ensures marks { Marks (λ _. false) self.old self.new }
        ensures counts { CountsChange stamps.old stamps.new self.old self.new }
        ensures rooms { (number : ℕ) → ((k : ℕ) → files_at stamps.old (number, k) ≡ 0) → (k : ℕ) → IsTrue (has_room stamps.old (number, k)) → IsTrue (has_room stamps.new (number, k)) }
    {
        match self.take_block(index) {
            Some(held) => {
                self.mark_hole(index);
                self.pointers -= 1;
                stamps.leave(Stamp {
                    entry: held.entry,
                    index: held.index,
                });
            }
            None => {}
        }
    }

    // Takes the block with the number out, where it is no hole.
    fn take_block(&mut self, index: u32) -> Option<HeldBlock>
        ensures before { held_at index self.old ≡ plain_block (Some result) }
        ensures file { self.new ≡ record self.old { blocks = remove_entry index self.old.blocks } }
        ensures ascending { Ascends self.old.blocks }
    {
        // The number of entries says that they ascend.
        let _count = self.blocks.len();
        match self.blocks.remove(index) {
            Some(Some(held)) => Some(held),
            _ => None,
        }
    }

    // Marks the block with the number as a hole, where the open group didn't make it.
    fn mark_hole(&mut self, index: u32)
        requires { IsSome (value_at index self.old.marks) }
        ensures { self.new ≡ record self.old { marks = insert_entry index (hole_mark (value_at index self.old.marks)) self.old.marks } }
    {
        let mark = self.hole_mark(index);
        self.marks.replace(index, mark);
    }

    // The mark of a block that becomes a hole.
    fn hole_mark(&self, index: u32) -> Mark
        ensures { result ≡ hole_mark (value_at index self.now.marks) }
    {
        match self.marks.get(index) {
            Some(Mark::Made) => Mark::Made,
            _ => Mark::Holed,
        }
    }

    /// Gives the file the size, where no block stands after it. Takes no memory.
    pub fn set_size(&mut self, size: u64)
        ensures { self.new ≡ with_size size self.old }
    {
        if size != self.size {
            self.sized = true;
        }
        self.size = size;
    }
}
