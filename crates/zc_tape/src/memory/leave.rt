// What a crash leaves of a disk set in memory.
ghost use Rattle.std.specs.Prelude.{◌≡◌, ◌+◌, ◌*◌, ◌^◌, ◌<◌, ◌≤◌, true, Bool, [], length, map, take, drop, slice_get, unwrap_or, if◌then◌else◌, IfOk};
ghost use Rattle.std.specs.List.{list_all};
ghost use Rattle.zc_tape.specs.declared.entry.Entry.{Entry};
ghost use Rattle.zc_tape.specs.declared.keep.Keep.TheVariants.{Old};
ghost use Rattle.zc_tape.specs.Blocks.{image, made_of, is_there};
ghost use Rattle.zc_tape.specs.Crash.{with_call, unsynced_at, Left};
ghost use Rattle.zc_tape.specs.LastSync.{writes_of, is_synced, IsLastSync};
ghost use Rattle.zc_tape.specs.Memory.{shape_of, faults_of, tape_of, failing_of, asked_of, half, keep_of, kept, left_by};

use super::MemoryDisks;
use crate::blocks::{copy_blocks, get_block, replay, set_block};
use crate::entry::Entry;
use crate::keep::Keep;
use std::alloc::Global;
use zc_num::NoMemory;

/// The entry is an Ok sync.
fn is_synced(entry: &Entry) -> bool
    ensures { result ≡ is_synced (made_of entry.now) }
{
    matches!(entry, Entry::Synced { ok: true })
}

/// How many entries stand up to the last Ok sync, after one more.
fn last_after(entry: &Entry, more: usize, last: usize) -> usize
    ensures { result ≡ (if is_synced (made_of entry.now) then more else last) }
{
    if is_synced(entry) { more } else { last }
}

#[tactic(auto, using(crate::proofs::Leave::last_sync_first, crate::proofs::Leave::last_sync_next))]
/// How many of the first `count` entries stand up to the last Ok sync among them.
fn last_sync(entries: &[Entry], count: usize) -> usize
    requires { count ≤ length entries.now }
    ensures { IsLastSync (map made_of entries.now) count result }
{
    let mut last = 0;
    for i in 0..count {
        last = last_after(&entries[i], i + 1, last);
    }
    last
}

/// The first 2,048 bytes of a new block, and the rest of an old one.
#[tactic(auto, unfolding(crate::specs::Memory::half))]
fn half_block(new: &[u8; 4096], old: &[u8; 4096]) -> [u8; 4096]
    ensures { result ≡ half new.now old.now }
{
    let mut block = *old;
    block[..2048].copy_from_slice(&new[..2048]);
    block
}

/// Puts as much of an entry's write into its place as is kept.
fn keep_entry(blocks: &mut [[u8; 4096]], devices: u32, places: u32, entry: &Entry, keep: Keep)
    requires whole { length blocks.old ≡ devices * places }
    requires there { is_there devices places entry.now ≡ true }
    ensures { image places blocks.new ≡ keep_of keep (image places blocks.old) (made_of entry.now).call }
{
    if let Entry::Wrote {
        device,
        place,
        bytes,
        ..
    } = entry
    {
        match keep {
            Keep::Old => {}
            Keep::New => set_block(blocks, devices, places, *device, *place, bytes),
            Keep::Half => {
                let half = half_block(bytes, get_block(blocks, devices, places, *device, *place));
                set_block(blocks, devices, places, *device, *place, &half);
            }
        }
    }
}

/// The choice for a write, by its number among the unsynced ones.
fn choice_for(choice: &[Keep], write: usize) -> Keep
    ensures { result ≡ unwrap_or (slice_get choice.now write) Old }
{
    choice.get(write).copied().unwrap_or(Keep::Old)
}

/// How many writes there are with one more entry.
fn writes_with(entry: &Entry, writes: usize) -> usize
    requires { writes + 1 < 2 ^ 64 }
    ensures count { result ≡ writes + length (with_call [] (made_of entry.now).call) }
    ensures bound { result ≤ writes + 1 }
{
    match entry {
        Entry::Wrote { .. } => writes + 1,
        Entry::Synced { .. } => writes,
    }
}

/// Puts as much of each write into its place as is kept, the first first.
#[tactic(auto, using(crate::proofs::Replay::there_at))]
fn keep_entries(
    blocks: &mut [[u8; 4096]],
    devices: u32,
    places: u32,
    entries: &[Entry],
    choice: &[Keep],
)
    requires whole { length blocks.old ≡ devices * places }
    requires there { list_all (is_there devices places) entries.now ≡ true }
    ensures { image places blocks.new ≡ kept (image places blocks.old) (writes_of (map made_of entries.now)) choice.now }
{
    let mut writes = 0;
    for entry in entries {
        keep_entry(blocks, devices, places, entry, choice_for(choice, writes));
        writes = writes_with(entry, writes);
    }
}

/// The entries after the first `from`, up to the first `to`.
fn between(entries: &[Entry], from: usize, to: usize) -> &[Entry]
    requires order { from ≤ to }
    requires within { to ≤ length entries.now }
    ensures value { result.now ≡ drop from (take to entries.now) }
    ensures pass { (test : Entry → Bool) → list_all test entries.now ≡ true → list_all test result.now ≡ true }
{
    let front = &entries[..to];
    &front[from..]
}

/// The entries after the last Ok sync, with the one that is under way in the moment.
fn unsynced_entries(entries: &[Entry], last: usize, moment: usize) -> &[Entry]
    requires order { last ≤ moment }
    requires within { moment ≤ length entries.now }
    ensures value { map made_of result.now ≡ drop last (take (moment + 1) (map made_of entries.now)) }
    ensures pass { (test : Entry → Bool) → list_all test entries.now ≡ true → list_all test result.now ≡ true }
{
    let end = (moment + 1).min(entries.len());
    between(entries, last, end)
}

/// How many writes there are among the entries.
fn count_writes(entries: &[Entry]) -> usize
    ensures { result ≡ length (writes_of (map made_of entries.now)) }
{
    let mut writes = 0;
    for entry in entries {
        writes = writes_with(entry, writes);
    }
    writes
}

impl MemoryDisks {
    /// How many writes a crash in a moment decides: those that no Ok sync has made durable, failed ones and the one
    /// under way among them. A moment past the last call is as the last one.
    pub fn unsynced(&self, moment: u64) -> u64
        ensures { result ≡ length (unsynced_at (tape_of self.now) moment) }
    {
        let calls = (moment as usize).min(self.entries.len());
        let last = last_sync(&self.entries, calls);
        count_writes(unsynced_entries(&self.entries, last, calls)) as u64
    }

    /// Makes the starting blocks those that a crash leaves in a moment.
    fn leave_in(&self, moment: usize, choice: &[Keep], blocks: &mut [[u8; 4096]])
        requires moment { moment ≤ length (tape_of self.now).calls }
        requires start { blocks.old ≡ self.now.start.items }
        ensures { image (shape_of self.now).places blocks.new ≡ left_by (tape_of self.now) moment choice.now }
    {
        let last = last_sync(&self.entries, moment);
        let synced = between(&self.entries, 0, last);
        replay(blocks, self.devices, self.places, synced);
        let unsynced = unsynced_entries(&self.entries, last, moment);
        keep_entries(blocks, self.devices, self.places, unsynced, choice);
    }

    /// The blocks that a crash leaves in a moment.
    fn left_blocks(&self, moment: usize, choice: &[Keep]) -> Result<Vec<[u8; 4096]>, NoMemory>
        requires { moment ≤ length (tape_of self.now).calls }
        ensures whole { IfOk result (λ v. length v.items ≡ (shape_of self.now).devices * (shape_of self.now).places) }
        ensures image { IfOk result (λ v. image (shape_of self.now).places v.items ≡ left_by (tape_of self.now) moment choice.now) }
    {
        let mut blocks = copy_blocks(*self.start.allocator(), &self.start)?;
        self.leave_in(moment, choice, &mut blocks);
        Ok(blocks)
    }

    /// A set with these bytes, an empty tape and no failing calls.
    fn of_blocks(
        devices: u32,
        places: u32,
        blocks: Vec<[u8; 4096]>,
    ) -> Result<MemoryDisks, NoMemory>
        requires { length blocks.items ≡ devices * places }
        ensures shape { IfOk result (λ m. shape_of m ≡ record { devices = devices; places = places }) }
        ensures tape { IfOk result (λ m. tape_of m ≡ record { told = true; start = image places blocks.items; calls = [] }) }
        ensures faults { IfOk result (λ m. faults_of m ≡ 0) }
        ensures asked { IfOk result (λ m. asked_of m ≡ 0) }
        ensures failing { IfOk result (λ m. failing_of m ≡ []) }
    {
        let alloc = *blocks.allocator();
        let current = copy_blocks(alloc, &blocks)?;
        Ok(MemoryDisks {
            devices,
            places,
            start: blocks,
            current,
            entries: Vec::new(alloc),
            failing: Vec::new(alloc),
            asked: 0,
            faults: 0,
        })
    }

    /// The set that a crash leaves in a moment: from the return of so many writes and syncs to the return of the next.
    ///
    /// Entry k of `choice` decides for the k-th of the moment's unsynced writes, counted from 0: failed ones, and the
    /// one under way, are among them. A write without an entry is not kept. The set left has an empty tape and no
    /// failing calls.
    ///
    /// # Errors
    /// Want of memory.
    pub fn leave(&self, moment: u64, choice: &[Keep]) -> Result<MemoryDisks, NoMemory>
        requires { moment ≤ length (tape_of self.now).calls }
        ensures image { IfOk result (λ m. (tape_of m).start ≡ left_by (tape_of self.now) moment choice.now) }
        ensures allowed { IfOk result (λ m. Left (tape_of self.now) moment (tape_of m).start) }
        ensures calls { IfOk result (λ m. (tape_of m).calls ≡ []) }
        ensures shape { IfOk result (λ m. shape_of m ≡ shape_of self.now) }
        ensures faults { IfOk result (λ m. faults_of m ≡ 0) }
        ensures asked { IfOk result (λ m. asked_of m ≡ 0) }
        ensures failing { IfOk result (λ m. failing_of m ≡ []) }
    {
        let blocks = self.left_blocks(moment as usize, choice)?;
        MemoryDisks::of_blocks(self.devices, self.places, blocks)
    }
}
