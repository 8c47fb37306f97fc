// A pool over a disk set, and what is told of it.
ghost use Rattle.std.specs.Prelude.{◌≡◌, ◌↔◌, [], false, is_some, IsTrue};
ghost use Rattle.zc_open.specs.Events.{waiting_of};

use zc_group::Root;
use zc_open::{Ack, OpenPool};
use zc_plain::Entry;
use zc_tape::DiskSet;

/// A pool over a disk set.
#[derive(Drop)]
pub struct Pool<D> {
    pub disks: D,
    /// The root that stands, unless a call failed.
    pub root: Root,
    pub kept: OpenPool,
}

impl<D: DiskSet> Pool<D> {
    /// All that was asked, answered, sealed and finished since the import, in order.
    pub fn history(&self) -> &[Entry]
        ensures { result.now ≡ self.now.kept.history }
    {
        self.kept.history.as_slice()
    }

    /// The commits that were answered Done, in order.
    pub fn acks(&self) -> &[Ack]
        ensures { result.now ≡ self.now.kept.acks }
    {
        self.kept.acks.as_slice()
    }

    /// The writes and syncs since the import began, as far as groups made them.
    pub fn calls(&self) -> u128
        ensures { result ≡ self.now.kept.calls }
    {
        self.kept.calls
    }

    /// Whether the session waits.
    pub fn waits(&self, session: u32) -> bool
        ensures { result ≡ is_some (waiting_of session self.now.kept.waits) }
    {
        self.kept.waits(session)
    }

    /// Whether no sealed group waits, and no change was answered since the last seal.
    pub fn settled(&self) -> bool
        ensures { IsTrue result ↔ (self.now.kept.jobs ≡ []) × (self.now.kept.changed ≡ false) }
    {
        self.kept.settled()
    }

    /// The group of the root that stands, unless a call failed.
    pub fn root_group(&self) -> u64
        ensures { result ≡ self.now.root.tree.group }
    {
        self.root.tree.group
    }

    /// The disk set. What is kept in memory goes.
    pub fn into_disks(self) -> D
        ensures { result ≡ self.disks }
    {
        self.disks
    }
}
