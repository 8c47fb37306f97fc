// How the first group that waits is taken in once it is written.
ghost use Rattle.std.specs.Prelude.{◌≡◌, ◌<◌, ◌≤◌, ◌+◌, ◌^◌, OnOk, OnErr, length};
ghost use Rattle.zc_heart.specs.Meaning.{MayAbsorb};
ghost use Rattle.zc_open.specs.Events.{Notes, forgotten, FinishesNoted, failed_after};

use crate::OpenPool;
use zc_heart::GroupDone;
use zc_num::NoMemory;
use zc_plain::Entry;

impl OpenPool {
    /// Writes the finish of the first job into the history, before the job is done, so that nothing after it takes memory.
    ///
    /// # Errors
    /// Want of memory; nothing has changed.
    pub fn note_finish(&mut self) -> Result<(), NoMemory>
        requires some { 0 < length self.old.jobs }
        ensures ok { OnOk result (Notes self.old self.new) }
        ensures err { OnErr result (self.new ≡ self.old) }
    {
        let job = self.jobs.at(0);
        let finish = Entry::Finish {
            group: job.group,
            held: job.held,
        };
        self.history.push(finish)
    }

    /// Takes the last entry out of the history.
    pub fn forget_finish(&mut self)
        requires some { 0 < length self.old.history }
        ensures { self.new ≡ forgotten self.old }
    {
        self.history.truncate(self.history.len() - 1);
    }

    /// So many calls were made for the first job, and the last of them failed.
    pub fn fail(&mut self, made: u64)
        requires width { self.old.calls + made < 2 ^ 128 }
        ensures { self.new ≡ failed_after self.old made }
    {
        self.calls += u128::from(made);
        self.failed = Some(self.calls);
    }

    /// The first job is done, whose finish stands in the history: so many calls were made for it.
    pub fn finish(&mut self, made: u64, done: &GroupDone)
        requires some { 0 < length self.old.jobs }
        requires may { MayAbsorb done.now self.old.heart }
        requires held { done.now.held ≤ 2 ^ 62 }
        requires width { self.old.calls + made < 2 ^ 128 }
        ensures { FinishesNoted self.old self.new made done.now }
    {
        self.heart.absorb(done);
        match self.jobs.take_first() {
            Some(job) => self.group = job.group,
            None => unreachable!(),
        }
        self.calls += u128::from(made);
    }
}
