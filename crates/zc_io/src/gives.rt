// Which disk sets were given back to a shelf in memory, as proofs see them. It takes no memory.
ghost use Rattle.std.specs.Prelude.{◌≡◌, ◌++◌, [], ◌∷◌};

use std::snapshot::Snapshot;
use zc_num::Name;
use zc_tape::MemoryDisks;

// One disk set that was given back, and those before it.
#[derive(Drop)]
pub struct Given {
    before: Option<Snapshot<Given>>,
    name: Snapshot<Name>,
    disks: Snapshot<MemoryDisks>,
    ok: bool,
}

/// The disk sets that were given back. When the program runs, nothing of them is kept here.
#[derive(Drop)]
pub struct GivenBack {
    last: Option<Snapshot<Given>>,
}

impl GivenBack {
    ghost use Rattle.zc_io.specs.GivenBack.{gives_of, faults_given, gave_of};
    ghost use Rattle.std.specs.Prelude.{◌+◌};
    ghost use Rattle.zc_tape.specs.Memory.{faults_of};

    pub(crate) fn new() -> GivenBack
        ensures gives { gives_of result ≡ [] }
        ensures faults { faults_given result ≡ 0 }
    {
        GivenBack { last: None }
    }

    pub(crate) fn record(&mut self, name: &Name, disks: &MemoryDisks, ok: bool)
        ensures gives { gives_of self.new ≡ gives_of self.old ++ gave_of name.now disks.now ok ∷ [] }
        ensures faults { faults_given self.new ≡ faults_given self.old + faults_of disks.now }
    {
        let given = Given {
            before: self.last.take(),
            name: Snapshot::of(name),
            disks: Snapshot::of(disks),
            ok,
        };
        self.last = Some(Snapshot::of(&given));
    }
}
