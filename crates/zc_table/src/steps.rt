// A counter of steps.
ghost use Rattle.std.specs.Prelude.{◌≡◌, ◌+◌, ◌<◌};

use std::marker::Model;
use std::sync::ledger::{Blank, Book, Ledger, Share};

/// How many steps were taken. It has no bytes, and nothing but `tick` changes it.
#[derive(Drop)]
pub struct Steps<L: Ledger> {
    taken: Book<L>,
    own: Share<L>,
}

impl<L: Ledger> Model for Steps<L> {
    ghost use Rattle.std.specs.Prelude.{ℕ, ◌<◌};

    ghost Value = { ℕ };

    ghost view = { λ steps. steps.taken.total };

    ghost invariant = { λ steps. 0 < steps.own.parts };
}

impl<L: Ledger> Steps<L> {
    /// A counter at 0.
    ///
    /// A caller that has none makes one for a callee over `L`: it calls it at `Brand` with `Blank::new(1)`.
    pub fn new(blank: Blank) -> Steps<L>
        requires name { blank.name ≡ L.name }
        requires parts { blank.parts ≡ L.parts }
        requires some { 0 < blank.parts }
        ensures { result ≡ 0 }
    {
        let (taken, own) = blank.open::<L>();
        Steps { taken, own }
    }

    /// Takes one more step.
    pub fn tick(&mut self)
        ensures { self.new ≡ self.old + 1 }
    {
        self.taken.add(&mut self.own, 1);
    }
}
