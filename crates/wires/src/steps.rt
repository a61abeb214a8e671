//! A counter of steps that contracts see and the machine doesn't have. A bound on the steps of a function speaks of a
//! counter that it is lent, and the function calls `tick` at each step.
ghost use Rattle.std.specs.Prelude.{◌≡◌, ℕ, ◌+◌};
ghost use Rattle.std.specs.Borrow.{ftrue};

use std::marker::{Model, PhantomData};
use std::sync::ledger::Ledger;

/// The ledger of work: what a function counts that takes a counter and leaves the choice of its ledger to the caller.
#[derive(Drop)]
pub struct Work;

impl Ledger for Work {
    ghost name = { 0 };

    ghost parts = { 0 };
}

/// A number that proofs alone know.
#[derive(Drop)]
struct Tally {
    pub ghost count: { ℕ },
}

impl Model for Tally {
    ghost also_owns = { λ _. ftrue };
}

impl Tally {
    /// It stands at 0.
    fn new() -> Tally
        ensures { result.count ≡ 0 }
    {
        Tally {}
    }

    /// It stands one further.
    fn next(before: &Tally) -> Tally
        ensures { result.count ≡ before.now.count + 1 }
    {
        Tally {}
    }
}

/// How many steps were counted. It takes no bytes, only `tick` changes it, and contracts see it as a natural number.
#[derive(Drop)]
pub struct Steps<L: Ledger> {
    of: PhantomData<L>,
    tally: Tally,
}

impl<L: Ledger> Model for Steps<L> {
    ghost use Rattle.std.specs.Prelude.{ℕ};

    ghost Value = { ℕ };

    ghost view = { λ s. s.tally.count };
}

impl<L: Ledger> Steps<L> {
    /// No step was counted.
    pub fn new() -> Steps<L>
        ensures { result ≡ 0 }
    {
        Steps {
            of: PhantomData,
            tally: Tally::new(),
        }
    }

    /// Counts a step.
    pub fn tick(&mut self)
        ensures { self.new ≡ self.old + 1 }
    {
        self.tally = Tally::next(&self.tally);
    }
}
