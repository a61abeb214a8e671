//! The bits of a transmission over a pool, as a source.

ghost use Rattle.std.specs.Prelude.{◌≡◌, ◌≤◌, ◌<◌, ◌∷◌, [], IsTrue, IsFalse, MatchOption};
ghost use Rattle.page_pool.specs.Pool.{pages};
ghost use Rattle.scheduler.specs.Sendings.{IsSendingOf, KeepsPool};
ghost use Rattle.wires.specs.Left.{TakesOne};
ghost use Rattle.air.specs.Air.{IsAir};
ghost use Rattle.air.specs.Left.{air_bits, bits_to_come, words_to_come};

use crate::order::Order;
use page_pool::Pool;
use std::sync::ledger::Ledger;
use wires::Failed;
use wires::piece::Piece;
use wires::source::BitSource;
use wires::steps::Steps;

/// The bits of a word.
const WORD_BITS: u32 = 32;

/// The bits of a transmission of a pool's pages. It tells them, is always steady, and has no faults. A page leaves the pool with the
/// last word of its run: where no bit is left, the pool has no page. It has the cells that it had before, whichever bits were taken.
#[derive(Drop)]
pub struct AirBits<'a, L: Ledger> {
    pool: &'a mut Pool,
    steps: &'a mut Steps<L>,
    order: Order,
    /// The word that was begun last.
    word: u32,
    /// How many of its bits are still to come.
    pending: u32,
    ghost within: { pending ≤ 32 },
    ghost follows: { IsSendingOf order.sending pool.now },
    ghost empties: { bits_to_come pending word order pool.now ≡ [] → pages pool.now ≡ [] },
}

impl<'a, L: Ledger> AirBits<'a, L> {
    /// Begins a transmission of the pool's pages. The steps of `Words::next` are counted.
    pub fn over(pool: &'a mut Pool, steps: &'a mut Steps<L>) -> AirBits<'a, L>
        ensures pool_lent { result.pool.ghost_name ≡ pool.entry.ghost_name }
        ensures steps_lent { result.steps.ghost_name ≡ steps.entry.ghost_name }
        ensures pool_same { result.pool.now ≡ pool.old }
        ensures steps_same { result.steps.now ≡ steps.old }
        ensures bits { IsAir (pages pool.old) (bits_to_come result.pending result.word result.order result.pool.now) }
    {
        let order = Order::of(pool);
        AirBits {
            pool,
            steps,
            order,
            word: 0,
            pending: 0,
        }
    }

    /// The next word.
    fn next(&mut self) -> Option<u32>
        ensures pool_lent { self.new.pool.ghost_name ≡ self.old.pool.ghost_name }
        ensures steps_lent { self.new.steps.ghost_name ≡ self.old.steps.ghost_name }
        ensures gives { MatchOption result ((words_to_come self.old.order self.old.pool.now ≡ []) × (words_to_come self.new.order self.new.pool.now ≡ []))
            (λ word. words_to_come self.old.order self.old.pool.now ≡ word ∷ words_to_come self.new.order self.new.pool.now) }
        ensures pending { self.new.pending ≡ self.old.pending }
        ensures keeps { KeepsPool self.old.pool.now self.new.pool.now }
        ensures later { self.old.steps.now ≤ self.new.steps.now }
    {
        self.order.next(self.pool, self.steps)
    }

    /// Sees to it that a bit of a word that was begun is left, and answers whether one is.
    fn begin(&mut self) -> bool
        ensures pool_lent { self.new.pool.ghost_name ≡ self.old.pool.ghost_name }
        ensures steps_lent { self.new.steps.ghost_name ≡ self.old.steps.ghost_name }
        ensures same { bits_to_come self.new.pending self.new.word self.new.order self.new.pool.now ≡ bits_to_come self.old.pending self.old.word self.old.order self.old.pool.now }
        ensures begun { IsTrue result → 0 < self.new.pending }
        ensures ended { IsFalse result → bits_to_come self.old.pending self.old.word self.old.order self.old.pool.now ≡ [] }
        ensures keeps { KeepsPool self.old.pool.now self.new.pool.now }
    {
        if self.pending != 0 {
            return true;
        }
        let Some(word) = self.next() else {
            return false;
        };
        self.word = word;
        self.pending = WORD_BITS;
        true
    }
}

impl<'a, L: Ledger> BitSource for AirBits<'a, L> {
    ghost state = { λ s. air_bits s.pending s.word s.order s.pool.now s.pool.ghost_name s.steps.ghost_name };

    fn bit(&mut self) -> Result<Option<bool>, Failed> {
        if self.pending == 0 {
            let Some(word) = self.next() else {
                return Ok(None);
            };
            self.word = word;
            self.pending = 31;
            return Ok(Some((word >> 31) % 2 == 1));
        }
        self.pending -= 1;
        Ok(Some((self.word >> self.pending) % 2 == 1))
    }

    fn piece(&mut self, most: u32) -> Result<Piece, Failed> {
        if !self.begin() {
            return Ok(Piece::of(0, 0));
        }
        let count = most.min(self.pending);
        self.pending -= count;
        Ok(Piece::of(self.word >> self.pending, count))
    }
}
