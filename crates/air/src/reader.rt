//! The words of a transmission over a pool, one at a time.

ghost use Rattle.std.specs.Prelude.{◌≡◌, ◌≢◌, ◌≤◌, ◌+◌, ◌++◌, ◌∷◌, [], ℕ, List, MatchOption};
ghost use Rattle.page_text.specs.Page.{Page};
ghost use Rattle.page_pool.specs.Pool.{pages};
ghost use Rattle.scheduler.specs.Sendings.{IsSendingOf, KeepsPool};
ghost use Rattle.scheduler.specs.declared.slots.Slot.{Slot};
ghost use Rattle.air.specs.Left.{AreFew, AreWords, HasSlot, steps_of};

use crate::order::Order;
use page_pool::Pool;
use std::sync::ledger::Ledger;
use wires::steps::Steps;

/// The words of a transmission of a pool's pages.
#[derive(Drop)]
pub struct Words<'a> {
    pool: &'a mut Pool,
    order: Order,
    ghost follows: { IsSendingOf order.sending pool.now },
}

impl<'a> Words<'a> {
    ghost use Rattle.air.specs.Readers.{WordsStand, words_lender, words_pool, slot_next, words_left};

    /// Begins a transmission of the pool's pages.
    pub fn over(pool: &'a mut Pool) -> Words<'a>
        ensures lends { words_lender result ≡ pool.entry.ghost_name }
        ensures same { words_pool result ≡ pool.old }
        ensures words { AreWords (pages pool.old) (words_left result) }
        ensures few { pages pool.old ≢ [] → AreFew (pages pool.old) (words_left result) }
        ensures stands { pages pool.old ≢ [] → WordsStand (pages pool.old) [] result }
    {
        let order = Order::of(pool);
        Words { pool, order }
    }

    /// The next word: the preamble's 18 words come first, and then the batches. None exactly at the end, and at once where the pool
    /// has no page. A page leaves the pool with the last word of its run.
    ///
    /// It counts a step where it looks at the head of a page: at most one for the word of a slot, and none for a word of the preamble
    /// or a sync word.
    pub fn next<L: Ledger>(&mut self, steps: &mut Steps<L>) -> Option<u32>
        ensures lends { words_lender self.new ≡ words_lender self.old }
        ensures gives { MatchOption result (words_left self.old ≡ []) (λ word. words_left self.old ≡ word ∷ words_left self.new) }
        ensures ended { MatchOption result ((words_left self.new ≡ []) × (pages (words_pool self.new) ≡ [])) (λ word. Unit {0}) }
        ensures stands { (slots : List Slot) × HasSlot (slot_next self.old) result slots
            × ((accepted : List Page) (given : List Slot) → WordsStand accepted given self.old → WordsStand accepted (given ++ slots) self.new) }
        ensures keeps { KeepsPool (words_pool self.old) (words_pool self.new) }
        ensures later { steps.old ≤ steps.new }
        ensures heads { steps.new ≤ steps.old + steps_of (slot_next self.old) }
    {
        self.order.next(self.pool, steps)
    }
}
