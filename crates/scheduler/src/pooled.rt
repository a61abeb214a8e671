//! The schedule over a pool: the slots of a transmission of its pages, one at a time.

ghost use Rattle.std.specs.Prelude.{◌≡◌, ◌≢◌, ◌≤◌, ◌↔◌, ◌+◌, ◌*◌, ◌++◌, ℕ, List, [], ◌∷◌, IsTrue, length};
ghost use Rattle.std.specs.List.{sum_by};
ghost use Rattle.page_text.specs.Page.{Page};
ghost use Rattle.page_pool.specs.Pool.{pages};
ghost use Rattle.scheduler.specs.Slots.{run};
ghost use Rattle.scheduler.specs.Said.{AreSlots, HasGroup, heads_in};
ghost use Rattle.scheduler.specs.Sendings.{IsSendingOf, KeepsPool};
ghost use Rattle.scheduler.specs.declared.slots.Slot.{Slot as Said};

use crate::sendings::Sending;
use crate::slots::Slot;
use page_pool::Pool;
use std::sync::ledger::Ledger;
use wires::steps::Steps;

/// A transmission of a pool's pages.
#[derive(Drop)]
pub struct Schedule<'a> {
    pool: &'a mut Pool,
    sending: Sending,
    ghost follows: { IsSendingOf sending pool.now },
}

impl<'a> Schedule<'a> {
    ghost use Rattle.scheduler.specs.Pooled.{ScheduleStands, lender, pool_of, slots_left};

    /// Begins a transmission of the pool's pages.
    pub fn over(pool: &'a mut Pool) -> Schedule<'a>
        ensures lends { lender result ≡ pool.entry.ghost_name }
        ensures same { pool_of result ≡ pool.old }
        ensures none { pages pool.old ≡ [] → slots_left result ≡ [] }
        ensures slots { pages pool.old ≢ [] → AreSlots (pages pool.old) (slots_left result) }
        ensures stands { pages pool.old ≢ [] → ScheduleStands (pages pool.old) [] result }
    {
        let sending = Sending::begin();
        Schedule { pool, sending }
    }

    /// Whether the transmission has ended: at the first end of a batch at which all runs are whole and the last slot is idle, and at
    /// once where the pool has no page.
    pub fn done(&self) -> bool
        ensures end { IsTrue result ↔ (slots_left self.now ≡ []) }
        ensures empty { IsTrue result → pages (pool_of self.now) ≡ [] }
    {
        self.sending.is_done(self.pool)
    }

    /// The next slot. Where a run is under way, it is the run's next word. Else the first of the waiting pages of the slot's frame
    /// starts its run, and where none waits, the slot is idle. A page leaves the pool when its run is whole.
    pub fn slot<L: Ledger>(&mut self, steps: &mut Steps<L>) -> Slot
        requires { slots_left self.old ≢ [] }
        ensures lends { lender self.new ≡ lender self.old }
        ensures gives { slots_left self.old ≡ result ∷ slots_left self.new }
        ensures group { HasGroup result }
        ensures stands { (accepted : List Page) (given : List Said) → ScheduleStands accepted given self.old → ScheduleStands accepted (given ++ result ∷ []) self.new }
        ensures keeps { KeepsPool (pool_of self.old) (pool_of self.new) }
        ensures heads { steps.new ≡ steps.old + heads_in result }
    {
        self.sending.slot(self.pool, steps)
    }
}
