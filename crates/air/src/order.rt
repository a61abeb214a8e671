//! Which word of a transmission comes next, beside the pool that its pages lie in.

ghost use Rattle.std.specs.Prelude.{◌≡◌, ◌≢◌, ◌≤◌, ◌+◌, []};
ghost use Rattle.page_pool.specs.Pool.{pages};

use crate::codewords::word;
use crate::sender::{FILLER, PREAMBLE};
use codeword::{SLOTS, SYNC};
use page_pool::Pool;
use scheduler::sendings::Sending;
use std::sync::ledger::Ledger;
use wires::steps::Steps;

/// How far a transmission has come.
#[derive(Drop)]
pub struct Order {
    /// How many words of the preamble are still to come.
    preamble: u32,
    /// How many slots come before the next sync word.
    room: u32,
    sending: Sending,
}

impl Order {
    ghost use Rattle.scheduler.specs.Sendings.{IsSendingOf, SendingStandsAt};
    ghost use Rattle.air.specs.Left.{AreFew, AreWords, GivesWord, slot_comes, steps_of, words_to_come};

    /// The beginning of a transmission of the pool's pages.
    pub fn of(pool: &Pool) -> Order
        ensures follows { IsSendingOf result.sending pool.now }
        ensures words { AreWords (pages pool.now) (words_to_come result pool.now) }
        ensures few { pages pool.now ≢ [] → AreFew (pages pool.now) (words_to_come result pool.now) }
        ensures stands { pages pool.now ≢ [] → SendingStandsAt (pages pool.now) [] pool.now result.sending.place result.sending.before }
    {
        let sending = Sending::begin();
        let preamble = if sending.is_done(pool) {
            0
        } else {
            PREAMBLE as u32
        };
        Order {
            preamble,
            room: 0,
            sending,
        }
    }

    /// The next word. None exactly at the end.
    pub fn next<L: Ledger>(&mut self, pool: &mut Pool, steps: &mut Steps<L>) -> Option<u32>
        requires { IsSendingOf self.old.sending pool.old }
        ensures gives { GivesWord result self.old pool.old self.new pool.new }
        ensures later { steps.old ≤ steps.new }
        ensures heads { steps.new ≤ steps.old + steps_of (slot_comes self.old) }
    {
        if self.preamble > 0 {
            self.preamble -= 1;
            return Some(FILLER);
        }
        if self.sending.is_done(pool) {
            return None;
        }
        if self.room == 0 {
            self.room = SLOTS;
            return Some(SYNC);
        }
        self.room -= 1;
        Some(word(self.sending.slot(pool, steps)))
    }
}
