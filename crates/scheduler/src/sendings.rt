//! How far a transmission has come, beside the pool that its pages lie in.

ghost use Rattle.std.specs.Prelude.{◌≡◌, ◌≢◌, ◌<◌, ◌≤◌, ◌↔◌, ◌+◌, ◌/◌, ◌%◌, ◌++◌, ℕ, List, [], ◌∷◌, Some, IsTrue, length};
ghost use Rattle.std.specs.List.{find};
ghost use Rattle.std.specs.Option.{option_map};
ghost use Rattle.page_text.specs.Page.{Page};
ghost use Rattle.page_pool.specs.Pool.{IsLive, Live, Names, Sound, TakesPage, pages};
ghost use Rattle.page_pool.specs.Pool.{Pool as Waiting};
ghost use Rattle.scheduler.specs.Said.{AreSlots, HasGroup, heads_in};
ghost use Rattle.scheduler.specs.declared.slots.Slot.{Slot as Said};

use crate::slots::Slot;
use codeword::{FRAME_SLOTS, SLOTS};
use page_pool::{Pool, Ticket};
use page_text::{LONGEST_TEXT, group, word_count};
use std::sync::ledger::Ledger;
use wires::steps::Steps;

/// What stood in the slot before the next one.
#[derive(Clone, Copy)]
enum Before {
    /// The idle word, or there was no slot yet.
    Idle,
    /// The last word of a run.
    RunEnd,
    /// A word of a run that is under way: the run of the first page of this frame, of which this message word comes next.
    InRun(u32, usize),
}

/// How far a transmission of a pool's pages has come.
#[derive(Drop)]
pub struct Sending {
    /// The next slot's place in its batch.
    place: u32,
    before: Before,
    /// The text of the run under way, in front.
    text: [u8; LONGEST_TEXT],
    /// How many characters it has.
    length: usize,
}

impl Sending {
    ghost use Rattle.scheduler.specs.Sendings.{IsSendingOf, GivesOneSlot, SendingStandsAt, slots_to_come};
    ghost use Rattle.scheduler.specs.Sendings.{IsBetween, IsFirst};
    ghost use Rattle.scheduler.specs.declared.sendings.Before.TheVariants.{InRun, RunEnd};

    /// The beginning of a transmission of any pages.
    pub fn begin() -> Sending
        ensures follows { (w : Waiting) → IsSendingOf result w }
        ensures none { (w : Waiting) → pages w ≡ [] → slots_to_come w result.place result.before ≡ [] }
        ensures slots { (w : Waiting) → pages w ≢ [] → AreSlots (pages w) (slots_to_come w result.place result.before) }
        ensures stands { (w : Waiting) → pages w ≢ [] → SendingStandsAt (pages w) [] w result.place result.before }
    {
        Sending {
            place: 0,
            before: Before::Idle,
            text: [0; LONGEST_TEXT],
            length: 0,
        }
    }

    /// Whether the transmission has ended.
    pub fn is_done(&self, pool: &Pool) -> bool
        requires { IsSendingOf self.now pool.now }
        ensures end { IsTrue result ↔ (slots_to_come pool.now self.now.place self.now.before ≡ []) }
        ensures empty { IsTrue result → pages pool.now ≡ [] }
    {
        match self.before {
            Before::Idle => self.place == 0 && pool.count() == 0,
            Before::RunEnd | Before::InRun(..) => false,
        }
    }

    /// The next slot.
    pub fn slot<L: Ledger>(&mut self, pool: &mut Pool, steps: &mut Steps<L>) -> Slot
        requires follows { IsSendingOf self.old pool.old }
        requires more { slots_to_come pool.old self.old.place self.old.before ≢ [] }
        ensures gives { GivesOneSlot result self.old pool.old self.new pool.new }
        ensures heads { steps.new ≡ steps.old + heads_in result }
    {
        match self.before {
            Before::InRun(frame, k) => self.message(pool, steps, frame, k),
            Before::Idle | Before::RunEnd => self.choose(pool, steps),
        }
    }

    /// The next message slot of the run under way. Behind the last one the page leaves the pool.
    fn message<L: Ledger>(
        &mut self,
        pool: &mut Pool,
        steps: &mut Steps<L>,
        frame: u32,
        k: usize,
    ) -> Slot
        requires follows { IsSendingOf self.old pool.old }
        requires under_way { self.old.before ≡ InRun frame k }
        ensures gives { GivesOneSlot result self.old pool.old self.new pool.new }
        ensures heads { steps.new ≡ steps.old + heads_in result }
    {
        let t = pool.first(frame).unwrap();
        steps.tick();
        let function = pool.function(t);
        let text = &self.text[..self.length];
        let words = word_count(function, text.len());
        let group = group(function, text, k);
        if k + 1 < words {
            self.pass(Before::InRun(frame, k + 1));
        } else {
            self.end(pool, t);
        }
        Slot::Message(group)
    }

    /// The next slot where no run is under way: the first waiting page of the slot's frame starts its run. Where none waits, the slot
    /// is idle.
    fn choose<L: Ledger>(&mut self, pool: &mut Pool, steps: &mut Steps<L>) -> Slot
        requires follows { IsSendingOf self.old pool.old }
        requires between { IsBetween self.old.before }
        requires more { slots_to_come pool.old self.old.place self.old.before ≢ [] }
        ensures gives { GivesOneSlot result self.old pool.old self.new pool.new }
        ensures heads { steps.new ≡ steps.old + heads_in result }
    {
        let frame = self.place / FRAME_SLOTS;
        let Some(t) = pool.first(frame) else {
            self.pass(Before::Idle);
            return Slot::Idle;
        };
        steps.tick();
        self.address(pool, frame, t)
    }

    /// The address slot of the first page of a frame. A page without message slots leaves the pool at once.
    fn address(&mut self, pool: &mut Pool, frame: u32, t: Ticket) -> Slot
        requires follows { IsSendingOf self.old pool.old }
        requires between { IsBetween self.old.before }
        requires frame { frame ≡ self.old.place / FRAME_SLOTS }
        requires sound { Sound pool.old }
        requires first { IsFirst pool.old frame t }
        ensures gives { GivesOneSlot result self.old pool.old self.new pool.new }
        ensures heads { heads_in result ≡ 1 }
    {
        let capcode = pool.capcode(t);
        let function = pool.function(t);
        if word_count(function, pool.length(t)) == 0 {
            self.end(pool, t);
        } else {
            self.length = pool.copy_text(t, &mut self.text);
            self.pass(Before::InRun(frame, 0));
        }
        Slot::Address(capcode, function)
    }

    /// Passes to the next slot behind the last one of a run, whose page leaves the pool.
    fn end(&mut self, pool: &mut Pool, t: Ticket)
        requires in_batch { self.old.place < SLOTS }
        requires live { IsLive pool.old t }
        ensures takes { TakesPage pool.old pool.new t }
        ensures place { self.new.place ≡ (self.old.place + 1) % SLOTS }
        ensures before { self.new.before ≡ RunEnd }
        ensures length { self.new.length ≡ self.old.length }
    {
        pool.take(t);
        self.pass(Before::RunEnd);
    }

    /// Passes to the next slot, behind this one.
    fn pass(&mut self, before: Before)
        requires { self.old.place < SLOTS }
        ensures place { self.new.place ≡ (self.old.place + 1) % SLOTS }
        ensures before { self.new.before ≡ before }
        ensures text { self.new.text ≡ self.old.text }
        ensures length { self.new.length ≡ self.old.length }
    {
        self.place = (self.place + 1) % SLOTS;
        self.before = before;
    }
}
