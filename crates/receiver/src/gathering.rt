//! The page under way, and the page that the last bit completed: docs/profile.md, "page heard".

ghost use Rattle.std.specs.Prelude.{◌≡◌, ℕ, ◌+◌, Bool, List, None, Some, IfSome, IsSome, ◌≤◌, ◌<◌, ◌^◌, length, take};
ghost use Rattle.codeword.specs.Kinds.{kind_of};
ghost use Rattle.page_text.specs.Texts.{text_of};
ghost use Rattle.receiver.specs.FrontSteps.{HasFrontPlace, completed_by, page_after, slots_by};
ghost use Rattle.receiver.specs.UnderWay.{open_after, completed};
ghost use Rattle.receiver.specs.Listeners.{ready_answer, is_one_of, ready_pages};
ghost use Rattle.receiver.specs.Gathering.{IsFound, page_begun};

use crate::front::FrontEvent;
use crate::ready::Ready;
use codeword::{Capcode, Function, SLOTS, WordKind, kind, number_in_slot};
use page_text::{LONGEST_READ, TextReader};
use std::marker::Model;
use std::sync::ledger::Ledger;
use wires::steps::Steps;

/// Capcodes that are listened to.
pub trait CapcodeSet {
    /// Their numbers.
    ghost capcodes: { Self → List ℕ };

    /// The capcode of this number, where it is one of these.
    fn find(&self, number: u32) -> Option<Capcode>
        ensures { IsFound (capcodes self.now) number result };
}

/// The page under way and its groups. Where the last bit completed a page, the groups are those of that page, and the page under way has
/// none.
#[derive(Drop)]
pub struct Gathering {
    page: Option<Ready>,
    ready: Option<Ready>,
    groups: TextReader,
}

impl Model for Gathering {
    ghost use Rattle.receiver.specs.Listeners.{Gathered, gathered_of};

    ghost Value = { Gathered };

    ghost view = { λ g. gathered_of g.page g.ready g.groups };
}

impl Gathering {
    /// No page.
    pub fn new() -> Gathering
        ensures { result ≡ record { under_way = None; ready = None } }
    {
        Gathering {
            page: None,
            ready: None,
            groups: TextReader::new(),
        }
    }

    /// Takes what a front end met at the last bit, where the page that an earlier bit completed is forgotten. Answers the page that this bit
    /// completes. The page that an address word begins is to one of these capcodes. Counts one step for the word of a slot.
    #[inline(always)]
    pub fn meet<C: CapcodeSet, L: Ledger>(
        &mut self,
        event: FrontEvent,
        capcodes: &C,
        steps: &mut Steps<L>,
    ) -> Option<Ready>
        requires none_ready { self.old.ready ≡ None }
        requires place { HasFrontPlace event }
        ensures page { self.new.under_way ≡ page_after (is_one_of (C.capcodes capcodes.now)) self.old.under_way event }
        ensures ready { completed_by self.old.under_way event ≡ ready_pages self.new.ready }
        ensures answer { result ≡ ready_answer self.new.ready }
        ensures steps { steps.new ≡ steps.old + slots_by event }
    {
        match event {
            FrontEvent::Still => None,
            FrontEvent::Batch => None,
            FrontEvent::Lost => {
                self.close();
                None
            }
            FrontEvent::Slot(place, word) => {
                steps.tick();
                self.slot(place, word, capcodes)
            }
        }
    }

    /// Forgets the page that the last bit completed.
    #[inline(always)]
    pub fn forget(&mut self)
        ensures ready { self.new.ready ≡ None }
        ensures page { self.new.under_way ≡ self.old.under_way }
    {
        if self.ready.is_some() {
            self.ready = None;
            self.groups.start();
        }
    }

    /// The page under way ends unreported.
    #[inline(always)]
    fn close(&mut self)
        ensures ready { self.new.ready ≡ self.old.ready }
        ensures page { self.new.under_way ≡ None }
    {
        self.page = None;
    }

    /// Takes the word of a slot. Answers the page that it completes.
    fn slot<C: CapcodeSet>(&mut self, place: u32, word: u32, capcodes: &C) -> Option<Ready>
        requires none_ready { self.old.ready ≡ None }
        requires place { place < SLOTS }
        ensures page { self.new.under_way ≡ open_after (is_one_of (C.capcodes capcodes.now)) place self.old.under_way (kind_of word) }
        ensures ready { completed self.old.under_way (kind_of word) ≡ ready_pages self.new.ready }
        ensures answer { result ≡ ready_answer self.new.ready }
    {
        let Some(said) = kind(word) else {
            self.close();
            return None;
        };
        match said {
            WordKind::Message { group } => {
                self.push(group);
                None
            }
            WordKind::Address { high, function } => {
                let ours = capcodes.find(number_in_slot(high, place));
                self.begin(function, ours);
                self.ready
            }
        }
    }

    /// Begins a page, where the capcode is listened to. The page under way until now is complete.
    fn begin(&mut self, function: Function, ours: Option<Capcode>)
        requires none_ready { self.old.ready ≡ None }
        ensures page { self.new.under_way ≡ page_begun function ours }
        ensures ready { self.new.ready ≡ self.old.under_way }
    {
        self.ready = self.page;
        if self.ready.is_none() {
            self.groups.start();
        }
        self.page = match ours {
            Some(capcode) => Some(Ready { capcode, function }),
            None => None,
        };
    }

    /// Adds a group to the page under way. The 141st ends it.
    fn push(&mut self, group: u32)
        requires none_ready { self.old.ready ≡ None }
        requires small { group < 2 ^ 20 }
        ensures page { (listens : ℕ → Bool) (place : ℕ) → self.new.under_way ≡ open_after listens place self.old.under_way (Some (WordKind.Message group)) }
        ensures ready { self.new.ready ≡ None }
    {
        if self.page.is_some() && !self.groups.push(group) {
            self.page = None;
        }
    }

    /// Writes the text of the page that the last bit completed to the front of `into`, and answers its length.
    pub fn text(&self, into: &mut [u8]) -> usize
        requires ready { IsSome self.now.ready }
        requires room { LONGEST_READ ≤ length into.old }
        ensures text { IfSome self.now.ready (λ page. take result into.new ≡ text_of page.function page.groups) }
        ensures length { IfSome self.now.ready (λ page. result ≡ length (text_of page.function page.groups)) }
        ensures few { result ≤ LONGEST_READ }
    {
        match self.ready {
            Some(page) => self.groups.text(page.function, into),
            None => 0,
        }
    }
}
