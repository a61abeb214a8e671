//! The words in the slots of a first stretch, held for the second.

ghost use Rattle.std.specs.Prelude.{◌≡◌, [], IfOk, Option, Some, false, ℕ};
ghost use Rattle.codeword.specs.Kinds.{kind_of};
ghost use Rattle.receiver.specs.FrontSteps.{HasFrontPlace};
ghost use Rattle.repeats.specs.Twin.{held_slots};
ghost use Rattle.repeats.specs.TwinListeners.{twin_kind};

use codeword::kind;
use receiver::FrontEvent;
use std::alloc::Global;
use std::marker::Model;
use wires::Memory;

/// The most words that are held.
fn most_held() -> usize
    ensures { result ≡ held_slots }
{
    1_800_000
}

/// Whether a second stretch is under way or awaited, the words held of the first, and how many of these have their partner.
#[derive(Drop)]
pub struct Pairing {
    words: Vec<u32>,
    count: usize,
    is_second: bool,
    slot: usize,
}

impl Model for Pairing {
    ghost use Rattle.std.specs.Prelude.{◌≡◌, ◌≤◌, length, take};
    ghost use Rattle.repeats.specs.Twin.{held_slots};
    ghost use Rattle.repeats.specs.TwinListeners.{Paired, paired_of};

    ghost Value = { Paired };

    ghost view = { λ p. paired_of p.is_second (take p.count p.words.items) p.slot };

    ghost invariant = { λ p. (length p.words.items ≡ held_slots) × (p.count ≤ held_slots) × (p.slot ≤ p.count) };
}

impl Pairing {
    ghost use Rattle.receiver.specs.declared.front.FrontEvent.TheVariants.{Still};
    ghost use Rattle.repeats.specs.TwinListeners.{JoinsEvent, JoinsSlot, after_lost, after_second, paired_of};
    ghost use Rattle.std.specs.List.{slice_get};

    /// A first stretch is awaited. Memory comes only where there was none. No later call takes memory.
    pub fn new(alloc: Global) -> Result<Pairing, Memory>
        ensures { IfOk result (λ p. p ≡ paired_of false [] 0) }
    {
        let n = most_held();
        let Ok(words) = vec![in alloc; 0u32; n] else {
            return Err(Memory);
        };
        Ok(Pairing {
            words,
            count: 0,
            is_second: false,
            slot: 0,
        })
    }

    /// Takes what a front end met, and answers what it is in the twin stretch: the word of a slot of a first stretch is held, and that
    /// of a second has the word of its partner in its place where that can be corrected.
    #[inline(always)]
    pub fn join(&mut self, event: FrontEvent) -> FrontEvent
        requires place { HasFrontPlace event }
        ensures joins { JoinsEvent self.old event result self.new }
        ensures place { HasFrontPlace result }
    {
        match event {
            FrontEvent::Still => FrontEvent::Still,
            FrontEvent::Batch => FrontEvent::Batch,
            FrontEvent::Lost => {
                self.lose();
                FrontEvent::Lost
            }
            FrontEvent::Slot(place, word) => {
                if self.is_second {
                    FrontEvent::Slot(place, self.choose(word))
                } else {
                    self.hold(word);
                    FrontEvent::Still
                }
            }
        }
    }

    /// The lock is lost: the other stretch is awaited.
    fn lose(&mut self)
        ensures { self.new ≡ after_lost self.old }
    {
        if self.is_second {
            self.count = 0;
        }
        self.is_second = !self.is_second;
        self.slot = 0;
    }

    /// Holds the word of a slot of a first stretch, if there is room.
    fn hold(&mut self, word: u32)
        requires { self.old.second ≡ false }
        ensures { JoinsSlot false self.old 0 word Still self.new }
    {
        if self.count < most_held() {
            self.words[self.count] = word;
            self.count += 1;
        }
    }

    /// The word of the first stretch, if it is held and can be corrected, and else that of the second.
    fn choose(&mut self, word: u32) -> u32
        ensures kind { kind_of result ≡ twin_kind (slice_get self.old.held self.old.slot) word }
        ensures slot { self.new ≡ after_second self.old }
    {
        let slot = self.slot;
        if slot >= self.count {
            return word;
        }
        self.slot = slot + 1;
        let first = self.words[slot];
        if kind(first).is_some() { first } else { word }
    }
}
