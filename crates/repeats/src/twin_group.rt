//! Receivers with numbers, each with its capcodes, that hear each transmission twice.

ghost use Rattle.std.specs.Prelude.{◌≡◌, ℕ, ◌+◌, ◌≤◌, ◌<◌, [], ◌∷◌, ◌++◌, All, Bool, IfOk, IfSome, IsSome, List, None, length, take};
ghost use Rattle.std.specs.List.{slice_get};
ghost use Rattle.page_text.specs.Texts.{text_of};
ghost use Rattle.receiver.specs.Last.{IsShorterFront};
ghost use Rattle.receiver.specs.Listeners.{is_one_of};
ghost use Rattle.receiver.specs.Receivers.{has_in, is_listed, is_paired, most_receivers, numbers_with};
ghost use Rattle.wires.specs.Pieces.{taken_of};

use crate::pairing::Pairing;
use codeword::Capcode;
use page_text::LONGEST_READ;
use receiver::Front;
use receiver::gathering::Gathering;
use receiver::group::Holders;
use receiver::ready::Ready;
use std::alloc::Global;
use std::marker::Model;
use std::sync::ledger::Ledger;
use wires::Memory;
use wires::piece::Piece;
use wires::steps::Steps;

/// Receivers with the numbers 1 to 64, each with its capcodes, fed bit by bit or in pieces. They have one front end, and take each word from the copy
/// in which it can be corrected: from the first, where it can be. One page is under way at a time.
#[derive(Drop)]
pub struct TwinGroup {
    front: Front,
    holders: Holders,
    pairing: Pairing,
    gathering: Gathering,
}

impl Model for TwinGroup {
    ghost use Rattle.repeats.specs.TwinListeners.{TwinListener, twin_listener_of};
    ghost use Rattle.std.specs.Map.{keys_of};

    ghost Value = { TwinListener };

    ghost view = { λ g. twin_listener_of g.front (keys_of g.holders) g.holders g.pairing g.gathering };
}

impl TwinGroup {
    ghost use Rattle.receiver.specs.Listeners.{ready_answer, ready_pages};
    ghost use Rattle.receiver.specs.Slots.{slots_in};
    ghost use Rattle.repeats.specs.TwinListeners.{StandsForTwice};
    ghost use Rattle.repeats.specs.Twin.{heard_twice};

    /// Receivers of these pairs of a number and a capcode, that were fed no bit. The numbers are from 1 to 64. Memory comes only where
    /// there was none for the pairs or for 1,800,000 words. No later call takes memory.
    pub fn new(alloc: Global, pairs: &[(u32, Capcode)]) -> Result<TwinGroup, Memory>
        requires numbers { All (λ pair. (1 ≤ pair.0) × (pair.0 ≤ most_receivers)) pairs.now }
        ensures capcodes { IfOk result (λ g. (c : ℕ) → is_one_of g.capcodes c ≡ is_listed pairs.now c) }
        ensures has { IfOk result (λ g. (number c : ℕ) → has_in g.holders number c ≡ is_paired pairs.now number c) }
        ensures ready { IfOk result (λ g. g.ready ≡ None) }
        ensures stands { IfOk result (λ g. StandsForTwice g []) }
    {
        let Ok(holders) = Holders::of(alloc, pairs) else {
            return Err(Memory);
        };
        let Ok(pairing) = Pairing::new(alloc) else {
            return Err(Memory);
        };
        Ok(TwinGroup {
            front: Front::new(),
            holders,
            pairing,
            gathering: Gathering::new(),
        })
    }

    /// The number of the receiver that comes after so many among those that have this capcode, in ascending order. None exactly where
    /// there are no more than so many. The time doesn't grow with the number of receivers.
    pub fn holder(&self, capcode: Capcode, k: u32) -> Option<u32>
        ensures { result ≡ slice_get (numbers_with (has_in self.now.holders) capcode) k }
    {
        self.holders.holder(capcode, k)
    }

    /// Takes the next bit. Answers the page that it completes, and None exactly where it completes none. Counts at most one step, and
    /// none but for the word of a slot that the bit completes.
    pub fn feed<L: Ledger>(&mut self, bit: bool, steps: &mut Steps<L>) -> Option<Ready>
        ensures capcodes { self.new.capcodes ≡ self.old.capcodes }
        ensures holders { self.new.holders ≡ self.old.holders }
        ensures stands { (bits : List Bool) → StandsForTwice self.old bits → StandsForTwice self.new (bits ++ bit ∷ []) }
        ensures page { (bits : List Bool) → StandsForTwice self.old bits
            → heard_twice (is_one_of self.old.capcodes) (bits ++ bit ∷ []) ≡ heard_twice (is_one_of self.old.capcodes) bits ++ ready_pages self.new.ready }
        ensures answer { result ≡ ready_answer self.new.ready }
        ensures one { steps.new ≤ steps.old + 1 }
        ensures steps { (bits : List Bool) → StandsForTwice self.old bits → steps.new + slots_in bits ≤ steps.old + slots_in (bits ++ bit ∷ []) }
    {
        self.gathering.forget();
        let event = self.front.feed(bit);
        let joined = self.pairing.join(event);
        self.gathering.meet(joined, &self.holders, steps)
    }

    /// Takes the first bits of a piece: up to a bit that completes a page, or all. Answers the page, and None exactly where none is
    /// complete. No shorter front of these bits completes a page. Counts at most one step for the word of each slot that they complete.
    pub fn feed_piece<L: Ledger>(
        &mut self,
        piece: &mut Piece,
        steps: &mut Steps<L>,
    ) -> Option<Ready>
        ensures capcodes { self.new.capcodes ≡ self.old.capcodes }
        ensures holders { self.new.holders ≡ self.old.holders }
        ensures stands { (bits : List Bool) → StandsForTwice self.old bits → StandsForTwice self.new (bits ++ taken_of piece.old piece.new) }
        ensures page { (bits : List Bool) → StandsForTwice self.old bits
            → heard_twice (is_one_of self.old.capcodes) (bits ++ taken_of piece.old piece.new) ≡ heard_twice (is_one_of self.old.capcodes) bits ++ ready_pages self.new.ready }
        ensures answer { result ≡ ready_answer self.new.ready }
        ensures whole { piece.old ≡ taken_of piece.old piece.new ++ piece.new }
        ensures all { result ≡ None → piece.new ≡ [] }
        ensures some { 0 < length piece.old → length piece.new < length piece.old }
        ensures last { (bits front : List Bool) → StandsForTwice self.old bits → IsShorterFront front (taken_of piece.old piece.new)
            → heard_twice (is_one_of self.old.capcodes) (bits ++ front) ≡ heard_twice (is_one_of self.old.capcodes) bits }
        ensures steps { (bits : List Bool) → StandsForTwice self.old bits → steps.new + slots_in bits ≤ steps.old + slots_in (bits ++ taken_of piece.old piece.new) }
    {
        loop {
            self.gathering.forget();
            let event = self.front.feed_piece(piece);
            let joined = self.pairing.join(event);
            if let Some(page) = self.gathering.meet(joined, &self.holders, steps) {
                return Some(page);
            }
            if piece.is_empty() {
                return None;
            }
        }
    }

    /// Writes the text of the page that the last `feed` answered to the front of `into`, which has at least `LONGEST_READ` bytes, and answers its
    /// length. What stands behind the text in `into` is open.
    pub fn text(&self, into: &mut [u8]) -> usize
        requires ready { IsSome self.now.ready }
        requires room { LONGEST_READ ≤ length into.old }
        ensures text { IfSome self.now.ready (λ page. take result into.new ≡ text_of page.function page.groups) }
        ensures length { IfSome self.now.ready (λ page. result ≡ length (text_of page.function page.groups)) }
        ensures few { result ≤ LONGEST_READ }
    {
        self.gathering.text(into)
    }
}
