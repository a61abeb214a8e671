//! Receivers with numbers, each with its capcodes, and one front end for all: docs/profile.md, "page heard".

ghost use Rattle.std.specs.Prelude.{◌≡◌, ℕ, ◌+◌, ◌≤◌, ◌<◌, ◌==◌, ◌&&◌, ◌||◌, [], ◌∷◌, ◌++◌, All, Bool, IfOk, IfSome, IsSome, List, None, OnOk, length, take, true};
ghost use Rattle.std.specs.BTreeMap.{keys};
ghost use Rattle.std.specs.List.{slice_get};
ghost use Rattle.std.specs.Map.{keys_of};
ghost use Rattle.codeword.specs.Capcodes.{IsUsable};
ghost use Rattle.page_text.specs.Texts.{text_of};
ghost use Rattle.receiver.specs.Last.{IsShorterFront};
ghost use Rattle.receiver.specs.Listeners.{is_one_of};
ghost use Rattle.receiver.specs.Receivers.{has_in, is_listed, is_paired, most_receivers, numbers_in, numbers_with};
ghost use Rattle.wires.specs.Pieces.{taken_of};

use crate::front::Front;
use crate::gathering::{CapcodeSet, Gathering};
use crate::marks::Marks;
use crate::ready::Ready;
use codeword::Capcode;
use page_text::LONGEST_READ;
use std::alloc::Global;
use std::collections::BTreeMap;
use std::marker::Model;
use std::sync::ledger::Ledger;
use wires::Memory;
use wires::piece::Piece;
use wires::steps::Steps;

/// The most receivers of a group: their numbers are bits of a word of 64.
pub const MOST_RECEIVERS: u32 = 64;

/// The receivers of each capcode, as a set of their numbers: the lowest bit is for the receiver 1. Contracts see the list of the
/// capcodes, each with its set.
#[derive(Drop)]
pub struct Holders {
    sets: BTreeMap<u32, u64, Global>,
    /// Each of these capcodes is marked. Few others have a mark, so that most of them aren't looked up.
    marks: Marks,
}

impl Model for Holders {
    ghost use Rattle.std.specs.Prelude.{◌≡◌, ℕ, List, true};
    ghost use Rattle.codeword.specs.Capcodes.{IsUsable};
    ghost use Rattle.receiver.specs.Listeners.{is_one_of};
    ghost use Rattle.receiver.specs.Receivers.{is_marked};
    ghost use Rattle.std.specs.BTreeMap.{keys};

    ghost Value = { List (ℕ × ℕ) };

    ghost view = { λ h. h.sets.entries };

    ghost invariant = { λ h. ((c : ℕ) → is_one_of (keys h.sets) c ≡ true → IsUsable c) × ((c : ℕ) → is_one_of (keys h.sets) c ≡ true → is_marked h.marks c ≡ true) };
}

impl Holders {
    /// The receivers of these pairs of a number and a capcode. The numbers are from 1 to 64. Memory comes only where there was none for
    /// the pairs.
    pub fn of(alloc: Global, pairs: &[(u32, Capcode)]) -> Result<Holders, Memory>
        requires numbers { All (λ pair. (1 ≤ pair.0) × (pair.0 ≤ most_receivers)) pairs.now }
        ensures capcodes { IfOk result (λ h. (c : ℕ) → is_one_of (keys_of h) c ≡ is_listed pairs.now c) }
        ensures has { IfOk result (λ h. (number c : ℕ) → has_in h number c ≡ is_paired pairs.now number c) }
    {
        let mut sets = BTreeMap::new(alloc);
        let mut marks = Marks::none();
        for (number, capcode) in pairs {
            if let Err(Memory) = add_holder(&mut sets, *number, *capcode) {
                return Err(Memory);
            }
            marks.mark(capcode.number());
        }
        Ok(Holders { sets, marks })
    }

    /// The number of the receiver that comes after so many among those that have this capcode, in ascending order. None exactly where
    /// there are no more than so many. The time doesn't grow with the number of receivers.
    pub fn holder(&self, capcode: Capcode, k: u32) -> Option<u32>
        ensures { result ≡ slice_get (numbers_with (has_in self.now) capcode) k }
    {
        match self.sets.get(&capcode.number()) {
            Some(set) => number_in(*set, k),
            None => None,
        }
    }
}

impl CapcodeSet for Holders {
    ghost capcodes = { λ h. keys_of h };

    fn find(&self, number: u32) -> Option<Capcode> {
        let sets = &self.sets;
        if !self.marks.has(number) {
            return None;
        }
        let Some(capcode) = Capcode::of(number) else {
            return None;
        };
        if sets.contains_key(&number) {
            Some(capcode)
        } else {
            None
        }
    }
}

/// Receivers with the numbers 1 to 64, each with its capcodes, fed bit by bit. They have one front end, each slot's word is corrected once for all, and one page is
/// under way at a time, since an address word ends the page before it.
#[derive(Drop)]
pub struct Group {
    front: Front,
    holders: Holders,
    gathering: Gathering,
}

impl Model for Group {
    ghost use Rattle.receiver.specs.Listeners.{Listener, listener_of};
    ghost use Rattle.std.specs.Map.{keys_of};

    ghost Value = { Listener };

    ghost view = { λ g. listener_of g.front (keys_of g.holders) g.holders g.gathering };
}

impl Group {
    ghost use Rattle.receiver.specs.Listeners.{StandsFor, ready_answer, ready_pages};
    ghost use Rattle.receiver.specs.Heard.{heard};
    ghost use Rattle.receiver.specs.Slots.{slots_in};

    /// Receivers of these pairs of a number and a capcode, that were fed no bit. The numbers are from 1 to 64. Memory comes only where
    /// there was none for the pairs. No later call takes memory.
    pub fn new(alloc: Global, pairs: &[(u32, Capcode)]) -> Result<Group, Memory>
        requires numbers { All (λ pair. (1 ≤ pair.0) × (pair.0 ≤ most_receivers)) pairs.now }
        ensures capcodes { IfOk result (λ g. (c : ℕ) → is_one_of g.capcodes c ≡ is_listed pairs.now c) }
        ensures has { IfOk result (λ g. (number c : ℕ) → has_in g.holders number c ≡ is_paired pairs.now number c) }
        ensures ready { IfOk result (λ g. g.ready ≡ None) }
        ensures stands { IfOk result (λ g. StandsFor g []) }
    {
        let Ok(holders) = Holders::of(alloc, pairs) else {
            return Err(Memory);
        };
        Ok(Group {
            front: Front::new(),
            holders,
            gathering: Gathering::new(),
        })
    }

    /// The number of the receiver that comes after so many among those that have this capcode, in ascending order. None exactly where
    /// there are no more than so many. The time doesn't grow with the number of receivers.
    pub fn holder(&self, capcode: Capcode, k: u32) -> Option<u32>
        ensures { result ≡ slice_get (numbers_with (has_in self.now.holders) capcode) k }
    {
        self.holders.holder(capcode, k)
    }

    /// Takes the next bit. Answers the page that it completes, and None exactly where it completes none. Counts one step for the word of
    /// a slot that it completes, and none at another bit.
    pub fn feed<L: Ledger>(&mut self, bit: bool, steps: &mut Steps<L>) -> Option<Ready>
        ensures capcodes { self.new.capcodes ≡ self.old.capcodes }
        ensures holders { self.new.holders ≡ self.old.holders }
        ensures stands { (bits : List Bool) → StandsFor self.old bits → StandsFor self.new (bits ++ bit ∷ []) }
        ensures page { (bits : List Bool) → StandsFor self.old bits
            → heard (is_one_of self.old.capcodes) (bits ++ bit ∷ []) ≡ heard (is_one_of self.old.capcodes) bits ++ ready_pages self.new.ready }
        ensures answer { result ≡ ready_answer self.new.ready }
        ensures steps { (bits : List Bool) → StandsFor self.old bits → steps.new + slots_in bits ≡ steps.old + slots_in (bits ++ bit ∷ []) }
    {
        self.gathering.forget();
        let event = self.front.feed(bit);
        self.gathering.meet(event, &self.holders, steps)
    }

    /// Takes the first bits of a piece: up to a bit that completes a page, or all. Answers the page, and None exactly where none is
    /// complete. No shorter front of these bits completes a page. Counts one step for the word of each slot that they complete.
    #[inline(always)]
    pub fn feed_piece<L: Ledger>(
        &mut self,
        piece: &mut Piece,
        steps: &mut Steps<L>,
    ) -> Option<Ready>
        ensures capcodes { self.new.capcodes ≡ self.old.capcodes }
        ensures holders { self.new.holders ≡ self.old.holders }
        ensures stands { (bits : List Bool) → StandsFor self.old bits → StandsFor self.new (bits ++ taken_of piece.old piece.new) }
        ensures page { (bits : List Bool) → StandsFor self.old bits
            → heard (is_one_of self.old.capcodes) (bits ++ taken_of piece.old piece.new) ≡ heard (is_one_of self.old.capcodes) bits ++ ready_pages self.new.ready }
        ensures answer { result ≡ ready_answer self.new.ready }
        ensures whole { piece.old ≡ taken_of piece.old piece.new ++ piece.new }
        ensures all { result ≡ None → piece.new ≡ [] }
        ensures some { 0 < length piece.old → length piece.new < length piece.old }
        ensures last { (bits front : List Bool) → StandsFor self.old bits → IsShorterFront front (taken_of piece.old piece.new)
            → heard (is_one_of self.old.capcodes) (bits ++ front) ≡ heard (is_one_of self.old.capcodes) bits }
        ensures steps { (bits : List Bool) → StandsFor self.old bits → steps.new + slots_in bits ≡ steps.old + slots_in (bits ++ taken_of piece.old piece.new) }
    {
        loop {
            self.gathering.forget();
            let event = self.front.feed_piece(piece);
            if let Some(page) = self.gathering.meet(event, &self.holders, steps) {
                return Some(page);
            }
            if piece.is_empty() {
                return None;
            }
        }
    }

    /// Writes the text of the page that the last `feed` answered to the front of `into`, which has at least `LONGEST_READ` bytes, and answers its
    /// length. What stands behind the text in `into` is open.
    pub fn text(&self, into: &mut [u8]) -> usize
        requires ready { IsSome self.now.ready }
        requires room { LONGEST_READ ≤ length into.old }
        ensures text { IfSome self.now.ready (λ page. take result into.new ≡ text_of page.function page.groups) }
        ensures length { IfSome self.now.ready (λ page. result ≡ length (text_of page.function page.groups)) }
        ensures few { result ≤ LONGEST_READ }
    {
        self.gathering.text(into)
    }
}

/// Adds a receiver's number to those of a capcode. Memory comes only where there was none.
fn add_holder(
    holders: &mut BTreeMap<u32, u64, Global>,
    number: u32,
    capcode: Capcode,
) -> Result<(), Memory>
    requires some { 1 ≤ number }
    requires most { number ≤ most_receivers }
    ensures has { OnOk result ((n c : ℕ) → has_in holders.new.entries n c ≡ (has_in holders.old.entries n c || ((number == n) && (capcode == c)))) }
    ensures keys { OnOk result ((c : ℕ) → is_one_of (keys holders.new) c ≡ (is_one_of (keys holders.old) c || (capcode == c))) }
    ensures usable { IsUsable capcode }
{
    let key = capcode.number();
    let old = holders.get(&key).copied().unwrap_or(0);
    match holders.insert(key, old | (1 << (number - 1))) {
        Ok(_) => Ok(()),
        Err(_) => Err(Memory),
    }
}

/// The number that comes after so many in a set of numbers, in ascending order.
fn number_in(set: u64, k: u32) -> Option<u32>
    ensures { result ≡ slice_get (numbers_in set) k }
{
    let mut before = k;
    for n in 0..MOST_RECEIVERS {
        if set >> n == 0 {
            return None;
        }
        if (set >> n) & 1 == 1 {
            if before == 0 {
                return Some(n + 1);
            }
            before -= 1;
        }
    }
    None
}
