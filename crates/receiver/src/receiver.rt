//! A receiver of one to four capcodes: docs/profile.md, "page heard".

ghost use Rattle.std.specs.Prelude.{◌≡◌, ℕ, ◌≤◌, ◌<◌, [], ◌∷◌, ◌++◌, Bool, IfSome, IsSome, List, None, length, take};
ghost use Rattle.page_text.specs.Texts.{text_of};
ghost use Rattle.receiver.specs.Last.{IsShorterFront};
ghost use Rattle.receiver.specs.Listeners.{is_one_of};
ghost use Rattle.wires.specs.Pieces.{taken_of};

use crate::front::Front;
use crate::gathering::{CapcodeSet, Gathering};
use crate::ready::Ready;
use codeword::Capcode;
use page_text::LONGEST_READ;
use std::marker::Model;
use wires::piece::Piece;
use wires::steps::{Steps, Work};

/// The most capcodes of a receiver.
pub const MOST_CAPCODES: usize = 4;

/// One to four capcodes.
#[derive(Drop)]
struct Capcodes {
    items: [Capcode; MOST_CAPCODES],
    count: usize,
}

impl Model for Capcodes {
    ghost use Rattle.std.specs.Prelude.{ℕ, ◌≤◌, List, take};

    ghost Value = { List ℕ };

    ghost view = { λ c. take c.count c.items };

    ghost invariant = { λ c. c.count ≤ 4 };
}

impl Capcodes {
    /// These capcodes.
    fn of(capcodes: &[Capcode]) -> Capcodes
        requires some { 1 ≤ length capcodes.now }
        requires few { length capcodes.now ≤ 4 }
        ensures { result ≡ capcodes.now }
    {
        let mut items = [capcodes[0]; MOST_CAPCODES];
        items[..capcodes.len()].copy_from_slice(capcodes);
        Capcodes {
            items,
            count: capcodes.len(),
        }
    }
}

impl CapcodeSet for Capcodes {
    ghost capcodes = { λ c. c };

    fn find(&self, number: u32) -> Option<Capcode> {
        for capcode in &self.items[..self.count] {
            if capcode.number() == number {
                return Some(*capcode);
            }
        }
        None
    }
}

/// A receiver of one to four capcodes, fed bit by bit.
#[derive(Drop)]
pub struct Receiver {
    front: Front,
    capcodes: Capcodes,
    gathering: Gathering,
}

impl Model for Receiver {
    ghost use Rattle.std.specs.Prelude.{[]};
    ghost use Rattle.receiver.specs.Listeners.{Listener, listener_of};

    ghost Value = { Listener };

    ghost view = { λ r. listener_of r.front r.capcodes [] r.gathering };
}

impl Receiver {
    ghost use Rattle.receiver.specs.Listeners.{StandsFor, ready_answer, ready_pages};
    ghost use Rattle.receiver.specs.Heard.{heard};

    /// A receiver of these one to four capcodes that was fed no bit.
    pub fn new(capcodes: &[Capcode]) -> Receiver
        requires some { 1 ≤ length capcodes.now }
        requires few { length capcodes.now ≤ 4 }
        ensures capcodes { result.capcodes ≡ capcodes.now }
        ensures ready { result.ready ≡ None }
        ensures stands { StandsFor result [] }
    {
        Receiver {
            front: Front::new(),
            capcodes: Capcodes::of(capcodes),
            gathering: Gathering::new(),
        }
    }

    /// Takes the next bit. Answers the page that it completes, and None exactly where it completes none.
    pub fn feed(&mut self, bit: bool) -> Option<Ready>
        ensures capcodes { self.new.capcodes ≡ self.old.capcodes }
        ensures holders { self.new.holders ≡ self.old.holders }
        ensures stands { (bits : List Bool) → StandsFor self.old bits → StandsFor self.new (bits ++ bit ∷ []) }
        ensures page { (bits : List Bool) → StandsFor self.old bits
            → heard (is_one_of self.old.capcodes) (bits ++ bit ∷ []) ≡ heard (is_one_of self.old.capcodes) bits ++ ready_pages self.new.ready }
        ensures answer { result ≡ ready_answer self.new.ready }
    {
        self.gathering.forget();
        let event = self.front.feed(bit);
        self.gathering
            .meet(event, &self.capcodes, &mut Steps::<Work>::new())
    }

    /// Takes the first bits of a piece: up to a bit that completes a page, or all. Answers the page, and None exactly where none is
    /// complete. No shorter front of these bits completes a page.
    pub fn feed_piece(&mut self, piece: &mut Piece) -> Option<Ready>
        ensures capcodes { self.new.capcodes ≡ self.old.capcodes }
        ensures holders { self.new.holders ≡ self.old.holders }
        ensures stands { (bits : List Bool) → StandsFor self.old bits → StandsFor self.new (bits ++ taken_of piece.old piece.new) }
        ensures page { (bits : List Bool) → StandsFor self.old bits
            → heard (is_one_of self.old.capcodes) (bits ++ taken_of piece.old piece.new) ≡ heard (is_one_of self.old.capcodes) bits ++ ready_pages self.new.ready }
        ensures answer { result ≡ ready_answer self.new.ready }
        ensures whole { piece.old ≡ taken_of piece.old piece.new ++ piece.new }
        ensures all { result ≡ None → piece.new ≡ [] }
        ensures some { 0 < length piece.old → length piece.new < length piece.old }
        ensures last { (bits front : List Bool) → StandsFor self.old bits → IsShorterFront front (taken_of piece.old piece.new)
            → heard (is_one_of self.old.capcodes) (bits ++ front) ≡ heard (is_one_of self.old.capcodes) bits }
    {
        let mut steps = Steps::<Work>::new();
        loop {
            self.gathering.forget();
            let event = self.front.feed_piece(piece);
            if let Some(page) = self.gathering.meet(event, &self.capcodes, &mut steps) {
                return Some(page);
            }
            if piece.is_empty() {
                return None;
            }
        }
    }

    /// Writes the text of the page that the last `feed` answered to the front of `into`, which has at least `LONGEST_READ` bytes, and answers its
    /// length. What stands behind the text in `into` is open.
    pub fn text(&self, into: &mut [u8]) -> usize
        requires ready { IsSome self.now.ready }
        requires room { LONGEST_READ ≤ length into.old }
        ensures text { IfSome self.now.ready (λ page. take result into.new ≡ text_of page.function page.groups) }
        ensures length { IfSome self.now.ready (λ page. result ≡ length (text_of page.function page.groups)) }
        ensures few { result ≤ LONGEST_READ }
    {
        self.gathering.text(into)
    }
}
