//! The words of a transmission, recorded so that their bits come twice.

ghost use Rattle.std.specs.Prelude.{◌≡◌, ◌↔◌, ◌≤◌, ◌<◌, ◌∷◌, ◌++◌, [], IfOk, IsFalse, IsTrue, length, true};
ghost use Rattle.repeats.specs.Recordings.{copies_left, recorded_words, steady_bits, twice_bits};

use std::alloc::Global;
use std::marker::Model;
use wires::piece::Piece;
use wires::source::BitSource;
use wires::{Failed, Memory};

/// The bits of a word.
const WORD_BITS: u32 = 32;

/// How many words a recording has room for: more than a transmission of the largest pool has.
fn most_words() -> usize
    ensures { result ≡ recorded_words }
{
    1_900_000
}

/// Words, at most 1,900,000. Contracts see their list.
#[derive(Drop)]
pub struct Recording {
    words: Vec<u32>,
    count: usize,
}

impl Model for Recording {
    ghost use Rattle.std.specs.Prelude.{◌≡◌, ◌≤◌, ℕ, List, length, take};
    ghost use Rattle.repeats.specs.Recordings.{recorded_words};

    ghost Value = { List ℕ };

    ghost view = { λ r. take r.count r.words.items };

    ghost invariant = { λ r. (length r.words.items ≡ recorded_words) × (r.count ≤ recorded_words) };
}

impl Recording {
    ghost use Rattle.repeats.specs.RecordingReaders.{recorded_left};

    /// No word, and room for 1,900,000. Memory comes only where there was none. No later call takes memory.
    pub fn new(alloc: Global) -> Result<Recording, Memory>
        ensures { IfOk result (λ r. r ≡ []) }
    {
        let n = most_words();
        let Ok(words) = vec![in alloc; 0u32; n] else {
            return Err(Memory);
        };
        Ok(Recording { words, count: 0 })
    }

    /// Removes all words.
    pub fn clear(&mut self)
        ensures { self.new ≡ [] }
    {
        self.count = 0;
    }

    /// Whether there is no room for another word.
    pub fn is_full(&self) -> bool
        ensures { IsTrue result ↔ (recorded_words ≤ length self.now) }
    {
        self.count >= most_words()
    }

    /// Appends a word. There are fewer than 1,900,000.
    pub fn push(&mut self, word: u32)
        requires { length self.old < recorded_words }
        ensures { self.new ≡ self.old ++ word ∷ [] }
    {
        self.words[self.count] = word;
        self.count += 1;
    }

    /// The bits of the words, twice. They are told and always steady.
    pub fn bits(&self) -> RecordingBits<'_>
        ensures { recorded_left result ≡ twice_bits self.now }
    {
        RecordingBits {
            words: &self.words[..self.count],
            at: 0,
            is_second: false,
            word: 0,
            pending: 0,
        }
    }
}

/// The bits of recorded words, twice. They are told, are always steady, and have no faults.
#[derive(Drop)]
pub struct RecordingBits<'a> {
    words: &'a [u32],
    /// The place of the next word.
    at: usize,
    /// Whether the words come for the second time.
    is_second: bool,
    /// The word that was begun last.
    word: u32,
    /// How many of its bits are still to come.
    pending: u32,
    ghost within: { pending ≤ 32 },
}

impl<'a> RecordingBits<'a> {
    /// Where all words came for the first time, they come for the second.
    #[inline(always)]
    fn turn(&mut self)
        ensures words { self.new.words ≡ self.old.words }
        ensures pending { self.new.pending ≡ self.old.pending }
        ensures same { copies_left self.new.pending self.new.word self.new.words.now self.new.at self.new.is_second
            ≡ copies_left self.old.pending self.old.word self.old.words.now self.old.at self.old.is_second }
        ensures second { length self.new.words.now ≤ self.new.at → self.new.is_second ≡ true }
    {
        if self.is_second {
            return;
        }
        if self.at < self.words.len() {
            return;
        }
        self.is_second = true;
        self.at = 0;
    }

    /// Sees to it that a bit of a word that was begun is left, and answers whether one is.
    #[inline(always)]
    fn begin(&mut self) -> bool
        ensures words { self.new.words ≡ self.old.words }
        ensures same { copies_left self.new.pending self.new.word self.new.words.now self.new.at self.new.is_second
            ≡ copies_left self.old.pending self.old.word self.old.words.now self.old.at self.old.is_second }
        ensures begun { IsTrue result → 0 < self.new.pending }
        ensures ended { IsFalse result → copies_left self.old.pending self.old.word self.old.words.now self.old.at self.old.is_second ≡ [] }
    {
        if self.pending != 0 {
            return true;
        }
        self.turn();
        if self.at >= self.words.len() {
            return false;
        }
        self.word = self.words[self.at];
        self.at += 1;
        self.pending = WORD_BITS;
        true
    }
}

impl<'a> BitSource for RecordingBits<'a> {
    ghost state = { λ s. steady_bits (copies_left s.pending s.word s.words.now s.at s.is_second) };

    fn bit(&mut self) -> Result<Option<bool>, Failed> {
        if !self.begin() {
            return Ok(None);
        }
        self.pending -= 1;
        Ok(Some((self.word >> self.pending) % 2 == 1))
    }

    fn piece(&mut self, most: u32) -> Result<Piece, Failed> {
        if !self.begin() {
            return Ok(Piece::of(0, 0));
        }
        let count = most.min(self.pending);
        self.pending -= count;
        Ok(Piece::of(self.word >> self.pending, count))
    }
}
