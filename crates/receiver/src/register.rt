//! The last bits that came.

ghost use Rattle.std.specs.Prelude.{◌≡◌, ◌+◌, ◌↔◌, ◌≤◌, ◌<◌, ◌++◌, [], ◌∷◌, IsTrue, length};
ghost use Rattle.bits.specs.Bits.{number, word_bits};
ghost use Rattle.receiver.specs.Registers.{last_32};
ghost use Rattle.wires.specs.Pieces.{taken_of};

use std::marker::Model;
use wires::piece::Piece;

/// The bits of a word.
pub(crate) const WORD_BITS: u32 = 32;

/// The last bits that came, at most 32.
#[derive(Drop)]
pub struct Register {
    bits: u32,
    count: u32,
}

impl Model for Register {
    ghost use Rattle.std.specs.Prelude.{List, Bool, ◌≤◌};
    ghost use Rattle.bits.specs.Bits.{bits_of};

    ghost Value = { List Bool };

    ghost view = { λ r. bits_of r.count r.bits };

    ghost invariant = { λ r. r.count ≤ 32 };
}

impl Register {
    /// Holds no bit.
    #[inline(always)]
    pub fn new() -> Register
        ensures { result ≡ [] }
    {
        Register { bits: 0, count: 0 }
    }

    /// Takes one more bit. Of 33 the first goes.
    #[inline(always)]
    pub fn push(&mut self, bit: bool)
        ensures { self.new ≡ last_32 (self.old ++ bit ∷ []) }
    {
        self.bits = (self.bits << 1) | u32::from(bit);
        if self.count < WORD_BITS {
            self.count += 1;
        }
    }

    /// Takes the first bits of a piece: as many as it has room for, or all.
    #[inline(always)]
    pub fn fill(&mut self, piece: &mut Piece)
        ensures joined { self.new ≡ self.old ++ taken_of piece.old piece.new }
        ensures whole { piece.old ≡ taken_of piece.old piece.new ++ piece.new }
        ensures few { length self.new ≤ 32 }
        ensures end { length self.new < 32 → piece.new ≡ [] }
    {
        if self.count == 0 && piece.len() == WORD_BITS {
            self.take_word(piece);
        } else {
            self.add(piece);
        }
    }

    /// Holds the bits of a piece of 32, and takes them all.
    #[inline(always)]
    fn take_word(&mut self, piece: &mut Piece)
        requires { length piece.old ≡ 32 }
        ensures word { self.new ≡ piece.old }
        ensures none { piece.new ≡ [] }
    {
        self.bits = piece.take(WORD_BITS) as u32;
        self.count = WORD_BITS;
    }

    /// Adds the first bits of a piece to those that it holds: as many as it has room for, or all.
    #[inline(always)]
    fn add(&mut self, piece: &mut Piece)
        ensures joined { self.new ≡ self.old ++ taken_of piece.old piece.new }
        ensures whole { piece.old ≡ taken_of piece.old piece.new ++ piece.new }
        ensures few { length self.new ≤ 32 }
        ensures end { length self.new < 32 → piece.new ≡ [] }
    {
        let room = WORD_BITS - self.count;
        let count = room.min(piece.len());
        let first = piece.take(count);
        self.bits = (((u64::from(self.bits) << count) | first) % (1 << WORD_BITS)) as u32;
        self.count += count;
    }

    /// Holds the bits of a word.
    #[inline(always)]
    pub fn hold(&mut self, word: u32)
        ensures { self.new ≡ word_bits word }
    {
        self.bits = word;
        self.count = WORD_BITS;
    }

    /// Forgets all bits.
    #[inline(always)]
    pub fn clear(&mut self)
        ensures { self.new ≡ [] }
    {
        self.count = 0;
    }

    /// How many bits it has room for.
    #[inline(always)]
    pub fn room(&self) -> u32
        ensures { result + length self.now ≡ 32 }
    {
        WORD_BITS - self.count
    }

    /// Whether it holds 32 bits.
    #[inline(always)]
    pub fn is_full(&self) -> bool
        ensures { IsTrue result ↔ (32 ≤ length self.now) }
    {
        self.count == WORD_BITS
    }

    /// The word that its 32 bits make.
    #[inline(always)]
    pub fn word(&self) -> u32
        requires { length self.now ≡ 32 }
        ensures { result ≡ number self.now }
    {
        self.bits
    }
}
