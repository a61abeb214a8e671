//! Bits that are handed on together.

ghost use Rattle.std.specs.Prelude.{◌≡◌, ◌↔◌, ◌≤◌, ◌<◌, ◌^◌, [], ◌∷◌, IsTrue, MatchOption, length, take, drop};
ghost use Rattle.bits.specs.Bits.{bits_of};

use std::marker::Model;

/// Some bits that come next, at most 32. Contracts see the list of the bits that are left.
#[derive(Drop)]
pub struct Piece {
    bits: u32,
    count: u32,
}

impl Model for Piece {
    ghost use Rattle.std.specs.Prelude.{List, Bool, ◌≤◌};
    ghost use Rattle.bits.specs.Bits.{bits_of};

    ghost Value = { List Bool };

    ghost view = { λ p. bits_of p.count p.bits };

    ghost invariant = { λ p. p.count ≤ 32 };
}

impl Piece {
    /// The lowest bits of a word, so many, the most significant of them first.
    #[inline(always)]
    pub fn of(bits: u32, count: u32) -> Piece
        requires { count ≤ 32 }
        ensures { result ≡ bits_of count bits }
    {
        Piece { bits, count }
    }

    /// Whether no bit is left.
    #[inline(always)]
    pub fn is_empty(&self) -> bool
        ensures { IsTrue result ↔ (self.now ≡ []) }
    {
        self.count == 0
    }

    /// How many bits are left.
    #[inline(always)]
    pub fn len(&self) -> u32
        ensures length { result ≡ length self.now }
        ensures few { result ≤ 32 }
    {
        self.count
    }

    /// Takes the first bit, where one is left.
    #[inline(always)]
    pub fn pop(&mut self) -> Option<bool>
        ensures { MatchOption result ((self.old ≡ []) × (self.new ≡ [])) (λ bit. self.old ≡ bit ∷ self.new) }
    {
        if self.count == 0 {
            return None;
        }
        self.count -= 1;
        Some((self.bits >> self.count) % 2 == 1)
    }

    /// The number that the bits make.
    #[inline(always)]
    pub fn number(&self) -> u64
        ensures bits { bits_of (length self.now) result ≡ self.now }
        ensures small { result < 2 ^ length self.now }
    {
        u64::from(self.bits) % (1u64 << self.count)
    }

    /// Passes over the first n bits.
    #[inline(always)]
    pub fn skip(&mut self, n: u32)
        requires { n ≤ length self.old }
        ensures { self.new ≡ drop n self.old }
    {
        self.count -= n;
    }

    /// Takes the first n bits, as a number.
    #[inline(always)]
    pub fn take(&mut self, n: u32) -> u64
        requires { n ≤ length self.old }
        ensures first { bits_of n result ≡ take n self.old }
        ensures small { result < 2 ^ n }
        ensures left { self.new ≡ drop n self.old }
    {
        self.count -= n;
        (u64::from(self.bits) >> self.count) % (1u64 << n)
    }
}
