//! Bits that are gathered, a run at a time.
ghost use Rattle.std.specs.Prelude.{◌≡◌, ℕ, ◌+◌, ◌≤◌, ◌++◌, [], length, replicate};

use std::marker::Model;
use wires::piece::Piece;

/// Some bits that come next, at most 32. Contracts see their list.
#[derive(Drop)]
pub(crate) struct Gathered {
    bits: u32,
    count: u32,
}

impl Model for Gathered {
    ghost use Rattle.std.specs.Prelude.{List, Bool, ◌≤◌};
    ghost use Rattle.bits.specs.Bits.{bits_of};

    ghost Value = { List Bool };

    ghost view = { λ g. bits_of g.count g.bits };

    ghost invariant = { λ g. g.count ≤ 32 };
}

impl Gathered {
    /// No bit.
    #[inline(always)]
    pub(crate) fn none() -> Gathered
        ensures { result ≡ [] }
    {
        Gathered { bits: 0, count: 0 }
    }

    /// How many there are.
    #[inline(always)]
    pub(crate) fn len(&self) -> u32
        ensures length { result ≡ length self.now }
        ensures few { result ≤ 32 }
    {
        self.count
    }

    /// Adds n equal bits.
    #[inline(always)]
    pub(crate) fn repeat(&mut self, value: bool, n: u32)
        requires { length self.old + n ≤ 32 }
        ensures { self.new ≡ self.old ++ replicate n value }
    {
        let run = if value { (1u64 << n) - 1 } else { 0 };
        self.bits = (((u64::from(self.bits) << n) + run) % (1u64 << u32::BITS)) as u32;
        self.count += n;
    }

    /// All of them as a piece.
    #[inline(always)]
    pub(crate) fn piece(self) -> Piece
        ensures { result ≡ self }
    {
        Piece::of(self.bits, self.count)
    }
}
