//! The count of equal samples since the last edge.
ghost use Rattle.std.specs.Prelude.{◌≡◌, ◌≢◌, ◌↔◌, ℕ, Bool, IsTrue, List, false, not, ◌+◌, ◌<◌, ◌≤◌, ◌^◌, ◌++◌, [], length, replicate};
ghost use Rattle.bits.specs.Bits.{bits_of};
ghost use Rattle.sampler.specs.Edges.{changes};
ghost use Rattle.sampler.specs.Stacked.{bits_after, counted_bits};

use crate::gathered::Gathered;
use std::marker::Model;
use wires::piece::Piece;

/// Samples that were read, and how many came before them since the last edge.
#[derive(Drop)]
pub(crate) struct Counter {
    /// The samples that were read and are not counted yet.
    ready: Piece,
    /// The sample that was counted last.
    last: bool,
    /// Four more than the samples since the last edge, modulo 8: a bit is given where this comes to 8.
    toward: u32,
}

impl Model for Counter {
    ghost use Rattle.sampler.specs.Stacked.{Counted};
    ghost use Rattle.std.specs.Prelude.{◌<◌, ◌+◌, ◌%◌};

    ghost Value = { Counted };

    ghost view = { λ c. record { ready = c.ready; last = c.last; count = (c.toward + 4) % 8 } };

    ghost invariant = { λ c. c.toward < 8 };
}

impl Counter {
    /// No sample was read.
    pub(crate) fn new() -> Counter
        ensures { result ≡ record { ready = []; last = false; count = 0 } }
    {
        Counter {
            ready: Piece::of(0, 0),
            last: false,
            toward: 4,
        }
    }

    /// Counts n further samples that are equal to the last one, and adds the bits that they give.
    #[inline(always)]
    fn count_equal(&mut self, n: u32, bits: &mut Gathered)
        requires { length bits.old + n ≤ 32 }
        ensures gives { (rest : List Bool) → bits.old ++ bits_after self.old.last self.old.count (replicate n self.old.last ++ rest)
            ≡ bits.new ++ bits_after self.new.last self.new.count rest }
        ensures few { length bits.new ≤ length bits.old + n }
        ensures last { self.new.last ≡ self.old.last }
        ensures ready { self.new.ready ≡ self.old.ready }
    {
        let toward = self.toward + n;
        bits.repeat(self.last, toward / 8);
        self.toward = toward % 8;
    }

    /// The next sample differs from the last one: the count begins again.
    #[inline(always)]
    fn turn(&mut self)
        ensures { self.new ≡ record { ready = self.old.ready; last = not self.old.last; count = 0 } }
    {
        self.last = !self.last;
        self.toward = 4;
    }

    /// Counts samples, from one edge to the next. They are the n lowest bits of a number.
    #[inline(always)]
    fn count(&mut self, samples: u64, n: u32) -> Gathered
        requires few { n ≤ 32 }
        requires small { samples < 2 ^ n }
        ensures gives { (rest : List Bool) → bits_after self.old.last self.old.count (bits_of n samples ++ rest) ≡ result ++ bits_after self.new.last self.new.count rest }
        ensures few { length result ≤ n }
        ensures ready { self.new.ready ≡ self.old.ready }
    {
        let mut bits = Gathered::none();
        let mut edges = edges(self.last, samples, n);
        let mut left = n;
        while edges > 0 {
            let behind = edges.ilog2();
            self.count_equal(left - 1 - behind, &mut bits);
            self.turn();
            edges -= 1 << behind;
            left = behind + 1;
        }
        self.count_equal(left, &mut bits);
        bits
    }

    /// The bits of the first samples that are ready, of at most so many.
    #[inline(always)]
    pub(crate) fn bits(&mut self, most: u32) -> Piece
        requires { 0 < most }
        ensures gives { (rest : List Bool) → counted_bits self.old rest ≡ result ++ counted_bits self.new rest }
        ensures few { length result ≤ most }
        ensures shorter { self.old.ready ≢ [] → length self.new.ready < length self.old.ready }
    {
        let n = most.min(self.ready.len());
        let samples = self.ready.take(n);
        self.count(samples, n).piece()
    }

    /// Whether no sample is ready.
    #[inline(always)]
    pub(crate) fn is_empty(&self) -> bool
        ensures { IsTrue result ↔ (self.now.ready ≡ []) }
    {
        self.ready.is_empty()
    }

    /// These samples come next, where none is ready.
    #[inline(always)]
    pub(crate) fn reads(&mut self, samples: Piece)
        ensures { self.new ≡ record { ready = samples; last = self.old.last; count = self.old.count } }
    {
        self.ready = samples;
    }
}

/// A one for each sample that differs from the one before it, at its place in the number whose n lowest bits they are. The last sample
/// came before the first of them.
#[inline(always)]
fn edges(last: bool, samples: u64, n: u32) -> u64
    requires few { n ≤ 32 }
    requires small { samples < 2 ^ n }
    ensures edges { bits_of n result ≡ changes last (bits_of n samples) }
    ensures small { result < 2 ^ n }
{
    let with_last = (u64::from(last) << n) + samples;
    (with_last ^ (with_last >> 1)) % (1 << n)
}
