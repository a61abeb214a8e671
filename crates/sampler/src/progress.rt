//! How far the first samples of a source are read and counted.
ghost use Rattle.sampler.specs.Stacked.{PassesAll, follows, sampled_over};
ghost use Rattle.std.specs.Prelude.{◌≡◌, ◌≢◌, ◌+◌, ◌<◌, ◌≤◌, [], IfOk, IsFalse, IsSome, IsTrue, None, OnOk, false, length, unwrap_or};
ghost use Rattle.wires.specs.Ahead.{Fills};
ghost use Rattle.wires.specs.Left.{TakesPiece};

use crate::counter::Counter;
use wires::Failed;
use wires::piece::Piece;
use wires::source::BitSource;

/// How far the first samples of a source are read and counted. Each call is given the source.
#[derive(Drop)]
pub(crate) struct Progress {
    /// How many samples may still be read.
    limit: u64,
    counter: Counter,
    /// Whether there is a further sample after the limit, once that was asked.
    further: Option<bool>,
    ghost past: { IsSome further → limit ≡ 0 },
}

impl Progress {
    /// No sample was read, and so many may be.
    pub(crate) fn new(limit: u64) -> Progress
        ensures limit { result.limit ≡ limit }
        ensures counter { result.counter ≡ record { ready = []; last = false; count = 0 } }
        ensures further { result.further ≡ None }
    {
        Progress {
            limit,
            counter: Counter::new(),
            further: None,
        }
    }

    /// Whether there was a further sample after the limit.
    pub(crate) fn beyond(&self) -> bool
        ensures { result ≡ unwrap_or self.now.further false }
    {
        self.further.unwrap_or(false)
    }

    /// Reads on to the end, past all bits that are left, and answers whether there is a further sample after the limit.
    pub(crate) fn end<B: BitSource>(&mut self, samples: &mut B) -> Result<bool, Failed>
        ensures passes { PassesAll (sampled_over self.old.counter self.old.limit self.old.further (B.state samples.old))
            (sampled_over self.new.counter self.new.limit self.new.further (B.state samples.new)) result }
        ensures further { IfOk result (λ more. unwrap_or self.new.further false ≡ more) }
    {
        while self.fill(samples)? {
            self.counter.bits(u32::BITS);
        }
        Ok(self.beyond())
    }

    /// Takes some of the bits left, the first of them, at most so many. It answers no bit exactly where none are left.
    #[inline(always)]
    pub(crate) fn piece<B: BitSource>(
        &mut self,
        samples: &mut B,
        most: u32,
    ) -> Result<Piece, Failed>
        requires { 0 < most }
        ensures { TakesPiece most (sampled_over self.old.counter self.old.limit self.old.further (B.state samples.old))
            (sampled_over self.new.counter self.new.limit self.new.further (B.state samples.new)) result }
    {
        while self.fill(samples)? {
            let bits = self.counter.bits(most);
            if !bits.is_empty() {
                return Ok(bits);
            }
        }
        Ok(Piece::of(0, 0))
    }

    /// Sees to it that a sample is ready, where one is left, and answers whether one is. At the limit it asks for a
    /// further sample.
    #[inline(always)]
    fn fill<B: BitSource>(&mut self, samples: &mut B) -> Result<bool, Failed>
        ensures fills { Fills (sampled_over self.old.counter self.old.limit self.old.further (B.state samples.old))
            (sampled_over self.new.counter self.new.limit self.new.further (B.state samples.new)) self.new.counter.ready result }
        ensures ready { IfOk result (λ more. IsTrue more → self.new.counter.ready ≢ []) }
        ensures none { IfOk result (λ more. IsFalse more → self.new.counter.ready ≡ []) }
        ensures further { IsTrue (B.state samples.old).tells → IfOk result (λ more. IsFalse more → unwrap_or self.new.further false
            ≡ follows (sampled_over self.old.counter self.old.limit self.old.further (B.state samples.old)).lent) }
        ensures fewer { OnOk result (self.new.limit + length self.new.counter.ready ≤ self.old.limit + length self.old.counter.ready) }
    {
        if !self.counter.is_empty() {
            return Ok(true);
        }
        if self.limit == 0 {
            self.ask(samples)?;
            return Ok(false);
        }
        self.read(samples)
    }

    /// Reads some samples, where none is ready.
    #[inline(always)]
    fn read<B: BitSource>(&mut self, source: &mut B) -> Result<bool, Failed>
        requires none { self.old.counter.ready ≡ [] }
        requires some { 0 < self.old.limit }
        ensures fills { Fills (sampled_over self.old.counter self.old.limit self.old.further (B.state source.old))
            (sampled_over self.new.counter self.new.limit self.new.further (B.state source.new)) self.new.counter.ready result }
        ensures ready { IfOk result (λ more. IsTrue more → self.new.counter.ready ≢ []) }
        ensures none { IfOk result (λ more. IsFalse more → self.new.counter.ready ≡ []) }
        ensures further { IsTrue (B.state source.old).tells → IfOk result (λ more. IsFalse more → unwrap_or self.new.further false
            ≡ follows (sampled_over self.old.counter self.old.limit self.old.further (B.state source.old)).lent) }
        ensures fewer { OnOk result (self.new.limit + length self.new.counter.ready ≤ self.old.limit) }
    {
        let most = self.limit.min(u64::from(u32::BITS)) as u32;
        let samples = source.piece(most)?;
        self.limit -= u64::from(samples.len());
        self.counter.reads(samples);
        Ok(!self.counter.is_empty())
    }

    /// Asks once whether there is a further sample after the limit.
    fn ask<B: BitSource>(&mut self, samples: &mut B) -> Result<(), Failed>
        requires none { self.old.counter.ready ≡ [] }
        requires limit { self.old.limit ≡ 0 }
        ensures fills { Fills (sampled_over self.old.counter self.old.limit self.old.further (B.state samples.old))
            (sampled_over self.new.counter self.new.limit self.new.further (B.state samples.new)) [] result }
        ensures further { IsTrue (B.state samples.old).tells → OnOk result (unwrap_or self.new.further false
            ≡ follows (sampled_over self.old.counter self.old.limit self.old.further (B.state samples.old)).lent) }
        ensures limit { self.new.limit ≡ 0 }
        ensures counter { self.new.counter ≡ self.old.counter }
    {
        if self.further.is_some() {
            return Ok(());
        }
        self.further = Some(samples.bit()?.is_some());
        Ok(())
    }
}
