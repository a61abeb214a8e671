//! The bits of samples.
ghost use Rattle.sampler.specs.Runs.{sampled_bits};
ghost use Rattle.sampler.specs.Stacked.{PassesAll, follows, lent_source, sampled_over};
ghost use Rattle.std.specs.Prelude.{◌≡◌, ℕ, [], Bool, IfOk, IsTrue, None, false, length, nat_lt, take, unwrap_or};

use crate::progress::Progress;
use wires::Failed;
use wires::piece::Piece;
use wires::source::BitSource;

/// The bits of the first samples of a source: of each run of equal samples, an eighth of its length, rounded to the
/// nearest. Its faults are those of the samples.
#[derive(Drop)]
pub struct Sampled<B: BitSource> {
    samples: B,
    progress: Progress,
}

impl<B: BitSource> Sampled<B> {
    /// The bits of the first of these samples, as many as the limit says.
    pub fn over(samples: B, limit: u64) -> Sampled<B>
        ensures state { ⟦<Sampled<B> as BitSource>⟧.state result ≡ sampled_over (record { ready = []; last = false; count = 0 }) limit None (B.state samples) }
        ensures left { (⟦<Sampled<B> as BitSource>⟧.state result).left ≡ sampled_bits (take limit (B.state samples).left) }
        ensures follows { IsTrue (B.state samples).tells → follows (⟦<Sampled<B> as BitSource>⟧.state result).lent ≡ nat_lt limit (length (B.state samples).left) }
    {
        Sampled {
            samples,
            progress: Progress::new(limit),
        }
    }

    /// Whether there was a further sample after the limit. It is asked for at the end of the bits.
    pub fn beyond(&self) -> bool
        ensures further { result ≡ unwrap_or self.now.progress.further false }
        ensures follows { IsTrue (⟦<Sampled<B> as BitSource>⟧.state self.now).tells → IsTrue result → IsTrue (follows (⟦<Sampled<B> as BitSource>⟧.state self.now).lent) }
    {
        self.progress.beyond()
    }

    /// Reads on to the end, past all bits that are left, and answers whether there is a further sample after the limit.
    pub fn end(&mut self) -> Result<bool, Failed>
        ensures passes { PassesAll (⟦<Sampled<B> as BitSource>⟧.state self.old) (⟦<Sampled<B> as BitSource>⟧.state self.new) result }
        ensures further { IfOk result (λ more. unwrap_or self.new.progress.further false ≡ more) }
    {
        self.progress.end(&mut self.samples)
    }
}

impl<B: BitSource> BitSource for Sampled<B> {
    ghost state = { λ s. sampled_over s.progress.counter s.progress.limit s.progress.further (B.state s.samples) };

    fn bit(&mut self) -> Result<Option<bool>, Failed> {
        let mut bits = self.piece(1)?;
        Ok(bits.pop())
    }

    #[inline(always)]
    fn piece(&mut self, most: u32) -> Result<Piece, Failed> {
        self.progress.piece(&mut self.samples, most)
    }
}

/// The bits of the first samples of a source that is borrowed, as `Sampled` gives them of a source of its own.
#[derive(Drop)]
pub struct SampledFrom<'a, B: BitSource> {
    samples: &'a mut B,
    progress: Progress,
}

impl<'a, B: BitSource> SampledFrom<'a, B> {
    /// The bits of the first of these samples, as many as the limit says.
    pub fn over(samples: &'a mut B, limit: u64) -> SampledFrom<'a, B>
        ensures same_reference { result.samples.ghost_name ≡ samples.entry.ghost_name }
        ensures state { ⟦<SampledFrom<'a, B> as BitSource>⟧.state result
            ≡ sampled_over (record { ready = []; last = false; count = 0 }) limit None (lent_source result.samples.ghost_name (B.state samples.old)) }
        ensures left { (⟦<SampledFrom<'a, B> as BitSource>⟧.state result).left ≡ sampled_bits (take limit (B.state samples.old).left) }
        ensures follows { IsTrue (B.state samples.old).tells → follows (⟦<SampledFrom<'a, B> as BitSource>⟧.state result).lent ≡ nat_lt limit (length (B.state samples.old).left) }
    {
        SampledFrom {
            samples,
            progress: Progress::new(limit),
        }
    }

    /// Reads on to the end, past all bits that are left, and answers whether there is a further sample after the limit.
    pub fn end(&mut self) -> Result<bool, Failed>
        ensures { PassesAll (⟦<SampledFrom<'a, B> as BitSource>⟧.state self.old) (⟦<SampledFrom<'a, B> as BitSource>⟧.state self.new) result }
    {
        self.progress.end(self.samples)
    }
}

impl<'a, B: BitSource> BitSource for SampledFrom<'a, B> {
    ghost state = { λ s. sampled_over s.progress.counter s.progress.limit s.progress.further (lent_source s.samples.ghost_name (B.state s.samples.now)) };

    fn bit(&mut self) -> Result<Option<bool>, Failed> {
        let mut bits = self.piece(1)?;
        Ok(bits.pop())
    }

    #[inline(always)]
    fn piece(&mut self, most: u32) -> Result<Piece, Failed> {
        self.progress.piece(self.samples, most)
    }
}
