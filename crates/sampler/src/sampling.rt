//! The samples of bits.
ghost use Rattle.rand_pcg.specs.Lcg.{increment_of, started};
ghost use Rattle.rand_pcg.specs.Pcg.{multiplier_64};
ghost use Rattle.sampler.specs.Stacked.{ahead_bits, ahead_of, moved, ready_over, samples_of, sampling_over};
ghost use Rattle.sampler.specs.Strayed.{strayed};
ghost use Rattle.std.specs.Prelude.{◌≡◌, ℕ, ◌+◌, ◌-◌, ◌<◌, ◌≤◌, Bool, IsTrue, List, [], ◌++◌, false, length, replicate};
ghost use Rattle.wires.specs.Ahead.{Fills};

use crate::gathered::Gathered;
use crate::taken::OneByOne;
use rand_core::utils::NextWord;
use rand_pcg::Lcg64Xsh32;
use wires::Failed;
use wires::piece::Piece;
use wires::source::BitSource;

/// What comes after the bit whose samples are given out.
#[derive(Clone, Copy, Debug, PartialEq, Eq)]
pub enum Ahead {
    /// The first bit was not asked for.
    Unread,
    /// Another bit.
    Bit(bool),
    /// No bit.
    End,
}

impl Ahead {
    /// What is ahead after this answer.
    fn after(answer: Option<bool>) -> Ahead
        ensures { result ≡ ahead_of answer }
    {
        match answer {
            Some(bit) => Ahead::Bit(bit),
            None => Ahead::End,
        }
    }
}

/// The samples of bits, eight for each bit, where each edge between two different bits is moved by at most one sample.
/// Its faults are those of the bits.
#[derive(Drop)]
pub struct Sampling<B: BitSource> {
    bits: OneByOne<B>,
    generator: Lcg64Xsh32,
    ahead: Ahead,
    /// The bit whose samples are given out, and how many of them are left.
    value: bool,
    pending: u8,
    /// How far, plus one, the end of that bit's samples is moved.
    stray: u8,
    ghost within: { stray < 3 },
}

impl<B: BitSource> Sampling<B> {
    /// The samples of these bits, where the edges are moved by the generator of this seed.
    pub fn over(bits: B, seed: u64) -> Sampling<B>
        ensures state { ⟦<Sampling<B> as BitSource>⟧.state result ≡ sampling_over 0 false (started 64 multiplier_64 seed (increment_of 64 1)) 1 Ahead.Unread (ready_over [] (B.state bits)) }
        ensures left { (⟦<Sampling<B> as BitSource>⟧.state result).left ≡ strayed (B.state bits).left seed }
    {
        Sampling {
            bits: OneByOne::over(bits),
            generator: Lcg64Xsh32::new(seed, 1),
            ahead: Ahead::Unread,
            value: false,
            pending: 0,
            stray: 1,
        }
    }

    /// Gives out samples that are left of the bit, so that there are at most so many.
    #[inline(always)]
    fn give(&mut self, most: u32, samples: &mut Gathered)
        requires few { most ≤ 32 }
        requires room { length samples.old ≤ most }
        ensures gives { samples.old ++ replicate self.old.pending self.old.value ≡ samples.new ++ replicate self.new.pending self.new.value }
        ensures few { length samples.new ≤ most }
        ensures more { length samples.old ≤ length samples.new }
        ensures some { length samples.old < most → 0 < self.old.pending → length samples.old < length samples.new }
        ensures through { length samples.new < most → self.new.pending ≡ 0 }
        ensures value { self.new.value ≡ self.old.value }
        ensures generator { self.new.generator ≡ self.old.generator }
        ensures stray { self.new.stray ≡ self.old.stray }
        ensures ahead { self.new.ahead ≡ self.old.ahead }
        ensures bits { self.new.bits ≡ self.old.bits }
    {
        let n = (most - samples.len()).min(u32::from(self.pending));
        self.pending -= n as u8;
        samples.repeat(self.value, n);
    }

    /// Begins the samples of the next bit, where what comes after that was read, and answers whether it did.
    #[inline(always)]
    fn go_on(&mut self) -> bool
        requires { self.old.pending ≡ 0 }
        ensures gives { (below : List Bool)
            → samples_of self.old.pending self.old.value self.old.generator self.old.stray self.old.ahead (self.old.bits.ready ++ below)
            ≡ samples_of self.new.pending self.new.value self.new.generator self.new.stray self.new.ahead (self.new.bits.ready ++ below) }
        ensures some { IsTrue result → 0 < self.new.pending }
        ensures source { self.new.bits.source ≡ self.old.bits.source }
    {
        let Ahead::Bit(value) = self.ahead else {
            return false;
        };
        let Some(after) = self.bits.next_ready() else {
            return false;
        };
        self.place(value, Some(after));
        true
    }

    /// Gives out samples of the bit that was begun and of those behind it for which nothing has to be read, at most so many.
    #[inline(always)]
    fn gather(&mut self, most: u32) -> Piece
        ensures gives { (below : List Bool)
            → samples_of self.old.pending self.old.value self.old.generator self.old.stray self.old.ahead (self.old.bits.ready ++ below)
            ≡ result ++ samples_of self.new.pending self.new.value self.new.generator self.new.stray self.new.ahead (self.new.bits.ready ++ below) }
        ensures few { length result ≤ most }
        ensures some { 0 < most → 0 < self.old.pending → 0 < length result }
        ensures source { self.new.bits.source ≡ self.old.bits.source }
    {
        let asked = most.min(32);
        let mut samples = Gathered::none();
        self.give(asked, &mut samples);
        while samples.len() < asked && self.go_on() {
            self.give(asked, &mut samples);
        }
        samples.piece()
    }

    /// Asks for the first bit, where that was not done.
    fn begin(&mut self) -> Result<(), Failed>
        requires { self.old.pending ≡ 0 }
        ensures fills { Fills (sampling_over self.old.pending self.old.value self.old.generator self.old.stray self.old.ahead (⟦<OneByOne<B> as BitSource>⟧.state self.old.bits))
            (sampling_over self.new.pending self.new.value self.new.generator self.new.stray self.new.ahead (⟦<OneByOne<B> as BitSource>⟧.state self.new.bits)) (ahead_bits self.new.ahead []) result }
        ensures pending { self.new.pending ≡ 0 }
    {
        let Ahead::Unread = self.ahead else {
            return Ok(());
        };
        let first = self.bits.bit()?;
        self.ahead = Ahead::after(first);
        Ok(())
    }

    /// How far, plus one, the end of the samples of a bit is moved before what comes after it.
    fn draw(&mut self, value: bool, after: Option<bool>) -> u8
        ensures moved { (result, self.new.generator) ≡ moved self.old.generator value after }
        ensures within { result < 3 }
        ensures stray { self.new.stray ≡ self.old.stray }
        ensures bits { self.new.bits ≡ self.old.bits }
    {
        match after {
            None => 1,
            Some(bit) => {
                if value == bit {
                    1
                } else {
                    (self.generator.next_word() % 3) as u8
                }
            }
        }
    }

    /// Begins the samples of a bit.
    fn place(&mut self, value: bool, after: Option<bool>)
        ensures pending { self.new.pending ≡ 8 + self.new.stray - self.old.stray }
        ensures value { self.new.value ≡ value }
        ensures moved { (self.new.stray, self.new.generator) ≡ moved self.old.generator value after }
        ensures ahead { self.new.ahead ≡ ahead_of after }
        ensures bits { self.new.bits ≡ self.old.bits }
    {
        let stray = self.draw(value, after);
        self.pending = 8 + stray - self.stray;
        self.stray = stray;
        self.value = value;
        self.ahead = Ahead::after(after);
    }

    /// Begins the samples of the next bit, where there is one.
    fn fill(&mut self) -> Result<(), Failed>
        requires { self.old.pending ≡ 0 }
        ensures { Fills (sampling_over self.old.pending self.old.value self.old.generator self.old.stray self.old.ahead (⟦<OneByOne<B> as BitSource>⟧.state self.old.bits))
            (sampling_over self.new.pending self.new.value self.new.generator self.new.stray self.new.ahead (⟦<OneByOne<B> as BitSource>⟧.state self.new.bits)) (replicate self.new.pending self.new.value) result }
    {
        self.begin()?;
        if let Ahead::Bit(value) = self.ahead {
            let after = self.bits.bit()?;
            self.place(value, after);
        }
        Ok(())
    }

    /// Sees to it that samples of a bit are left, where a bit is.
    #[inline(always)]
    fn ready(&mut self) -> Result<(), Failed>
        ensures { Fills (sampling_over self.old.pending self.old.value self.old.generator self.old.stray self.old.ahead (⟦<OneByOne<B> as BitSource>⟧.state self.old.bits))
            (sampling_over self.new.pending self.new.value self.new.generator self.new.stray self.new.ahead (⟦<OneByOne<B> as BitSource>⟧.state self.new.bits)) (replicate self.new.pending self.new.value) result }
    {
        if self.pending > 0 {
            return Ok(());
        }
        self.fill()
    }
}

impl<B: BitSource> BitSource for Sampling<B> {
    ghost state = { λ s. sampling_over s.pending s.value s.generator s.stray s.ahead (⟦<OneByOne<B> as BitSource>⟧.state s.bits) };

    fn bit(&mut self) -> Result<Option<bool>, Failed> {
        let mut samples = self.piece(1)?;
        Ok(samples.pop())
    }

    fn piece(&mut self, most: u32) -> Result<Piece, Failed> {
        self.ready()?;
        Ok(self.gather(most))
    }
}
