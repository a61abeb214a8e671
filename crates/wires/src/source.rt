//! Where bytes and bits are read from, and bits with noise.
ghost use Rattle.std.specs.Prelude.{◌≡◌, ℕ, ◌<◌, Bool, None, length, IfOk, IsSome, IsTrue};
ghost use Rattle.wires.specs.Ahead.{Peeks};
ghost use Rattle.wires.specs.Left.{Left, Takes, TakesOne, TakesPiece};
ghost use Rattle.wires.specs.Stacked.{noisy_over};

use crate::Failed;
use crate::piece::Piece;

/// Bytes can be read from it.
pub trait Source {
    /// Its content is the bytes left.
    ghost state: { Self → Left ℕ };

    /// Moves some of the bytes left into the front of `into`, which is not empty, and answers how many. It answers 0
    /// exactly where none are left. After `Failed` nothing was taken.
    fn take(&mut self, into: &mut [u8]) -> Result<usize, Failed>
        requires { 0 < length into.old }
        ensures { Takes (state self.old) (state self.new) into.new result };
}

/// Bits can be read from it.
pub trait BitSource {
    /// Its content is the bits left.
    ghost state: { Self → Left Bool };

    /// Takes the first of the bits left. It answers `None` exactly where none are left. After `Failed` nothing was
    /// taken.
    fn bit(&mut self) -> Result<Option<bool>, Failed>
        ensures { TakesOne (state self.old) (state self.new) result };

    /// Takes some of the bits left, the first of them, at most so many and at most 32. It answers no bit exactly where
    /// none are left. After `Failed` nothing was taken.
    fn piece(&mut self, most: u32) -> Result<Piece, Failed>
        requires { 0 < most }
        ensures { TakesPiece most (state self.old) (state self.new) result }
    {
        match self.bit()? {
            Some(bit) => Ok(Piece::of(u32::from(bit), 1)),
            None => Ok(Piece::of(0, 0)),
        }
    }
}

/// Bits with noise: each bit xor the noise's bit, which is 0 after the noise's end. It ends where the bits end, and its
/// faults are those of both, added.
pub struct Noisy<'a, B: BitSource, N: BitSource> {
    noise: &'a mut N,
    bits: B,
    /// A bit that was taken and is not given out yet, since the noise failed.
    held: Option<bool>,
}

impl<'a, B: BitSource + Drop, N: BitSource> Drop for Noisy<'a, B, N> {
    fn drop(self)
        ensures { self.exit.0.now ≡ self.entry.noise.now }
    {
        let Noisy {
            noise: _,
            bits: _,
            held: _,
        } = self;
    }
}

impl<'a, B: BitSource, N: BitSource> Noisy<'a, B, N> {
    /// These bits with this noise.
    pub fn over(bits: B, noise: &'a mut N) -> Noisy<'a, B, N>
        ensures bits { result.bits ≡ bits }
        ensures held { result.held ≡ None }
        ensures same_reference { result.noise.ghost_name ≡ noise.entry.ghost_name }
        ensures same { result.noise.now ≡ noise.old }
    {
        Noisy {
            noise,
            bits,
            held: None,
        }
    }

    /// Sees to it that a bit is held, and answers whether one is left.
    fn hold(&mut self) -> Result<bool, Failed>
        ensures peeks { Peeks (noisy_over self.old.noise.ghost_name self.old.held (B.state self.old.bits) (N.state self.old.noise.now))
            (noisy_over self.new.noise.ghost_name self.new.held (B.state self.new.bits) (N.state self.new.noise.now)) result }
        ensures held { IfOk result (λ more. IsTrue more → IsSome self.new.held) }
    {
        if self.held.is_some() {
            return Ok(true);
        }
        self.held = self.bits.bit()?;
        Ok(self.held.is_some())
    }
}

impl<'a, B: BitSource, N: BitSource> BitSource for Noisy<'a, B, N> {
    ghost state = { λ s. noisy_over s.noise.ghost_name s.held (B.state s.bits) (N.state s.noise.now) };

    fn bit(&mut self) -> Result<Option<bool>, Failed> {
        if !self.hold()? {
            return Ok(None);
        }
        let noise = self.noise.bit()?;
        match self.held.take() {
            Some(bit) => Ok(Some(bit ^ noise.unwrap_or(false))),
            None => Ok(None),
        }
    }
}
