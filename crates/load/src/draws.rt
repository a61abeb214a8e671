//! The numbers that are drawn.

ghost use Rattle.std.specs.Prelude.{◌≡◌, ℕ, ◌+◌, ◌%◌, ◌<◌};
ghost use Rattle.load.specs.Draws.{draw, generator_at};

use rand_core::utils::NextWord;
use rand_pcg::Lcg64Xsh32;

/// Numbers, drawn one after another.
#[derive(Drop)]
pub(crate) struct Draws {
    generator: Lcg64Xsh32,
}

impl Draws {
    /// The draws of a seed.
    pub(crate) fn of(seed: u64) -> Draws
        ensures { result.generator ≡ generator_at seed 0 }
    {
        Draws {
            generator: Lcg64Xsh32::new(seed, 1),
        }
    }

    /// The next draw, modulo n.
    pub(crate) fn below(&mut self, n: u32) -> u32
        requires { 0 < n }
        ensures value { (seed k : ℕ) → self.old.generator ≡ generator_at seed k → result ≡ draw seed k % n }
        ensures further { (seed k : ℕ) → self.old.generator ≡ generator_at seed k → self.new.generator ≡ generator_at seed (k + 1) }
        ensures below { result < n }
    {
        self.generator.next_word() % n
    }
}
