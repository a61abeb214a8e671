//! The bits of a word that the two noises flip.

ghost use Rattle.std.specs.Prelude.{◌≡◌, ◌≢◌, ℕ, ◌+◌, ◌<◌, ◌==◌, ◌&&◌};
ghost use Rattle.bits.specs.Bits.{word_bits};
ghost use Rattle.load.specs.Draws.{draw, generator_at};
ghost use Rattle.load.specs.Noises.{is_flipped, is_flipped_more, least_beside as least_beside_of, word_of_test};

use crate::draws::Draws;

/// The bits of a word that each of the noises flips, as the ones of two words.
#[derive(Clone, Copy, Debug, PartialEq, Eq)]
pub(crate) struct Flips {
    pub(crate) first: u32,
    pub(crate) second: u32,
}

/// Draws the noise of a word behind the preamble: two bits, and for the second noise in one of 64 slots a third.
pub(crate) fn draw_flips(is_slot: bool, draws: &mut Draws) -> Flips
    ensures further { (seed k : ℕ) → draws.old.generator ≡ generator_at seed k → draws.new.generator ≡ generator_at seed (k + 3) }
    ensures first { (seed k : ℕ) → draws.old.generator ≡ generator_at seed k → word_bits result.first ≡ word_of_test (is_flipped (draw seed) k) }
    ensures second { (seed k : ℕ) → draws.old.generator ≡ generator_at seed k → word_bits result.second ≡ word_of_test (is_flipped_more (draw seed) k is_slot) }
{
    let a = draws.below(32);
    let b = (a + 1 + draws.below(31)) % 32;
    let c = draws.below(64);
    let first = bit(a) ^ bit(b);
    Flips {
        first,
        second: first ^ third(is_slot, c, least_beside(a, b)),
    }
}

/// The third bit that is flipped, in one of 64 slots.
fn third(is_slot: bool, c: u32, place: u32) -> u32
    requires { place < 32 }
    ensures { word_bits result ≡ word_of_test (λ i. (is_slot && (c == 0)) && (i == place)) }
{
    if is_slot && c == 0 { bit(place) } else { 0 }
}

/// The word with a one at a place alone, which is counted from 0 at the most significant bit.
fn bit(place: u32) -> u32
    requires { place < 32 }
    ensures { word_bits result ≡ word_of_test (λ i. i == place) }
{
    0x8000_0000 >> place
}

/// The least of 0, 1 and 2 that is neither of these.
fn least_beside(a: u32, b: u32) -> u32
    ensures value { result ≡ least_beside_of a b }
    ensures not_first { result ≢ a }
    ensures not_second { result ≢ b }
    ensures few { result < 3 }
{
    if a != 0 && b != 0 {
        0
    } else if a != 1 && b != 1 {
        1
    } else {
        2
    }
}
