//! Check bits, and which words are codewords.

ghost use Rattle.std.specs.Prelude.{◌≡◌, ◌<◌, ◌^◌, ◌↔◌, IsTrue};
ghost use Rattle.bch31.specs.Codeword.{IsCodeword, check_of};
ghost use Rattle.bch31.specs.Word.{word_of};

use crate::division::remainder;

/// The ten check bits, bits 22 to 31, of the codeword whose first 21 bits are `d`.
pub fn check_bits(d: u32) -> u32
    requires { d < 2 ^ 21 }
    ensures value { result ≡ check_of (word_of d) }
    ensures small { result < 2 ^ 10 }
{
    remainder(d << 10)
}

/// Whether the word is a codeword: bits 1 to 31 are a multiple of the generator, and the number of ones is even.
pub fn is_codeword(w: u32) -> bool
    ensures { IsTrue result ↔ IsCodeword w }
{
    remainder(w >> 1) == 0 && w.count_ones() % 2 == 0
}
