//! How far words are apart, and the codeword near a word.

ghost use Rattle.std.specs.Prelude.{◌≡◌, ℕ, ◌↔◌, IsNone, Some};
ghost use Rattle.bch31.specs.Distance.{distance_of};
ghost use Rattle.bch31.specs.Fix.{IsFix, HasNoFix, fix_of};

use crate::division::remainder;
use crate::patterns::pattern;

/// At most so many wrong bits of a word are repaired.
const REPAIRED: u32 = 2;

/// The number of places where the two words differ, from 0 to 32.
pub fn distance(a: u32, b: u32) -> u32
    ensures { result ≡ distance_of a b }
{
    (a ^ b).count_ones()
}

/// The codeword that differs from the word in at most two bits. None exactly where there is none. There is never more than one, since
/// two different codewords differ in at least six bits.
pub fn correct(w: u32) -> Option<u32>
    ensures value { result ≡ fix_of w }
    ensures some { (v : ℕ) → (result ≡ Some v) ↔ IsFix w v }
    ensures none { IsNone result ↔ HasNoFix w }
{
    let heard = w >> 1;
    let sent = heard ^ pattern(remainder(heard));
    let v = (sent << 1) | (sent.count_ones() & 1);
    if distance(w, v) <= REPAIRED {
        Some(v)
    } else {
        None
    }
}
