//! The words of a window of 64 bits, and the first that is near the sync word.
//!
//! A word that differs from SYNC in at most two bits has no wrong bit in one of three parts. `wrong_bits` says of all words at once which
//! of them have a wrong bit in a part. Where each word has one in every part, no word is looked at by itself: so it is for 15 of 16
//! windows of random bits.

ghost use Rattle.std.specs.Prelude.{◌≡◌, ◌≢◌, ◌≤◌, ◌<◌, ◌+◌, ◌-◌, ◌%◌, ℕ, MatchOption, true, false};
ghost use Rattle.std.specs.Int.{bit_at};
ghost use Rattle.bits.specs.Bits.{bit_value};
ghost use Rattle.receiver.specs.Places.{word_before, NoSyncBefore, HasWrongBit};
ghost use Rattle.receiver.specs.Stretches.{is_sync as is_sync_of};

use crate::front::is_sync;
use crate::register::WORD_BITS;
use codeword::SYNC;

/// The lowest bit of a word's middle part. The low part is below it.
const MIDDLE_PART: u32 = 11;

/// The lowest bit of a word's high part.
const HIGH_PART: u32 = 22;

/// Of the words that end in the last `count` bits of a window, the first that is near SYNC, by its number from 0 on.
#[inline(always)]
pub fn first_sync(window: u64, count: u32) -> Option<u32>
    requires { count ≤ 32 }
    ensures { MatchOption result (NoSyncBefore window count count)
        (λ k. (k < count) × (is_sync_of (word_before window (count - 1 - k)) ≡ true) × NoSyncBefore window count k) }
{
    if has_no_sync(window) {
        return None;
    }
    for k in 0..count {
        if is_sync(low_word(window >> (count - 1 - k))) {
            return Some(k);
        }
    }
    None
}

/// The lowest 32 bits.
#[inline(always)]
pub fn low_word(window: u64) -> u32
    ensures { result ≡ window % 4294967296 }
{
    (window % (1 << 32)) as u32
}

/// Whether each of the words that fewer than 32 bits follow has a wrong bit in every part. Then none is near SYNC.
#[inline(always)]
fn has_no_sync(window: u64) -> bool
    ensures { result ≡ true → (behind : ℕ) → behind < 32 → is_sync_of (word_before window behind) ≡ false }
{
    let low = wrong_bits(window, 0, MIDDLE_PART);
    let middle = wrong_bits(window, MIDDLE_PART, HIGH_PART);
    let high = wrong_bits(window, HIGH_PART, WORD_BITS);
    low_word(low & middle & high) == u32::MAX
}

/// A one for each word that differs from SYNC in one of the bits from `first` on and below `end`, at the place of the word's lowest bit.
#[inline(always)]
fn wrong_bits(window: u64, first: u32, end: u32) -> u64
    requires { (first ≤ end) × (end ≤ 32) }
    ensures { (behind : ℕ) → bit_at result behind ≡ 1 → HasWrongBit window (behind + first) first end }
{
    let mut wrong = 0;
    let mut place = end;
    while place > first {
        place -= 1;
        wrong = (wrong >> 1) | other_bits(window, (SYNC >> place) % 2 == 1);
    }
    wrong >> first
}

/// The places of the bits that differ from this one.
#[inline(always)]
fn other_bits(window: u64, bit: bool) -> u64
    ensures { (place : ℕ) → bit_at result place ≡ 1 → bit_at window place ≢ bit_value bit }
{
    if bit { !window } else { window }
}
