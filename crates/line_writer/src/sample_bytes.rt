//! Samples as bytes, eight in each, the first as the most significant bit.

ghost use Rattle.bits.specs.Bits.{bits_of, bytes_bits};
ghost use Rattle.std.specs.Prelude.{◌≡◌, ◌+◌, ◌-◌, ◌*◌, ◌^◌, ◌<◌, ◌≤◌, ◌++◌, IsTrue, length, take};
ghost use Rattle.wires.specs.Stacked.{are_bytes};

use wires::source::BitSource;

/// The samples of a byte.
const SAMPLES: u32 = 8;

/// So many bytes have samples that come together.
const BYTES_AT_ONCE: usize = 4;

/// The next samples, so many, of a source that tells its samples, is steady and has so many. They are the lowest bits of the number.
#[inline(always)]
fn next_samples<B: BitSource>(samples: &mut B, asked: u32) -> u32
    requires told { IsTrue (B.state samples.old).tells }
    requires steady { IsTrue (B.state samples.old).steady }
    requires few { asked ≤ 32 }
    requires enough { asked ≤ length (B.state samples.old).left }
    ensures told { IsTrue (B.state samples.new).tells }
    ensures steady { IsTrue (B.state samples.new).steady }
    ensures takes { (B.state samples.old).left ≡ bits_of asked result ++ (B.state samples.new).left }
    ensures small { result < 2 ^ asked }
    ensures lent { (B.state samples.new).lent ≡ (B.state samples.old).lent }
{
    let mut number = 0u64;
    let mut count = 0;
    while count < asked {
        let Ok(piece) = samples.piece(asked - count) else {
            unreachable!()
        };
        number = (number << piece.len()) + piece.number();
        count += piece.len();
    }
    number as u32
}

/// Fills the bytes of a buffer from `at` on with the next samples: four bytes, or one where fewer than four are left. Answers how many.
#[inline(always)]
fn fill_some<B: BitSource>(samples: &mut B, into: &mut [u8], at: usize) -> usize
    requires told { IsTrue (B.state samples.old).tells }
    requires steady { IsTrue (B.state samples.old).steady }
    requires within { at < length into.old }
    requires enough { 8 * (length into.old - at) ≤ length (B.state samples.old).left }
    ensures told { IsTrue (B.state samples.new).tells }
    ensures steady { IsTrue (B.state samples.new).steady }
    ensures length { length into.new ≡ length into.old }
    ensures some { 0 < result }
    ensures within { at + result ≤ length into.old }
    ensures takes { bytes_bits (take at into.old) ++ (B.state samples.old).left ≡ bytes_bits (take (at + result) into.new) ++ (B.state samples.new).left }
    ensures are { IsTrue (are_bytes (take at into.old)) → IsTrue (are_bytes (take (at + result) into.new)) }
    ensures lent { (B.state samples.new).lent ≡ (B.state samples.old).lent }
{
    if into.len() - at < BYTES_AT_ONCE {
        into[at] = next_samples(samples, SAMPLES) as u8;
        return 1;
    }
    let word = next_samples(samples, u32::BITS);
    let [first, second, third, fourth] = word.to_be_bytes();
    into[at] = first;
    into[at + 1] = second;
    into[at + 2] = third;
    into[at + 3] = fourth;
    BYTES_AT_ONCE
}

/// Fills a buffer with the next samples, of a source that tells its samples, is steady and has so many.
pub(crate) fn fill<B: BitSource>(samples: &mut B, into: &mut [u8])
    requires told { IsTrue (B.state samples.old).tells }
    requires steady { IsTrue (B.state samples.old).steady }
    requires enough { 8 * length into.old ≤ length (B.state samples.old).left }
    ensures told { IsTrue (B.state samples.new).tells }
    ensures steady { IsTrue (B.state samples.new).steady }
    ensures length { length into.new ≡ length into.old }
    ensures takes { (B.state samples.old).left ≡ bytes_bits into.new ++ (B.state samples.new).left }
    ensures are { IsTrue (are_bytes into.new) }
    ensures lent { (B.state samples.new).lent ≡ (B.state samples.old).lent }
{
    let mut at = 0;
    while at < into.len() {
        at += fill_some(samples, into, at);
    }
}
