//! Remainders of single bits, the words within two bits of a known word, and the correction beside its plain twin.

use super::*;
use crate::twin::searched;

/// Words from a generator: any words, and codewords with no, one, two, three and four wrong bits.
const WORDS: [u32; 38] = [
    0x0658_3AE5,
    0x47BD_0B9C,
    0xB112_40E2,
    0x3CE3_8F1D,
    0x904F_F7FA,
    0x3EEA_DD7D,
    0x1C9C_2262,
    0x78A3_61F5,
    0xE139_6FBD,
    0x277C_E276,
    0x5AAC_100B,
    0x882C_2CE7,
    0xEF0D_1C68,
    0xCF51_0B1B,
    0x0518_E642,
    0x86FF_0EE5,
    0x9AEA_D409,
    0x16F7_E8D6,
    0xFAA3_0F75,
    0x71B1_1404,
    0x91A0_7C7D,
    0x6B05_EC5C,
    0x228A_1820,
    0x194C_64CE,
    0x5AC4_B87A,
    0x2561_C8DF,
    0xC94C_8772,
    0xF3E0_3A47,
    0xF7C8_316C,
    0xA03B_2DA3,
    0x3E99_1A7F,
    0xEF41_31D6,
    0x5E7D_E548,
    0x63A9_4E11,
    0x7855_40E0,
    0x4C2C_2610,
    0x1EB6_03C1,
    0x8237_B13E,
];

/// The remainders of `x^10` to `x^30` by the generator of the code.
const REMAINDERS: [u32; 21] = [
    0x369, 0x1BB, 0x376, 0x185, 0x30A, 0x17D, 0x2FA, 0x29D, 0x253, 0x3CF, 0x0F7, 0x1EE, 0x3DC,
    0x0D1, 0x1A2, 0x344, 0x1E1, 0x3C2, 0x0ED, 0x1DA, 0x3B4,
];

/// Bit `b` of a word stands for `x^(31-b)`, so the last of its first 21 bits has the first of these remainders.
#[test]
fn check_bits_of_one_bit_are_its_remainder(rt: HostRuntime) {
    for (k, remainder) in REMAINDERS.into_iter().enumerate() {
        let front = (1u32 << k) % (1 << 21);
        assert_eq!(rt; check_bits(front), remainder, "at bit {k}");
    }
}

#[test]
fn words_within_two_bits_give_the_codeword(rt: HostRuntime) {
    let sent = 0x0000_0ED3u32;
    assert!(rt; is_codeword(sent));
    for i in 0..32u32 {
        let one = sent ^ (1 << i);
        assert!(rt; !is_codeword(one), "at bit {i}");
        assert_eq!(rt; correct(one), Some(sent), "at bit {i}");
        for j in 0..i {
            let two = one ^ (1 << j);
            assert_eq!(rt; correct(two), Some(sent), "at bits {i} and {j}");
            assert_eq!(rt; distance(sent, two), 2, "at bits {i} and {j}");
        }
    }
}

#[test]
fn a_word_three_bits_away_is_refused(rt: HostRuntime) {
    assert_eq!(rt; correct(0x0000_0ED4), None);
    assert_eq!(rt; distance(0x0000_0ED3, 0x0000_0ED4), 3);
}

#[test]
fn correction_answers_as_the_plain_search(rt: HostRuntime) {
    for w in WORDS {
        assert_eq!(rt; correct(w), searched(w), "at {w:x}");
    }
}
