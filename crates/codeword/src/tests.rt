//! The capcodes that are used, functions, and the known words of the code: docs/profile.md, "capcodes", "address word", "message word"
//! and "idle and sync".

use super::*;
use bch31::{correct, distance, is_codeword};

/// Numbers, and whether they are usable capcodes.
const CAPCODES: [(u32, bool); 13] = [
    (0, true),
    (8, true),
    (2_007_663, true),
    (2_007_664, false),
    (2_007_671, false),
    (2_007_672, true),
    (2_045_055, true),
    (2_045_056, false),
    (2_045_063, false),
    (2_045_064, true),
    (2_097_151, true),
    (2_097_152, false),
    (4_294_967_295, false),
];

#[test]
fn capcodes_beside_the_unused_ones_are_usable(rt: HostRuntime) {
    for (number, usable) in CAPCODES {
        let capcode = Capcode::of(number).map(|c| c.number());
        let wanted = if usable { Some(number) } else { None };
        assert_eq!(rt; capcode, wanted, "{number}");
    }
}

#[test]
fn sixteen_capcodes_are_not_usable(rt: HostRuntime) {
    for k in 0..8u32 {
        assert!(rt; Capcode::of(2_007_664 + k).is_none(), "{k} behind 2007664");
        assert!(rt; Capcode::of(2_045_056 + k).is_none(), "{k} behind 2045056");
    }
}

#[test]
fn capcode_splits_into_frame_and_high_bits(rt: HostRuntime) {
    let c = Capcode::of(2_007_663).expect(&rt, "a usable capcode");
    assert_eq!(rt; c.number(), 2_007_663);
    assert_eq!(rt; c.frame(), 7);
    assert_eq!(rt; c.high(), 250_957);
}

#[test]
fn functions_have_their_numbers_and_letters(rt: HostRuntime) {
    for (function, number, letter) in [
        (Function::Numeric, 0u32, b'N'),
        (Function::Tone1, 1, b'1'),
        (Function::Tone2, 2, b'2'),
        (Function::Alpha, 3, b'A'),
    ] {
        assert_eq!(rt; function.number(), number, "function {number}");
        assert_eq!(rt; function.letter(), letter, "function {number}");
    }
}

/// The sync word.
const KNOWN_SYNC: u32 = 0x7CD2_15D8;

/// The idle word.
const KNOWN_IDLE: u32 = 0x7A89_C197;

/// 32 bits of a preamble.
const PREAMBLE: u32 = 0xAAAA_AAAA;

#[test]
fn sync_and_idle_are_the_known_ones(rt: HostRuntime) {
    assert_eq!(rt; SYNC, KNOWN_SYNC);
    assert_eq!(rt; IDLE, KNOWN_IDLE);
}

/// Address words: a capcode that has it, the function, the high bits of the capcode, the word.
const ADDRESSES: [(u32, Function, u32, u32); 9] = [
    (0, Function::Tone1, 0, 0x0000_0ED3),
    (8, Function::Numeric, 1, 0x0000_26EC),
    (9, Function::Numeric, 1, 0x0000_26EC),
    (8, Function::Tone1, 1, 0x0000_283F),
    (15, Function::Tone1, 1, 0x0000_283F),
    (8, Function::Alpha, 1, 0x0000_3B49),
    (15, Function::Alpha, 1, 0x0000_3B49),
    (16, Function::Tone1, 2, 0x0000_4DD8),
    (23, Function::Tone1, 2, 0x0000_4DD8),
];

#[test]
fn address_words_are_the_known_ones(rt: HostRuntime) {
    for (capcode, function, high, word) in ADDRESSES {
        let c = Capcode::of(capcode).expect(&rt, "a usable capcode");
        assert_eq!(rt; c.high(), high, "at {capcode}");
        assert_eq!(rt; address_word(c, function), word, "at {capcode}");
    }
}

/// Groups and their message words.
const MESSAGES: [(u32, u32); 8] = [
    (0x00000, 0x8000_0769),
    (0x82870, 0xC143_87B8),
    (0x80000, 0xC000_04DC),
    (0x1344C, 0x89A2_634D),
    (0x99F20, 0xCCF9_05DE),
    (0x82000, 0xC100_057F),
    (0x84333, 0xC219_9DEA),
    (0x83600, 0xC1B0_04B6),
];

#[test]
fn message_words_are_the_known_ones(rt: HostRuntime) {
    for (group, word) in MESSAGES {
        assert_eq!(rt; message_word(group), word, "at {group:x}");
    }
}

/// Words, and what they carry.
const KINDS: [(u32, WordKind); 15] = [
    (
        KNOWN_SYNC,
        WordKind::Address {
            high: 255_632,
            function: Function::Tone2,
        },
    ),
    (
        KNOWN_IDLE,
        WordKind::Address {
            high: 250_958,
            function: Function::Numeric,
        },
    ),
    (
        0x0000_0ED3,
        WordKind::Address {
            high: 0,
            function: Function::Tone1,
        },
    ),
    (
        0x0000_26EC,
        WordKind::Address {
            high: 1,
            function: Function::Numeric,
        },
    ),
    (
        0x0000_283F,
        WordKind::Address {
            high: 1,
            function: Function::Tone1,
        },
    ),
    (
        0x0000_3B49,
        WordKind::Address {
            high: 1,
            function: Function::Alpha,
        },
    ),
    (
        0x0000_4DD8,
        WordKind::Address {
            high: 2,
            function: Function::Tone1,
        },
    ),
    (0x8000_0769, WordKind::Message { group: 0x00000 }),
    (0xC143_87B8, WordKind::Message { group: 0x82870 }),
    (0xC000_04DC, WordKind::Message { group: 0x80000 }),
    (0x89A2_634D, WordKind::Message { group: 0x1344C }),
    (0xCCF9_05DE, WordKind::Message { group: 0x99F20 }),
    (0xC100_057F, WordKind::Message { group: 0x82000 }),
    (0xC219_9DEA, WordKind::Message { group: 0x84333 }),
    (0xC1B0_04B6, WordKind::Message { group: 0x83600 }),
];

#[test]
fn known_words_are_codewords(rt: HostRuntime) {
    for (word, _) in KINDS {
        assert!(rt; is_codeword(word), "at {word:x}");
        assert!(rt; !is_codeword(word ^ 1), "at {word:x} with another last bit");
        assert_eq!(rt; correct(word), Some(word), "at {word:x}");
    }
}

/// Two wrong bits are repaired. Three are near no codeword, since codewords differ in at least six bits.
#[test]
fn known_words_have_their_kinds(rt: HostRuntime) {
    for (word, carried) in KINDS {
        assert_eq!(rt; kind(word), Some(carried), "at {word:x}");
        for noise in [0x8000_0001u32, 0xC000_0000] {
            assert_eq!(rt;
                kind(word ^ noise),
                Some(carried),
                "at {word:x} and {noise:x}"
            );
        }
        assert_eq!(rt;
            kind(word ^ 0x8000_0003),
            None,
            "at {word:x} with three wrong bits"
        );
    }
}

#[test]
fn preambles_are_far_from_the_sync_word(rt: HostRuntime) {
    assert_eq!(rt; distance(PREAMBLE, KNOWN_SYNC), 20);
    assert_eq!(rt; distance(!PREAMBLE, KNOWN_SYNC), 12);
}

/// The last bits of a preamble, and behind them the first bits of a sync word.
fn window(preamble_bits: u32) -> u32 {
    let run = (u64::from(PREAMBLE) << 32) | u64::from(KNOWN_SYNC);
    ((run >> preamble_bits.min(32)) % (1 << 32)) as u32
}

#[test]
fn windows_over_a_preamble_are_far_from_the_sync_word(rt: HostRuntime) {
    for bits in 1..=32 {
        assert!(rt; distance(window(bits), KNOWN_SYNC) >= 5, "at {bits} bits");
    }
}
