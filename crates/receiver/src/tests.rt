//! Transmissions that receivers are fed, and the receivers beside the plain program over bits with all that can go wrong.

use crate::twin::{HeardPage, pages};
use crate::*;
use codeword::Capcode;
use page_text::LONGEST_READ;
use std::alloc::{AllocError, Global};
use std::process::Abort;
use std::test::Fail;
use wires::piece::Piece;
use wires::steps::{Steps, Work};

const SYNC: u32 = 0x7CD2_15D8;

const IDLE: u32 = 0x7A89_C197;

const PREAMBLE: u32 = 0xAAAA_AAAA;

/// The address word of an alphanumeric page: in slots 0 and 1 to capcode 8, in slots 2 and 3 to capcode 9, and so on.
const ADDRESS: u32 = 0x0000_3B49;

/// The same of a numeric page.
const NUMERIC: u32 = 0x0000_26EC;

/// The message words of the text `ABC`.
const FIRST: u32 = 0xC143_87B8;

const SECOND: u32 = 0xC000_04DC;

/// One alphanumeric page with the text `ABC` to capcode 8, behind its sync word.
const ABC: [u32; 4] = [SYNC, ADDRESS, FIRST, SECOND];

/// Two wrong bits, and three.
const TWO: u32 = 0x8000_0001;

const THREE: u32 = 0x0108_0040;

/// Words, so many idle words, and more words.
type Case<'a> = (&'a [u32], usize, &'a [u32]);

const CASES: [Case<'_>; 14] = [
    // Two wrong bits in each word.
    (
        &[
            SYNC ^ TWO,
            ADDRESS ^ TWO,
            FIRST ^ TWO,
            SECOND ^ TWO,
            IDLE ^ TWO,
        ],
        0,
        &[],
    ),
    // Three wrong bits in one word.
    (&[SYNC ^ THREE, ADDRESS, FIRST, SECOND, IDLE], 0, &[]),
    (&[SYNC, ADDRESS ^ THREE, FIRST, SECOND, IDLE], 0, &[]),
    (&[SYNC, ADDRESS, FIRST ^ THREE, SECOND, IDLE], 0, &[]),
    (&[SYNC, ADDRESS, FIRST, SECOND, IDLE ^ THREE, IDLE], 0, &[]),
    // Pages one behind another, also with no message word, and a sync word in a slot.
    (
        &[
            SYNC, ADDRESS, NUMERIC, FIRST, NUMERIC, NUMERIC, SECOND, ADDRESS, FIRST,
        ],
        1,
        &[],
    ),
    (
        &[SYNC, ADDRESS, FIRST, SYNC, SECOND, ADDRESS, FIRST, SYNC],
        3,
        &[],
    ),
    // A page over a sync place: good with two wrong bits, bad with three, and with a preamble.
    (&[SYNC], 14, &[ADDRESS, FIRST, SYNC ^ TWO, SECOND, IDLE]),
    (&[SYNC], 14, &[ADDRESS, FIRST, SYNC ^ THREE, SECOND, IDLE]),
    (&[SYNC], 15, &[NUMERIC, PREAMBLE, SYNC, SECOND, IDLE]),
    // A page that the word at the sync place would complete, were it in a slot.
    (&[SYNC], 14, &[ADDRESS, FIRST, SYNC, IDLE, ADDRESS]),
    // A lock at a sync word that begins within a word.
    (
        &[PREAMBLE, SYNC / 8, SYNC << 29, ADDRESS],
        0,
        &[FIRST, IDLE],
    ),
    // No page.
    (&[], 0, &[]),
    (&[SYNC, FIRST, SECOND, IDLE], 40, &[SYNC]),
];

/// Appends the bits of a word.
fn add_word(bits: &mut Vec<bool>, word: u32) -> Result<(), AllocError> {
    for k in 0..32u32 {
        bits.push((word >> (31 - k)) & 1 == 1)?;
    }
    Ok(())
}

/// Appends the bits of words.
fn add_words(bits: &mut Vec<bool>, words: &[u32]) -> Result<(), AllocError> {
    for word in words {
        add_word(bits, *word)?;
    }
    Ok(())
}

/// Appends the bits of one word, again and again.
fn add_times(bits: &mut Vec<bool>, times: usize, word: u32) -> Result<(), AllocError> {
    for _ in 0..times {
        add_word(bits, word)?;
    }
    Ok(())
}

/// Appends the transmission of `ABC` to capcode 8: 140 bytes.
fn add_abc(bits: &mut Vec<bool>) -> Result<(), AllocError> {
    add_times(bits, 18, PREAMBLE)?;
    add_words(bits, &ABC)?;
    add_times(bits, 13, IDLE)
}

/// The bits from a number on, without so many at their end.
fn part(bits: &[bool], dropped: usize, cut: usize) -> &[bool] {
    let kept = bits.len().saturating_sub(cut);
    bits.get(dropped..kept).unwrap_or(&[])
}

/// What a receiver answers to these bits.
fn hear_alone(
    alloc: Global,
    capcode: Capcode,
    bits: &[bool],
) -> Result<Vec<HeardPage>, AllocError> {
    let mut receiver = Receiver::new(&[capcode]);
    let mut heard = Vec::new(alloc);
    let mut text = [0; LONGEST_READ];
    for (k, bit) in bits.iter().enumerate() {
        if let Some(ready) = receiver.feed(*bit) {
            let length = receiver.text(&mut text);
            heard.push(HeardPage {
                end: k + 1,
                ready,
                text: text[..length].to_vec(alloc)?,
            })?;
        }
    }
    Ok(heard)
}

/// At most 32 bits as a piece.
fn piece_of(bits: &[bool]) -> Piece {
    let mut word = 0u32;
    for bit in bits {
        word = (word << 1) | u32::from(*bit);
    }
    Piece::of(word, bits.len().min(32) as u32)
}

/// What a receiver answers to these bits, of which so many make a piece. Each bit of a piece may complete a page.
fn hear_in_pieces(
    alloc: Global,
    capcode: Capcode,
    size: usize,
    bits: &[bool],
) -> Result<Vec<HeardPage>, AllocError> {
    let mut receiver = Receiver::new(&[capcode]);
    let mut heard = Vec::new(alloc);
    let mut text = [0; LONGEST_READ];
    let mut at = 0usize;
    for chunk in bits.chunks(size.max(1)) {
        let mut piece = piece_of(chunk);
        at = at.wrapping_add(chunk.len());
        for _ in 0..chunk.len() {
            if let Some(ready) = receiver.feed_piece(&mut piece) {
                let length = receiver.text(&mut text);
                heard.push(HeardPage {
                    end: at.wrapping_sub(piece.len() as usize),
                    ready,
                    text: text[..length].to_vec(alloc)?,
                })?;
            }
        }
    }
    Ok(heard)
}

/// What a group answers to these bits.
fn hear_together(
    alloc: Global,
    capcodes: &[Capcode],
    bits: &[bool],
) -> Result<Vec<HeardPage>, Fail> {
    let mut pairs = Vec::new(alloc);
    for capcode in capcodes {
        pairs.push((1, *capcode))?;
    }
    let mut group = Group::new(alloc, &pairs)?;
    let mut steps = Steps::<Work>::new();
    let mut heard = Vec::new(alloc);
    let mut text = [0; LONGEST_READ];
    for (k, bit) in bits.iter().enumerate() {
        if let Some(ready) = group.feed(*bit, &mut steps) {
            let length = group.text(&mut text);
            heard.push(HeardPage {
                end: k + 1,
                ready,
                text: text[..length].to_vec(alloc)?,
            })?;
        }
    }
    Ok(heard)
}

/// The pages, each by its capcode and its text.
fn texts(rt: &impl Abort, heard: &[HeardPage], wanted: &[(u32, &[u8])]) {
    assert_eq!(rt; heard.len(), wanted.len());
    for (page, (capcode, text)) in heard.iter().zip(wanted) {
        assert_eq!(rt; page.ready.capcode.number(), *capcode);
        assert_eq!(rt; page.text.as_slice(), *text);
    }
}

// The second preamble stands at a sync place. The lock is lost there, and the second sync word is found.
#[test]
fn a_transmission_twice_is_heard_twice(rt: HostRuntime) -> Result<(), Fail> {
    let alloc = rt.alloc();
    let mut bits = Vec::new(alloc);
    add_abc(&mut bits)?;
    add_abc(&mut bits)?;
    let capcode = Capcode::of(8).expect(&rt, "a usable capcode");
    texts(
        &rt,
        &hear_alone(alloc, capcode, &bits)?,
        &[(8, b"ABC"), (8, b"ABC")],
    );
    Ok(())
}

// The page is complete with the idle word behind its two message words: with the last bit of the 92nd byte.
#[test]
fn a_page_is_heard_at_the_last_bit_of_the_next_address_word(rt: HostRuntime) -> Result<(), Fail> {
    let alloc = rt.alloc();
    let mut bits = Vec::new(alloc);
    add_abc(&mut bits)?;
    let capcode = Capcode::of(8).expect(&rt, "a usable capcode");
    // Of 1,120 bits, those behind the 92nd byte, one more, those behind the 91st byte, and none are left out.
    for (cut, heard) in [(384, 1), (385, 0), (392, 0), (0, 1)] {
        let pages = hear_alone(alloc, capcode, part(&bits, 0, cut))?;
        assert_eq!(rt; pages.len(), heard, "without {cut} bits");
    }
    Ok(())
}

// The address word of capcode 8 in the frame of capcode 15.
#[test]
fn an_address_word_counts_in_its_frame(rt: HostRuntime) -> Result<(), Fail> {
    let alloc = rt.alloc();
    let mut bits = Vec::new(alloc);
    add_times(&mut bits, 18, PREAMBLE)?;
    add_word(&mut bits, SYNC)?;
    add_times(&mut bits, 14, IDLE)?;
    add_words(&mut bits, &[0x0000_3B49, 0xC100_057F, SYNC])?;
    add_times(&mut bits, 16, IDLE)?;
    let [own, other] = [15, 8].map(Capcode::of);
    let own = own.expect(&rt, "a usable capcode");
    let other = other.expect(&rt, "a usable capcode");
    texts(&rt, &hear_alone(alloc, own, &bits)?, &[(15, b"A")]);
    texts(&rt, &hear_alone(alloc, other, &bits)?, &[]);
    Ok(())
}

/// The bits of a case, behind two words of a preamble and before idle words and a page that is whole.
fn case_bits(alloc: Global, case: Case<'_>) -> Result<Vec<bool>, AllocError> {
    let mut bits = Vec::new(alloc);
    add_times(&mut bits, 2, PREAMBLE)?;
    add_words(&mut bits, case.0)?;
    add_times(&mut bits, case.1, IDLE)?;
    add_words(&mut bits, case.2)?;
    add_times(&mut bits, 33, IDLE)?;
    add_words(&mut bits, &ABC)?;
    add_word(&mut bits, IDLE)?;
    Ok(bits)
}

/// Compares a group, and each of its receivers alone, with the plain program. Answers how many pages there are.
fn compare(
    rt: &impl Abort,
    alloc: Global,
    capcodes: &[Capcode],
    bits: &[bool],
) -> Result<usize, Fail> {
    let wanted = pages(alloc, capcodes, bits)?;
    assert_eq!(rt; hear_together(alloc, capcodes, bits)?, wanted);
    for capcode in capcodes {
        let alone = pages(alloc, &[*capcode], bits)?;
        assert_eq!(rt; hear_alone(alloc, *capcode, bits)?, alone);
        for size in [1usize, 7, 31, 32] {
            assert_eq!(rt; hear_in_pieces(alloc, *capcode, size, bits)?, alone);
        }
    }
    Ok(wanted.len())
}

#[test]
fn receivers_hear_what_the_plain_program_hears(rt: HostRuntime) -> Result<(), Fail> {
    let alloc = rt.alloc();
    let mut capcodes = Vec::new(alloc);
    for n in [8, 9, 15, 10, 31] {
        capcodes.push(Capcode::of(n).expect(&rt, "a usable capcode"))?;
    }
    for case in CASES {
        let bits = case_bits(alloc, case)?;
        for dropped in [0, 3, 31, 64, 71] {
            for cut in [0, 1, 34] {
                compare(&rt, alloc, &capcodes, part(&bits, dropped, cut))?;
            }
        }
        let heard = compare(&rt, alloc, &capcodes, &bits)?;
        assert!(rt; heard > 0, "the page at the end is heard");
    }
    Ok(())
}

// So many message words behind an address word, and an idle word.
#[test]
fn a_page_has_at_most_350_message_words(rt: HostRuntime) -> Result<(), Fail> {
    let alloc = rt.alloc();
    let capcodes = [Capcode::of(8).expect(&rt, "a usable capcode")];
    for (messages, heard) in [(349, 1), (350, 1), (351, 0), (352, 0)] {
        let mut bits = Vec::new(alloc);
        add_words(&mut bits, &[SYNC, ADDRESS])?;
        for slot in 1..=messages + 1 {
            if slot % 16 == 0 {
                add_word(&mut bits, SYNC)?;
            }
            add_word(&mut bits, if slot > messages { IDLE } else { FIRST })?;
        }
        assert_eq!(rt;
            compare(&rt, alloc, &capcodes, &bits)?,
            heard,
            "of {messages} message words"
        );
    }
    Ok(())
}

// Receivers 2, 1 and 64 share capcode 8, and receiver 1 has capcode 16 too.
#[test]
fn the_holders_of_a_capcode_ascend(rt: HostRuntime) -> Result<(), Fail> {
    let [eight, sixteen, other] = [8, 16, 24].map(Capcode::of);
    let eight = eight.expect(&rt, "a usable capcode");
    let sixteen = sixteen.expect(&rt, "a usable capcode");
    let other = other.expect(&rt, "a usable capcode");
    let pairs = [(64, eight), (2, eight), (1, sixteen), (1, eight)];
    let group = Group::new(rt.alloc(), &pairs)?;
    for (k, number) in [(0, Some(1)), (1, Some(2)), (2, Some(64)), (3, None)] {
        assert_eq!(rt; group.holder(eight, k), number);
    }
    assert_eq!(rt; group.holder(sixteen, 0), Some(1));
    assert_eq!(rt; group.holder(sixteen, 1), None);
    assert_eq!(rt; group.holder(other, 0), None);
    Ok(())
}

// The word is an address word of the second capcode of one receiver.
#[test]
fn a_receiver_has_several_capcodes(rt: HostRuntime) -> Result<(), Fail> {
    let alloc = rt.alloc();
    let mut bits = Vec::new(alloc);
    add_abc(&mut bits)?;
    let [eight, nine] = [8, 9].map(Capcode::of);
    let capcodes = [
        nine.expect(&rt, "a usable capcode"),
        eight.expect(&rt, "a usable capcode"),
    ];
    let mut receiver = Receiver::new(&capcodes);
    let mut count = 0u32;
    for bit in &bits {
        if receiver.feed(*bit).is_some() {
            count = count.saturating_add(1);
        }
    }
    assert_eq!(rt; count, 1);
    Ok(())
}
