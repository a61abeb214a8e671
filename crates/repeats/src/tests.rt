//! One batch that is sent twice, and recorded words.

use crate::recording::Recording;
use crate::twin_group::TwinGroup;
use codeword::{Capcode, IDLE, SYNC, message_word};
use page_text::LONGEST_READ;
use std::alloc::{AllocError, Global};
use std::process::Abort;
use std::test::Fail;
use wires::piece::Piece;
use wires::source::BitSource;
use wires::steps::{Steps, Work};

/// Three wrong bits.
const BAD: u32 = 0x8000_0003;

/// The words of a batch with the page `HELLO` to capcode 8 behind a preamble: its address word is the 20th word.
const ADDRESS: u32 = 0x0000_3B49;

/// Rows: the name, the noise of each copy from its sync word on, and how often the page is heard.
const ROWS: [(&str, &[&[u32]], usize); 13] = [
    ("both copies clean", &[&[], &[]], 1),
    ("each word clean in a copy", &[&[0, BAD], &[0, 0, BAD]], 1),
    (
        "each word clean in a copy, the other way",
        &[&[0, 0, BAD], &[0, BAD]],
        1,
    ),
    (
        "all words of the first copy bad",
        &[&[0, BAD, BAD, BAD, BAD], &[]],
        1,
    ),
    (
        "all words of the second copy bad",
        &[&[], &[0, BAD, BAD, BAD, BAD]],
        1,
    ),
    ("the address word bad in both", &[&[0, BAD], &[0, BAD]], 0),
    (
        "a message word bad in both",
        &[&[0, 0, BAD], &[0, 0, BAD]],
        0,
    ),
    (
        "the word behind the page bad in both",
        &[&[0, 0, 0, 0, BAD], &[0, 0, 0, 0, BAD]],
        0,
    ),
    ("one copy", &[&[]], 0),
    ("three copies", &[&[], &[], &[]], 1),
    ("four copies", &[&[], &[], &[], &[]], 2),
    (
        "of four copies the second and the third bad",
        &[&[], &[0, BAD], &[0, BAD], &[]],
        2,
    ),
    ("no sync word in the first copy", &[&[BAD], &[]], 0),
];

/// The words of a copy through a noise from its sync word on.
fn copy(noise: &[u32]) -> [u32; 35] {
    let mut words = [IDLE; 35];
    for k in 0..18 {
        words[k] = 0xAAAA_AAAA;
    }
    words[18] = SYNC;
    words[19] = ADDRESS;
    words[20] = message_word(0x1344C);
    words[21] = message_word(0x99F20);
    for k in 18..35 {
        words[k] ^= noise.get(k - 18).copied().unwrap_or(0);
    }
    words
}

/// Appends the bits of a word.
fn add_word(bits: &mut Vec<bool>, word: u32) -> Result<(), AllocError> {
    for k in 0..32u32 {
        bits.push((word >> (31 - k)) % 2 == 1)?;
    }
    Ok(())
}

/// The bits of copies through these noises.
fn copies(alloc: Global, noises: &[&[u32]]) -> Result<Vec<bool>, AllocError> {
    let mut bits = Vec::new(alloc);
    for noise in noises {
        for word in &copy(noise) {
            add_word(&mut bits, *word)?;
        }
    }
    Ok(bits)
}

/// How many pages `HELLO` are heard in these bits, and no other.
fn hellos(rt: &impl Abort, alloc: Global, bits: &[bool]) -> Result<usize, Fail> {
    let capcode = Capcode::of(8).expect(rt, "a usable capcode");
    let mut group = TwinGroup::new(alloc, &[(2, capcode), (1, capcode)])?;
    assert_eq!(rt; group.holder(capcode, 1), Some(2));
    let mut steps = Steps::<Work>::new();
    let mut count = 0usize;
    let mut text = [0; LONGEST_READ];
    for bit in bits {
        if let Some(ready) = group.feed(*bit, &mut steps) {
            assert_eq!(rt; ready.capcode.number(), 8);
            let length = group.text(&mut text);
            assert_eq!(rt; &text[..length], b"HELLO".as_slice());
            count = count.saturating_add(1);
        }
    }
    Ok(count)
}

/// At most 32 bits as a piece.
fn piece_of(bits: &[bool]) -> Piece {
    let mut word = 0u32;
    for bit in bits {
        word = (word << 1) | u32::from(*bit);
    }
    Piece::of(word, bits.len().min(32) as u32)
}

/// How many pages are heard in these bits, of which so many make a piece.
fn hellos_in_pieces(
    rt: &impl Abort,
    alloc: Global,
    size: usize,
    bits: &[bool],
) -> Result<usize, Fail> {
    let capcode = Capcode::of(8).expect(rt, "a usable capcode");
    let mut group = TwinGroup::new(alloc, &[(1, capcode)])?;
    let mut steps = Steps::<Work>::new();
    let mut count = 0usize;
    for chunk in bits.chunks(size.max(1)) {
        let mut piece = piece_of(chunk);
        for _ in 0..chunk.len() {
            if group.feed_piece(&mut piece, &mut steps).is_some() {
                count = count.saturating_add(1);
            }
        }
    }
    Ok(count)
}

#[test]
fn a_page_takes_each_word_from_a_clean_copy(rt: HostRuntime) -> Result<(), Fail> {
    let alloc = rt.alloc();
    for (name, noises, wanted) in ROWS {
        let bits = copies(alloc, noises)?;
        assert_eq!(rt; hellos(&rt, alloc, &bits)?, wanted, "{name}");
        for size in [1usize, 7, 32] {
            assert_eq!(rt;
                hellos_in_pieces(&rt, alloc, size, &bits)?,
                wanted,
                "{name}, by {size}"
            );
        }
    }
    Ok(())
}

/// Rows: the name; of each copy how many batches it has, of which the last begins with the page, and the noise on the sync word of that
/// batch; how often the page is heard.
const LONG_ROWS: [(&str, &[(usize, u32)], usize); 5] = [
    ("two batches twice", &[(2, 0), (2, 0)], 1),
    ("a longer second copy", &[(1, 0), (2, 0)], 2),
    ("a shorter second copy", &[(2, 0), (1, 0)], 0),
    ("the lock lost in the first copy", &[(2, BAD), (2, 0)], 1),
    ("the lock lost in the second copy", &[(2, 0), (2, BAD)], 0),
];

/// Appends a copy of so many batches, of which the last begins with the page.
fn add_copy(bits: &mut Vec<bool>, batches: usize, noise: u32) -> Result<(), AllocError> {
    let words = copy(&[]);
    for word in &words[..18] {
        add_word(bits, *word)?;
    }
    for _ in 1..batches {
        add_word(bits, SYNC)?;
        for _ in 0..16 {
            add_word(bits, IDLE)?;
        }
    }
    add_word(bits, SYNC ^ noise)?;
    for word in &words[19..] {
        add_word(bits, *word)?;
    }
    Ok(())
}

#[test]
fn copies_of_other_lengths_are_joined_slot_by_slot(rt: HostRuntime) -> Result<(), Fail> {
    let alloc = rt.alloc();
    for (name, sent, wanted) in LONG_ROWS {
        let mut bits = Vec::new(alloc);
        for (batches, noise) in sent {
            add_copy(&mut bits, *batches, *noise)?;
        }
        assert_eq!(rt; hellos(&rt, alloc, &bits)?, wanted, "{name}");
    }
    Ok(())
}

/// The bits of words, one after another.
fn word_bits(alloc: Global, words: &[u32]) -> Result<Vec<bool>, AllocError> {
    let mut bits = Vec::new(alloc);
    for word in words {
        add_word(&mut bits, *word)?;
    }
    Ok(bits)
}

/// Records these words alone.
fn record(recording: &mut Recording, words: &[u32]) {
    recording.clear();
    for word in words {
        if !recording.is_full() {
            recording.push(*word);
        }
    }
}

#[test]
fn recorded_words_come_twice(rt: HostRuntime) -> Result<(), Fail> {
    let alloc = rt.alloc();
    let mut recording = Recording::new(alloc)?;
    for words in [&[7][..], &[], &[SYNC], &[0x8000_0001, IDLE, 1]] {
        record(&mut recording, words);
        let mut twice = word_bits(alloc, words)?;
        twice.extend_from_slice(&word_bits(alloc, words)?)?;
        let mut source = recording.bits();
        for bit in &twice {
            assert_eq!(rt; source.bit()?, Some(*bit));
        }
        assert_eq!(rt; source.bit()?, None);
        let mut pieces = recording.bits();
        let mut at = 0usize;
        for _ in &twice {
            let mut piece = pieces.piece(7)?;
            for _ in 0..7 {
                if let Some(bit) = piece.pop() {
                    assert_eq!(rt; twice.get(at).copied(), Some(bit));
                    at = at.saturating_add(1);
                }
            }
        }
        assert_eq!(rt; at, twice.len());
    }
    Ok(())
}
