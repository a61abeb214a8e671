//! Worked transmissions.

use crate::{AirBits, Sent, Words, transmit};
use codeword::{Capcode, Function, IDLE, SYNC};
use page_pool::Pool;
use page_text::fits;
use std::alloc::{AllocError, Global};
use std::test::Fail;
use wires::Failed;
use wires::fakes::MemorySink;
use wires::sink::WordBytes;
use wires::source::BitSource;
use wires::steps::{Steps, Work};

/// A page: its capcode, its function and its text.
type Page = (u32, Function, &'static [u8]);

/// The slots of a batch.
type Slots = [u32; 16];

/// Tones to the capcodes 8 and 16 or 15.
const TONE: u32 = 0x0000_283F;

const OTHER_TONE: u32 = 0x0000_4DD8;

/// A batch of idle slots.
const IDLE_BATCH: Slots = [IDLE; 16];

/// What a row shows, pages, and the batches of their transmission.
const ROWS: [(&str, &[Page], &[Slots]); 6] = [
    ("no page", &[], &[]),
    ("three letters", &[(8, Function::Alpha, b"ABC")], &[ABC]),
    (
        "three tones, the first in the last frame",
        &[
            (15, Function::Tone1, b""),
            (8, Function::Tone1, b""),
            (16, Function::Tone1, b""),
        ],
        &[THREE_TONES],
    ),
    (
        "a letter in the last frame",
        &[(15, Function::Alpha, b"A")],
        &[LETTER, IDLE_BATCH],
    ),
    (
        "two tones in the last frame",
        &[(15, Function::Tone1, b""), (15, Function::Tone1, b"")],
        &[LAST_TONES, IDLE_BATCH],
    ),
    (
        "three tones, two in one frame",
        &[
            (8, Function::Tone1, b""),
            (8, Function::Tone1, b""),
            (16, Function::Tone1, b""),
        ],
        &[FIRST_TONES, NEXT_TONE],
    ),
];

const ABC: Slots = [
    0x0000_3B49,
    0xC143_87B8,
    0xC000_04DC,
    IDLE,
    IDLE,
    IDLE,
    IDLE,
    IDLE,
    IDLE,
    IDLE,
    IDLE,
    IDLE,
    IDLE,
    IDLE,
    IDLE,
    IDLE,
];

const THREE_TONES: Slots = [
    TONE, OTHER_TONE, IDLE, IDLE, IDLE, IDLE, IDLE, IDLE, IDLE, IDLE, IDLE, IDLE, IDLE, IDLE, TONE,
    IDLE,
];

const LETTER: Slots = [
    IDLE,
    IDLE,
    IDLE,
    IDLE,
    IDLE,
    IDLE,
    IDLE,
    IDLE,
    IDLE,
    IDLE,
    IDLE,
    IDLE,
    IDLE,
    IDLE,
    0x0000_3B49,
    0xC100_057F,
];

const LAST_TONES: Slots = [
    IDLE, IDLE, IDLE, IDLE, IDLE, IDLE, IDLE, IDLE, IDLE, IDLE, IDLE, IDLE, IDLE, IDLE, TONE, TONE,
];

const FIRST_TONES: Slots = [
    TONE, TONE, IDLE, IDLE, IDLE, IDLE, IDLE, IDLE, IDLE, IDLE, IDLE, IDLE, IDLE, IDLE, IDLE, IDLE,
];

const NEXT_TONE: Slots = [
    OTHER_TONE, IDLE, IDLE, IDLE, IDLE, IDLE, IDLE, IDLE, IDLE, IDLE, IDLE, IDLE, IDLE, IDLE, IDLE,
    IDLE,
];

/// A pool of 64 cells with these pages.
fn pool_of(alloc: Global, pages: &[Page]) -> Result<Pool, Fail> {
    let mut pool = Pool::new(alloc, 64)?;
    for (capcode, function, text) in pages {
        let Some(capcode) = Capcode::of(*capcode) else {
            return Err(Fail::from("no usable capcode"));
        };
        if fits(*function, text).is_err() {
            return Err(Fail::from("a text that doesn't fit"));
        }
        if pool.put(capcode, *function, text).is_err() {
            return Err(Fail::from("no room"));
        }
    }
    Ok(pool)
}

/// The words of a transmission of these batches. There are none where there is no batch.
fn words_of(alloc: Global, batches: &[Slots]) -> Result<Vec<u32>, AllocError> {
    let mut words = Vec::new(alloc);
    if batches.is_empty() {
        return Ok(words);
    }
    words.extend_from_slice(&[0xAAAA_AAAA; 18])?;
    for slots in batches {
        words.push(SYNC)?;
        words.extend_from_slice(slots)?;
    }
    Ok(words)
}

/// The bytes of words.
fn bytes_of(alloc: Global, words: &[u32]) -> Result<Vec<u8>, AllocError> {
    let mut bytes = Vec::new(alloc);
    for word in words {
        bytes.extend_from_slice(&word.to_be_bytes())?;
    }
    Ok(bytes)
}

/// Transmits into a sink of bytes.
fn send(pool: &mut Pool, sink: &mut MemorySink) -> Result<Sent, Failed> {
    let mut steps: Steps<Work> = Steps::new();
    let mut words = WordBytes::over(sink);
    transmit(pool, &mut words, &mut steps)
}

#[test]
fn the_batches_of_a_pool(rt: HostRuntime) -> Result<(), Fail> {
    for (name, pages, batches) in ROWS {
        let mut pool = pool_of(rt.alloc(), pages)?;
        let mut sink = MemorySink::new(rt.alloc(), 1024, &[])?;
        let sent = Sent {
            pages: pages.len() as u32,
            batches: batches.len() as u32,
        };
        assert_eq!(rt; send(&mut pool, &mut sink), Ok(sent), "{name}");
        let words = words_of(rt.alloc(), batches)?;
        let bytes = bytes_of(rt.alloc(), &words)?;
        assert_eq!(rt; sink.bytes(), bytes.as_slice(), "{name}");
        assert_eq!(rt; pool.count(), 0, "{name}");
        assert_eq!(rt; pool.spare(), 64, "{name}");
    }
    Ok(())
}

/// Three tones: the call of the sink that fails, from 1, how many bytes were written before it, and how many pages are left.
const FAILING: [(u64, usize, u32); 3] = [(1, 0, 3), (2, 72, 1), (3, 140, 0)];

#[test]
fn a_refused_batch_counts_as_handed_over(rt: HostRuntime) -> Result<(), Fail> {
    let (_, pages, _) = ROWS[5];
    for (failing, size, left) in FAILING {
        let mut pool = pool_of(rt.alloc(), pages)?;
        let mut sink = MemorySink::new(rt.alloc(), 1024, &[failing])?;
        assert_eq!(rt; send(&mut pool, &mut sink), Err(Failed), "call {failing}");
        assert_eq!(rt; sink.bytes().len(), size, "call {failing}");
        assert_eq!(rt; pool.count(), left, "call {failing}");
    }
    Ok(())
}

/// Whether these are the words of a transmission of the pool's pages, and there are no others.
fn gives_words(pool: &mut Pool, words: &[u32]) -> bool {
    let mut steps: Steps<Work> = Steps::new();
    let mut reader = Words::over(pool);
    for word in words {
        if reader.next(&mut steps) != Some(*word) {
            return false;
        }
    }
    reader.next(&mut steps).is_none()
}

/// The next 32 bits of a source as a word. None where there are fewer.
fn next_word<B: BitSource>(bits: &mut B) -> Option<u32> {
    let mut word = 0;
    for _ in 0..32 {
        let Ok(Some(bit)) = bits.bit() else {
            return None;
        };
        word = (word << 1) | u32::from(bit);
    }
    Some(word)
}

/// Whether these are the words of the bits of a source.
fn has_words<B: BitSource>(bits: &mut B, words: &[u32]) -> bool {
    for word in words {
        if next_word(bits) != Some(*word) {
            return false;
        }
    }
    bits.bit() == Ok(None)
}

#[test]
fn the_words_and_the_bits_of_a_pool(rt: HostRuntime) -> Result<(), Fail> {
    for (name, pages, batches) in ROWS {
        let words = words_of(rt.alloc(), batches)?;
        let mut pool = pool_of(rt.alloc(), pages)?;
        assert!(rt; gives_words(&mut pool, &words), "{name}");
        assert_eq!(rt; pool.count(), 0, "{name}");
        let mut pool = pool_of(rt.alloc(), pages)?;
        let mut steps: Steps<Work> = Steps::new();
        let mut bits = AirBits::over(&mut pool, &mut steps);
        assert!(rt; has_words(&mut bits, &words), "{name}");
        assert_eq!(rt; pool.count(), 0, "{name}");
    }
    Ok(())
}
