//! What no clause says: each type once through its bound, at the calls that fail, and the order of bytes.
ghost use Rattle.std.specs.Prelude.{[], drop, true};
ghost use Rattle.wires.specs.Silent.{silent_sink};

use crate::callers::{
    Copied, answer_one, copy, first_byte, first_bytes, holds_a_byte, ring, skip, two_words,
    words_over, write_file,
};
use crate::fakes::{MemorySink, MemorySource};
use crate::nothing::{NoShelf, NoWire};
use crate::shelf::Shelf;
use crate::sink::{BitSink, Sink, WordBytes};
use crate::source::{BitSource, Source};
use crate::steps::{Steps, Work};
use crate::wire::Wire;
use crate::{Failed, Memory, raise};
use std::test::Fail;

/// Three bits, of which so many are read. It never fails.
#[derive(Drop)]
struct ThreeBits {
    bits: [bool; 3],
    at: usize,
}

impl BitSource for ThreeBits {
    ghost state = { λ s. record { tells = true; left = drop s.at s.bits; there = true; steady = true; faults = 0; lent = [] } };

    fn bit(&mut self) -> Result<Option<bool>, Failed> {
        match self.bits.get(self.at) {
            Some(bit) => {
                self.at += 1;
                Ok(Some(*bit))
            }
            None => Ok(None),
        }
    }
}

/// Keeps up to four words. It tells nothing but its faults.
#[derive(Drop)]
struct FourWords {
    words: [u32; 4],
    count: usize,
    faults: u64,
}

impl BitSink for FourWords {
    ghost state = { λ s. silent_sink s.faults };

    fn word(&mut self, w: u32) -> Result<(), Failed> {
        match self.words.get_mut(self.count) {
            Some(place) => {
                *place = w;
                self.count += 1;
                Ok(())
            }
            None => {
                raise(&mut self.faults);
                Err(Failed)
            }
        }
    }
}

#[test]
fn a_source_gives_all_its_bytes_whatever_its_cut(rt: HostRuntime) -> Result<(), Fail> {
    for cut in [1, 2, 3, 9] {
        let mut source = MemorySource::new(rt.alloc(), b"seven B", cut, &[])?;
        let mut sink = MemorySink::new(rt.alloc(), 7, &[])?;
        assert_eq!(rt; copy(&mut source, &mut sink), Copied::Whole, "cut {cut}");
        assert_eq!(rt; sink.bytes(), b"seven B".as_slice(), "cut {cut}");
        assert_eq!(rt; source.take(&mut [0; 4]), Ok(0), "cut {cut}");
    }
    Ok(())
}

#[test]
fn a_source_gives_at_most_its_cut(rt: HostRuntime) -> Result<(), Fail> {
    for (cut, gives) in [
        (1, [1, 1, 1, 1, 1, 0]),
        (2, [2, 2, 1, 0, 0, 0]),
        (3, [3, 2, 0, 0, 0, 0]),
        (9, [4, 1, 0, 0, 0, 0]),
    ] {
        let mut source = MemorySource::new(rt.alloc(), b"12345", cut, &[])?;
        for want in gives {
            assert_eq!(rt; source.take(&mut [0; 4]), Ok(want), "cut {cut}");
        }
    }
    Ok(())
}

#[test]
fn a_source_fails_exactly_at_its_failing_calls(rt: HostRuntime) -> Result<(), Fail> {
    let mut source = MemorySource::new(rt.alloc(), b"ab", 1, &[2, 4])?;
    for (call, want) in [
        (1, Ok(1)),
        (2, Err(Failed)),
        (3, Ok(1)),
        (4, Err(Failed)),
        (5, Ok(0)),
        (6, Ok(0)),
    ] {
        assert_eq!(rt; source.take(&mut [0; 4]), want, "call {call}");
    }
    Ok(())
}

#[test]
fn a_sink_fails_exactly_at_its_failing_calls_and_past_its_room(
    rt: HostRuntime,
) -> Result<(), Fail> {
    let mut sink = MemorySink::new(rt.alloc(), 5, &[2])?;
    for (name, piece, want, holds) in [
        ("room for all", b"abc".as_slice(), Ok(()), b"abc".as_slice()),
        (
            "a failing call",
            b"d".as_slice(),
            Err(Failed),
            b"abc".as_slice(),
        ),
        (
            "past its room",
            b"def".as_slice(),
            Err(Failed),
            b"abc".as_slice(),
        ),
        (
            "up to its room",
            b"de".as_slice(),
            Ok(()),
            b"abcde".as_slice(),
        ),
        (
            "nothing, when full",
            b"".as_slice(),
            Ok(()),
            b"abcde".as_slice(),
        ),
        (
            "a byte, when full",
            b"f".as_slice(),
            Err(Failed),
            b"abcde".as_slice(),
        ),
    ] {
        assert_eq!(rt; sink.put(piece), want, "{name}");
        assert_eq!(rt; sink.bytes(), holds, "{name}");
    }
    Ok(())
}

#[test]
fn copying_stops_at_a_failing_call(rt: HostRuntime) -> Result<(), Fail> {
    let mut source = MemorySource::new(rt.alloc(), b"abc", 1, &[3])?;
    let mut sink = MemorySink::new(rt.alloc(), 3, &[])?;
    assert_eq!(rt; copy(&mut source, &mut sink), Copied::SourceFailed);
    assert_eq!(rt; sink.bytes(), b"ab".as_slice());
    let mut full = MemorySink::new(rt.alloc(), 0, &[])?;
    assert_eq!(rt; copy(&mut source, &mut full), Copied::SinkFailed);
    Ok(())
}

#[test]
fn a_word_is_four_bytes_the_most_significant_first(rt: HostRuntime) -> Result<(), Fail> {
    let mut sink = MemorySink::new(rt.alloc(), 12, &[])?;
    let mut words = WordBytes::over(&mut sink);
    assert_eq!(rt; words.word(0x7CD2_15D8), Ok(()));
    assert_eq!(rt; two_words(&mut words, 0x7A89_C197, 1), Ok(()));
    assert_eq!(rt; words.word(2), Err(Failed));
    assert_eq!(rt;
        sink.bytes(),
        [0x7C, 0xD2, 0x15, 0xD8, 0x7A, 0x89, 0xC1, 0x97, 0, 0, 0, 1].as_slice()
    );
    Ok(())
}

#[test]
fn forty_words_arrive_whole_in_two_pieces(rt: HostRuntime) -> Result<(), Fail> {
    let mut sink = MemorySink::new(rt.alloc(), 160, &[3])?;
    assert_eq!(rt; words_over(&mut sink, &[0x0102_0304; 40]), Ok(()));
    assert_eq!(rt; sink.bytes().len(), 160);
    for (word, four) in sink.bytes().chunks(4).enumerate() {
        assert_eq!(rt; four, [1, 2, 3, 4].as_slice(), "word {word}");
    }
    assert_eq!(rt; sink.put(b""), Err(Failed), "the third call");
    Ok(())
}

#[test]
fn words_arrive_one_by_one_up_to_one_that_fails(rt: HostRuntime) {
    let mut sink = FourWords {
        words: [0; 4],
        count: 0,
        faults: 0,
    };
    assert_eq!(rt; sink.words(&[0x7CD2_15D8, 1]), Ok(()));
    assert_eq!(rt; sink.count, 2);
    assert_eq!(rt; sink.words(&[]), Ok(()));
    assert_eq!(rt; sink.words(&[2, 3, 4, 5]), Err(Failed));
    assert_eq!(rt; sink.words, [0x7CD2_15D8, 1, 2, 3]);
    assert_eq!(rt; sink.faults, 1);
}

#[test]
fn bits_are_skipped_up_to_the_end(rt: HostRuntime) {
    let mut bits = ThreeBits {
        bits: [true, false, true],
        at: 0,
    };
    assert_eq!(rt; skip(&mut bits), Ok(true));
    assert_eq!(rt; bits.bit(), Ok(Some(false)));
    assert_eq!(rt; skip(&mut bits), Ok(true));
    assert_eq!(rt; skip(&mut bits), Ok(false));
    assert_eq!(rt; bits.bit(), Ok(None));
}

#[test]
fn a_shelf_that_is_not_there_fails_at_every_call(rt: HostRuntime) {
    let mut shelf = NoShelf::new();
    assert_eq!(rt; shelf.read("a", 0, &mut [0; 1]), Err(Failed));
    assert_eq!(rt; shelf.fresh("a"), Err(Failed));
    assert_eq!(rt; shelf.append("a", b""), Err(Failed));
    assert_eq!(rt; write_file(&mut shelf, "a", b"b"), Err(Failed));
    assert_eq!(rt; holds_a_byte(&mut shelf, "a"), Err(Failed));
}

#[test]
fn a_wire_that_is_not_there_fails_at_every_call(rt: HostRuntime) {
    let mut wire = NoWire::new();
    assert_eq!(rt; wire.listen("a"), Err(Failed));
    assert_eq!(rt; wire.next(), Err(Failed));
    assert_eq!(rt; wire.dial("a"), Err(Failed));
    assert_eq!(rt; wire.hear(&mut [0; 1]), Err(Failed));
    assert_eq!(rt; wire.say(b"a"), Err(Failed));
    assert_eq!(rt; wire.hang_up(), Err(Failed));
    assert_eq!(rt; answer_one(&mut wire, "a", b"b"), Err(Failed));
    assert_eq!(rt; ring(&mut wire, "a"), Err(Failed));
}

#[test]
fn steps_take_no_bytes_and_change_nothing(rt: HostRuntime) {
    let mut steps = Steps::<Work>::new();
    assert_eq!(rt; first_byte(b"ab", &mut steps), Some(b'a'));
    assert_eq!(rt; first_byte(b"", &mut steps), None);
    let (first, second, _) = first_bytes(b"c", b"d");
    assert_eq!(rt; (first, second), (Some(b'c'), Some(b'd')));
    assert_eq!(rt; size_of::<Steps<Work>>(), 0);
}
