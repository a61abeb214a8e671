//! Runs of `play`, `play-line` and `show`, and of `line`: docs/profile.md, "play and show", "play-line", "line", "printed line" and "table".

use crate::runs::{
    ABC, Left, Object, Objects, files, push_air, push_preamble, push_words, run_over, texts,
};
use codeword::Capcode;
use receiver::Group;
use station::{Status, play, run};
use std::alloc::{AllocError, Global};
use std::test::Fail;
use wires::byte_bits::ByteBits;
use wires::fake_shelf::MemoryShelf;
use wires::fake_wire::MemoryWire;
use wires::fakes::{MemorySink, MemorySource};

/// Runs the program with these words over a shelf that has these bytes as its file `air.bin`.
fn heard(
    alloc: Global,
    words: &[&str],
    air: &[u8],
    faults: &[(Object, u64)],
) -> Result<Left, Fail> {
    let files = files(alloc, &[("air.bin", air)])?;
    let objects = Objects {
        heard: b"",
        files: &files,
        input: b"",
        cut: 1,
        faults,
    };
    run_over(alloc, words, objects)
}

/// Transmissions of `ABC` to capcode 8, one for each of these noises, one after another.
fn airs(alloc: Global, noises: &[u32]) -> Result<Vec<u8>, AllocError> {
    let mut air = Vec::new(alloc);
    for noise in noises {
        push_air(&mut air, 1, ABC, *noise)?;
    }
    Ok(air)
}

/// What a row shows, the noises of airs one after another, the words, and the lines that are printed.
type Row = (
    &'static str,
    &'static [u32],
    &'static [&'static str],
    &'static [u8],
);

const ONCE: &[u8] = b"01 0000008 A ABC\n";

const TWICE: &[u8] = b"01 0000008 A ABC\n01 0000008 A ABC\n";

const PLAY: &[&str] = &["play", "air.bin", "8"];

const HEARD: [Row; 6] = [
    ("another capcode", &[0], &["play", "air.bin", "9"], b""),
    ("one of two", &[0], &["play", "air.bin", "8", "16"], ONCE),
    ("neither of two", &[0], &["play", "air.bin", "9", "16"], b""),
    ("two transmissions", &[0, 0], PLAY, TWICE),
    (
        "two wrong bits in each word of the second",
        &[0, 0x8000_0001],
        &["play", "air.bin", "0000008", "16"],
        TWICE,
    ),
    (
        "two wrong bits in each word of both",
        &[0x8000_0001, 0x8000_0001],
        PLAY,
        TWICE,
    ),
];

/// The second preamble stands at a sync place, where the lock is lost.
#[test]
fn receivers_print_their_pages(rt: HostRuntime) -> Result<(), Fail> {
    for (name, noises, words, lines) in &HEARD {
        let air = airs(rt.alloc(), *noises)?;
        let left = heard(rt.alloc(), *words, &air, &[])?;
        assert_eq!(rt; left.status, Status::Done, "{name}");
        assert_eq!(rt; left.out.as_slice(), *lines, "{name}");
        assert!(rt; left.err.is_empty(), "{name}");
    }
    Ok(())
}

/// So many bytes of a transmission have its page and the word behind it whole: the preamble and five words.
const WHOLE_PAGE: usize = 92;

#[test]
fn a_page_is_printed_once_the_word_behind_it_is_whole(rt: HostRuntime) -> Result<(), Fail> {
    let mut air = airs(rt.alloc(), &[0])?;
    for size in (0..=air.len()).rev() {
        air.truncate(size);
        let left = heard(rt.alloc(), PLAY, &air, &[])?;
        let lines = if size < WHOLE_PAGE { b"" } else { ONCE };
        assert_eq!(rt; left.status, Status::Done, "{size} bytes");
        assert_eq!(rt; left.out.as_slice(), lines, "{size} bytes");
        assert!(rt; left.err.is_empty(), "{size} bytes");
    }
    Ok(())
}

/// The read that fails, its number, and what is printed of the bits before it.
const UNREAD: [(&str, u64, &[u8]); 2] = [
    ("the first read", 1, b""),
    ("the read at the end of the file", 2, ONCE),
];

#[test]
fn a_file_that_fails_is_played_until_then(rt: HostRuntime) -> Result<(), Fail> {
    let air = airs(rt.alloc(), &[0])?;
    for (read, number, lines) in &UNREAD {
        let left = heard(rt.alloc(), PLAY, &air, &[(Object::Shelf, *number)])?;
        assert!(rt; left.failed, "{read}");
        assert_eq!(rt; left.status, Status::FileFault, "{read}");
        assert_eq!(rt; left.out.as_slice(), *lines, "{read}");
        assert_eq!(rt; left.err.as_slice(), b"pocsag: file\n".as_slice(), "{read}");
    }
    Ok(())
}

/// Appends the samples of the bits of a byte, eight for each bit.
fn push_samples(byte: u8, samples: &mut Vec<u8>) -> Result<(), AllocError> {
    for place in (0..8u32).rev() {
        let is_one = (byte >> place) % 2 == 1;
        samples.push(if is_one { 0xFF } else { 0 })?;
    }
    Ok(())
}

/// The samples of bits, eight for each bit.
fn sampled(alloc: Global, air: &[u8]) -> Result<Vec<u8>, AllocError> {
    let mut samples = Vec::new(alloc);
    for byte in air {
        push_samples(*byte, &mut samples)?;
    }
    Ok(samples)
}

/// The read of the samples that fails, or none, and how the run ends.
const SAMPLED: [(&[(Object, u64)], Status); 2] = [
    (&[], Status::Done),
    (&[(Object::Shelf, 2)], Status::FileFault),
];

#[test]
fn receivers_hear_a_sampled_line(rt: HostRuntime) -> Result<(), Fail> {
    let air = airs(rt.alloc(), &[0])?;
    let samples = sampled(rt.alloc(), &air)?;
    for (faults, status) in &SAMPLED {
        let words = ["play-line", "air.bin", "8"];
        let left = heard(rt.alloc(), &words, &samples, *faults)?;
        assert!(rt; left.failed);
        assert_eq!(rt; left.status, *status);
        assert_eq!(rt; left.out.as_slice(), ONCE);
    }
    Ok(())
}

/// How many groups of zeros a page to capcode 8 has, in how many batches an idle word follows it, and what is printed of it: no more than
/// 350 groups are a page's.
const GROUPS: [(usize, usize, &[u8]); 2] = [(350, 22, b"01 0000008 A \n"), (351, 23, b"")];

/// Appends so many batches with a page of so many groups of zeros.
fn push_zeros(
    alloc: Global,
    air: &mut Vec<u8>,
    groups: usize,
    batches: usize,
) -> Result<(), AllocError> {
    let mut slots = Vec::new(alloc);
    slots.push((0usize, 0x0000_3B49u32))?;
    for slot in 1..=groups {
        slots.push((slot, 0x8000_0769))?;
    }
    push_air(air, batches, &slots, 0)
}

#[test]
fn a_page_of_351_groups_is_not_printed(rt: HostRuntime) -> Result<(), Fail> {
    for (groups, batches, lines) in &GROUPS {
        let mut air = Vec::new(rt.alloc());
        push_zeros(rt.alloc(), &mut air, *groups, *batches)?;
        let left = heard(rt.alloc(), PLAY, &air, &[])?;
        assert_eq!(rt; left.status, Status::Done, "{groups} groups");
        assert_eq!(rt; left.out.as_slice(), *lines, "{groups} groups");
        assert!(rt; left.err.is_empty(), "{groups} groups");
    }
    Ok(())
}

/// The table of a transmission of `ABC` to capcode 8.
pub(crate) const ABC_TABLE: &[u8] =
    b"batch 1\n00 address 0000008 A\n01 message 82870\n02 message 80000\n03 idle\n04 idle\n05 idle\n06 idle\n07 idle\n08 idle\n09 idle\n10 idle\n11 idle\n12 idle\n13 idle\n14 idle\n15 idle\n";

#[test]
fn the_table_of_a_file(rt: HostRuntime) -> Result<(), Fail> {
    let air = airs(rt.alloc(), &[0])?;
    let left = heard(rt.alloc(), &["show", "air.bin"], &air, &[])?;
    assert_eq!(rt; left.status, Status::Done);
    assert_eq!(rt; left.out.as_slice(), ABC_TABLE);
    assert!(rt; left.err.is_empty());
    Ok(())
}

/// The table of two transmissions. The first is cut behind its address word, and two bits of each of its words are wrong. The second
/// has a word that is near no codeword.
const CUT_TABLE: &[u8] =
    b"batch 1\n00 address 0000008 A\n01 bad\n02 bad\n03 bad\n04 bad\n05 bad\n06 bad\n07 bad\n08 bad\n09 bad\n10 bad\n11 bad\n12 bad\n13 bad\n14 bad\n15 bad\nbatch 2\n00 bad\n";

#[test]
fn the_table_counts_batches_over_all_locks(rt: HostRuntime) -> Result<(), Fail> {
    let mut air = Vec::new(rt.alloc());
    push_preamble(&mut air)?;
    push_words(&mut air, &[0x7CD2_15D8, 0x0000_3B49], 0x0000_0003)?;
    push_preamble(&mut air)?;
    push_words(&mut air, &[0x7CD2_15D8, 0x0000_0ED4], 0)?;
    let left = heard(rt.alloc(), &["show", "air.bin"], &air, &[])?;
    assert_eq!(rt; left.status, Status::Done);
    assert_eq!(rt; left.out.as_slice(), CUT_TABLE);
    Ok(())
}

/// The table of 18 sync words. Those in slots are addresses, of which each frame has one.
const SYNC_TABLE: &[u8] =
    b"batch 1\n00 address 2045056 2\n01 address 2045056 2\n02 address 2045057 2\n03 address 2045057 2\n04 address 2045058 2\n05 address 2045058 2\n06 address 2045059 2\n07 address 2045059 2\n08 address 2045060 2\n09 address 2045060 2\n10 address 2045061 2\n11 address 2045061 2\n12 address 2045062 2\n13 address 2045062 2\n14 address 2045063 2\n15 address 2045063 2\nbatch 2\n";

#[test]
fn sync_words_in_slots_are_addresses(rt: HostRuntime) -> Result<(), Fail> {
    let mut air = Vec::new(rt.alloc());
    push_preamble(&mut air)?;
    push_words(&mut air, &[0x7CD2_15D8; 18], 0)?;
    let left = heard(rt.alloc(), &["show", "air.bin"], &air, &[])?;
    assert_eq!(rt; left.status, Status::Done);
    assert_eq!(rt; left.out.as_slice(), SYNC_TABLE);
    assert!(rt; left.err.is_empty());
    Ok(())
}

/// The slots of the tones to 8, 16 and 15, in this order.
const TONES: [(usize, u32); 3] = [(0, 0x0000_283F), (1, 0x0000_4DD8), (14, 0x0000_283F)];

/// What a row shows, the words, and the lines that are printed of the tones.
const SHARED: [(&str, &[&str], &[u8]); 6] = [
    (
        "a capcode each",
        &["play", "air.bin", "8", "15", "16"],
        b"01 0000008 1 \n03 0000016 1 \n02 0000015 1 \n",
    ),
    (
        "two capcodes each",
        &["play", "air.bin", "8+15", "16+8"],
        b"01 0000008 1 \n02 0000008 1 \n02 0000016 1 \n01 0000015 1 \n",
    ),
    (
        "the same capcode",
        &["play", "air.bin", "8", "8"],
        b"01 0000008 1 \n02 0000008 1 \n",
    ),
    (
        "four capcodes",
        &["play", "air.bin", "9+0000015+2000000+016"],
        b"01 0000016 1 \n01 0000015 1 \n",
    ),
    (
        "the last of three",
        &["play", "air.bin", "9", "10+11", "12+15+13"],
        b"03 0000015 1 \n",
    ),
    (
        "none of these",
        &["play", "air.bin", "9+10+11+12", "17"],
        b"",
    ),
];

#[test]
fn each_receiver_prints_the_pages_of_its_capcodes(rt: HostRuntime) -> Result<(), Fail> {
    let mut air = Vec::new(rt.alloc());
    push_air(&mut air, 1, &TONES, 0)?;
    for (name, words, lines) in &SHARED {
        let left = heard(rt.alloc(), *words, &air, &[])?;
        assert_eq!(rt; left.status, Status::Done, "{name}");
        assert_eq!(rt; left.out.as_slice(), *lines, "{name}");
        assert!(rt; left.err.is_empty(), "{name}");
    }
    Ok(())
}

/// So many receivers of the same four capcodes, 9, 15, 17 and 2000000.
fn alike(alloc: Global, count: usize) -> Result<Vec<&'static str>, AllocError> {
    let mut words = Vec::new(alloc);
    words.extend_from_slice(&["play", "air.bin"])?;
    for _ in 0..count {
        words.push("9+15+17+2000000")?;
    }
    Ok(words)
}

/// The lines of the tone to 15, for so many receivers.
fn lines_of_fifteen(alloc: Global, count: u8) -> Result<Vec<u8>, AllocError> {
    let mut lines = Vec::new(alloc);
    for number in 1..=count {
        lines.push(b'0' + number / 10 % 10)?;
        lines.push(b'0' + number % 10)?;
        lines.extend_from_slice(b" 0000015 1 \n")?;
    }
    Ok(lines)
}

#[test]
fn there_are_64_receivers_of_four_capcodes_at_most(rt: HostRuntime) -> Result<(), Fail> {
    let mut air = Vec::new(rt.alloc());
    push_air(&mut air, 1, &TONES, 0)?;
    let words = alike(rt.alloc(), 64)?;
    let left = heard(rt.alloc(), &words, &air, &[])?;
    assert_eq!(rt; left.status, Status::Done);
    assert_eq!(rt;
        left.out.as_slice(),
        lines_of_fifteen(rt.alloc(), 64)?.as_slice()
    );
    let words = alike(rt.alloc(), 65)?;
    let left = heard(rt.alloc(), &words, &air, &[])?;
    assert_eq!(rt; left.status, Status::Usage);
    assert!(rt; left.out.is_empty());
    Ok(())
}

/// The receivers 1 of the capcodes 8 and 15, and 2 of 16 and 8, over the tones to 8, 16 and 15.
#[test]
fn receivers_share_a_capcode(rt: HostRuntime) -> Result<(), Fail> {
    let mut air = Vec::new(rt.alloc());
    push_air(&mut air, 1, &TONES, 0)?;
    let [eight, fifteen, sixteen] = [8, 15, 16].map(Capcode::of);
    let eight = eight.expect(&rt, "a usable capcode");
    let fifteen = fifteen.expect(&rt, "a usable capcode");
    let sixteen = sixteen.expect(&rt, "a usable capcode");
    let pairs = [(1, eight), (1, fifteen), (2, sixteen), (2, eight)];
    let mut group = Group::new(rt.alloc(), &pairs)?;
    let mut bits = ByteBits::over(MemorySource::new(rt.alloc(), &air, 1, &[])?);
    let mut out = MemorySink::new(rt.alloc(), 100, &[])?;
    let status = play(&mut bits, &mut group, &mut out);
    assert_eq!(rt; status, Status::Done);
    assert_eq!(rt;
        out.bytes(),
        b"01 0000008 1 \n02 0000008 1 \n02 0000016 1 \n01 0000015 1 \n".as_slice()
    );
    Ok(())
}

/// How many bytes can be written, or appended to a file.
const ROOM: usize = 2400;

/// Runs the program with these words over a shelf, and answers its status and what it printed.
fn ran_over(
    alloc: Global,
    words: &[&str],
    shelf: &mut MemoryShelf,
) -> Result<(Status, Vec<u8>), Fail> {
    let words = texts(alloc, words)?;
    let mut wire = MemoryWire::new(alloc, &[], 1, ROOM, &[])?;
    let mut input = MemorySource::new(alloc, b"", 1, &[])?;
    let mut out = MemorySink::new(alloc, ROOM, &[])?;
    let mut err = MemorySink::new(alloc, ROOM, &[])?;
    let status = run(
        alloc, &words, &mut wire, shelf, &mut input, &mut out, &mut err,
    );
    Ok((status, Vec::from_slice(alloc, out.bytes())?))
}

/// The seeds of lines.
const SEEDS: [&str; 3] = ["1", "0", "18446744073709551615"];

#[test]
fn receivers_hear_the_line_of_a_transmission(rt: HostRuntime) -> Result<(), Fail> {
    let mut air = Vec::new(rt.alloc());
    push_air(&mut air, 1, ABC, 0)?;
    for seed in SEEDS {
        let files = files(rt.alloc(), &[("air.bin", &air)])?;
        let mut shelf = MemoryShelf::new(rt.alloc(), &files, ROOM, &[])?;
        let (status, out) = ran_over(rt.alloc(), &["line", "air.bin", "l.bin", seed], &mut shelf)?;
        assert_eq!(rt; status, Status::Done, "{seed}");
        assert!(rt; out.is_empty(), "{seed}");
        assert_eq!(rt;
            shelf.bytes("l.bin").map(|bytes| bytes.len()),
            Some(1120),
            "{seed}"
        );
        let (status, out) = ran_over(rt.alloc(), &["play-line", "l.bin", "8"], &mut shelf)?;
        assert_eq!(rt; status, Status::Done, "{seed}");
        assert_eq!(rt; out.as_slice(), b"01 0000008 A ABC\n".as_slice(), "{seed}");
    }
    Ok(())
}
