//! Runs of `one`: docs/profile.md, "one".

use crate::runs::{ABC, Left, Object, Objects, air_of, run_into, run_over, spelled};
use station::Status;
use std::alloc::{AllocError, Global};
use std::process::Abort;
use std::test::Fail;

/// One block: `123`, `ABC`.
const ABC_BLOCK: &[u8] = b"\x02123\rABC\r\x0317;\r";

/// The same, with the eighth bit of each byte set.
const WITH_PARITY: &[u8] = b"\x82\xB1\xB2\xB3\x8D\xC1\xC2\xC3\x8D\x83\xB1\xB7\xBB\x8D";

/// Runs `one` with this capcode over an input that comes in pieces of so many bytes at most.
fn ran_one(
    alloc: Global,
    capcode: &str,
    input: &[u8],
    cut: usize,
    faults: &[(Object, u64)],
) -> Result<Left, Fail> {
    let objects = Objects {
        heard: b"",
        files: &[],
        input,
        cut,
        faults,
    };
    run_over(alloc, &["one", capcode], objects)
}

/// What a row shows, a capcode, a block, the length of its pieces, and the words of the transmission.
type Row = (
    &'static str,
    &'static str,
    &'static [u8],
    usize,
    &'static [(usize, u32)],
);

const SENT: [Row; 5] = [
    ("three letters", "8", ABC_BLOCK, 14, ABC),
    (
        "zeros in front of the capcode, byte by byte",
        "0000008",
        ABC_BLOCK,
        1,
        ABC,
    ),
    (
        "two pieces that are cut within a field",
        "8",
        ABC_BLOCK,
        5,
        ABC,
    ),
    ("parity bits", "08", WITH_PARITY, 3, ABC),
    (
        "a carriage return, spelled by SUB",
        "8",
        b"\x021\rA\x1AM\r\x030?8\r",
        4,
        &[(0, 0x0000_3B49), (1, 0xC1B0_04B6)],
    ),
];

#[test]
fn one_block_becomes_one_transmission(rt: HostRuntime) -> Result<(), Fail> {
    for (name, capcode, block, cut, words) in &SENT {
        let left = ran_one(rt.alloc(), *capcode, *block, *cut, &[])?;
        let air = air_of(rt.alloc(), 1, *words)?;
        assert_eq!(rt; left.status, Status::Done, "{name}");
        assert_eq!(rt; left.status.code(), 0, "{name}");
        assert_eq!(rt; left.out.as_slice(), air.as_slice(), "{name}");
        assert_eq!(rt; left.out.len(), 140, "{name}");
        assert!(rt; left.err.is_empty(), "{name}");
    }
    Ok(())
}

/// What an input is, and the input.
type Input = (&'static str, &'static [u8]);

/// Checks that `one` refuses these inputs with this status, its code and its line, and writes nothing.
fn refused(
    rt: &impl Abort,
    alloc: Global,
    table: &[Input],
    expected: Status,
    code: u8,
    line: &[u8],
) -> Result<(), Fail> {
    for (name, block) in table {
        let left = ran_one(alloc, "8", *block, 300, &[])?;
        assert_eq!(rt; left.status, expected, "{name}");
        assert_eq!(rt; left.status.code(), code, "{name}");
        assert!(rt; left.out.is_empty(), "{name}");
        assert_eq!(rt; left.err.as_slice(), line, "{name}");
    }
    Ok(())
}

/// Inputs that aren't one block.
const NO_BLOCKS: [Input; 10] = [
    ("nothing", b""),
    ("STX alone", b"\x02"),
    ("a byte behind the block", b"\x02123\rABC\r\x0317;\rx"),
    ("a byte before the block", b"x\x02123\rABC\r\x0317;\r"),
    ("no last CR", b"\x02123\rABC\r\x0317;"),
    ("the end ETB", b"\x02123\rABC\r\x1718?\r"),
    ("the end US", b"\x02123\rABC\r\x1F190\r"),
    (
        "a block in a block",
        b"\x02123\rABC\r\x02123\rABC\r\x0317;\r",
    ),
    ("no STX", b"\x03\x0317;\r"),
    ("CR alone", b"\r"),
];

#[test]
fn other_input_is_no_block(rt: HostRuntime) -> Result<(), Fail> {
    refused(
        &rt,
        rt.alloc(),
        &NO_BLOCKS,
        Status::NotBlock,
        8,
        b"pocsag: not a block\n",
    )
}

/// Blocks with a wrong trailer.
const WRONG_SUMS: [Input; 7] = [
    ("the last character is one more", b"\x02123\rABC\r\x0317<\r"),
    ("LF at the end", b"\x02123\rABC\r\x0317;\n"),
    ("no sum", b"\x02123\rABC\r\x03\r"),
    ("two characters", b"\x02123\rABC\r\x0317\r"),
    ("four characters", b"\x02123\rABC\r\x03017;"),
    ("no CR behind the text", b"\x02123\rABC\x0317;\r"),
    ("no text and a sum of zeros", b"\x02\x03000\r"),
];

/// A wrong trailer comes before a text that isn't there.
#[test]
fn a_wrong_trailer_is_a_wrong_sum(rt: HostRuntime) -> Result<(), Fail> {
    refused(
        &rt,
        rt.alloc(),
        &WRONG_SUMS,
        Status::BadSum,
        9,
        b"pocsag: wrong sum\n",
    )
}

/// Blocks with a right trailer, whose content has no text.
const NO_TEXTS: [Input; 11] = [
    ("no field", b"\x02\x03005\r"),
    ("one field", b"\x02123\rABC\x0316>\r"),
    ("three fields", b"\x02\r\r\r\x0302<\r"),
    ("an empty field between", b"\x02123\r\rABC\r\x03188\r"),
    ("DEL in the text", b"\x02123\rA\x7F\r\x03175\r"),
    ("LF in the text", b"\x021\rA\nB\r\x030==\r"),
    ("SUB at the end", b"\x02123\rA\x1A\r\x03110\r"),
    (
        "SUB before a character that it does not spell",
        b"\x02123\rA\x1A!\r\x03131\r",
    ),
    (
        "SUB at the end of the first field",
        b"\x021\x1A\rA\r\x030:;\r",
    ),
    (
        "a control character in the first field",
        b"\x021\x01\rA\r\x03092\r",
    ),
    (
        "SUB before a letter that spells SOH",
        b"\x021\rA\x1AA\r\x030><\r",
    ),
];

/// No two fields, a field without a value, and a text that no alphanumeric page carries.
#[test]
fn a_content_without_a_text(rt: HostRuntime) -> Result<(), Fail> {
    refused(
        &rt,
        rt.alloc(),
        &NO_TEXTS,
        Status::BadText,
        10,
        b"pocsag: text\n",
    )
}

/// A block whose text is so many letters `A`, with an empty first field and the sum that it has to have.
fn letters(alloc: Global, count: usize) -> Result<Vec<u8>, AllocError> {
    let mut block = spelled(alloc, &[(b"\x02\r", count), (b"\r\x03", 0)])?;
    let sum = tap_block::sum(&block);
    block.extend_from_slice(&sum)?;
    block.push(b'\r')?;
    Ok(block)
}

#[test]
fn the_longest_body_has_250_characters(rt: HostRuntime) -> Result<(), Fail> {
    // 1736 bits are 87 groups, and the run of 88 words takes 6 batches.
    for (count, status, size) in [
        (0, Status::Done, 72 + 17 * 4),
        (248, Status::Done, 72 + 6 * 17 * 4),
        (249, Status::NotBlock, 0usize),
        (600, Status::NotBlock, 0),
    ] {
        let block = letters(rt.alloc(), count)?;
        let left = ran_one(rt.alloc(), "0", &block, 100, &[])?;
        assert_eq!(rt; left.status, status, "{count} letters");
        assert_eq!(rt; left.out.len(), size, "{count} letters");
    }
    Ok(())
}

/// What fails, the calls, the input, the status, how many bytes of the transmission were written, and the line about the status.
type Failing = (
    &'static str,
    &'static [(Object, u64)],
    &'static [u8],
    Status,
    usize,
    &'static [u8],
);

/// Runs over failing objects.
const FAILING: [Failing; 6] = [
    (
        "the first read",
        &[(Object::Input, 1)],
        ABC_BLOCK,
        Status::InputFault,
        0,
        b"pocsag: input\n",
    ),
    (
        "the third read",
        &[(Object::Input, 3)],
        ABC_BLOCK,
        Status::InputFault,
        0,
        b"pocsag: input\n",
    ),
    (
        "the first read, and the line about it",
        &[(Object::Input, 1), (Object::Errors, 1)],
        ABC_BLOCK,
        Status::OutFault,
        0,
        b"",
    ),
    (
        "the preamble",
        &[(Object::Output, 1)],
        ABC_BLOCK,
        Status::OutFault,
        0,
        b"",
    ),
    (
        "the batch",
        &[(Object::Output, 2)],
        ABC_BLOCK,
        Status::OutFault,
        72,
        b"",
    ),
    (
        "the line about a block that is none",
        &[(Object::Errors, 1)],
        b"x",
        Status::OutFault,
        0,
        b"",
    ),
];

#[test]
fn a_failing_object_is_named(rt: HostRuntime) -> Result<(), Fail> {
    let air = air_of(rt.alloc(), 1, ABC)?;
    for (name, faults, block, status, size, line) in &FAILING {
        let left = ran_one(rt.alloc(), "8", *block, 5, *faults)?;
        assert_eq!(rt; left.status, *status, "{name}");
        assert_eq!(rt; Some(left.out.as_slice()), air.get(..*size), "{name}");
        assert_eq!(rt; left.err.as_slice(), *line, "{name}");
    }
    Ok(())
}

/// The preamble has room in it, and the batch hasn't.
#[test]
fn a_full_output_has_a_front(rt: HostRuntime) -> Result<(), Fail> {
    let objects = Objects {
        heard: b"",
        files: &[],
        input: ABC_BLOCK,
        cut: 14,
        faults: &[],
    };
    let left = run_into(rt.alloc(), &["one", "8"], objects, 100)?;
    let air = air_of(rt.alloc(), 1, ABC)?;
    assert_eq!(rt; left.status, Status::OutFault);
    assert_eq!(rt; left.status.code(), 6);
    assert!(rt; air.starts_with(&left.out) && left.out.len() <= 100);
    assert!(rt; left.err.is_empty());
    Ok(())
}
