//! Blocks of the entry line with their sums: docs/profile.md, "block" and "sum".

use crate::runs::spelled;
use std::alloc::{AllocError, Global};
use std::test::Fail;
use tap_block::{End, Item, Scanner, sum};

/// A block. Its body is a front, so many letters A, and a rest; then its end, and its sum as it is written.
type Block = (&'static [u8], usize, &'static [u8], End, &'static [u8]);

/// The worked sums, and those of bodies of 251 and 252 letters. A failing test prints a block's place, counted from 0.
const BLOCKS: [Block; 25] = [
    (b"123\rABC\r", 0, b"", End::Etx, b"17;"),
    (b"123\rABC", 0, b"", End::Etx, b"16>"),
    (b"5551234\rHELLO\r", 0, b"", End::Etx, b"2?<"),
    (b"999\rX\r", 0, b"", End::Etx, b"122"),
    (b"HELLO\r", 0, b"", End::Etx, b"186"),
    (b"5550002\r12 \r", 0, b"", End::Etx, b"203"),
    (b"5550002\r12\r", 0, b"", End::Etx, b"1>3"),
    (b"5550002\r\r", 0, b"", End::Etx, b"180"),
    (b"15\r\r", 0, b"", End::Etx, b"085"),
    (b"8\r\r", 0, b"", End::Etx, b"057"),
    (b"16\r\r", 0, b"", End::Etx, b"086"),
    (b"7\rA\r", 0, b"", End::Etx, b"097"),
    (b"5551234\rA\x1A", 0, b"", End::Us, b"1?2"),
    (b"MB\r", 0, b"", End::Etx, b"0:1"),
    (b"5551234\r", 64, b"\r", End::Etx, b"1<8"),
    (b"5551234\r", 1, b"\r", End::Etx, b"1<9"),
    (b"5551234\r", 241, b"\r", End::Etx, b">;9"),
    (b"5551234\r", 242, b"\r", End::Etx, b">?:"),
    (b"5551234\r", 242, b"", End::Us, b"?09"),
    (b"", 158, b"\r", End::Etx, b"830"),
    (b"", 159, b"\r", End::Etx, b"871"),
    (b"", 250, b"", End::Us, b"?9;"),
    (b"A", 0, b"", End::Us, b"062"),
    (b"", 251, b"", End::Us, b"?=<"),
    (b"", 252, b"", End::Us, b"01="),
];

/// A block without its CR, and where its body ends.
fn characters(alloc: Global, block: &Block) -> Result<(Vec<u8>, usize), AllocError> {
    let (front, letters, rest, end, written) = block;
    let mut characters = spelled(alloc, &[(b"\x02", 0), (*front, *letters), (*rest, 0)])?;
    let behind = characters.len();
    characters.push(end_character(*end))?;
    characters.extend_from_slice(*written)?;
    Ok((characters, behind))
}

/// The character of an end.
fn end_character(end: End) -> u8 {
    match end {
        End::Etx => 0x03,
        End::Etb => 0x17,
        End::Us => 0x1F,
    }
}

/// Feeds bytes, and says whether none of them completed an item.
fn is_silent(scanner: &mut Scanner, bytes: &[u8]) -> bool {
    for byte in bytes {
        if scanner.feed(*byte).is_some() {
            return false;
        }
    }
    true
}

#[test]
fn sums_are_the_worked_ones(rt: HostRuntime) -> Result<(), Fail> {
    for (k, block) in BLOCKS.iter().enumerate() {
        let (characters, behind) = characters(rt.alloc(), block)?;
        let whole = characters.get(..behind.wrapping_add(1)).unwrap_or(&[]);
        assert_eq!(rt; sum(whole).as_slice(), block.4, "block {k}");
    }
    Ok(())
}

/// Each block is read at its CR and not before, with its body, of which the first 250 characters are kept.
#[test]
fn worked_blocks_are_read(rt: HostRuntime) -> Result<(), Fail> {
    for (k, block) in BLOCKS.iter().enumerate() {
        let (characters, behind) = characters(rt.alloc(), block)?;
        let body = characters.get(1..behind).unwrap_or(&[]);
        let mut scanner = Scanner::blocks();
        assert!(rt; is_silent(&mut scanner, &characters), "block {k}");
        let read = Item::Block {
            end: block.3,
            sum_ok: true,
            length: body.len().min(251) as u32,
        };
        assert_eq!(rt; scanner.feed(b'\r'), Some(read), "block {k}");
        assert_eq!(rt;
            Some(scanner.body()),
            body.get(..body.len().min(250)),
            "block {k}"
        );
    }
    Ok(())
}

/// The last character of the sum is another, or has its parity bit.
#[test]
fn a_wrong_sum_is_told(rt: HostRuntime) -> Result<(), Fail> {
    for (k, block) in BLOCKS.iter().enumerate() {
        for (turned, right) in [(0x01u8, false), (0x40, false), (0x80, true)] {
            let (mut characters, _) = characters(rt.alloc(), block)?;
            let last = characters.pop().unwrap_or(0);
            characters.push(last ^ turned)?;
            let mut scanner = Scanner::blocks();
            assert!(rt;
                is_silent(&mut scanner, &characters),
                "block {k}, bits {turned:x}"
            );
            let item = scanner.feed(b'\r');
            assert!(rt;
                matches!(item, Some(Item::Block { sum_ok, .. }) if sum_ok == right),
                "block {k}, bits {turned:x}"
            );
        }
    }
    Ok(())
}

/// Blocks with a wrong trailer: a body of so many letters A, its end and the trailer, and how many characters of the body are counted.
const WRONG: [(usize, &[u8], u32); 3] = [
    (249, b"\x1F?9;\r", 249),
    (250, b"\x1F?9;1", 250),
    (600, b"\x178\r", 251),
];

#[test]
fn a_wrong_trailer_ends_a_long_body(rt: HostRuntime) -> Result<(), Fail> {
    for (letters, behind, counted) in &WRONG {
        let mut characters = spelled(rt.alloc(), &[(b"\x02", *letters), (*behind, 0)])?;
        let last = characters.pop().unwrap_or(0);
        let mut scanner = Scanner::blocks();
        assert!(rt; is_silent(&mut scanner, &characters), "{letters} letters");
        let item = scanner.feed(last);
        assert!(rt;
            matches!(item, Some(Item::Block { sum_ok: false, length, .. }) if length == *counted)
        );
    }
    Ok(())
}
