//! Pages files: what they say, and why they are refused.

use crate::*;
use std::alloc::{AllocError, Global};
use std::process::Abort;
use std::test::Fail;

/// A file, its password, and its pages by id and text.
type Good = (
    &'static [u8],
    Option<[u8; 6]>,
    &'static [(&'static [u8], &'static [u8])],
);

/// Files that are read.
const GOOD: [Good; 9] = [
    (b"PG1\n", None, &[]),
    (b"PG1SECRET\n", Some(*b"SECRET"), &[]),
    (b"PG1!~!~!~\n", Some(*b"!~!~!~"), &[]),
    (
        b"PG1\n5551234 HELLO\n999 X\n",
        None,
        &[(b"5551234", b"HELLO"), (b"999", b"X")],
    ),
    (
        b"PG1\n1 \n0123456789  ~ \n",
        None,
        &[(b"1", b""), (b"0123456789", b" ~ ")],
    ),
    (b"PG1\n1 a\\\\b\\nc\\rd\n", None, &[(b"1", b"a\\b\nc\rd")]),
    (
        b"PG1\n1 \\x00\\x1f\\x1F\\x41\\x7e\\x7E\\x5c\n",
        None,
        &[(b"1", b"\x00\x1F\x1FA~~\\")],
    ),
    (b"PG1\n1 \\\\n\\\\x41\n", None, &[(b"1", b"\\n\\x41")]),
    (b"PG1\n1 PG1\n", None, &[(b"1", b"PG1")]),
];

/// Files that are refused, with the number of their first wrong line.
const WRONG: [(&[u8], u32); 44] = [
    (b"", 1),
    (b"\n", 1),
    (b"PG1", 1),
    (b"PG", 1),
    (b"pg1\n", 1),
    (b"PG2\n", 1),
    (b" PG1\n", 1),
    (b"PG1 \n", 1),
    (b"PG1\r\n", 1),
    (b"PG1SECRE\n", 1),
    (b"PG1SECRETS\n", 1),
    (b"PG1SECRET", 1),
    (b"PG1SEC ET\n", 1),
    (b"PG1SEC\x7FET\n", 1),
    (b"PG1SECR\x7FT\n", 1),
    (b"PG1SECR\xC1T\n", 1),
    (b"PG1SECR\nT\n", 1),
    (b"PG1\n\n", 2),
    (b"PG1\n1\n", 2),
    (b"PG1\n X\n", 2),
    (b"PG1\n12a X\n", 2),
    (b"PG1\n12\tX\n", 2),
    (b"PG1\n01234567890 X\n", 2),
    (b"PG1\n1 X", 2),
    (b"PG1\n1 ", 2),
    (b"PG1\n1", 2),
    (b"PG1\n1 X\r\n", 2),
    (b"PG1\n1 \x1F\n", 2),
    (b"PG1\n1 \x7F\n", 2),
    (b"PG1\n1 \xC1\n", 2),
    (b"PG1\n1 \\\n", 2),
    (b"PG1\n1 \\", 2),
    (b"PG1\n1 \\N\n", 2),
    (b"PG1\n1 \\t\n", 2),
    (b"PG1\n1 \\X41\n", 2),
    (b"PG1\n1 \\x4\n", 2),
    (b"PG1\n1 \\x\n", 2),
    (b"PG1\n1 \\x4g\n", 2),
    (b"PG1\n1 \\xG4\n", 2),
    (b"PG1\n1 \\x7f\n", 2),
    (b"PG1\n1 \\x80\n", 2),
    (b"PG1\n1 X\n2 Y", 3),
    (b"PG1\n1 X\nx\ny\n", 3),
    (b"PG1\n1 X\n2 Y\n\n", 4),
];

/// The fault of a file. None where it is read.
fn fault(alloc: Global, file: &[u8]) -> Option<PagesFault> {
    Pages::read(alloc, file).err()
}

/// Whether the pages of a file are these.
fn says(pages: &Pages, wanted: &[(&[u8], &[u8])]) -> bool {
    if pages.count() != wanted.len() {
        return false;
    }
    for (k, (id, text)) in wanted.iter().enumerate() {
        if pages.id(k) != *id || pages.text(k) != *text {
            return false;
        }
    }
    true
}

#[test]
fn files_are_read(rt: HostRuntime) -> Result<(), Fail> {
    for (number, (file, password, pages)) in GOOD.iter().enumerate() {
        match Pages::read(rt.alloc(), *file) {
            Ok(read) => {
                assert_eq!(rt; read.password(), *password, "file {number}");
                assert!(rt; says(&read, *pages), "file {number}");
            }
            Err(_) => assert!(rt; false, "file {number}"),
        }
    }
    Ok(())
}

#[test]
fn files_are_refused_at_their_first_wrong_line(rt: HostRuntime) {
    for (number, (file, line)) in WRONG.iter().enumerate() {
        let wanted = Some(PagesFault::Line(*line));
        assert_eq!(rt; fault(rt.alloc(), *file), wanted, "file {number}");
    }
}

/// A first piece, then a second one so many times, then a third.
fn repeated(
    alloc: Global,
    front: &[u8],
    piece: &[u8],
    count: usize,
    end: &[u8],
) -> Result<Vec<u8>, AllocError> {
    let mut file = Vec::from_slice(alloc, front)?;
    for _ in 0..count {
        file.extend_from_slice(piece)?;
    }
    file.extend_from_slice(end)?;
    Ok(file)
}

/// Pieces of a file, how often the second one stands, and the fault.
const LONG: [(&[u8], &[u8], usize, &[u8], Option<PagesFault>); 8] = [
    (b"PG1\n1 ", b"A", 1000, b"\n", None),
    (b"PG1\n1 ", b"A", 1001, b"\n", Some(PagesFault::Line(2))),
    (b"PG1\n1 ", b"\\x41", 1000, b"\n", None),
    (b"PG1\n1 ", b"\\n", 1001, b"\n", Some(PagesFault::Line(2))),
    (b"PG1\n", b"1 X\n", 1000, b"", None),
    (b"PG1\n", b"1 X\n", 1001, b"", Some(PagesFault::Line(1002))),
    (
        b"PG1\n",
        b"1 X\n",
        1000,
        b"\n",
        Some(PagesFault::Line(1002)),
    ),
    (
        b"PG1\n",
        b"1 X\n",
        999,
        b"x\n",
        Some(PagesFault::Line(1001)),
    ),
];

#[test]
fn texts_and_pages_have_their_most(rt: HostRuntime) -> Result<(), Fail> {
    for (front, piece, count, end, wanted) in LONG {
        let file = repeated(rt.alloc(), front, piece, count, end)?;
        assert_eq!(rt; fault(rt.alloc(), &file), wanted, "{count} times");
    }
    Ok(())
}

#[test]
fn files_have_their_most_bytes(rt: HostRuntime) -> Result<(), Fail> {
    let file = repeated(rt.alloc(), b"PG1\n", b" ", 1_048_572, b"")?;
    assert_eq!(rt; fault(rt.alloc(), &file), Some(PagesFault::Line(2)));
    let file = repeated(rt.alloc(), b"PG1\n", b" ", 1_048_573, b"")?;
    assert_eq!(rt; fault(rt.alloc(), &file), Some(PagesFault::Long));
    Ok(())
}
