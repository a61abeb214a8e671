//! The scanner beside the plain program, over the blocks of the profile and over sessions with all that can go wrong; values and
//! fields; blocks that are written.

use crate::twin::{Found, items};
use crate::*;
use std::alloc::{AllocError, Global};
use std::process::Abort;
use std::test::Fail;
use wires::fakes::MemorySink;

/// Appends what completes an item.
fn feed(
    alloc: Global,
    scanner: &mut Scanner,
    bytes: &[u8],
    found: &mut Vec<Found>,
) -> Result<(), AllocError> {
    for byte in bytes {
        if let Some(item) = scanner.feed(*byte) {
            let is_block = matches!(item, Item::Block { .. });
            let body = if is_block { scanner.body() } else { &[] };
            found.push(Found {
                item,
                body: body.to_vec(alloc)?,
            })?;
        }
    }
    Ok(())
}

/// Compares the scanner with the plain program over a session, whole and in every cut into two.
fn compare(
    rt: &impl Abort,
    alloc: Global,
    password: Option<[u8; 6]>,
    session: &[u8],
) -> Result<(), AllocError> {
    let wanted = items(alloc, password.as_ref().map(|p| p.as_slice()), session)?;
    for cut in 0..=session.len() {
        let (front, rest) = session.split_at(cut);
        let mut scanner = Scanner::new(password);
        let mut found = Vec::new(alloc);
        feed(alloc, &mut scanner, front, &mut found)?;
        feed(alloc, &mut scanner, rest, &mut found)?;
        assert_eq!(rt; found, wanted, "cut at {cut}");
    }
    Ok(())
}

/// The sessions. Each is compared without a password and with one.
const SESSIONS: [&[u8]; 16] = [
    b"",
    b"\r\x1BPG1\r\x02123\rABC\r\x0317;\r\x04\r",
    b"\x1BPG1\r\x02123\rABC\x0316>\r\x025551234\rHELLO\r\x032?<\r",
    b"\x1BPG1\r\x02999\rX\r\x03122\r\x02HELLO\r\x03186\r\x025550002\r12 \r\x03203\r",
    b"\x1BPG1\r\x025550002\r12\r\x031>3\r\x025550002\r\r\x03180\r\x0215\r\r\x03085\r",
    b"\x1BPG1\r\x028\r\r\x03057\r\x0216\r\r\x03086\r\x027\rA\r\x03097\r",
    b"\x1BPG1\r\x025551234\rA\x1A\x1F1?2\r\x02MB\r\x030:1\r\x02A\x1F062\r",
    b"\n\r\x1BPG1\n\r\x02B\n\x17\r\x02\x030\r\x02C\x0312\r\x02D\x03123\r\x04\r",
    b"\rPG1\r\x1BPG1SECRE\r\x1BPG1SECRETS\r\x1BPG1secret\r\x02A\x1F062\r",
    b"\x1BPG1SECRET\r\x02A\x1F062\r\x04\rmore\x04\r",
    b"\x1B\nPG1S\nECR\nET\n\rjunk\x03\x17\x1F\r\x04x\x04\x04\r\x04\x02A\x1F062\r",
    b"\x1BPG1SECRET\r\x02junk\x02\x02A\x1F062\r\x02cut off",
    b"\x1BPG1SECRET\r\x02A\x1F063\r\x02A\x1F0622\x02A\x1F062\x02\x02A\x1F\x02\x03\x04\r\x04\r",
    b"\x1BPG1SECRET\r\x02A\x1F06\r\x02A\x1F0\r\x02A\x1F\r\x02A\x1F062",
    b"\x1BPG1SECRET\r\x02A\x04\rB\nC\x1F102\r\x04",
    b"PG1 and more than eleven characters\r\x1BPG1 and more\r\x1BPG1SECRET\r\x02A\x1F062\r",
];

#[test]
fn scanner_reads_sessions_as_the_plain_program(rt: HostRuntime) -> Result<(), Fail> {
    for session in SESSIONS {
        compare(&rt, rt.alloc(), None, session)?;
        compare(&rt, rt.alloc(), Some(*b"SECRET"), session)?;
    }
    Ok(())
}

/// A logon and a block, in whose body so many letters `A` stand between these characters, and goodbye.
fn letters(
    alloc: Global,
    front: &[u8],
    count: usize,
    behind: &[u8],
) -> Result<Vec<u8>, AllocError> {
    let mut session = b"\x1BPG1\r\x02".to_vec(alloc)?;
    session.extend_from_slice(front)?;
    for _ in 0..count {
        session.push(b'A')?;
    }
    session.extend_from_slice(behind)?;
    session.extend_from_slice(b"\x04\r")?;
    Ok(session)
}

#[test]
fn long_bodies_are_read_as_by_the_plain_program(rt: HostRuntime) -> Result<(), Fail> {
    let table: [(&[u8], usize, &[u8]); 13] = [
        (b"5551234\r", 1, b"\r\x031<9\r"),
        (b"5551234\r", 64, b"\r\x031<8\r"),
        (b"5551234\r", 241, b"\r\x03>;9\r"),
        (b"5551234\r", 242, b"\r\x03>?:\r"),
        (b"5551234\r", 242, b"\x1F?09\r"),
        (b"", 158, b"\r\x03830\r"),
        (b"", 159, b"\r\x03871\r"),
        (b"", 249, b"\x1F?9;\r"),
        (b"", 250, b"\x1F?9;\r"),
        (b"", 250, b"\x1F?9;1"),
        (b"", 251, b"\x1F?=<\r"),
        (b"", 252, b"\x1F01=\r"),
        (b"", 600, b"\x178\r"),
    ];
    for (front, count, behind) in table {
        let session = letters(rt.alloc(), front, count, behind)?;
        compare(&rt, rt.alloc(), None, session.as_slice())?;
    }
    Ok(())
}

#[test]
fn a_block_has_a_sum_and_fields(rt: HostRuntime) {
    assert_eq!(rt; sum(b"\x02123\rABC\r\x03"), *b"17;");
    let parts = fields(b"123\rABC\r");
    assert_eq!(rt; parts, Some((b"123".as_slice(), b"ABC".as_slice())));
}

#[test]
fn parity_bits_are_not_read(rt: HostRuntime) {
    let mut scanner = Scanner::new(Some([b'S', b'E', b'C', b'R', b'E', b'T']));
    let mut last = None;
    for c in b"\x1BPG1SECRET\r\x02A\x1F062\r" {
        last = scanner.feed(*c | 0x80);
    }
    let block = Item::Block {
        end: End::Us,
        sum_ok: true,
        length: 1,
    };
    assert_eq!(rt; last, Some(block));
    assert_eq!(rt; scanner.body(), b"A".as_slice());
}

#[test]
fn fields_have_values_or_faults(rt: HostRuntime) {
    let table: [(&[u8], Result<&[u8], FieldFault>); 9] = [
        (b"", Ok(b"")),
        (b"HELLO ~", Ok(b"HELLO ~")),
        (b"A\x1AMB", Ok(b"A\rB")),
        (b"\x1A@\x1A_", Ok(b"\x00\x1F")),
        (b"A\x1A", Err(FieldFault::SubEnd)),
        (b"\x1A?\x7F", Err(FieldFault::SubLetter)),
        (b"\x1A`", Err(FieldFault::SubLetter)),
        (b"A\x7F\x1A", Err(FieldFault::Control)),
        (b"\rA", Err(FieldFault::Control)),
    ];
    for (field, wanted) in table {
        let mut buffer = [0; 8];
        match unescape(field, &mut buffer) {
            Ok(size) => assert_eq!(rt; Ok(&buffer[..size]), wanted),
            Err(fault) => assert_eq!(rt; Err(fault), wanted),
        }
    }
}

#[test]
fn values_are_spelled(rt: HostRuntime) {
    let table: [(&str, &[u8], &[u8]); 3] = [
        ("no character", b"", b""),
        ("CR", b"A\rB~", b"A\x1AMB~"),
        ("NUL and US", b"\x00\x1F @", b"\x1A@\x1A_ @"),
    ];
    for (name, value, field) in table {
        let mut buffer = [0; 8];
        let size = escape_into(value, &mut buffer);
        assert_eq!(rt; &buffer[..size], field, "{name}");
    }
}

#[test]
fn blocks_are_written_whole(rt: HostRuntime) -> Result<(), Fail> {
    let table: [(&str, &[u8], End, &[u8]); 4] = [
        (
            "two fields",
            b"123\rABC\r",
            End::Etx,
            b"\x02123\rABC\r\x0317;\r",
        ),
        ("a part", b"A", End::Us, b"\x02A\x1F062\r"),
        ("no character", b"", End::Etb, b"\x02\x17019\r"),
        ("DEL", b"\x7F", End::Etx, b"\x02\x7F\x03084\r"),
    ];
    for (name, body, end, block) in table {
        let mut sink = MemorySink::new(rt.alloc(), 20, &[])?;
        assert!(rt; put_block(body, end, &mut sink).is_ok(), "{name}");
        assert_eq!(rt; sink.bytes(), block, "{name}");
        let mut full = MemorySink::new(rt.alloc(), 4, &[])?;
        assert!(rt; put_block(body, end, &mut full).is_err(), "{name}");
    }
    Ok(())
}
