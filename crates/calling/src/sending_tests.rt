//! Worked calls of a client over a wire in memory, in several cuts, and calls whose wire or output fails.

use crate::sending_pages::send;
use endings::statuses::Status;
use std::alloc::Global;
use std::test::Fail;
use tap_entry::Pages;
use wires::fake_wire::MemoryWire;
use wires::fakes::MemorySink;

/// Two pages.
const TWO: &[u8] = b"PG1\n5551234 HELLO\n999 X\n";

/// A terminal that accepts the first page of these and abandons the second.
const HEARD: &[u8] = b"ID=\x06\r\x1B[p\r\x06\r\x1E\r\x1B\x04\r";

/// What a client says to it.
const SAID: &[u8] = b"\r\x1BPG1\r\x025551234\rHELLO\r\x032?<\r\x02999\rX\r\x03122\r\x04\r";

/// What a row shows, a pages file, what is heard, what is said, what is printed, and the status.
type Row = (
    &'static str,
    &'static [u8],
    &'static [u8],
    &'static [u8],
    &'static [u8],
    Status,
);

const ROWS: [Row; 5] = [
    (
        "both are sent",
        TWO,
        b"ID=\x06\r\x1B[p\r\x06\r\x06\r\x1B\x04\r",
        SAID,
        b"1 sent\n2 sent\n",
        Status::Done,
    ),
    (
        "the terminal ends behind the first page",
        TWO,
        b"ID=\x06\r\x1B[p\r\x06\r\x1B\x04\r",
        b"\r\x1BPG1\r\x025551234\rHELLO\r\x032?<\r\x02999\rX\r\x03122\r",
        b"1 sent\n2 disconnected\n",
        Status::SomeUnsent,
    ),
    (
        "the terminal hangs up at the first page",
        TWO,
        b"ID=\x06\r\x1B[p\r",
        b"\r\x1BPG1\r\x025551234\rHELLO\r\x032?<\r",
        b"1 disconnected\n2 disconnected\n",
        Status::SomeUnsent,
    ),
    (
        "a terminal that says nothing",
        TWO,
        b"",
        b"\r",
        b"1 no-logon\n2 no-logon\n",
        Status::LogonRefused,
    ),
    (
        "no page",
        b"PG1SECRET\n",
        b"ID=\x06\r\x1B[p\r",
        b"\r\x1BPG1SECRET\r\x04\r",
        b"",
        Status::Done,
    ),
];

/// Which call to the wire fails, what is said, and what is printed. The calls are `dial`, `say`, a `hear`, four times `say`, and
/// `hang_up`.
const FAILING: [(u64, &[u8], &[u8]); 8] = [
    (1, b"", b"1 no-logon\n2 no-logon\n"),
    (2, b"", b"1 no-logon\n2 no-logon\n"),
    (3, b"\r", b"1 no-logon\n2 no-logon\n"),
    (4, b"\r", b"1 no-logon\n2 no-logon\n"),
    (5, b"\r\x1BPG1\r", b"1 disconnected\n2 disconnected\n"),
    (
        6,
        b"\r\x1BPG1\r\x025551234\rHELLO\r\x032?<\r",
        b"1 sent\n2 disconnected\n",
    ),
    (
        7,
        b"\r\x1BPG1\r\x025551234\rHELLO\r\x032?<\r\x02999\rX\r\x03122\r",
        b"1 sent\n2 abandoned\n",
    ),
    (8, SAID, b"1 sent\n2 abandoned\n"),
];

/// How many bytes are said once so many bytes of the first row were heard, the last first.
const OWED: [(u64, u64); 5] = [(13, 40), (11, 38), (9, 26), (3, 6), (0, 1)];

/// How many letters come before a prompt and Go, and the status where the last character of Go is the 999,999th, and the next one.
const LETTERS: [(usize, Status); 2] = [
    (999_989, Status::SomeUnsent),
    (999_990, Status::LogonRefused),
];

/// The pages of a file.
fn pages(alloc: Global, file: &[u8]) -> Result<Pages, Fail> {
    match Pages::read(alloc, file) {
        Ok(pages) => Ok(pages),
        Err(_) => Err(Fail::from("the pages file is refused")),
    }
}

#[test]
fn pages_are_sent_and_reported(rt: HostRuntime) -> Result<(), Fail> {
    for (name, file, heard, said, printed, status) in &ROWS {
        for cut in [1, 5, 100] {
            let pages = pages(rt.alloc(), *file)?;
            let heard = [Vec::from_slice(rt.alloc(), *heard)?];
            let mut wire = MemoryWire::new(rt.alloc(), &heard, cut, 100, &[])?;
            let mut out = MemorySink::new(rt.alloc(), 100, &[])?;
            assert_eq!(rt;
                send(&mut wire, "host:7000", &pages, &mut out),
                *status,
                "{name}, cut {cut}"
            );
            assert_eq!(rt; wire.said(0), *said, "{name}, cut {cut}");
            assert_eq!(rt; out.bytes(), *printed, "{name}, cut {cut}");
        }
    }
    Ok(())
}

#[test]
fn each_piece_is_said_before_more_is_heard(rt: HostRuntime) -> Result<(), Fail> {
    for cut in 1..=HEARD.len() {
        let pages = pages(rt.alloc(), TWO)?;
        let heard = [Vec::from_slice(rt.alloc(), HEARD)?];
        let mut wire = MemoryWire::new(rt.alloc(), &heard, cut, 40, &[])?;
        let mut out = MemorySink::new(rt.alloc(), 40, &[])?;
        assert_eq!(rt;
            send(&mut wire, "host:7000", &pages, &mut out),
            Status::SomeUnsent
        );
        assert_eq!(rt; wire.turns(0).len(), HEARD.len().div_ceil(cut), "cut {cut}");
        for (heard, said) in wire.turns(0) {
            let owed = OWED.iter().find(|row| row.0 <= *heard);
            assert_eq!(rt; owed.map(|row| row.1), Some(*said), "cut {cut}");
        }
    }
    Ok(())
}

#[test]
fn outcomes_are_printed_after_a_fault(rt: HostRuntime) -> Result<(), Fail> {
    for (call, said, printed) in &FAILING {
        let pages = pages(rt.alloc(), TWO)?;
        let heard = [Vec::from_slice(rt.alloc(), HEARD)?];
        let mut wire = MemoryWire::new(rt.alloc(), &heard, 100, 100, &[*call])?;
        let mut out = MemorySink::new(rt.alloc(), 100, &[])?;
        assert_eq!(rt;
            send(&mut wire, "host:7000", &pages, &mut out),
            Status::WireFault
        );
        assert_eq!(rt; wire.said(0), *said, "call {call}");
        assert_eq!(rt; out.bytes(), *printed, "call {call}");
    }
    Ok(())
}

#[test]
fn an_output_that_fails_is_told(rt: HostRuntime) -> Result<(), Fail> {
    let pages = pages(rt.alloc(), TWO)?;
    let heard = [Vec::from_slice(rt.alloc(), HEARD)?];
    let mut wire = MemoryWire::new(rt.alloc(), &heard, 100, 100, &[1])?;
    let mut out = MemorySink::new(rt.alloc(), 100, &[2])?;
    assert_eq!(rt;
        send(&mut wire, "host:7000", &pages, &mut out),
        Status::OutFault
    );
    assert_eq!(rt; out.bytes(), b"1 no-logon\n".as_slice());
    Ok(())
}

#[test]
fn the_millionth_character_ends_a_call(rt: HostRuntime) -> Result<(), Fail> {
    for (letters, status) in &LETTERS {
        let pages = pages(rt.alloc(), TWO)?;
        let mut bytes = vec![in rt.alloc(); b'x'; *letters]?;
        bytes.extend_from_slice(b"\rID=\x06\r\x1B[p\r")?;
        bytes.extend_from_slice(b"\x06\r\x06\r")?;
        let heard = [bytes];
        let mut wire = MemoryWire::new(rt.alloc(), &heard, 4096, 100, &[])?;
        let mut out = MemorySink::new(rt.alloc(), 100, &[])?;
        assert_eq!(rt;
            send(&mut wire, "host:7000", &pages, &mut out),
            *status,
            "{letters} letters"
        );
    }
    Ok(())
}
