//! Runs of `send`: docs/profile.md, "send" and "outcomes".

use crate::runs::{Left, Objects, files, run_over};
use station::Status;
use std::alloc::Global;
use std::test::Fail;

/// Two pages.
pub(crate) const TWO: &[u8] = b"PG1\n5551234 HELLO\n999 X\n";

/// A terminal that accepts the first of them and abandons the second.
pub(crate) const HEARD: &[u8] = b"ID=\x06\r\x1B[p\r\x06\r\x1E\r\x1B\x04\r";

/// The words that send them.
pub(crate) const SEND: &[&str] = &["send", "127.0.0.1:7000", "pages.txt"];

/// What a row shows; the pages file; what is heard; the status and its code, what is said, the lines of the pages, and the line about the status.
struct Row {
    name: &'static str,
    pages: &'static [u8],
    heard: &'static [u8],
    status: Status,
    code: u8,
    said: &'static [u8],
    lines: &'static [u8],
    line: &'static [u8],
}

const ROWS: [Row; 6] = [
    Row {
        name: "one sent, one abandoned",
        pages: TWO,
        heard: HEARD,
        status: Status::SomeUnsent,
        code: 13,
        said: b"\r\x1BPG1\r\x025551234\rHELLO\r\x032?<\r\x02999\rX\r\x03122\r\x04\r",
        lines: b"1 sent\n2 abandoned\n",
        line: b"pocsag: some pages unsent\n",
    },
    Row {
        name: "the logon is refused",
        pages: TWO,
        heard: b"ID=\x15\r\x15\r\x15\r",
        status: Status::LogonRefused,
        code: 12,
        said: b"\r\x1BPG1\r\x1BPG1\r\x1BPG1\r",
        lines: b"1 no-logon\n2 no-logon\n",
        line: b"pocsag: logon refused\n",
    },
    Row {
        name: "the tries are spent",
        pages: TWO,
        heard: b"ID=\x06\r\x1B[p\r\x15\r\x15\r\x15\r",
        status: Status::SomeUnsent,
        code: 13,
        said: b"\r\x1BPG1\r\x025551234\rHELLO\r\x032?<\r\x025551234\rHELLO\r\x032?<\r\x025551234\rHELLO\r\x032?<\r\x04\r",
        lines: b"1 tries-spent\n2 disconnected\n",
        line: b"pocsag: some pages unsent\n",
    },
    Row {
        name: "one page, sent",
        pages: b"PG1\n5551234 HELLO\n",
        heard: b"ID=\x06\r\x1B[p\r\x06\r\x1B\x04\r",
        status: Status::Done,
        code: 0,
        said: b"\r\x1BPG1\r\x025551234\rHELLO\r\x032?<\r\x04\r",
        lines: b"1 sent\n",
        line: b"",
    },
    Row {
        name: "an id that is none",
        pages: b"PG1\n12a X\n",
        heard: b"ID=",
        status: Status::BadPages,
        code: 15,
        said: b"",
        lines: b"",
        line: b"pocsag: pages file: line 2\n",
    },
    Row {
        name: "a first line that is none",
        pages: b"PG2\n",
        heard: b"ID=",
        status: Status::BadPages,
        code: 15,
        said: b"",
        lines: b"",
        line: b"pocsag: pages file: line 1\n",
    },
];

/// Sends the pages of a row, where what is heard comes in pieces of so many bytes at most.
fn sent(alloc: Global, row: &Row, cut: usize) -> Result<Left, Fail> {
    let files = files(alloc, &[("pages.txt", row.pages)])?;
    let objects = Objects {
        heard: row.heard,
        files: &files,
        input: b"",
        cut,
        faults: &[],
    };
    run_over(alloc, SEND, objects)
}

#[test]
fn pages_are_sent_and_told(rt: HostRuntime) -> Result<(), Fail> {
    for row in &ROWS {
        let name = row.name;
        for cut in [1, 5, 100] {
            let left = sent(rt.alloc(), row, cut)?;
            assert_eq!(rt; left.status, row.status, "{name}, cut {cut}");
            assert_eq!(rt; left.status.code(), row.code, "{name}, cut {cut}");
            assert_eq!(rt; left.said.as_slice(), row.said, "{name}, cut {cut}");
            assert_eq!(rt; left.out.as_slice(), row.lines, "{name}, cut {cut}");
            assert_eq!(rt; left.err.as_slice(), row.line, "{name}, cut {cut}");
        }
    }
    Ok(())
}
