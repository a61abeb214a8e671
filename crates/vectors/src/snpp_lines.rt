//! Runs of `snpp`: docs/profile.md, "snpp", "SNPP lines" and "SNPP session".

use crate::runs::{HELLO, Left, Objects, TO_GROUP, files, joined, run_over};
use crate::sessions::{Air, S2, is_air};
use station::Status;
use std::alloc::Global;
use std::test::Fail;

/// The words that serve one connection.
const SNPP: &[&str] = &["snpp", "127.0.0.1:7000", "s1.toml", "air.bin", "1"];

/// What a run shows, what is heard, what is said, the line of the session, and what the file of the air has.
struct Row {
    name: &'static str,
    heard: &'static [u8],
    said: &'static [u8],
    line: &'static [u8],
    air: Air,
}

const ROWS: [Row; 3] = [
    Row {
        name: "a page",
        heard: b"PAGE 5551234\r\nMESS HELLO\r\nSEND\r\nQUIT\r\n",
        said: b"220 pocsag\r\n250 OK\r\n250 OK\r\n250 OK\r\n221 bye\r\n",
        line: b"snpp 1 ended pages 1 refused 0\n",
        air: Air::Words(1, HELLO),
    },
    Row {
        name: "a page to a group",
        heard: b"MESS A\r\nPAGE 900\r\nSEND\r\nQUIT\r\n",
        said: b"220 pocsag\r\n250 OK\r\n250 OK\r\n250 OK\r\n221 bye\r\n",
        line: b"snpp 1 ended pages 3 refused 0\n",
        air: Air::Words(2, TO_GROUP),
    },
    Row {
        name: "refused lines",
        heard: b"SEND\r\npage 999\r\nPAGE 5550002\r\nMESS abc\r\nSEND\r\nSEND\r\nQUIT\r\n",
        said: b"220 pocsag\r\n503 incomplete\r\n550 pager\r\n250 OK\r\n250 OK\r\n554 text\r\n503 incomplete\r\n221 bye\r\n",
        line: b"snpp 1 ended pages 0 refused 4\n",
        air: Air::Empty,
    },
];

/// Runs the program with these words, where these bytes are heard in pieces of so many at most.
fn served(alloc: Global, words: &[&str], heard: &[u8], cut: usize) -> Result<Left, Fail> {
    let settings = joined(alloc, S2)?;
    let files = files(alloc, &[("s1.toml", &settings)])?;
    let objects = Objects {
        heard,
        files: &files,
        input: b"",
        cut,
        faults: &[],
    };
    run_over(alloc, words, objects)
}

#[test]
fn each_cut_of_lines_gives_the_same_replies_and_air(rt: HostRuntime) -> Result<(), Fail> {
    for row in &ROWS {
        let name = row.name;
        for cut in 1..=row.heard.len() {
            let left = served(rt.alloc(), SNPP, row.heard, cut)?;
            assert_eq!(rt; left.status, Status::Done, "{name}, cut {cut}");
            assert_eq!(rt; left.said.as_slice(), row.said, "{name}, cut {cut}");
            assert_eq!(rt; left.out.as_slice(), row.line, "{name}, cut {cut}");
            assert!(rt; left.err.is_empty(), "{name}, cut {cut}");
            assert!(rt; left.air.is_some(), "{name}, cut {cut}");
            let air = left.air.unwrap_or(Vec::new(rt.alloc()));
            assert!(rt; is_air(rt.alloc(), row.air, &air)?, "{name}, cut {cut}");
        }
    }
    Ok(())
}

/// Words that aren't of the form of `snpp`, or name a settings file that isn't there, and their status.
const REFUSED_WORDS: [(&[&str], Status); 4] = [
    (
        &["snpp", "127.0.0.1:7000", "s1.toml", "air.bin", "0"],
        Status::Usage,
    ),
    (&["snpp", "127.0.0.1:7000", "s1.toml", "1"], Status::Usage),
    (
        &["SNPP", "127.0.0.1:7000", "s1.toml", "air.bin", "1"],
        Status::Usage,
    ),
    (
        &["snpp", "127.0.0.1:7000", "none.toml", "air.bin", "1"],
        Status::FileFault,
    ),
];

#[test]
fn refused_words_serve_no_connection(rt: HostRuntime) -> Result<(), Fail> {
    for (words, status) in REFUSED_WORDS {
        let left = served(rt.alloc(), words, b"QUIT\r\n", 6)?;
        assert_eq!(rt; left.status, status, "{words:?}");
        assert!(rt; left.said.is_empty() && left.out.is_empty(), "{words:?}");
        assert!(rt; left.air.is_none(), "{words:?}");
    }
    Ok(())
}
