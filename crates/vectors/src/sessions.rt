//! Runs of `station`, from the bytes of a connection to the lines that receivers print: sessions by rows, one in each cut, and a second
//! connection that doesn't come. docs/profile.md, "session" and "station".

use crate::runs::{HELLO, IDLE, Left, Object, Objects, air_of, files, joined, run_over, spelled};
use crate::session_rows::{ACCEPTED, REFUSED};
use station::Status;
use std::alloc::{AllocError, Global};
use std::process::Abort;
use std::test::Fail;

/// Six subscribers.
pub(crate) const S1: &[u8] = b"cells = 64
subscriber = [
  {id = \"5551234\", capcode = 8, class = \"alpha\"},
  {id = \"5550002\", capcode = 9, class = \"numeric\"},
  {id = \"15\", capcode = 15, class = \"tone1\"},
  {id = \"8\", capcode = 8, class = \"tone1\"},
  {id = \"16\", capcode = 16, class = \"tone1\"},
  {id = \"7\", capcode = 15, class = \"alpha\"},
]
";

/// What a file of version 2 begins with.
pub(crate) const VERSION_2: &[u8] = b"version = 2\n";

/// A group of three capcodes, two of them of frame 0 and one of frame 7.
pub(crate) const GROUP: &[u8] =
    b"[[group]]\nid = \"900\"\ncapcodes = [8, 15, 2000]\nclass = \"alpha\"\n";

/// The six subscribers and the group.
pub(crate) const S2: &[&[u8]] = &[VERSION_2, S1, GROUP];

/// A logon, a block, and goodbye.
pub(crate) const HELLO_SESSION: &[u8] = b"\r\x1BPG1\r\x025551234\rHELLO\r\x032?<\r\x04\r";

/// The line of that session.
pub(crate) const HELLO_LINE: &[u8] =
    b"session 1 ended pages 1 continued 0 nak 0 body 0 content 0 form 0 unknown 0 text 0 room 0 wrong 0\n";

/// The words that serve one connection.
pub(crate) const STATION: &[&str] = &["station", "127.0.0.1:7000", "s1.toml", "air.bin", "1"];

/// What the file has: nothing; so many batches, of which exactly so many words at the end are idle; or so many batches whose words are
/// idle but for those in these slots, counted from 0.
#[derive(Clone, Copy)]
pub(crate) enum Air {
    Empty,
    Ends(usize, usize),
    Words(usize, &'static [(usize, u32)]),
}

/// What a row shows; the pieces of a settings file; what is heard, each piece with so many letters A behind it; what is said; the line of the session; what the file
/// of the air has; the capcodes that are listened to, and the lines of the pages that are heard.
pub(crate) struct Row {
    pub(crate) name: &'static str,
    pub(crate) settings: &'static [&'static [u8]],
    pub(crate) heard: &'static [(&'static [u8], usize)],
    pub(crate) said: &'static [u8],
    pub(crate) line: &'static [u8],
    pub(crate) air: Air,
    pub(crate) capcodes: &'static [&'static str],
    pub(crate) pages: &'static [u8],
}

/// Serves one connection, on which these bytes are heard in pieces of so many at most.
pub(crate) fn served(
    alloc: Global,
    settings: &[u8],
    heard: &[u8],
    cut: usize,
) -> Result<Left, Fail> {
    let files = files(alloc, &[("s1.toml", settings)])?;
    let objects = Objects {
        heard,
        files: &files,
        input: b"",
        cut,
        faults: &[],
    };
    run_over(alloc, STATION, objects)
}

/// What `play` leaves over these bytes.
fn played(alloc: Global, air: &[u8], capcodes: &[&str]) -> Result<Left, Fail> {
    let mut words = Vec::new(alloc);
    words.extend_from_slice(&["play", "air.bin"])?;
    words.extend_from_slice(capcodes)?;
    let files = files(alloc, &[("air.bin", air)])?;
    let objects = Objects {
        heard: b"",
        files: &files,
        input: b"",
        cut: 1,
        faults: &[],
    };
    run_over(alloc, &words, objects)
}

/// How many words at the end are idle.
fn idle_words(air: &[u8]) -> usize {
    let mut count = 0usize;
    for word in air.chunks(4) {
        let is_idle = word == IDLE.to_be_bytes().as_slice();
        count = if is_idle { count.wrapping_add(1) } else { 0 };
    }
    count
}

/// How many bytes so many batches have, and the preamble before them.
fn size_of(batches: usize) -> usize {
    batches.wrapping_mul(68).wrapping_add(72)
}

/// Whether these bytes are the air.
pub(crate) fn is_air(alloc: Global, air: Air, bytes: &[u8]) -> Result<bool, AllocError> {
    match air {
        Air::Empty => Ok(bytes.is_empty()),
        Air::Ends(batches, idle) => {
            Ok(bytes.len() == size_of(batches) && idle_words(bytes) == idle)
        }
        Air::Words(batches, words) => Ok(bytes == air_of(alloc, batches, words)?.as_slice()),
    }
}

/// Compares what each row says with what its session leaves, and with what receivers then print.
fn compare(rt: &impl Abort, alloc: Global, rows: &[Row]) -> Result<(), Fail> {
    for row in rows {
        let name = row.name;
        let settings = joined(alloc, row.settings)?;
        let heard = spelled(alloc, row.heard)?;
        for cut in [1, 7, 100] {
            let left = served(alloc, &settings, &heard, cut)?;
            assert_eq!(rt; left.status, Status::Done, "{name}, cut {cut}");
            assert_eq!(rt; left.said.as_slice(), row.said, "{name}, cut {cut}");
            assert_eq!(rt; left.out.as_slice(), row.line, "{name}, cut {cut}");
            assert!(rt; left.err.is_empty(), "{name}, cut {cut}");
            let air = left.air.unwrap_or(Vec::new(alloc));
            assert!(rt; is_air(alloc, row.air, &air)?, "{name}, cut {cut}");
            let played = played(alloc, &air, row.capcodes)?;
            assert_eq!(rt; played.status, Status::Done, "{name}, cut {cut}");
            assert_eq!(rt; played.out.as_slice(), row.pages, "{name}, cut {cut}");
        }
    }
    Ok(())
}

#[test]
fn what_is_accepted_is_heard(rt: HostRuntime) -> Result<(), Fail> {
    compare(&rt, rt.alloc(), &ACCEPTED)
}

#[test]
fn what_is_refused_is_not_heard(rt: HostRuntime) -> Result<(), Fail> {
    compare(&rt, rt.alloc(), &REFUSED)
}

/// What is said in it.
const SAID: &[u8] = b"ID=\x06\r\x1B[p\r\x06\r\x1B\x04\r";

#[test]
fn each_cut_gives_the_same_air(rt: HostRuntime) -> Result<(), Fail> {
    let air = air_of(rt.alloc(), 1, HELLO)?;
    for cut in 1..=HELLO_SESSION.len() {
        let left = served(rt.alloc(), S1, HELLO_SESSION, cut)?;
        assert_eq!(rt; left.status, Status::Done, "cut {cut}");
        assert_eq!(rt; left.said.as_slice(), SAID, "cut {cut}");
        assert_eq!(rt; left.out.as_slice(), HELLO_LINE, "cut {cut}");
        assert_eq!(rt; left.air.as_deref(), Some(air.as_slice()), "cut {cut}");
    }
    Ok(())
}

/// How many bytes are said once so many bytes of the session were heard, the last first.
const OWED: [(u64, u64); 5] = [(28, 14), (26, 11), (6, 9), (1, 3), (0, 0)];

/// How many bytes are said once so many were heard.
fn owed(heard: u64) -> Option<u64> {
    for (from, said) in OWED {
        if from <= heard {
            return Some(said);
        }
    }
    None
}

#[test]
fn a_run_answers_before_more_is_heard(rt: HostRuntime) -> Result<(), Fail> {
    for cut in 1..=HELLO_SESSION.len() {
        let left = served(rt.alloc(), S1, HELLO_SESSION, cut)?;
        assert_eq!(rt;
            left.turns.len(),
            HELLO_SESSION.len().div_ceil(cut),
            "cut {cut}"
        );
        for (heard, said) in &left.turns {
            assert_eq!(rt; owed(*heard), Some(*said), "cut {cut}");
        }
    }
    Ok(())
}

/// What it shows, the calls that fail, the status, its code, and the line about it. The tenth call of the wire is the second `next`.
type SecondConnection = (
    &'static str,
    &'static [(Object, u64)],
    Status,
    u8,
    &'static [u8],
);

const SECOND_CONNECTIONS: [SecondConnection; 2] = [
    ("no further connection comes", &[], Status::Done, 0, b""),
    (
        "the second next fails",
        &[(Object::Wire, 10)],
        Status::WireFault,
        5,
        b"pocsag: line\n",
    ),
];

/// The first session's air and line stand.
#[test]
fn a_second_connection_that_does_not_come(rt: HostRuntime) -> Result<(), Fail> {
    let air = air_of(rt.alloc(), 1, HELLO)?;
    let files = files(rt.alloc(), &[("s1.toml", S1)])?;
    for (name, faults, status, code, line) in &SECOND_CONNECTIONS {
        let objects = Objects {
            heard: HELLO_SESSION,
            files: &files,
            input: b"",
            cut: 26,
            faults: *faults,
        };
        let words = &["station", "127.0.0.1:7000", "s1.toml", "air.bin", "2"];
        let left = run_over(rt.alloc(), words, objects)?;
        assert!(rt; left.failed, "{name}");
        assert_eq!(rt; left.status, *status, "{name}");
        assert_eq!(rt; left.status.code(), *code, "{name}");
        assert_eq!(rt; left.err.as_slice(), *line, "{name}");
        assert_eq!(rt; left.out.as_slice(), HELLO_LINE, "{name}");
        assert_eq!(rt; left.air.as_deref(), Some(air.as_slice()), "{name}");
    }
    Ok(())
}
